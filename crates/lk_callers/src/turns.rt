//! Which pass adds which text.

ghost use Rattle.std.specs.Prelude.{◌≡◌, ◌≤◌};
ghost use Rattle.lk_callers.specs.Turns.{pass_of};

/// How texts are parted: so many callers take turns, and so many passes serve them. There are fewer
/// passes than callers only where no more are had.
#[derive(Clone, Copy)]
pub(crate) struct Turns {
    pub(crate) callers: u32,
    pub(crate) passes: u32,
}

impl Turns {
    /// The number of the pass that adds the text of this number.
    pub(crate) fn pass_of(self, text: usize) -> usize
        requires callers { 1 ≤ self.callers }
        requires passes { 1 ≤ self.passes }
        ensures { result ≡ pass_of self text }
    {
        text % self.callers as usize % self.passes as usize
    }
}
