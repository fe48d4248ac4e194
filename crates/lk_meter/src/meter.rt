//! A meter of questions.

ghost use Rattle.std.specs.Prelude.{◌≡◌, ◌<◌, ◌≤◌, ◌+◌, ◌-◌, ◌^◌, Some, None, IfOk, IfErr};
ghost use Rattle.lk_rulebook.specs.Units.{later};

/// What is left of a budget of steps, how many turns were taken, and the last unit that was looked at (the greatest
/// number).
#[derive(Clone, Copy)]
pub struct Meter {
    pub left: u128,
    pub turns: u64,
    pub last: Option<u32>,
}

/// The budget is used up.
#[derive(Clone, Copy)]
pub struct Spent;

impl Meter {
    /// A meter that has this budget left.
    pub fn new(budget: u128) -> Self
        ensures left { result.left ≡ budget }
        ensures turns { result.turns ≡ 0 }
        ensures last { result.last ≡ None }
    {
        Meter {
            left: budget,
            turns: 0,
            last: None,
        }
    }

    /// Spends so many steps. Where fewer are left, nothing is left.
    pub fn spend(&mut self, amount: u128) -> Result<(), Spent>
        ensures paid { IfOk result (λ u. (amount ≤ self.old.left)
            × (self.new.left ≡ self.old.left - amount)) }
        ensures spent { IfErr result (λ e. (self.old.left < amount) × (self.new.left ≡ 0)) }
        ensures turns { self.new.turns ≡ self.old.turns }
        ensures last { self.new.last ≡ self.old.last }
    {
        if amount > self.left {
            self.left = 0;
            return Err(Spent);
        }
        self.left -= amount;
        Ok(())
    }

    /// Counts a turn. At their greatest number turns stay.
    pub fn turn(&mut self)
        ensures left { self.new.left ≡ self.old.left }
        ensures counted { self.old.turns < 2 ^ 64 - 1 → self.new.turns ≡ self.old.turns + 1 }
        ensures most { self.old.turns ≡ 2 ^ 64 - 1 → self.new.turns ≡ self.old.turns }
        ensures last { self.new.last ≡ self.old.last }
    {
        self.turns = self.turns.saturating_add(1);
    }

    /// Notes that this unit was looked at.
    pub fn note(&mut self, unit: u32)
        ensures left { self.new.left ≡ self.old.left }
        ensures turns { self.new.turns ≡ self.old.turns }
        ensures last { self.new.last ≡ later self.old.last (Some unit) }
    {
        self.last = later(self.last, Some(unit));
    }

    /// Notes what was looked at before.
    pub fn note_before(&mut self, before: Option<u32>)
        ensures left { self.new.left ≡ self.old.left }
        ensures turns { self.new.turns ≡ self.old.turns }
        ensures last { self.new.last ≡ later before self.old.last }
    {
        self.last = later(before, self.last);
    }
}

/// The later of two units, where they are there.
fn later(before: Option<u32>, last: Option<u32>) -> Option<u32>
    ensures { result ≡ later before last }
{
    match (before, last) {
        (None, _) => last,
        (Some(_), None) => before,
        (Some(m), Some(n)) => Some(m.max(n)),
    }
}
