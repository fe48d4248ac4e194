//! What is kept of a tree beside its node.

/// What is kept of a tree.
#[derive(Clone, Copy)]
pub struct Marks {
    /// The least number above its loose variables.
    pub loose: u128,
    /// The least number above its Locals.
    pub local: u128,
    /// Whether a parameter stands in one of its levels.
    pub params: bool,
    /// Whether each literal in it is at most 2^128 - 1.
    pub narrow: bool,
}

ghost use Rattle.std.specs.Prelude.{◌≡◌, ◌-◌, ◌||◌, ◌&&◌, max, true, false};

impl Marks {
    /// Those of a tree that has neither variables nor Locals.
    #[inline(always)]
    pub fn closed(params: bool) -> Marks
        ensures { result ≡ record { loose = 0; local = 0; params = params; narrow = true } }
    {
        Marks {
            loose: 0,
            local: 0,
            params,
            narrow: true,
        }
    }

    /// Those of a literal that is too great.
    #[inline(always)]
    pub fn wide() -> Marks
        ensures { result ≡ record { loose = 0; local = 0; params = false; narrow = false } }
    {
        Marks {
            loose: 0,
            local: 0,
            params: false,
            narrow: false,
        }
    }

    /// Those of two trees together.
    #[inline(always)]
    pub fn and(self, other: Marks) -> Marks
        ensures { result ≡ record {
          loose = max self.loose other.loose;
          local = max self.local other.local;
          params = self.params || other.params;
          narrow = self.narrow && other.narrow;
        } }
    {
        Marks {
            loose: self.loose.max(other.loose),
            local: self.local.max(other.local),
            params: self.params || other.params,
            narrow: self.narrow && other.narrow,
        }
    }

    /// Those of a body, seen from outside its binder.
    #[inline(always)]
    pub fn under_binder(self) -> Marks
        ensures { result ≡ record self { loose = self.loose - 1 } }
    {
        Marks {
            loose: self.loose.saturating_sub(1),
            local: self.local,
            params: self.params,
            narrow: self.narrow,
        }
    }
}
