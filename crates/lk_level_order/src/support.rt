//! When a level is above 0.

ghost use Rattle.std.specs.Prelude.{◌≡◌, ◌<◌, ◌≤◌, ◌||◌, ℕ, true, false};
ghost use Rattle.lk_level_order.specs.Digits.{has_one, with_one};
ghost use Rattle.lk_level_order.specs.Covers.{IsMet};

/// When a level is above 0: under every assignment, or where one of some parameters is, which are the ones among the
/// binary digits.
#[derive(Clone, Copy)]
pub struct Support {
    pub surely: bool,
    pub by: u64,
}

pub const NEVER: Support = Support {
    surely: false,
    by: 0,
};

pub const SURELY: Support = Support {
    surely: true,
    by: 0,
};

/// Whether the binary digit at this place is 1.
fn has_digit(number: u64, n: u64) -> bool
    requires { n < 64 }
    ensures { result ≡ has_one number n }
{
    (number >> n) % 2 == 1
}

/// The number with 1 for the binary digit at this place.
pub fn put_digit(number: u64, n: u64) -> u64
    requires { n < 64 }
    ensures { result ≡ with_one number n }
{
    number | (1 << n)
}

/// The support of the greater of two levels.
pub fn either(left: Support, right: Support) -> Support
    ensures surely { result.surely ≡ (left.surely || right.surely) }
    ensures by { (n : ℕ) → has_one result.by n ≡ (has_one left.by n || has_one right.by n) }
{
    Support {
        surely: left.surely || right.surely,
        by: left.by | right.by,
    }
}

/// Whether one of the parameters puts the level above 0.
pub fn is_by(support: Support, n: u64) -> bool
    requires { n < 64 }
    ensures { result ≡ has_one support.by n }
{
    has_digit(support.by, n)
}

/// Whether the level is above 0 in a case, as far as the support tells.
pub fn is_met(support: Support, case: u64, rights: u64) -> bool
    requires { rights ≤ 20 }
    ensures yes { result ≡ true → IsMet rights support case }
    ensures no { result ≡ false → support.surely ≡ false }
{
    if support.surely {
        return true;
    }
    for n in 0..rights {
        if has_digit(support.by, n) && has_digit(case, n) {
            return true;
        }
    }
    false
}
