//! The numbers of a line: of 32 bits, or of 64 behind `#TR`.
ghost use Rattle.std.specs.Prelude.{◌≡◌, ◌≤◌, ◌<◌, ◌^◌, ℕ, List, IfSome, IfNone, map};
ghost use Rattle.std.proofs.Common.{lit≤};
ghost use Rattle.lk_lines.specs.FileNumbers.{NumberView, narrow, wide, same_values};

/// A number of a line, as wide as its kind of line has them.
pub trait FileNumber: Copy {
    ghost view: { NumberView Self };

    /// A number of 32 bits.
    fn from_narrow(number: u32) -> Self
        ensures { view.value result ≡ number };

    /// A number, unless it is too large.
    fn from_number(number: u128) -> Option<Self>
        ensures some { IfSome result (λ n. (view.value n ≡ number) × (number < view.limit)) }
        ensures none { IfNone result (view.limit ≤ number) };

    /// The number in 64 bits.
    fn widened(self) -> u64
        ensures { result ≡ view.value self };

    ghost room: { 2 ^ 32 ≤ view.limit };

    ghost fits: { view.limit ≤ 2 ^ 64 };

    ghost each: { (ns : List Self) → view.values ns ≡ map view.value ns };
}

impl FileNumber for u32 {
    ghost view = { narrow };

    ghost room = { lit≤ tt };

    ghost fits = { lit≤ tt };

    ghost each = { same_values };

    #[inline(always)]
    fn from_narrow(number: u32) -> Self {
        number
    }

    fn from_number(number: u128) -> Option<Self> {
        match u32::try_from(number) {
            Ok(number) => Some(number),
            Err(_) => None,
        }
    }

    #[inline(always)]
    fn widened(self) -> u64 {
        u64::from(self)
    }
}

impl FileNumber for u64 {
    ghost view = { wide };

    ghost room = { lit≤ tt };

    ghost fits = { lit≤ tt };

    ghost each = { same_values };

    #[inline(always)]
    fn from_narrow(number: u32) -> Self {
        u64::from(number)
    }

    fn from_number(number: u128) -> Option<Self> {
        match u64::try_from(number) {
            Ok(number) => Some(number),
            Err(_) => None,
        }
    }

    #[inline(always)]
    fn widened(self) -> u64 {
        self
    }
}
