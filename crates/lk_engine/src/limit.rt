//! How many rows of what units made stay from one to the next.

ghost use Rattle.std.specs.Prelude.{◌≡◌, IsTrue};
ghost use Rattle.lk_engine.specs.Lookouts.{row_count, IsBounded};

use lk_store::sizes::Sizes;

/// Fewer rows than so many always stay, those of all kinds together.
const FEW: u128 = 16_384;

/// Units make many where they make so many each on average.
const MANY: u128 = 1_024;

/// Where they are not few, less than so many times as many as the library has stay.
const TIMES: u128 = 4;

/// How many rows there are. Each kind counts: a file could have units make only levels or names.
pub(crate) fn rows_of(sizes: Sizes) -> u128
    ensures { result ≡ row_count sizes }
{
    let named = sizes.numbers as u128 + sizes.names as u128 + sizes.texts as u128;
    named + sizes.levels as u128 + sizes.lists as u128 + sizes.terms as u128
}

/// How many rows stay. Where units make few each, what they made goes now and then, so that what is
/// at hand is small. Where they make many the limit doubles each time that it is reached: else a
/// file of units that make the same would have all of it made again and again. It is halved each
/// time that all goes.
#[derive(Drop)]
pub(crate) struct Limit {
    /// So many rows are too many.
    rows: u128,
    /// How many units made what stands.
    units: u128,
}

impl Limit {
    /// The least one, over what no unit made.
    pub(crate) fn new() -> Self {
        Limit {
            rows: FEW,
            units: 0,
        }
    }

    /// Whether so many rows stay beside a library of so many, or all go. It is asked once for each
    /// unit, as it counts them and moves the limit.
    pub(crate) fn lets_stay(&mut self, made: u128, library: u128) -> bool
        ensures { IsTrue result → IsBounded made library }
    {
        if made >= self.rows && made / MANY >= self.units {
            self.rows = made.saturating_mul(2).min(library.saturating_mul(TIMES));
        }
        if made < FEW || (made < self.rows && made / TIMES < library) {
            self.units = self.units.saturating_add(1);
            return true;
        }
        self.rows = FEW.max(self.rows / 2);
        self.units = 1;
        false
    }

    /// From here on what stands goes, unless it is few rows.
    pub(crate) fn let_go(&mut self) {
        self.rows = FEW;
        self.units = u128::MAX;
    }
}
