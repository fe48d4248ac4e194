//! Which of two terms unfolds.

ghost use Rattle.std.specs.Prelude.{◌≡◌};
ghost use Rattle.lk_questions.specs.Unfolding.{rank_of_hint, is_less as plain_less};
ghost use Rattle.lk_env.specs.Units.{hint_of};
ghost use Rattle.lk_lazy.specs.Heads.{rank_at};

use lk_env::unit::Hint;

/// The rank of a constant that unfolds: opaque hints and theorems, then regular hints by their heights, then
/// abbreviations.
#[derive(Clone, Copy)]
pub enum Rank {
    Lowest,
    Height(u32),
    Highest,
}

/// The rank of a definition with this hint.
pub(crate) fn rank_of(hint: Hint) -> Rank
    ensures { rank_at result ≡ rank_of_hint (hint_of hint) }
{
    match hint {
        Hint::Opaque => Rank::Lowest,
        Hint::Regular(height) => Rank::Height(height),
        Hint::Abbreviation => Rank::Highest,
    }
}

/// Whether the first rank is below the second.
pub(crate) fn is_less(left: Rank, right: Rank) -> bool
    ensures { result ≡ plain_less (rank_at left) (rank_at right) }
{
    match left {
        Rank::Lowest => match right {
            Rank::Lowest => false,
            Rank::Height(_) => true,
            Rank::Highest => true,
        },
        Rank::Height(height) => match right {
            Rank::Lowest => false,
            Rank::Height(other) => height < other,
            Rank::Highest => true,
        },
        Rank::Highest => false,
    }
}
