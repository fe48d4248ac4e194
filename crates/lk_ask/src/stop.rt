//! Why a question has no answer.

use lk_meter::Spent;
use lk_store::memory::NoMemory;
use lk_tree::rule::Rule;
use std::alloc::AllocError;

/// Why a question has no answer.
#[derive(Clone, Copy)]
pub enum Stop {
    /// It is refused.
    No(Rule),
    /// The budget is used up.
    Spent,
    /// Memory is wanting.
    NoMemory,
}

impl From<NoMemory> for Stop {
    ghost use Rattle.std.specs.Prelude.{◌≡◌};
    ghost use Rattle.lk_ask.specs.declared.stop.Stop.TheVariants.{NoMemory};

    ghost from_gives = { λ _ e. e ≡ NoMemory };

    fn from(_e: NoMemory) -> Stop {
        Stop::NoMemory
    }
}

impl From<AllocError> for Stop {
    ghost use Rattle.std.specs.Prelude.{◌≡◌};
    ghost use Rattle.lk_ask.specs.declared.stop.Stop.TheVariants.{NoMemory};

    ghost from_gives = { λ _ e. e ≡ NoMemory };

    fn from(_e: AllocError) -> Stop {
        Stop::NoMemory
    }
}

impl From<Spent> for Stop {
    ghost use Rattle.std.specs.Prelude.{◌≡◌};
    ghost use Rattle.lk_ask.specs.declared.stop.Stop.TheVariants.{Spent};

    ghost from_gives = { λ _ e. e ≡ Spent };

    fn from(_e: Spent) -> Stop {
        Stop::Spent
    }
}
