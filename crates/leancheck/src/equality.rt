//! The tests of Same, in their order.

use lk_derive_equal::tests::{AllTests, Before, Test, Tests};
use lk_derive_equal::{Congruence, FunctionEta, ProofIrrelevance};
use lk_derive_eta::by_structures;
use lk_derive_lazy::by_unfolding;
use lk_derive_lit::by_literals;
use lk_step::{Derives, Row};
use lk_store::memory::NoMemory;

/// By literals: an operation on numbers that is computed, or a number beside zero or a successor. No
/// value of it is made.
pub struct Literals;

impl<D: Derives> Test<D> for Literals {
    ghost use Rattle.lk_questions.specs.LiteralLines.{by_literals};

    ghost line = { by_literals };

    fn tell(derives: &mut D, a: u64, b: u64, enough: u128) -> Result<Option<Row>, NoMemory> {
        by_literals(derives, a, b, enough)
    }
}

/// By unfolding. No value of it is made.
pub struct Unfolding;

impl<D: Derives> Test<D> for Unfolding {
    ghost use Rattle.lk_questions.specs.Unfolding.{by_unfolding};

    ghost line = { by_unfolding };

    fn tell(derives: &mut D, a: u64, b: u64, enough: u128) -> Result<Option<Row>, NoMemory> {
        by_unfolding(derives, a, b, enough)
    }
}

/// By eta of structures, types with one value, and texts: what comes behind function eta. No value of
/// it is made.
pub struct Structures;

impl<D: Derives> Tests<D> for Structures {
    ghost use Rattle.lk_step.specs.Chains.{after_eta};

    ghost program = { after_eta };

    fn row(derives: &mut D, a: u64, b: u64, enough: u128) -> Result<Row, NoMemory> {
        by_structures(derives, a, b, enough)
    }
}

/// The tests from congruence on.
type FromCongruence = Before<Congruence, Before<FunctionEta, Structures>>;

/// All tests, in the order in which Same makes them.
type Ordered = Before<ProofIrrelevance, Before<Literals, Before<Unfolding, FromCongruence>>>;

/// All tests of Same. No value of it is made.
pub struct InOrder;

impl<D: Derives> Tests<D> for InOrder {
    ghost use Rattle.lk_questions.specs.Same.{same_reduced};

    ghost program = { same_reduced };

    fn row(derives: &mut D, a: u64, b: u64, enough: u128) -> Result<Row, NoMemory> {
        <Ordered as Tests<D>>::row(derives, a, b, enough)
    }
}

impl<D: Derives> AllTests<D> for InOrder {
    ghost use Rattle.std.specs.Prelude.{refl};

    ghost whole = { λ a b. refl };
}
