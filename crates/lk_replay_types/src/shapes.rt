//! The shapes of Nat and String, as tests.

ghost use Rattle.lk_questions.specs.Tests.{found};
ghost use Rattle.lk_questions.specs.Shapes.{nat_shape as nat_program, string_shape as string_program};
ghost use Rattle.lk_premises.specs.Testing.{Tests};

use lk_ask::looks::Looks;
use lk_lit::{nat_shape, string_shape};
use lk_store::memory::NoMemory;

/// Whether `Nat` has its shape.
#[tactic(auto, using(lk_premises::proofs::Settled::settled_found, lk_premises::proofs::Settled::failed_found))]
pub(crate) fn has_nat_shape<L: Looks>(looks: &mut L) -> Result<bool, NoMemory>
    ensures { Tests L.contents (λ s. (L.sight (L.rest s)).basis) looks.old looks.new result
        (found (L.sight (L.rest looks.old)).basis.place nat_program) }
{
    match nat_shape(looks)? {
        Ok(()) => Ok(true),
        Err(_) => Ok(false),
    }
}

/// Whether `String` has its shape.
#[tactic(auto, using(lk_premises::proofs::Settled::settled_found, lk_premises::proofs::Settled::failed_found))]
pub(crate) fn has_string_shape<L: Looks>(looks: &mut L) -> Result<bool, NoMemory>
    ensures { Tests L.contents (λ s. (L.sight (L.rest s)).basis) looks.old looks.new result
        (found (L.sight (L.rest looks.old)).basis.place string_program) }
{
    match string_shape(looks)? {
        Ok(()) => Ok(true),
        Err(_) => Ok(false),
    }
}
