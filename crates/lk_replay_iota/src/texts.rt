//! Texts as their expansions.

ghost use Rattle.std.specs.Prelude.{◌<◌, length};
ghost use Rattle.lk_questions.specs.Strings.{text_to_ctor as text_program};
ghost use Rattle.lk_questions.specs.Tests.{found};
ghost use Rattle.lk_store.specs.Contents.{tree_at};
ghost use Rattle.lk_premises.specs.Found.{FindsTree};

use lk_ask::looks::Looks;
use lk_lit::text_to_ctor;
use lk_store::memory::NoMemory;

/// A text as its expansion, where it expands and its names are given; each other tree as it is.
#[tactic(auto, using(lk_premises::proofs::Settled::settled_found, lk_premises::proofs::Settled::failed_found))]
pub(crate) fn text_as_constructor<L: Looks>(looks: &mut L, e: u64) -> Result<Option<u64>, NoMemory>
    requires { e < length (L.contents looks.old).trees }
    ensures { FindsTree L.contents (λ s. (L.sight (L.rest s)).basis) looks.old looks.new result
        (found (L.sight (L.rest looks.old)).basis.place
        (text_program (tree_at (L.contents looks.old) e))) }
{
    match text_to_ctor(looks, e)? {
        Ok(tree) => Ok(Some(tree)),
        Err(_) => Ok(None),
    }
}
