//! Projections: what is left of the constructor's type behind the structure's parameters.

ghost use Rattle.std.specs.Prelude.{◌<◌, ℕ, Bool, List, [], ◌∷◌, length, IfOk};
ghost use Rattle.lk_rulebook.specs.WellStated.{WellStated};
ghost use Rattle.lk_store.specs.Contents.{tree_at};
ghost use Rattle.lk_step.specs.Told.{Leaves};
ghost use Rattle.lk_derive_types.specs.Parts.{IsPiWithin};
ghost use Rattle.lk_derive_types.specs.Projections.{IsParameterAt};

use crate::asked::Asked;
use crate::parts::pi_of;
use lk_step::Derives;
use lk_store::memory::NoMemory;
use lk_subst::opening::open_with;

/// What is left of a type behind its first Pi, with this argument put in.
fn past_parameter<D: Derives>(
    derives: &mut D,
    asked: &mut Asked,
    at: u64,
    argument: u64,
    enough: u128,
) -> Result<u64, NoMemory>
    requires stated { WellStated (D.sight (D.rest derives.old)).basis.place }
    requires at_in { at < length (D.contents derives.old).trees }
    requires argument_in { argument < length (D.contents derives.old).trees }
    requires function { IsPiWithin (D.sight (D.rest derives.old)).basis.place
        (tree_at (D.contents derives.old) at) enough }
    ensures leaves { Leaves D.contents D.rest D.sight derives.old derives.new }
    ensures parameters { (e : ℕ) → (q : Bool) → (rest : List ℕ)
        → IsParameterAt (D.sight (D.rest derives.old)).basis.place (D.contents derives.old)
        e enough q at (argument ∷ rest) asked.old
        → IfOk result (λ t. IsParameterAt (D.sight (D.rest derives.old)).basis.place
        (D.contents derives.new) e enough q t rest asked.new) }
{
    let function = pi_of(derives, at, enough)?;
    let next = open_with(derives.alloc(), derives, function.body, argument)?;
    asked.note_form(at, function.pi)?;
    Ok(next)
}

/// What is left of a constructor's type behind its parameters, which these are put for.
pub(crate) fn past_parameters<D: Derives>(
    derives: &mut D,
    asked: &mut Asked,
    e: u64,
    prop: bool,
    stated: u64,
    parameters: &[u64],
    enough: u128,
) -> Result<u64, NoMemory>
    requires stated { WellStated (D.sight (D.rest derives.old)).basis.place }
    requires parameters { IsParameterAt (D.sight (D.rest derives.old)).basis.place
        (D.contents derives.old) e enough prop stated parameters.now asked.old }
    ensures leaves { Leaves D.contents D.rest D.sight derives.old derives.new }
    ensures parameters { IfOk result (λ t. IsParameterAt (D.sight (D.rest derives.old)).basis.place
        (D.contents derives.new) e enough prop t [] asked.new) }
{
    let mut at = stated;
    let mut rest = parameters;
    'parameters: while let Some((parameter, more)) = rest.split_first() {
        at = past_parameter(derives, asked, at, *parameter, enough)?;
        rest = more;
    }
    Ok(at)
}
