//! Applications: one step over a whole spine.

ghost use Rattle.std.specs.Prelude.{◌≡◌, ◌<◌, ℕ, List, [], ◌∷◌, length, IfOk, OnOk};
ghost use Rattle.lk_tree.specs.WellFormed.{IsWellFormed};
ghost use Rattle.lk_rulebook.specs.WellStated.{WellStated};
ghost use Rattle.lk_questions.specs.Query.{infer};
ghost use Rattle.lk_store.specs.Contents.{tree_at};
ghost use Rattle.lk_step.specs.Told.{IsAnsweredWithin, Leaves};
ghost use Rattle.lk_derive_types.specs.Spines.{IsApplied, IsArgumentWithin};
ghost use Rattle.lk_derive_types.specs.Spines.{NotesArgument, IsSpineAt};
ghost use Rattle.lk_derive_types.specs.TypeRows.{GivesRow};

use crate::asked::{Asked, typing_row};
use crate::parts::{Function, pi_of};
use lk_spine::{args, head};
use lk_step::derives::type_of;
use lk_step::{Derives, Row};
use lk_store::memory::NoMemory;
use lk_subst::opening::open_with;
use lk_trace::TypingRule;

/// Notes what is asked of an argument: the function type that the type of what is applied to it reduces to, its own type,
/// and that this is the domain.
fn note_argument(
    asked: &mut Asked,
    at: u64,
    function: Function,
    argument: u64,
    own: u64,
) -> Result<(), NoMemory>
    ensures { OnOk result (NotesArgument asked.old asked.new at function argument own) }
{
    asked.note_form(at, function.pi)?;
    asked.note_type(argument, own)?;
    asked.note_same(own, function.domain)
}

/// The type of what is of type `at`, applied to one argument.
fn apply_once<D: Derives>(
    derives: &mut D,
    asked: &mut Asked,
    at: u64,
    argument: u64,
    enough: u128,
) -> Result<u64, NoMemory>
    requires stated { WellStated (D.sight (D.rest derives.old)).basis.place }
    requires at_in { at < length (D.contents derives.old).trees }
    requires argument_in { argument < length (D.contents derives.old).trees }
    requires argument { IsArgumentWithin (D.sight (D.rest derives.old)).basis.place
        (tree_at (D.contents derives.old) at) (tree_at (D.contents derives.old) argument) enough }
    ensures leaves { Leaves D.contents D.rest D.sight derives.old derives.new }
    ensures spine { (e : ℕ) → (rest : List ℕ)
        → IsSpineAt (D.sight (D.rest derives.old)).basis.place (D.contents derives.old)
        e enough at (argument ∷ rest) asked.old
        → IfOk result (λ t. IsSpineAt (D.sight (D.rest derives.old)).basis.place
        (D.contents derives.new) e enough t rest asked.new) }
{
    let function = pi_of(derives, at, enough)?;
    let own = type_of(derives, argument, enough)?;
    let next = open_with(derives.alloc(), derives, function.body, argument)?;
    note_argument(asked, at, function, argument, own)?;
    Ok(next)
}

/// The type of what is of type `function`, applied to these arguments.
fn applied_type<D: Derives>(
    derives: &mut D,
    asked: &mut Asked,
    e: u64,
    function: u64,
    arguments: &[u64],
    enough: u128,
) -> Result<u64, NoMemory>
    requires stated { WellStated (D.sight (D.rest derives.old)).basis.place }
    requires spine { IsSpineAt (D.sight (D.rest derives.old)).basis.place
        (D.contents derives.old) e enough function arguments.now asked.old }
    ensures leaves { Leaves D.contents D.rest D.sight derives.old derives.new }
    ensures spine { IfOk result (λ t. IsSpineAt (D.sight (D.rest derives.old)).basis.place
        (D.contents derives.new) e enough t [] asked.new) }
{
    let mut at = function;
    let mut rest = arguments;
    'arguments: while let Some((argument, more)) = rest.split_first() {
        at = apply_once(derives, asked, at, *argument, enough)?;
        rest = more;
    }
    Ok(at)
}

/// The row of an application, over its whole spine: the type of its head, and what is asked of each argument.
pub(crate) fn application_row<D: Derives>(
    derives: &mut D,
    e: u64,
    enough: u128,
) -> Result<Row, NoMemory>
    requires e_in { e < length (D.contents derives.old).trees }
    requires applied { IsApplied (tree_at (D.contents derives.old) e) }
    requires stated { WellStated (D.sight (D.rest derives.old)).basis.place }
    requires askable { IsWellFormed (tree_at (D.contents derives.old) e) }
    requires answered { IsAnsweredWithin (D.sight (D.rest derives.old)).basis.place
        (infer (tree_at (D.contents derives.old) e)) enough }
    ensures { GivesRow D.contents D.rest D.sight derives.old derives.new
        (tree_at (D.contents derives.old) e) result }
{
    let function = head(derives, e);
    let arguments = args(derives.alloc(), derives, e)?;
    let at = type_of(derives, function, enough)?;
    let mut asked = Asked::new(derives.alloc());
    asked.note_type(function, at)?;
    let ty = applied_type(derives, &mut asked, e, at, &arguments, enough)?;
    typing_row(derives.alloc(), TypingRule::Apply, e, ty, asked)
}
