//! The Pis of the parameters in a constructor's type.

ghost use Rattle.std.specs.Prelude.{◌≡◌, ◌<◌, ℕ, Ok, Option, IfSome, length, option_map};
ghost use Rattle.lk_tree.specs.Tree.{Tree};
ghost use Rattle.lk_rulebook.specs.Place.{Place};
ghost use Rattle.lk_questions.specs.Erased.{a_tree, erased};
ghost use Rattle.lk_ask.specs.Nexts.{IsKnownNext};
ghost use Rattle.lk_proj.specs.Sheets.{map_applied, IsKnownApplied, IsKnownInfer};
ghost use Rattle.lk_proj.specs.Infers.{parameters_rest, constructor_rest, sort_rest};
ghost use Rattle.lk_proj.specs.Infers.{parameter_rest, infer_next, Infers};

use crate::fields::begin_fields;
use crate::infer::InferNext;
use crate::sheet::{Applied, InferSheet};
use crate::sort::is_prop;
use lk_ask::looks::Looks;
use lk_ask::next::Next;
use lk_ask::query::Query;
use lk_ask::stack::Stack;
use lk_store::memory::NoMemory;
use lk_store::node::Node;
use lk_subst::opening::open_with;
use lk_tree::rule::Rule;

/// Goes on with the next of the arguments that are put for parameters, of which some are left.
fn next_parameter(applied: Applied<u64>, prop: bool, ty: u64) -> InferNext
    requires { 0 < applied.parameters }
    ensures known { (n : ℕ) → IsKnownApplied n applied → ty < n
        → IsKnownNext IsKnownInfer n result }
    ensures steps { (w : Place) (t : ℕ → Tree) (last : Option ℕ) → infer_next w t last result
        ≡ erased w a_tree last (parameters_rest (map_applied t applied) prop (t ty)) }
{
    let mut items = applied.arguments.items;
    match items.pop() {
        Some(argument) => Next::Ask(
            Query::Whnf(ty),
            InferSheet::Parameter {
                applied: Applied {
                    projection: applied.projection,
                    arguments: Stack { items },
                    parameters: applied.parameters - 1,
                },
                argument,
                prop,
            },
        ),
        None => Next::No(Rule::BadProjection),
    }
}

/// Goes on with the constructor's type, for whose first Pis the parameters are put.
fn put_parameters<L: Looks>(looks: &L, applied: Applied<u64>, prop: bool, ty: u64) -> InferNext
    requires applied_in { IsKnownApplied (length (L.contents looks.now).trees) applied }
    requires ty_in { ty < length (L.contents looks.now).trees }
    ensures { Infers L.contents L.rest L.sight looks.now looks.now (Ok result)
        (λ t. parameters_rest (map_applied t applied) prop (t ty)) }
{
    if applied.parameters == 0 {
        begin_fields(looks, applied.projection, prop, ty)
    } else {
        next_parameter(applied, prop, ty)
    }
}

/// Goes on with the weak head form of the constructor's type, which is to be the Pi of a parameter.
pub(crate) fn parameter_form<L: Looks>(
    looks: &mut L,
    applied: Applied<u64>,
    argument: u64,
    prop: bool,
    form: u64,
) -> Result<InferNext, NoMemory>
    requires applied_in { IsKnownApplied (length (L.contents looks.old).trees) applied }
    requires argument_in { argument < length (L.contents looks.old).trees }
    requires form_in { form < length (L.contents looks.old).trees }
    ensures { Infers L.contents L.rest L.sight looks.old looks.new result
        (λ t. parameter_rest (map_applied t applied) (t argument) prop (t form)) }
{
    match looks.view(form) {
        Node::Pi(_, body) => {
            let ty = open_with(looks.alloc(), looks, body, argument)?;
            Ok(put_parameters(looks, applied, prop, ty))
        }
        _ => Ok(Next::No(Rule::BadProjection)),
    }
}

/// Goes on with the sort of a structure.
fn with_sort<L: Looks>(
    looks: &L,
    applied: Applied<u64>,
    constructor: Option<u64>,
    prop: bool,
) -> InferNext
    requires applied_in { IsKnownApplied (length (L.contents looks.now).trees) applied }
    requires constructor_in { IfSome constructor (λ r. r < length (L.contents looks.now).trees) }
    ensures { Infers L.contents L.rest L.sight looks.now looks.now (Ok result)
        (λ t. constructor_rest (map_applied t applied) prop (option_map t constructor)) }
{
    match constructor {
        Some(ty) => put_parameters(looks, applied, prop, ty),
        None => Next::No(Rule::LevelCount),
    }
}

/// Goes on with the weak head form of the type of a structure, which is to be a sort.
pub(crate) fn sort_form<L: Looks>(
    looks: &L,
    applied: Applied<u64>,
    constructor: Option<u64>,
    form: u64,
) -> Result<InferNext, NoMemory>
    requires applied_in { IsKnownApplied (length (L.contents looks.now).trees) applied }
    requires constructor_in { IfSome constructor (λ r. r < length (L.contents looks.now).trees) }
    requires form_in { form < length (L.contents looks.now).trees }
    ensures { Infers L.contents L.rest L.sight looks.now looks.now result
        (λ t. sort_rest (map_applied t applied) (option_map t constructor) (t form)) }
{
    match is_prop(looks, form) {
        Some(prop) => Ok(with_sort(looks, applied, constructor, prop)),
        None => Ok(Next::No(Rule::NotASort)),
    }
}
