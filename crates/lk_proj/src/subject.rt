//! The type of the subject, which is to be a structure.

ghost use Rattle.std.specs.Prelude.{◌≡◌, ◌<◌, [], ◌∷◌, Some, length};
ghost use Rattle.lk_questions.specs.Projections.{of_type, of_struct};
ghost use Rattle.lk_rulebook.specs.Place.{BlockType as PlainType, Ctor};
ghost use Rattle.lk_store.specs.Contents.{name_at, list_at, tree_at};
ghost use Rattle.lk_proj.specs.Nodes.{IsProjection};
ghost use Rattle.lk_structure.specs.Structures.{IsStructure};
ghost use Rattle.lk_proj.specs.Infers.{subject_rest, Infers};

use crate::infer::InferNext;
use crate::node::{Projection, projection_of};
use crate::sheet::{Applied, InferSheet};
use lk_ask::looks::Looks;
use lk_ask::next::Next;
use lk_ask::query::Query;
use lk_ask::stack::Stack;
use lk_constructor::levels_of_type;
use lk_spine::args;
use lk_store::memory::NoMemory;
use lk_structure::structure::{Structure, fits, structure_of};
use lk_tree::rule::Rule;

/// Goes on with the subject's type, which is this structure at these levels, applied.
fn by_structure<L: Looks>(
    looks: &mut L,
    p: Projection,
    structure: Structure,
    levels: u64,
    ty: u64,
) -> Result<InferNext, NoMemory>
    requires p_in { IsProjection (L.contents looks.old) p }
    requires structure_in { structure.constructor.stated < length (L.contents looks.old).trees }
    requires levels_in { levels < length (L.contents looks.old).lists }
    requires ty_in { ty < length (L.contents looks.old).trees }
    ensures { (ind : PlainType) (k : Ctor)
        → IsStructure (L.sight (L.rest looks.old)).basis.library structure (ind, k)
        → tree_at (L.contents looks.old) structure.constructor.stated ≡ k.type
        → Infers L.contents L.rest L.sight looks.old looks.new result
        (λ t. of_struct (name_at (L.contents looks.old) p.structure) p.field (t p.subject) (t ty)
        (list_at (L.contents looks.old) levels) ind (k ∷ [])) }
{
    let mut arguments = args(looks.alloc(), looks, ty)?;
    if !fits(structure, p.field, arguments.len()) {
        return Ok(Next::No(Rule::BadProjection));
    }
    arguments.reverse();
    let constructor = looks.at_levels(structure.constructor, levels, structure.constructor.stated)?;
    Ok(Next::Ask(
        Query::Infer(ty),
        InferSheet::Sort {
            applied: Applied {
                projection: p.whole,
                arguments: Stack { items: arguments },
                parameters: structure.parameters,
            },
            constructor,
        },
    ))
}

/// Goes on with the subject's type, whose head is the structure's name at these levels. That its
/// unit was looked at is noted.
fn by_name<L: Looks>(
    looks: &mut L,
    p: Projection,
    levels: u64,
    ty: u64,
) -> Result<InferNext, NoMemory>
    requires p_in { IsProjection (L.contents looks.old) p }
    requires levels_in { levels < length (L.contents looks.old).lists }
    requires ty_in { ty < length (L.contents looks.old).trees }
    ensures { Infers L.contents L.rest L.sight looks.old looks.new result
        (λ t. of_type (name_at (L.contents looks.old) p.structure) p.field (t p.subject) (t ty)
        (Some (list_at (L.contents looks.old) levels))) }
{
    let entry = match looks.look(p.structure, Rule::UnknownConstant) {
        Ok(entry) => entry,
        Err(rule) => return Ok(Next::No(rule)),
    };
    match structure_of(looks.scope(), entry) {
        Some(structure) => by_structure(looks, p, structure, levels, ty),
        None => Ok(Next::No(Rule::BadProjection)),
    }
}

/// Goes on with the subject's type in weak head form, whose head is to be the structure's name.
fn by_type<L: Looks>(looks: &mut L, p: Projection, ty: u64) -> Result<InferNext, NoMemory>
    requires p_in { IsProjection (L.contents looks.old) p }
    requires ty_in { ty < length (L.contents looks.old).trees }
    ensures { Infers L.contents L.rest L.sight looks.old looks.new result
        (λ t. subject_rest (t p.whole) (t ty)) }
{
    match levels_of_type(looks, p.structure, ty) {
        Some(levels) => by_name(looks, p, levels, ty),
        None => Ok(Next::No(Rule::BadProjection)),
    }
}

/// The same of a projection by its number.
pub(crate) fn subject_form<L: Looks>(looks: &mut L, e: u64, ty: u64) -> Result<InferNext, NoMemory>
    requires e_in { e < length (L.contents looks.old).trees }
    requires ty_in { ty < length (L.contents looks.old).trees }
    ensures { Infers L.contents L.rest L.sight looks.old looks.new result
        (λ t. subject_rest (t e) (t ty)) }
{
    match projection_of(looks, e) {
        Some(p) => by_type(looks, p, ty),
        None => Ok(Next::No(Rule::BadProjection)),
    }
}
