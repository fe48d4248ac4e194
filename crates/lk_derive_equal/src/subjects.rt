//! Two projections.

ghost use Rattle.std.specs.Prelude.{◌≡◌, ◌<◌, ◌&&◌, nat_eq, [], ◌∷◌, length, IfOk, IfSome};
ghost use Rattle.lk_tree.specs.Mentions.{same_name as are_one};
ghost use Rattle.lk_rulebook.specs.Claims.{equals};
ghost use Rattle.lk_questions.specs.Query.{same};
ghost use Rattle.lk_questions.specs.Same.{by_parts};
ghost use Rattle.lk_store.specs.Contents.{name_at, tree_at};
ghost use Rattle.lk_written.specs.Line.{projs_rule};
ghost use Rattle.lk_step.specs.Steps.{equality as equality_step};
ghost use Rattle.lk_step.specs.Meaning.{IsRowIn};
ghost use Rattle.lk_step.specs.Told.{Leaves};
ghost use Rattle.lk_step.specs.Makes.{IsMade};
ghost use Rattle.lk_step.specs.Tests.{IsRun, AreReduced};
ghost use Rattle.lk_derive_equal.specs.Subjects.{IsProjection};
ghost use Rattle.lk_step.specs.Tells.{Tells};

use lk_ask::looks::Looks;
use lk_ask::query::Query;
use lk_premises::same_name;
use lk_step::derives::are_same;
use lk_step::making::{converted, equality};
use lk_step::{Derives, Row};
use lk_store::memory::NoMemory;
use lk_store::terms::Terms;
use lk_trace::ConversionRule;

/// A projection: the name of a structure, the place of a field and a tree.
#[derive(Clone, Copy)]
pub(crate) struct Projection {
    pub name: u64,
    pub field: u64,
    pub subject: u64,
}

/// Whether two projections are of one field.
fn are_alike<T: Terms>(terms: &T, left: Projection, right: Projection) -> bool
    requires left_in { left.name < length (T.contents terms.now).names }
    requires right_in { right.name < length (T.contents terms.now).names }
    ensures { let n = name_at (T.contents terms.now) in
        result ≡ are_one (n left.name) (n right.name) && nat_eq left.field right.field }
{
    same_name(terms, left.name, right.name) && left.field == right.field
}

/// The row of two projections of one field.
fn projections_row<L: Looks>(
    looks: &L,
    a: u64,
    b: u64,
    left: u64,
    right: u64,
) -> Result<Row, NoMemory>
    requires a_in { a < length (L.contents looks.now).trees }
    requires b_in { b < length (L.contents looks.now).trees }
    requires left_in { left < length (L.contents looks.now).trees }
    requires right_in { right < length (L.contents looks.now).trees }
    ensures known { IfOk result (IsRowIn (L.contents looks.now)) }
    ensures row { let c = L.contents looks.now in let t = tree_at c in IfOk result (IsMade c
        (same (t left) (t right) ∷ [])
        (equality_step projs_rule (t a) (t b) (equals (t left) (t right) ∷ []) ∷ [])) }
{
    let asks = vec![in looks.alloc(); Query::Same(left, right)]?;
    let premises = vec![in looks.alloc(); equality(left, right)]?;
    converted(looks, ConversionRule::Project, a, b, asks, premises)
}

/// Two projections, whose subjects are compared where they are of one field.
pub(crate) fn by_subjects<D: Derives>(
    derives: &mut D,
    a: u64,
    b: u64,
    left: Projection,
    right: Projection,
    enough: u128,
) -> Result<Option<Row>, NoMemory>
    requires a_in { a < length (D.contents derives.old).trees }
    requires b_in { b < length (D.contents derives.old).trees }
    requires left_is { IsProjection (D.contents derives.old) a left }
    requires right_is { IsProjection (D.contents derives.old) b right }
    requires pair { AreReduced (D.sight (D.rest derives.old)).basis.place
        (tree_at (D.contents derives.old) a) (tree_at (D.contents derives.old) b) }
    requires run { IsRun (D.sight (D.rest derives.old)).basis.place (by_parts
        (tree_at (D.contents derives.old) a) (tree_at (D.contents derives.old) b)) enough }
    ensures leaves { Leaves D.contents D.rest D.sight derives.old derives.new }
    ensures known { IfOk result (λ r. IfSome r (IsRowIn (D.contents derives.new))) }
    ensures tells { let t = tree_at (D.contents derives.old) in
        IfOk result (Tells (D.sight (D.rest derives.old)).basis.place (D.contents derives.new)
        (by_parts (t a) (t b)) (equals (t a) (t b))) }
{
    if !are_alike(derives, left, right) {
        return Ok(None);
    }
    if !are_same(derives, left.subject, right.subject, enough)? {
        return Ok(None);
    }
    let row = projections_row(derives, a, b, left.subject, right.subject)?;
    Ok(Some(row))
}
