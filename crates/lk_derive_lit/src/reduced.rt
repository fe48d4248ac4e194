//! Two terms of which one is an operation on numbers: the other is compared with what that comes to.

ghost use Rattle.std.specs.Prelude.{◌≡◌, ◌<◌, None, IfOk, IfSome, OnOk, length};
ghost use Rattle.lk_rulebook.specs.Claims.{equals};
ghost use Rattle.lk_questions.specs.LiteralLines.{step_first, step_second};
ghost use Rattle.lk_store.specs.Contents.{tree_at};
ghost use Rattle.lk_step.specs.Meaning.{IsRowIn};
ghost use Rattle.lk_step.specs.Told.{Leaves};
ghost use Rattle.lk_step.specs.Tests.{AreReduced};
ghost use Rattle.lk_step.specs.Tells.{Tells};
ghost use Rattle.lk_step.specs.Parts.{IsEmpty};
ghost use Rattle.lk_derive_lit.specs.Added.{AddsSame};
ghost use Rattle.lk_derive_lit.specs.Undenied.{IsUndenied, NothingFirst};

use lk_ask::query::Query;
use lk_step::making::{equality, reduction};
use lk_step::operations::add_operation;
use lk_step::{Derives, Row, Step};
use lk_store::memory::NoMemory;
use lk_trace::{ConversionRule, Rule};
use std::alloc::Global;

/// A row with nothing in it.
fn empty_row(alloc: Global) -> Row
    ensures { IsEmpty result }
{
    Row {
        asks: Vec::new(alloc),
        steps: Vec::new(alloc),
    }
}

/// Asks whether two trees are the same, and states by that that two others are, which reduce to them.
fn add_same(
    alloc: Global,
    row: &mut Row,
    a: u64,
    b: u64,
    left: u64,
    right: u64,
) -> Result<(), NoMemory>
    ensures { OnOk result (AddsSame row.old row.new a b left right) }
{
    let premises = vec![in alloc;
        reduction(a, left),
        reduction(b, right),
        equality(left, right),
    ]?;
    row.asks.push(Query::Same(left, right))?;
    row.steps.push(Step {
        rule: Rule::Conversion(ConversionRule::Reduce),
        left: a,
        right: b,
        premises,
    })?;
    Ok(())
}

/// Two terms, of which the first may be an operation that is computed.
pub(crate) fn by_first<D: Derives>(
    derives: &mut D,
    a: u64,
    b: u64,
    enough: u128,
) -> Result<Option<Row>, NoMemory>
    requires a_in { a < length (D.contents derives.old).trees }
    requires b_in { b < length (D.contents derives.old).trees }
    requires pair { AreReduced (D.sight (D.rest derives.old)).basis.place
        (tree_at (D.contents derives.old) a) (tree_at (D.contents derives.old) b) }
    requires run { IsUndenied (D.sight (D.rest derives.old)).basis.place (step_first
        (tree_at (D.contents derives.old) a) (tree_at (D.contents derives.old) b)) enough }
    ensures leaves { Leaves D.contents D.rest D.sight derives.old derives.new }
    ensures known { IfOk result (λ r. IfSome r (IsRowIn (D.contents derives.new))) }
    ensures tells { let t = tree_at (D.contents derives.old) in
        IfOk result (Tells (D.sight (D.rest derives.old)).basis.place (D.contents derives.new)
        (step_first (t a) (t b)) (equals (t a) (t b))) }
    ensures none { IfOk result (λ r. r ≡ None → NothingFirst
        (D.sight (D.rest derives.old)).basis.place (tree_at (D.contents derives.old) a)) }
{
    let alloc = derives.alloc();
    let mut row = empty_row(alloc);
    match add_operation(derives, &mut row, a, enough)? {
        Some(value) => {
            add_same(alloc, &mut row, a, b, value, b)?;
            Ok(Some(row))
        }
        None => Ok(None),
    }
}

/// Two terms, of which the second is an operation that is computed, and the first is none.
pub(crate) fn by_second<D: Derives>(
    derives: &mut D,
    a: u64,
    b: u64,
    enough: u128,
) -> Result<Option<Row>, NoMemory>
    requires a_in { a < length (D.contents derives.old).trees }
    requires b_in { b < length (D.contents derives.old).trees }
    requires pair { AreReduced (D.sight (D.rest derives.old)).basis.place
        (tree_at (D.contents derives.old) a) (tree_at (D.contents derives.old) b) }
    requires run { IsUndenied (D.sight (D.rest derives.old)).basis.place (step_second
        (tree_at (D.contents derives.old) a) (tree_at (D.contents derives.old) b)) enough }
    requires none { NothingFirst (D.sight (D.rest derives.old)).basis.place
        (tree_at (D.contents derives.old) a) }
    ensures leaves { Leaves D.contents D.rest D.sight derives.old derives.new }
    ensures known { IfOk result (λ r. IfSome r (IsRowIn (D.contents derives.new))) }
    ensures tells { let t = tree_at (D.contents derives.old) in
        IfOk result (Tells (D.sight (D.rest derives.old)).basis.place (D.contents derives.new)
        (step_second (t a) (t b)) (equals (t a) (t b))) }
{
    let alloc = derives.alloc();
    let mut row = empty_row(alloc);
    match add_operation(derives, &mut row, b, enough)? {
        Some(value) => {
            add_same(alloc, &mut row, a, b, a, value)?;
            Ok(Some(row))
        }
        None => Ok(None),
    }
}
