//! Two terms by literals: an operation that is computed on either side, then a number beside zero or a successor.

ghost use Rattle.std.specs.Prelude.{◌≡◌, ◌<◌, length, IfOk, IfSome};
ghost use Rattle.lk_rulebook.specs.Claims.{equals};
ghost use Rattle.lk_questions.specs.LiteralLines.{by_literals};
ghost use Rattle.lk_store.specs.Contents.{tree_at};
ghost use Rattle.lk_step.specs.Meaning.{IsRowIn};
ghost use Rattle.lk_step.specs.Told.{Leaves};
ghost use Rattle.lk_step.specs.Tests.{IsRun, NeverNo, AreReduced};
ghost use Rattle.lk_step.specs.Tells.{Tells};
ghost use Rattle.lk_derive_lit.specs.Undenied.{IsUndenied, after_first, NothingFirst};

use crate::numbers::by_numbers;
use crate::reduced::{by_first, by_second};
use lk_step::{Derives, Row};
use lk_store::memory::NoMemory;

/// Two terms of which the first is no operation that is computed.
fn from_second<D: Derives>(
    derives: &mut D,
    a: u64,
    b: u64,
    enough: u128,
) -> Result<Option<Row>, NoMemory>
    requires a_in { a < length (D.contents derives.old).trees }
    requires b_in { b < length (D.contents derives.old).trees }
    requires pair { AreReduced (D.sight (D.rest derives.old)).basis.place
        (tree_at (D.contents derives.old) a) (tree_at (D.contents derives.old) b) }
    requires run { IsUndenied (D.sight (D.rest derives.old)).basis.place (after_first
        (tree_at (D.contents derives.old) a) (tree_at (D.contents derives.old) b)) enough }
    requires none { NothingFirst (D.sight (D.rest derives.old)).basis.place
        (tree_at (D.contents derives.old) a) }
    ensures leaves { Leaves D.contents D.rest D.sight derives.old derives.new }
    ensures known { IfOk result (λ r. IfSome r (IsRowIn (D.contents derives.new))) }
    ensures tells { let t = tree_at (D.contents derives.old) in
        IfOk result (Tells (D.sight (D.rest derives.old)).basis.place (D.contents derives.new)
        (after_first (t a) (t b)) (equals (t a) (t b))) }
{
    let found = by_second(derives, a, b, enough)?;
    match found {
        Some(row) => Ok(Some(row)),
        None => by_numbers(derives, a, b),
    }
}

/// The row of two terms where literals say that they are the same: an operation that is computed on either side, or a number
/// beside zero or a successor. There is none where they say nothing; they do not say no.
pub fn by_literals<D: Derives>(
    derives: &mut D,
    a: u64,
    b: u64,
    enough: u128,
) -> Result<Option<Row>, NoMemory>
    requires a_in { a < length (D.contents derives.old).trees }
    requires b_in { b < length (D.contents derives.old).trees }
    requires pair { AreReduced (D.sight (D.rest derives.old)).basis.place
        (tree_at (D.contents derives.old) a) (tree_at (D.contents derives.old) b) }
    requires run { IsRun (D.sight (D.rest derives.old)).basis.place (by_literals
        (tree_at (D.contents derives.old) a) (tree_at (D.contents derives.old) b)) enough }
    requires never_no { NeverNo (D.sight (D.rest derives.old)).basis.place (by_literals
        (tree_at (D.contents derives.old) a) (tree_at (D.contents derives.old) b)) }
    ensures leaves { Leaves D.contents D.rest D.sight derives.old derives.new }
    ensures known { IfOk result (λ r. IfSome r (IsRowIn (D.contents derives.new))) }
    ensures tells { let t = tree_at (D.contents derives.old) in
        IfOk result (Tells (D.sight (D.rest derives.old)).basis.place (D.contents derives.new)
        (by_literals (t a) (t b)) (equals (t a) (t b))) }
{
    let found = by_first(derives, a, b, enough)?;
    match found {
        Some(row) => Ok(Some(row)),
        None => from_second(derives, a, b, enough),
    }
}
