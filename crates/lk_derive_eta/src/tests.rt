//! Two terms that function eta says nothing of: the tests behind it, one behind the other.

ghost use Rattle.std.specs.Prelude.{◌<◌, length, IfOk};
ghost use Rattle.lk_rulebook.specs.Claims.{equals};
ghost use Rattle.lk_store.specs.Contents.{tree_at};
ghost use Rattle.lk_step.specs.Chains.{after_eta};
ghost use Rattle.lk_step.specs.Meaning.{IsRowIn};
ghost use Rattle.lk_step.specs.Told.{Leaves};
ghost use Rattle.lk_step.specs.Tests.{IsYes, AreReduced};
ghost use Rattle.lk_step.specs.Tells.{Rests};
ghost use Rattle.lk_derive_eta.specs.Tails.{after_given, after_turned};

use crate::structures::by_structure;
use crate::texts::by_texts;
use crate::units::by_units;
use lk_eta::sheet::Way;
use lk_step::{Derives, Row};
use lk_store::memory::NoMemory;

/// The row of two terms by the first test behind structure eta that says yes.
fn from_units<D: Derives>(derives: &mut D, a: u64, b: u64, enough: u128) -> Result<Row, NoMemory>
    requires a_in { a < length (D.contents derives.old).trees }
    requires b_in { b < length (D.contents derives.old).trees }
    requires pair { AreReduced (D.sight (D.rest derives.old)).basis.place
        (tree_at (D.contents derives.old) a) (tree_at (D.contents derives.old) b) }
    requires says { IsYes (D.sight (D.rest derives.old)).basis.place (after_turned
        (tree_at (D.contents derives.old) a) (tree_at (D.contents derives.old) b)) enough }
    ensures leaves { Leaves D.contents D.rest D.sight derives.old derives.new }
    ensures known { IfOk result (IsRowIn (D.contents derives.new)) }
    ensures rests { let t = tree_at (D.contents derives.old) in
        IfOk result (Rests (D.sight (D.rest derives.old)).basis.place (D.contents derives.new)
        (after_turned (t a) (t b)) (equals (t a) (t b))) }
{
    let found = by_units(derives, a, b, enough)?;
    match found {
        Some(row) => Ok(row),
        None => by_texts(derives, a, b, enough),
    }
}

/// The row of two terms by the first test that says yes behind structure eta with the second one as the constructor.
fn from_turned<D: Derives>(derives: &mut D, a: u64, b: u64, enough: u128) -> Result<Row, NoMemory>
    requires a_in { a < length (D.contents derives.old).trees }
    requires b_in { b < length (D.contents derives.old).trees }
    requires pair { AreReduced (D.sight (D.rest derives.old)).basis.place
        (tree_at (D.contents derives.old) a) (tree_at (D.contents derives.old) b) }
    requires says { IsYes (D.sight (D.rest derives.old)).basis.place (after_given
        (tree_at (D.contents derives.old) a) (tree_at (D.contents derives.old) b)) enough }
    ensures leaves { Leaves D.contents D.rest D.sight derives.old derives.new }
    ensures known { IfOk result (IsRowIn (D.contents derives.new)) }
    ensures rests { let t = tree_at (D.contents derives.old) in
        IfOk result (Rests (D.sight (D.rest derives.old)).basis.place (D.contents derives.new)
        (after_given (t a) (t b)) (equals (t a) (t b))) }
{
    let found = by_structure(derives, Way::Turned, b, a, enough)?;
    match found {
        Some(row) => Ok(row),
        None => from_units(derives, a, b, enough),
    }
}

/// The row of two terms by the first test behind function eta that says yes.
pub fn by_structures<D: Derives>(
    derives: &mut D,
    a: u64,
    b: u64,
    enough: u128,
) -> Result<Row, NoMemory>
    requires a_in { a < length (D.contents derives.old).trees }
    requires b_in { b < length (D.contents derives.old).trees }
    requires pair { AreReduced (D.sight (D.rest derives.old)).basis.place
        (tree_at (D.contents derives.old) a) (tree_at (D.contents derives.old) b) }
    requires says { IsYes (D.sight (D.rest derives.old)).basis.place (after_eta
        (tree_at (D.contents derives.old) a) (tree_at (D.contents derives.old) b)) enough }
    ensures leaves { Leaves D.contents D.rest D.sight derives.old derives.new }
    ensures known { IfOk result (IsRowIn (D.contents derives.new)) }
    ensures rests { let t = tree_at (D.contents derives.old) in
        IfOk result (Rests (D.sight (D.rest derives.old)).basis.place (D.contents derives.new)
        (after_eta (t a) (t b)) (equals (t a) (t b))) }
{
    let found = by_structure(derives, Way::Given, a, b, enough)?;
    match found {
        Some(row) => Ok(row),
        None => from_turned(derives, a, b, enough),
    }
}
