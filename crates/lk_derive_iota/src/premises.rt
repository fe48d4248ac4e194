//! What stands for the major premise: what K takes it for, or what its weak head form is read as.

ghost use Rattle.std.specs.Prelude.{◌<◌, length, IfOk};
ghost use Rattle.lk_rulebook.specs.WellStated.{WellStated};
ghost use Rattle.lk_store.specs.Contents.{tree_at};
ghost use Rattle.lk_step.specs.Told.{Leaves};
ghost use Rattle.lk_derive_iota.specs.Stages.{starts, at_major, at_subject, IsUnderWay};
ghost use Rattle.lk_derive_iota.specs.Taken.{IsTaken};

use crate::candidates::candidate_of;
use crate::majors::{read_major, state_major};
use crate::redexes::Redex;
use crate::taking::{ask_compared, state_candidate};
use lk_step::{Derives, Row};
use lk_store::memory::NoMemory;

/// The candidate, where K takes the major premise for it: the row says so.
fn take_candidate<D: Derives>(
    derives: &mut D,
    row: &mut Row,
    redex: &Redex,
    d: u64,
    enough: u128,
) -> Result<u64, NoMemory>
    requires stated { WellStated (D.sight (D.rest derives.old)).basis.place }
    requires d_in { d < length (D.contents derives.old).trees }
    requires taken { let s = D.sight (D.rest derives.old) in let c = D.contents derives.old in
        IsTaken s.basis.place s.basis.library c row.old enough redex.now
        (tree_at c redex.now.major) (tree_at c d) }
    ensures leaves { Leaves D.contents D.rest D.sight derives.old derives.new }
    ensures known { IfOk result (λ v. v < length (D.contents derives.new).trees) }
    ensures at { let s = D.sight (D.rest derives.old) in let c = D.contents derives.new in
        IfOk result (λ v. IsUnderWay s.basis.place s.basis.library c row.new enough redex.now
        (tree_at c v) (at_subject (tree_at c v)) 0) }
{
    let compared = ask_compared(derives, row, redex, d, enough)?;
    state_candidate(derives, row, redex, d, compared, enough)?;
    Ok(d)
}

/// What the weak head form of the major premise is read as: the row says that it reduces to that.
fn read_premise<D: Derives>(
    derives: &mut D,
    row: &mut Row,
    redex: &Redex,
    enough: u128,
) -> Result<u64, NoMemory>
    requires stated { WellStated (D.sight (D.rest derives.old)).basis.place }
    requires at { let s = D.sight (D.rest derives.old) in let c = D.contents derives.old in
        IsUnderWay s.basis.place s.basis.library c row.old enough redex.now
        (tree_at c redex.now.major) at_major 0 }
    ensures leaves { Leaves D.contents D.rest D.sight derives.old derives.new }
    ensures known { IfOk result (λ v. v < length (D.contents derives.new).trees) }
    ensures at { let s = D.sight (D.rest derives.old) in let c = D.contents derives.new in
        IfOk result (λ v. IsUnderWay s.basis.place s.basis.library c row.new enough redex.now
        (tree_at c v) (at_subject (tree_at c v)) 0) }
{
    let major = read_major(derives, row, redex, enough)?;
    state_major(derives, row, redex, major.form, major.read, enough)?;
    Ok(major.read)
}

/// What stands for the major premise: the row says that the recursor on its major premise reduces to that on this.
pub(crate) fn premise_of<D: Derives>(
    derives: &mut D,
    row: &mut Row,
    redex: &Redex,
    enough: u128,
) -> Result<u64, NoMemory>
    requires stated { WellStated (D.sight (D.rest derives.old)).basis.place }
    requires at { let s = D.sight (D.rest derives.old) in let c = D.contents derives.old in
        IsUnderWay s.basis.place s.basis.library c row.old enough redex.now
        (tree_at c redex.now.major) starts 0 }
    ensures leaves { Leaves D.contents D.rest D.sight derives.old derives.new }
    ensures known { IfOk result (λ v. v < length (D.contents derives.new).trees) }
    ensures at { let s = D.sight (D.rest derives.old) in let c = D.contents derives.new in
        IfOk result (λ v. IsUnderWay s.basis.place s.basis.library c row.new enough redex.now
        (tree_at c v) (at_subject (tree_at c v)) 0) }
{
    let taken = candidate_of(derives, row, redex, enough)?;
    match taken {
        Some(d) => take_candidate(derives, row, redex, d, enough),
        None => read_premise(derives, row, redex, enough),
    }
}
