//! The major premise, by its weak head form.

ghost use Rattle.std.specs.Prelude.{◌<◌, length, IfOk, OnOk};
ghost use Rattle.lk_rulebook.specs.WellStated.{WellStated};
ghost use Rattle.lk_store.specs.Contents.{tree_at};
ghost use Rattle.lk_step.specs.Told.{Leaves};
ghost use Rattle.lk_derive_iota.specs.Stages.{at_major, at_subject, IsUnderWay, HasRead};

use crate::redexes::Redex;
use crate::steps::state_step;
use lk_lit::literal_to_ctor;
use lk_step::under_way::{ask_form, one_reduction};
use lk_step::{Derives, Row};
use lk_store::memory::NoMemory;
use lk_store::node::Node;
use lk_trace::ReductionRule;

/// A weak head form, and what it is read as: where it is a literal, that as a constructor.
#[derive(Clone, Copy)]
pub(crate) struct ReadForm {
    pub form: u64,
    pub read: u64,
}

/// Asks for the weak head form of the major premise, and reads it.
pub(crate) fn read_major<D: Derives>(
    derives: &mut D,
    row: &mut Row,
    redex: &Redex,
    enough: u128,
) -> Result<ReadForm, NoMemory>
    requires stated { WellStated (D.sight (D.rest derives.old)).basis.place }
    requires at { let s = D.sight (D.rest derives.old) in let c = D.contents derives.old in
        IsUnderWay s.basis.place s.basis.library c row.old enough redex.now
        (tree_at c redex.now.major) at_major 0 }
    ensures leaves { Leaves D.contents D.rest D.sight derives.old derives.new }
    ensures form_in { IfOk result (λ r. r.form < length (D.contents derives.new).trees) }
    ensures read_in { IfOk result (λ r. r.read < length (D.contents derives.new).trees) }
    ensures reads { let s = D.sight (D.rest derives.old) in let c = D.contents derives.new in
        IfOk result (λ r. HasRead s.basis.place s.basis.library c row.new enough redex.now
        (tree_at c r.form) (tree_at c r.read)) }
{
    let form = ask_form(derives, row, redex.major, enough)?;
    match literal_to_ctor(derives, form)? {
        Ok(read) => Ok(ReadForm { form, read }),
        Err(_) => unreachable!(),
    }
}

/// Says that the recursor on its major premise reduces to that on what this is read as.
pub(crate) fn state_major<D: Derives>(
    derives: &mut D,
    row: &mut Row,
    redex: &Redex,
    form: u64,
    read: u64,
    enough: u128,
) -> Result<(), NoMemory>
    requires form_in { form < length (D.contents derives.old).trees }
    requires read_in { read < length (D.contents derives.old).trees }
    requires reads { let s = D.sight (D.rest derives.old) in let c = D.contents derives.old in
        HasRead s.basis.place s.basis.library c row.old enough redex.now (tree_at c form)
        (tree_at c read) }
    ensures leaves { Leaves D.contents D.rest D.sight derives.old derives.new }
    ensures at { let s = D.sight (D.rest derives.old) in let t = tree_at (D.contents derives.old) in
        OnOk result (IsUnderWay s.basis.place s.basis.library (D.contents derives.new) row.new
        enough redex.now (t read) (at_subject (t read)) 0) }
{
    let next = derives.make(Node::App(redex.front, read))?;
    let premises = one_reduction(derives.alloc(), redex.major, form)?;
    state_step(
        derives,
        row,
        ReductionRule::Major,
        redex.reached,
        next,
        premises,
    )?;
    Ok(())
}
