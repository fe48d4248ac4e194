//! The row of `Core` of a recursor that is applied.

ghost use Rattle.std.specs.Prelude.{◌≡◌, ◌<◌, None, length, IfOk, OnOk};
ghost use Rattle.lk_tree.specs.Spine.{head as head_of, args as args_of};
ghost use Rattle.lk_rulebook.specs.WellStated.{WellStated};
ghost use Rattle.lk_questions.specs.Query.{core};
ghost use Rattle.lk_store.specs.Contents.{tree_at};
ghost use Rattle.lk_constructor.specs.Looking.{app_at};
ghost use Rattle.lk_step.specs.Meaning.{IsRowIn, IsRowOf};
ghost use Rattle.lk_step.specs.Rows.{IsClaim};
ghost use Rattle.lk_step.specs.Told.{Leaves};
ghost use Rattle.lk_step.specs.Parts.{IsWhole, IsEmpty};
ghost use Rattle.lk_step.specs.Heads.{IsRecursorHead};
ghost use Rattle.lk_derive_iota.specs.Redexes.{IsRedexOf, IsSplit};
ghost use Rattle.lk_derive_iota.specs.Stages.{at_subject, IsUnderWay};

use crate::ctors::at_constructor;
use crate::expanding::go_expanded;
use crate::premises::premise_of;
use crate::redexes::{Redex, redex_of};
use crate::structures::expansion_of;
use lk_constructor::head_constructor;
use lk_step::under_way::empty_row;
use lk_step::{Derives, Row};
use lk_store::memory::NoMemory;

/// Goes on where what stands for the major premise is no constructor: it is expanded, or all of it is its own `Core`.
fn at_structure<D: Derives>(
    derives: &mut D,
    row: &mut Row,
    redex: &Redex,
    m: u64,
    enough: u128,
) -> Result<(), NoMemory>
    requires stated { WellStated (D.sight (D.rest derives.old)).basis.place }
    requires m_in { m < length (D.contents derives.old).trees }
    requires headless { let t = tree_at (D.contents derives.old) m in
        app_at (D.sight (D.rest derives.old)).basis.place (head_of t) (args_of t) ≡ None }
    requires at { let s = D.sight (D.rest derives.old) in let c = D.contents derives.old in
        IsUnderWay s.basis.place s.basis.library c row.old enough redex.now (tree_at c m)
        (at_subject (tree_at c m)) 0 }
    ensures leaves { Leaves D.contents D.rest D.sight derives.old derives.new }
    ensures whole { OnOk result (IsWhole (D.sight (D.rest derives.old)).basis.place
        (D.contents derives.new)
        (core (tree_at (D.contents derives.old) redex.now.application)) row.new) }
{
    let expansion = expansion_of(derives, row, redex, m, enough)?;
    match expansion {
        Some(x) => go_expanded(derives, row, redex, m, x, enough),
        None => Ok(()),
    }
}

/// Goes on with what stands for the major premise.
fn at_premise<D: Derives>(
    derives: &mut D,
    row: &mut Row,
    redex: &Redex,
    m: u64,
    enough: u128,
) -> Result<(), NoMemory>
    requires stated { WellStated (D.sight (D.rest derives.old)).basis.place }
    requires m_in { m < length (D.contents derives.old).trees }
    requires at { let s = D.sight (D.rest derives.old) in let c = D.contents derives.old in
        IsUnderWay s.basis.place s.basis.library c row.old enough redex.now (tree_at c m)
        (at_subject (tree_at c m)) 0 }
    ensures leaves { Leaves D.contents D.rest D.sight derives.old derives.new }
    ensures whole { OnOk result (IsWhole (D.sight (D.rest derives.old)).basis.place
        (D.contents derives.new)
        (core (tree_at (D.contents derives.old) redex.now.application)) row.new) }
{
    match head_constructor(derives, m) {
        Some(_) => at_constructor(derives, row, redex, m, enough),
        None => at_structure(derives, row, redex, m, enough),
    }
}

/// Fills an empty row.
fn fill_redex<D: Derives>(
    derives: &mut D,
    row: &mut Row,
    redex: &Redex,
    e: u64,
    enough: u128,
) -> Result<(), NoMemory>
    requires stated { WellStated (D.sight (D.rest derives.old)).basis.place }
    requires e_in { e < length (D.contents derives.old).trees }
    requires claimed { IsClaim (D.sight (D.rest derives.old)).basis.place
        (core (tree_at (D.contents derives.old) e)) enough }
    requires empty { IsEmpty row.old }
    requires redex { let s = D.sight (D.rest derives.old) in IsRedexOf s.basis.place
        (D.contents derives.old) s.basis.library redex.now (tree_at (D.contents derives.old) e) }
    ensures leaves { Leaves D.contents D.rest D.sight derives.old derives.new }
    ensures whole { OnOk result (IsWhole (D.sight (D.rest derives.old)).basis.place
        (D.contents derives.new) (core (tree_at (D.contents derives.old) e)) row.new) }
{
    let m = premise_of(derives, row, redex, enough)?;
    at_premise(derives, row, redex, m, enough)?;
    Ok(())
}

/// The same, where there is a major premise; else the term is its own `Core`.
fn fill_split<D: Derives>(
    derives: &mut D,
    row: &mut Row,
    split: &Option<Redex>,
    e: u64,
    enough: u128,
) -> Result<(), NoMemory>
    requires stated { WellStated (D.sight (D.rest derives.old)).basis.place }
    requires e_in { e < length (D.contents derives.old).trees }
    requires claimed { IsClaim (D.sight (D.rest derives.old)).basis.place
        (core (tree_at (D.contents derives.old) e)) enough }
    requires empty { IsEmpty row.old }
    requires split { let s = D.sight (D.rest derives.old) in IsSplit s.basis.place
        (D.contents derives.old) s.basis.library (tree_at (D.contents derives.old) e) split.now }
    ensures leaves { Leaves D.contents D.rest D.sight derives.old derives.new }
    ensures whole { OnOk result (IsWhole (D.sight (D.rest derives.old)).basis.place
        (D.contents derives.new) (core (tree_at (D.contents derives.old) e)) row.new) }
{
    match split {
        Some(redex) => fill_redex(derives, row, redex, e, enough),
        None => Ok(()),
    }
}

/// The same of a term whose head is a recursor.
fn fill_row<D: Derives>(
    derives: &mut D,
    row: &mut Row,
    e: u64,
    enough: u128,
) -> Result<(), NoMemory>
    requires stated { WellStated (D.sight (D.rest derives.old)).basis.place }
    requires e_in { e < length (D.contents derives.old).trees }
    requires claimed { IsClaim (D.sight (D.rest derives.old)).basis.place
        (core (tree_at (D.contents derives.old) e)) enough }
    requires head { IsRecursorHead (D.sight (D.rest derives.old)).basis.place
        (tree_at (D.contents derives.old) e) }
    requires empty { IsEmpty row.old }
    ensures leaves { Leaves D.contents D.rest D.sight derives.old derives.new }
    ensures whole { OnOk result (IsWhole (D.sight (D.rest derives.old)).basis.place
        (D.contents derives.new) (core (tree_at (D.contents derives.old) e)) row.new) }
{
    let split = redex_of(derives, e)?;
    fill_split(derives, row, &split, e, enough)?;
    Ok(())
}

/// What `Core` of a recursor that is applied rests on.
pub fn recursor_row<D: Derives>(derives: &mut D, e: u64, enough: u128) -> Result<Row, NoMemory>
    requires stated { WellStated (D.sight (D.rest derives.old)).basis.place }
    requires e_in { e < length (D.contents derives.old).trees }
    requires claimed { IsClaim (D.sight (D.rest derives.old)).basis.place
        (core (tree_at (D.contents derives.old) e)) enough }
    requires head { IsRecursorHead (D.sight (D.rest derives.old)).basis.place
        (tree_at (D.contents derives.old) e) }
    ensures leaves { Leaves D.contents D.rest D.sight derives.old derives.new }
    ensures known { IfOk result (IsRowIn (D.contents derives.new)) }
    ensures row { IfOk result (IsRowOf (D.sight (D.rest derives.old)).basis.place
        (D.contents derives.new) (core (tree_at (D.contents derives.old) e))) }
{
    let mut row = empty_row(derives.alloc());
    fill_row(derives, &mut row, e, enough)?;
    Ok(row)
}
