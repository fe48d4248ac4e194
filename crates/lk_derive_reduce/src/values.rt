//! `Whnf` of a term whose head is unfolded.

ghost use Rattle.std.specs.Prelude.{◌≡◌, ◌<◌, List, Some, IfSome, OnOk, length, option_map};
ghost use Rattle.lk_rulebook.specs.Place.{Entry as PlainEntry};
ghost use Rattle.lk_rulebook.specs.WellStated.{WellStated};
ghost use Rattle.lk_questions.specs.Query.{whnf};
ghost use Rattle.lk_questions.specs.Steps.{value_of as plain_value};
ghost use Rattle.lk_store.specs.Contents.{Contents, list_at, tree_at};
ghost use Rattle.lk_store.specs.Store.{contents_of};
ghost use Rattle.lk_env.specs.declared.unit.Unit.{Unit as StoredUnit};
ghost use Rattle.lk_env.specs.Entries.{plain_entry, IsEntryIn};
ghost use Rattle.lk_ask.specs.Looks.{entry_at, IsOver};
ghost use Rattle.lk_step.specs.Told.{Leaves};
ghost use Rattle.lk_step.specs.Parts.{IsWhole};
ghost use Rattle.lk_derive_reduce.specs.Forms.{DeltaRun, UnfoldsBy};

use lk_ask::unfolding::unfold;
use lk_env::entry::{Entry, Kind};
use lk_env::unit::Body;
use lk_step::under_way::{add_step, chain, no_premise, then_form};
use lk_step::{Derives, Row};
use lk_store::memory::NoMemory;
use lk_trace::ReductionRule;

/// The value that a constant is unfolded by.
fn value_of(entry: Entry) -> Option<u64>
    ensures known { (c : Contents) → IsEntryIn c entry → IfSome result (λ v. v < length c.trees) }
    ensures value { (c : Contents) (us : List StoredUnit) (g : PlainEntry)
        → plain_entry c us entry ≡ Some g → plain_value g.kind ≡ option_map (tree_at c) result }
{
    match entry.kind {
        Kind::Declared(body) => match body {
            Body::Definition { value, .. } => Some(u64::from(value)),
            Body::Theorem { proof } => Some(u64::from(proof)),
            Body::Axiom | Body::Opaque { .. } | Body::Quotient => None,
        },
        Kind::Type(_) | Kind::Constructor { .. } | Kind::Recursor(_) | Kind::BareRecursor(_) =>
            None,
    }
}

/// Goes on from the weak head form without unfolding, whose head is unfolded to the third term.
fn unfolded_once<D: Derives>(
    derives: &mut D,
    row: &mut Row,
    e: u64,
    core: u64,
    next: u64,
    enough: u128,
) -> Result<(), NoMemory>
    requires stated { WellStated (D.sight (D.rest derives.old)).basis.place }
    requires e_in { e < length (D.contents derives.old).trees }
    requires core_in { core < length (D.contents derives.old).trees }
    requires next_in { next < length (D.contents derives.old).trees }
    requires run { let t = tree_at (D.contents derives.old) in
        DeltaRun (D.sight (D.rest derives.old)).basis.place (D.contents derives.old) row.old
        enough (t e) (t core) (t next) }
    ensures leaves { Leaves D.contents D.rest D.sight derives.old derives.new }
    ensures whole { OnOk result (IsWhole (D.sight (D.rest derives.old)).basis.place
        (D.contents derives.new) (whnf (tree_at (D.contents derives.old) e)) row.new) }
{
    let alloc = derives.alloc();
    add_step(
        derives,
        row,
        ReductionRule::Delta,
        core,
        next,
        no_premise(alloc),
    )?;
    chain(alloc, derives, row, e, core, next)?;
    then_form(derives, row, e, next, enough)?;
    Ok(())
}

/// The same, where the head is a constant of this entry and these levels, which has this value.
fn by_value<D: Derives>(
    derives: &mut D,
    row: &mut Row,
    e: u64,
    core: u64,
    entry: Entry,
    levels: u64,
    value: u64,
    enough: u128,
) -> Result<(), NoMemory>
    requires stated { WellStated (D.sight (D.rest derives.old)).basis.place }
    requires e_in { e < length (D.contents derives.old).trees }
    requires core_in { core < length (D.contents derives.old).trees }
    requires levels_in { levels < length (D.contents derives.old).lists }
    requires value_in { value < length (D.contents derives.old).trees }
    requires value_is { (g : PlainEntry)
        → entry_at (D.sight (D.rest derives.old)).basis entry ≡ Some g
        → plain_value g.kind ≡ Some (tree_at (D.contents derives.old) value) }
    requires unfolds { let c = D.contents derives.old in
        UnfoldsBy (D.sight (D.rest derives.old)).basis c row.old enough (tree_at c e)
        (tree_at c core) entry (list_at c levels) }
    ensures leaves { Leaves D.contents D.rest D.sight derives.old derives.new }
    ensures whole { OnOk result (IsWhole (D.sight (D.rest derives.old)).basis.place
        (D.contents derives.new) (whnf (tree_at (D.contents derives.old) e)) row.new) }
{
    let made = unfold(derives, entry, levels, value, core)?;
    match made {
        Some(next) => unfolded_once(derives, row, e, core, next, enough),
        None => unreachable!(),
    }
}

/// Goes on from the weak head form without unfolding, whose head is a constant of this entry and these levels, and which is no
/// operation that is computed: it is unfolded, where the constant has a value.
pub(crate) fn by_entry<D: Derives>(
    derives: &mut D,
    row: &mut Row,
    e: u64,
    core: u64,
    entry: Entry,
    levels: u64,
    enough: u128,
) -> Result<(), NoMemory>
    requires stated { WellStated (D.sight (D.rest derives.old)).basis.place }
    requires over { IsOver D.contents D.rest D.sight derives.old }
    requires known { IsEntryIn
        (contents_of (D.sight (D.rest derives.old)).basis.library.tables) entry }
    requires e_in { e < length (D.contents derives.old).trees }
    requires core_in { core < length (D.contents derives.old).trees }
    requires levels_in { levels < length (D.contents derives.old).lists }
    requires unfolds { let c = D.contents derives.old in
        UnfoldsBy (D.sight (D.rest derives.old)).basis c row.old enough (tree_at c e)
        (tree_at c core) entry (list_at c levels) }
    ensures leaves { Leaves D.contents D.rest D.sight derives.old derives.new }
    ensures whole { OnOk result (IsWhole (D.sight (D.rest derives.old)).basis.place
        (D.contents derives.new) (whnf (tree_at (D.contents derives.old) e)) row.new) }
{
    match value_of(entry) {
        Some(value) => by_value(derives, row, e, core, entry, levels, value, enough),
        None => Ok(()),
    }
}
