//! The outermost nested occurrences in a term, in order: a walk that goes through it once.

ghost use Rattle.std.specs.Prelude.{◌≡◌, ◌<◌, [], true, length, All, IfOk};
ghost use Rattle.lk_tree.specs.Mentions.{mentions};
ghost use Rattle.lk_store.specs.Contents.{tree_at};
ghost use Rattle.lk_nested.specs.Halts.{IsTested};
ghost use Rattle.lk_nested.specs.Occurrences.{test_at};
ghost use Rattle.lk_mentions.specs.Names.{names_at};
ghost use Rattle.lk_nested.specs.Marks.{AreMarked};
ghost use Rattle.lk_nested.specs.Nestings.{AreSpines};
ghost use Rattle.lk_nested.specs.Outermost.{AreGathered, IsTakenIf, AreOutermostIf, Tells};

use crate::marks::{Mark, is_mentioning, mark_parts};
use crate::nested::is_nested_application;
use crate::spines::{Spine, function_of, keep_function, spine_of};
use lk_ask::asks::Asks;
use lk_ask::stop::Stop;
use lk_mentions::names::Names;
use lk_mentions::part::Met;
use lk_rows::table::Table;
use lk_seek::tree::{is_leaf, open};
use lk_seek::visit::{Visit, push};
use lk_store::terms::Terms;
use lk_tree::rule::Rule;
use std::alloc::Global;

/// What the walk has still to do, and what is kept of the terms that it left.
#[derive(Drop)]
struct Walk {
    /// What waits.
    pub stack: Vec<Visit<u64>>,
    /// Those that were left.
    pub done: Table<Met>,
    /// The heads of applications.
    pub spines: Table<Spine>,
}

/// Whether a term that mentions a type of the block is a nested occurrence itself. What is at its head is kept for its
/// function.
fn is_occurrence<A: Asks>(
    asks: &A,
    names: &Names,
    spines: &mut Table<Spine>,
    e: u64,
) -> Result<bool, Stop>
    requires names_in { All (λ n. n < length (A.contents asks.now).names) names.now }
    requires tree_in { e < length (A.contents asks.now).trees }
    requires spines { AreSpines (A.contents asks.now) spines.old }
    requires mentioning { mentions (names_at (A.contents asks.now) names.now)
        (tree_at (A.contents asks.now) e) ≡ true }
    ensures spines { IfOk result (λ r. AreSpines (A.contents asks.now) spines.new) }
    ensures test { IsTested (test_at (A.standing asks.now).place
        (names_at (A.contents asks.now) names.now) (tree_at (A.contents asks.now) e)) result }
{
    match function_of(asks, e) {
        None => Ok(false),
        Some(f) => {
            let spine = spine_of(asks, spines, e)?;
            keep_function(asks, spines, spine, f)?;
            is_nested_application(asks, names, spine)
        }
    }
}

/// Looks at a part: an occurrence is gathered, and what may hold one is opened.
fn enter<A: Asks>(
    alloc: Global,
    asks: &A,
    names: &Names,
    marks: &Table<Mark>,
    walk: &mut Walk,
    found: &mut Vec<u64>,
    e: u64,
) -> Result<(), Stop>
    requires names_in { All (λ n. n < length (A.contents asks.now).names) names.now }
    requires tree_in { e < length (A.contents asks.now).trees }
    requires marks { AreMarked (A.contents asks.now)
        (names_at (A.contents asks.now) names.now) marks.now }
    requires done { AreGathered (A.standing asks.now).place
        (names_at (A.contents asks.now) names.now) (A.contents asks.now)
        found.old.items walk.old.done }
    requires spines { AreSpines (A.contents asks.now) walk.old.spines }
    ensures done { walk.new.done ≡ walk.old.done }
    ensures spines { IfOk result (λ r. AreSpines (A.contents asks.now) walk.new.spines) }
    ensures taken { IsTakenIf (A.standing asks.now).place
        (names_at (A.contents asks.now) names.now) (A.contents asks.now) e
        found.old.items found.new.items walk.old.stack.items walk.new.stack.items result }
{
    let node = asks.view(e);
    if is_leaf(node) {
        return Ok(());
    }
    if let Some(_) = walk.done.find(&e) {
        return Ok(());
    }
    if !is_mentioning(alloc, asks, names, marks, e)? {
        return Ok(());
    }
    if is_occurrence(asks, names, &mut walk.spines, e)? {
        match found.push(e) {
            Ok(_) => return Ok(()),
            Err(_) => return Err(Stop::NoMemory),
        }
    }
    open(&mut walk.stack, e, node)?;
    Ok(())
}

/// The rule of a refusal.
fn told(stop: Stop) -> Result<Option<Rule>, Stop>
    ensures { Tells stop result }
{
    match stop {
        Stop::No(rule) => Ok(Some(rule)),
        Stop::Spent | Stop::NoMemory => Err(Stop::NoMemory),
    }
}

/// Goes through what waits. A look-up that is refused ends the walk.
fn gather<A: Asks>(
    alloc: Global,
    asks: &A,
    names: &Names,
    marks: &Table<Mark>,
    walk: &mut Walk,
    found: &mut Vec<u64>,
    e: u64,
) -> Result<Option<Rule>, Stop>
    requires names_in { All (λ n. n < length (A.contents asks.now).names) names.now }
    requires tree_in { e < length (A.contents asks.now).trees }
    requires marks { AreMarked (A.contents asks.now)
        (names_at (A.contents asks.now) names.now) marks.now }
    requires none_done { walk.old.done ≡ [] }
    requires none_found { found.old.items ≡ [] }
    requires none_waits { walk.old.stack.items ≡ [] }
    requires spines { AreSpines (A.contents asks.now) walk.old.spines }
    ensures { AreOutermostIf (A.standing asks.now).place
        (names_at (A.contents asks.now) names.now) (A.contents asks.now) e
        found.new.items result }
{
    push(&mut walk.stack, Visit::Enter(e))?;
    'walk: while let Some(visit) = walk.stack.pop() {
        match visit {
            Visit::Enter(part) => match enter(alloc, asks, names, marks, walk, found, part) {
                Ok(_) => {}
                Err(stop) => return told(stop),
            },
            Visit::Leave(part) => match walk.done.push(Met { tree: part }) {
                Ok(_) => {}
                Err(_) => return Err(Stop::NoMemory),
            },
        }
    }
    Ok(None)
}

/// Gathers the outermost nested occurrences in a term, whose parts are marked first. It tells the rule by which a look-up
/// behind them is refused, if one is.
pub fn find_outermost<A: Asks>(
    alloc: Global,
    asks: &A,
    names: &Names,
    marks: &mut Table<Mark>,
    found: &mut Vec<u64>,
    e: u64,
) -> Result<Option<Rule>, Stop>
    requires names_in { All (λ n. n < length (A.contents asks.now).names) names.now }
    requires tree_in { e < length (A.contents asks.now).trees }
    requires marks { AreMarked (A.contents asks.now)
        (names_at (A.contents asks.now) names.now) marks.old }
    requires none_found { found.old.items ≡ [] }
    ensures marks { IfOk result (λ r. AreMarked (A.contents asks.now)
        (names_at (A.contents asks.now) names.now) marks.new) }
    ensures outermost { AreOutermostIf (A.standing asks.now).place
        (names_at (A.contents asks.now) names.now) (A.contents asks.now) e
        found.new.items result }
{
    mark_parts(alloc, asks, names, marks, e)?;
    let mut walk = Walk {
        stack: Vec::new(alloc),
        done: Table::new(alloc),
        spines: Table::new(alloc),
    };
    gather(alloc, asks, names, marks, &mut walk, found, e)
}
