//! A recursor that is applied to its major premise.

ghost use Rattle.std.specs.Prelude.{◌≡◌, ◌<◌, ◌+◌, List, Some, length, IfOk};
ghost use Rattle.lk_tree.specs.Spine.{args as args_of};
ghost use Rattle.lk_tree.specs.WellFormed.{IsWellFormed};
ghost use Rattle.lk_rulebook.specs.Place.{Entry as PlainEntry, Recursor as PlainRecursor, a_rec};
ghost use Rattle.lk_store.specs.Contents.{Contents, tree_at};
ghost use Rattle.lk_spine.specs.Reading.{AreTrees};
ghost use Rattle.lk_env.specs.declared.unit.RecursorRule.{RecursorRule};
ghost use Rattle.lk_env.specs.Lent.{given_recursor};
ghost use Rattle.lk_ask.specs.Looks.{entry_at};
ghost use Rattle.lk_step.specs.Told.{Leaves};
ghost use Rattle.lk_step.specs.Heads.{IsRecursorHead};
ghost use Rattle.lk_derive_iota.specs.Redexes.{IsShape, IsShapeIf, IsRedexOf, IsHeadedBy};
ghost use Rattle.lk_derive_iota.specs.Redexes.{IsSplit};

use lk_ask::looks::Looks;
use lk_env::entry::Entry;
use lk_env::lent::recursor_of;
use lk_env::unit::Recursor;
use lk_premises::{Headed, head_meaning};
use lk_spine::{apply, args, head};
use lk_step::Derives;
use lk_store::memory::NoMemory;
use lk_store::node::Node;
use std::alloc::Global;

/// A recursor that is applied to its major premise, in parts. Terms are numbers of a store.
#[derive(Drop)]
pub struct Redex {
    pub entry: Entry,
    pub levels: u64,
    /// Whether the recursor has K.
    pub k: bool,
    /// All of it.
    pub application: u64,
    /// The recursor at its arguments before the major premise.
    pub front: u64,
    pub major: u64,
    /// That on the major premise.
    pub reached: u64,
    /// The parameters, the motives and the minor premises.
    pub shared: Vec<u64>,
    /// What comes behind the major premise.
    pub behind: Vec<u64>,
}

/// How the arguments of a recursor are split, and whether it has K. Counts have 64 bits, so that a sum may be above 2^64.
#[derive(Clone, Copy)]
pub(crate) struct Shape {
    pub shared: u128,
    pub before: u128,
    pub k: bool,
}

/// How many arguments each rule shares, and how many stand before the major premise.
fn counts(parameters: u64, motives: u64, minors: u64, indices: u64) -> (u128, u128)
    ensures shared { result.0 ≡ parameters + motives + minors }
    ensures before { result.1 ≡ parameters + motives + minors + indices }
{
    let shared = u128::from(parameters) + u128::from(motives) + u128::from(minors);
    (shared, shared + u128::from(indices))
}

fn shape_by(recursor: &Recursor) -> Shape
    ensures { (c : Contents) (rules : List RecursorRule)
        → IsShape (given_recursor c recursor.now rules) result }
{
    let (shared, before) = counts(
        recursor.parameters,
        recursor.motives,
        recursor.minors,
        recursor.indices,
    );
    Shape {
        shared,
        before,
        k: recursor.k,
    }
}

/// The same of an entry, where it is a recursor.
fn shape_of<L: Looks>(looks: &L, entry: Entry) -> Option<Shape>
    ensures { (g : PlainEntry) (r : PlainRecursor)
        → entry_at (L.sight (L.rest looks.now)).basis entry ≡ Some g → g.kind ≡ a_rec r
        → IsShapeIf r result }
{
    match recursor_of(looks.scope(), entry) {
        Some((recursor, _)) => Some(shape_by(recursor)),
        None => None,
    }
}

fn copied(alloc: Global, items: &[u64]) -> Result<Vec<u64>, NoMemory>
    ensures { IfOk result (λ v. v.items ≡ items.now) }
{
    let mut copy = Vec::new(alloc);
    copy.extend_from_slice(items)?;
    Ok(copy)
}

/// The parts, where there is a major premise.
fn parts<D: Derives>(
    derives: &mut D,
    headed: Headed,
    shape: Shape,
    e: u64,
    arguments: &[u64],
) -> Result<Redex, NoMemory>
    requires fine { IsWellFormed (tree_at (D.contents derives.old) e) }
    requires e_in { e < length (D.contents derives.old).trees }
    requires levels_in { headed.levels < length (D.contents derives.old).lists }
    requires headed { IsHeadedBy (D.sight (D.rest derives.old)).basis (D.contents derives.old)
        (tree_at (D.contents derives.old) e) headed shape }
    requires arguments_are { AreTrees (D.contents derives.old) arguments.now
        (args_of (tree_at (D.contents derives.old) e)) }
    requires many { shape.before < length arguments.now }
    ensures leaves { Leaves D.contents D.rest D.sight derives.old derives.new }
    ensures is { let s = D.sight (D.rest derives.old) in IfOk result (λ u. IsRedexOf s.basis.place
        (D.contents derives.new) s.basis.library u (tree_at (D.contents derives.old) e)) }
{
    let alloc = derives.alloc();
    let before = shape.before as usize;
    let start = head(derives, e);
    let front = apply(derives, start, &arguments[..before])?;
    let major = arguments[before];
    let reached = derives.make(Node::App(front, major))?;
    let (_, behind) = arguments.split_at(before + 1);
    Ok(Redex {
        entry: headed.entry,
        levels: headed.levels,
        k: shape.k,
        application: e,
        front,
        major,
        reached,
        shared: copied(alloc, &arguments[..shape.shared as usize])?,
        behind: copied(alloc, behind)?,
    })
}

/// The parts of a recursor that is applied, of this shape.
fn split<D: Derives>(
    derives: &mut D,
    headed: Headed,
    shape: Shape,
    e: u64,
) -> Result<Option<Redex>, NoMemory>
    requires fine { IsWellFormed (tree_at (D.contents derives.old) e) }
    requires e_in { e < length (D.contents derives.old).trees }
    requires levels_in { headed.levels < length (D.contents derives.old).lists }
    requires headed { IsHeadedBy (D.sight (D.rest derives.old)).basis (D.contents derives.old)
        (tree_at (D.contents derives.old) e) headed shape }
    ensures leaves { Leaves D.contents D.rest D.sight derives.old derives.new }
    ensures is { let s = D.sight (D.rest derives.old) in IfOk result (IsSplit s.basis.place
        (D.contents derives.new) s.basis.library (tree_at (D.contents derives.old) e)) }
{
    let arguments = args(derives.alloc(), derives, e)?;
    if shape.before >= arguments.len() as u128 {
        return Ok(None);
    }
    let redex = parts(derives, headed, shape, e, &arguments)?;
    Ok(Some(redex))
}

/// The recursor at the head of a term, of which it is known that there is one: its parts, where it has a major premise.
pub(crate) fn redex_of<D: Derives>(derives: &mut D, e: u64) -> Result<Option<Redex>, NoMemory>
    requires e_in { e < length (D.contents derives.old).trees }
    requires fine { IsWellFormed (tree_at (D.contents derives.old) e) }
    requires head { IsRecursorHead (D.sight (D.rest derives.old)).basis.place
        (tree_at (D.contents derives.old) e) }
    ensures leaves { Leaves D.contents D.rest D.sight derives.old derives.new }
    ensures is { let s = D.sight (D.rest derives.old) in IfOk result (IsSplit s.basis.place
        (D.contents derives.new) s.basis.library (tree_at (D.contents derives.old) e)) }
{
    let headed = match head_meaning(derives, e) {
        Some(headed) => headed,
        None => unreachable!(),
    };
    let shape = match shape_of(derives, headed.entry) {
        Some(shape) => shape,
        None => unreachable!(),
    };
    split(derives, headed, shape, e)
}
