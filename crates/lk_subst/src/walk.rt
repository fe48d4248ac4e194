//! Walks that build a tree anew. The first layers of a tree go by calls (`layers`), and what is below
//! them on a stack: there a walk goes below each pair of a number and a depth once. It works in room
//! that the store lends, so that few walks take memory.

ghost use Rattle.std.specs.Prelude.{◌≡◌, ◌<◌, ◌⊎◌, ◌∷◌, ◌++◌, [], ℕ, length, IfOk, OnOk, OnErr};
ghost use Rattle.lk_tree.specs.Tree.{Tree};
ghost use Rattle.lk_store.specs.Contents.{Contents, tree_at, Extends};
ghost use Rattle.lk_subst.specs.Walks.{Change, Descends, IsStep, IsMade, AreMade, IsWaiting};
ghost use Rattle.lk_subst.specs.Courses.{IsReady};
ghost use Rattle.lk_subst.specs.Walks.{Begins, Resumes, IsOwn, first_of, next_of, with_child, inside};

use crate::layers::{Course, LAYERS, made_of};
use lk_rows::table::Table;
use lk_store::memory::NoMemory;
use lk_store::node::Node;
use lk_store::room::{Child, Made, Room, Spot, Waiting};
use lk_store::terms::Terms;
use std::alloc::Global;

/// What a walk does next.
#[derive(Clone, Copy)]
pub enum Turn {
    /// The node waits for what is made of `e`. Of its children before that one some were walked, or
    /// something was made of each at once.
    Down {
        waiting: Waiting,
        e: u64,
        depth: u64,
        walked: bool,
    },
    /// It is made.
    Up {
        e: u64,
    },
}

/// What a walk does at a node.
pub trait Rewrite<T: Terms> {
    /// What it makes of a tree under some binders. The numbers that it holds are read in the store.
    ghost change: { Self → Contents → ℕ → Tree → Tree };

    /// Its numbers are numbers of the store.
    ghost is_known: { Self → Contents → Type 0 };

    /// What is made of a tree at once, or `None`, where its children are to be walked.
    fn step(&self, terms: &mut T, e: u64, depth: u64) -> Result<Option<u64>, NoMemory>
        requires known { is_known self.now (T.contents terms.old) }
        requires e_in { e < length (T.contents terms.old).trees }
        ensures keeps { Extends (T.contents terms.old) (T.contents terms.new) }
        ensures rest { T.rest terms.new ≡ T.rest terms.old }
        ensures made { IfOk result (IsStep (change self.now (T.contents terms.old))
            (T.contents terms.old) e depth (T.contents terms.new)) };

    /// What is known stays known.
    ghost more: { (s : Self) (c d : Contents) → Extends c d → is_known s c → is_known s d };

    /// More contents change nothing.
    ghost steady: { (s : Self) (c d : Contents) → Extends c d → is_known s c
        → change s d ≡ change s c };
}

/// The first child.
fn first_child(node: Node) -> Option<u64>
    ensures { result ≡ first_of node }
{
    match node {
        Node::App(e, _)
        | Node::Lam(e, _)
        | Node::Pi(e, _)
        | Node::Let(e, _, _)
        | Node::Proj(_, _, e)
        | Node::Local(_, e) => Some(e),
        _ => None,
    }
}

/// The child after one, its number, and whether it stands under a binder.
fn next_child(node: Node, child: Child) -> Option<(Child, u64, bool)>
    ensures { result ≡ next_of node child }
{
    match child {
        Child::First => match node {
            Node::App(_, e) | Node::Let(_, e, _) => Some((Child::Second, e, false)),
            Node::Lam(_, e) | Node::Pi(_, e) => Some((Child::Second, e, true)),
            _ => None,
        },
        Child::Second => match node {
            Node::Let(_, _, e) => Some((Child::Third, e, true)),
            _ => None,
        },
        Child::Third => None,
    }
}

/// The node with another child.
fn replaced(node: Node, child: Child, e: u64) -> Node
    ensures { result ≡ with_child node child e }
{
    match child {
        Child::First => match node {
            Node::App(_, a) => Node::App(e, a),
            Node::Lam(_, b) => Node::Lam(e, b),
            Node::Pi(_, b) => Node::Pi(e, b),
            Node::Let(_, v, b) => Node::Let(e, v, b),
            Node::Proj(n, i, _) => Node::Proj(n, i, e),
            Node::Local(k, _) => Node::Local(k, e),
            other => other,
        },
        Child::Second => match node {
            Node::App(f, _) => Node::App(f, e),
            Node::Lam(t, _) => Node::Lam(t, e),
            Node::Pi(t, _) => Node::Pi(t, e),
            Node::Let(t, _, b) => Node::Let(t, e, b),
            other => other,
        },
        Child::Third => match node {
            Node::Let(t, v, _) => Node::Let(t, v, e),
            other => other,
        },
    }
}

/// The depth of a child.
pub(crate) fn depth_inside(depth: u64, under_binder: bool) -> Result<u64, NoMemory>
    ensures { IfOk result (λ d. d ≡ inside depth under_binder) }
{
    if under_binder {
        // No term in memory is so deep that this fails.
        depth.checked_add(1).ok_or(NoMemory)
    } else {
        Ok(depth)
    }
}

/// Goes down to the first child of a tree, which waits for what is made of it.
fn enter<T: Terms, R: Rewrite<T>>(terms: &T, rewrite: &R, e: u64, depth: u64) -> Turn
    requires e_in { e < length (T.contents terms.now).trees }
    requires descends { Descends (R.change rewrite.now (T.contents terms.now)) depth
        (tree_at (T.contents terms.now) e) }
    ensures { Begins (R.change rewrite.now (T.contents terms.now)) (T.contents terms.now) e depth
        (T.contents terms.now) result }
{
    let _rewrite = rewrite;
    let spot = Spot { e, depth };
    let node = terms.view(e);
    match first_child(node) {
        Some(first) => Turn::Down {
            waiting: Waiting {
                spot,
                node,
                child: Child::First,
            },
            e: first,
            depth,
            walked: false,
        },
        // A step makes something of each leaf at once.
        None => unreachable!(),
    }
}

/// Begins the tree under a number.
fn begin<T: Terms, R: Rewrite<T>>(
    terms: &mut T,
    rewrite: &R,
    made: &Table<Made>,
    e: u64,
    depth: u64,
) -> Result<Turn, NoMemory>
    requires known { R.is_known rewrite.now (T.contents terms.old) }
    requires made { AreMade (R.change rewrite.now (T.contents terms.old)) (T.contents terms.old)
        made.now }
    requires e_in { e < length (T.contents terms.old).trees }
    ensures keeps { Extends (T.contents terms.old) (T.contents terms.new) }
    ensures rest { T.rest terms.new ≡ T.rest terms.old }
    ensures goes_on { IfOk result (Begins (R.change rewrite.now (T.contents terms.old))
        (T.contents terms.old) e depth (T.contents terms.new)) }
{
    if let Some(r) = rewrite.step(terms, e, depth)? {
        return Ok(Turn::Up { e: r });
    }
    if let Some(i) = made.find(&Spot { e, depth }) {
        return Ok(Turn::Up {
            e: made.get(i).made,
        });
    }
    Ok(enter(terms, rewrite, e, depth))
}

/// Keeps what was made of a node, where one of its children was walked. Where none was it is made
/// again as fast as it would be found.
#[inline(always)]
fn keep(made: &mut Table<Made>, row: Made, walked: bool) -> Result<(), NoMemory>
    ensures ok { OnOk result ((made.new ≡ made.old ++ row ∷ []) ⊎ (made.new ≡ made.old)) }
    ensures err { OnErr result (made.new ≡ made.old) }
{
    if walked {
        made.push(row)?;
    }
    Ok(())
}

/// Goes on once the child is built that the node waits for.
#[inline(always)]
fn resume<T: Terms>(
    terms: &mut T,
    made: &mut Table<Made>,
    waiting: Waiting,
    e: u64,
    walked: bool,
) -> Result<Turn, NoMemory>
    requires waiting_in { IsWaiting (T.contents terms.old) waiting }
    requires e_in { e < length (T.contents terms.old).trees }
    ensures keeps { Extends (T.contents terms.old) (T.contents terms.new) }
    ensures rest { T.rest terms.new ≡ T.rest terms.old }
    ensures made { (f : Change) → AreMade f (T.contents terms.old) made.old
        → IsOwn f (T.contents terms.old) waiting e → AreMade f (T.contents terms.new) made.new }
    ensures goes_on { IfOk result
        (Resumes (T.contents terms.old) waiting e (T.contents terms.new)) }
{
    let spot = waiting.spot;
    let node = replaced(waiting.node, waiting.child, e);
    match next_child(node, waiting.child) {
        Some((child, next, under_binder)) => {
            let depth = depth_inside(spot.depth, under_binder)?;
            Ok(Turn::Down {
                waiting: Waiting { spot, node, child },
                e: next,
                depth,
                walked,
            })
        }
        None => {
            let r = terms.make(node)?;
            keep(made, Made { spot, made: r }, walked)?;
            Ok(Turn::Up { e: r })
        }
    }
}

/// What the change makes of a tree whose children are to be walked, with the stack of the room.
pub(crate) fn walk<T: Terms, R: Rewrite<T>>(
    terms: &mut T,
    rewrite: &R,
    room: &mut Room,
    e: u64,
    depth: u64,
) -> Result<u64, NoMemory>
    requires known { R.is_known rewrite.now (T.contents terms.old) }
    requires ready { IsReady (R.change rewrite.now (T.contents terms.old))
        (T.contents terms.old) room.old }
    requires e_in { e < length (T.contents terms.old).trees }
    requires descends { Descends (R.change rewrite.now (T.contents terms.old)) depth
        (tree_at (T.contents terms.old) e) }
    ensures keeps { Extends (T.contents terms.old) (T.contents terms.new) }
    ensures rest { T.rest terms.new ≡ T.rest terms.old }
    ensures ok { IfOk result (IsMade (R.change rewrite.now (T.contents terms.old))
        (T.contents terms.old) e depth (T.contents terms.new)) }
    ensures ready { OnOk result (IsReady (R.change rewrite.now (T.contents terms.old))
        (T.contents terms.new) room.new) }
{
    let mut turn = enter(terms, rewrite, e, depth);
    'walk: loop {
        match turn {
            Turn::Down {
                waiting,
                e,
                depth,
                walked,
            } => {
                let begun = begin(terms, rewrite, &room.made, e, depth)?;
                match begun {
                    Turn::Up { e } => turn = resume(terms, &mut room.made, waiting, e, walked)?,
                    Turn::Down { .. } => {
                        room.stack.push(waiting)?;
                        turn = begun;
                    }
                }
            }
            Turn::Up { e } => match room.stack.pop() {
                None => return Ok(e),
                Some(waiting) => turn = resume(terms, &mut room.made, waiting, e, true)?,
            },
        }
    }
}

/// What the change makes of a tree. Where it makes something at once, as it does where the tree's
/// bounds say that nothing changes, no walk begins.
pub fn rewritten<T: Terms, R: Rewrite<T>>(
    alloc: Global,
    terms: &mut T,
    rewrite: &R,
    e: u64,
) -> Result<u64, NoMemory>
    requires known { R.is_known rewrite.now (T.contents terms.old) }
    requires e_in { e < length (T.contents terms.old).trees }
    ensures keeps { Extends (T.contents terms.old) (T.contents terms.new) }
    ensures rest { T.rest terms.new ≡ T.rest terms.old }
    ensures ok { IfOk result (IsMade (R.change rewrite.now (T.contents terms.old))
        (T.contents terms.old) e 0 (T.contents terms.new)) }
{
    let mut course = Course {
        alloc,
        room: None,
        visits: 0,
    };
    let made = made_of(terms, rewrite, &mut course, e, 0, LAYERS);
    let Course { room, .. } = course;
    if let Some(room) = room {
        terms.keep_room(room);
    }
    made
}
