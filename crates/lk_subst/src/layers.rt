//! The first layers of a walk, by calls, which are cheaper than a stack of its own. How many layers are
//! walked so is fixed, whatever the tree. A walk of few nodes takes no room, and keeps nothing.

ghost use Rattle.std.specs.Prelude.{◌≡◌, ◌<◌, length, IfOk, IfSome, IfNone, OnOk};
ghost use Rattle.lk_store.specs.Contents.{Contents, tree_at, tree_of, Extends, IsIn, IsTree};
ghost use Rattle.lk_subst.specs.Walks.{Change, Descends, IsMade};
ghost use Rattle.lk_subst.specs.Courses.{AreKept, IsKept, IsNodeMade, AreBothMade};

use crate::walk::{Rewrite, depth_inside, walk};
use lk_store::memory::NoMemory;
use lk_store::node::Node;
use lk_store::room::{Made, Room, Spot};
use lk_store::terms::Terms;
use std::alloc::Global;

/// So many layers are walked by calls, and what is below them with a stack. A telescope of some
/// hundred binders is within them, and so many calls take a hundred kilobytes.
pub(crate) const LAYERS: u32 = 512;

/// So many nodes are walked before a walk keeps what it makes. Where one of these is met again, it is
/// walked again; every later one with a child that is walked is walked once.
const FEW: u64 = 24;

/// How far a walk has come.
#[derive(Drop)]
pub struct Course {
    pub alloc: Global,
    /// Where what was made is kept, once something is.
    pub room: Option<Room>,
    pub visits: u64,
}

/// What was kept of what was made at a spot.
#[inline(always)]
fn kept_at(room: &Option<Room>, spot: Spot) -> Option<u64>
    ensures { (f : Change) (c : Contents) → AreKept f c room.now
        → IfSome result (IsKept f c spot) }
{
    match room {
        Some(room) => match room.made.find(&spot) {
            Some(i) => Some(room.made.get(i).made),
            None => None,
        },
        None => None,
    }
}

/// Takes room, where there is none yet.
#[inline(always)]
fn take_room<T: Terms>(terms: &mut T, course: &mut Course)
    ensures contents { T.contents terms.new ≡ T.contents terms.old }
    ensures rest { T.rest terms.new ≡ T.rest terms.old }
    ensures kept { (f : Change) (c : Contents) → AreKept f c course.old.room
        → AreKept f c course.new.room }
    ensures taken { IfNone course.new.room ⊥ }
{
    if course.room.is_none() {
        course.room = Some(terms.lend_room(course.alloc));
    }
}

/// Keeps what was made.
#[inline(never)]
fn keep<T: Terms>(terms: &mut T, course: &mut Course, row: Made) -> Result<(), NoMemory>
    ensures contents { T.contents terms.new ≡ T.contents terms.old }
    ensures rest { T.rest terms.new ≡ T.rest terms.old }
    ensures kept { (f : Change) → AreKept f (T.contents terms.old) course.old.room
        → row.spot.e < length (T.contents terms.old).trees
        → IsKept f (T.contents terms.old) row.spot row.made
        → OnOk result (AreKept f (T.contents terms.old) course.new.room) }
{
    take_room(terms, course);
    if let Some(room) = &mut course.room {
        room.made.push(row)?;
    }
    Ok(())
}

/// Walks a tree with a stack.
#[inline(never)]
fn walk_deep<T: Terms, R: Rewrite<T>>(
    terms: &mut T,
    rewrite: &R,
    course: &mut Course,
    e: u64,
    depth: u64,
) -> Result<u64, NoMemory>
    requires known { R.is_known rewrite.now (T.contents terms.old) }
    requires kept { AreKept (R.change rewrite.now (T.contents terms.old))
        (T.contents terms.old) course.old.room }
    requires e_in { e < length (T.contents terms.old).trees }
    requires descends { Descends (R.change rewrite.now (T.contents terms.old)) depth
        (tree_at (T.contents terms.old) e) }
    ensures keeps { Extends (T.contents terms.old) (T.contents terms.new) }
    ensures rest { T.rest terms.new ≡ T.rest terms.old }
    ensures kept { OnOk result (AreKept (R.change rewrite.now (T.contents terms.old))
        (T.contents terms.new) course.new.room) }
    ensures ok { IfOk result (IsMade (R.change rewrite.now (T.contents terms.old))
        (T.contents terms.old) e depth (T.contents terms.new)) }
{
    take_room(terms, course);
    match &mut course.room {
        Some(room) => walk(terms, rewrite, room, e, depth),
        None => unreachable!(),
    }
}

/// What is made of two trees.
#[cycle(layers)]
#[inline(always)]
fn both<T: Terms, R: Rewrite<T>>(
    terms: &mut T,
    rewrite: &R,
    course: &mut Course,
    a: u64,
    b: u64,
    depth: u64,
    inner: u64,
    layers: u32,
) -> Result<(u64, u64), NoMemory>
    requires known { R.is_known rewrite.now (T.contents terms.old) }
    requires kept { AreKept (R.change rewrite.now (T.contents terms.old))
        (T.contents terms.old) course.old.room }
    requires a_in { a < length (T.contents terms.old).trees }
    requires b_in { b < length (T.contents terms.old).trees }
    ensures keeps { Extends (T.contents terms.old) (T.contents terms.new) }
    ensures rest { T.rest terms.new ≡ T.rest terms.old }
    ensures kept { OnOk result (AreKept (R.change rewrite.now (T.contents terms.old))
        (T.contents terms.new) course.new.room) }
    ensures ok { IfOk result (AreBothMade (R.change rewrite.now (T.contents terms.old))
        (T.contents terms.old) a depth b inner (T.contents terms.new)) }
{
    let x = made_of(terms, rewrite, course, a, depth, layers)?;
    let y = made_of(terms, rewrite, course, b, inner, layers)?;
    Ok((x, y))
}

/// The node with what is made of its children.
#[cycle(layers)]
#[inline(always)]
fn parts<T: Terms, R: Rewrite<T>>(
    terms: &mut T,
    rewrite: &R,
    course: &mut Course,
    node: Node,
    depth: u64,
    layers: u32,
) -> Result<Node, NoMemory>
    requires known { R.is_known rewrite.now (T.contents terms.old) }
    requires kept { AreKept (R.change rewrite.now (T.contents terms.old))
        (T.contents terms.old) course.old.room }
    requires node_in { IsIn (T.contents terms.old) node }
    requires descends { Descends (R.change rewrite.now (T.contents terms.old)) depth
        (tree_of (T.contents terms.old) node) }
    ensures keeps { Extends (T.contents terms.old) (T.contents terms.new) }
    ensures rest { T.rest terms.new ≡ T.rest terms.old }
    ensures kept { OnOk result (AreKept (R.change rewrite.now (T.contents terms.old))
        (T.contents terms.new) course.new.room) }
    ensures ok { IfOk result (IsNodeMade (R.change rewrite.now (T.contents terms.old))
        (T.contents terms.old) node depth (T.contents terms.new)) }
{
    match node {
        Node::App(f, a) => {
            let (x, y) = both(terms, rewrite, course, f, a, depth, depth, layers)?;
            Ok(Node::App(x, y))
        }
        Node::Lam(t, b) => {
            let inner = depth_inside(depth, true)?;
            let (x, y) = both(terms, rewrite, course, t, b, depth, inner, layers)?;
            Ok(Node::Lam(x, y))
        }
        Node::Pi(t, b) => {
            let inner = depth_inside(depth, true)?;
            let (x, y) = both(terms, rewrite, course, t, b, depth, inner, layers)?;
            Ok(Node::Pi(x, y))
        }
        Node::Let(t, v, b) => {
            let inner = depth_inside(depth, true)?;
            let (x, y) = both(terms, rewrite, course, t, v, depth, depth, layers)?;
            let z = made_of(terms, rewrite, course, b, inner, layers)?;
            Ok(Node::Let(x, y, z))
        }
        Node::Proj(n, i, s) => {
            let x = made_of(terms, rewrite, course, s, depth, layers)?;
            Ok(Node::Proj(n, i, x))
        }
        Node::Local(k, t) => {
            let x = made_of(terms, rewrite, course, t, depth, layers)?;
            Ok(Node::Local(k, x))
        }
        // A step makes something of each leaf at once.
        _ => unreachable!(),
    }
}

/// What is made of a tree whose children are to be walked.
#[cycle(layers)]
fn walked<T: Terms, R: Rewrite<T>>(
    terms: &mut T,
    rewrite: &R,
    course: &mut Course,
    e: u64,
    depth: u64,
    layers: u32,
) -> Result<u64, NoMemory>
    requires known { R.is_known rewrite.now (T.contents terms.old) }
    requires kept { AreKept (R.change rewrite.now (T.contents terms.old))
        (T.contents terms.old) course.old.room }
    requires e_in { e < length (T.contents terms.old).trees }
    requires descends { Descends (R.change rewrite.now (T.contents terms.old)) depth
        (tree_at (T.contents terms.old) e) }
    ensures keeps { Extends (T.contents terms.old) (T.contents terms.new) }
    ensures rest { T.rest terms.new ≡ T.rest terms.old }
    ensures kept { OnOk result (AreKept (R.change rewrite.now (T.contents terms.old))
        (T.contents terms.new) course.new.room) }
    ensures ok { IfOk result (IsMade (R.change rewrite.now (T.contents terms.old))
        (T.contents terms.old) e depth (T.contents terms.new)) }
{
    let spot = Spot { e, depth };
    if let Some(r) = kept_at(&course.room, spot) {
        return Ok(r);
    }
    if layers == 0 {
        return walk_deep(terms, rewrite, course, e, depth);
    }
    let visits = course.visits.saturating_add(1);
    course.visits = visits;
    let node = parts(terms, rewrite, course, terms.view(e), depth, layers - 1)?;
    let r = terms.make(node)?;
    if visits > FEW && course.visits > visits {
        keep(terms, course, Made { spot, made: r })?;
    }
    Ok(r)
}

/// What is made of a tree under some binders.
#[cycle(layers)]
pub(crate) fn made_of<T: Terms, R: Rewrite<T>>(
    terms: &mut T,
    rewrite: &R,
    course: &mut Course,
    e: u64,
    depth: u64,
    layers: u32,
) -> Result<u64, NoMemory>
    requires known { R.is_known rewrite.now (T.contents terms.old) }
    requires kept { AreKept (R.change rewrite.now (T.contents terms.old))
        (T.contents terms.old) course.old.room }
    requires e_in { e < length (T.contents terms.old).trees }
    ensures keeps { Extends (T.contents terms.old) (T.contents terms.new) }
    ensures rest { T.rest terms.new ≡ T.rest terms.old }
    ensures kept { OnOk result (AreKept (R.change rewrite.now (T.contents terms.old))
        (T.contents terms.new) course.new.room) }
    ensures ok { IfOk result (IsMade (R.change rewrite.now (T.contents terms.old))
        (T.contents terms.old) e depth (T.contents terms.new)) }
{
    if let Some(r) = rewrite.step(terms, e, depth)? {
        return Ok(r);
    }
    walked(terms, rewrite, course, e, depth, layers)
}
