//! Whether a field is positive: a walk along the Pis of its type.

ghost use Rattle.std.specs.Prelude.{◌≡◌, ◌<◌, ℕ, true, [], length, map, All, IfOk, IfSome};
ghost use Rattle.lk_tree.specs.Mentions.{mentions};
ghost use Rattle.lk_tree.specs.Spine.{head, args};
ghost use Rattle.lk_tree.specs.Tree.{pi};
ghost use Rattle.lk_store.specs.Contents.{Contents, tree_at, Extends};
ghost use Rattle.lk_inductive.specs.BlockSteps.{as_member, walk};
ghost use Rattle.lk_mentions.specs.Names.{names_at};
ghost use Rattle.lk_declaration.specs.Courses.{ComesTo, Settles};
ghost use Rattle.lk_block.specs.Frames.{frame_at, IsFrameIn};
ghost use Rattle.lk_block.specs.Members.{member_at, IsMemberIn};
ghost use Rattle.lk_block.specs.Shapes.{kind_at, AreTreesIn, IsKindIn};
ghost use Rattle.lk_block.specs.Positive.{kind_with, member_step, under_step, inner_step, form_step, walk_step, step_at, IsStepIn, GoesUnderMention};

use crate::frame::Frame;
use crate::members::{Member, as_member};
use crate::shape::{FieldKind, Recursion};
use crate::telescope::open_local;
use lk_ask::asks::Asks;
use lk_ask::stop::Stop;
use lk_declaration::asking::form_of;
use lk_lists::numbers::keep;
use lk_mentions::names::Names;
use lk_mentions::walk::mentions;
use lk_store::memory::NoMemory;
use lk_store::node::Node;
use lk_store::terms::Terms;
use lk_tree::rule::Rule;
use std::alloc::Global;

/// What the walk comes to at a weak head form: its end, with the type of the block that the form is, if it mentions one; or
/// the Local for the domain of a Pi, and the Pi's body, opened with it.
#[derive(Drop)]
enum Step {
    Ends(Option<Member>),
    Under(u64, u64),
}

/// Whether a form mentions a type of the block. One that is known to mention one is not walked, so that a type of many arrows
/// is walked once.
fn form_mentions<T: Terms>(
    alloc: Global,
    terms: &T,
    names: &Names,
    known: Option<u64>,
    form: u64,
) -> Result<bool, NoMemory>
    requires names_in { All (λ n. n < length (T.contents terms.now).names) names.now }
    requires form_in { form < length (T.contents terms.now).trees }
    requires known { IfSome known (λ k. mentions (names_at (T.contents terms.now) names.now)
        (tree_at (T.contents terms.now) k) ≡ true) }
    ensures { IfOk result (λ r. r ≡ mentions (names_at (T.contents terms.now) names.now)
        (tree_at (T.contents terms.now) form)) }
{
    match known {
        Some(found) => {
            if found == form {
                return Ok(true);
            }
            mentions(alloc, terms, names, form)
        }
        None => mentions(alloc, terms, names, form),
    }
}

/// The step at a Pi that mentions a type of the block; its domain must mention none.
fn step_under<A: Asks>(
    alloc: Global,
    asks: &mut A,
    frame: &Frame,
    number: u64,
    domain: u64,
    body: u64,
) -> Result<Step, Stop>
    requires frame_in { IsFrameIn (A.contents asks.old) frame.now }
    requires domain_in { domain < length (A.contents asks.old).trees }
    requires body_in { body < length (A.contents asks.old).trees }
    requires mentioning { mentions (names_at (A.contents asks.old) frame.now.names)
        (pi (tree_at (A.contents asks.old) domain) (tree_at (A.contents asks.old) body)) ≡ true }
    ensures keeps { Extends (A.contents asks.old) (A.contents asks.new) }
    ensures stays { A.standing asks.new ≡ A.standing asks.old }
    ensures left { A.left asks.new ≡ A.left asks.old }
    ensures known { IfOk result (IsStepIn (A.contents asks.new)) }
    ensures under { IfOk result (GoesUnderMention (names_at (A.contents asks.new) frame.now.names)
        (A.contents asks.new)) }
    ensures step { Settles (under_step (frame_at (A.contents asks.old) frame.now) number
        (tree_at (A.contents asks.old) domain) (tree_at (A.contents asks.old) body))
        (step_at (A.contents asks.new)) result }
{
    match mentions(alloc, asks, &frame.names, domain) {
        Ok(true) => return Err(Stop::No(Rule::NotPositive)),
        Ok(false) => {}
        Err(_) => return Err(Stop::NoMemory),
    }
    let opened = open_local(alloc, asks, number, domain, body)?;
    Ok(Step::Under(opened.0, opened.1))
}

/// The step at a form that is no Pi, which must be a type of the block, applied.
fn step_ending<A: Asks>(alloc: Global, asks: &mut A, frame: &Frame, form: u64) -> Result<Step, Stop>
    requires frame_in { IsFrameIn (A.contents asks.old) frame.now }
    requires form_in { form < length (A.contents asks.old).trees }
    ensures keeps { Extends (A.contents asks.old) (A.contents asks.new) }
    ensures stays { A.standing asks.new ≡ A.standing asks.old }
    ensures left { A.left asks.new ≡ A.left asks.old }
    ensures known { IfOk result (IsStepIn (A.contents asks.new)) }
    ensures under { IfOk result (GoesUnderMention (names_at (A.contents asks.new) frame.now.names)
        (A.contents asks.new)) }
    ensures step { Settles (member_step (as_member (frame_at (A.contents asks.old) frame.now)
        (head (tree_at (A.contents asks.old) form)) (args (tree_at (A.contents asks.old) form))))
        (step_at (A.contents asks.new)) result }
{
    match as_member(alloc, asks, frame, form) {
        Ok(Some(member)) => Ok(Step::Ends(Some(member))),
        Ok(None) => Err(Stop::No(Rule::NotPositive)),
        Err(_) => Err(Stop::NoMemory),
    }
}

/// The step at a form that mentions a type of the block.
fn inner_step<A: Asks>(
    alloc: Global,
    asks: &mut A,
    frame: &Frame,
    number: u64,
    form: u64,
) -> Result<Step, Stop>
    requires frame_in { IsFrameIn (A.contents asks.old) frame.now }
    requires form_in { form < length (A.contents asks.old).trees }
    requires mentioning { mentions (names_at (A.contents asks.old) frame.now.names)
        (tree_at (A.contents asks.old) form) ≡ true }
    ensures keeps { Extends (A.contents asks.old) (A.contents asks.new) }
    ensures stays { A.standing asks.new ≡ A.standing asks.old }
    ensures left { A.left asks.new ≡ A.left asks.old }
    ensures known { IfOk result (IsStepIn (A.contents asks.new)) }
    ensures under { IfOk result (GoesUnderMention (names_at (A.contents asks.new) frame.now.names)
        (A.contents asks.new)) }
    ensures step { Settles (inner_step (frame_at (A.contents asks.old) frame.now) number
        (tree_at (A.contents asks.old) form)) (step_at (A.contents asks.new)) result }
{
    match asks.view(form) {
        Node::Pi(domain, body) => step_under(alloc, asks, frame, number, domain, body),
        _ => step_ending(alloc, asks, frame, form),
    }
}

/// The step at a weak head form.
fn form_step<A: Asks>(
    alloc: Global,
    asks: &mut A,
    frame: &Frame,
    number: u64,
    known: Option<u64>,
    form: u64,
) -> Result<Step, Stop>
    requires frame_in { IsFrameIn (A.contents asks.old) frame.now }
    requires form_in { form < length (A.contents asks.old).trees }
    requires known { IfSome known (λ k. mentions (names_at (A.contents asks.old) frame.now.names)
        (tree_at (A.contents asks.old) k) ≡ true) }
    requires known_in { IfSome known (λ k. k < length (A.contents asks.old).trees) }
    ensures keeps { Extends (A.contents asks.old) (A.contents asks.new) }
    ensures stays { A.standing asks.new ≡ A.standing asks.old }
    ensures left { A.left asks.new ≡ A.left asks.old }
    ensures known { IfOk result (IsStepIn (A.contents asks.new)) }
    ensures under { IfOk result (GoesUnderMention (names_at (A.contents asks.new) frame.now.names)
        (A.contents asks.new)) }
    ensures step { Settles (form_step (frame_at (A.contents asks.old) frame.now) number
        (tree_at (A.contents asks.old) form)) (step_at (A.contents asks.new)) result }
{
    if form_mentions(alloc, asks, &frame.names, known, form)? {
        inner_step(alloc, asks, frame, number, form)
    } else {
        Ok(Step::Ends(None))
    }
}

/// The step at a term, by its weak head form. It costs something.
fn walk_step<A: Asks>(
    alloc: Global,
    asks: &mut A,
    frame: &Frame,
    number: u64,
    known: Option<u64>,
    e: u64,
) -> Result<Step, Stop>
    requires frame_in { IsFrameIn (A.contents asks.old) frame.now }
    requires e_in { e < length (A.contents asks.old).trees }
    requires known { IfSome known (λ k. mentions (names_at (A.contents asks.old) frame.now.names)
        (tree_at (A.contents asks.old) k) ≡ true) }
    requires known_in { IfSome known (λ k. k < length (A.contents asks.old).trees) }
    ensures keeps { Extends (A.contents asks.old) (A.contents asks.new) }
    ensures stays { A.standing asks.new ≡ A.standing asks.old }
    ensures paid { IfOk result (λ s. A.left asks.new < A.left asks.old) }
    ensures known { IfOk result (IsStepIn (A.contents asks.new)) }
    ensures under { IfOk result (GoesUnderMention (names_at (A.contents asks.new) frame.now.names)
        (A.contents asks.new)) }
    ensures outcome { ComesTo (A.standing asks.old)
        (walk_step (frame_at (A.contents asks.old) frame.now) number
        (tree_at (A.contents asks.old) e)) (A.left asks.old) (step_at (A.contents asks.new))
        (A.left asks.new) result }
{
    let form = form_of(asks, e)?;
    form_step(alloc, asks, frame, number, known, form)
}

/// The walk of a term with Locals from a number on, which are added: the type of the block that it comes to, applied; none
/// where it mentions none.
fn walk_pis<A: Asks>(
    alloc: Global,
    asks: &mut A,
    frame: &Frame,
    first: u64,
    e: u64,
    arguments: &mut Vec<u64>,
) -> Result<Option<Member>, Stop>
    requires frame_in { IsFrameIn (A.contents asks.old) frame.now }
    requires e_in { e < length (A.contents asks.old).trees }
    requires none_yet { arguments.old.items ≡ [] }
    ensures keeps { Extends (A.contents asks.old) (A.contents asks.new) }
    ensures stays { A.standing asks.new ≡ A.standing asks.old }
    ensures arguments_known { IfOk result
        (λ o. AreTreesIn (A.contents asks.new) arguments.new.items) }
    ensures known { IfOk result (λ o. IfSome o (IsMemberIn (A.contents asks.new))) }
    ensures outcome { (fuel : ℕ) → A.left asks.old < fuel
        → ComesTo (A.standing asks.old)
        (walk fuel (frame_at (A.contents asks.old) frame.now) first
        (tree_at (A.contents asks.old) e)) (A.left asks.old)
        (λ o. kind_with (map (tree_at (A.contents asks.new)) arguments.new.items)
        (member_at (A.contents asks.new) o)) (A.left asks.new) result }
{
    let mut number = first;
    let mut rest = e;
    let mut known = None;
    'walk: loop {
        let step = walk_step(alloc, asks, frame, number, known, rest)?;
        match step {
            Step::Ends(found) => return Ok(found),
            Step::Under(local, inner) => {
                number = keep(arguments, local, number)?;
                rest = inner;
                known = Some(inner);
            }
        }
    }
}

/// The kind of a field whose walk comes to this type of the block, or to none, under these Locals.
fn kind_of(arguments: Vec<u64>, found: Option<Member>) -> FieldKind
    ensures known { (c : Contents) → AreTreesIn c arguments.items → IfSome found (IsMemberIn c)
        → IsKindIn c result }
    ensures kind { (c : Contents) → kind_at c result
        ≡ kind_with (map (tree_at c) arguments.items) (member_at c found) }
{
    match found {
        None => FieldKind::Plain,
        Some(member) => FieldKind::Recursive(Recursion {
            arguments,
            name: member.name,
            indices: member.indices,
        }),
    }
}

/// The kind of a field by its type: plain, or `(ys) -> T P is` where neither the types of the ys nor the indices mention a
/// type of the block; refused where it is neither. Locals get numbers from this one on.
pub fn walk<A: Asks>(
    alloc: Global,
    asks: &mut A,
    frame: &Frame,
    first: u64,
    e: u64,
) -> Result<FieldKind, Stop>
    requires frame_in { IsFrameIn (A.contents asks.old) frame.now }
    requires e_in { e < length (A.contents asks.old).trees }
    ensures keeps { Extends (A.contents asks.old) (A.contents asks.new) }
    ensures stays { A.standing asks.new ≡ A.standing asks.old }
    ensures known { IfOk result (IsKindIn (A.contents asks.new)) }
    ensures outcome { (fuel : ℕ) → A.left asks.old < fuel
        → ComesTo (A.standing asks.old)
        (walk fuel (frame_at (A.contents asks.old) frame.now) first
        (tree_at (A.contents asks.old) e)) (A.left asks.old) (kind_at (A.contents asks.new))
        (A.left asks.new) result }
{
    let mut arguments: Vec<u64> = Vec::new(alloc);
    let found = walk_pis(alloc, asks, frame, first, e, &mut arguments)?;
    Ok(kind_of(arguments, found))
}
