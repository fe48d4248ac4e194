//! The two trees of the step of an eliminator.

ghost use Rattle.std.specs.Prelude.{◌≡◌, ◌<◌, ◌≤◌, length, IfOk};
ghost use Rattle.lk_tree.specs.Spine.{args as args_of};
ghost use Rattle.lk_store.specs.Contents.{tree_at, Extends};
ghost use Rattle.lk_derive_quot.specs.Eliminators.{reach};
ghost use Rattle.lk_derive_quot.specs.Quotients.{IsApplied, IsLast, IsFront, AreEndsIn};

use crate::eliminators::{Eliminator, reach_of};
use lk_spine::{apply, args, head};
use lk_store::memory::NoMemory;
use lk_store::node::Node;
use lk_store::terms::Terms;
use std::alloc::Global;

/// An eliminator with its arguments up to the major premise, which function it has, and how many arguments are behind.
#[derive(Clone, Copy)]
pub struct Front {
    pub front: u64,
    pub function: u64,
    pub behind: usize,
}

/// An eliminator with its arguments up to the major premise, its function on an element, and how many arguments are
/// behind.
#[derive(Clone, Copy)]
pub struct Ends {
    pub front: u64,
    pub short: u64,
    pub behind: usize,
}

/// The eliminator of an application, which has a major premise there.
fn front_of<T: Terms>(
    alloc: Global,
    terms: &mut T,
    eliminator: Eliminator,
    e: u64,
) -> Result<Front, NoMemory>
    requires e_in { e < length (T.contents terms.old).trees }
    requires enough { reach eliminator ≤ length (args_of (tree_at (T.contents terms.old) e)) }
    ensures keeps { Extends (T.contents terms.old) (T.contents terms.new) }
    ensures rest { T.rest terms.new ≡ T.rest terms.old }
    ensures is { IfOk result (IsFront (T.contents terms.new) (reach eliminator)
        (tree_at (T.contents terms.old) e)) }
{
    let front = head(terms, e);
    let arguments = args(alloc, terms, e)?;
    let function = arguments[3];
    let (first, others) = arguments.split_at(reach_of(eliminator));
    let behind = others.len();
    let front = apply(terms, front, first)?;
    Ok(Front {
        front,
        function,
        behind,
    })
}

/// What a tree that is an application is applied to.
fn last_argument<T: Terms>(terms: &T, e: u64) -> u64
    requires e_in { e < length (T.contents terms.now).trees }
    requires applied { IsApplied (tree_at (T.contents terms.now) e) }
    ensures known { result < length (T.contents terms.now).trees }
    ensures is { let t = tree_at (T.contents terms.now) in IsLast (t e) (t result) }
{
    match terms.view(e) {
        Node::App(_, a) => a,
        _ => unreachable!(),
    }
}

/// The two trees of the step of an eliminator, whose major premise has the weak head form of this number, an element.
pub(crate) fn ends_of<T: Terms>(
    alloc: Global,
    terms: &mut T,
    eliminator: Eliminator,
    e: u64,
    form: u64,
) -> Result<Ends, NoMemory>
    requires e_in { e < length (T.contents terms.old).trees }
    requires form_in { form < length (T.contents terms.old).trees }
    requires enough { reach eliminator ≤ length (args_of (tree_at (T.contents terms.old) e)) }
    requires element { IsApplied (tree_at (T.contents terms.old) form) }
    ensures keeps { Extends (T.contents terms.old) (T.contents terms.new) }
    ensures rest { T.rest terms.new ≡ T.rest terms.old }
    ensures are { let t = tree_at (T.contents terms.old) in IfOk result (AreEndsIn
        (T.contents terms.new) (reach eliminator) (t e) (t form)) }
{
    let element = last_argument(terms, form);
    let front = front_of(alloc, terms, eliminator, e)?;
    let short = terms.make(Node::App(front.function, element))?;
    Ok(Ends {
        front: front.front,
        short,
        behind: front.behind,
    })
}
