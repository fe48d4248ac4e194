//! What waits on the stack of a walk.

ghost use Rattle.std.specs.Prelude.{◌≡◌, ◌<◌, ◌++◌, map, length, OnOk};
ghost use Rattle.lk_store.specs.Store.{contents_of};
ghost use Rattle.lk_seek.specs.Trees.{parts_back};
ghost use Rattle.lk_axioms.specs.declared.visit.Visit.TheVariants as visit;
ghost use Rattle.lk_axioms.specs.Walks.{IsOpened};

use lk_store::base_store::BaseStore;
use lk_store::memory::NoMemory;
use lk_store::node::Node;
use lk_store::terms::Terms;

/// A tree that the walk is to enter, or one that it leaves once its parts are done.
#[derive(Clone, Copy)]
pub(crate) enum Visit {
    Enter(u64),
    Leave(u64, Node),
}

/// Puts the parts of a node on the stack, the first of them on top. The type of a Local is none of
/// them.
fn push_parts(stack: &mut Vec<Visit>, node: Node) -> Result<(), NoMemory>
    ensures { OnOk result (stack.new.items
        ≡ stack.old.items ++ map visit.Enter (parts_back node)) }
{
    match node {
        Node::Var(_) | Node::Sort(_) | Node::Const(_, _) => {}
        Node::Lit(_) | Node::Wide | Node::Str(_) | Node::Local(_, _) => {}
        Node::Proj(_, _, e) => stack.push(Visit::Enter(e))?,
        Node::App(a, b) | Node::Lam(a, b) | Node::Pi(a, b) => {
            stack.push(Visit::Enter(b))?;
            stack.push(Visit::Enter(a))?;
        }
        Node::Let(a, b, c) => {
            stack.push(Visit::Enter(c))?;
            stack.push(Visit::Enter(b))?;
            stack.push(Visit::Enter(a))?;
        }
    }
    Ok(())
}

/// Puts a tree on the stack again, and its parts above it.
pub(crate) fn open(base: &BaseStore, stack: &mut Vec<Visit>, e: u64) -> Result<(), NoMemory>
    requires { e < length (contents_of base.now).trees }
    ensures { OnOk result (IsOpened (contents_of base.now) e stack.old.items stack.new.items) }
{
    let node = base.view(e);
    stack.push(Visit::Leave(e, node))?;
    push_parts(stack, node)?;
    Ok(())
}
