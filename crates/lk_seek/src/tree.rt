//! A term is opened.

ghost use Rattle.std.specs.Prelude.{◌≡◌, [], ◌∷◌, ◌++◌, map, OnOk};
ghost use Rattle.lk_seek.specs.Trees.{is_empty, parts_back};
ghost use Rattle.lk_seek.specs.declared.visit.Visit.TheVariants as visit;

use crate::visit::{Visit, push};
use lk_store::memory::NoMemory;
use lk_store::node::Node;

/// Puts the parts of a node on the stack, the first of them on top. The type of a Local is none of
/// them.
fn push_parts(stack: &mut Vec<Visit<u64>>, node: Node) -> Result<(), NoMemory>
    ensures { OnOk result (stack.new.items
        ≡ stack.old.items ++ map visit.Enter (parts_back node)) }
{
    match node {
        Node::Var(_) | Node::Sort(_) | Node::Const(_, _) => {}
        Node::Lit(_) | Node::Wide | Node::Str(_) | Node::Local(_, _) => {}
        Node::Proj(_, _, e) => push(stack, Visit::Enter(e))?,
        Node::App(a, b) | Node::Lam(a, b) | Node::Pi(a, b) => {
            push(stack, Visit::Enter(b))?;
            push(stack, Visit::Enter(a))?;
        }
        Node::Let(a, b, c) => {
            push(stack, Visit::Enter(c))?;
            push(stack, Visit::Enter(b))?;
            push(stack, Visit::Enter(a))?;
        }
    }
    Ok(())
}

/// Puts a term on the stack again, and the parts of its node above it.
pub fn open(stack: &mut Vec<Visit<u64>>, e: u64, node: Node) -> Result<(), NoMemory>
    ensures { OnOk result (stack.new.items
        ≡ stack.old.items ++ visit.Leave e ∷ map visit.Enter (parts_back node)) }
{
    push(stack, Visit::Leave(e))?;
    push_parts(stack, node)?;
    Ok(())
}

/// Whether a node has no parts that are terms.
pub fn is_leaf(node: Node) -> bool
    ensures { result ≡ is_empty (parts_back node) }
{
    matches!(
        node,
        Node::Var(_)
            | Node::Sort(_)
            | Node::Const(_, _)
            | Node::Lit(_)
            | Node::Wide
            | Node::Str(_)
            | Node::Local(_, _)
    )
}
