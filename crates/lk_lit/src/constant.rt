//! Constants without levels.

ghost use Rattle.std.specs.Prelude.{◌≡◌, ◌<◌, ◌↔◌, [], length, IsTrue};
ghost use Rattle.lk_tree.specs.Tree.{pi};
ghost use Rattle.lk_rulebook.specs.Names.{named, nat};
ghost use Rattle.lk_questions.specs.Steps.{is_same_tree};
ghost use Rattle.lk_store.specs.Contents.{name_at, list_at, tree_at};
ghost use Rattle.lk_ask.specs.Looks.{MakesTree};
ghost use Rattle.lk_lit.specs.Builtins.{builtin_name};

use crate::builtin::{Builtin, is_builtin, make_builtin};
use lk_store::memory::NoMemory;
use lk_store::node::{ListNode, Node};
use lk_store::terms::Terms;
use std::alloc::Global;

/// Whether a list of levels is empty.
pub(crate) fn is_empty<T: Terms>(terms: &T, levels: u64) -> bool
    requires { levels < length (T.contents terms.now).lists }
    ensures { IsTrue result ↔ (list_at (T.contents terms.now) levels ≡ []) }
{
    match terms.levels(levels) {
        ListNode::Empty => true,
        ListNode::Cons(_, _) => false,
    }
}

/// The constant of this name, without levels.
pub(crate) fn make_named<T: Terms>(terms: &mut T, name: u64) -> Result<u64, NoMemory>
    requires { name < length (T.contents terms.old).names }
    ensures { MakesTree T.contents T.rest terms.old terms.new result
        (λ _. named (name_at (T.contents terms.old) name)) }
{
    let levels = terms.make_levels(ListNode::Empty)?;
    let e = terms.make(Node::Const(name, levels))?;
    Ok(e)
}

/// The constant of a built-in name, without levels.
pub(crate) fn make_constant<T: Terms>(
    alloc: Global,
    terms: &mut T,
    name: Builtin,
) -> Result<u64, NoMemory>
    ensures { MakesTree T.contents T.rest terms.old terms.new result
        (λ _. named (builtin_name name)) }
{
    let number = make_builtin(alloc, terms, name)?;
    make_named(terms, number)
}

/// Whether a term is the constant of this name, without levels.
pub(crate) fn is_named<T: Terms>(terms: &T, e: u64, name: Builtin) -> bool
    requires { e < length (T.contents terms.now).trees }
    ensures { result ≡ is_same_tree (tree_at (T.contents terms.now) e)
        (named (builtin_name name)) }
{
    match terms.view(e) {
        Node::Const(constant, levels) => {
            is_builtin(terms, constant, name) && is_empty(terms, levels)
        }
        _ => false,
    }
}

/// Whether a term is `Nat -> Nat`.
pub(crate) fn is_nat_to_nat<T: Terms>(terms: &T, e: u64) -> bool
    requires { e < length (T.contents terms.now).trees }
    ensures { result ≡ is_same_tree (tree_at (T.contents terms.now) e)
        (pi (named nat) (named nat)) }
{
    match terms.view(e) {
        Node::Pi(domain, body) => {
            is_named(terms, domain, Builtin::Nat) && is_named(terms, body, Builtin::Nat)
        }
        _ => false,
    }
}
