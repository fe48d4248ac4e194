//! A node whose parts are known by other numbers.

ghost use Rattle.std.specs.Prelude.{◌≡◌};
ghost use Rattle.lk_spell.specs.Opened.{name_parts, level_parts, list_parts, term_parts};
ghost use Rattle.lk_spell.specs.Moved.{AreDone, moved_name, moved_level, moved_list, moved_term, moved};
ghost use Rattle.lk_spell.specs.Standing.{own_parts};

use crate::numbers::Numbers;
use crate::part::Part;
use crate::spelled::OwnNode;
use lk_store::node::{LevelNode, ListNode, NameNode, Node};

/// The node of a name, over the other numbers.
pub(crate) fn moved_name(numbers: &Numbers, node: NameNode) -> NameNode
    requires { AreDone numbers.now (name_parts node) }
    ensures { result ≡ moved_name numbers.now node }
{
    match node {
        NameNode::Anonymous => NameNode::Anonymous,
        NameNode::Text(n, s) => {
            NameNode::Text(numbers.get(Part::Name(n)), numbers.get(Part::Text(s)))
        }
        NameNode::Number(n, i) => NameNode::Number(numbers.get(Part::Name(n)), i),
    }
}

/// The node of a level, over the other numbers.
pub(crate) fn moved_level(numbers: &Numbers, node: LevelNode) -> LevelNode
    requires { AreDone numbers.now (level_parts node) }
    ensures { result ≡ moved_level numbers.now node }
{
    match node {
        LevelNode::Zero => LevelNode::Zero,
        LevelNode::Succ(l) => LevelNode::Succ(numbers.get(Part::Level(l))),
        LevelNode::Max(l, m) => {
            LevelNode::Max(numbers.get(Part::Level(l)), numbers.get(Part::Level(m)))
        }
        LevelNode::IMax(l, m) => {
            LevelNode::IMax(numbers.get(Part::Level(l)), numbers.get(Part::Level(m)))
        }
        LevelNode::Param(n) => LevelNode::Param(numbers.get(Part::Name(n))),
    }
}

/// The node of a list of levels, over the other numbers.
pub(crate) fn moved_list(numbers: &Numbers, node: ListNode) -> ListNode
    requires { AreDone numbers.now (list_parts node) }
    ensures { result ≡ moved_list numbers.now node }
{
    match node {
        ListNode::Empty => ListNode::Empty,
        ListNode::Cons(l, ls) => {
            ListNode::Cons(numbers.get(Part::Level(l)), numbers.get(Part::List(ls)))
        }
    }
}

/// The node of a term, over the other numbers.
pub(crate) fn moved_term(numbers: &Numbers, node: Node) -> Node
    requires { AreDone numbers.now (term_parts node) }
    ensures { result ≡ moved_term numbers.now node }
{
    match node {
        Node::Var(i) => Node::Var(i),
        Node::Sort(l) => Node::Sort(numbers.get(Part::Level(l))),
        Node::Const(n, ls) => Node::Const(numbers.get(Part::Name(n)), numbers.get(Part::List(ls))),
        Node::App(f, a) => Node::App(numbers.get(Part::Term(f)), numbers.get(Part::Term(a))),
        Node::Lam(t, b) => Node::Lam(numbers.get(Part::Term(t)), numbers.get(Part::Term(b))),
        Node::Pi(t, b) => Node::Pi(numbers.get(Part::Term(t)), numbers.get(Part::Term(b))),
        Node::Let(t, v, b) => Node::Let(
            numbers.get(Part::Term(t)),
            numbers.get(Part::Term(v)),
            numbers.get(Part::Term(b)),
        ),
        Node::Proj(n, i, s) => {
            Node::Proj(numbers.get(Part::Name(n)), i, numbers.get(Part::Term(s)))
        }
        Node::Lit(n) => Node::Lit(n),
        Node::Wide => Node::Wide,
        Node::Str(s) => Node::Str(numbers.get(Part::Text(s))),
        Node::Local(k, t) => Node::Local(k, numbers.get(Part::Term(t))),
    }
}

/// An own node, over the other numbers.
pub(crate) fn moved(numbers: &Numbers, node: OwnNode) -> OwnNode
    requires { AreDone numbers.now (own_parts node) }
    ensures { result ≡ moved numbers.now node }
{
    match node {
        OwnNode::Name(x) => OwnNode::Name(moved_name(numbers, x)),
        OwnNode::Text(s) => OwnNode::Text(s),
        OwnNode::Level(x) => OwnNode::Level(moved_level(numbers, x)),
        OwnNode::List(x) => OwnNode::List(moved_list(numbers, x)),
        OwnNode::Term(x) => OwnNode::Term(moved_term(numbers, x)),
    }
}
