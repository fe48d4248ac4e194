//! A part is opened: its node is read, and its own parts come onto the stack of the walk.

ghost use Rattle.std.specs.Prelude.{◌≡◌, ◌++◌, ◌∷◌, [], map, OnOk};
ghost use Rattle.lk_store.specs.Layers.{layers_contents};
ghost use Rattle.lk_spell.specs.Parts.{IsPartIn};
ghost use Rattle.lk_spell.specs.Opened.{part_of, parts_back, IsOpenedIn};
ghost use Rattle.lk_spell.specs.declared.open.Visit.TheVariants as visit;
ghost use Rattle.lk_spell.specs.declared.open.Opened.TheVariants as opened;

use crate::part::Part;
use lk_store::memory::NoMemory;
use lk_store::node::{LevelNode, ListNode, NameNode, Node};
use lk_store::overlay::Overlay;
use lk_store::terms::Terms;

/// A part by its number, and the node that it has there.
#[derive(Clone, Copy)]
pub(crate) enum Opened {
    Name(u64, NameNode),
    Text(u64),
    Level(u64, LevelNode),
    List(u64, ListNode),
    Term(u64, Node),
}

/// A part that the walk is to enter, or one that it leaves once the parts above it are done.
#[derive(Clone, Copy)]
pub(crate) enum Visit {
    Enter(Part),
    Leave(Opened),
}

impl Opened {
    /// The part itself.
    pub(crate) fn part(self) -> Part
        ensures { result ≡ part_of self }
    {
        match self {
            Opened::Name(n, _) => Part::Name(n),
            Opened::Text(s) => Part::Text(s),
            Opened::Level(l, _) => Part::Level(l),
            Opened::List(ls, _) => Part::List(ls),
            Opened::Term(e, _) => Part::Term(e),
        }
    }
}

/// Reads the node of a part.
pub(crate) fn open(terms: &Overlay, part: Part) -> Opened
    requires { IsPartIn (layers_contents terms.now) part }
    ensures part { part_of result ≡ part }
    ensures opened { IsOpenedIn (layers_contents terms.now) result }
{
    match part {
        Part::Name(n) => Opened::Name(n, terms.name(n)),
        Part::Text(s) => Opened::Text(s),
        Part::Level(l) => Opened::Level(l, terms.level(l)),
        Part::List(ls) => Opened::List(ls, terms.levels(ls)),
        Part::Term(e) => Opened::Term(e, terms.view(e)),
    }
}

/// Puts a visit on the stack.
pub(crate) fn push(stack: &mut Vec<Visit>, visit: Visit) -> Result<(), NoMemory>
    ensures { OnOk result (stack.new.items ≡ stack.old.items ++ visit ∷ []) }
{
    stack.push(visit)?;
    Ok(())
}

fn push_one(stack: &mut Vec<Visit>, a: Part) -> Result<(), NoMemory>
    ensures { OnOk result (stack.new.items ≡ stack.old.items ++ visit.Enter a ∷ []) }
{
    push(stack, Visit::Enter(a))
}

fn push_two(stack: &mut Vec<Visit>, a: Part, b: Part) -> Result<(), NoMemory>
    ensures { OnOk result (stack.new.items
        ≡ stack.old.items ++ visit.Enter b ∷ visit.Enter a ∷ []) }
{
    push(stack, Visit::Enter(b))?;
    push(stack, Visit::Enter(a))
}

fn push_three(stack: &mut Vec<Visit>, a: Part, b: Part, c: Part) -> Result<(), NoMemory>
    ensures { OnOk result (stack.new.items
        ≡ stack.old.items ++ visit.Enter c ∷ visit.Enter b ∷ visit.Enter a ∷ []) }
{
    push(stack, Visit::Enter(c))?;
    push_two(stack, a, b)
}

fn push_of_name(stack: &mut Vec<Visit>, n: u64, node: NameNode) -> Result<(), NoMemory>
    ensures { OnOk result (stack.new.items
        ≡ stack.old.items ++ map visit.Enter (parts_back (opened.Name n node))) }
{
    match node {
        NameNode::Anonymous => Ok(()),
        NameNode::Text(m, s) => push_two(stack, Part::Name(m), Part::Text(s)),
        NameNode::Number(m, _) => push_one(stack, Part::Name(m)),
    }
}

fn push_of_level(stack: &mut Vec<Visit>, l: u64, node: LevelNode) -> Result<(), NoMemory>
    ensures { OnOk result (stack.new.items
        ≡ stack.old.items ++ map visit.Enter (parts_back (opened.Level l node))) }
{
    match node {
        LevelNode::Zero => Ok(()),
        LevelNode::Succ(m) => push_one(stack, Part::Level(m)),
        LevelNode::Max(m, k) | LevelNode::IMax(m, k) => {
            push_two(stack, Part::Level(m), Part::Level(k))
        }
        LevelNode::Param(n) => push_one(stack, Part::Name(n)),
    }
}

fn push_of_list(stack: &mut Vec<Visit>, ls: u64, node: ListNode) -> Result<(), NoMemory>
    ensures { OnOk result (stack.new.items
        ≡ stack.old.items ++ map visit.Enter (parts_back (opened.List ls node))) }
{
    match node {
        ListNode::Empty => Ok(()),
        ListNode::Cons(l, more) => push_two(stack, Part::Level(l), Part::List(more)),
    }
}

fn push_of_term(stack: &mut Vec<Visit>, e: u64, node: Node) -> Result<(), NoMemory>
    ensures { OnOk result (stack.new.items
        ≡ stack.old.items ++ map visit.Enter (parts_back (opened.Term e node))) }
{
    match node {
        Node::Var(_) | Node::Lit(_) | Node::Wide => Ok(()),
        Node::Sort(l) => push_one(stack, Part::Level(l)),
        Node::Const(n, ls) => push_two(stack, Part::Name(n), Part::List(ls)),
        Node::App(a, b) | Node::Lam(a, b) | Node::Pi(a, b) => {
            push_two(stack, Part::Term(a), Part::Term(b))
        }
        Node::Let(a, b, c) => push_three(stack, Part::Term(a), Part::Term(b), Part::Term(c)),
        Node::Proj(n, _, s) => push_two(stack, Part::Name(n), Part::Term(s)),
        Node::Str(s) => push_one(stack, Part::Text(s)),
        Node::Local(_, t) => push_one(stack, Part::Term(t)),
    }
}

/// Puts the parts of an opened part on the stack, the first of them on top. The type of a Local is
/// one of them.
pub(crate) fn push_parts(stack: &mut Vec<Visit>, opened: Opened) -> Result<(), NoMemory>
    ensures { OnOk result (stack.new.items
        ≡ stack.old.items ++ map visit.Enter (parts_back opened)) }
{
    match opened {
        Opened::Name(n, node) => push_of_name(stack, n, node),
        Opened::Text(_) => Ok(()),
        Opened::Level(l, node) => push_of_level(stack, l, node),
        Opened::List(ls, node) => push_of_list(stack, ls, node),
        Opened::Term(e, node) => push_of_term(stack, e, node),
    }
}
