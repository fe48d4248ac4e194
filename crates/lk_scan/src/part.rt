//! The parts of trees in which level parameters may stand.

ghost use Rattle.std.specs.Prelude.{◌≡◌, ◌++◌, map, OnOk};
ghost use Rattle.lk_seek.specs.declared.visit.Visit.TheVariants as visit;
ghost use Rattle.lk_scan.specs.Parts.{hash_of, parts_of, parts_of_level, parts_of_list};

use lk_rows::row::Row;
use lk_seek::visit::{Visit, push};
use lk_store::hashing::hash_pair;
use lk_store::memory::NoMemory;
use lk_store::node::{LevelNode, ListNode, Node};

/// A tree, a level or a list of levels, by its number.
#[derive(Clone, Copy, PartialEq, Eq)]
pub enum TermPart {
    Tree(u64),
    Level(u64),
    Levels(u64),
}

/// The hash of a part.
fn hash(seed: u64, part: TermPart) -> u64
    ensures { result ≡ hash_of seed part }
{
    match part {
        TermPart::Tree(e) => hash_pair(seed, e, 0),
        TermPart::Level(l) => hash_pair(seed, l, 1),
        TermPart::Levels(ls) => hash_pair(seed, ls, 2),
    }
}

/// A part that was looked through.
#[derive(Clone, Copy)]
pub struct Met {
    pub part: TermPart,
}

impl Row for Met {
    type Key = TermPart;

    ghost key = { λ m. m.part };

    ghost use Rattle.lk_scan.specs.Parts.{hash_of};

    ghost hash = { hash_of };

    fn hash_of(seed: u64, wanted: &TermPart) -> u64 {
        hash(seed, *wanted)
    }

    fn own_hash(&self, seed: u64) -> u64 {
        hash(seed, self.part)
    }

    fn has(&self, wanted: &TermPart) -> bool {
        self.part == *wanted
    }
}

/// Puts the parts of a tree's node on the stack, the first of them on top.
pub fn push_parts(stack: &mut Vec<Visit<TermPart>>, node: Node) -> Result<(), NoMemory>
    ensures { OnOk result (stack.new.items
        ≡ stack.old.items ++ map visit.Enter (parts_of node)) }
{
    match node {
        Node::Var(_) | Node::Lit(_) | Node::Wide | Node::Str(_) => {}
        Node::Sort(l) => push(stack, Visit::Enter(TermPart::Level(l)))?,
        Node::Const(_, ls) => push(stack, Visit::Enter(TermPart::Levels(ls)))?,
        Node::Proj(_, _, e) | Node::Local(_, e) => push(stack, Visit::Enter(TermPart::Tree(e)))?,
        Node::App(a, b) | Node::Lam(a, b) | Node::Pi(a, b) => {
            push(stack, Visit::Enter(TermPart::Tree(b)))?;
            push(stack, Visit::Enter(TermPart::Tree(a)))?;
        }
        Node::Let(a, b, c) => {
            push(stack, Visit::Enter(TermPart::Tree(c)))?;
            push(stack, Visit::Enter(TermPart::Tree(b)))?;
            push(stack, Visit::Enter(TermPart::Tree(a)))?;
        }
    }
    Ok(())
}

/// Puts the parts of a level's node on the stack, the first of them on top.
pub fn push_level_parts(stack: &mut Vec<Visit<TermPart>>, node: LevelNode) -> Result<(), NoMemory>
    ensures { OnOk result (stack.new.items
        ≡ stack.old.items ++ map visit.Enter (parts_of_level node)) }
{
    match node {
        LevelNode::Zero | LevelNode::Param(_) => {}
        LevelNode::Succ(a) => push(stack, Visit::Enter(TermPart::Level(a)))?,
        LevelNode::Max(a, b) | LevelNode::IMax(a, b) => {
            push(stack, Visit::Enter(TermPart::Level(b)))?;
            push(stack, Visit::Enter(TermPart::Level(a)))?;
        }
    }
    Ok(())
}

/// Puts the list of the other levels and the first level of a list on the stack.
pub fn push_list_parts(stack: &mut Vec<Visit<TermPart>>, node: ListNode) -> Result<(), NoMemory>
    ensures { OnOk result (stack.new.items
        ≡ stack.old.items ++ map visit.Enter (parts_of_list node)) }
{
    match node {
        ListNode::Empty => {}
        ListNode::Cons(l, ls) => {
            push(stack, Visit::Enter(TermPart::Levels(ls)))?;
            push(stack, Visit::Enter(TermPart::Level(l)))?;
        }
    }
    Ok(())
}
