//! The units of a file, gathered item by item.
ghost use Rattle.std.specs.Prelude.{◌≡◌, length, IfOk, IfErr};
ghost use Rattle.lk_store.specs.Contents.{Contents, name_at, level_at, Extends};
ghost use Rattle.lk_units.specs.State.{State, begin, counted};
ghost use Rattle.lk_units.specs.Held.{Numbered, Below, IsKnown, Holds, Follows};

use crate::numbering::Numbering;
use lk_env::budget::Budget;
use lk_env::unit::{Hint, RecursorRule};
use lk_lines::Word;
use lk_members::Members;
use lk_store::memory::NoMemory;
use lk_store::node::{LevelNode, NameNode};
use lk_store::terms::Terms;
use std::alloc::Global;

/// A file has at most this many items: names, levels, expressions, rules and declarations.
const MAX_ITEMS: u64 = (1 << 32) - 1;

/// What was taken so far. The numberings of names, levels and trees lead from the file's numbers to those of a store.
#[derive(Drop)]
pub struct Assembler {
    pub by_name: Numbering,
    pub by_level: Numbering,
    pub by_tree: Numbering,
    /// From the file's numbers of rules to places among `rules`.
    pub by_rule: Numbering,
    pub rules: Vec<RecursorRule>,
    /// What the lines of each part that is ended declare.
    pub parts: Vec<Members>,
    /// What the lines of the part declare that is not ended.
    pub members: Members,
    /// What lines state of the units' budgets, in their order.
    pub budgets: Vec<Budget>,
    pub count: u64,
}

/// Why an item is not taken.
#[derive(Clone, Copy)]
pub enum TakeError {
    /// Memory ran out.
    NoMemory,
    /// The item has a fault.
    Fault(Word),
}

impl From<NoMemory> for TakeError {
    ghost use Rattle.std.specs.Prelude.{◌≡◌};
    ghost use Rattle.lk_units.specs.declared.assembler.TakeError.TheVariants.{NoMemory};

    ghost from_gives = { λ _ e. e ≡ NoMemory };

    fn from(_e: NoMemory) -> TakeError {
        TakeError::NoMemory
    }
}

/// What a binder is.
#[derive(Clone, Copy)]
pub enum Binder {
    Lambda,
    Pi,
}

/// What a value is to its declaration.
#[derive(Clone, Copy)]
pub enum ValueUse {
    Definition(Hint),
    Theorem,
    Opaque,
}

/// How a level is made of two.
#[derive(Clone, Copy)]
pub enum LevelPair {
    Max,
    Imax,
}

/// An assembler with these numberings of names and levels, and nothing else.
fn over(alloc: Global, by_name: Numbering, by_level: Numbering) -> Assembler
    ensures known { (c : Contents) → Below by_name (length c.names)
        → Below by_level (length c.levels) → IsKnown result c }
    ensures holds { (c : Contents) → Numbered by_name (name_at c) begin.names
        → Numbered by_level (level_at c) begin.levels → Holds result c begin }
{
    Assembler {
        by_name,
        by_level,
        by_tree: Numbering::new(alloc),
        by_rule: Numbering::new(alloc),
        rules: Vec::new(alloc),
        parts: Vec::new(alloc),
        members: Members::new(alloc),
        budgets: Vec::new(alloc),
        count: 0,
    }
}

impl Assembler {
    /// An assembler that has the anonymous name and level zero alone.
    pub fn new<T: Terms>(alloc: Global, store: &mut T) -> Result<Self, TakeError>
        ensures keeps { Extends (T.contents store.old) (T.contents store.new) }
        ensures rest { T.rest store.new ≡ T.rest store.old }
        ensures known { IfOk result (λ a. IsKnown a (T.contents store.new)) }
        ensures holds { IfOk result (λ a. Holds a (T.contents store.new) begin) }
        ensures err { IfErr result (λ e. e ≡ TakeError.NoMemory) }
    {
        let anonymous = store.make_name(NameNode::Anonymous)?;
        let zero = store.make_level(LevelNode::Zero)?;
        let mut by_name = Numbering::new(alloc);
        by_name.add(0, anonymous)?;
        let mut by_level = Numbering::new(alloc);
        by_level.add(0, zero)?;
        Ok(over(alloc, by_name, by_level))
    }

    /// Counts an item that was taken.
    pub fn counts(&mut self) -> Result<(), TakeError>
        ensures known { (c : Contents) → IsKnown self.old c → IsKnown self.new c }
        ensures follows { (c : Contents) (s : State) → Holds self.old c s
            → Follows self.new c result (counted s) }
    {
        if self.count >= MAX_ITEMS {
            return Err(TakeError::Fault(Word::TooManyItems));
        }
        self.count += 1;
        Ok(())
    }
}
