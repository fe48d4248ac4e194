//! What a row asks, what the answers claim, and the one step that rests on that.

ghost use Rattle.std.specs.Prelude.{◌≡◌, IfOk, OnOk};
ghost use Rattle.lk_rulebook.specs.Place.{Place};
ghost use Rattle.lk_tree.specs.Tree.{Tree};
ghost use Rattle.lk_store.specs.Contents.{Contents};
ghost use Rattle.lk_derive_types.specs.Asked.{Notes, IsNothingAsked};
ghost use Rattle.lk_derive_types.specs.Asked.{NotesType, NotesForm, NotesSame};
ghost use Rattle.lk_derive_types.specs.TypeRows.{IsTypedBy, IsTypeRow};

use lk_ask::query::Query;
use lk_premises::{Claim, Relation};
use lk_step::{Row, Step};
use lk_store::memory::NoMemory;
use lk_trace::{Rule, TypingRule};
use std::alloc::Global;

/// Questions, in their order, and what the answer of each claims. Trees are numbers of a store.
#[derive(Drop)]
pub struct Asked {
    pub asks: Vec<Query<u64>>,
    pub premises: Vec<Claim>,
}

impl Asked {
    /// Nothing is asked. It takes no memory.
    pub fn new(alloc: Global) -> Self
        ensures { IsNothingAsked result }
    {
        Asked {
            asks: Vec::new(alloc),
            premises: Vec::new(alloc),
        }
    }

    /// One more question, and what its answer claims.
    pub fn note(&mut self, query: Query<u64>, claim: Claim) -> Result<(), NoMemory>
        ensures { OnOk result (Notes self.old self.new query claim) }
    {
        self.asks.push(query)?;
        self.premises.push(claim)?;
        Ok(())
    }

    /// The type of a term, which is this.
    pub fn note_type(&mut self, e: u64, ty: u64) -> Result<(), NoMemory>
        ensures { OnOk result (NotesType self.old self.new e ty) }
    {
        self.note(
            Query::Infer(e),
            Claim {
                relation: Relation::Typing,
                left: e,
                right: ty,
            },
        )
    }

    /// The weak head form of a term, which is this.
    pub fn note_form(&mut self, e: u64, form: u64) -> Result<(), NoMemory>
        ensures { OnOk result (NotesForm self.old self.new e form) }
    {
        self.note(
            Query::Whnf(e),
            Claim {
                relation: Relation::Reduction,
                left: e,
                right: form,
            },
        )
    }

    /// Whether two terms are the same, which they are.
    pub fn note_same(&mut self, a: u64, b: u64) -> Result<(), NoMemory>
        ensures { OnOk result (NotesSame self.old self.new a b) }
    {
        self.note(
            Query::Same(a, b),
            Claim {
                relation: Relation::Equality,
                left: a,
                right: b,
            },
        )
    }
}

/// The row of one step of typing, which rests on all that is asked.
pub fn typing_row(
    alloc: Global,
    rule: TypingRule,
    left: u64,
    right: u64,
    asked: Asked,
) -> Result<Row, NoMemory>
    ensures { (w : Place) → (c : Contents) → (tree : Tree)
        → IsTypedBy w c rule left right asked tree → IfOk result (IsTypeRow w c tree) }
{
    let mut steps = Vec::new(alloc);
    steps.push(Step {
        rule: Rule::Typing(rule),
        left,
        right,
        premises: asked.premises,
    })?;
    Ok(Row {
        asks: asked.asks,
        steps,
    })
}
