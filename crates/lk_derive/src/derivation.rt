//! A section at work.

ghost use Rattle.std.specs.Prelude.{◌≡◌, OnOk};
ghost use Rattle.lk_rulebook.specs.Place.{Place};
ghost use Rattle.lk_store.specs.Contents.{Contents};
ghost use Rattle.lk_derive.specs.Derived.{is_marked, Marks, IsDerivation};

use crate::notes::Notes;
use lk_ask::query::Query;
use lk_memo::key::{Key, key_of};
use lk_store::memory::NoMemory;
use std::alloc::Global;
use std::collections::HashSet;

/// What is written so far of a section, and which questions are derived there: what their answers claim is stated by its
/// lines, or is of one tree.
#[derive(Drop)]
pub struct Derivation {
    pub notes: Notes,
    pub derived: HashSet<Key>,
}

impl Derivation {
    /// Nothing is written, and no question is derived. It takes no memory.
    pub fn new(alloc: Global) -> Self
        ensures { (w : Place) (c : Contents) → IsDerivation w c result }
    {
        Derivation {
            notes: Notes::new(alloc),
            derived: HashSet::new(alloc),
        }
    }

    /// Whether a question is marked as derived.
    pub(crate) fn is_marked(&self, query: Query<u64>) -> bool
        ensures { result ≡ is_marked self.now query }
    {
        let key = key_of(query);
        self.derived.contains(&key)
    }

    /// Marks a question as derived.
    pub(crate) fn mark(&mut self, query: Query<u64>) -> Result<(), NoMemory>
        ensures { OnOk result (Marks self.old self.new query) }
    {
        self.derived.insert(key_of(query))?;
        Ok(())
    }
}
