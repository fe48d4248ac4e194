//! What is kept of a tree.

use lk_rows::row::Row;
use lk_store::hashing::hash_pair;

/// A tree that was looked through.
#[derive(Clone, Copy)]
pub struct Met {
    pub tree: u64,
}

impl Row for Met {
    type Key = u64;

    ghost key = { λ m. m.tree };

    ghost use Rattle.lk_mentions.specs.Parts.{hash_of_tree};

    ghost hash = { hash_of_tree };

    fn hash_of(seed: u64, wanted: &u64) -> u64 {
        hash_pair(seed, *wanted, 0)
    }

    fn own_hash(&self, seed: u64) -> u64 {
        hash_pair(seed, self.tree, 0)
    }

    fn has(&self, wanted: &u64) -> bool {
        self.tree == *wanted
    }
}
