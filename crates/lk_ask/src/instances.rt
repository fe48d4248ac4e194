//! Trees at levels that were made before.

ghost use Rattle.std.specs.Prelude.{◌≡◌, [], IfOk, IfSome};
ghost use Rattle.lk_store.specs.Contents.{Contents};
ghost use Rattle.lk_ask.specs.Instances.{IsInstance, AreInstances};

use lk_rows::row::Row;
use lk_rows::table::Table;
use lk_store::hashing::hash_pair;
use lk_store::memory::NoMemory;
use std::alloc::Global;

/// So many trees are kept at most. One more, and all are forgotten.
const MOST: u64 = 4096;

/// A tree, and a list of levels for its parameters, by their numbers.
#[derive(Clone, Copy, PartialEq)]
pub struct TreeAt {
    pub e: u64,
    pub levels: u64,
}

/// What was made of a tree: the levels were put in place of these parameters.
#[derive(Drop)]
pub struct Instance {
    pub tree: TreeAt,
    pub params: Vec<u64>,
    pub made: u64,
}

impl Row for Instance {
    type Key = TreeAt;

    ghost key = { λ i. i.tree };

    ghost use Rattle.lk_ask.specs.Instances.{hash_of_tree_at};

    ghost hash = { hash_of_tree_at };

    #[inline(always)]
    fn hash_of(seed: u64, wanted: &TreeAt) -> u64 {
        hash_pair(seed, wanted.e, wanted.levels)
    }

    #[inline(always)]
    fn own_hash(&self, seed: u64) -> u64 {
        hash_pair(seed, self.tree.e, self.tree.levels)
    }

    #[inline(always)]
    fn has(&self, wanted: &TreeAt) -> bool {
        self.tree == *wanted
    }
}

/// What was made of trees at levels, so that it is not made again: most constants are met again and
/// again at the same levels.
#[derive(Drop)]
pub struct Instances {
    pub table: Table<Instance>,
}

/// A row, with parameters of its own.
fn row_of(alloc: Global, params: &[u64], tree: TreeAt, made: u64) -> Result<Instance, NoMemory>
    ensures tree { IfOk result (λ i. i.tree ≡ tree) }
    ensures params { IfOk result (λ i. i.params.items ≡ params.now) }
    ensures made { IfOk result (λ i. i.made ≡ made) }
{
    let mut own: Vec<u64> = Vec::new(alloc);
    own.extend_from_slice(params)?;
    Ok(Instance {
        tree,
        params: own,
        made,
    })
}

impl Instances {
    /// Nothing was made. It takes no memory.
    pub fn new(alloc: Global) -> Self
        ensures { result.table ≡ [] }
    {
        Instances {
            table: Table::new(alloc),
        }
    }

    /// Forgets what was made.
    pub fn clear(&mut self)
        ensures { self.new.table ≡ [] }
    {
        self.table.clear();
    }

    /// What was made of a tree with levels in place of these parameters.
    pub(crate) fn find(&self, params: &[u64], tree: TreeAt) -> Option<u64>
        ensures { (c : Contents) → AreInstances c self.now.table
            → IfSome result (IsInstance c params.now tree) }
    {
        let i = self.table.find(&tree)?;
        let row = self.table.get(i);
        if row.params.as_slice() == params {
            Some(row.made)
        } else {
            None
        }
    }

    /// Where as many are kept as may be, all are forgotten.
    fn make_room(&mut self)
        ensures { (c : Contents) → AreInstances c self.old.table → AreInstances c self.new.table }
    {
        if self.table.len() >= MOST {
            self.table.clear();
        }
    }

    /// Adds a row, where there is memory.
    fn add(&mut self, row: Instance)
        ensures { (c : Contents) → IsInstance c row.params.items row.tree row.made
            → AreInstances c self.old.table → AreInstances c self.new.table }
    {
        let _ = self.table.push(row);
    }

    /// Keeps what was made of a tree, where there is memory. Where the same tree was met at these
    /// levels with other parameters, that stays.
    pub(crate) fn keep(&mut self, alloc: Global, params: &[u64], tree: TreeAt, made: u64)
        ensures { (c : Contents) → IsInstance c params.now tree made
            → AreInstances c self.old.table → AreInstances c self.new.table }
    {
        if self.table.find(&tree).is_some() {
            return;
        }
        self.make_room();
        if let Ok(row) = row_of(alloc, params, tree, made) {
            self.add(row);
        }
    }
}
