//! The tables of a store.

use crate::key::{LevelRow, ListRow, NameKey, Number};
use crate::sizes::Sizes;
use crate::stored::StoredTree;
use crate::text::Text;
use lk_rows::table::Table;
use std::alloc::Global;
use std::mem::drop;

/// The tables of a store.
pub struct Tables {
    pub(crate) numbers: Table<Number>,
    pub(crate) names: Table<NameKey>,
    pub(crate) texts: Table<Text>,
    pub(crate) levels: Table<LevelRow>,
    pub(crate) lists: Table<ListRow>,
    pub(crate) trees: Table<StoredTree>,
}

/// Each table goes by a call, so that whoever lets a store go has one call to prove.
impl Drop for Tables {
    fn drop(self) {
        let Tables {
            numbers,
            names,
            texts,
            levels,
            lists,
            trees,
        } = self;
        drop(numbers);
        drop(names);
        drop(texts);
        drop(levels);
        drop(lists);
        drop(trees);
    }
}

impl Tables {
    ghost use Rattle.lk_store.specs.Sizes.{sizes_of};
    ghost use Rattle.lk_store.specs.Store.{no_tables};
    ghost use Rattle.std.specs.Prelude.{◌≡◌};

    /// Empty tables. They take no memory.
    pub fn new(alloc: Global) -> Tables
        ensures { result ≡ no_tables }
    {
        Tables {
            numbers: Table::new(alloc),
            names: Table::new(alloc),
            texts: Table::new(alloc),
            levels: Table::new(alloc),
            lists: Table::new(alloc),
            trees: Table::new(alloc),
        }
    }

    /// How many rows there are of each kind.
    pub fn sizes(&self) -> Sizes
        ensures { result ≡ sizes_of self.now }
    {
        Sizes {
            numbers: self.numbers.len(),
            names: self.names.len(),
            texts: self.texts.len(),
            levels: self.levels.len(),
            lists: self.lists.len(),
            terms: self.trees.len(),
        }
    }

    /// Gives back the memory that nothing takes.
    pub fn shrink(&mut self)
        ensures { self.new ≡ self.old }
    {
        self.numbers.shrink();
        self.names.shrink();
        self.texts.shrink();
        self.levels.shrink();
        self.lists.shrink();
        self.trees.shrink();
    }

    /// Empties the tables, and keeps their memory.
    pub fn clear(&mut self)
        ensures { self.new ≡ no_tables }
    {
        self.numbers.clear();
        self.names.clear();
        self.texts.clear();
        self.levels.clear();
        self.lists.clear();
        self.trees.clear();
    }
}
