//! The lines so far, and where each member stands among them.

ghost use Rattle.std.specs.Prelude.{◌≡◌, []};
ghost use Rattle.lk_members.specs.Indices.{IsIndexed};

use crate::line::{StoredLine, StoredMember};
use crate::names::Names;
use lk_rows::table::Table;
use std::alloc::Global;
use std::collections::{HashMap, HashSet};
use std::sync::Arc;

/// A member under another name or number: a constructor under the name of its type, a recursor under the number of its
/// list.
#[derive(Clone, Copy, PartialEq, Eq, Hash)]
pub struct Key {
    pub under: u64,
    pub name: u64,
}

/// The lines so far, and where each member stands among them, by the place of its line.
#[derive(Drop)]
pub struct Members {
    pub lines: Vec<StoredLine>,
    /// The line of each type.
    pub types: HashMap<u64, u32>,
    /// The line of each constructor, under the name of its type.
    pub constructors: HashMap<Key, u32>,
    /// For each name that a type's line lists as one of its block, the first such line.
    pub blocks: HashMap<u64, u32>,
    /// The lists of types that recursors state, each once.
    pub lists: Table<Names>,
    /// The lines of the recursors of each list, in order.
    pub recursors: Vec<Vec<u32>>,
    /// Which recursors each list has.
    pub recursor_names: HashSet<Key>,
}

impl Members {
    /// No lines.
    pub fn new(alloc: Global) -> Self
        ensures indexed { IsIndexed result }
        ensures lines { result.lines.items ≡ [] }
    {
        Members {
            lines: Vec::new(alloc),
            types: HashMap::new(alloc),
            constructors: HashMap::new(alloc),
            blocks: HashMap::new(alloc),
            lists: Table::new(alloc),
            recursors: Vec::new(alloc),
            recursor_names: HashSet::new(alloc),
        }
    }

    /// The level parameters of the last line, where it is a declaration's that is a unit alone.
    pub fn last_parameters(&self) -> Option<&Arc<Vec<u64>>> {
        match self.lines.last() {
            Some(line) => match &line.said {
                StoredMember::Alone(declaration) => Some(&declaration.levels),
                _ => None,
            },
            None => None,
        }
    }
}
