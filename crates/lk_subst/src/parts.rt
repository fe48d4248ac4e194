//! The levels that a level is made of.

ghost use Rattle.std.specs.Prelude.{◌≡◌, ◌<◌, ◌+◌, length, All, IfOk, OnOk};
ghost use Rattle.lk_store.specs.Contents.{level_at};
ghost use Rattle.lk_subst.specs.Parts.{AreMet, AreVisits, visits_cost, cost};

use lk_rows::row::Row;
use lk_rows::table::Table;
use lk_store::hashing::hash_pair;
use lk_store::memory::NoMemory;
use lk_store::node::LevelNode;
use lk_store::terms::Terms;
use std::alloc::Global;

/// A level that was met.
#[derive(Clone, Copy)]
pub struct Met {
    pub level: u64,
}

impl Row for Met {
    type Key = u64;

    ghost key = { λ m. m.level };

    ghost use Rattle.lk_subst.specs.Parts.{hash_of_level};

    ghost hash = { hash_of_level };

    fn hash_of(seed: u64, wanted: &u64) -> u64 {
        hash_pair(seed, *wanted, 0)
    }

    fn own_hash(&self, seed: u64) -> u64 {
        hash_pair(seed, self.level, 0)
    }

    fn has(&self, wanted: &u64) -> bool {
        self.level == *wanted
    }
}

/// A level on the stack. An opened one has its parts above it.
#[derive(Clone, Copy)]
pub struct Visit {
    pub level: u64,
    pub opened: bool,
}

/// Puts a level on the stack again, and its parts above it.
pub fn open<T: Terms>(terms: &T, stack: &mut Vec<Visit>, level: u64) -> Result<(), NoMemory>
    requires level_in { level < length (T.contents terms.now).levels }
    requires visits { AreVisits (T.contents terms.now) stack.old.items }
    ensures visits { OnOk result (AreVisits (T.contents terms.now) stack.new.items) }
    ensures less { OnOk result (visits_cost (T.contents terms.now) stack.new.items
        < visits_cost (T.contents terms.now) stack.old.items
        + cost (level_at (T.contents terms.now) level)) }
{
    stack.push(Visit {
        level,
        opened: true,
    })?;
    match terms.level(level) {
        LevelNode::Zero | LevelNode::Param(_) => {}
        LevelNode::Succ(a) => stack.push(Visit {
            level: a,
            opened: false,
        })?,
        LevelNode::Max(a, b) | LevelNode::IMax(a, b) => {
            stack.push(Visit {
                level: a,
                opened: false,
            })?;
            stack.push(Visit {
                level: b,
                opened: false,
            })?;
        }
    }
    Ok(())
}

/// The levels with parameters that a level is made of, each once and after its own parts; the last
/// is the level itself.
pub fn level_parts<T: Terms>(alloc: Global, terms: &T, level: u64) -> Result<Table<Met>, NoMemory>
    requires { level < length (T.contents terms.now).levels }
    ensures { IfOk result (λ met. AreMet (T.contents terms.now) met) }
{
    let mut met: Table<Met> = Table::new(alloc);
    let mut stack: Vec<Visit> = Vec::new(alloc);
    stack.push(Visit {
        level,
        opened: false,
    })?;
    'walk: while let Some(visit) = stack.pop() {
        if visit.opened {
            met.push(Met { level: visit.level })?;
        } else if terms.level_has_params(visit.level) && met.find(&visit.level).is_none() {
            open(terms, &mut stack, visit.level)?;
        }
    }
    Ok(met)
}
