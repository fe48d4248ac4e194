//! The parameters of a level gathered, all of them or those inside right sides of `imax`.

ghost use Rattle.std.specs.Prelude.{◌≡◌, ◌<◌, ◌+◌, ◌∷◌, [], ◌++◌, ℕ, List, map, All, true, length, slice_index_or, OnOk, IfOk};
ghost use Rattle.lk_tree.specs.Tree.{Name};
ghost use Rattle.lk_tree.specs.LevelTest.{params_of as plain_params};
ghost use Rattle.lk_store.specs.Contents.{name_at, level_at};
ghost use Rattle.lk_subst.specs.Parts.{cost};
ghost use Rattle.lk_level_order.specs.Parameters.{names_of, IsWithin, AreParameters, Gathers, wanted, with_names, numbers};
ghost use Rattle.lk_level_order.specs.Gathering.{wanted_of, AreGathered, AreTurns, turns_cost, IsMet, own_param, turns_wanted};

use crate::parameters::{Parameter, add};
use lk_rows::row::Row;
use lk_rows::table::Table;
use lk_store::hashing::hash_pair;
use lk_store::memory::NoMemory;
use lk_store::node::LevelNode;
use lk_store::terms::Terms;
use std::alloc::Global;

/// A level, and whether it stands inside a right side.
#[derive(Clone, Copy, PartialEq, Eq)]
pub struct Side {
    pub level: u64,
    pub inside: bool,
}

impl Row for Side {
    type Key = Side;

    ghost key = { λ s. s };

    ghost use Rattle.lk_level_order.specs.Gathering.{hash_of_side};

    ghost hash = { hash_of_side };

    fn hash_of(seed: u64, wanted: &Side) -> u64 {
        hash_pair(seed, wanted.level, u64::from(wanted.inside))
    }

    fn own_hash(&self, seed: u64) -> u64 {
        hash_pair(seed, self.level, u64::from(self.inside))
    }

    fn has(&self, wanted: &Side) -> bool {
        self == wanted
    }
}

/// A side on the stack. An opened one has its parts above it.
#[derive(Clone, Copy)]
pub struct Turn {
    pub side: Side,
    pub opened: bool,
}

/// Puts a side on the stack again, and its parts above it, the left one on top.
fn open<T: Terms>(terms: &T, stack: &mut Vec<Turn>, side: Side) -> Result<(), NoMemory>
    requires { side.level < length (T.contents terms.now).levels }
    ensures turns { OnOk result ((s : List Name) → AreTurns (T.contents terms.now) s stack.old.items
        → IsWithin (wanted_of (T.contents terms.now) side) s
        → AreTurns (T.contents terms.now) s stack.new.items) }
    ensures less { OnOk result (turns_cost (T.contents terms.now) stack.new.items < turns_cost
        (T.contents terms.now) stack.old.items + cost
        (level_at (T.contents terms.now) side.level)) }
    ensures order { OnOk result (turns_wanted (T.contents terms.now) stack.new.items
        ≡ wanted_of (T.contents terms.now) side
        ++ turns_wanted (T.contents terms.now) stack.old.items) }
{
    let inside = side.inside;
    stack.push(Turn { side, opened: true })?;
    match terms.level(side.level) {
        LevelNode::Zero => {}
        LevelNode::Param(_) => {}
        LevelNode::Succ(level) => stack.push(Turn {
            side: Side { level, inside },
            opened: false,
        })?,
        LevelNode::Max(left, right) => {
            stack.push(Turn {
                side: Side {
                    level: right,
                    inside,
                },
                opened: false,
            })?;
            stack.push(Turn {
                side: Side {
                    level: left,
                    inside,
                },
                opened: false,
            })?;
        }
        LevelNode::IMax(left, right) => {
            stack.push(Turn {
                side: Side {
                    level: right,
                    inside: true,
                },
                opened: false,
            })?;
            stack.push(Turn {
                side: Side {
                    level: left,
                    inside,
                },
                opened: false,
            })?;
        }
    }
    Ok(())
}

/// Whether a side was met.
fn is_met(met: &Table<Side>, side: Side) -> bool
    ensures { result ≡ true → IsMet side met.now }
{
    match met.find(&side) {
        Some(_) => true,
        None => false,
    }
}

/// Refuses a side that was not met. The parts of a level come before it.
fn met_before(met: &Table<Side>, side: Side) -> Result<(), NoMemory>
    ensures { OnOk result (IsMet side met.now) }
{
    if is_met(met, side) {
        Ok(())
    } else {
        Err(NoMemory)
    }
}

/// Takes a side whose parts were met: a parameter is added.
fn close<T: Terms>(
    terms: &T,
    names: &mut Table<Parameter>,
    met: &Table<Side>,
    side: Side,
) -> Result<(), NoMemory>
    requires { side.level < length (T.contents terms.now).levels }
    ensures gathers { OnOk result (Gathers (T.contents terms.now)
        (wanted_of (T.contents terms.now) side) names.old names.new) }
    ensures complete { OnOk result (AreGathered (T.contents terms.now) names.old met.now
        → IsWithin (wanted_of (T.contents terms.now) side)
        (names_of (T.contents terms.now) names.new)) }
    ensures order { OnOk result (AreParameters (T.contents terms.now) names.old
        → names_of (T.contents terms.now) names.new
        ≡ with_names (names_of (T.contents terms.now) names.old)
        (own_param side.inside (level_at (T.contents terms.now) side.level))) }
{
    let inside = side.inside;
    match terms.level(side.level) {
        LevelNode::Zero => Ok(()),
        LevelNode::Succ(level) => met_before(met, Side { level, inside }),
        LevelNode::Max(left, right) => {
            met_before(
                met,
                Side {
                    level: left,
                    inside,
                },
            )?;
            met_before(
                met,
                Side {
                    level: right,
                    inside,
                },
            )
        }
        LevelNode::IMax(left, right) => {
            met_before(
                met,
                Side {
                    level: left,
                    inside,
                },
            )?;
            met_before(
                met,
                Side {
                    level: right,
                    inside: true,
                },
            )
        }
        LevelNode::Param(name) => {
            if inside {
                add(terms, names, name)
            } else {
                Ok(())
            }
        }
    }
}

/// Adds to the parameters those of a level, or those inside right sides. Each side is opened once.
pub fn gather<T: Terms>(
    alloc: Global,
    terms: &T,
    names: &mut Table<Parameter>,
    root: Side,
) -> Result<(), NoMemory>
    requires { root.level < length (T.contents terms.now).levels }
    ensures gathers { OnOk result (Gathers (T.contents terms.now)
        (wanted_of (T.contents terms.now) root) names.old names.new) }
    ensures complete { OnOk result (IsWithin (wanted_of (T.contents terms.now) root)
        (names_of (T.contents terms.now) names.new)) }
    ensures order { OnOk result (AreParameters (T.contents terms.now) names.old
        → names_of (T.contents terms.now) names.new
        ≡ with_names (names_of (T.contents terms.now) names.old)
        (wanted_of (T.contents terms.now) root)) }
{
    let mut met: Table<Side> = Table::new(alloc);
    let mut stack: Vec<Turn> = Vec::new(alloc);
    stack.push(Turn {
        side: root,
        opened: false,
    })?;
    'walk: while let Some(turn) = stack.pop() {
        if turn.opened {
            close(terms, names, &met, turn.side)?;
            met.push(turn.side)?;
        } else if !is_met(&met, turn.side) {
            open(terms, &mut stack, turn.side)?;
        }
    }
    met_before(&met, root)
}

/// The numbers of the names of parameters.
fn numbers_of(alloc: Global, names: &Table<Parameter>) -> Result<Vec<u64>, NoMemory>
    ensures { IfOk result (λ listed. listed.items ≡ numbers names.now) }
{
    let mut numbers: Vec<u64> = Vec::new(alloc);
    for i in 0..names.len() {
        numbers.push(names.get(i).name)?;
    }
    Ok(numbers)
}

/// The names of the parameters of a level, each once, in the order in which they first stand.
pub fn params_of<T: Terms>(alloc: Global, terms: &T, level: u64) -> Result<Vec<u64>, NoMemory>
    requires { level < length (T.contents terms.now).levels }
    ensures known { IfOk result (λ names. All
        (λ n. n < length (T.contents terms.now).names) names.items) }
    ensures names { IfOk result (λ names. map (name_at (T.contents terms.now)) names.items
        ≡ with_names [] (plain_params (level_at (T.contents terms.now) level))) }
{
    let mut names: Table<Parameter> = Table::new(alloc);
    gather(
        alloc,
        terms,
        &mut names,
        Side {
            level,
            inside: true,
        },
    )?;
    numbers_of(alloc, &names)
}
