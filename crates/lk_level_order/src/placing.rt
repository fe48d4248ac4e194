//! The levels that a level is made of, in an order in which each comes after its parts.

ghost use Rattle.std.specs.Prelude.{◌≡◌, ◌<◌, length, IfOk, OnOk};
ghost use Rattle.lk_store.specs.Contents.{level_at, level_of, IsLevelIn};
ghost use Rattle.lk_level_order.specs.Placing.{gathered, ArePlaced, IsPlaceOf};

use crate::parameters::Parameter;
use lk_rows::row::Row;
use lk_rows::table::Table;
use lk_store::hashing::hash_pair;
use lk_store::memory::NoMemory;
use lk_store::node::LevelNode;
use lk_store::terms::Terms;
use lk_subst::parts::{Visit, open};
use std::alloc::Global;

/// A level of the store, and its node: the parts are numbers of the order, and of the parameters.
#[derive(Clone, Copy)]
pub struct PlacedLevel {
    pub level: u64,
    pub node: LevelNode,
}

impl Row for PlacedLevel {
    type Key = u64;

    ghost key = { λ p. p.level };

    ghost use Rattle.lk_subst.specs.Parts.{hash_of_level};

    ghost hash = { hash_of_level };

    fn hash_of(seed: u64, wanted: &u64) -> u64 {
        hash_pair(seed, *wanted, 0)
    }

    fn own_hash(&self, seed: u64) -> u64 {
        hash_pair(seed, self.level, 0)
    }

    fn has(&self, wanted: &u64) -> bool {
        self.level == *wanted
    }
}

/// Where a level stands. The parts of a level come before it.
pub fn place_of(parts: &Table<PlacedLevel>, level: u64) -> Result<u64, NoMemory>
    ensures { IfOk result (λ i. IsPlaceOf level parts.now i) }
{
    match parts.find(&level) {
        Some(i) => Ok(i),
        None => Err(NoMemory),
    }
}

/// The node of a level whose parts are placed.
fn placed_node<T: Terms>(
    terms: &T,
    names: &Table<Parameter>,
    parts: &Table<PlacedLevel>,
    level: u64,
) -> Result<LevelNode, NoMemory>
    requires { level < length (T.contents terms.now).levels }
    ensures known { IfOk result (λ node. IsLevelIn
        (gathered (T.contents terms.now) names.now parts.now) node) }
    ensures level { IfOk result (λ node. level_of
        (gathered (T.contents terms.now) names.now parts.now) node
        ≡ level_at (T.contents terms.now) level) }
{
    match terms.level(level) {
        LevelNode::Zero => Ok(LevelNode::Zero),
        LevelNode::Succ(a) => Ok(LevelNode::Succ(place_of(parts, a)?)),
        LevelNode::Max(a, b) => {
            let left = place_of(parts, a)?;
            let right = place_of(parts, b)?;
            Ok(LevelNode::Max(left, right))
        }
        LevelNode::IMax(a, b) => {
            let left = place_of(parts, a)?;
            let right = place_of(parts, b)?;
            Ok(LevelNode::IMax(left, right))
        }
        LevelNode::Param(n) => match names.find(&n) {
            Some(i) => Ok(LevelNode::Param(i)),
            None => Err(NoMemory),
        },
    }
}

/// Places a level, after its parts. Each is opened once.
pub fn place<T: Terms>(
    alloc: Global,
    terms: &T,
    names: &Table<Parameter>,
    parts: &mut Table<PlacedLevel>,
    level: u64,
) -> Result<(), NoMemory>
    requires level_in { level < length (T.contents terms.now).levels }
    requires placed { ArePlaced (T.contents terms.now) names.now parts.old }
    ensures { OnOk result (ArePlaced (T.contents terms.now) names.now parts.new) }
{
    let mut stack: Vec<Visit> = Vec::new(alloc);
    stack.push(Visit {
        level,
        opened: false,
    })?;
    'walk: while let Some(visit) = stack.pop() {
        if visit.opened {
            let node = placed_node(terms, names, parts, visit.level)?;
            parts.push(PlacedLevel {
                level: visit.level,
                node,
            })?;
        } else if parts.find(&visit.level).is_none() {
            open(terms, &mut stack, visit.level)?;
        }
    }
    Ok(())
}
