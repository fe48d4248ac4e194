//! Levels computed at values of their parameters.

ghost use Rattle.std.specs.Prelude.{◌≡◌, ◌+◌, ◌<◌, length, slice_index, IfOk, OnOk};
ghost use Rattle.lk_store.specs.Contents.{Contents, level_at, level_of};
ghost use Rattle.lk_level_order.specs.Parameters.{AreDifferent};
ghost use Rattle.lk_level_order.specs.Placing.{IsOrder};
ghost use Rattle.lk_level_order.specs.Values.{value_at, AreValues, OverOrders};

use crate::placing::PlacedLevel;
use lk_rows::table::Table;
use lk_store::memory::NoMemory;
use lk_store::node::LevelNode;

/// Two numbers: the places of two levels, or their values.
#[derive(Clone, Copy)]
pub struct Pair {
    pub left: u64,
    pub right: u64,
}

/// One more than a value. No level in memory is so large that this is wanting.
pub fn above(value: u64) -> Result<u64, NoMemory>
    ensures { IfOk result (λ v. v ≡ value + 1) }
{
    match value.checked_add(1) {
        Some(more) => Ok(more),
        None => Err(NoMemory),
    }
}

/// The value at a place. The parts of a level come before it, and a parameter has a value.
fn value_of(values: &[u64], place: u64) -> Result<u64, NoMemory>
    ensures { IfOk result (λ v. (place < length values.now) × (v ≡ slice_index values.now place)) }
{
    match values.get(place as usize) {
        Some(value) => Ok(*value),
        None => Err(NoMemory),
    }
}

/// The value of a level whose parts have theirs.
fn node_value(node: LevelNode, assignment: &[u64], values: &[u64]) -> Result<u64, NoMemory>
    ensures { IfOk result (λ v. (d : Contents) → AreDifferent d.names → length assignment.now
        ≡ length d.names → AreValues d assignment.now values.now → v
        ≡ value_at d.names assignment.now (level_of d node)) }
{
    match node {
        LevelNode::Zero => Ok(0),
        LevelNode::Succ(a) => {
            let below = value_of(values, a)?;
            let value = above(below)?;
            Ok(value)
        }
        LevelNode::Max(a, b) => {
            let left = value_of(values, a)?;
            let right = value_of(values, b)?;
            Ok(left.max(right))
        }
        LevelNode::IMax(a, b) => {
            let left = value_of(values, a)?;
            let right = value_of(values, b)?;
            if right == 0 {
                Ok(0)
            } else {
                Ok(left.max(right))
            }
        }
        LevelNode::Param(n) => value_of(assignment, n),
    }
}

/// Computes all levels of an order, one after another.
fn evaluate(
    parts: &Table<PlacedLevel>,
    assignment: &[u64],
    values: &mut Vec<u64>,
) -> Result<(), NoMemory>
    ensures { OnOk result (OverOrders parts.now assignment.now
        (λ d. AreValues d assignment.now values.new.items)) }
{
    values.clear();
    for place in 0..parts.len() {
        let value = node_value(parts.get(place).node, assignment, values)?;
        values.push(value)?;
    }
    Ok(())
}

/// The values of two levels of an order.
pub fn pair_values(
    parts: &Table<PlacedLevel>,
    assignment: &[u64],
    values: &mut Vec<u64>,
    places: Pair,
) -> Result<Pair, NoMemory>
    ensures left { IfOk result (λ v. OverOrders parts.now assignment.now
        (λ d. v.left ≡ value_at d.names assignment.now (level_at d places.left))) }
    ensures right { IfOk result (λ v. OverOrders parts.now assignment.now
        (λ d. v.right ≡ value_at d.names assignment.now (level_at d places.right))) }
{
    evaluate(parts, assignment, values)?;
    let left = value_of(values, places.left)?;
    let right = value_of(values, places.right)?;
    Ok(Pair { left, right })
}
