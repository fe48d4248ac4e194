//! Own budgets of units: lines of a file state how many steps a unit may take.

ghost use Rattle.std.specs.Prelude.{◌≡◌, ◌<◌, ℕ, length, Some, None, option_map, slice_index_or, IfOk, IfSome};
ghost use Rattle.lk_store.specs.Store.{contents_of};
ghost use Rattle.lk_env.specs.Index.{IsIndex};
ghost use Rattle.lk_env.specs.Budgets.{lesser, steps_of, limit_at, AreBudgetsIn, AreLimits};

use crate::position::Position;
use crate::unit::Unit;
use lk_store::base_store::BaseStore;
use lk_store::memory::NoMemory;
use std::alloc::Global;

/// What a line of the file states: how many steps the first unit that gives the name may take.
#[derive(Clone, Copy)]
pub struct Budget {
    /// The number of a name.
    pub name: u64,
    pub steps: u64,
}

/// The least of what was stated so far and one number more.
fn with_steps(limit: Option<u64>, steps: u64) -> Option<u64>
    ensures { result ≡ lesser limit (Some steps) }
{
    match limit {
        Some(least) if least <= steps => limit,
        _ => Some(steps),
    }
}

/// Notes a number of steps at the unit of a position.
fn note(limits: &mut Vec<Option<u64>>, position: Option<Position>, steps: u64)
    requires { IfSome position (λ p. p.unit < length limits.old.items) }
    ensures one_each { length limits.new.items ≡ length limits.old.items }
    ensures noted { (n : ℕ) → limit_at limits.new.items n ≡ lesser (limit_at limits.old.items n)
        (steps_of n steps (option_map (λ p. p.unit) position)) }
{
    if let Some(p) = position {
        let i = p.unit as usize;
        limits[i] = with_steps(limits[i], steps);
    }
}

/// The least number that is stated of each unit; empty where nothing is stated.
pub(crate) fn limits_of(
    alloc: Global,
    base: &BaseStore,
    units: &[Unit],
    cells: &[Option<Position>],
    budgets: &[Budget],
) -> Result<Vec<Option<u64>>, NoMemory>
    requires index { IsIndex (contents_of base.now) units.now cells.now }
    requires known { AreBudgetsIn (contents_of base.now) budgets.now }
    ensures { IfOk result (λ limits. AreLimits (contents_of base.now) units.now budgets.now
        limits.items) }
{
    let _base = base;
    let mut limits = Vec::new(alloc);
    if budgets.is_empty() {
        return Ok(limits);
    }
    limits.resize(units.len(), None)?;
    for budget in budgets {
        note(&mut limits, cells[budget.name as usize], budget.steps);
    }
    Ok(limits)
}
