//! The rule that a unit breaks by its own lines.

ghost use Rattle.lk_rulebook.specs.Scan.{own_scan};
ghost use Rattle.lk_store.specs.Store.{contents_of};
ghost use Rattle.lk_env.specs.Units.{unit_at, IsUnitIn};
ghost use Rattle.lk_scan.specs.Scans.{IsScan};

use crate::distinct::levels_distinct;
use crate::trees::levels_declared;
use lk_env::scan::{are_closed, are_narrow};
use lk_env::unit::Unit;
use lk_store::base_store::BaseStore;
use lk_store::memory::NoMemory;
use lk_tree::rule::Rule;
use std::alloc::Global;

/// What is wrong with a unit in itself.
#[derive(Clone, Copy)]
pub enum ScanError {
    /// It breaks this rule.
    No(Rule),
    /// Memory is wanting.
    NoMemory,
}

impl From<NoMemory> for ScanError {
    ghost use Rattle.std.specs.Prelude.{◌≡◌};
    ghost use Rattle.lk_scan.specs.declared.scan.ScanError.TheVariants.{NoMemory};

    ghost from_gives = { λ _ e. e ≡ NoMemory };

    fn from(_e: NoMemory) -> ScanError {
        ScanError::NoMemory
    }
}

/// Finds the first rule that a unit breaks by its own lines: a member declares a level parameter twice (`DuplicateLevel`), a
/// tree has a loose variable or a Local (`LooseVariable`), a level parameter is none that its member declares
/// (`UndeclaredLevel`), a literal is above 2^128 - 1 (`WideLiteral`).
pub fn scan(alloc: Global, base: &BaseStore, unit: &Unit) -> Result<(), ScanError>
    requires { IsUnitIn (contents_of base.now) unit.now }
    ensures { IsScan (own_scan (unit_at (contents_of base.now) unit.now)) result }
{
    if !levels_distinct(alloc, base, unit)? {
        return Err(ScanError::No(Rule::DuplicateLevel));
    }
    if !are_closed(base, unit) {
        return Err(ScanError::No(Rule::LooseVariable));
    }
    if !levels_declared(alloc, base, unit)? {
        return Err(ScanError::No(Rule::UndeclaredLevel));
    }
    if !are_narrow(base, unit) {
        return Err(ScanError::No(Rule::WideLiteral));
    }
    Ok(())
}
