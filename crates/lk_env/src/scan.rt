//! Why look-ups of a unit's members are refused: a tree of the unit is not closed, or has a wide literal.

ghost use Rattle.std.specs.Prelude.{◌≡◌, ◌<◌, [], length, option_map, All, IfOk};
ghost use Rattle.std.specs.List.{list_all};
ghost use Rattle.lk_rulebook.specs.Units.{body_trees, trees_of, all_bound, all_narrow};
ghost use Rattle.lk_rulebook.specs.Units.{flaw_of as rule_against};
ghost use Rattle.lk_store.specs.Contents.{tree_at};
ghost use Rattle.lk_store.specs.Store.{contents_of};
ghost use Rattle.lk_env.specs.Units.{body_at, unit_at, IsBodyIn, IsConstructorIn, IsTypeIn, IsRuleIn};
ghost use Rattle.lk_env.specs.Units.{IsRecursorIn, IsUnitIn, AreUnitsIn};
ghost use Rattle.lk_env.specs.Scan.{passes, constructors_test, recursor_test, AreFlaws};

use crate::closed::is_closed;
use crate::unit::{Block, BlockType, Body, Constructor, Recursor, RecursorRule, Unit};
use lk_store::base_store::BaseStore;
use lk_store::memory::NoMemory;
use lk_store::terms::Terms;
use lk_tree::rule::Rule;
use std::alloc::Global;

/// What each tree of a unit has to be.
#[derive(Clone, Copy)]
pub(crate) enum Test {
    Closed,
    Narrow,
}

fn tree_passes(base: &BaseStore, test: Test, e: u64) -> bool
    requires { e < length (contents_of base.now).trees }
    ensures { result ≡ passes test (tree_at (contents_of base.now) e) }
{
    match test {
        Test::Closed => is_closed(base, e),
        Test::Narrow => base.is_narrow(e),
    }
}

fn body_passes(base: &BaseStore, test: Test, body: Body) -> bool
    requires { IsBodyIn (contents_of base.now) body }
    ensures { result ≡ list_all (λ e. passes test e.1)
        (body_trees [] (body_at (contents_of base.now) body)) }
{
    match body {
        Body::Axiom | Body::Quotient => true,
        Body::Definition { value, .. } | Body::Opaque { value } => {
            tree_passes(base, test, u64::from(value))
        }
        Body::Theorem { proof } => tree_passes(base, test, u64::from(proof)),
    }
}

fn types_pass(base: &BaseStore, test: Test, types: &[BlockType]) -> bool
    requires { All (IsTypeIn (contents_of base.now)) types.now }
    ensures { result ≡ list_all (λ t. passes test
        (tree_at (contents_of base.now) t.ty)) types.now }
{
    types.iter().all(|t| tree_passes(base, test, t.ty))
}

fn constructors_pass(base: &BaseStore, test: Test, constructors: &[Constructor]) -> bool
    requires { All (IsConstructorIn (contents_of base.now)) constructors.now }
    ensures { result ≡ list_all (λ k. passes test
        (tree_at (contents_of base.now) k.ty)) constructors.now }
{
    constructors.iter().all(|k| tree_passes(base, test, k.ty))
}

fn all_constructors_pass(base: &BaseStore, test: Test, types: &[BlockType]) -> bool
    requires { All (IsTypeIn (contents_of base.now)) types.now }
    ensures { result ≡ list_all (constructors_test (contents_of base.now) test) types.now }
{
    types
        .iter()
        .all(|t| constructors_pass(base, test, &t.constructors))
}

fn rules_pass(base: &BaseStore, test: Test, rules: &[RecursorRule]) -> bool
    requires { All (IsRuleIn (contents_of base.now)) rules.now }
    ensures { result ≡ list_all (λ r. passes test
        (tree_at (contents_of base.now) r.value)) rules.now }
{
    rules.iter().all(|r| tree_passes(base, test, r.value))
}

fn recursor_passes(base: &BaseStore, test: Test, recursor: &Recursor) -> bool
    requires { IsRecursorIn (contents_of base.now) recursor.now }
    ensures { result ≡ recursor_test (contents_of base.now) test recursor.now }
{
    tree_passes(base, test, recursor.ty) && rules_pass(base, test, &recursor.rules)
}

fn recursors_pass(base: &BaseStore, test: Test, recursors: &[Recursor]) -> bool
    requires { All (IsRecursorIn (contents_of base.now)) recursors.now }
    ensures { result ≡ list_all (recursor_test (contents_of base.now) test) recursors.now }
{
    recursors.iter().all(|r| recursor_passes(base, test, r))
}

fn block_passes(base: &BaseStore, test: Test, block: &Block) -> bool
    requires { IsUnitIn (contents_of base.now) (Unit.Block block.now) }
    ensures { result
        ≡ list_all (λ e. passes test e.1)
        (trees_of (unit_at (contents_of base.now) (Unit.Block block.now))) }
{
    if !types_pass(base, test, &block.types) {
        return false;
    }
    if !all_constructors_pass(base, test, &block.types) {
        return false;
    }
    recursors_pass(base, test, &block.recursors)
}

fn unit_passes(base: &BaseStore, test: Test, unit: &Unit) -> bool
    requires { IsUnitIn (contents_of base.now) unit.now }
    ensures { result ≡ list_all (λ e. passes test e.1)
        (trees_of (unit_at (contents_of base.now) unit.now)) }
{
    match unit {
        Unit::Declaration(d) => {
            tree_passes(base, test, u64::from(d.ty)) && body_passes(base, test, d.body)
        }
        Unit::Block(block) => block_passes(base, test, block),
    }
}

/// Whether each tree of a unit is closed and holds no Local.
#[tactic(auto, using(crate::proofs::Trees::closed_pass))]
pub fn are_closed(base: &BaseStore, unit: &Unit) -> bool
    requires { IsUnitIn (contents_of base.now) unit.now }
    ensures { result ≡ all_bound (trees_of (unit_at (contents_of base.now) unit.now)) }
{
    unit_passes(base, Test::Closed, unit)
}

/// Whether no tree of a unit has a wide literal.
#[tactic(auto, using(crate::proofs::Trees::narrow_pass))]
pub fn are_narrow(base: &BaseStore, unit: &Unit) -> bool
    requires { IsUnitIn (contents_of base.now) unit.now }
    ensures { result ≡ all_narrow (trees_of (unit_at (contents_of base.now) unit.now)) }
{
    unit_passes(base, Test::Narrow, unit)
}

/// The flaw of a unit, if it has one: first a tree that is not closed, then a wide literal.
fn flaw_of(base: &BaseStore, unit: &Unit) -> Option<Rule>
    requires { IsUnitIn (contents_of base.now) unit.now }
    ensures { result ≡ rule_against (unit_at (contents_of base.now) unit.now) }
{
    if !are_closed(base, unit) {
        Some(Rule::LooseVariable)
    } else if !are_narrow(base, unit) {
        Some(Rule::WideLiteral)
    } else {
        None
    }
}

/// The flaw of each unit.
pub(crate) fn flaws_of(
    alloc: Global,
    base: &BaseStore,
    units: &[Unit],
) -> Result<Vec<Option<Rule>>, NoMemory>
    requires { AreUnitsIn (contents_of base.now) units.now }
    ensures { IfOk result (λ flaws. AreFlaws (contents_of base.now) units.now flaws.items) }
{
    let mut flaws = Vec::new(alloc);
    for unit in units {
        flaws.push(flaw_of(base, unit))?;
    }
    Ok(flaws)
}
