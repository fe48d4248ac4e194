//! Verdicts under a policy.

ghost use Rattle.std.specs.Prelude.{◌≡◌, map, true, IfOk, OnOk, slice_index_or};
ghost use Rattle.std.specs.List.{list_all};
ghost use Rattle.lk_reach.specs.Axioms.{is_axiom as is_axiom_unit};
ghost use Rattle.lk_reach.specs.Computed.{axioms_of};
ghost use Rattle.lk_store.specs.Contents.{Contents};
ghost use Rattle.lk_store.specs.Store.{contents_of};
ghost use Rattle.lk_env.specs.Units.{unit_at, library_of, IsUnitIn};
ghost use Rattle.lk_axioms.specs.Lists.{axiom_lists};
ghost use Rattle.lk_verdict.specs.Held.{verdict};
ghost use Rattle.lk_text.specs.Marks.{mark_of, marks_of};
ghost use Rattle.lk_text.specs.Policy.{Policy as Allowed, allows_all, under, all_under};

use crate::policy::Policy;
use crate::units::{Writing, write_name};
use lk_axioms::AxiomSets;
use lk_env::library::Library;
use lk_env::unit::{Body, Unit};
use lk_store::memory::NoMemory;
use lk_tree::rule::Rule;
use lk_verdict::Verdict;
use std::alloc::Global;

/// Whether a unit is an axiom. Constants of quotient types are none.
fn is_axiom(unit: &Unit) -> bool
    ensures { (c : Contents) → result ≡ is_axiom_unit (unit_at c unit.now) }
{
    match unit {
        Unit::Declaration(declaration) => matches!(declaration.body, Body::Axiom),
        Unit::Block(_) => false,
    }
}

/// The mark of a unit: of an axiom whether it is allowed. No other unit's name is written.
fn mark_of(
    writing: &mut Writing,
    library: &Library,
    policy: &Policy<'_>,
    unit: &Unit,
) -> Result<bool, NoMemory>
    requires { IsUnitIn (contents_of library.now.tables) unit.now }
    ensures { IfOk result (λ m. m
        ≡ mark_of policy.now (unit_at (contents_of library.now.tables) unit.now)) }
{
    if !is_axiom(unit) {
        return Ok(true);
    }
    write_name(writing, library, unit)?;
    Ok(policy.allows_name(&writing.name))
}

/// The marks of all units.
fn marks_of(alloc: Global, library: &Library, policy: &Policy<'_>) -> Result<Vec<bool>, NoMemory>
    ensures { IfOk result (λ v. v.items ≡ marks_of policy.now (library_of library.now)) }
{
    let mut writing = Writing::new(alloc);
    let mut marks = Vec::with_capacity(alloc, library.units().len())?;
    let mut left = library.units();
    while let Some((unit, more)) = left.split_first() {
        marks.push(mark_of(&mut writing, library, policy, unit)?)?;
        left = more;
    }
    Ok(marks)
}

/// Whether a unit with these axioms has a good mark at each of them.
fn are_marked(marks: &[bool], axioms: &[u32]) -> bool
    ensures { result ≡ list_all (λ k. slice_index_or marks.now k true) axioms.now }
{
    axioms
        .iter()
        .all(|k| marks.get(*k as usize).copied().unwrap_or(true))
}

/// Whether all axioms of a unit are allowed.
fn allows_unit(marks: &[bool], library: &Library, axioms: &AxiomSets, unit: usize) -> bool
    requires { axioms.now ≡ axiom_lists (library_of library.now) }
    ensures { (p : Allowed) → marks.now ≡ marks_of p (library_of library.now)
        → result ≡ allows_all p (library_of library.now) (axioms_of (library_of library.now) unit) }
{
    if unit >= library.units().len() {
        return true;
    }
    are_marked(marks, axioms.of(unit))
}

/// The verdict of a unit under the policy of which these are the marks.
fn under(
    marks: &[bool],
    library: &Library,
    axioms: &AxiomSets,
    unit: usize,
    said: Verdict,
) -> Verdict
    requires { axioms.now ≡ axiom_lists (library_of library.now) }
    ensures { (p : Allowed) → marks.now ≡ marks_of p (library_of library.now)
        → verdict result ≡ under p (library_of library.now) unit (verdict said) }
{
    match said {
        Verdict::Yes => {
            if allows_unit(marks, library, axioms, unit) {
                Verdict::Yes
            } else {
                Verdict::No(Rule::AxiomNotAllowed)
            }
        }
        Verdict::No(rule) => Verdict::No(rule),
        Verdict::Steps => Verdict::Steps,
        Verdict::Memory => Verdict::Memory,
    }
}

/// Puts the verdicts of the units, from the first one on, under a policy: a yes stays where each
/// axiom of the unit is allowed. The name of each axiom is written once. A verdict beyond the units
/// stays.
pub fn apply(
    alloc: Global,
    library: &Library,
    axioms: &AxiomSets,
    policy: &Policy<'_>,
    verdicts: &mut [Verdict],
) -> Result<(), NoMemory>
    requires { axioms.now ≡ axiom_lists (library_of library.now) }
    ensures { OnOk result (map verdict verdicts.new
        ≡ all_under policy.now (library_of library.now) 0 (map verdict verdicts.old)) }
{
    if policy.allows_every() {
        return Ok(());
    }
    let marks = marks_of(alloc, library, policy)?;
    for unit in 0..verdicts.len() {
        verdicts[unit] = under(&marks, library, axioms, unit, verdicts[unit]);
    }
    Ok(())
}
