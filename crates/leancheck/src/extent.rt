//! How much is told of a library, and under which policy on axioms.

ghost use Rattle.std.specs.Prelude.{◌≡◌, map, option_map, IfOk, OnOk};
ghost use Rattle.lk_axioms.specs.Lists.{axiom_lists};
ghost use Rattle.lk_env.specs.Units.{library_of};
ghost use Rattle.lk_verdict.specs.Held.{verdict};
ghost use Rattle.lk_text.specs.Policy.{policy_of, all_under};
ghost use Rattle.leancheck.specs.Extents.{text_of};

use lk_axioms::{AxiomSets, uses};
use lk_env::library::Library;
use lk_store::memory::NoMemory;
use lk_text::{Policy, apply, report, summary};
use lk_verdict::Verdict;
use std::alloc::Global;

/// How much is told of a library.
#[derive(Clone, Copy)]
pub enum Extent {
    /// The lines of all its units, with their axioms, and the last line.
    Report,
    /// The last line alone.
    Summary,
}

/// What is told of a library whose units have these verdicts and use these axioms.
fn told(
    alloc: Global,
    extent: Extent,
    library: &Library,
    axioms: &AxiomSets,
    verdicts: &[Verdict],
) -> Result<Vec<u8>, NoMemory>
    requires { axioms.now ≡ axiom_lists (library_of library.now) }
    ensures { IfOk result (λ v. v.items ≡ text_of extent (library_of library.now)
        (map verdict verdicts.now)) }
{
    match extent {
        Extent::Report => report(alloc, library, axioms, verdicts),
        Extent::Summary => summary(alloc, verdicts),
    }
}

/// Judges the verdicts under a policy on axioms, and tells what they are then.
fn judged(
    alloc: Global,
    extent: Extent,
    library: &Library,
    policy: &Policy,
    verdicts: &mut Vec<Verdict>,
) -> Result<Vec<u8>, NoMemory>
    ensures judged { OnOk result (map verdict verdicts.new.items
        ≡ all_under policy.now (library_of library.now) 0 (map verdict verdicts.old.items)) }
    ensures text { IfOk result (λ v. v.items ≡ text_of extent (library_of library.now)
        (map verdict verdicts.new.items)) }
{
    let axioms = uses(alloc, library)?;
    apply(alloc, library, &axioms, policy, verdicts)?;
    told(alloc, extent, library, &axioms, verdicts)
}

/// What is told of a library whose units have these verdicts. Where the last line alone is told,
/// nothing is asked of axioms.
fn text_of(
    alloc: Global,
    extent: Extent,
    library: &Library,
    verdicts: &[Verdict],
) -> Result<Vec<u8>, NoMemory>
    ensures { IfOk result (λ v. v.items ≡ text_of extent (library_of library.now)
        (map verdict verdicts.now)) }
{
    match extent {
        Extent::Report => {
            let axioms = uses(alloc, library)?;
            report(alloc, library, &axioms, verdicts)
        }
        Extent::Summary => summary(alloc, verdicts),
    }
}

/// Judges the verdicts of a library's units under the policy that a list of allowed axioms states,
/// and tells what they are then. Without a list every axiom is allowed.
pub fn judged_text(
    alloc: Global,
    extent: Extent,
    library: &Library,
    allowed: Option<&str>,
    verdicts: &mut Vec<Verdict>,
) -> Result<Vec<u8>, NoMemory>
    ensures judged { OnOk result (map verdict verdicts.new.items
        ≡ all_under (policy_of (option_map (λ t. t.now) allowed.entry)) (library_of library.now) 0
        (map verdict verdicts.old.items)) }
    ensures text { IfOk result (λ v. v.items ≡ text_of extent (library_of library.now)
        (map verdict verdicts.new.items)) }
{
    match allowed {
        None => text_of(alloc, extent, library, verdicts),
        Some(_) => {
            let policy = Policy::new(alloc, allowed)?;
            judged(alloc, extent, library, &policy, verdicts)
        }
    }
}
