//! The axioms of each unit of a library.

ghost use Rattle.std.specs.Prelude.{◌≡◌, ◌<◌, [], length, map, All, IfOk, slice_index_or};
ghost use Rattle.lk_env.specs.Units.{library_of};
ghost use Rattle.lk_axioms.specs.Lists.{axiom_lists, set_at, KeepsAxioms, HasEmptySet};

use crate::gathering::Gathering;
use crate::sets::Sets;
use crate::units::gather_units;
use lk_env::library::Library;
use lk_store::memory::NoMemory;
use lk_store::terms::Terms;
use std::alloc::Global;
use std::marker::Model;
use std::mem::drop;

/// For each unit its axioms. Units with the same axioms mostly share one set.
#[derive(Drop)]
pub struct AxiomSets {
    sets: Sets,
    /// The number of each unit's set.
    units: Vec<u32>,
}

impl Model for AxiomSets {
    ghost use Rattle.std.specs.Prelude.{ℕ, List, map, ◌<◌, length, All};
    ghost use Rattle.lk_axioms.specs.Lists.{set_at, HasEmptySet};

    ghost Value = { List (List ℕ) };

    ghost view = { λ s. map (set_at s.sets) s.units.items };

    ghost invariant = { λ s. All (λ k. k < length s.sets) s.units.items × HasEmptySet s.sets };
}

impl AxiomSets {
    /// The sets of no unit.
    pub fn none(alloc: Global) -> Result<AxiomSets, NoMemory>
        ensures { IfOk result (λ sets. sets ≡ []) }
    {
        Ok(AxiomSets {
            sets: Sets::new(alloc)?,
            units: Vec::new(alloc),
        })
    }

    /// The axioms of a unit, rising. It takes no memory.
    pub fn of(&self, unit: usize) -> &[u32]
        requires { unit < length self.now }
        ensures { result.now ≡ slice_index_or self.now unit [] }
    {
        self.sets.get(self.units[unit])
    }
}

/// The sets as they were gathered.
fn finish(gathering: Gathering) -> AxiomSets
    requires inside { All (λ k. k < length gathering.sets) gathering.units.items }
    requires empty { HasEmptySet gathering.sets }
    ensures { result ≡ map (set_at gathering.sets) gathering.units.items }
{
    let Gathering { sets, cells, units } = gathering;
    drop(cells);
    AxiomSets { sets, units }
}

/// The axioms of each unit: itself where it is one, and all that its names lead to.
pub fn uses(alloc: Global, library: &Library) -> Result<AxiomSets, NoMemory>
    ensures { IfOk result (λ sets. sets ≡ axiom_lists (library_of library.now)) }
{
    let none = AxiomSets::none(alloc)?;
    uses_again(alloc, library, none, &[])
}

/// The axioms of each unit again, behind a change of the library. `kept` are those of the units
/// before it: a unit that is marked as not stale has the same still, and the others alone are walked,
/// those without a mark too.
pub fn uses_again(
    alloc: Global,
    library: &Library,
    kept: AxiomSets,
    stale: &[bool],
) -> Result<AxiomSets, NoMemory>
    requires kept { KeepsAxioms (library_of library.now) kept stale.now }
    ensures { IfOk result (λ sets. sets ≡ axiom_lists (library_of library.now)) }
{
    let AxiomSets { sets, units } = kept;
    let mut gathering = Gathering::new(alloc, sets, library.base().len(), library.units().len())?;
    gather_units(alloc, library, &mut gathering, &units, stale)?;
    Ok(finish(gathering))
}
