//! A number for each thing: trees come first, then lists of recursors, names and units.

ghost use Rattle.std.specs.Prelude.{◌≡◌, ◌+◌, ◌<◌, ◌^◌, IfOk};
ghost use Rattle.lk_needs.specs.Marks.{IsThing};
ghost use Rattle.lk_needs.specs.Leads.{room_at};
ghost use Rattle.lk_recheck.specs.Sources.{slot, slots};
ghost use Rattle.lk_recheck.specs.Counts.{room_by, AreFew, IsThingAt, IsCountOf};
ghost use Rattle.lk_recheck.specs.Built.{stored_at};

use crate::counts::Counts;
use lk_env::unit::Unit;
use lk_needs::thing::Thing;
use lk_store::base_store::BaseStore;
use lk_store::memory::NoMemory;
use lk_store::terms::Terms;

/// How many trees and lists of recursors there are: what they lead to, the store alone says.
pub(crate) fn listed(counts: &Counts) -> u32
    requires { AreFew counts.now }
    ensures { result ≡ (room_by counts.now).trees + (room_by counts.now).numbered }
{
    counts.trees + counts.names
}

/// How many things there are in all.
pub(crate) fn total(counts: &Counts) -> u32
    requires { AreFew counts.now }
    ensures { result ≡ slots (room_by counts.now) }
{
    listed(counts) + counts.names + counts.units
}

/// The number of a thing.
pub(crate) fn slot_of(counts: &Counts, thing: Thing) -> u32
    requires few { AreFew counts.now }
    requires thing_in { IsThing (room_by counts.now) thing }
    ensures { result ≡ slot (room_by counts.now) thing }
{
    match thing {
        Thing::Unit(u) => listed(counts) + counts.names + u,
        Thing::Name(n) => listed(counts) + n as u32,
        Thing::Tree(e) => e as u32,
        Thing::Numbered(n) => counts.trees + n as u32,
    }
}

/// The thing of a number.
pub(crate) fn thing_at(counts: &Counts, slot: u32) -> Thing
    requires few { AreFew counts.now }
    requires slot_in { slot < slots (room_by counts.now) }
    ensures { IsThingAt (room_by counts.now) slot result }
{
    let names = listed(counts);
    let units = names + counts.names;
    if slot < counts.trees {
        Thing::Tree(u64::from(slot))
    } else if slot < names {
        Thing::Numbered(u64::from(slot - counts.trees))
    } else if slot < units {
        Thing::Name(u64::from(slot - names))
    } else {
        Thing::Unit(slot - units)
    }
}

/// How many things there are in a store and units. Things are fewer than 2^32; more are want of
/// memory.
pub(crate) fn counts_of(base: &BaseStore, units: &[Unit]) -> Result<Counts, NoMemory>
    ensures { IfOk result (IsCountOf (room_at (stored_at base.now units.now))) }
{
    let names = base.count_names();
    let trees = base.len();
    let count = units.len() as u64;
    let bound = u64::from(u32::MAX);
    if names > bound || trees > bound || count > bound {
        return Err(NoMemory);
    }
    if count + names + trees + names > bound {
        return Err(NoMemory);
    }
    Ok(Counts {
        units: count as u32,
        names: names as u32,
        trees: trees as u32,
    })
}
