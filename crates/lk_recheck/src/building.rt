//! All that things lead to, turned round.

ghost use Rattle.std.specs.Prelude.{◌≡◌, ◌<◌, ◌+◌, [], ◌++◌, All, length, IfOk, OnOk};
ghost use Rattle.lk_store.specs.Contents.{name_at};
ghost use Rattle.lk_store.specs.Store.{contents_of};
ghost use Rattle.lk_env.specs.Units.{library_at, AreUnitsIn};
ghost use Rattle.lk_env.specs.Places.{position_in};
ghost use Rattle.lk_env.specs.Index.{IsIndex};
ghost use Rattle.lk_needs.specs.Marks.{IsThing};
ghost use Rattle.lk_needs.specs.Things.{giver_things};
ghost use Rattle.lk_needs.specs.Leads.{room_at, IsOfLibrary, AreRecursors, Leads};
ghost use Rattle.lk_recheck.specs.Sources.{listed, slots, IsTerm, AreMore};
ghost use Rattle.lk_recheck.specs.Counts.{room_by, IsCountOf, IsTable};
ghost use Rattle.lk_recheck.specs.Built.{stored_at, AreLinksOf, IsBuiltTo, IsBuilt};

use crate::counts::Counts;
use crate::slots::{counts_of, listed, slot_of, thing_at, total};
use crate::sources::Sources;
use lk_env::index::index_of;
use lk_env::position::Position;
use lk_env::unit::Unit;
use lk_needs::builtins::list_builtins;
use lk_needs::listing::{push_names, push_node, push_unit};
use lk_needs::opening::{Recursors, recursors_of};
use lk_needs::thing::Thing;
use lk_store::base_store::BaseStore;
use lk_store::memory::NoMemory;
use lk_store::terms::Terms;
use std::alloc::Global;

/// The first unit that gives a name.
fn push_giver(
    things: &mut Vec<Thing>,
    base: &BaseStore,
    units: &[Unit],
    givers: &[Option<Position>],
    name: u64,
) -> Result<(), NoMemory>
    requires index { IsIndex (contents_of base.now) units.now givers.now }
    requires name_in { name < length (contents_of base.now).names }
    ensures { OnOk result (things.new.items ≡ things.old.items
        ++ giver_things (position_in 0 (library_at (contents_of base.now) units.now)
        (name_at (contents_of base.now) name))) }
{
    match givers[name as usize] {
        Some(position) => things.push(Thing::Unit(position.unit))?,
        None => {}
    }
    Ok(())
}

/// Lists what a tree or a list of recursors leads to. What stood in the list is gone.
fn list_term(
    things: &mut Vec<Thing>,
    base: &BaseStore,
    recursors: &Recursors,
    thing: Thing,
) -> Result<(), NoMemory>
    requires thing_in { IsOfLibrary (stored_at base.now []) thing }
    requires is_term { IsTerm thing }
    requires recursors { AreRecursors (contents_of base.now) recursors.now }
    ensures { OnOk result (Leads (stored_at base.now []) 0 thing things.new.items) }
{
    things.clear();
    match thing {
        Thing::Tree(e) => push_node(things, base.view(e)),
        Thing::Numbered(name) => push_names(things, recursors.numbered.of(name)),
        Thing::Unit(_) | Thing::Name(_) => unreachable!(),
    }
}

/// Lists what a unit or a name leads to, where names are looked up behind all units. What stood in
/// the list is gone.
fn list_things(
    things: &mut Vec<Thing>,
    base: &BaseStore,
    units: &[Unit],
    givers: &[Option<Position>],
    recursors: &Recursors,
    thing: Thing,
) -> Result<(), NoMemory>
    requires thing_in { IsOfLibrary (stored_at base.now units.now) thing }
    requires no_term { IsTerm thing → ⊥ }
    requires units_in { AreUnitsIn (contents_of base.now) units.now }
    requires index { IsIndex (contents_of base.now) units.now givers.now }
    requires recursors { AreRecursors (contents_of base.now) recursors.now }
    ensures { OnOk result (Leads (stored_at base.now units.now) (length units.now) thing
        things.new.items) }
{
    things.clear();
    match thing {
        Thing::Unit(u) => push_unit(things, base, &recursors.plain, &units[u as usize]),
        Thing::Name(name) => push_giver(things, base, units, givers, name),
        Thing::Tree(_) | Thing::Numbered(_) => unreachable!(),
    }
}

/// The thing of a number leads to all these.
fn add_all(
    sources: &mut Sources,
    counts: &Counts,
    source: u32,
    things: &[Thing],
) -> Result<(), NoMemory>
    requires table { IsTable counts.now sources.old }
    requires source_in { source < slots (room_by counts.now) }
    requires things_in { All (IsThing (room_by counts.now)) things.now }
    ensures { OnOk result (AreMore (room_by counts.now) sources.old sources.new source things.now) }
{
    for thing in things {
        let target = slot_of(counts, *thing);
        sources.add(source, target)?;
    }
    Ok(())
}

/// What the tree or the list of recursors of this number leads to, turned round.
fn turn_term(
    sources: &mut Sources,
    things: &mut Vec<Thing>,
    base: &BaseStore,
    recursors: &Recursors,
    counts: &Counts,
    slot: u32,
) -> Result<(), NoMemory>
    requires count { IsCountOf (room_at (stored_at base.now [])) counts.now }
    requires recursors { AreRecursors (contents_of base.now) recursors.now }
    requires slot_in { slot < listed (room_by counts.now) }
    requires before { IsBuiltTo (stored_at base.now []) slot sources.old }
    ensures { OnOk result (IsBuiltTo (stored_at base.now []) (slot + 1) sources.new) }
{
    let thing = thing_at(counts, slot);
    list_term(things, base, recursors, thing)?;
    add_all(sources, counts, slot, things)
}

/// What a store leads to whatever the units are: the trees and the lists of recursors turned round,
/// the names of recursors, and the built-in names.
#[derive(Drop)]
pub struct StoreLinks {
    pub(crate) sources: Sources,
    pub(crate) recursors: Recursors,
    pub(crate) builtins: Vec<Thing>,
}

/// Looks through each tree and each list of recursors of a store, once.
pub fn store_links(alloc: Global, base: &BaseStore) -> Result<StoreLinks, NoMemory>
    ensures { IfOk result (AreLinksOf base.now) }
{
    let counts = counts_of(base, &[])?;
    let recursors = recursors_of(alloc, base)?;
    let mut sources = Sources::new(alloc, total(&counts))?;
    let mut things = Vec::new(alloc);
    for slot in 0..listed(&counts) {
        turn_term(&mut sources, &mut things, base, &recursors, &counts, slot)?;
    }
    let mut builtins = Vec::new(alloc);
    list_builtins(base, &mut builtins)?;
    Ok(StoreLinks {
        sources,
        recursors,
        builtins,
    })
}

/// All that leads to each thing. Each unit and each name is looked through once; of trees and lists
/// of recursors it is known.
pub(crate) fn sources_of(
    alloc: Global,
    base: &BaseStore,
    links: &StoreLinks,
    units: &[Unit],
    counts: &Counts,
) -> Result<Sources, NoMemory>
    requires count { IsCountOf (room_at (stored_at base.now units.now)) counts.now }
    requires units_in { AreUnitsIn (contents_of base.now) units.now }
    requires links { AreLinksOf base.now links.now }
    ensures { IfOk result (IsBuilt (stored_at base.now units.now)) }
{
    let givers = index_of(alloc, base, units)?;
    let count = total(counts);
    let mut sources = links.sources.with_room(alloc, count)?;
    let mut things = Vec::new(alloc);
    for slot in listed(counts)..count {
        let thing = thing_at(counts, slot);
        list_things(&mut things, base, units, &givers, &links.recursors, thing)?;
        add_all(&mut sources, counts, slot, &things)?;
    }
    Ok(sources)
}
