//! Marks on all that leads to a unit that changed.

ghost use Rattle.std.specs.Prelude.{◌≡◌, ◌<◌, ◌+◌, ◌↔◌, ◌⊎◌, Bool, List, All, length, IsTrue};
ghost use Rattle.std.specs.Prelude.{slice_get, true, IfOk, OnOk};
ghost use Rattle.lk_needs.specs.Marks.{Room, IsThing, room_of, mark_of, IsMarkedUnit};
ghost use Rattle.lk_recheck.specs.declared.sources.Sources.{Sources as Chains};
ghost use Rattle.lk_recheck.specs.Sources.{slots};
ghost use Rattle.lk_recheck.specs.Counts.{room_by, IsTable};
ghost use Rattle.lk_recheck.specs.Hits.{IsOpen, AreStartedTo, IsSpreading, IsSpread, Passes, Steps};
ghost use Rattle.lk_recheck.specs.Hits.{AreWithin, AnyMarked, IsMarking, TellHits};

use crate::counts::Counts;
use crate::slots::{slot_of, thing_at};
use crate::sources::Sources;
use lk_needs::needs::Needs;
use lk_needs::thing::Thing;
use lk_store::memory::NoMemory;
use std::alloc::Global;

/// Marks all that leads to the thing of a number.
fn pass_on(
    sources: &Sources,
    counts: &Counts,
    hits: &mut Needs,
    target: u32,
) -> Result<(), NoMemory>
    requires table { IsTable counts.now sources.now }
    requires target_in { target < slots (room_by counts.now) }
    requires room { room_of hits.old ≡ room_by counts.now }
    ensures { OnOk result (Passes (room_by counts.now) sources.now target hits.old hits.new) }
{
    let mut place = sources.last(target);
    'back: while place != 0 {
        let link = sources.links[place as usize - 1];
        hits.enter(thing_at(counts, link.source))?;
        place = link.previous;
    }
    Ok(())
}

/// Whether it is no unit, or one of the first ones.
fn is_open(units: u32, thing: Thing) -> bool
    ensures { IsTrue result ↔ IsOpen units thing }
{
    match thing {
        Thing::Unit(u) => u < units,
        Thing::Name(_) => true,
        Thing::Tree(_) => true,
        Thing::Numbered(_) => true,
    }
}

/// Marks all that leads to a thing, unless it is a unit behind the first ones.
fn pass_if_open(
    sources: &Sources,
    counts: &Counts,
    hits: &mut Needs,
    units: u32,
    thing: Thing,
) -> Result<(), NoMemory>
    requires table { IsTable counts.now sources.now }
    requires thing_in { IsThing (room_by counts.now) thing }
    requires room { room_of hits.old ≡ room_by counts.now }
    ensures { OnOk result (Steps (room_by counts.now) sources.now units thing hits.old hits.new) }
{
    if is_open(units, thing) {
        let target = slot_of(counts, thing);
        pass_on(sources, counts, hits, target)
    } else {
        Ok(())
    }
}

/// Passes on what waits until nothing does.
fn spread(sources: &Sources, counts: &Counts, hits: &mut Needs, units: u32) -> Result<(), NoMemory>
    requires table { IsTable counts.now sources.now }
    requires within { AreWithin (room_by counts.now) hits.old }
    ensures within { OnOk result (AreWithin (room_by counts.now) hits.new) }
    ensures spread { OnOk result ((changed : List Bool)
        → IsSpreading (room_by counts.now) sources.now changed units hits.old
        → IsSpread (room_by counts.now) sources.now changed units hits.new) }
{
    'waiting: while let Some(thing) = hits.waiting.pop() {
        pass_if_open(sources, counts, hits, units, thing)?;
    }
    Ok(())
}

/// A unit that is marked is passed on from now on.
fn open(hits: &mut Needs, unit: u32) -> Result<(), NoMemory>
    requires within { AreWithin (room_of hits.old) hits.old }
    requires unit_in { unit < length hits.old.units.items }
    ensures within { OnOk result (AreWithin (room_of hits.old) hits.new) }
    ensures opened { OnOk result ((r : Room) (t : Chains) (changed : List Bool)
        → IsSpread r t changed unit hits.old → IsSpreading r t changed (unit + 1) hits.new) }
{
    if hits.units[unit as usize] {
        hits.waiting.push(Thing::Unit(unit))?;
    }
    Ok(())
}

fn is_marked(hits: &Needs, thing: Thing) -> bool
    requires { IsThing (room_of hits.now) thing }
    ensures { result ≡ mark_of hits.now thing }
{
    match thing {
        Thing::Unit(u) => hits.units[u as usize],
        Thing::Name(n) => hits.names[n as usize],
        Thing::Tree(e) => hits.trees[e as usize],
        Thing::Numbered(n) => hits.numbered[n as usize],
    }
}

fn any_marked(hits: &Needs, things: &[Thing]) -> bool
    requires { All (IsThing (room_of hits.now)) things.now }
    ensures { IsTrue result ↔ AnyMarked hits.now things.now }
{
    for thing in things {
        if is_marked(hits, *thing) {
            return true;
        }
    }
    false
}

/// Whether the unit or one of the things is marked.
fn is_hit(hits: &Needs, things: &[Thing], unit: u32) -> bool
    requires things_in { All (IsThing (room_of hits.now)) things.now }
    requires unit_in { unit < length hits.now.units.items }
    ensures { IsTrue result ↔ (IsMarkedUnit hits.now unit ⊎ AnyMarked hits.now things.now) }
{
    if is_marked(hits, Thing::Unit(unit)) {
        return true;
    }
    any_marked(hits, things)
}

/// Marks one unit more, and then passes it on.
fn mark_unit(
    marks: &mut Vec<bool>,
    sources: &Sources,
    counts: &Counts,
    hits: &mut Needs,
    things: &[Thing],
    unit: u32,
) -> Result<(), NoMemory>
    requires table { IsTable counts.now sources.now }
    requires within { AreWithin (room_by counts.now) hits.old }
    requires things_in { All (IsThing (room_by counts.now)) things.now }
    requires unit_in { unit < counts.now.units }
    ensures within { OnOk result (AreWithin (room_by counts.now) hits.new) }
    ensures marked { OnOk result ((changed : List Bool)
        → IsMarking (room_by counts.now) sources.now changed things.now unit hits.old
        marks.old.items
        → IsMarking (room_by counts.now) sources.now changed things.now (unit + 1) hits.new
        marks.new.items) }
{
    marks.push(is_hit(hits, things, unit))?;
    open(hits, unit)?;
    spread(sources, counts, hits, unit + 1)
}

fn is_changed(changed: &[bool], unit: u32) -> bool
    ensures { IsTrue result ↔ (slice_get changed.now unit ≡ Some true) }
{
    let i = unit as usize;
    if i < changed.len() { changed[i] } else { false }
}

fn mark_changed(changed: &[bool], hits: &mut Needs, unit: u32) -> Result<(), NoMemory>
    requires unit_in { unit < length hits.old.units.items }
    requires before { AreStartedTo (room_of hits.old) changed.now unit hits.old }
    ensures { OnOk result (AreStartedTo (room_of hits.old) changed.now (unit + 1) hits.new) }
{
    if is_changed(changed, unit) {
        hits.enter(Thing::Unit(unit))
    } else {
        Ok(())
    }
}

/// The units that changed are marked.
fn start(alloc: Global, counts: &Counts, changed: &[bool]) -> Result<Needs, NoMemory>
    ensures { IfOk result (AreStartedTo (room_by counts.now) changed.now counts.now.units) }
{
    let names = counts.names as usize;
    let mut hits = Needs::new(alloc, counts.units as usize, names, counts.trees as usize)?;
    for unit in 0..counts.units {
        mark_changed(changed, &mut hits, unit)?;
    }
    Ok(hits)
}

/// Marks each unit, where it or one of the things leads to what changed by way of the units before
/// it alone.
pub(crate) fn mark_units(
    alloc: Global,
    sources: &Sources,
    counts: &Counts,
    changed: &[bool],
    things: &[Thing],
) -> Result<Vec<bool>, NoMemory>
    requires table { IsTable counts.now sources.now }
    requires things_in { All (IsThing (room_by counts.now)) things.now }
    ensures { IfOk result (λ marks. TellHits (room_by counts.now) sources.now changed.now things.now
        counts.now.units marks.items) }
{
    let mut hits = start(alloc, counts, changed)?;
    spread(sources, counts, &mut hits, 0)?;
    let mut marks = Vec::new(alloc);
    for unit in 0..counts.units {
        mark_unit(&mut marks, sources, counts, &mut hits, things, unit)?;
    }
    Ok(marks)
}
