//! The places of members in hash maps.

ghost use Rattle.std.specs.Prelude.{◌≡◌, ◌<◌, ℕ, Some, None, nat_eq, true, length, map, OnOk, if◌then◌else◌};
ghost use Rattle.std.specs.HashMap as hash_map;
ghost use Rattle.std.specs.HashSet as hash_set;
ghost use Rattle.lk_members.specs.Lines.{has, or_next};
ghost use Rattle.lk_members.specs.declared.members.Key.{Key};
ghost use Rattle.lk_members.specs.Indices.{key_eq};
ghost use Rattle.lk_members.specs.Taking.{with_place};

use crate::members::Key;
use lk_store::memory::NoMemory;
use std::collections::{HashMap, HashSet};

/// Gives the name this place, where it has none.
pub(crate) fn put_first(
    places: &mut HashMap<u64, u32>,
    name: u64,
    place: u32,
) -> Result<(), NoMemory>
    ensures { OnOk result ((q : ℕ) → hash_map.get nat_eq places.new q
        ≡ or_next (hash_map.get nat_eq places.old q) (if nat_eq name q then Some place else None)) }
{
    if places.contains_key(&name) {
        return Ok(());
    }
    match places.insert(name, place) {
        Ok(_) => Ok(()),
        Err(_) => Err(NoMemory),
    }
}

/// Gives each of the names this place, where it has none.
pub(crate) fn put_each(
    places: &mut HashMap<u64, u32>,
    names: &[u64],
    place: u32,
) -> Result<(), NoMemory>
    ensures { OnOk result ((q : ℕ) → hash_map.get nat_eq places.new q
        ≡ or_next (hash_map.get nat_eq places.old q)
        (if has nat_eq names.now q then Some place else None)) }
{
    for name in names {
        put_first(places, *name, place)?;
    }
    Ok(())
}

/// Gives the member this place, where it has none.
pub(crate) fn put_member(
    places: &mut HashMap<Key, u32>,
    member: Key,
    place: u32,
) -> Result<(), NoMemory>
    ensures { OnOk result ((q : Key) → hash_map.get key_eq places.new q
        ≡ or_next (hash_map.get key_eq places.old q)
        (if key_eq member q then Some place else None)) }
{
    if places.contains_key(&member) {
        return Ok(());
    }
    match places.insert(member, place) {
        Ok(_) => Ok(()),
        Err(_) => Err(NoMemory),
    }
}

/// Adds the member.
pub(crate) fn add_member(members: &mut HashSet<Key>, member: Key) -> Result<(), NoMemory>
    ensures { OnOk result ((q : Key) → hash_set.contains key_eq members.new q
        ≡ (if key_eq member q then true else hash_set.contains key_eq members.old q)) }
{
    match members.insert(member) {
        Ok(_) => Ok(()),
        Err(_) => Err(NoMemory),
    }
}

/// Adds a place to one of the groups.
pub(crate) fn add_place(groups: &mut Vec<Vec<u32>>, group: u64, place: u32) -> Result<(), NoMemory>
    requires { group < length groups.old.items }
    ensures { OnOk result (map (λ g. g.items) groups.new.items
        ≡ with_place (map (λ g. g.items) groups.old.items) group place) }
{
    groups[group as usize].push(place)?;
    Ok(())
}
