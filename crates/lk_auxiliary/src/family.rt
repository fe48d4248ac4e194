//! The auxiliary types of a family.

ghost use Rattle.std.specs.Prelude.{◌≡◌, ◌<◌, length, map, All, IfOk, OnOk};
ghost use Rattle.lk_tree.specs.Tree.{const};
ghost use Rattle.lk_tree.specs.Spine.{apply};
ghost use Rattle.lk_store.specs.Contents.{Contents, name_at, list_at, Extends, IsTree};
ghost use Rattle.lk_env.specs.Units.{type_at, IsTypeIn};
ghost use Rattle.lk_declaration.specs.Courses.{Settles};
ghost use Rattle.lk_family.specs.Families.{IsFamilyIn};
ghost use Rattle.lk_auxiliary.specs.Auxiliaries.{aux_at, auxs_at, IsAuxiliaryIn};
ghost use Rattle.lk_auxiliary.specs.Parts.{aux_form, family_form, one_other, more_others};
ghost use Rattle.lk_auxiliary.specs.Parts.{whole_parts, parts_at, aux_with, ArePartsIn};
ghost use Rattle.lk_auxiliary.specs.Places.{IsAtIn, levels_of, arguments_of};

use crate::auxiliary::Auxiliary;
use crate::instance::{At, at_args};
use crate::parts::{Parts, instance_of, parts_of};
use lk_ask::stop::Stop;
use lk_env::unit::BlockType;
use lk_family::Family;
use lk_family::copies::copy_type;
use lk_lists::names::names_equal;
use lk_store::memory::NoMemory;
use lk_store::terms::Terms;
use std::alloc::Global;

/// The auxiliary type of these parts.
fn auxiliary_with(
    alloc: Global,
    at: &At<'_>,
    name: u64,
    own: &BlockType,
    instance: u64,
    parts: Parts,
) -> Result<Auxiliary, NoMemory>
    ensures known { IfOk result (λ a. (c : Contents) → name < length c.names
        → IsTypeIn c own.now → at.now.list < length c.lists
        → All (λ x. x < length c.trees) at.now.arguments.now
        → IsTree c instance (apply (const (name_at c name) (list_at c at.now.list))
        (arguments_of c at.now)) → ArePartsIn c parts → IsAuxiliaryIn c a) }
    ensures value { IfOk result (λ a. (c : Contents) → aux_at c a
        ≡ aux_with (list_at c at.now.list) (arguments_of c at.now) (name_at c name)
        (type_at c own.now) (parts_at c parts)) }
{
    let kept = copy_type(alloc, own)?;
    let arguments = Vec::from_slice(alloc, at.arguments)?;
    let Parts {
        ty,
        indices,
        sort,
        constructors,
    } = parts;
    Ok(Auxiliary {
        name,
        own: kept,
        levels: at.list,
        arguments,
        instance,
        ty,
        indices,
        sort,
        constructors,
    })
}

/// The parts of a type at levels and arguments.
fn parts_at_args<T: Terms>(
    alloc: Global,
    terms: &mut T,
    at: &At<'_>,
    own: &BlockType,
) -> Result<Parts, Stop>
    requires at_in { IsAtIn (T.contents terms.old) at.now }
    requires own_in { IsTypeIn (T.contents terms.old) own.now }
    ensures keeps { Extends (T.contents terms.old) (T.contents terms.new) }
    ensures rest { T.rest terms.new ≡ T.rest terms.old }
    ensures known { IfOk result (ArePartsIn (T.contents terms.new)) }
    ensures parts { Settles (whole_parts at.now.first (levels_of (T.contents terms.old) at.now)
        (arguments_of (T.contents terms.old) at.now) (type_at (T.contents terms.old) own.now))
        (parts_at (T.contents terms.new)) result }
{
    let ty = at_args(alloc, terms, at, &own.levels, own.ty)?;
    parts_of(alloc, terms, at, own, ty)
}

/// A type at levels and arguments, as an auxiliary type of this name.
pub fn aux_of<T: Terms>(
    alloc: Global,
    terms: &mut T,
    at: &At<'_>,
    name: u64,
    own: &BlockType,
) -> Result<Auxiliary, Stop>
    requires at_in { IsAtIn (T.contents terms.old) at.now }
    requires name_in { name < length (T.contents terms.old).names }
    requires own_in { IsTypeIn (T.contents terms.old) own.now }
    ensures keeps { Extends (T.contents terms.old) (T.contents terms.new) }
    ensures rest { T.rest terms.new ≡ T.rest terms.old }
    ensures known { IfOk result (IsAuxiliaryIn (T.contents terms.new)) }
    ensures aux { Settles (aux_form at.now.first (levels_of (T.contents terms.old) at.now)
        (arguments_of (T.contents terms.old) at.now) (name_at (T.contents terms.old) name)
        (type_at (T.contents terms.old) own.now)) (aux_at (T.contents terms.new)) result }
{
    let parts = parts_at_args(alloc, terms, at, own)?;
    let instance = instance_of(terms, name, at.list, at.arguments)?;
    Ok(auxiliary_with(alloc, at, name, own, instance, parts)?)
}

/// A type that has another name, as an auxiliary type after others.
fn add_other<T: Terms>(
    alloc: Global,
    terms: &mut T,
    at: &At<'_>,
    name: u64,
    stated: &BlockType,
    found: &mut Vec<Auxiliary>,
) -> Result<(), Stop>
    requires at_in { IsAtIn (T.contents terms.old) at.now }
    requires name_in { name < length (T.contents terms.old).names }
    requires stated_in { IsTypeIn (T.contents terms.old) stated.now }
    requires found_in { All (IsAuxiliaryIn (T.contents terms.old)) found.old.items }
    ensures keeps { Extends (T.contents terms.old) (T.contents terms.new) }
    ensures rest { T.rest terms.new ≡ T.rest terms.old }
    ensures known { OnOk result (All (IsAuxiliaryIn (T.contents terms.new)) found.new.items) }
    ensures other { Settles (one_other at.now.first (levels_of (T.contents terms.old) at.now)
        (arguments_of (T.contents terms.old) at.now) (name_at (T.contents terms.old) name)
        (auxs_at (T.contents terms.old) found.old.items)
        (type_at (T.contents terms.old) stated.now))
        (λ u. auxs_at (T.contents terms.new) found.new.items) result }
{
    if names_equal(terms, name, stated.name) {
        return Ok(());
    }
    let other = aux_of(alloc, terms, at, stated.name, stated)?;
    match found.push(other) {
        Ok(_) => {}
        Err(_) => return Err(Stop::NoMemory),
    }
    Ok(())
}

/// The types of a block but the one of this name, in order, as auxiliary types after others.
fn add_others<T: Terms>(
    alloc: Global,
    terms: &mut T,
    at: &At<'_>,
    name: u64,
    types: &[BlockType],
    found: &mut Vec<Auxiliary>,
) -> Result<(), Stop>
    requires at_in { IsAtIn (T.contents terms.old) at.now }
    requires name_in { name < length (T.contents terms.old).names }
    requires types_in { All (IsTypeIn (T.contents terms.old)) types.now }
    requires found_in { All (IsAuxiliaryIn (T.contents terms.old)) found.old.items }
    ensures keeps { Extends (T.contents terms.old) (T.contents terms.new) }
    ensures rest { T.rest terms.new ≡ T.rest terms.old }
    ensures known { OnOk result (All (IsAuxiliaryIn (T.contents terms.new)) found.new.items) }
    ensures others { Settles (more_others at.now.first (levels_of (T.contents terms.old) at.now)
        (arguments_of (T.contents terms.old) at.now) (name_at (T.contents terms.old) name)
        (auxs_at (T.contents terms.old) found.old.items)
        (map (type_at (T.contents terms.old)) types.now))
        (λ u. auxs_at (T.contents terms.new) found.new.items) result }
{
    let mut rest = types;
    'types: while let Some((stated, more)) = rest.split_first() {
        add_other(alloc, terms, at, name, stated, found)?;
        rest = more;
    }
    Ok(())
}

/// A family at levels and arguments, as auxiliary types: the type of this name, and then the others of its block.
pub fn family_of<T: Terms>(
    alloc: Global,
    terms: &mut T,
    at: &At<'_>,
    name: u64,
    family: &Family,
) -> Result<Vec<Auxiliary>, Stop>
    requires at_in { IsAtIn (T.contents terms.old) at.now }
    requires name_in { name < length (T.contents terms.old).names }
    requires family_in { IsFamilyIn (T.contents terms.old) family.now }
    ensures keeps { Extends (T.contents terms.old) (T.contents terms.new) }
    ensures rest { T.rest terms.new ≡ T.rest terms.old }
    ensures known { IfOk result (λ v. All (IsAuxiliaryIn (T.contents terms.new)) v.items) }
    ensures family { Settles (family_form at.now.first (levels_of (T.contents terms.old) at.now)
        (arguments_of (T.contents terms.old) at.now) (name_at (T.contents terms.old) name)
        (map (type_at (T.contents terms.old)) family.now.types.items)
        (type_at (T.contents terms.old) family.now.own))
        (λ v. auxs_at (T.contents terms.new) v.items) result }
{
    let own = aux_of(alloc, terms, at, name, &family.own)?;
    let mut found: Vec<Auxiliary> = Vec::new(alloc);
    match found.push(own) {
        Ok(_) => {}
        Err(_) => return Err(Stop::NoMemory),
    }
    add_others(alloc, terms, at, name, &family.types, &mut found)?;
    Ok(found)
}
