//! Families that are made auxiliary.

ghost use Rattle.std.specs.Prelude.{◌≡◌, ◌<◌, ◌+◌, ◌++◌, suc, nat_le, length, map, All};
ghost use Rattle.std.specs.Prelude.{IfOk, OnOk};
ghost use Rattle.lk_store.specs.Contents.{name_at, list_at, tree_at, Extends};
ghost use Rattle.lk_declaration.specs.Courses.{Settles};
ghost use Rattle.lk_family.specs.Families.{IsFamilyIn};
ghost use Rattle.lk_env.specs.Units.{type_at};
ghost use Rattle.lk_auxiliary.specs.Auxiliaries.{auxs_at, IsAuxiliaryIn};
ghost use Rattle.lk_auxiliary.specs.Made.{made_form, IsOccurrenceIn};
ghost use Rattle.lk_auxiliary.specs.Parts.{family_form};
ghost use Rattle.lk_auxiliary.specs.Settings.{setting_at, IsSettingIn};

use crate::among::{auxiliary_applied, count_others};
use crate::auxiliary::Auxiliary;
use crate::family::family_of;
use crate::instance::At;
use crate::levels::levels_of;
use crate::setting::Setting;
use lk_ask::stop::Stop;
use lk_family::Family;
use lk_store::memory::NoMemory;
use lk_store::terms::Terms;
use lk_tree::rule::Rule;
use std::alloc::Global;

/// The most auxiliary types that a block may have.
pub const MOST: u64 = 1024;

/// The type of a name at levels, which are a list of the store, and at arguments.
#[derive(Clone, Copy)]
pub struct Occurrence<'a> {
    pub name: u64,
    pub list: u64,
    pub arguments: &'a [u64],
}

/// Whether there is room for one more type and its others after so many.
fn has_room(count: u64, others: u64) -> bool
    ensures { result ≡ nat_le (count + suc others) 1024 }
{
    others < MOST && count < MOST - others
}

/// The family of an occurrence, with Locals from this number on.
fn family_made<T: Terms>(
    alloc: Global,
    terms: &mut T,
    first: u64,
    of: &Occurrence<'_>,
    family: &Family,
) -> Result<Vec<Auxiliary>, Stop>
    requires of_in { IsOccurrenceIn (T.contents terms.old) of.now }
    requires family_in { IsFamilyIn (T.contents terms.old) family.now }
    ensures keeps { Extends (T.contents terms.old) (T.contents terms.new) }
    ensures rest { T.rest terms.new ≡ T.rest terms.old }
    ensures known { IfOk result (λ v. All (IsAuxiliaryIn (T.contents terms.new)) v.items) }
    ensures family { Settles (family_form first (list_at (T.contents terms.old) of.now.list)
        (map (tree_at (T.contents terms.old)) of.now.arguments.now)
        (name_at (T.contents terms.old) of.now.name)
        (map (type_at (T.contents terms.old)) family.now.types.items)
        (type_at (T.contents terms.old) family.now.own))
        (λ v. auxs_at (T.contents terms.new) v.items) result }
{
    let levels = levels_of(alloc, terms, of.list)?;
    let at = At {
        first,
        list: of.list,
        levels: &levels,
        arguments: of.arguments,
    };
    family_of(alloc, terms, &at, of.name, family)
}

/// How many there are.
fn count_of(auxs: &[Auxiliary]) -> u64
    ensures { result ≡ length auxs.now }
{
    auxs.len() as u64
}

/// Puts auxiliary types behind others.
fn join(auxs: &mut Vec<Auxiliary>, made: Vec<Auxiliary>) -> Result<(), NoMemory>
    ensures { OnOk result (auxs.new.items ≡ auxs.old.items ++ made.items) }
{
    let mut more = made;
    auxs.append(&mut more)?;
    Ok(())
}

/// The auxiliary type that comes to stand for an occurrence, applied to the parameters, and its family behind the auxiliary
/// types that are there. There are not more than 1,024 then (`NestedForm`).
pub fn make<T: Terms>(
    alloc: Global,
    terms: &mut T,
    setting: &Setting<'_>,
    auxs: &mut Vec<Auxiliary>,
    of: &Occurrence<'_>,
    family: &Family,
) -> Result<u64, Stop>
    requires setting_in { IsSettingIn (T.contents terms.old) setting.now }
    requires auxs_in { All (IsAuxiliaryIn (T.contents terms.old)) auxs.old.items }
    requires of_in { IsOccurrenceIn (T.contents terms.old) of.now }
    requires family_in { IsFamilyIn (T.contents terms.old) family.now }
    ensures keeps { Extends (T.contents terms.old) (T.contents terms.new) }
    ensures rest { T.rest terms.new ≡ T.rest terms.old }
    ensures tree_known { IfOk result (λ r. r < length (T.contents terms.new).trees) }
    ensures known { OnOk result (All (IsAuxiliaryIn (T.contents terms.new)) auxs.new.items) }
    ensures made { Settles (made_form (setting_at (T.contents terms.old) setting.now)
        (auxs_at (T.contents terms.old) auxs.old.items)
        (name_at (T.contents terms.old) of.now.name) (list_at (T.contents terms.old) of.now.list)
        (map (tree_at (T.contents terms.old)) of.now.arguments.now)
        (map (type_at (T.contents terms.old)) family.now.types.items)
        (type_at (T.contents terms.old) family.now.own))
        (λ r. (tree_at (T.contents terms.new) r, auxs_at (T.contents terms.new) auxs.new.items))
        result }
{
    let count = count_of(auxs);
    let others = count_others(terms, of.name, &family.types)?;
    if !has_room(count, others) {
        return Err(Stop::No(Rule::NestedForm));
    }
    let first = setting.parameters.len() as u64;
    let made = family_made(alloc, terms, first, of, family)?;
    let applied = auxiliary_applied(alloc, terms, count, setting.own_levels, setting.parameters)?;
    join(auxs, made)?;
    Ok(applied)
}
