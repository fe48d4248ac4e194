//! The stated constructors of a type, with an auxiliary type in the place of each occurrence.

ghost use Rattle.std.specs.Prelude.{◌≡◌, ◌<◌, true, length, map, All, IfOk, OnOk};
ghost use Rattle.lk_nested.specs.Findings.{Finds};
ghost use Rattle.lk_nested.specs.Marks.{AreMarked};
ghost use Rattle.lk_nested.specs.Nestings.{nested_in};
ghost use Rattle.lk_env.specs.Units.{constructor_at, type_at, IsConstructorIn, IsTypeIn};
ghost use Rattle.lk_mentions.specs.Names.{names_at};
ghost use Rattle.lk_store.specs.Contents.{Contents, tree_at, Extends};
ghost use Rattle.lk_auxiliary.specs.Auxiliaries.{auxs_at};
ghost use Rattle.lk_enlarge.specs.Owns.{typed, held, owns, all_owns, with_ctors, type_owns};
ghost use Rattle.lk_auxiliary.specs.Settings.{setting_at, IsSettingIn};
ghost use Rattle.lk_enlarge.specs.Occurrences.{AreOccurrences};

use crate::occurrences::Occurrences;
use crate::past::nest_past;
use lk_ask::asks::Asks;
use lk_ask::stop::Stop;
use lk_auxiliary::past::has_pis;
use lk_auxiliary::setting::Setting;
use lk_env::unit::{BlockType, Constructor};
use lk_family::Families;
use lk_family::copies::copy_constructor;
use lk_mentions::names::Names;
use lk_nested::marks::Mark;
use lk_nested::nested::{Walked, holds_nested};
use lk_rows::table::Table;
use lk_store::memory::NoMemory;
use lk_store::terms::Terms;
use lk_tree::rule::Rule;
use std::alloc::Global;

/// Whether a type holds a nested occurrence of one of the names.
fn holds<A: Asks>(
    alloc: Global,
    asks: &A,
    names: &Names,
    marks: &mut Table<Mark>,
    e: u64,
) -> Result<bool, Stop>
    requires names_in { All (λ n. n < length (A.contents asks.now).names) names.now }
    requires tree_in { e < length (A.contents asks.now).trees }
    requires marks { AreMarked (A.contents asks.now)
        (names_at (A.contents asks.now) names.now) marks.old }
    ensures marks { IfOk result (λ r. AreMarked (A.contents asks.now)
        (names_at (A.contents asks.now) names.now) marks.new) }
    ensures found { Finds (nested_in (A.standing asks.now).place
        (names_at (A.contents asks.now) names.now)
        (tree_at (A.contents asks.now) e)) (λ r. r) result }
{
    let mut walked = Walked {
        flat: Table::new(alloc),
        spines: Table::new(alloc),
    };
    holds_nested(alloc, asks, names, marks, &mut walked, e)
}

/// A copy of a constructor, with another type.
fn with_type(alloc: Global, stated: &Constructor, ty: u64) -> Result<Constructor, NoMemory>
    ensures value { IfOk result (λ k. (c : Contents) → constructor_at c k
        ≡ typed (constructor_at c stated.now) (tree_at c ty)) }
    ensures known { IfOk result (λ k. (c : Contents) → IsConstructorIn c stated.now
        → ty < length c.trees → IsConstructorIn c k) }
{
    let levels = Vec::from_slice(alloc, &stated.levels)?;
    Ok(Constructor {
        name: stated.name,
        levels,
        ty,
        parent: stated.parent,
        place: stated.place,
        parameters: stated.parameters,
        fields: stated.fields,
    })
}

/// A constructor that holds an occurrence, with an auxiliary type in the place of each.
fn held_ctor<F: Families>(
    alloc: Global,
    asks: &mut F,
    setting: &Setting<'_>,
    met: &mut Occurrences,
    stated: &Constructor,
) -> Result<Constructor, Stop>
    requires setting_in { IsSettingIn (F.contents asks.old) setting.now }
    requires met { AreOccurrences (F.standing asks.old).place
        (setting_at (F.contents asks.old) setting.now) (F.contents asks.old) setting.now met.old }
    requires stated_in { IsConstructorIn (F.contents asks.old) stated.now }
    ensures keeps { Extends (F.contents asks.old) (F.contents asks.new) }
    ensures rest { F.rest asks.new ≡ F.rest asks.old }
    ensures constructor_known { IfOk result (IsConstructorIn (F.contents asks.new)) }
    ensures met { OnOk result (AreOccurrences (F.standing asks.old).place
        (setting_at (F.contents asks.old) setting.now) (F.contents asks.new) setting.now met.new) }
    ensures held { Finds (held (F.standing asks.old).place
        (setting_at (F.contents asks.old) setting.now)
        (constructor_at (F.contents asks.old) stated.now) true
        (auxs_at (F.contents asks.old) met.old.auxs.items)) (λ k. (
          constructor_at (F.contents asks.new) k,
          auxs_at (F.contents asks.new) met.new.auxs.items,
        )) result }
{
    if !has_pis(asks, setting.parameters.len() as u64, stated.ty) {
        return Err(Stop::No(Rule::BlockShape));
    }
    let ty = nest_past(alloc, asks, setting, met, stated.ty)?;
    Ok(with_type(alloc, stated, ty)?)
}

/// A stated constructor with an auxiliary type in the place of each occurrence. Those that were met before, with what takes their
/// place, are given, and those that are met here are added. One that holds none stays as it is.
pub fn own_ctor<F: Families>(
    alloc: Global,
    asks: &mut F,
    setting: &Setting<'_>,
    met: &mut Occurrences,
    stated: &Constructor,
) -> Result<Constructor, Stop>
    requires setting_in { IsSettingIn (F.contents asks.old) setting.now }
    requires met { AreOccurrences (F.standing asks.old).place
        (setting_at (F.contents asks.old) setting.now) (F.contents asks.old) setting.now met.old }
    requires stated_in { IsConstructorIn (F.contents asks.old) stated.now }
    ensures keeps { Extends (F.contents asks.old) (F.contents asks.new) }
    ensures rest { F.rest asks.new ≡ F.rest asks.old }
    ensures constructor_known { IfOk result (IsConstructorIn (F.contents asks.new)) }
    ensures met { OnOk result (AreOccurrences (F.standing asks.old).place
        (setting_at (F.contents asks.old) setting.now) (F.contents asks.new) setting.now met.new) }
    ensures owns { Finds (owns (F.standing asks.old).place
        (setting_at (F.contents asks.old) setting.now)
        (constructor_at (F.contents asks.old) stated.now)
        (auxs_at (F.contents asks.old) met.old.auxs.items)) (λ k. (
          constructor_at (F.contents asks.new) k,
          auxs_at (F.contents asks.new) met.new.auxs.items,
        )) result }
{
    if holds(
        alloc,
        asks,
        setting.names,
        &mut met.visited.marks,
        stated.ty,
    )? {
        return held_ctor(alloc, asks, setting, met, stated);
    }
    Ok(copy_constructor(alloc, stated)?)
}

/// Stated constructors with an auxiliary type in the place of each occurrence, one after another.
pub fn own_ctors<F: Families>(
    alloc: Global,
    asks: &mut F,
    setting: &Setting<'_>,
    met: &mut Occurrences,
    stated: &[Constructor],
) -> Result<Vec<Constructor>, Stop>
    requires setting_in { IsSettingIn (F.contents asks.old) setting.now }
    requires met { AreOccurrences (F.standing asks.old).place
        (setting_at (F.contents asks.old) setting.now) (F.contents asks.old) setting.now met.old }
    requires stated_in { All (IsConstructorIn (F.contents asks.old)) stated.now }
    ensures keeps { Extends (F.contents asks.old) (F.contents asks.new) }
    ensures rest { F.rest asks.new ≡ F.rest asks.old }
    ensures made_known { IfOk result (λ v. All (IsConstructorIn (F.contents asks.new)) v.items) }
    ensures met { OnOk result (AreOccurrences (F.standing asks.old).place
        (setting_at (F.contents asks.old) setting.now) (F.contents asks.new) setting.now met.new) }
    ensures owns { Finds (all_owns (F.standing asks.old).place
        (setting_at (F.contents asks.old) setting.now)
        (map (constructor_at (F.contents asks.old)) stated.now)
        (auxs_at (F.contents asks.old) met.old.auxs.items)) (λ v. (
          map (constructor_at
              (F.contents asks.new)) v.items,
          auxs_at (F.contents asks.new) met.new.auxs.items,
        )) result }
{
    let mut made: Vec<Constructor> = Vec::new(alloc);
    let mut left = stated;
    'constructors: while let Some((first, more)) = left.split_first() {
        let constructor = own_ctor(alloc, asks, setting, met, first)?;
        match made.push(constructor) {
            Ok(_) => {}
            Err(_) => return Err(Stop::NoMemory),
        }
        left = more;
    }
    Ok(made)
}

/// A copy of a type, with other constructors.
fn with_constructors(
    alloc: Global,
    stated: &BlockType,
    constructors: Vec<Constructor>,
) -> Result<BlockType, NoMemory>
    ensures value { IfOk result (λ t. (c : Contents) → type_at c t ≡ with_ctors
        (type_at c stated.now) (map (constructor_at c) constructors.items)) }
    ensures known { IfOk result (λ t. (c : Contents) → IsTypeIn c stated.now
        → All (IsConstructorIn c) constructors.items → IsTypeIn c t) }
{
    let levels = Vec::from_slice(alloc, &stated.levels)?;
    Ok(BlockType {
        name: stated.name,
        levels,
        ty: stated.ty,
        parameters: stated.parameters,
        indices: stated.indices,
        constructors,
    })
}

/// A stated type with an auxiliary type in the place of each occurrence in its constructors.
pub fn own_type<F: Families>(
    alloc: Global,
    asks: &mut F,
    setting: &Setting<'_>,
    met: &mut Occurrences,
    stated: &BlockType,
) -> Result<BlockType, Stop>
    requires setting_in { IsSettingIn (F.contents asks.old) setting.now }
    requires met { AreOccurrences (F.standing asks.old).place
        (setting_at (F.contents asks.old) setting.now) (F.contents asks.old) setting.now met.old }
    requires stated_in { IsTypeIn (F.contents asks.old) stated.now }
    ensures keeps { Extends (F.contents asks.old) (F.contents asks.new) }
    ensures rest { F.rest asks.new ≡ F.rest asks.old }
    ensures type_known { IfOk result (IsTypeIn (F.contents asks.new)) }
    ensures met { OnOk result (AreOccurrences (F.standing asks.old).place
        (setting_at (F.contents asks.old) setting.now) (F.contents asks.new) setting.now met.new) }
    ensures owns { Finds (type_owns (F.standing asks.old).place
        (setting_at (F.contents asks.old) setting.now)
        (type_at (F.contents asks.old) stated.now)
        (auxs_at (F.contents asks.old) met.old.auxs.items)) (λ t. (
          type_at
              (F.contents asks.new) t,
          auxs_at (F.contents asks.new) met.new.auxs.items,
        )) result }
{
    let made = own_ctors(alloc, asks, setting, met, &stated.constructors)?;
    Ok(with_constructors(alloc, stated, made)?)
}
