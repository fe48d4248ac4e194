//! The auxiliary types, with an auxiliary type in the place of each occurrence in their constructors.

ghost use Rattle.std.specs.Prelude.{◌≡◌, ◌<◌, length, map, option_map, All, IfOk, IfSome, OnOk};
ghost use Rattle.lk_nested.specs.Findings.{Finds};
ghost use Rattle.lk_env.specs.Units.{constructor_at, type_at, IsConstructorIn, IsTypeIn};
ghost use Rattle.lk_store.specs.Contents.{Contents, name_at, tree_at, Extends};
ghost use Rattle.lk_auxiliary.specs.Auxiliaries.{auxs_at};
ghost use Rattle.lk_enlarge.specs.Drafts.{draft_at, outline_at, IsDraftIn, IsOutlineIn};
ghost use Rattle.lk_enlarge.specs.DraftsNested.{ctor_with, type_with, drafted, outlined};
ghost use Rattle.lk_enlarge.specs.DraftsNested.{draft_nests, drafts_nest, outline_nests};
ghost use Rattle.lk_enlarge.specs.DraftsNested.{next_nests, types_nest};
ghost use Rattle.lk_auxiliary.specs.Settings.{setting_at, IsSettingIn};
ghost use Rattle.lk_enlarge.specs.Occurrences.{AreOccurrences};

use crate::components::name_of_constructor;
use crate::draft::{Draft, Outline, find_outline};
use crate::nest::nest;
use crate::occurrences::Occurrences;
use crate::past::over_locals;
use lk_ask::stop::Stop;
use lk_auxiliary::made::MOST;
use lk_auxiliary::naming::name_of_type;
use lk_auxiliary::setting::Setting;
use lk_env::unit::{BlockType, Constructor};
use lk_family::Families;
use lk_store::memory::NoMemory;
use lk_store::terms::Terms;
use lk_tree::rule::Rule;
use std::alloc::Global;

/// The constructor of this name, parent and type, which has the place and the fields of a draft.
fn constructor_with(
    alloc: Global,
    setting: &Setting<'_>,
    draft: Draft,
    name: u64,
    parent: u64,
    ty: u64,
) -> Result<Constructor, NoMemory>
    ensures value { IfOk result (λ k. (c : Contents) → constructor_at c k
        ≡ ctor_with (setting_at c setting.now) (draft_at c draft) (name_at c name)
        (name_at c parent) (tree_at c ty)) }
    ensures known { IfOk result (λ k. (c : Contents) → IsSettingIn c setting.now
        → name < length c.names → parent < length c.names → ty < length c.trees
        → IsConstructorIn c k) }
{
    let levels = Vec::from_slice(alloc, setting.levels)?;
    Ok(Constructor {
        name,
        levels,
        ty,
        parent,
        place: draft.place,
        parameters: setting.parameters.len() as u64,
        fields: draft.fields,
    })
}

/// The constructor of a draft in the auxiliary type of a number, whose type past the parameters has become this one.
fn constructor_of<T: Terms>(
    alloc: Global,
    terms: &mut T,
    setting: &Setting<'_>,
    number: u64,
    draft: Draft,
    e: u64,
) -> Result<Constructor, NoMemory>
    requires setting_in { IsSettingIn (T.contents terms.old) setting.now }
    requires draft_in { IsDraftIn (T.contents terms.old) draft }
    requires e_in { e < length (T.contents terms.old).trees }
    ensures keeps { Extends (T.contents terms.old) (T.contents terms.new) }
    ensures rest { T.rest terms.new ≡ T.rest terms.old }
    ensures known { IfOk result (IsConstructorIn (T.contents terms.new)) }
    ensures value { IfOk result (λ k. constructor_at (T.contents terms.new) k
        ≡ drafted (setting_at (T.contents terms.old) setting.now) number
        (draft_at (T.contents terms.old) draft) (tree_at (T.contents terms.old) e)) }
{
    let ty = over_locals(alloc, terms, setting.parameters, e)?;
    let parent = name_of_type(alloc, terms, number)?;
    let name = name_of_constructor(alloc, terms, number, draft.name)?;
    constructor_with(alloc, setting, draft, name, parent, ty)
}

/// The constructor of a draft in the auxiliary type of a number, with an auxiliary type in the place of each occurrence.
fn nest_draft<F: Families>(
    alloc: Global,
    asks: &mut F,
    setting: &Setting<'_>,
    met: &mut Occurrences,
    number: u64,
    draft: Draft,
) -> Result<Constructor, Stop>
    requires setting_in { IsSettingIn (F.contents asks.old) setting.now }
    requires met { AreOccurrences (F.standing asks.old).place
        (setting_at (F.contents asks.old) setting.now) (F.contents asks.old) setting.now met.old }
    requires draft_in { IsDraftIn (F.contents asks.old) draft }
    ensures keeps { Extends (F.contents asks.old) (F.contents asks.new) }
    ensures rest { F.rest asks.new ≡ F.rest asks.old }
    ensures made_known { IfOk result (IsConstructorIn (F.contents asks.new)) }
    ensures met { OnOk result (AreOccurrences (F.standing asks.old).place
        (setting_at (F.contents asks.old) setting.now) (F.contents asks.new) setting.now met.new) }
    ensures nests { Finds (draft_nests (F.standing asks.old).place
        (setting_at (F.contents asks.old) setting.now) number
        (draft_at (F.contents asks.old) draft) (auxs_at (F.contents asks.old) met.old.auxs.items))
        (λ k. (
          constructor_at (F.contents asks.new) k,
          auxs_at (F.contents asks.new) met.new.auxs.items,
        ))
        result }
{
    let e = nest(alloc, asks, setting, met, draft.ty)?;
    Ok(constructor_of(alloc, asks, setting, number, draft, e)?)
}

/// The constructors of the auxiliary type of a number, one after another.
fn nest_drafts<F: Families>(
    alloc: Global,
    asks: &mut F,
    setting: &Setting<'_>,
    met: &mut Occurrences,
    number: u64,
    drafts: &[Draft],
) -> Result<Vec<Constructor>, Stop>
    requires setting_in { IsSettingIn (F.contents asks.old) setting.now }
    requires met { AreOccurrences (F.standing asks.old).place
        (setting_at (F.contents asks.old) setting.now) (F.contents asks.old) setting.now met.old }
    requires drafts_in { All (IsDraftIn (F.contents asks.old)) drafts.now }
    ensures keeps { Extends (F.contents asks.old) (F.contents asks.new) }
    ensures rest { F.rest asks.new ≡ F.rest asks.old }
    ensures made_known { IfOk result (λ v. All (IsConstructorIn (F.contents asks.new)) v.items) }
    ensures met { OnOk result (AreOccurrences (F.standing asks.old).place
        (setting_at (F.contents asks.old) setting.now) (F.contents asks.new) setting.now met.new) }
    ensures nests { Finds (drafts_nest (F.standing asks.old).place
        (setting_at (F.contents asks.old) setting.now) number
        (map (draft_at (F.contents asks.old)) drafts.now)
        (auxs_at (F.contents asks.old) met.old.auxs.items))
        (λ v. (
          map (constructor_at (F.contents asks.new)) v.items,
          auxs_at (F.contents asks.new) met.new.auxs.items,
        )) result }
{
    let mut made: Vec<Constructor> = Vec::new(alloc);
    let mut left = drafts;
    'constructors: while let Some((first, more)) = left.split_first() {
        let constructor = nest_draft(alloc, asks, setting, met, number, *first)?;
        match made.push(constructor) {
            Ok(_) => {}
            Err(_) => return Err(Stop::NoMemory),
        }
        left = more;
    }
    Ok(made)
}

/// The type of this name, type and constructors, which has as many indices as an outline.
fn type_with(
    alloc: Global,
    setting: &Setting<'_>,
    indices: u64,
    name: u64,
    ty: u64,
    constructors: Vec<Constructor>,
) -> Result<BlockType, NoMemory>
    ensures value { IfOk result (λ t. (c : Contents) → type_at c t
        ≡ type_with (setting_at c setting.now) indices (name_at c name) (tree_at c ty)
        (map (constructor_at c) constructors.items)) }
    ensures known { IfOk result (λ t. (c : Contents) → IsSettingIn c setting.now
        → name < length c.names → ty < length c.trees
        → All (IsConstructorIn c) constructors.items → IsTypeIn c t) }
{
    let levels = Vec::from_slice(alloc, setting.levels)?;
    Ok(BlockType {
        name,
        levels,
        ty,
        parameters: setting.parameters.len() as u64,
        indices,
        constructors,
    })
}

/// The auxiliary type of a number, of an outline and with these constructors.
fn type_of<T: Terms>(
    alloc: Global,
    terms: &mut T,
    setting: &Setting<'_>,
    number: u64,
    outline: &Outline,
    constructors: Vec<Constructor>,
) -> Result<BlockType, NoMemory>
    requires setting_in { IsSettingIn (T.contents terms.old) setting.now }
    requires ty_in { outline.now.ty < length (T.contents terms.old).trees }
    requires constructors_in { All (IsConstructorIn (T.contents terms.old)) constructors.items }
    ensures keeps { Extends (T.contents terms.old) (T.contents terms.new) }
    ensures rest { T.rest terms.new ≡ T.rest terms.old }
    ensures known { IfOk result (IsTypeIn (T.contents terms.new)) }
    ensures value { IfOk result (λ t. type_at (T.contents terms.new) t
        ≡ outlined (setting_at (T.contents terms.old) setting.now) number
        (outline_at (T.contents terms.old) outline.now)
        (map (constructor_at (T.contents terms.old)) constructors.items)) }
{
    let ty = over_locals(alloc, terms, setting.parameters, outline.ty)?;
    let name = name_of_type(alloc, terms, number)?;
    type_with(alloc, setting, outline.indices, name, ty, constructors)
}

/// The auxiliary type of a number, with an auxiliary type in the place of each occurrence in its constructors.
fn nest_outline<F: Families>(
    alloc: Global,
    asks: &mut F,
    setting: &Setting<'_>,
    met: &mut Occurrences,
    number: u64,
    outline: &Outline,
) -> Result<BlockType, Stop>
    requires setting_in { IsSettingIn (F.contents asks.old) setting.now }
    requires met { AreOccurrences (F.standing asks.old).place
        (setting_at (F.contents asks.old) setting.now) (F.contents asks.old) setting.now met.old }
    requires outline_in { IsOutlineIn (F.contents asks.old) outline.now }
    ensures keeps { Extends (F.contents asks.old) (F.contents asks.new) }
    ensures rest { F.rest asks.new ≡ F.rest asks.old }
    ensures made_known { IfOk result (IsTypeIn (F.contents asks.new)) }
    ensures met { OnOk result (AreOccurrences (F.standing asks.old).place
        (setting_at (F.contents asks.old) setting.now) (F.contents asks.new) setting.now met.new) }
    ensures nests { Finds (outline_nests (F.standing asks.old).place
        (setting_at (F.contents asks.old) setting.now) number
        (outline_at (F.contents asks.old) outline.now)
        (auxs_at (F.contents asks.old) met.old.auxs.items))
        (λ t. (type_at (F.contents asks.new) t, auxs_at (F.contents asks.new) met.new.auxs.items))
        result }
{
    let drafts = &outline.constructors;
    let constructors = nest_drafts(alloc, asks, setting, met, number, drafts)?;
    Ok(type_of(alloc, asks, setting, number, outline, constructors)?)
}

/// The auxiliary type of a number, where there is one of that number.
fn nest_next<F: Families>(
    alloc: Global,
    asks: &mut F,
    setting: &Setting<'_>,
    met: &mut Occurrences,
    number: u64,
) -> Result<Option<BlockType>, Stop>
    requires setting_in { IsSettingIn (F.contents asks.old) setting.now }
    requires met { AreOccurrences (F.standing asks.old).place
        (setting_at (F.contents asks.old) setting.now) (F.contents asks.old) setting.now met.old }
    ensures keeps { Extends (F.contents asks.old) (F.contents asks.new) }
    ensures rest { F.rest asks.new ≡ F.rest asks.old }
    ensures made_known { IfOk result (λ o. IfSome o (IsTypeIn (F.contents asks.new))) }
    ensures met { OnOk result (AreOccurrences (F.standing asks.old).place
        (setting_at (F.contents asks.old) setting.now) (F.contents asks.new) setting.now met.new) }
    ensures nests { Finds (next_nests (F.standing asks.old).place
        (setting_at (F.contents asks.old) setting.now) number
        (auxs_at (F.contents asks.old) met.old.auxs.items))
        (λ o. (
          option_map (type_at (F.contents asks.new)) o,
          auxs_at (F.contents asks.new) met.new.auxs.items,
        )) result }
{
    match find_outline(alloc, &met.auxs, number)? {
        None => Ok(None),
        Some(outline) => {
            let ty = nest_outline(alloc, asks, setting, met, number, &outline)?;
            Ok(Some(ty))
        }
    }
}

/// The auxiliary types, in order, with those that are added on the way. There are never more than `MOST`.
pub fn auxiliary_types<F: Families>(
    alloc: Global,
    asks: &mut F,
    setting: &Setting<'_>,
    met: &mut Occurrences,
) -> Result<Vec<BlockType>, Stop>
    requires setting_in { IsSettingIn (F.contents asks.old) setting.now }
    requires met { AreOccurrences (F.standing asks.old).place
        (setting_at (F.contents asks.old) setting.now) (F.contents asks.old) setting.now met.old }
    ensures keeps { Extends (F.contents asks.old) (F.contents asks.new) }
    ensures rest { F.rest asks.new ≡ F.rest asks.old }
    ensures made_known { IfOk result (λ v. All (IsTypeIn (F.contents asks.new)) v.items) }
    ensures met { OnOk result (AreOccurrences (F.standing asks.old).place
        (setting_at (F.contents asks.old) setting.now) (F.contents asks.new) setting.now met.new) }
    ensures nests { Finds (types_nest (F.standing asks.old).place
        (setting_at (F.contents asks.old) setting.now)
        (auxs_at (F.contents asks.old) met.old.auxs.items))
        (λ v. (
          map (type_at (F.contents asks.new)) v.items,
          auxs_at (F.contents asks.new) met.new.auxs.items,
        )) result }
{
    let mut made: Vec<BlockType> = Vec::new(alloc);
    let mut number = 0;
    'types: while number <= MOST {
        match nest_next(alloc, asks, setting, met, number)? {
            None => return Ok(made),
            Some(ty) => match made.push(ty) {
                Ok(_) => {}
                Err(_) => return Err(Stop::NoMemory),
            },
        }
        number += 1;
    }
    Err(Stop::No(Rule::NestedForm))
}
