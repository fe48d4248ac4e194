//! What constants of the larger block stand for.

ghost use Rattle.std.specs.Prelude.{◌≡◌, ◌<◌, ◌++◌, ◌∷◌, [], suc, codes, length, map, All, IfOk, OnOk};
ghost use Rattle.lk_tree.specs.Tree.{text};
ghost use Rattle.lk_env.specs.Units.{constructor_at};
ghost use Rattle.lk_inductive.specs.Enlarged.{Setting as PlainSetting};
ghost use Rattle.lk_inductive.specs.Recursors.{rec_name};
ghost use Rattle.lk_inductive.specs.Restore.{digits, rec_numbered, ctors_stand, all_stand};
ghost use Rattle.lk_store.specs.Contents.{name_at, Extends, IsName};
ghost use Rattle.lk_restore.specs.Originals.{originals_at, AreOriginalsIn, AreStanding};
ghost use Rattle.lk_auxiliary.specs.Auxiliaries.{aux_at, auxs_at, IsAuxiliaryIn};
ghost use Rattle.lk_auxiliary.specs.Settings.{setting_at, IsSettingIn};
ghost use Rattle.lk_enlarge.specs.Originals.{at_instance, type_stands, recursor_stands};
ghost use Rattle.lk_enlarge.specs.Originals.{constructor_stands, one_stands, StandsFor, Adds};

use crate::components::name_of_constructor;
use lk_auxiliary::auxiliary::Auxiliary;
use lk_auxiliary::naming::name_of_type;
use lk_auxiliary::setting::Setting;
use lk_lists::numbers::number_after;
use lk_restore::{Original, stand};
use lk_store::memory::NoMemory;
use lk_store::node::NameNode;
use lk_store::terms::Terms;
use lk_store::text::Text;
use std::alloc::Global;

/// A name with a text as one more component.
fn text_after<T: Terms>(terms: &mut T, name: u64, bytes: Vec<u8>) -> Result<u64, NoMemory>
    requires { name < length (T.contents terms.old).names }
    ensures keeps { Extends (T.contents terms.old) (T.contents terms.new) }
    ensures rest { T.rest terms.new ≡ T.rest terms.old }
    ensures ok { IfOk result (λ n. IsName (T.contents terms.new) n
        (name_at (T.contents terms.old) name ++ text bytes.items ∷ [])) }
{
    let component = terms.make_text(Text::new(bytes))?;
    let made = terms.make_name(NameNode::Text(name, component))?;
    Ok(made)
}

/// The last component of the name that a numbered recursor has in the file.
fn numbered(alloc: Global, number: u64) -> Result<Vec<u8>, NoMemory>
    ensures { IfOk result (λ v. v.items ≡ codes "rec_" ++ digits (suc number) number []) }
{
    let written = format!(in alloc; "rec_{number}")?;
    Ok(written.into_bytes())
}

/// The name that the recursor of an auxiliary type has in the file, by the name of the block's first type.
fn numbered_name<T: Terms>(
    alloc: Global,
    terms: &mut T,
    first: u64,
    number: u64,
) -> Result<u64, NoMemory>
    requires { first < length (T.contents terms.old).names }
    ensures keeps { Extends (T.contents terms.old) (T.contents terms.new) }
    ensures rest { T.rest terms.new ≡ T.rest terms.old }
    ensures ok { IfOk result (λ n. IsName (T.contents terms.new) n
        (rec_numbered (name_at (T.contents terms.old) first) number)) }
{
    let bytes = numbered(alloc, number)?;
    text_after(terms, first, bytes)
}

/// The name of the recursor of a type.
fn recursor_name<T: Terms>(alloc: Global, terms: &mut T, ty: u64) -> Result<u64, NoMemory>
    requires { ty < length (T.contents terms.old).names }
    ensures keeps { Extends (T.contents terms.old) (T.contents terms.new) }
    ensures rest { T.rest terms.new ≡ T.rest terms.old }
    ensures ok { IfOk result (λ n. IsName (T.contents terms.new) n
        (rec_name (name_at (T.contents terms.old) ty))) }
{
    let bytes = Vec::from_slice(alloc, b"rec")?;
    text_after(terms, ty, bytes)
}

/// What the constant of this name stands for: the constant of another name, at what an auxiliary type stands for.
fn stand_at<T: Terms>(
    terms: &mut T,
    setting: &Setting<'_>,
    aux: &Auxiliary,
    name: u64,
    original: u64,
) -> Result<Original, NoMemory>
    requires setting_in { IsSettingIn (T.contents terms.old) setting.now }
    requires aux_in { IsAuxiliaryIn (T.contents terms.old) aux.now }
    requires name_in { name < length (T.contents terms.old).names }
    requires original_in { original < length (T.contents terms.old).names }
    ensures keeps { Extends (T.contents terms.old) (T.contents terms.new) }
    ensures rest { T.rest terms.new ≡ T.rest terms.old }
    ensures stands { IfOk result (StandsFor (T.contents terms.new)
        (setting_at (T.contents terms.old) setting.now)
        (at_instance (aux_at (T.contents terms.old) aux.now)
        (name_at (T.contents terms.old) name) (name_at (T.contents terms.old) original))) }
{
    let made = stand(
        terms,
        setting.own_levels,
        setting.parameters,
        name,
        original,
        aux.levels,
        &aux.arguments,
    )?;
    Ok(made)
}

/// What the auxiliary type of a number stands for.
fn stand_type<T: Terms>(
    alloc: Global,
    terms: &mut T,
    setting: &Setting<'_>,
    number: u64,
    aux: &Auxiliary,
) -> Result<Original, NoMemory>
    requires setting_in { IsSettingIn (T.contents terms.old) setting.now }
    requires aux_in { IsAuxiliaryIn (T.contents terms.old) aux.now }
    ensures keeps { Extends (T.contents terms.old) (T.contents terms.new) }
    ensures rest { T.rest terms.new ≡ T.rest terms.old }
    ensures stands { IfOk result (StandsFor (T.contents terms.new)
        (setting_at (T.contents terms.old) setting.now)
        (type_stands number (aux_at (T.contents terms.old) aux.now))) }
{
    let name = name_of_type(alloc, terms, number)?;
    let made = stand_at(terms, setting, aux, name, aux.name)?;
    Ok(made)
}

/// What the recursor of the auxiliary type of a number stands for. In the file these are numbered from one on.
fn stand_recursor<T: Terms>(
    alloc: Global,
    terms: &mut T,
    first: u64,
    number: u64,
) -> Result<Original, NoMemory>
    requires { first < length (T.contents terms.old).names }
    ensures keeps { Extends (T.contents terms.old) (T.contents terms.new) }
    ensures rest { T.rest terms.new ≡ T.rest terms.old }
    ensures stands { (s : PlainSetting) → IfOk result (StandsFor (T.contents terms.new) s
        (recursor_stands (name_at (T.contents terms.old) first) number)) }
{
    let ty = name_of_type(alloc, terms, number)?;
    let name = recursor_name(alloc, terms, ty)?;
    let next = number_after(number)?;
    let to = numbered_name(alloc, terms, first, next)?;
    Ok(Original::Renamed { name, to })
}

/// What a constructor of the auxiliary type of a number stands for: the constructor of this name, after which it is called.
fn stand_constructor<T: Terms>(
    alloc: Global,
    terms: &mut T,
    setting: &Setting<'_>,
    number: u64,
    aux: &Auxiliary,
    constructor: u64,
) -> Result<Original, NoMemory>
    requires setting_in { IsSettingIn (T.contents terms.old) setting.now }
    requires aux_in { IsAuxiliaryIn (T.contents terms.old) aux.now }
    requires constructor_in { constructor < length (T.contents terms.old).names }
    ensures keeps { Extends (T.contents terms.old) (T.contents terms.new) }
    ensures rest { T.rest terms.new ≡ T.rest terms.old }
    ensures stands { IfOk result (StandsFor (T.contents terms.new)
        (setting_at (T.contents terms.old) setting.now)
        (constructor_stands number (aux_at (T.contents terms.old) aux.now)
        (name_at (T.contents terms.old) constructor))) }
{
    let name = name_of_constructor(alloc, terms, number, constructor)?;
    let made = stand_at(terms, setting, aux, name, constructor)?;
    Ok(made)
}

/// Adds what the constructors of the auxiliary type of a number stand for.
fn add_constructors<T: Terms>(
    alloc: Global,
    terms: &mut T,
    setting: &Setting<'_>,
    number: u64,
    aux: &Auxiliary,
    originals: &mut Vec<Original>,
) -> Result<(), NoMemory>
    requires setting_in { IsSettingIn (T.contents terms.old) setting.now }
    requires aux_in { IsAuxiliaryIn (T.contents terms.old) aux.now }
    ensures keeps { Extends (T.contents terms.old) (T.contents terms.new) }
    ensures rest { T.rest terms.new ≡ T.rest terms.old }
    ensures adds { OnOk result (Adds (T.contents terms.old) (T.contents terms.new)
        (setting_at (T.contents terms.old) setting.now) originals.old.items originals.new.items
        (ctors_stand number (aux_at (T.contents terms.old) aux.now)
        (map (constructor_at (T.contents terms.old)) aux.now.own.constructors.items))) }
{
    let mut left = aux.own.constructors.as_slice();
    'constructors: while let Some((constructor, more)) = left.split_first() {
        let made = stand_constructor(alloc, terms, setting, number, aux, constructor.name)?;
        originals.push(made)?;
        left = more;
    }
    Ok(())
}

/// Adds what the auxiliary type of a number, its recursor and its constructors stand for.
fn add_type<T: Terms>(
    alloc: Global,
    terms: &mut T,
    setting: &Setting<'_>,
    first: u64,
    number: u64,
    aux: &Auxiliary,
    originals: &mut Vec<Original>,
) -> Result<(), NoMemory>
    requires setting_in { IsSettingIn (T.contents terms.old) setting.now }
    requires first_in { first < length (T.contents terms.old).names }
    requires aux_in { IsAuxiliaryIn (T.contents terms.old) aux.now }
    ensures keeps { Extends (T.contents terms.old) (T.contents terms.new) }
    ensures rest { T.rest terms.new ≡ T.rest terms.old }
    ensures adds { OnOk result (Adds (T.contents terms.old) (T.contents terms.new)
        (setting_at (T.contents terms.old) setting.now) originals.old.items originals.new.items
        (one_stands (name_at (T.contents terms.old) first) number
        (aux_at (T.contents terms.old) aux.now))) }
{
    let ty = stand_type(alloc, terms, setting, number, aux)?;
    originals.push(ty)?;
    let recursor = stand_recursor(alloc, terms, first, number)?;
    originals.push(recursor)?;
    add_constructors(alloc, terms, setting, number, aux, originals)?;
    Ok(())
}

/// What the constants of auxiliary types, of their constructors and of their recursors stand for, in the order of the auxiliary
/// types. `first` is the name of the block's first type, by which the recursors are named.
pub fn originals_of<T: Terms>(
    alloc: Global,
    terms: &mut T,
    setting: &Setting<'_>,
    first: u64,
    stand: &[Auxiliary],
) -> Result<Vec<Original>, NoMemory>
    requires setting_in { IsSettingIn (T.contents terms.old) setting.now }
    requires first_in { first < length (T.contents terms.old).names }
    requires stand_in { All (IsAuxiliaryIn (T.contents terms.old)) stand.now }
    ensures keeps { Extends (T.contents terms.old) (T.contents terms.new) }
    ensures rest { T.rest terms.new ≡ T.rest terms.old }
    ensures known { IfOk result (λ os. AreOriginalsIn (T.contents terms.new) os.items) }
    ensures are { IfOk result (λ os. originals_at (T.contents terms.new) os.items
        ≡ all_stand (name_at (T.contents terms.old) first) 0
        (auxs_at (T.contents terms.old) stand.now)) }
    ensures standing { IfOk result (λ os. AreStanding (T.contents terms.new)
        (setting_at (T.contents terms.old) setting.now) os.items) }
{
    let mut originals: Vec<Original> = Vec::new(alloc);
    let mut left = stand;
    let mut number = 0;
    'auxs: while let Some((aux, more)) = left.split_first() {
        add_type(alloc, terms, setting, first, number, aux, &mut originals)?;
        number = number_after(number)?;
        left = more;
    }
    Ok(originals)
}
