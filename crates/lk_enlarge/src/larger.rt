//! The larger block: a block whose nested occurrences have auxiliary types in their place, and these.

ghost use Rattle.std.specs.Prelude.{◌≡◌, ◌<◌, [], length, map, All, IfOk, IfSome};
ghost use Rattle.lk_inductive.specs.Nested.{enlarge as enlarged};
ghost use Rattle.lk_nested.specs.Findings.{finding, Finds};
ghost use Rattle.lk_nested.specs.Marks.{AreMarked};
ghost use Rattle.lk_nested.specs.Nestings.{AreWalked};
ghost use Rattle.lk_env.specs.Units.{constructor_at, type_at, IsConstructorIn, IsTypeIn};
ghost use Rattle.lk_mentions.specs.Names.{names_at};
ghost use Rattle.lk_store.specs.Contents.{Extends};
ghost use Rattle.lk_enlarge.specs.Larger.{larger_at, larger_or, ctors_hold, types_hold, IsLargerIn};
ghost use Rattle.lk_auxiliary.specs.Settings.{setting_at, IsSettingIn};
ghost use Rattle.lk_enlarge.specs.Occurrences.{AreOccurrences};

use crate::auxiliary_types::auxiliary_types;
use crate::occurrences::Occurrences;
use crate::types::own_types;
use crate::visited::Visited;
use lk_ask::asks::Asks;
use lk_ask::stop::Stop;
use lk_auxiliary::auxiliary::Auxiliary;
use lk_auxiliary::setting::Setting;
use lk_env::unit::{BlockType, Constructor};
use lk_family::Families;
use lk_mentions::names::Names;
use lk_nested::marks::Mark;
use lk_nested::nested::{Walked, holds_nested};
use lk_rows::table::Table;
use std::alloc::Global;
use std::mem::replace;

/// The block's own types with an auxiliary type in the place of each occurrence, the auxiliary types, and what each of these
/// stands for.
#[derive(Drop)]
pub struct Larger {
    pub own: Vec<BlockType>,
    pub auxiliary: Vec<BlockType>,
    pub stand: Vec<Auxiliary>,
}

/// Whether one of these constructors' types holds a nested occurrence. What was walked is not walked again.
fn constructors_hold<A: Asks>(
    alloc: Global,
    asks: &A,
    names: &Names,
    marks: &mut Table<Mark>,
    walked: &mut Walked,
    constructors: &[Constructor],
) -> Result<bool, Stop>
    requires names_in { All (λ n. n < length (A.contents asks.now).names) names.now }
    requires constructors_in { All (IsConstructorIn (A.contents asks.now)) constructors.now }
    requires marks { AreMarked (A.contents asks.now)
        (names_at (A.contents asks.now) names.now) marks.old }
    requires walked { AreWalked (A.standing asks.now).place
        (A.contents asks.now) names.now walked.old }
    ensures marks { IfOk result (λ r. AreMarked (A.contents asks.now)
        (names_at (A.contents asks.now) names.now) marks.new) }
    ensures walked { IfOk result (λ r. AreWalked (A.standing asks.now).place
        (A.contents asks.now) names.now walked.new) }
    ensures hold { Finds (ctors_hold (A.standing asks.now).place
        (names_at (A.contents asks.now) names.now)
        (map (constructor_at (A.contents asks.now)) constructors.now)) (λ r. r) result }
{
    let mut left = constructors;
    'constructors: while let Some((constructor, more)) = left.split_first() {
        if holds_nested(alloc, asks, names, marks, walked, constructor.ty)? {
            return Ok(true);
        }
        left = more;
    }
    Ok(false)
}

/// Whether a constructor of one of these types holds a nested occurrence.
fn types_hold<A: Asks>(
    alloc: Global,
    asks: &A,
    names: &Names,
    marks: &mut Table<Mark>,
    types: &[BlockType],
) -> Result<bool, Stop>
    requires names_in { All (λ n. n < length (A.contents asks.now).names) names.now }
    requires marks { AreMarked (A.contents asks.now)
        (names_at (A.contents asks.now) names.now) marks.old }
    requires types_in { All (IsTypeIn (A.contents asks.now)) types.now }
    ensures marks { IfOk result (λ r. AreMarked (A.contents asks.now)
        (names_at (A.contents asks.now) names.now) marks.new) }
    ensures hold { Finds (types_hold (A.standing asks.now).place
        (names_at (A.contents asks.now) names.now)
        (map (type_at (A.contents asks.now)) types.now)) (λ r. r) result }
{
    let mut walked = Walked {
        flat: Table::new(alloc),
        spines: Table::new(alloc),
    };
    let mut left = types;
    'types: while let Some((stated, more)) = left.split_first() {
        if constructors_hold(alloc, asks, names, marks, &mut walked, &stated.constructors)? {
            return Ok(true);
        }
        left = more;
    }
    Ok(false)
}

/// The larger block, where there are occurrences.
fn make_larger<F: Families>(
    alloc: Global,
    asks: &mut F,
    setting: &Setting<'_>,
    met: &mut Occurrences,
    types: &[BlockType],
) -> Result<Larger, Stop>
    requires setting_in { IsSettingIn (F.contents asks.old) setting.now }
    requires met { AreOccurrences (F.standing asks.old).place
        (setting_at (F.contents asks.old) setting.now) (F.contents asks.old) setting.now met.old }
    requires none { met.old.auxs.items ≡ [] }
    requires types_in { All (IsTypeIn (F.contents asks.old)) types.now }
    ensures keeps { Extends (F.contents asks.old) (F.contents asks.new) }
    ensures rest { F.rest asks.new ≡ F.rest asks.old }
    ensures known { IfOk result (IsLargerIn (F.contents asks.new)) }
    ensures enlarges { Finds (finding (F.standing asks.old).place
        (enlarged (setting_at (F.contents asks.old) setting.now)
        (map (type_at (F.contents asks.old)) types.now)))
        (larger_at (F.contents asks.new)) result }
{
    let own = own_types(alloc, asks, setting, met, types)?;
    let auxiliary = auxiliary_types(alloc, asks, setting, met)?;
    let stand = replace(&mut met.auxs, Vec::new(alloc));
    Ok(Larger {
        own,
        auxiliary,
        stand,
    })
}

/// The larger block, if any. No occurrence was met.
fn enlarge_by<F: Families>(
    alloc: Global,
    asks: &mut F,
    setting: &Setting<'_>,
    met: &mut Occurrences,
    types: &[BlockType],
) -> Result<Option<Larger>, Stop>
    requires setting_in { IsSettingIn (F.contents asks.old) setting.now }
    requires met { AreOccurrences (F.standing asks.old).place
        (setting_at (F.contents asks.old) setting.now) (F.contents asks.old) setting.now met.old }
    requires none { met.old.auxs.items ≡ [] }
    requires types_in { All (IsTypeIn (F.contents asks.old)) types.now }
    ensures keeps { Extends (F.contents asks.old) (F.contents asks.new) }
    ensures rest { F.rest asks.new ≡ F.rest asks.old }
    ensures known { IfOk result (λ o. IfSome o (IsLargerIn (F.contents asks.new))) }
    ensures enlarges { Finds (finding (F.standing asks.old).place
        (enlarged (setting_at (F.contents asks.old) setting.now)
        (map (type_at (F.contents asks.old)) types.now)))
        (larger_or (F.contents asks.new) (map (type_at (F.contents asks.old)) types.now))
        result }
{
    if !types_hold(alloc, asks, setting.names, &mut met.visited.marks, types)? {
        return Ok(None);
    }
    let made = make_larger(alloc, asks, setting, met, types)?;
    Ok(Some(made))
}

/// The larger block; none where no constructor holds an occurrence, so that the block is itself the larger one. Then nothing is
/// copied.
pub fn enlarge<F: Families>(
    alloc: Global,
    asks: &mut F,
    setting: &Setting<'_>,
    types: &[BlockType],
) -> Result<Option<Larger>, Stop>
    requires setting_in { IsSettingIn (F.contents asks.old) setting.now }
    requires types_in { All (IsTypeIn (F.contents asks.old)) types.now }
    ensures keeps { Extends (F.contents asks.old) (F.contents asks.new) }
    ensures rest { F.rest asks.new ≡ F.rest asks.old }
    ensures known { IfOk result (λ o. IfSome o (IsLargerIn (F.contents asks.new))) }
    ensures enlarges { Finds (finding (F.standing asks.old).place
        (enlarged (setting_at (F.contents asks.old) setting.now)
        (map (type_at (F.contents asks.old)) types.now)))
        (larger_or (F.contents asks.new) (map (type_at (F.contents asks.old)) types.now))
        result }
{
    let mut met = Occurrences {
        auxs: Vec::new(alloc),
        pairs: Vec::new(alloc),
        visited: Visited {
            marks: Table::new(alloc),
            own: Table::new(alloc),
        },
    };
    enlarge_by(alloc, asks, setting, &mut met, types)
}
