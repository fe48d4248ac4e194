//! The types of a block, with an auxiliary type in the place of each occurrence in their constructors.

ghost use Rattle.std.specs.Prelude.{◌≡◌, map, All, IfOk, OnOk};
ghost use Rattle.lk_nested.specs.Findings.{Finds};
ghost use Rattle.lk_env.specs.Units.{type_at, IsTypeIn};
ghost use Rattle.lk_store.specs.Contents.{Extends};
ghost use Rattle.lk_auxiliary.specs.Auxiliaries.{auxs_at};
ghost use Rattle.lk_enlarge.specs.Owns.{types_own};
ghost use Rattle.lk_auxiliary.specs.Settings.{setting_at, IsSettingIn};
ghost use Rattle.lk_enlarge.specs.Occurrences.{AreOccurrences};

use crate::occurrences::Occurrences;
use crate::own::own_type;
use lk_ask::stop::Stop;
use lk_auxiliary::setting::Setting;
use lk_env::unit::BlockType;
use lk_family::Families;
use std::alloc::Global;

/// A block's own types, with an auxiliary type in the place of each occurrence in their constructors, one after another.
pub fn own_types<F: Families>(
    alloc: Global,
    asks: &mut F,
    setting: &Setting<'_>,
    met: &mut Occurrences,
    stated: &[BlockType],
) -> Result<Vec<BlockType>, Stop>
    requires setting_in { IsSettingIn (F.contents asks.old) setting.now }
    requires met { AreOccurrences (F.standing asks.old).place
        (setting_at (F.contents asks.old) setting.now) (F.contents asks.old) setting.now met.old }
    requires stated_in { All (IsTypeIn (F.contents asks.old)) stated.now }
    ensures keeps { Extends (F.contents asks.old) (F.contents asks.new) }
    ensures rest { F.rest asks.new ≡ F.rest asks.old }
    ensures made_known { IfOk result (λ v. All (IsTypeIn (F.contents asks.new)) v.items) }
    ensures met { OnOk result (AreOccurrences (F.standing asks.old).place
        (setting_at (F.contents asks.old) setting.now) (F.contents asks.new) setting.now met.new) }
    ensures owns { Finds (types_own (F.standing asks.old).place
        (setting_at (F.contents asks.old) setting.now)
        (map (type_at (F.contents asks.old)) stated.now)
        (auxs_at (F.contents asks.old) met.old.auxs.items)) (λ v. (
          map (type_at
              (F.contents asks.new)) v.items,
          auxs_at (F.contents asks.new) met.new.auxs.items,
        )) result }
{
    let mut made: Vec<BlockType> = Vec::new(alloc);
    let mut left = stated;
    'types: while let Some((first, more)) = left.split_first() {
        let ty = own_type(alloc, asks, setting, met, first)?;
        match made.push(ty) {
            Ok(_) => {}
            Err(_) => return Err(Stop::NoMemory),
        }
        left = more;
    }
    Ok(made)
}
