//! Each occurrence in a tree replaced by its auxiliary type.

ghost use Rattle.std.specs.Prelude.{◌≡◌, ◌<◌, length, All, IfOk, OnOk};
ghost use Rattle.lk_nested.specs.Findings.{Finds};
ghost use Rattle.lk_store.specs.Contents.{tree_at, Extends};
ghost use Rattle.lk_nested.specs.Joined.{nests};
ghost use Rattle.lk_mentions.specs.Names.{names_at};
ghost use Rattle.lk_nested.specs.Outermost.{AreOutermost};
ghost use Rattle.lk_auxiliary.specs.Auxiliaries.{auxs_at};
ghost use Rattle.lk_auxiliary.specs.Settings.{setting_at, IsSettingIn};
ghost use Rattle.lk_enlarge.specs.Occurrences.{AreOccurrences};

use crate::meet::meet;
use crate::occurrences::Occurrences;
use lk_ask::stop::Stop;
use lk_auxiliary::setting::Setting;
use lk_family::Families;
use lk_nested::outermost::find_outermost;
use lk_nested::swap::{Pair, instead, swap};
use lk_tree::rule::Rule;
use std::alloc::Global;

/// Those of the outermost occurrences of a tree that were not met are met, one after another, and then each has its auxiliary
/// type in its place. Behind them a look-up may be refused.
fn nest_found<F: Families>(
    alloc: Global,
    asks: &mut F,
    setting: &Setting<'_>,
    met: &mut Occurrences,
    found: &[u64],
    refused: Option<Rule>,
    e: u64,
) -> Result<u64, Stop>
    requires setting_in { IsSettingIn (F.contents asks.old) setting.now }
    requires met { AreOccurrences (F.standing asks.old).place
        (setting_at (F.contents asks.old) setting.now) (F.contents asks.old) setting.now met.old }
    requires e_in { e < length (F.contents asks.old).trees }
    requires outermost { AreOutermost (F.standing asks.old).place
        (names_at (F.contents asks.old) setting.now.names.now) (F.contents asks.old) e
        found.now refused }
    ensures keeps { Extends (F.contents asks.old) (F.contents asks.new) }
    ensures rest { F.rest asks.new ≡ F.rest asks.old }
    ensures tree_known { IfOk result (λ r. r < length (F.contents asks.new).trees) }
    ensures met { OnOk result (AreOccurrences (F.standing asks.old).place
        (setting_at (F.contents asks.old) setting.now) (F.contents asks.new) setting.now met.new) }
    ensures nests { Finds (nests (F.standing asks.old).place
        (setting_at (F.contents asks.old) setting.now) (tree_at (F.contents asks.old) e)
        (auxs_at (F.contents asks.old) met.old.auxs.items))
        (λ r. (tree_at (F.contents asks.new) r, auxs_at (F.contents asks.new) met.new.auxs.items))
        result }
{
    let mut rest = found;
    'unmet: while let Some((o, more)) = rest.split_first() {
        rest = more;
        if let Some(_) = instead(asks, &met.pairs, *o) {
            continue;
        }
        let to = meet(alloc, asks, setting, &mut met.auxs, &mut met.visited, *o)?;
        match met.pairs.push(Pair { from: *o, to }) {
            Ok(_) => {}
            Err(_) => return Err(Stop::NoMemory),
        }
    }
    if let Some(rule) = refused {
        return Err(Stop::No(rule));
    }
    Ok(swap(alloc, asks, &met.pairs, e)?)
}

/// A tree with its auxiliary type in the place of each occurrence. Those that were met before, with what takes their place, are
/// given, and those that are met here are added.
pub fn nest<F: Families>(
    alloc: Global,
    asks: &mut F,
    setting: &Setting<'_>,
    met: &mut Occurrences,
    e: u64,
) -> Result<u64, Stop>
    requires setting_in { IsSettingIn (F.contents asks.old) setting.now }
    requires met { AreOccurrences (F.standing asks.old).place
        (setting_at (F.contents asks.old) setting.now) (F.contents asks.old) setting.now met.old }
    requires e_in { e < length (F.contents asks.old).trees }
    ensures keeps { Extends (F.contents asks.old) (F.contents asks.new) }
    ensures rest { F.rest asks.new ≡ F.rest asks.old }
    ensures tree_known { IfOk result (λ r. r < length (F.contents asks.new).trees) }
    ensures met { OnOk result (AreOccurrences (F.standing asks.old).place
        (setting_at (F.contents asks.old) setting.now) (F.contents asks.new) setting.now met.new) }
    ensures nests { Finds (nests (F.standing asks.old).place
        (setting_at (F.contents asks.old) setting.now) (tree_at (F.contents asks.old) e)
        (auxs_at (F.contents asks.old) met.old.auxs.items))
        (λ r. (tree_at (F.contents asks.new) r, auxs_at (F.contents asks.new) met.new.auxs.items))
        result }
{
    let mut found: Vec<u64> = Vec::new(alloc);
    let refused = find_outermost(
        alloc,
        asks,
        setting.names,
        &mut met.visited.marks,
        &mut found,
        e,
    )?;
    nest_found(alloc, asks, setting, met, &found, refused, e)
}
