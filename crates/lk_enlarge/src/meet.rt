//! A nested occurrence that is met.

ghost use Rattle.std.specs.Prelude.{◌≡◌, ◌<◌, true, length, map, All, IfOk, OnOk};
ghost use Rattle.lk_nested.specs.Findings.{Finds};
ghost use Rattle.lk_store.specs.Contents.{tree_at, Extends};
ghost use Rattle.lk_mentions.specs.Names.{names_at};
ghost use Rattle.lk_enlarge.specs.Met.{IsMadeFor};
ghost use Rattle.lk_nested.specs.Joined.{meets};
ghost use Rattle.lk_nested.specs.Occurrences.{is_occurrence, test_at};
ghost use Rattle.lk_auxiliary.specs.Auxiliaries.{auxs_at, IsAuxiliaryIn};
ghost use Rattle.lk_auxiliary.specs.Settings.{setting_at, IsSettingIn};
ghost use Rattle.lk_enlarge.specs.Occurrences.{IsVisited};

use crate::visited::Visited;
use lk_ask::stop::Stop;
use lk_auxiliary::among::{auxiliary_applied, number_of};
use lk_auxiliary::auxiliary::Auxiliary;
use lk_auxiliary::made::{Occurrence, make};
use lk_auxiliary::setting::Setting;
use lk_family::Families;
use lk_nested::foreign::may_nest;
use lk_spine::{args, head};
use lk_store::node::Node;
use lk_store::terms::Terms;
use lk_tree::rule::Rule;
use std::alloc::Global;

/// The family of an occurrence becomes auxiliary; it is the one at the head.
fn make_for<F: Families>(
    alloc: Global,
    asks: &mut F,
    setting: &Setting<'_>,
    auxs: &mut Vec<Auxiliary>,
    e: u64,
    arguments: &[u64],
) -> Result<u64, Stop>
    requires setting_in { IsSettingIn (F.contents asks.old) setting.now }
    requires auxs_in { All (IsAuxiliaryIn (F.contents asks.old)) auxs.old.items }
    requires e_in { e < length (F.contents asks.old).trees }
    requires arguments_in { All (λ x. x < length (F.contents asks.old).trees) arguments.now }
    requires occurs { is_occurrence (test_at (F.standing asks.old).place
        (names_at (F.contents asks.old) setting.now.names.now)
        (tree_at (F.contents asks.old) e)) ≡ true }
    ensures keeps { Extends (F.contents asks.old) (F.contents asks.new) }
    ensures rest { F.rest asks.new ≡ F.rest asks.old }
    ensures tree_known { IfOk result (λ r. r < length (F.contents asks.new).trees) }
    ensures known { OnOk result (All (IsAuxiliaryIn (F.contents asks.new)) auxs.new.items) }
    ensures made { IsMadeFor (F.standing asks.old).place
        (setting_at (F.contents asks.old) setting.now) (tree_at (F.contents asks.old) e)
        (map (tree_at (F.contents asks.old)) arguments.now)
        (auxs_at (F.contents asks.old) auxs.old.items)
        (λ r. (tree_at (F.contents asks.new) r, auxs_at (F.contents asks.new) auxs.new.items))
        result }
{
    let start = head(asks, e);
    match asks.view(start) {
        Node::Const(name, list) => match asks.family(alloc, name)? {
            Some(family) => {
                let of = Occurrence {
                    name,
                    list,
                    arguments,
                };
                make(alloc, asks, setting, auxs, &of, &family)
            }
            None => unreachable!(),
        },
        _ => unreachable!(),
    }
}

/// The auxiliary type that comes to stand for an occurrence, applied to the parameters: the one that stands for it already, or
/// else the first of its family, which comes behind the others. The arguments hold nothing but the parameters (`NestedForm`).
pub fn meet<F: Families>(
    alloc: Global,
    asks: &mut F,
    setting: &Setting<'_>,
    auxs: &mut Vec<Auxiliary>,
    visited: &mut Visited,
    e: u64,
) -> Result<u64, Stop>
    requires setting_in { IsSettingIn (F.contents asks.old) setting.now }
    requires auxs_in { All (IsAuxiliaryIn (F.contents asks.old)) auxs.old.items }
    requires visited_in { IsVisited (F.contents asks.old) setting.now visited.old }
    requires e_in { e < length (F.contents asks.old).trees }
    requires occurs { is_occurrence (test_at (F.standing asks.old).place
        (names_at (F.contents asks.old) setting.now.names.now)
        (tree_at (F.contents asks.old) e)) ≡ true }
    ensures keeps { Extends (F.contents asks.old) (F.contents asks.new) }
    ensures rest { F.rest asks.new ≡ F.rest asks.old }
    ensures tree_known { IfOk result (λ r. r < length (F.contents asks.new).trees) }
    ensures known { OnOk result (All (IsAuxiliaryIn (F.contents asks.new)) auxs.new.items) }
    ensures visited_in { OnOk result (IsVisited (F.contents asks.new) setting.now visited.new) }
    ensures meets { Finds (meets (F.standing asks.old).place
        (setting_at (F.contents asks.old) setting.now) (tree_at (F.contents asks.old) e)
        (auxs_at (F.contents asks.old) auxs.old.items))
        (λ r. (tree_at (F.contents asks.new) r, auxs_at (F.contents asks.new) auxs.new.items))
        result }
{
    let arguments = args(alloc, asks, e)?;
    if !may_nest(
        alloc,
        asks,
        setting.parameters,
        &mut visited.own,
        &arguments,
    )? {
        return Err(Stop::No(Rule::NestedForm));
    }
    match number_of(asks, auxs, e)? {
        Some(number) => {
            let levels = setting.own_levels;
            Ok(auxiliary_applied(alloc, asks, number, levels, setting.parameters)?)
        }
        None => make_for(alloc, asks, setting, auxs, e, &arguments),
    }
}
