//! Values put for the parameters of small levels and of short lists of them, without a walk.

ghost use Rattle.std.specs.Prelude.{◌<◌, length, All, IfSome};
ghost use Rattle.lk_store.specs.Contents.{IsLevelIn};
ghost use Rattle.lk_subst.specs.Parameters.{IsPut, PutsLevel, PutsNode, PutsList};

use crate::parameters::value_for;
use lk_store::memory::NoMemory;
use lk_store::node::{LevelNode, ListNode};
use lk_store::terms::Terms;

/// So many layers of successors and maxima are put without a walk, and so many levels of a list.
pub(crate) const LAYERS: u32 = 2;

pub(crate) const LEVELS: u32 = 4;

/// What is put in a level without parameters, or in a parameter.
#[tactic(auto, using(crate::proofs::LevelValues::levels_closed), unfolding(lk_tree::specs::Levels::put_in_level))]
fn put_leaf<T: Terms>(terms: &T, params: &[u64], values: &[u64], level: u64) -> Option<u64>
    requires level_in { level < length (T.contents terms.now).levels }
    requires params_in { All (λ p. p < length (T.contents terms.now).names) params.now }
    requires values_in { All (λ v. v < length (T.contents terms.now).levels) values.now }
    ensures { IfSome result (IsPut (T.contents terms.now) params.now values.now level
        (T.contents terms.now)) }
{
    if !terms.level_has_params(level) {
        return Some(level);
    }
    match terms.level(level) {
        LevelNode::Param(n) => match value_for(terms, params, values, n) {
            Some(v) => Some(v),
            None => Some(level),
        },
        _ => None,
    }
}

/// A level of so many layers with values in place of parameters, or `None`, where it has more.
#[cycle(layers)]
#[tactic(auto, unfolding(lk_tree::specs::Levels::put_in_level))]
pub(crate) fn put_layers<T: Terms>(
    terms: &mut T,
    params: &[u64],
    values: &[u64],
    level: u64,
    layers: u32,
) -> Result<Option<u64>, NoMemory>
    requires level_in { level < length (T.contents terms.old).levels }
    requires params_in { All (λ p. p < length (T.contents terms.old).names) params.now }
    requires values_in { All (λ v. v < length (T.contents terms.old).levels) values.now }
    ensures { PutsLevel T.contents T.rest terms.old terms.new params.now values.now level result }
{
    if let Some(r) = put_leaf(terms, params, values, level) {
        return Ok(Some(r));
    }
    if layers == 0 {
        return Ok(None);
    }
    let node = terms.level(level);
    let Some(put) = put_parts(terms, params, values, node, layers - 1)? else {
        return Ok(None);
    };
    let r = terms.make_level(put)?;
    Ok(Some(r))
}

/// A node with values put in its parts, or `None`, where these have more layers or there are none.
#[cycle(layers)]
#[tactic(auto, unfolding(lk_tree::specs::Levels::put_in_level))]
fn put_parts<T: Terms>(
    terms: &mut T,
    params: &[u64],
    values: &[u64],
    node: LevelNode,
    layers: u32,
) -> Result<Option<LevelNode>, NoMemory>
    requires node_in { IsLevelIn (T.contents terms.old) node }
    requires params_in { All (λ p. p < length (T.contents terms.old).names) params.now }
    requires values_in { All (λ v. v < length (T.contents terms.old).levels) values.now }
    ensures { PutsNode T.contents T.rest terms.old terms.new params.now values.now node result }
{
    match node {
        LevelNode::Zero | LevelNode::Param(_) => Ok(None),
        LevelNode::Succ(a) => {
            let Some(x) = put_layers(terms, params, values, a, layers)? else {
                return Ok(None);
            };
            Ok(Some(LevelNode::Succ(x)))
        }
        LevelNode::Max(a, b) => {
            let Some(x) = put_layers(terms, params, values, a, layers)? else {
                return Ok(None);
            };
            let Some(y) = put_layers(terms, params, values, b, layers)? else {
                return Ok(None);
            };
            Ok(Some(LevelNode::Max(x, y)))
        }
        LevelNode::IMax(a, b) => {
            let Some(x) = put_layers(terms, params, values, a, layers)? else {
                return Ok(None);
            };
            let Some(y) = put_layers(terms, params, values, b, layers)? else {
                return Ok(None);
            };
            Ok(Some(LevelNode::IMax(x, y)))
        }
    }
}

/// A list of so many small levels with values in place of parameters, or `None`, where it has more
/// of them, or larger ones.
#[tactic(auto, using(crate::proofs::LevelValues::levels_closed))]
pub(crate) fn put_few<T: Terms>(
    terms: &mut T,
    params: &[u64],
    values: &[u64],
    levels: u64,
    count: u32,
) -> Result<Option<u64>, NoMemory>
    requires levels_in { levels < length (T.contents terms.old).lists }
    requires params_in { All (λ p. p < length (T.contents terms.old).names) params.now }
    requires values_in { All (λ v. v < length (T.contents terms.old).levels) values.now }
    ensures { PutsList T.contents T.rest terms.old terms.new params.now values.now levels result }
{
    if !terms.levels_have_params(levels) {
        return Ok(Some(levels));
    }
    match terms.levels(levels) {
        ListNode::Cons(first, others) if count > 0 => {
            let Some(ls) = put_few(terms, params, values, others, count - 1)? else {
                return Ok(None);
            };
            let Some(l) = put_layers(terms, params, values, first, LAYERS)? else {
                return Ok(None);
            };
            let r = terms.make_levels(ListNode::Cons(l, ls))?;
            Ok(Some(r))
        }
        _ => Ok(None),
    }
}
