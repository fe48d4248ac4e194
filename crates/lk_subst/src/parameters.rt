//! Levels put in place of parameters.

ghost use Rattle.std.specs.Prelude.{◌≡◌, ◌<◌, length, map, All, IfOk, IfSome, IfNone};
ghost use Rattle.lk_tree.specs.Tree.{param};
ghost use Rattle.lk_tree.specs.Levels.{level_for};
ghost use Rattle.lk_store.specs.Contents.{name_at, level_at, Extends, IsLevel};
ghost use Rattle.lk_subst.specs.Parameters.{for_name, IsPut, ArePutIn};

use crate::by_parts::put_by_parts;
use crate::small::{LAYERS, LEVELS, put_few, put_layers};
use lk_store::memory::NoMemory;
use lk_store::node::ListNode;
use lk_store::terms::Terms;
use std::alloc::Global;

/// The value for a name. Of a repeated parameter the first counts.
pub(crate) fn value_for<T: Terms>(
    terms: &T,
    params: &[u64],
    values: &[u64],
    name: u64,
) -> Option<u64>
    requires params_in { All (λ p. p < length (T.contents terms.now).names) params.now }
    requires values_in { All (λ v. v < length (T.contents terms.now).levels) values.now }
    requires name_in { name < length (T.contents terms.now).names }
    ensures absent { IfNone result (for_name (T.contents terms.now) params.now values.now name
        ≡ param (name_at (T.contents terms.now) name)) }
    ensures present { IfSome result (λ v. IsLevel (T.contents terms.now) v
        (for_name (T.contents terms.now) params.now values.now name)) }
{
    for i in 0..params.len() {
        if i >= values.len() {
            return None;
        }
        if terms.same_name(params[i], name) {
            return Some(values[i]);
        }
    }
    None
}

/// The level with values in place of parameters.
pub fn put_in_level<T: Terms>(
    alloc: Global,
    terms: &mut T,
    params: &[u64],
    values: &[u64],
    level: u64,
) -> Result<u64, NoMemory>
    requires level_in { level < length (T.contents terms.old).levels }
    requires params_in { All (λ p. p < length (T.contents terms.old).names) params.now }
    requires values_in { All (λ v. v < length (T.contents terms.old).levels) values.now }
    ensures keeps { Extends (T.contents terms.old) (T.contents terms.new) }
    ensures rest { T.rest terms.new ≡ T.rest terms.old }
    ensures ok { IfOk result (λ r. IsPut (T.contents terms.old) params.now values.now level
        (T.contents terms.new) r) }
{
    if let Some(r) = put_layers(terms, params, values, level, LAYERS)? {
        return Ok(r);
    }
    let r = put_by_parts(alloc, terms, params, values, level)?;
    Ok(r)
}

/// The levels of a list, one after another, with values in place of parameters.
fn put_each<T: Terms>(
    alloc: Global,
    terms: &mut T,
    params: &[u64],
    values: &[u64],
    levels: u64,
) -> Result<u64, NoMemory>
    requires levels_in { levels < length (T.contents terms.old).lists }
    requires params_in { All (λ p. p < length (T.contents terms.old).names) params.now }
    requires values_in { All (λ v. v < length (T.contents terms.old).levels) values.now }
    ensures keeps { Extends (T.contents terms.old) (T.contents terms.new) }
    ensures rest { T.rest terms.new ≡ T.rest terms.old }
    ensures ok { IfOk result (λ r. ArePutIn (T.contents terms.old) params.now values.now levels
        (T.contents terms.new) r) }
{
    let mut found: Vec<u64> = Vec::new(alloc);
    let mut at = levels;
    'down: while let ListNode::Cons(first, others) = terms.levels(at) {
        found.push(first)?;
        at = others;
    }
    'up: while let Some(level) = found.pop() {
        let r = put_in_level(alloc, terms, params, values, level)?;
        at = terms.make_levels(ListNode::Cons(r, at))?;
    }
    Ok(at)
}

/// The levels of a list with values in place of parameters.
pub fn put_levels<T: Terms>(
    alloc: Global,
    terms: &mut T,
    params: &[u64],
    values: &[u64],
    levels: u64,
) -> Result<u64, NoMemory>
    requires levels_in { levels < length (T.contents terms.old).lists }
    requires params_in { All (λ p. p < length (T.contents terms.old).names) params.now }
    requires values_in { All (λ v. v < length (T.contents terms.old).levels) values.now }
    ensures keeps { Extends (T.contents terms.old) (T.contents terms.new) }
    ensures rest { T.rest terms.new ≡ T.rest terms.old }
    ensures ok { IfOk result (λ r. ArePutIn (T.contents terms.old) params.now values.now levels
        (T.contents terms.new) r) }
{
    if let Some(r) = put_few(terms, params, values, levels, LEVELS)? {
        return Ok(r);
    }
    let r = put_each(alloc, terms, params, values, levels)?;
    Ok(r)
}
