//! Values put for the parameters of a level, each of its parts once.

ghost use Rattle.std.specs.Prelude.{◌≡◌, ◌<◌, length, All, IfOk};
ghost use Rattle.lk_store.specs.Contents.{level_at, Extends, IsLevel};
ghost use Rattle.lk_subst.specs.Parts.{AreMet};
ghost use Rattle.lk_subst.specs.Parameters.{putting, ArePut, IsPut};

use crate::parameters::value_for;
use crate::parts::{Met, level_parts};
use lk_rows::table::Table;
use lk_store::memory::NoMemory;
use lk_store::node::LevelNode;
use lk_store::terms::Terms;
use std::alloc::Global;

/// What is made already of a level.
#[tactic(auto, using(crate::proofs::LevelValues::levels_closed))]
fn made_of<T: Terms>(
    terms: &T,
    params: &[u64],
    values: &[u64],
    met: &Table<Met>,
    made: &[u64],
    level: u64,
) -> Result<u64, NoMemory>
    requires level_in { level < length (T.contents terms.now).levels }
    requires made { ArePut (putting (T.contents terms.now) params.now values.now)
        (T.contents terms.now) met.now made.now }
    ensures { IfOk result (λ r. IsPut (T.contents terms.now) params.now values.now level
        (T.contents terms.now) r) }
{
    let _params = params;
    let _values = values;
    if !terms.level_has_params(level) {
        return Ok(level);
    }
    match met.find(&level) {
        Some(i) if i < made.len() as u64 => Ok(made[i as usize]),
        // The parts of a level come before it.
        _ => Err(NoMemory),
    }
}

/// What is made of a level, once its parts are made.
#[tactic(auto, unfolding(lk_tree::specs::Levels::put_in_level))]
fn put_one<T: Terms>(
    terms: &mut T,
    params: &[u64],
    values: &[u64],
    met: &Table<Met>,
    made: &[u64],
    level: u64,
) -> Result<u64, NoMemory>
    requires level_in { level < length (T.contents terms.old).levels }
    requires params_in { All (λ p. p < length (T.contents terms.old).names) params.now }
    requires values_in { All (λ v. v < length (T.contents terms.old).levels) values.now }
    requires made { ArePut (putting (T.contents terms.old) params.now values.now)
        (T.contents terms.old) met.now made.now }
    ensures keeps { Extends (T.contents terms.old) (T.contents terms.new) }
    ensures rest { T.rest terms.new ≡ T.rest terms.old }
    ensures ok { IfOk result (λ r. IsPut (T.contents terms.old) params.now values.now level
        (T.contents terms.new) r) }
{
    match terms.level(level) {
        LevelNode::Zero => Ok(level),
        LevelNode::Succ(a) => {
            let x = made_of(terms, params, values, met, made, a)?;
            terms.make_level(LevelNode::Succ(x))
        }
        LevelNode::Max(a, b) => {
            let x = made_of(terms, params, values, met, made, a)?;
            let y = made_of(terms, params, values, met, made, b)?;
            terms.make_level(LevelNode::Max(x, y))
        }
        LevelNode::IMax(a, b) => {
            let x = made_of(terms, params, values, met, made, a)?;
            let y = made_of(terms, params, values, met, made, b)?;
            terms.make_level(LevelNode::IMax(x, y))
        }
        LevelNode::Param(n) => match value_for(terms, params, values, n) {
            Some(v) => Ok(v),
            None => Ok(level),
        },
    }
}

/// What is made of levels that stand each after its parts.
fn put_all<T: Terms>(
    alloc: Global,
    terms: &mut T,
    params: &[u64],
    values: &[u64],
    met: &Table<Met>,
) -> Result<Vec<u64>, NoMemory>
    requires met_in { AreMet (T.contents terms.old) met.now }
    requires params_in { All (λ p. p < length (T.contents terms.old).names) params.now }
    requires values_in { All (λ v. v < length (T.contents terms.old).levels) values.now }
    ensures keeps { Extends (T.contents terms.old) (T.contents terms.new) }
    ensures rest { T.rest terms.new ≡ T.rest terms.old }
    ensures ok { IfOk result (λ made. ArePut (putting (T.contents terms.old) params.now values.now)
        (T.contents terms.new) met.now made.items) }
{
    let mut made: Vec<u64> = Vec::new(alloc);
    'each: for i in 0..met.len() {
        let part = met.get(i).level;
        let r = put_one(terms, params, values, met, &made, part)?;
        made.push(r)?;
    }
    Ok(made)
}

/// The level with values in place of parameters.
pub(crate) fn put_by_parts<T: Terms>(
    alloc: Global,
    terms: &mut T,
    params: &[u64],
    values: &[u64],
    level: u64,
) -> Result<u64, NoMemory>
    requires level_in { level < length (T.contents terms.old).levels }
    requires params_in { All (λ p. p < length (T.contents terms.old).names) params.now }
    requires values_in { All (λ v. v < length (T.contents terms.old).levels) values.now }
    ensures keeps { Extends (T.contents terms.old) (T.contents terms.new) }
    ensures rest { T.rest terms.new ≡ T.rest terms.old }
    ensures ok { IfOk result (λ r. IsPut (T.contents terms.old) params.now values.now level
        (T.contents terms.new) r) }
{
    let met = level_parts(alloc, terms, level)?;
    let made = put_all(alloc, terms, params, values, &met)?;
    let r = made_of(terms, params, values, &met, &made, level)?;
    Ok(r)
}
