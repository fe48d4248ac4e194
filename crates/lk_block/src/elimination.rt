//! Whether a block may be eliminated into every universe.

ghost use Rattle.std.specs.Prelude.{◌≡◌, ◌<◌, length, map, All, IfOk};
ghost use Rattle.lk_tree.specs.Tree.{zero_level, succ_level};
ghost use Rattle.lk_store.specs.Contents.{level_at, tree_at, level_of, IsLevelIn, Extends, IsLevel};
ghost use Rattle.lk_inductive.specs.BlockSteps.{is_among, small_steps, one_ctor_steps, one_type_steps, large_steps};
ghost use Rattle.lk_declaration.specs.Courses.{ComesTo, Settles};
ghost use Rattle.lk_block.specs.Shapes.{field_at, constructor_shape_at, type_shape_at, AreTreesIn, IsFieldIn, IsConstructorShapeIn, IsTypeShapeIn};
ghost use Rattle.lk_block.specs.Smalls.{small_form, above_form};

use crate::over::domain_of;
use crate::shape::{ConstructorShape, Field, TypeShape};
use lk_ask::asks::Asks;
use lk_ask::stop::Stop;
use lk_declaration::asking::{is_at_most, sort_of};
use lk_store::memory::NoMemory;
use lk_store::node::LevelNode;
use lk_store::terms::Terms;
use std::alloc::Global;

/// A number of the level that the node makes of its parts.
fn build_level<A: Asks>(asks: &mut A, node: LevelNode) -> Result<u64, NoMemory>
    requires { IsLevelIn (A.contents asks.old) node }
    ensures keeps { Extends (A.contents asks.old) (A.contents asks.new) }
    ensures stays { A.standing asks.new ≡ A.standing asks.old }
    ensures left { A.left asks.new ≡ A.left asks.old }
    ensures ok { IfOk result (λ l. IsLevel (A.contents asks.new) l
        (level_of (A.contents asks.old) node)) }
{
    asks.make_level(node)
}

/// The level 1.
fn level_one<A: Asks>(asks: &mut A) -> Result<u64, NoMemory>
    ensures keeps { Extends (A.contents asks.old) (A.contents asks.new) }
    ensures stays { A.standing asks.new ≡ A.standing asks.old }
    ensures left { A.left asks.new ≡ A.left asks.old }
    ensures ok { IfOk result (λ l. IsLevel (A.contents asks.new) l (succ_level zero_level)) }
{
    let zero = build_level(asks, LevelNode::Zero)?;
    build_level(asks, LevelNode::Succ(zero))
}

/// Whether a level is at least 1 under every assignment.
fn is_above_zero<A: Asks>(alloc: Global, asks: &mut A, level: u64) -> Result<bool, Stop>
    requires { level < length (A.contents asks.old).levels }
    ensures keeps { Extends (A.contents asks.old) (A.contents asks.new) }
    ensures stays { A.standing asks.new ≡ A.standing asks.old }
    ensures left { A.left asks.new ≡ A.left asks.old }
    ensures outcome { Settles (above_form (level_at (A.contents asks.old) level)) (λ r. r) result }
{
    let one = level_one(asks)?;
    is_at_most(alloc, asks, one, level)
}

/// Whether a term is among these.
fn is_among<T: Terms>(terms: &T, e: u64, others: &[u64]) -> bool
    requires e_in { e < length (T.contents terms.now).trees }
    requires others_in { AreTreesIn (T.contents terms.now) others.now }
    ensures { result ≡ is_among (tree_at (T.contents terms.now) e)
        (map (tree_at (T.contents terms.now)) others.now) }
{
    let mut rest = others;
    'others: while let Some((other, more)) = rest.split_first() {
        if terms.same(e, *other) {
            return true;
        }
        rest = more;
    }
    false
}

/// Whether a field is a proof or one of the indices. Its sort is asked for first.
fn is_small<A: Asks>(asks: &mut A, indices: &[u64], variable: u64) -> Result<bool, Stop>
    requires indices_in { AreTreesIn (A.contents asks.old) indices.now }
    requires variable_in { variable < length (A.contents asks.old).trees }
    ensures keeps { Extends (A.contents asks.old) (A.contents asks.new) }
    ensures stays { A.standing asks.new ≡ A.standing asks.old }
    ensures outcome { ComesTo (A.standing asks.old)
        (small_form (map (tree_at (A.contents asks.old)) indices.now)
        (tree_at (A.contents asks.old) variable)) (A.left asks.old) (λ r. r)
        (A.left asks.new) result }
{
    let ty = domain_of(asks, variable);
    let level = sort_of(asks, ty)?;
    if asks.level_is_zero(level) {
        Ok(true)
    } else {
        Ok(is_among(asks, variable, indices))
    }
}

/// Whether each of these fields is a proof or one of the indices. The first that is neither ends it.
fn are_small<A: Asks>(asks: &mut A, indices: &[u64], fields: &[Field]) -> Result<bool, Stop>
    requires indices_in { AreTreesIn (A.contents asks.old) indices.now }
    requires fields_in { All (IsFieldIn (A.contents asks.old)) fields.now }
    ensures keeps { Extends (A.contents asks.old) (A.contents asks.new) }
    ensures stays { A.standing asks.new ≡ A.standing asks.old }
    ensures outcome { ComesTo (A.standing asks.old)
        (small_steps (map (tree_at (A.contents asks.old)) indices.now)
        (map (field_at (A.contents asks.old)) fields.now)) (A.left asks.old) (λ r. r)
        (A.left asks.new) result }
{
    let mut rest = fields;
    'fields: while let Some((field, more)) = rest.split_first() {
        let small = is_small(asks, indices, field.variable)?;
        if !small {
            return Ok(false);
        }
        rest = more;
    }
    Ok(true)
}

/// Whether there is no constructor, or one whose fields are each a proof or one of its indices.
fn has_small_constructor<A: Asks>(
    asks: &mut A,
    constructors: &[ConstructorShape],
) -> Result<bool, Stop>
    requires { All (IsConstructorShapeIn (A.contents asks.old)) constructors.now }
    ensures keeps { Extends (A.contents asks.old) (A.contents asks.new) }
    ensures stays { A.standing asks.new ≡ A.standing asks.old }
    ensures outcome { ComesTo (A.standing asks.old)
        (one_ctor_steps (map (constructor_shape_at (A.contents asks.old)) constructors.now))
        (A.left asks.old) (λ r. r) (A.left asks.new) result }
{
    match constructors.split_first() {
        None => Ok(true),
        Some((constructor, more)) => {
            if more.is_empty() {
                are_small(asks, &constructor.indices, &constructor.fields)
            } else {
                Ok(false)
            }
        }
    }
}

/// Whether there is one type, and no constructor, or one whose fields are each a proof or one of its indices.
fn has_small_type<A: Asks>(asks: &mut A, types: &[TypeShape]) -> Result<bool, Stop>
    requires { All (IsTypeShapeIn (A.contents asks.old)) types.now }
    ensures keeps { Extends (A.contents asks.old) (A.contents asks.new) }
    ensures stays { A.standing asks.new ≡ A.standing asks.old }
    ensures outcome { ComesTo (A.standing asks.old)
        (one_type_steps (map (type_shape_at (A.contents asks.old)) types.now)) (A.left asks.old)
        (λ r. r) (A.left asks.new) result }
{
    match types.split_first() {
        None => Ok(false),
        Some((only, others)) => {
            if others.is_empty() {
                has_small_constructor(asks, &only.constructors)
            } else {
                Ok(false)
            }
        }
    }
}

/// Whether a block of these types, whose sort has this level, may be eliminated into every universe: the level is at least
/// 1, or there is one type, with no constructor, or with one whose fields are each a proof or one of its indices.
pub fn may_be_large<A: Asks>(
    alloc: Global,
    asks: &mut A,
    sort: u64,
    types: &[TypeShape],
) -> Result<bool, Stop>
    requires sort_in { sort < length (A.contents asks.old).levels }
    requires types_in { All (IsTypeShapeIn (A.contents asks.old)) types.now }
    ensures keeps { Extends (A.contents asks.old) (A.contents asks.new) }
    ensures stays { A.standing asks.new ≡ A.standing asks.old }
    ensures outcome { ComesTo (A.standing asks.old)
        (large_steps (level_at (A.contents asks.old) sort)
        (map (type_shape_at (A.contents asks.old)) types.now)) (A.left asks.old) (λ r. r)
        (A.left asks.new) result }
{
    if is_above_zero(alloc, asks, sort)? {
        Ok(true)
    } else {
        has_small_type(asks, types)
    }
}
