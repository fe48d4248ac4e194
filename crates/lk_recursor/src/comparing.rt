//! The stated recursors of a block against those of its shape.

ghost use Rattle.std.specs.Prelude.{◌≡◌, ◌<◌, length, map, All};
ghost use Rattle.lk_questions.specs.Declarations.{checked};
ghost use Rattle.lk_store.specs.Contents.{name_at, tree_at, Extends};
ghost use Rattle.lk_env.specs.Units.{recursor_at, IsRecursorIn};
ghost use Rattle.lk_inductive.specs.Recursors.{recursors_by};
ghost use Rattle.lk_inductive.specs.Compare.{rules_steps, rec_steps, rec_named, compare_found, compare_steps};
ghost use Rattle.lk_declaration.specs.Courses.{ComesTo};
ghost use Rattle.lk_block.specs.Shapes.{shape_at, IsShapeIn, IsConstructorShapeIn};
ghost use Rattle.lk_restore.specs.Originals.{restoring_at, AreOriginals};
ghost use Rattle.lk_recursor.specs.Fronts.{IsFront, read_by, own_recursors};
ghost use Rattle.lk_recursor.specs.Comparisons.{own_at, stated_of, own_of, renamed_type, renamed_value, same_form, rule_form, parts_form, trees_form, IsShared, IsOwnRecursor, IsComparison};

use crate::between::{front_between, levels_between, names_between, rule_between, type_between};
use crate::counts::counts_agree;
use crate::front::Front;
use crate::own::{Comparison, OwnRecursor, Shared, named};
use crate::recursor::by_k;
use lk_ask::asks::Asks;
use lk_ask::stop::Stop;
use lk_block::shape::{ConstructorShape, Shape};
use lk_declaration::asking::{are_same, sort_of, type_of};
use lk_env::unit::Recursor;
use lk_restore::Original;
use lk_tree::rule::Rule;
use std::alloc::Global;

/// Two terms that are to be the same.
fn check_same<A: Asks>(asks: &mut A, stated: u64, made: u64) -> Result<(), Stop>
    requires stated_in { stated < length (A.contents asks.old).trees }
    requires made_in { made < length (A.contents asks.old).trees }
    ensures keeps { Extends (A.contents asks.old) (A.contents asks.new) }
    ensures stays { A.standing asks.new ≡ A.standing asks.old }
    ensures outcome { ComesTo (A.standing asks.old)
        (same_form (tree_at (A.contents asks.old) stated) (tree_at (A.contents asks.old) made))
        (A.left asks.old) (λ u. checked) (A.left asks.new) result }
{
    if are_same(asks, stated, made)? {
        Ok(())
    } else {
        Err(Stop::No(Rule::RecursorDiffers))
    }
}

/// The stated type against the recomputed one.
fn check_type<A: Asks>(alloc: Global, asks: &mut A, pair: &Comparison) -> Result<(), Stop>
    requires { IsComparison (A.contents asks.old) pair.now }
    ensures keeps { Extends (A.contents asks.old) (A.contents asks.new) }
    ensures stays { A.standing asks.new ≡ A.standing asks.old }
    ensures outcome { ComesTo (A.standing asks.old)
        (same_form (stated_of (A.contents asks.old) pair.now).type
        (renamed_type (A.contents asks.old) pair.now)) (A.left asks.old) (λ u. checked)
        (A.left asks.new) result }
{
    let made = type_between(alloc, asks, pair)?;
    check_same(asks, pair.stated.ty, made)
}

/// The stated value of a rule against the recomputed one.
fn check_value<A: Asks>(
    alloc: Global,
    asks: &mut A,
    pair: &Comparison,
    minor: u64,
    constructor: &ConstructorShape,
    value: u64,
) -> Result<(), Stop>
    requires pair_is { IsComparison (A.contents asks.old) pair.now }
    requires minor_in { minor < length (A.contents asks.old).trees }
    requires constructor_in { IsConstructorShapeIn (A.contents asks.old) constructor.now }
    requires value_in { value < length (A.contents asks.old).trees }
    ensures keeps { Extends (A.contents asks.old) (A.contents asks.new) }
    ensures stays { A.standing asks.new ≡ A.standing asks.old }
    ensures outcome { ComesTo (A.standing asks.old)
        (same_form (tree_at (A.contents asks.old) value)
        (renamed_value (A.contents asks.old) pair.now minor constructor.now)) (A.left asks.old)
        (λ u. checked) (A.left asks.new) result }
{
    let made = rule_between(alloc, asks, pair, minor, constructor)?;
    check_same(asks, value, made)
}

/// The stated value of a rule, which is to have a type, against the recomputed one.
fn check_rule<A: Asks>(
    alloc: Global,
    asks: &mut A,
    pair: &Comparison,
    minor: u64,
    constructor: &ConstructorShape,
    value: u64,
) -> Result<(), Stop>
    requires pair_is { IsComparison (A.contents asks.old) pair.now }
    requires minor_in { minor < length (A.contents asks.old).trees }
    requires constructor_in { IsConstructorShapeIn (A.contents asks.old) constructor.now }
    requires value_in { value < length (A.contents asks.old).trees }
    ensures keeps { Extends (A.contents asks.old) (A.contents asks.new) }
    ensures stays { A.standing asks.new ≡ A.standing asks.old }
    ensures outcome { ComesTo (A.standing asks.old)
        (rule_form (tree_at (A.contents asks.old) value)
        (renamed_value (A.contents asks.old) pair.now minor constructor.now)) (A.left asks.old)
        (λ u. checked) (A.left asks.new) result }
{
    type_of(asks, value)?;
    check_value(alloc, asks, pair, minor, constructor, value)
}

/// The stated rules against those of the type's constructors, one after another.
fn check_rules<A: Asks>(alloc: Global, asks: &mut A, pair: &Comparison) -> Result<(), Stop>
    requires { IsComparison (A.contents asks.old) pair.now }
    ensures keeps { Extends (A.contents asks.old) (A.contents asks.new) }
    ensures stays { A.standing asks.new ≡ A.standing asks.old }
    ensures outcome { ComesTo (A.standing asks.old)
        (rules_steps (stated_of (A.contents asks.old) pair.now)
        (own_of (A.contents asks.old) pair.now)
        (stated_of (A.contents asks.old) pair.now).recursor.rules
        (own_of (A.contents asks.old) pair.now).recursor.rules) (A.left asks.old) (λ u. checked)
        (A.left asks.new) result }
{
    let mut rules = pair.stated.rules.as_slice();
    let mut minors = pair.own.minors;
    let mut constructors = pair.own.of.constructors.as_slice();
    'rules: while let Some((rule, more_rules)) = rules.split_first() {
        match minors.split_first() {
            None => return Ok(()),
            Some((minor, more_minors)) => match constructors.split_first() {
                None => return Ok(()),
                Some((constructor, others)) => {
                    check_rule(alloc, asks, pair, *minor, constructor, rule.value)?;
                    rules = more_rules;
                    minors = more_minors;
                    constructors = others;
                }
            },
        }
    }
    Ok(())
}

/// The stated type against the recomputed one, and then the rules.
fn check_parts<A: Asks>(alloc: Global, asks: &mut A, pair: &Comparison) -> Result<(), Stop>
    requires { IsComparison (A.contents asks.old) pair.now }
    ensures keeps { Extends (A.contents asks.old) (A.contents asks.new) }
    ensures stays { A.standing asks.new ≡ A.standing asks.old }
    ensures outcome { ComesTo (A.standing asks.old)
        (parts_form (stated_of (A.contents asks.old) pair.now)
        (own_of (A.contents asks.old) pair.now)) (A.left asks.old) (λ u. checked)
        (A.left asks.new) result }
{
    check_type(alloc, asks, pair)?;
    check_rules(alloc, asks, pair)
}

/// The stated type, which is to have a sort, and the rules against the recomputed ones.
fn check_trees<A: Asks>(alloc: Global, asks: &mut A, pair: &Comparison) -> Result<(), Stop>
    requires { IsComparison (A.contents asks.old) pair.now }
    ensures keeps { Extends (A.contents asks.old) (A.contents asks.new) }
    ensures stays { A.standing asks.new ≡ A.standing asks.old }
    ensures outcome { ComesTo (A.standing asks.old)
        (trees_form (stated_of (A.contents asks.old) pair.now)
        (own_of (A.contents asks.old) pair.now)) (A.left asks.old) (λ u. checked)
        (A.left asks.new) result }
{
    sort_of(asks, pair.stated.ty)?;
    check_parts(alloc, asks, pair)
}

/// A stated recursor against the block's own of its name: the counts, and then the terms.
fn check_pair<A: Asks>(alloc: Global, asks: &mut A, pair: &Comparison) -> Result<(), Stop>
    requires { IsComparison (A.contents asks.old) pair.now }
    ensures keeps { Extends (A.contents asks.old) (A.contents asks.new) }
    ensures stays { A.standing asks.new ≡ A.standing asks.old }
    ensures outcome { ComesTo (A.standing asks.old)
        (rec_steps (stated_of (A.contents asks.old) pair.now)
        (own_of (A.contents asks.old) pair.now)) (A.left asks.old) (λ u. checked)
        (A.left asks.new) result }
{
    if !counts_agree(asks, pair) {
        return Err(Stop::No(Rule::RecursorDiffers));
    }
    check_trees(alloc, asks, pair)
}

/// A stated recursor against the block's own of its name.
fn check_found<A: Asks>(
    alloc: Global,
    asks: &mut A,
    shared: &Shared,
    own: OwnRecursor,
    stated: &Recursor,
) -> Result<(), Stop>
    requires shared_is { IsShared (A.contents asks.old) shared.now }
    requires own_is { IsOwnRecursor (A.contents asks.old) own }
    requires stated_in { IsRecursorIn (A.contents asks.old) stated.now }
    ensures keeps { Extends (A.contents asks.old) (A.contents asks.new) }
    ensures stays { A.standing asks.new ≡ A.standing asks.old }
    ensures outcome { ComesTo (A.standing asks.old)
        (rec_steps (recursor_at (A.contents asks.old) stated.now)
        (own_at (A.contents asks.old)
        (read_by (A.contents asks.old) shared.now.shape.now shared.now.front.now)
        (shape_at (A.contents asks.old) shared.now.shape.now) own.entry)) (A.left asks.old)
        (λ u. checked) (A.left asks.new) result }
{
    let levels = levels_between(alloc, asks, &stated.levels)?;
    let pair = Comparison {
        shared: *shared,
        own,
        stated,
        levels: &levels,
    };
    check_pair(alloc, asks, &pair)
}

/// A stated recursor against the recursors of the block.
fn check_recursor<A: Asks>(
    alloc: Global,
    asks: &mut A,
    shared: &Shared,
    stated: &Recursor,
) -> Result<(), Stop>
    requires shared_is { IsShared (A.contents asks.old) shared.now }
    requires stated_in { IsRecursorIn (A.contents asks.old) stated.now }
    ensures keeps { Extends (A.contents asks.old) (A.contents asks.new) }
    ensures stays { A.standing asks.new ≡ A.standing asks.old }
    ensures outcome { ComesTo (A.standing asks.old)
        (compare_found (recursor_at (A.contents asks.old) stated.now)
        (rec_named (own_recursors (A.contents asks.old) shared.now.shape.now shared.now.front.now)
        (name_at (A.contents asks.old) stated.now.name))) (A.left asks.old) (λ u. checked)
        (A.left asks.new) result }
{
    match named(asks, shared, stated.name) {
        None => Err(Stop::No(Rule::RecursorDiffers)),
        Some(own) => check_found(alloc, asks, shared, own, stated),
    }
}

/// The stated recursors, one after another, against the recursors of the block.
fn check_all<A: Asks>(
    alloc: Global,
    asks: &mut A,
    shared: &Shared,
    stated: &[Recursor],
) -> Result<(), Stop>
    requires shared_is { IsShared (A.contents asks.old) shared.now }
    requires stated_in { All (IsRecursorIn (A.contents asks.old)) stated.now }
    ensures keeps { Extends (A.contents asks.old) (A.contents asks.new) }
    ensures stays { A.standing asks.new ≡ A.standing asks.old }
    ensures outcome { ComesTo (A.standing asks.old)
        (compare_steps (own_recursors (A.contents asks.old) shared.now.shape.now
        shared.now.front.now)
        (map (recursor_at (A.contents asks.old)) stated.now)) (A.left asks.old) (λ u. checked)
        (A.left asks.new) result }
{
    let mut rest = stated;
    'stated: while let Some((recursor, more)) = rest.split_first() {
        check_recursor(alloc, asks, shared, recursor)?;
        rest = more;
    }
    Ok(())
}

/// The stated recursors against those of the block, of which all share this.
fn compare_with<A: Asks>(
    alloc: Global,
    asks: &mut A,
    shape: &Shape,
    front: &Front,
    stated: &[Recursor],
) -> Result<(), Stop>
    requires shape_in { IsShapeIn (A.contents asks.old) shape.now }
    requires front_is { IsFront (A.contents asks.old) shape.now front.now }
    requires stated_in { All (IsRecursorIn (A.contents asks.old)) stated.now }
    ensures keeps { Extends (A.contents asks.old) (A.contents asks.new) }
    ensures stays { A.standing asks.new ≡ A.standing asks.old }
    ensures outcome { ComesTo (A.standing asks.old)
        (compare_steps (own_recursors (A.contents asks.old) shape.now front.now)
        (map (recursor_at (A.contents asks.old)) stated.now)) (A.left asks.old) (λ u. checked)
        (A.left asks.new) result }
{
    let names = names_between(alloc, asks, shape, front)?;
    let k = by_k(asks, shape);
    let shared = Shared {
        shape,
        front,
        names: &names,
        k,
    };
    check_all(alloc, asks, &shared, stated)
}

/// The stated recursors, in their order, against those of the block's shape, read back. A recursor that is not stated is not
/// missed, and not made.
///
/// Each has the name of one of these, its counts, its k and its rules' constructors and numbers of fields, a type that has a
/// sort (`NotASort`) and is the same, and in each rule a value that has a type and is the same (`RecursorDiffers`). What a
/// question refuses is handed on.
pub fn compare<A: Asks>(
    alloc: Global,
    asks: &mut A,
    originals: &[Original],
    shape: &Shape,
    stated: &[Recursor],
) -> Result<(), Stop>
    requires shape_in { IsShapeIn (A.contents asks.old) shape.now }
    requires originals_are { AreOriginals (A.contents asks.old)
        (shape_at (A.contents asks.old) shape.now) originals.now }
    requires stated_in { All (IsRecursorIn (A.contents asks.old)) stated.now }
    ensures keeps { Extends (A.contents asks.old) (A.contents asks.new) }
    ensures stays { A.standing asks.new ≡ A.standing asks.old }
    ensures outcome { ComesTo (A.standing asks.old)
        (compare_steps (recursors_by (restoring_at (A.contents asks.old) originals.now
        (shape_at (A.contents asks.old) shape.now))
        (shape_at (A.contents asks.old) shape.now))
        (map (recursor_at (A.contents asks.old)) stated.now)) (A.left asks.old) (λ u. checked)
        (A.left asks.new) result }
{
    if stated.is_empty() {
        return Ok(());
    }
    let front = front_between(alloc, asks, shape, originals)?;
    compare_with(alloc, asks, shape, &front, stated)
}
