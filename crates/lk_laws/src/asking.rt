//! The questions of laws, asked one after another of whoever answers them.

ghost use Rattle.std.specs.Prelude.{◌≡◌, ◌<◌, ◌≤◌, Option, IfOk, length, option_map, map};
ghost use Rattle.lk_tree.specs.Tree.{Tree};
ghost use Rattle.lk_questions.specs.NumberLaws.{def_given, held_given, laws_hold};
ghost use Rattle.lk_store.specs.Contents.{tree_at, Extends};
ghost use Rattle.lk_ask.specs.Asking.{BuildsTree};
ghost use Rattle.lk_declaration.specs.Courses.{ComesTo};
ghost use Rattle.lk_laws.specs.Operations.{op_at, constant_name};
ghost use Rattle.lk_laws.specs.Needs.{needed_steps};
ghost use Rattle.lk_laws.specs.Sides.{side_tree, law_at};
ghost use Rattle.lk_laws.specs.Steps.{sides_equal, law_holds, stated_laws, counted_laws, op_laws};

use crate::constant::Constant;
use crate::needs::{Laws, Needed};
use crate::operation::{LawfulOp, stated_by};
use crate::sides::{Side, make_side};
use crate::table::{Law, laws_of};
use lk_ask::asks::Asks;
use lk_ask::stop::Stop;
use lk_declaration::asking::are_same;
use lk_store::memory::NoMemory;
use lk_tree::rule::Rule;
use std::alloc::Global;

/// The term that a side is of this value.
fn build<A: Asks>(alloc: Global, asks: &mut A, side: Side, value: u64) -> Result<u64, NoMemory>
    requires { value < length (A.contents asks.old).trees }
    ensures { BuildsTree A.contents A.standing A.left asks.old asks.new result
        (λ c. side_tree (tree_at c value) side) }
{
    make_side(alloc, asks, side, value)
}

/// That what laws rest on is so.
fn need<A: Laws>(asks: &mut A, needed: Needed) -> Result<(), Stop>
    ensures keeps { Extends (A.contents asks.old) (A.contents asks.new) }
    ensures stays { A.standing asks.new ≡ A.standing asks.old }
    ensures outcome { ComesTo (A.standing asks.old) (needed_steps needed) (A.left asks.old) (λ u. u)
        (A.left asks.new) result }
{
    asks.need(needed)
}

/// That two terms are the same (`NatLaw`).
fn check_same<A: Asks>(asks: &mut A, left: u64, right: u64) -> Result<(), Stop>
    requires left_in { left < length (A.contents asks.old).trees }
    requires right_in { right < length (A.contents asks.old).trees }
    ensures keeps { Extends (A.contents asks.old) (A.contents asks.new) }
    ensures stays { A.standing asks.new ≡ A.standing asks.old }
    ensures outcome { (a b : Tree) → tree_at (A.contents asks.old) left ≡ a
        → tree_at (A.contents asks.old) right ≡ b
        → ComesTo (A.standing asks.old) (sides_equal a b) (A.left asks.old) (λ u. u)
        (A.left asks.new) result }
{
    if are_same(asks, left, right)? {
        Ok(())
    } else {
        Err(Stop::No(Rule::NatLaw))
    }
}

/// That both sides of a law are the same of this value (`NatLaw`).
fn check_sides<A: Asks>(alloc: Global, asks: &mut A, law: Law, value: u64) -> Result<(), Stop>
    requires { value < length (A.contents asks.old).trees }
    ensures keeps { Extends (A.contents asks.old) (A.contents asks.new) }
    ensures stays { A.standing asks.new ≡ A.standing asks.old }
    ensures outcome { (v : Tree) → tree_at (A.contents asks.old) value ≡ v
        → ComesTo (A.standing asks.old) (sides_equal (side_tree v law.left) (side_tree v law.right))
        (A.left asks.old) (λ u. u) (A.left asks.new) result }
{
    let left = build(alloc, asks, law.left, value)?;
    let right = build(alloc, asks, law.right, value)?;
    check_same(asks, left, right)
}

/// That the name that a law holds is given (`NoBuiltin`).
fn check_held<A: Laws>(asks: &mut A, holds: Option<Constant>) -> Result<(), Stop>
    ensures keeps { Extends (A.contents asks.old) (A.contents asks.new) }
    ensures stays { A.standing asks.new ≡ A.standing asks.old }
    ensures outcome { ComesTo (A.standing asks.old) (held_given (option_map constant_name holds))
        (A.left asks.old) (λ u. u) (A.left asks.new) result }
{
    match holds {
        Some(constant) => need(asks, Needed::Given(constant)),
        None => Ok(()),
    }
}

/// That a law holds of this value: the name in it is given, and both sides are the same.
fn check_law<A: Laws>(alloc: Global, asks: &mut A, law: Law, value: u64) -> Result<(), Stop>
    requires { value < length (A.contents asks.old).trees }
    ensures keeps { Extends (A.contents asks.old) (A.contents asks.new) }
    ensures stays { A.standing asks.new ≡ A.standing asks.old }
    ensures outcome { (v : Tree) → tree_at (A.contents asks.old) value ≡ v
        → ComesTo (A.standing asks.old) (law_holds (law_at v law)) (A.left asks.old) (λ u. u)
        (A.left asks.new) result }
{
    check_held(asks, law.holds)?;
    check_sides(alloc, asks, law, value)
}

/// That each of these laws holds of this value.
fn check_each<A: Laws>(alloc: Global, asks: &mut A, laws: &[Law], value: u64) -> Result<(), Stop>
    requires { value < length (A.contents asks.old).trees }
    ensures keeps { Extends (A.contents asks.old) (A.contents asks.new) }
    ensures stays { A.standing asks.new ≡ A.standing asks.old }
    ensures outcome { (v : Tree) → tree_at (A.contents asks.old) value ≡ v
        → ComesTo (A.standing asks.old) (laws_hold (map (law_at v) laws.now)) (A.left asks.old)
        (λ u. u) (A.left asks.new) result }
{
    let mut rest = laws;
    'laws: while let Some((law, more)) = rest.split_first() {
        check_law(alloc, asks, *law, value)?;
        rest = more;
    }
    Ok(())
}

/// That a definition gives the operation by which the laws are stated, if there is one.
fn check_stated<A: Laws>(asks: &mut A, op: Option<LawfulOp>) -> Result<(), Stop>
    ensures keeps { Extends (A.contents asks.old) (A.contents asks.new) }
    ensures stays { A.standing asks.new ≡ A.standing asks.old }
    ensures outcome { ComesTo (A.standing asks.old) (def_given (option_map op_at op))
        (A.left asks.old) (λ u. u) (A.left asks.new) result }
{
    match op {
        Some(op) => need(asks, Needed::Definition(op)),
        None => Ok(()),
    }
}

/// That the laws of an operation can be stated, and hold of this value.
fn check_laws<A: Laws>(alloc: Global, asks: &mut A, op: LawfulOp, value: u64) -> Result<(), Stop>
    requires { value < length (A.contents asks.old).trees }
    ensures keeps { Extends (A.contents asks.old) (A.contents asks.new) }
    ensures stays { A.standing asks.new ≡ A.standing asks.old }
    ensures outcome { (v : Tree) → tree_at (A.contents asks.old) value ≡ v
        → ComesTo (A.standing asks.old) (stated_laws (op_at op) v) (A.left asks.old) (λ u. u)
        (A.left asks.new) result }
{
    check_stated(asks, stated_by(op))?;
    check_each(alloc, asks, laws_of(op), value)
}

/// The same of a definition with these level parameters, which may have none (`NatLaw`).
fn check_without_levels<A: Laws>(
    alloc: Global,
    asks: &mut A,
    op: LawfulOp,
    levels: &[u64],
    value: u64,
) -> Result<(), Stop>
    requires { value < length (A.contents asks.old).trees }
    ensures keeps { Extends (A.contents asks.old) (A.contents asks.new) }
    ensures stays { A.standing asks.new ≡ A.standing asks.old }
    ensures outcome { (v : Tree) → tree_at (A.contents asks.old) value ≡ v
        → ComesTo (A.standing asks.old) (counted_laws (op_at op) (length levels.now) v)
        (A.left asks.old) (λ u. u) (A.left asks.new) result }
{
    if levels.is_empty() {
        check_laws(alloc, asks, op, value)
    } else {
        Err(Stop::No(Rule::NatLaw))
    }
}

/// What is asked of a definition that is named as an operation, with these level parameters and this value: `Nat` has its
/// shape, and the laws of the operation hold.
pub(crate) fn check_operation<A: Laws>(
    alloc: Global,
    asks: &mut A,
    op: LawfulOp,
    levels: &[u64],
    value: u64,
) -> Result<(), Stop>
    requires { value < length (A.contents asks.old).trees }
    ensures keeps { Extends (A.contents asks.old) (A.contents asks.new) }
    ensures stays { A.standing asks.new ≡ A.standing asks.old }
    ensures outcome { (v : Tree) → tree_at (A.contents asks.old) value ≡ v
        → ComesTo (A.standing asks.old) (op_laws (op_at op) (length levels.now) v)
        (A.left asks.old) (λ u. u) (A.left asks.new) result }
{
    need(asks, Needed::NatShape)?;
    check_without_levels(alloc, asks, op, levels, value)
}
