//! The types of a block: what their parameters, their indices and the level of their sort are.

ghost use Rattle.std.specs.Prelude.{◌≡◌, ◌<◌, ◌∷◌, [], length, map, All, IfOk};
ghost use Rattle.lk_store.specs.Contents.{level_at, tree_at, Extends};
ghost use Rattle.lk_env.specs.Units.{type_at, IsTypeIn};
ghost use Rattle.lk_inductive.specs.Block.{AreLocals};
ghost use Rattle.lk_inductive.specs.BlockSteps.{type_end, types_steps};
ghost use Rattle.lk_declaration.specs.Courses.{ComesTo};
ghost use Rattle.lk_block.specs.Forms.{end_form, next_form};
ghost use Rattle.lk_block.specs.Parts.{lists_at, AreListsIn, parts_at, ArePartsIn, more_form, self_form, open_form, first_form, others_form};

use crate::asking::level_of;
use crate::over::over;
use crate::telescope::telescope;
use lk_ask::asks::Asks;
use lk_ask::stop::Stop;
use lk_declaration::asking::{levels_equal, sort_of};
use lk_env::unit::BlockType;
use lk_store::memory::NoMemory;
use lk_tree::rule::Rule;
use std::alloc::Global;

/// The indices of a type past its parameters, and the level of its sort.
fn type_end<A: Asks>(
    alloc: Global,
    asks: &mut A,
    first: u64,
    count: u64,
    e: u64,
) -> Result<(Vec<u64>, u64), Stop>
    requires { e < length (A.contents asks.old).trees }
    ensures keeps { Extends (A.contents asks.old) (A.contents asks.new) }
    ensures stays { A.standing asks.new ≡ A.standing asks.old }
    ensures indices_known { IfOk result (λ t. All
        (λ x. x < length (A.contents asks.new).trees) t.0.items) }
    ensures level_known { IfOk result (λ t. t.1 < length (A.contents asks.new).levels) }
    ensures outcome { ComesTo (A.standing asks.old)
        (type_end first count (tree_at (A.contents asks.old) e)) (A.left asks.old)
        (λ t. (map (tree_at (A.contents asks.new)) t.0.items, level_at (A.contents asks.new) t.1))
        (A.left asks.new) result }
{
    let opened = telescope(alloc, asks, first, count, e)?;
    let level = level_of(asks, opened.1)?;
    Ok((opened.0, level))
}

/// The indices of a type past its parameters, where the level of its sort is to be this one.
fn end_at_level<A: Asks>(
    alloc: Global,
    asks: &mut A,
    first: u64,
    count: u64,
    level: u64,
    e: u64,
) -> Result<Vec<u64>, Stop>
    requires e_in { e < length (A.contents asks.old).trees }
    requires level_in { level < length (A.contents asks.old).levels }
    ensures keeps { Extends (A.contents asks.old) (A.contents asks.new) }
    ensures stays { A.standing asks.new ≡ A.standing asks.old }
    ensures known { IfOk result (λ t. All (λ x. x < length (A.contents asks.new).trees) t.items) }
    ensures outcome { ComesTo (A.standing asks.old)
        (end_form first count (level_at (A.contents asks.old) level)
        (tree_at (A.contents asks.old) e)) (A.left asks.old)
        (λ t. map (tree_at (A.contents asks.new)) t.items) (A.left asks.new) result }
{
    let end = type_end(alloc, asks, first, count, e)?;
    if levels_equal(alloc, asks, end.1, level)? {
        Ok(end.0)
    } else {
        Err(Stop::No(Rule::BlockShape))
    }
}

/// The indices of a type after the first one: it has a sort, its parameters are those of the first, and so is its level.
fn next_type<A: Asks>(
    alloc: Global,
    asks: &mut A,
    parameters: &[u64],
    level: u64,
    ty: u64,
    indices: u64,
) -> Result<Vec<u64>, Stop>
    requires parameters_in { All (λ x. x < length (A.contents asks.old).trees) parameters.now }
    requires level_in { level < length (A.contents asks.old).levels }
    requires ty_in { ty < length (A.contents asks.old).trees }
    ensures keeps { Extends (A.contents asks.old) (A.contents asks.new) }
    ensures stays { A.standing asks.new ≡ A.standing asks.old }
    ensures known { IfOk result (λ t. All (λ x. x < length (A.contents asks.new).trees) t.items) }
    ensures outcome { ComesTo (A.standing asks.old)
        (next_form (map (tree_at (A.contents asks.old)) parameters.now)
        (level_at (A.contents asks.old) level) indices (tree_at (A.contents asks.old) ty))
        (A.left asks.old) (λ t. map (tree_at (A.contents asks.new)) t.items)
        (A.left asks.new) result }
{
    sort_of(asks, ty)?;
    let rest = over(alloc, asks, parameters, ty)?;
    end_at_level(alloc, asks, parameters.len() as u64, indices, level, rest)
}

/// The indices of a type past its parameters, and the level of its sort, which is not too wide.
fn end_with_itself<A: Asks>(
    alloc: Global,
    asks: &mut A,
    first: u64,
    count: u64,
    e: u64,
) -> Result<(Vec<u64>, u64), Stop>
    requires { e < length (A.contents asks.old).trees }
    ensures keeps { Extends (A.contents asks.old) (A.contents asks.new) }
    ensures stays { A.standing asks.new ≡ A.standing asks.old }
    ensures indices_known { IfOk result (λ t. All
        (λ x. x < length (A.contents asks.new).trees) t.0.items) }
    ensures level_known { IfOk result (λ t. t.1 < length (A.contents asks.new).levels) }
    ensures outcome { ComesTo (A.standing asks.old)
        (self_form first count (tree_at (A.contents asks.old) e)) (A.left asks.old)
        (λ t. (map (tree_at (A.contents asks.new)) t.0.items, level_at (A.contents asks.new) t.1))
        (A.left asks.new) result }
{
    let end = type_end(alloc, asks, first, count, e)?;
    if levels_equal(alloc, asks, end.1, end.1)? {
        Ok(end)
    } else {
        Err(Stop::No(Rule::BlockShape))
    }
}

/// What the checks of a block's types find out: the Locals of the parameters, the level of the types' sort, and each type's
/// Locals of its indices.
#[derive(Drop)]
pub struct TypeParts {
    pub parameters: Vec<u64>,
    pub sort: u64,
    pub indices: Vec<Vec<u64>>,
}

/// The indices of the types after the first one are added to those of the first.
fn more_types<A: Asks>(
    alloc: Global,
    asks: &mut A,
    parameters: &[u64],
    level: u64,
    types: &[BlockType],
    indices: &mut Vec<Vec<u64>>,
) -> Result<(), Stop>
    requires parameters_in { All (λ x. x < length (A.contents asks.old).trees) parameters.now }
    requires level_in { level < length (A.contents asks.old).levels }
    requires types_in { All (IsTypeIn (A.contents asks.old)) types.now }
    requires indices_in { AreListsIn (A.contents asks.old) indices.old.items }
    ensures keeps { Extends (A.contents asks.old) (A.contents asks.new) }
    ensures stays { A.standing asks.new ≡ A.standing asks.old }
    ensures known { AreListsIn (A.contents asks.new) indices.new.items }
    ensures outcome { ComesTo (A.standing asks.old)
        (more_form (lists_at (A.contents asks.old) indices.old.items)
        (map (tree_at (A.contents asks.old)) parameters.now) (level_at (A.contents asks.old) level)
        (map (type_at (A.contents asks.old)) types.now)) (A.left asks.old)
        (λ u. lists_at (A.contents asks.new) indices.new.items) (A.left asks.new) result }
{
    let mut rest = types;
    'types: while let Some((stated, more)) = rest.split_first() {
        let own = next_type(alloc, asks, parameters, level, stated.ty, stated.indices)?;
        match indices.push(own) {
            Ok(_) => {}
            Err(_) => return Err(Stop::NoMemory),
        }
        rest = more;
    }
    Ok(())
}

/// The parts of a block whose first type has these.
fn parts_of(
    alloc: Global,
    parameters: Vec<u64>,
    indices: Vec<u64>,
    sort: u64,
) -> Result<TypeParts, NoMemory>
    ensures parameters { IfOk result (λ p. p.parameters ≡ parameters) }
    ensures sort { IfOk result (λ p. p.sort ≡ sort) }
    ensures indices { IfOk result (λ p. p.indices.items ≡ indices ∷ []) }
{
    let mut all: Vec<Vec<u64>> = Vec::new(alloc);
    all.push(indices)?;
    Ok(TypeParts {
        parameters,
        sort,
        indices: all,
    })
}

/// The parts of a block with the first type's alone, past its sort.
fn open_parameters<A: Asks>(
    alloc: Global,
    asks: &mut A,
    parameters: u64,
    ty: u64,
    indices: u64,
) -> Result<TypeParts, Stop>
    requires { ty < length (A.contents asks.old).trees }
    ensures keeps { Extends (A.contents asks.old) (A.contents asks.new) }
    ensures stays { A.standing asks.new ≡ A.standing asks.old }
    ensures known { IfOk result (ArePartsIn (A.contents asks.new)) }
    ensures outcome { ComesTo (A.standing asks.old)
        (open_form parameters indices (tree_at (A.contents asks.old) ty)) (A.left asks.old)
        (parts_at (A.contents asks.new)) (A.left asks.new) result }
{
    let opened = telescope(alloc, asks, 0, parameters, ty)?;
    let end = end_with_itself(alloc, asks, parameters, indices, opened.1)?;
    Ok(parts_of(alloc, opened.0, end.0, end.1)?)
}

/// The parts of a block with the first type's alone.
fn first_type<A: Asks>(
    alloc: Global,
    asks: &mut A,
    parameters: u64,
    ty: u64,
    indices: u64,
) -> Result<TypeParts, Stop>
    requires { ty < length (A.contents asks.old).trees }
    ensures keeps { Extends (A.contents asks.old) (A.contents asks.new) }
    ensures stays { A.standing asks.new ≡ A.standing asks.old }
    ensures known { IfOk result (ArePartsIn (A.contents asks.new)) }
    ensures outcome { ComesTo (A.standing asks.old)
        (first_form parameters indices (tree_at (A.contents asks.old) ty)) (A.left asks.old)
        (parts_at (A.contents asks.new)) (A.left asks.new) result }
{
    sort_of(asks, ty)?;
    open_parameters(alloc, asks, parameters, ty, indices)
}

/// The parts of a block, once those of its first type are known.
fn add_others<A: Asks>(
    alloc: Global,
    asks: &mut A,
    parts: TypeParts,
    others: &[BlockType],
) -> Result<TypeParts, Stop>
    requires parts_in { ArePartsIn (A.contents asks.old) parts }
    requires others_in { All (IsTypeIn (A.contents asks.old)) others.now }
    ensures keeps { Extends (A.contents asks.old) (A.contents asks.new) }
    ensures stays { A.standing asks.new ≡ A.standing asks.old }
    ensures known { IfOk result (ArePartsIn (A.contents asks.new)) }
    ensures outcome { ComesTo (A.standing asks.old)
        (others_form (parts_at (A.contents asks.old) parts)
        (map (type_at (A.contents asks.old)) others.now)) (A.left asks.old)
        (parts_at (A.contents asks.new)) (A.left asks.new) result }
{
    let TypeParts {
        parameters,
        sort,
        mut indices,
    } = parts;
    more_types(alloc, asks, &parameters, sort, others, &mut indices)?;
    Ok(TypeParts {
        parameters,
        sort,
        indices,
    })
}

/// The parts of a block whose types each have this number of parameters.
fn find_parts<A: Asks>(
    alloc: Global,
    asks: &mut A,
    parameters: u64,
    types: &[BlockType],
) -> Result<TypeParts, Stop>
    requires { All (IsTypeIn (A.contents asks.old)) types.now }
    ensures keeps { Extends (A.contents asks.old) (A.contents asks.new) }
    ensures stays { A.standing asks.new ≡ A.standing asks.old }
    ensures known { IfOk result (ArePartsIn (A.contents asks.new)) }
    ensures outcome { ComesTo (A.standing asks.old)
        (types_steps parameters (map (type_at (A.contents asks.old)) types.now)) (A.left asks.old)
        (parts_at (A.contents asks.new)) (A.left asks.new) result }
{
    match types.split_first() {
        None => Err(Stop::No(Rule::BlockShape)),
        Some((first, others)) => {
            match first_type(alloc, asks, parameters, first.ty, first.indices) {
                Ok(parts) => add_others(alloc, asks, parts, others),
                Err(stop) => Err(stop),
            }
        }
    }
}

/// The checks of a block's types, each of which has this number of parameters: each has a sort (`NotASort`), all have the
/// parameters of the first (`ParameterDiffers`), and past parameters and indices a sort of one level stands (`BlockShape`, as
/// where a Pi is missing or there is no type; `LevelWidth` where the levels cannot be compared). What a question refuses is
/// handed on.
#[tactic(auto, using(crate::proofs::Locals::found_locals))]
pub fn check_types<A: Asks>(
    alloc: Global,
    asks: &mut A,
    parameters: u64,
    types: &[BlockType],
) -> Result<TypeParts, Stop>
    requires { All (IsTypeIn (A.contents asks.old)) types.now }
    ensures keeps { Extends (A.contents asks.old) (A.contents asks.new) }
    ensures stays { A.standing asks.new ≡ A.standing asks.old }
    ensures known { IfOk result (ArePartsIn (A.contents asks.new)) }
    ensures locals { IfOk result (λ p. AreLocals
        (map (tree_at (A.contents asks.new)) p.parameters.items)) }
    ensures outcome { ComesTo (A.standing asks.old)
        (types_steps parameters (map (type_at (A.contents asks.old)) types.now)) (A.left asks.old)
        (parts_at (A.contents asks.new)) (A.left asks.new) result }
{
    find_parts(alloc, asks, parameters, types)
}
