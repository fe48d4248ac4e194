//! The shape of a block, once its types are checked: its constructors, and whether it may be eliminated into every universe.

ghost use Rattle.std.specs.Prelude.{◌≡◌, ◌<◌, ℕ, length, map, All, IfOk};
ghost use Rattle.lk_tree.specs.Tree.{param};
ghost use Rattle.lk_store.specs.Contents.{Contents, name_at, level_at, tree_at, Extends, IsList};
ghost use Rattle.lk_env.specs.Units.{type_at, IsTypeIn};
ghost use Rattle.lk_inductive.specs.Block.{levels_of, frame_of};
ghost use Rattle.lk_inductive.specs.BlockSteps.{shape_steps};
ghost use Rattle.lk_declaration.specs.Courses.{ComesTo};
ghost use Rattle.lk_block.specs.Frames.{frame_at, IsFrameIn};
ghost use Rattle.lk_block.specs.Parts.{parts_at, lists_at, ArePartsIn, AreListsIn};
ghost use Rattle.lk_block.specs.Shapes.{shape_at, type_shape_at, IsShapeIn, IsTypeShapeIn, AreTreesIn};
ghost use Rattle.lk_block.specs.Wholes.{block_of, shapes_form, shape_with};

use crate::constructors::check_constructors;
use crate::elimination::may_be_large;
use crate::frame::Frame;
use crate::parameters::parameter_levels;
use crate::shape::{Shape, TypeShape};
use crate::types::TypeParts;
use lk_ask::asks::Asks;
use lk_ask::stop::Stop;
use lk_env::unit::BlockType;
use lk_mentions::names::names_of;
use lk_store::memory::NoMemory;
use std::alloc::Global;

/// The names of the level parameters that the first type of a block states.
pub fn level_names(types: &[BlockType]) -> &[u64]
    ensures names { (c : Contents) → map (name_at c) result.now
        ≡ levels_of (block_of (map (type_at c) types.now)) }
    ensures known { (c : Contents) → All (IsTypeIn c) types.now
        → All (λ n. n < length c.names) result.now }
{
    match types.first() {
        Some(first) => &first.levels,
        None => &[],
    }
}

/// The list of a block's level parameters, as levels.
pub fn own_levels<A: Asks>(asks: &mut A, types: &[BlockType]) -> Result<u64, NoMemory>
    requires { All (IsTypeIn (A.contents asks.old)) types.now }
    ensures keeps { Extends (A.contents asks.old) (A.contents asks.new) }
    ensures stays { A.standing asks.new ≡ A.standing asks.old }
    ensures left { A.left asks.new ≡ A.left asks.old }
    ensures ok { IfOk result (λ ls. IsList (A.contents asks.new) ls
        (map param (levels_of (block_of (map (type_at (A.contents asks.old)) types.now))))) }
{
    parameter_levels(asks, level_names(types))
}

/// What the checks of constructors know of the block.
fn frame_of<'a, A: Asks>(
    alloc: Global,
    asks: &mut A,
    types: &'a [BlockType],
    parameters: &'a [u64],
    sort: u64,
) -> Result<Frame<'a>, NoMemory>
    requires types_in { All (IsTypeIn (A.contents asks.old)) types.now }
    requires parameters_in { AreTreesIn (A.contents asks.old) parameters.now }
    requires sort_in { sort < length (A.contents asks.old).levels }
    ensures keeps { Extends (A.contents asks.old) (A.contents asks.new) }
    ensures stays { A.standing asks.new ≡ A.standing asks.old }
    ensures left { A.left asks.new ≡ A.left asks.old }
    ensures known { IfOk result (IsFrameIn (A.contents asks.new)) }
    ensures frame { IfOk result (λ f. frame_at (A.contents asks.new) f
        ≡ frame_of (block_of (map (type_at (A.contents asks.old)) types.now))
        (map (tree_at (A.contents asks.old)) parameters.now)
        (level_at (A.contents asks.old) sort)) }
{
    let levels = own_levels(asks, types)?;
    let names = names_of(alloc, types)?;
    Ok(Frame {
        levels,
        parameters,
        sort,
        names,
        types,
    })
}

/// The checks of the constructors.
fn types_of<A: Asks>(
    alloc: Global,
    asks: &mut A,
    types: &[BlockType],
    parameters: &[u64],
    sort: u64,
    indices: Vec<Vec<u64>>,
) -> Result<Vec<TypeShape>, Stop>
    requires types_in { All (IsTypeIn (A.contents asks.old)) types.now }
    requires parameters_in { AreTreesIn (A.contents asks.old) parameters.now }
    requires sort_in { sort < length (A.contents asks.old).levels }
    requires indices_in { AreListsIn (A.contents asks.old) indices.items }
    ensures keeps { Extends (A.contents asks.old) (A.contents asks.new) }
    ensures stays { A.standing asks.new ≡ A.standing asks.old }
    ensures known { IfOk result (λ v. All (IsTypeShapeIn (A.contents asks.new)) v.items) }
    ensures outcome { (fuel : ℕ) → A.left asks.old < fuel
        → ComesTo (A.standing asks.old)
        (shapes_form fuel (map (type_at (A.contents asks.old)) types.now)
        (map (tree_at (A.contents asks.old)) parameters.now) (level_at (A.contents asks.old) sort)
        (lists_at (A.contents asks.old) indices.items)) (A.left asks.old)
        (λ v. map (type_shape_at (A.contents asks.new)) v.items) (A.left asks.new) result }
{
    let frame = frame_of(alloc, asks, types, parameters, sort)?;
    check_constructors(alloc, asks, &frame, types, indices)
}

/// The shape of a block with these parts.
fn shape_of(
    alloc: Global,
    types: &[BlockType],
    parameters: Vec<u64>,
    sort: u64,
    shapes: Vec<TypeShape>,
    large: bool,
) -> Result<Shape, NoMemory>
    ensures known { IfOk result (λ s. (c : Contents) → All (IsTypeIn c) types.now
        → AreTreesIn c parameters.items → sort < length c.levels
        → All (IsTypeShapeIn c) shapes.items → IsShapeIn c s) }
    ensures shape { IfOk result (λ s. (c : Contents) → shape_at c s
        ≡ shape_with (map (type_at c) types.now) (map (tree_at c) parameters.items)
        (level_at c sort) (map (type_shape_at c) shapes.items) large) }
{
    let levels = Vec::from_slice(alloc, level_names(types))?;
    Ok(Shape {
        levels,
        parameters,
        sort,
        types: shapes,
        large,
    })
}

/// The checks of a block's constructors and of large elimination, once those of its types are made: the shape of the block.
///
/// A constructor's parameters are those of the first type (`ParameterDiffers`). Each of its fields fits in the universe of
/// the types (`FieldUniverse`) and is positive (`NotPositive`), and then stands its own type, applied to the parameters and
/// to indices that mention no type of the block (`ConstructorResult`). A Pi that is missing says `BlockShape`, and levels
/// that cannot be compared say `LevelWidth`. What a question refuses is handed on.
pub fn check_shape<A: Asks>(
    alloc: Global,
    asks: &mut A,
    types: &[BlockType],
    parts: TypeParts,
) -> Result<Shape, Stop>
    requires types_in { All (IsTypeIn (A.contents asks.old)) types.now }
    requires parts_in { ArePartsIn (A.contents asks.old) parts }
    ensures keeps { Extends (A.contents asks.old) (A.contents asks.new) }
    ensures stays { A.standing asks.new ≡ A.standing asks.old }
    ensures known { IfOk result (IsShapeIn (A.contents asks.new)) }
    ensures outcome { (fuel : ℕ) → A.left asks.old < fuel
        → ComesTo (A.standing asks.old)
        (shape_steps fuel (block_of (map (type_at (A.contents asks.old)) types.now))
        (parts_at (A.contents asks.old) parts)) (A.left asks.old) (shape_at (A.contents asks.new))
        (A.left asks.new) result }
{
    let TypeParts {
        parameters,
        sort,
        indices,
    } = parts;
    let shapes = types_of(alloc, asks, types, &parameters, sort, indices)?;
    let large = may_be_large(alloc, asks, sort, &shapes)?;
    Ok(shape_of(alloc, types, parameters, sort, shapes, large)?)
}
