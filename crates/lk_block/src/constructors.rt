//! The constructors of a block: the parameters, the fields, and the type that each ends in.

ghost use Rattle.std.specs.Prelude.{◌≡◌, ◌<◌, ℕ, length, map, All, IfOk, Some};
ghost use Rattle.lk_tree.specs.Spine.{head, args};
ghost use Rattle.lk_store.specs.Contents.{name_at, tree_at, Extends};
ghost use Rattle.lk_env.specs.Units.{constructor_at, type_at, IsConstructorIn, IsTypeIn};
ghost use Rattle.lk_inductive.specs.BlockSteps.{as_member, own_indices, ctors_steps, shapes_steps};
ghost use Rattle.lk_declaration.specs.Courses.{ComesTo, Settles};
ghost use Rattle.lk_block.specs.Frames.{frame_at, IsFrameIn};
ghost use Rattle.lk_block.specs.Members.{member_at, IsMemberIn};
ghost use Rattle.lk_block.specs.Parts.{lists_at, AreListsIn};
ghost use Rattle.lk_block.specs.Shapes.{constructor_shape_at, type_shape_at, AreTreesIn, IsConstructorShapeIn, IsTypeShapeIn};
ghost use Rattle.lk_block.specs.Constructors.{result_form, rest_form, constructor_form, type_form};

use crate::fields::fields;
use crate::frame::Frame;
use crate::members::{Member, as_member};
use crate::over::over;
use crate::shape::{ConstructorShape, TypeShape};
use lk_ask::asks::Asks;
use lk_ask::stop::Stop;
use lk_declaration::asking::form_of;
use lk_env::unit::{BlockType, Constructor};
use lk_lists::names::names_equal;
use lk_store::terms::Terms;
use lk_tree::rule::Rule;
use std::alloc::Global;

/// The indices of an applied type of the block, which must be the type of this name.
fn indices_of<T: Terms>(terms: &T, parent: u64, member: Member) -> Result<Vec<u64>, Stop>
    requires parent_in { parent < length (T.contents terms.now).names }
    requires member_in { IsMemberIn (T.contents terms.now) member }
    ensures known { IfOk result (λ v. AreTreesIn (T.contents terms.now) v.items) }
    ensures indices { Settles (own_indices (name_at (T.contents terms.now) parent)
        (member_at (T.contents terms.now) (Some member)))
        (λ v. map (tree_at (T.contents terms.now)) v.items) result }
{
    if names_equal(terms, member.name, parent) {
        Ok(member.indices)
    } else {
        Err(Stop::No(Rule::ConstructorResult))
    }
}

/// The indices of a weak head form that must be the type of this name, applied.
fn indices_in<A: Asks>(
    alloc: Global,
    asks: &mut A,
    frame: &Frame,
    parent: u64,
    form: u64,
) -> Result<Vec<u64>, Stop>
    requires frame_in { IsFrameIn (A.contents asks.old) frame.now }
    requires parent_in { parent < length (A.contents asks.old).names }
    requires form_in { form < length (A.contents asks.old).trees }
    ensures keeps { Extends (A.contents asks.old) (A.contents asks.new) }
    ensures stays { A.standing asks.new ≡ A.standing asks.old }
    ensures left { A.left asks.new ≡ A.left asks.old }
    ensures known { IfOk result (λ v. AreTreesIn (A.contents asks.new) v.items) }
    ensures indices { Settles (own_indices (name_at (A.contents asks.old) parent)
        (as_member (frame_at (A.contents asks.old) frame.now)
        (head (tree_at (A.contents asks.old) form)) (args (tree_at (A.contents asks.old) form))))
        (λ v. map (tree_at (A.contents asks.new)) v.items) result }
{
    match as_member(alloc, asks, frame, form) {
        Ok(Some(member)) => indices_of(asks, parent, member),
        Ok(None) => Err(Stop::No(Rule::ConstructorResult)),
        Err(_) => Err(Stop::NoMemory),
    }
}

/// The indices of the type of this name, which a term must be, applied.
fn result_of<A: Asks>(
    alloc: Global,
    asks: &mut A,
    frame: &Frame,
    parent: u64,
    e: u64,
) -> Result<Vec<u64>, Stop>
    requires frame_in { IsFrameIn (A.contents asks.old) frame.now }
    requires parent_in { parent < length (A.contents asks.old).names }
    requires e_in { e < length (A.contents asks.old).trees }
    ensures keeps { Extends (A.contents asks.old) (A.contents asks.new) }
    ensures stays { A.standing asks.new ≡ A.standing asks.old }
    ensures known { IfOk result (λ v. AreTreesIn (A.contents asks.new) v.items) }
    ensures outcome { ComesTo (A.standing asks.old)
        (result_form (frame_at (A.contents asks.old) frame.now)
        (name_at (A.contents asks.old) parent) (tree_at (A.contents asks.old) e)) (A.left asks.old)
        (λ v. map (tree_at (A.contents asks.new)) v.items) (A.left asks.new) result }
{
    let form = form_of(asks, e)?;
    indices_in(alloc, asks, frame, parent, form)
}

/// A constructor by what is left of its type past the parameters: its name, its fields, and its indices in its parent.
fn rest_of<A: Asks>(
    alloc: Global,
    asks: &mut A,
    frame: &Frame,
    parent: u64,
    stated: &Constructor,
    e: u64,
) -> Result<ConstructorShape, Stop>
    requires frame_in { IsFrameIn (A.contents asks.old) frame.now }
    requires parent_in { parent < length (A.contents asks.old).names }
    requires name_in { stated.now.name < length (A.contents asks.old).names }
    requires e_in { e < length (A.contents asks.old).trees }
    ensures keeps { Extends (A.contents asks.old) (A.contents asks.new) }
    ensures stays { A.standing asks.new ≡ A.standing asks.old }
    ensures known { IfOk result (IsConstructorShapeIn (A.contents asks.new)) }
    ensures outcome { (fuel : ℕ) → A.left asks.old < fuel
        → ComesTo (A.standing asks.old)
        (rest_form fuel (frame_at (A.contents asks.old) frame.now)
        (name_at (A.contents asks.old) parent) (name_at (A.contents asks.old) stated.now.name)
        stated.now.fields (tree_at (A.contents asks.old) e)) (A.left asks.old)
        (constructor_shape_at (A.contents asks.new)) (A.left asks.new) result }
{
    let first = frame.parameters.len() as u64;
    let opened = fields(alloc, asks, frame, first, stated.fields, e)?;
    let indices = result_of(alloc, asks, frame, parent, opened.1)?;
    Ok(ConstructorShape {
        name: stated.name,
        fields: opened.0,
        indices,
    })
}

/// The check of one constructor: its parameters are those of the block, its fields are positive and fit in the block's
/// universe, and it ends in its parent, applied.
fn constructor_of<A: Asks>(
    alloc: Global,
    asks: &mut A,
    frame: &Frame,
    parent: u64,
    stated: &Constructor,
) -> Result<ConstructorShape, Stop>
    requires frame_in { IsFrameIn (A.contents asks.old) frame.now }
    requires parent_in { parent < length (A.contents asks.old).names }
    requires name_in { stated.now.name < length (A.contents asks.old).names }
    requires ty_in { stated.now.ty < length (A.contents asks.old).trees }
    ensures keeps { Extends (A.contents asks.old) (A.contents asks.new) }
    ensures stays { A.standing asks.new ≡ A.standing asks.old }
    ensures known { IfOk result (IsConstructorShapeIn (A.contents asks.new)) }
    ensures outcome { (fuel : ℕ) → A.left asks.old < fuel
        → ComesTo (A.standing asks.old)
        (constructor_form fuel (frame_at (A.contents asks.old) frame.now)
        (name_at (A.contents asks.old) parent) (name_at (A.contents asks.old) stated.now.name)
        stated.now.fields (tree_at (A.contents asks.old) stated.now.ty)) (A.left asks.old)
        (constructor_shape_at (A.contents asks.new)) (A.left asks.new) result }
{
    let rest = over(alloc, asks, frame.parameters, stated.ty)?;
    rest_of(alloc, asks, frame, parent, stated, rest)
}

/// The checks of a type's constructors.
fn constructors_of<A: Asks>(
    alloc: Global,
    asks: &mut A,
    frame: &Frame,
    parent: u64,
    constructors: &[Constructor],
) -> Result<Vec<ConstructorShape>, Stop>
    requires frame_in { IsFrameIn (A.contents asks.old) frame.now }
    requires parent_in { parent < length (A.contents asks.old).names }
    requires constructors_in { All (IsConstructorIn (A.contents asks.old)) constructors.now }
    ensures keeps { Extends (A.contents asks.old) (A.contents asks.new) }
    ensures stays { A.standing asks.new ≡ A.standing asks.old }
    ensures known { IfOk result (λ v. All (IsConstructorShapeIn (A.contents asks.new)) v.items) }
    ensures outcome { (fuel : ℕ) → A.left asks.old < fuel
        → ComesTo (A.standing asks.old)
        (ctors_steps fuel (frame_at (A.contents asks.old) frame.now)
        (name_at (A.contents asks.old) parent)
        (map (constructor_at (A.contents asks.old)) constructors.now)) (A.left asks.old)
        (λ v. map (constructor_shape_at (A.contents asks.new)) v.items) (A.left asks.new) result }
{
    let mut shapes: Vec<ConstructorShape> = Vec::new(alloc);
    let mut rest = constructors;
    'constructors: while let Some((stated, more)) = rest.split_first() {
        let shape = constructor_of(alloc, asks, frame, parent, stated)?;
        match shapes.push(shape) {
            Ok(_) => {}
            Err(_) => return Err(Stop::NoMemory),
        }
        rest = more;
    }
    Ok(shapes)
}

/// A type with the Locals of its indices and the checks of its constructors.
fn type_of<A: Asks>(
    alloc: Global,
    asks: &mut A,
    frame: &Frame,
    stated: &BlockType,
    indices: Vec<u64>,
) -> Result<TypeShape, Stop>
    requires frame_in { IsFrameIn (A.contents asks.old) frame.now }
    requires stated_in { IsTypeIn (A.contents asks.old) stated.now }
    requires indices_in { AreTreesIn (A.contents asks.old) indices.items }
    ensures keeps { Extends (A.contents asks.old) (A.contents asks.new) }
    ensures stays { A.standing asks.new ≡ A.standing asks.old }
    ensures known { IfOk result (IsTypeShapeIn (A.contents asks.new)) }
    ensures outcome { (fuel : ℕ) → A.left asks.old < fuel
        → ComesTo (A.standing asks.old)
        (type_form fuel (frame_at (A.contents asks.old) frame.now)
        (name_at (A.contents asks.old) stated.now.name)
        (map (constructor_at (A.contents asks.old)) stated.now.constructors.items)
        (map (tree_at (A.contents asks.old)) indices.items)) (A.left asks.old)
        (type_shape_at (A.contents asks.new)) (A.left asks.new) result }
{
    let constructors = constructors_of(alloc, asks, frame, stated.name, &stated.constructors)?;
    Ok(TypeShape {
        name: stated.name,
        indices,
        constructors,
    })
}

/// The checks of the constructors of a block's types, of which each has these Locals of its indices.
pub fn check_constructors<A: Asks>(
    alloc: Global,
    asks: &mut A,
    frame: &Frame,
    types: &[BlockType],
    indices: Vec<Vec<u64>>,
) -> Result<Vec<TypeShape>, Stop>
    requires frame_in { IsFrameIn (A.contents asks.old) frame.now }
    requires types_in { All (IsTypeIn (A.contents asks.old)) types.now }
    requires indices_in { AreListsIn (A.contents asks.old) indices.items }
    ensures keeps { Extends (A.contents asks.old) (A.contents asks.new) }
    ensures stays { A.standing asks.new ≡ A.standing asks.old }
    ensures known { IfOk result (λ v. All (IsTypeShapeIn (A.contents asks.new)) v.items) }
    ensures outcome { (fuel : ℕ) → A.left asks.old < fuel
        → ComesTo (A.standing asks.old)
        (shapes_steps fuel (frame_at (A.contents asks.old) frame.now)
        (map (type_at (A.contents asks.old)) types.now)
        (lists_at (A.contents asks.old) indices.items)) (A.left asks.old)
        (λ v. map (type_shape_at (A.contents asks.new)) v.items) (A.left asks.new) result }
{
    let mut shapes: Vec<TypeShape> = Vec::new(alloc);
    let mut waiting = indices;
    waiting.reverse();
    let mut rest = types;
    'types: while let Some((stated, more)) = rest.split_first() {
        let own = match waiting.pop() {
            Some(own) => own,
            None => return Err(Stop::No(Rule::BlockShape)),
        };
        let shape = type_of(alloc, asks, frame, stated, own)?;
        match shapes.push(shape) {
            Ok(_) => {}
            Err(_) => return Err(Stop::NoMemory),
        }
        rest = more;
    }
    Ok(shapes)
}
