//! Motives: their types, their Locals, and terms with a motive at the head.

ghost use Rattle.std.specs.Prelude.{◌≡◌, ◌<◌, [], length, map, All, IfOk, MatchOption};
ghost use Rattle.lk_tree.specs.Tree.{app, const, param};
ghost use Rattle.lk_tree.specs.Spine.{apply as applied};
ghost use Rattle.lk_store.specs.Contents.{name_at, level_at, tree_at, Extends, IsList, IsTree};
ghost use Rattle.lk_spine.specs.Reading.{AreTrees};
ghost use Rattle.lk_inductive.specs.Recursors.{at_params, elim_level, shape_bound};
ghost use Rattle.lk_inductive.specs.Recursors.{motive_type, motives, motive_in, motive_of};
ghost use Rattle.lk_block.specs.Shapes.{type_shape_at, shape_at, IsTypeShapeIn, IsShapeIn};
ghost use Rattle.lk_recursor.specs.Fronts.{AreHeads};

use crate::binders::{Binder, locals_of, over_locals};
use lk_block::shape::{Shape, TypeShape};
use lk_lists::names::names_equal;
use lk_spine::apply;
use lk_store::memory::NoMemory;
use lk_store::node::{ListNode, Node};
use lk_store::terms::Terms;
use std::alloc::Global;

/// What stands at the heads in the types of minor premises.
#[derive(Drop)]
pub struct Heads {
    /// The list of the block's level parameters, as levels.
    pub own_levels: u64,
    /// The Local of each type's motive.
    pub motives: Vec<u64>,
}

/// A constant of the block at its own levels, applied to the parameters and then to other arguments.
pub fn at_parameters<T: Terms>(
    terms: &mut T,
    shape: &Shape,
    own_levels: u64,
    name: u64,
    arguments: &[u64],
) -> Result<u64, NoMemory>
    requires shape_in { IsShapeIn (T.contents terms.old) shape.now }
    requires levels_are { IsList (T.contents terms.old) own_levels
        (map param (shape_at (T.contents terms.old) shape.now).levels) }
    requires name_in { name < length (T.contents terms.old).names }
    requires arguments_in { All (λ x. x < length (T.contents terms.old).trees) arguments.now }
    ensures keeps { Extends (T.contents terms.old) (T.contents terms.new) }
    ensures rest { T.rest terms.new ≡ T.rest terms.old }
    ensures ok { IfOk result (λ e. IsTree (T.contents terms.new) e
        (applied (at_params (shape_at (T.contents terms.old) shape.now)
        (name_at (T.contents terms.old) name))
        (map (tree_at (T.contents terms.old)) arguments.now))) }
{
    let constant = terms.make(Node::Const(name, own_levels))?;
    let front = apply(terms, constant, &shape.parameters)?;
    let made = apply(terms, front, arguments)?;
    Ok(made)
}

/// The type of the motive of a type, which goes to the sort of a level.
fn type_of_motive<T: Terms>(
    alloc: Global,
    terms: &mut T,
    shape: &Shape,
    own_levels: u64,
    level: u64,
    of: &TypeShape,
) -> Result<u64, NoMemory>
    requires shape_in { IsShapeIn (T.contents terms.old) shape.now }
    requires levels_are { IsList (T.contents terms.old) own_levels
        (map param (shape_at (T.contents terms.old) shape.now).levels) }
    requires level_in { level < length (T.contents terms.old).levels }
    requires level_is { level_at (T.contents terms.old) level
        ≡ elim_level (shape_at (T.contents terms.old) shape.now) }
    requires type_in { IsTypeShapeIn (T.contents terms.old) of.now }
    ensures keeps { Extends (T.contents terms.old) (T.contents terms.new) }
    ensures rest { T.rest terms.new ≡ T.rest terms.old }
    ensures ok { IfOk result (λ e. IsTree (T.contents terms.new) e
        (motive_type (shape_at (T.contents terms.old) shape.now)
        (type_shape_at (T.contents terms.old) of.now))) }
{
    let domain = at_parameters(terms, shape, own_levels, of.name, &of.indices)?;
    let sort = terms.make(Node::Sort(level))?;
    let body = terms.make(Node::Pi(domain, sort))?;
    let made = over_locals(alloc, terms, Binder::Pi, &of.indices, body)?;
    Ok(made)
}

/// The types of all motives.
fn types_of_motives<T: Terms>(
    alloc: Global,
    terms: &mut T,
    shape: &Shape,
    own_levels: u64,
    level: u64,
) -> Result<Vec<u64>, NoMemory>
    requires shape_in { IsShapeIn (T.contents terms.old) shape.now }
    requires levels_are { IsList (T.contents terms.old) own_levels
        (map param (shape_at (T.contents terms.old) shape.now).levels) }
    requires level_in { level < length (T.contents terms.old).levels }
    requires level_is { level_at (T.contents terms.old) level
        ≡ elim_level (shape_at (T.contents terms.old) shape.now) }
    ensures keeps { Extends (T.contents terms.old) (T.contents terms.new) }
    ensures rest { T.rest terms.new ≡ T.rest terms.old }
    ensures ok { IfOk result (λ ts. AreTrees (T.contents terms.new) ts.items
        (map (motive_type (shape_at (T.contents terms.old) shape.now))
        (shape_at (T.contents terms.old) shape.now).types)) }
{
    let mut found = Vec::new(alloc);
    let mut left: &[TypeShape] = &shape.types;
    'types: while let Some((of, others)) = left.split_first() {
        let made = type_of_motive(alloc, terms, shape, own_levels, level, of)?;
        found.push(made)?;
        left = others;
    }
    Ok(found)
}

/// The Locals of all motives, numbered from the bound of the shape on.
pub fn motives_of<T: Terms>(
    alloc: Global,
    terms: &mut T,
    shape: &Shape,
    own_levels: u64,
    level: u64,
    first: u64,
) -> Result<Vec<u64>, NoMemory>
    requires shape_in { IsShapeIn (T.contents terms.old) shape.now }
    requires levels_are { IsList (T.contents terms.old) own_levels
        (map param (shape_at (T.contents terms.old) shape.now).levels) }
    requires level_in { level < length (T.contents terms.old).levels }
    requires level_is { level_at (T.contents terms.old) level
        ≡ elim_level (shape_at (T.contents terms.old) shape.now) }
    requires first_is { first ≡ shape_bound (shape_at (T.contents terms.old) shape.now) }
    ensures keeps { Extends (T.contents terms.old) (T.contents terms.new) }
    ensures rest { T.rest terms.new ≡ T.rest terms.old }
    ensures ok { IfOk result (λ ms. AreTrees (T.contents terms.new) ms.items
        (motives (shape_at (T.contents terms.old) shape.now))) }
{
    let types = types_of_motives(alloc, terms, shape, own_levels, level)?;
    let motives = locals_of(alloc, terms, first, &types)?;
    Ok(motives)
}

/// The motive of the type of a name, among types and their motives.
fn find_motive<T: Terms>(terms: &T, types: &[TypeShape], motives: &[u64], name: u64) -> Option<u64>
    requires types_in { All (IsTypeShapeIn (T.contents terms.now)) types.now }
    requires motives_in { All (λ x. x < length (T.contents terms.now).trees) motives.now }
    requires name_in { name < length (T.contents terms.now).names }
    ensures { MatchOption result
        (motive_in (map (type_shape_at (T.contents terms.now)) types.now)
        (map (tree_at (T.contents terms.now)) motives.now) (name_at (T.contents terms.now) name)
        ≡ const (name_at (T.contents terms.now) name) [])
        (λ m. IsTree (T.contents terms.now) m
        (motive_in (map (type_shape_at (T.contents terms.now)) types.now)
        (map (tree_at (T.contents terms.now)) motives.now)
        (name_at (T.contents terms.now) name))) }
{
    let mut types_left = types;
    let mut motives_left = motives;
    'types: while let Some((of, more_types)) = types_left.split_first() {
        match motives_left.split_first() {
            Some((motive, more_motives)) => {
                if names_equal(terms, of.name, name) {
                    return Some(*motive);
                }
                types_left = more_types;
                motives_left = more_motives;
            }
            None => return None,
        }
    }
    None
}

/// The motive of the type of a name. Where the block has no such type it is the constant.
pub(crate) fn motive_for<T: Terms>(
    terms: &mut T,
    shape: &Shape,
    heads: &Heads,
    name: u64,
) -> Result<u64, NoMemory>
    requires shape_in { IsShapeIn (T.contents terms.old) shape.now }
    requires heads_are { AreHeads (T.contents terms.old) shape.now heads.now }
    requires name_in { name < length (T.contents terms.old).names }
    ensures keeps { Extends (T.contents terms.old) (T.contents terms.new) }
    ensures rest { T.rest terms.new ≡ T.rest terms.old }
    ensures ok { IfOk result (λ e. IsTree (T.contents terms.new) e
        (motive_of (shape_at (T.contents terms.old) shape.now)
        (name_at (T.contents terms.old) name))) }
{
    if let Some(motive) = find_motive(terms, &shape.types, &heads.motives, name) {
        return Ok(motive);
    }
    let none = terms.make_levels(ListNode::Empty)?;
    let constant = terms.make(Node::Const(name, none))?;
    Ok(constant)
}

/// The motive of the type of a name, applied to indices and then to a term of that type.
pub fn motive_at<T: Terms>(
    terms: &mut T,
    shape: &Shape,
    heads: &Heads,
    name: u64,
    indices: &[u64],
    subject: u64,
) -> Result<u64, NoMemory>
    requires shape_in { IsShapeIn (T.contents terms.old) shape.now }
    requires heads_are { AreHeads (T.contents terms.old) shape.now heads.now }
    requires name_in { name < length (T.contents terms.old).names }
    requires indices_in { All (λ x. x < length (T.contents terms.old).trees) indices.now }
    requires subject_in { subject < length (T.contents terms.old).trees }
    ensures keeps { Extends (T.contents terms.old) (T.contents terms.new) }
    ensures rest { T.rest terms.new ≡ T.rest terms.old }
    ensures ok { IfOk result (λ e. IsTree (T.contents terms.new) e
        (app (applied (motive_of (shape_at (T.contents terms.old) shape.now)
        (name_at (T.contents terms.old) name)) (map (tree_at (T.contents terms.old)) indices.now))
        (tree_at (T.contents terms.old) subject))) }
{
    let motive = motive_for(terms, shape, heads, name)?;
    let front = apply(terms, motive, indices)?;
    let made = terms.make(Node::App(front, subject))?;
    Ok(made)
}
