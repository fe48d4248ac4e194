//! Minor premises: their types and their Locals.

ghost use Rattle.std.specs.Prelude.{◌≡◌, ◌+◌, ◌++◌, length, map, IfOk, OnOk};
ghost use Rattle.lk_store.specs.Contents.{tree_at, Extends, IsTree};
ghost use Rattle.lk_spine.specs.Reading.{AreTrees};
ghost use Rattle.lk_inductive.specs.Recursors.{minor_type, minor_types, minors, shape_bound};
ghost use Rattle.lk_block.specs.Shapes.{constructor_shape_at, type_shape_at, shape_at, AreTreesIn};
ghost use Rattle.lk_block.specs.Shapes.{IsConstructorShapeIn, IsTypeShapeIn, IsShapeIn};
ghost use Rattle.lk_recursor.specs.Fronts.{AreHeads};
ghost use Rattle.lk_recursor.specs.Hypotheses.{minor_body};

use crate::binders::{Binder, arrows_to, locals_of, over_locals};
use crate::heads::{Heads, at_parameters, motive_at};
use crate::recursive::{Heading, recursive_terms};
use lk_block::shape::{ConstructorShape, Field, Shape, TypeShape};
use lk_store::memory::NoMemory;
use lk_store::terms::Terms;
use std::alloc::Global;

/// The Locals of fields.
pub fn variables_of(alloc: Global, fields: &[Field]) -> Result<Vec<u64>, NoMemory>
    ensures { IfOk result (λ xs. xs.items ≡ map (λ f. f.variable) fields.now) }
{
    let mut found = Vec::new(alloc);
    for field in fields {
        found.push(field.variable)?;
    }
    Ok(found)
}

/// What stands under the fields in the type of the minor premise of a constructor.
fn body_of_minor<T: Terms>(
    alloc: Global,
    terms: &mut T,
    shape: &Shape,
    heads: &Heads,
    of: &TypeShape,
    constructor: &ConstructorShape,
    variables: &[u64],
) -> Result<u64, NoMemory>
    requires shape_in { IsShapeIn (T.contents terms.old) shape.now }
    requires heads_are { AreHeads (T.contents terms.old) shape.now heads.now }
    requires type_in { IsTypeShapeIn (T.contents terms.old) of.now }
    requires constructor_in { IsConstructorShapeIn (T.contents terms.old) constructor.now }
    requires variables_in { AreTreesIn (T.contents terms.old) variables.now }
    ensures keeps { Extends (T.contents terms.old) (T.contents terms.new) }
    ensures rest { T.rest terms.new ≡ T.rest terms.old }
    ensures ok { IfOk result (λ e. IsTree (T.contents terms.new) e
        (minor_body (shape_at (T.contents terms.old) shape.now)
        (type_shape_at (T.contents terms.old) of.now)
        (constructor_shape_at (T.contents terms.old) constructor.now)
        (map (tree_at (T.contents terms.old)) variables.now))) }
{
    let heading = Heading::Motives(heads);
    let hypotheses = recursive_terms(alloc, terms, shape, &heading, &constructor.fields)?;
    let own = heads.own_levels;
    let subject = at_parameters(terms, shape, own, constructor.name, variables)?;
    let end = motive_at(terms, shape, heads, of.name, &constructor.indices, subject)?;
    let made = arrows_to(terms, &hypotheses, end)?;
    Ok(made)
}

/// The type of the minor premise of a constructor of a type.
fn type_of_minor<T: Terms>(
    alloc: Global,
    terms: &mut T,
    shape: &Shape,
    heads: &Heads,
    of: &TypeShape,
    constructor: &ConstructorShape,
) -> Result<u64, NoMemory>
    requires shape_in { IsShapeIn (T.contents terms.old) shape.now }
    requires heads_are { AreHeads (T.contents terms.old) shape.now heads.now }
    requires type_in { IsTypeShapeIn (T.contents terms.old) of.now }
    requires constructor_in { IsConstructorShapeIn (T.contents terms.old) constructor.now }
    ensures keeps { Extends (T.contents terms.old) (T.contents terms.new) }
    ensures rest { T.rest terms.new ≡ T.rest terms.old }
    ensures ok { IfOk result (λ e. IsTree (T.contents terms.new) e
        (minor_type (shape_at (T.contents terms.old) shape.now)
        (type_shape_at (T.contents terms.old) of.now)
        (constructor_shape_at (T.contents terms.old) constructor.now))) }
{
    let variables = variables_of(alloc, &constructor.fields)?;
    let body = body_of_minor(alloc, terms, shape, heads, of, constructor, &variables)?;
    let made = over_locals(alloc, terms, Binder::Pi, &variables, body)?;
    Ok(made)
}

/// Adds the types of the minor premises of a type's constructors.
fn add_minors<T: Terms>(
    alloc: Global,
    terms: &mut T,
    shape: &Shape,
    heads: &Heads,
    of: &TypeShape,
    found: &mut Vec<u64>,
) -> Result<(), NoMemory>
    requires shape_in { IsShapeIn (T.contents terms.old) shape.now }
    requires heads_are { AreHeads (T.contents terms.old) shape.now heads.now }
    requires type_in { IsTypeShapeIn (T.contents terms.old) of.now }
    requires found_in { AreTreesIn (T.contents terms.old) found.old.items }
    ensures keeps { Extends (T.contents terms.old) (T.contents terms.new) }
    ensures rest { T.rest terms.new ≡ T.rest terms.old }
    ensures known { OnOk result (AreTreesIn (T.contents terms.new) found.new.items) }
    ensures ok { OnOk result (map (tree_at (T.contents terms.new)) found.new.items
        ≡ map (tree_at (T.contents terms.old)) found.old.items
        ++ map (minor_type (shape_at (T.contents terms.old) shape.now)
        (type_shape_at (T.contents terms.old) of.now))
        (type_shape_at (T.contents terms.old) of.now).ctors) }
{
    let mut left: &[ConstructorShape] = &of.constructors;
    'constructors: while let Some((constructor, others)) = left.split_first() {
        let made = type_of_minor(alloc, terms, shape, heads, of, constructor)?;
        found.push(made)?;
        left = others;
    }
    Ok(())
}

/// The types of all minor premises, in the order of all constructors.
fn types_of_minors<T: Terms>(
    alloc: Global,
    terms: &mut T,
    shape: &Shape,
    heads: &Heads,
) -> Result<Vec<u64>, NoMemory>
    requires shape_in { IsShapeIn (T.contents terms.old) shape.now }
    requires heads_are { AreHeads (T.contents terms.old) shape.now heads.now }
    ensures keeps { Extends (T.contents terms.old) (T.contents terms.new) }
    ensures rest { T.rest terms.new ≡ T.rest terms.old }
    ensures ok { IfOk result (λ es. AreTrees (T.contents terms.new) es.items
        (minor_types (shape_at (T.contents terms.old) shape.now)
        (shape_at (T.contents terms.old) shape.now).types)) }
{
    let mut found = Vec::new(alloc);
    let mut left: &[TypeShape] = &shape.types;
    'types: while let Some((of, others)) = left.split_first() {
        add_minors(alloc, terms, shape, heads, of, &mut found)?;
        left = others;
    }
    Ok(found)
}

/// The Locals of all minor premises, numbered after those of the motives.
pub fn minors_of<T: Terms>(
    alloc: Global,
    terms: &mut T,
    shape: &Shape,
    heads: &Heads,
    first: u64,
) -> Result<Vec<u64>, NoMemory>
    requires shape_in { IsShapeIn (T.contents terms.old) shape.now }
    requires heads_are { AreHeads (T.contents terms.old) shape.now heads.now }
    requires first_is { first ≡ shape_bound (shape_at (T.contents terms.old) shape.now) + length
        (shape_at (T.contents terms.old) shape.now).types }
    ensures keeps { Extends (T.contents terms.old) (T.contents terms.new) }
    ensures rest { T.rest terms.new ≡ T.rest terms.old }
    ensures ok { IfOk result (λ ms. AreTrees (T.contents terms.new) ms.items
        (minors (shape_at (T.contents terms.old) shape.now))) }
{
    let types = types_of_minors(alloc, terms, shape, heads)?;
    let minors = locals_of(alloc, terms, first, &types)?;
    Ok(minors)
}
