//! The values of a recursor's rules.

ghost use Rattle.std.specs.Prelude.{◌≡◌, ◌<◌, length, map, IfOk};
ghost use Rattle.lk_store.specs.Contents.{tree_at, Extends, IsTree};
ghost use Rattle.lk_inductive.specs.Recursors.{rule_value};
ghost use Rattle.lk_block.specs.Shapes.{constructor_shape_at, shape_at, AreTreesIn};
ghost use Rattle.lk_block.specs.Shapes.{IsConstructorShapeIn, IsShapeIn};
ghost use Rattle.lk_recursor.specs.Fronts.{IsFront, read_by};
ghost use Rattle.lk_recursor.specs.Hypotheses.{rule_end};

use crate::binders::{Binder, over_locals};
use crate::front::{Front, over_front};
use crate::minors::variables_of;
use crate::recursive::{Heading, recursive_terms};
use lk_block::shape::{ConstructorShape, Shape};
use lk_spine::apply;
use lk_store::memory::NoMemory;
use lk_store::terms::Terms;
use std::alloc::Global;

/// A minor premise applied to the fields of its constructor and to what the recursion gives for them.
fn minor_applied<T: Terms>(
    alloc: Global,
    terms: &mut T,
    shape: &Shape,
    front: &Front,
    minor: u64,
    constructor: &ConstructorShape,
    variables: &[u64],
) -> Result<u64, NoMemory>
    requires shape_in { IsShapeIn (T.contents terms.old) shape.now }
    requires front_is { IsFront (T.contents terms.old) shape.now front.now }
    requires minor_in { minor < length (T.contents terms.old).trees }
    requires constructor_in { IsConstructorShapeIn (T.contents terms.old) constructor.now }
    requires variables_in { AreTreesIn (T.contents terms.old) variables.now }
    ensures keeps { Extends (T.contents terms.old) (T.contents terms.new) }
    ensures rest { T.rest terms.new ≡ T.rest terms.old }
    ensures ok { IfOk result (λ e. IsTree (T.contents terms.new) e
        (rule_end (shape_at (T.contents terms.old) shape.now) (tree_at (T.contents terms.old) minor)
        (constructor_shape_at (T.contents terms.old) constructor.now)
        (map (tree_at (T.contents terms.old)) variables.now))) }
{
    let heading = Heading::Recursors(front);
    let inductions = recursive_terms(alloc, terms, shape, &heading, &constructor.fields)?;
    let at_fields = apply(terms, minor, variables)?;
    let made = apply(terms, at_fields, &inductions)?;
    Ok(made)
}

/// The value of the rule for a constructor, whose minor premise is given, read back.
pub fn rule_value<T: Terms>(
    alloc: Global,
    terms: &mut T,
    shape: &Shape,
    front: &Front,
    minor: u64,
    constructor: &ConstructorShape,
) -> Result<u64, NoMemory>
    requires shape_in { IsShapeIn (T.contents terms.old) shape.now }
    requires front_is { IsFront (T.contents terms.old) shape.now front.now }
    requires minor_in { minor < length (T.contents terms.old).trees }
    requires constructor_in { IsConstructorShapeIn (T.contents terms.old) constructor.now }
    ensures keeps { Extends (T.contents terms.old) (T.contents terms.new) }
    ensures rest { T.rest terms.new ≡ T.rest terms.old }
    ensures ok { IfOk result (λ e. IsTree (T.contents terms.new) e
        (rule_value (read_by (T.contents terms.old) shape.now front.now)
        (shape_at (T.contents terms.old) shape.now)
        (tree_at (T.contents terms.old) minor)
        (constructor_shape_at (T.contents terms.old) constructor.now))) }
{
    let variables = variables_of(alloc, &constructor.fields)?;
    let end = minor_applied(alloc, terms, shape, front, minor, constructor, &variables)?;
    let body = over_locals(alloc, terms, Binder::Lam, &variables, end)?;
    let made = over_front(alloc, terms, Binder::Lam, shape, front, body)?;
    Ok(made)
}
