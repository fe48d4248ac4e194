//! The type of a recursor, and whether it is one by K.

ghost use Rattle.std.specs.Prelude.{◌≡◌, ◌∷◌, [], map, IfOk};
ghost use Rattle.lk_store.specs.Contents.{tree_at, Extends, IsTree};
ghost use Rattle.lk_inductive.specs.Recursors.{rec_type, is_k, major, pis};
ghost use Rattle.lk_block.specs.Shapes.{shape_at, type_shape_at, IsShapeIn, IsTypeShapeIn};
ghost use Rattle.lk_recursor.specs.Fronts.{IsFront, read_by};
ghost use Rattle.lk_recursor.specs.Hypotheses.{major_end};

use crate::binders::{Binder, over_local, over_locals};
use crate::front::{Front, over_front};
use crate::heads::{at_parameters, motive_at};
use lk_block::shape::{Shape, TypeShape};
use lk_store::memory::NoMemory;
use lk_store::node::Node;
use lk_store::terms::Terms;
use std::alloc::Global;

/// The Local of the major premise of a type's recursor.
fn major_of<T: Terms>(
    terms: &mut T,
    shape: &Shape,
    front: &Front,
    of: &TypeShape,
) -> Result<u64, NoMemory>
    requires shape_in { IsShapeIn (T.contents terms.old) shape.now }
    requires front_is { IsFront (T.contents terms.old) shape.now front.now }
    requires type_in { IsTypeShapeIn (T.contents terms.old) of.now }
    ensures keeps { Extends (T.contents terms.old) (T.contents terms.new) }
    ensures rest { T.rest terms.new ≡ T.rest terms.old }
    ensures ok { IfOk result (λ e. IsTree (T.contents terms.new) e
        (major (shape_at (T.contents terms.old) shape.now)
        (type_shape_at (T.contents terms.old) of.now))) }
{
    let own = front.heads.own_levels;
    let domain = at_parameters(terms, shape, own, of.name, &of.indices)?;
    let made = terms.make(Node::Local(front.major, domain))?;
    Ok(made)
}

/// What stands under the indices in the type of a type's recursor.
fn end_of<T: Terms>(
    alloc: Global,
    terms: &mut T,
    shape: &Shape,
    front: &Front,
    of: &TypeShape,
) -> Result<u64, NoMemory>
    requires shape_in { IsShapeIn (T.contents terms.old) shape.now }
    requires front_is { IsFront (T.contents terms.old) shape.now front.now }
    requires type_in { IsTypeShapeIn (T.contents terms.old) of.now }
    ensures keeps { Extends (T.contents terms.old) (T.contents terms.new) }
    ensures rest { T.rest terms.new ≡ T.rest terms.old }
    ensures ok { IfOk result (λ e. IsTree (T.contents terms.new) e
        (major_end (shape_at (T.contents terms.old) shape.now)
        (type_shape_at (T.contents terms.old) of.now))) }
{
    let major = major_of(terms, shape, front, of)?;
    let end = motive_at(terms, shape, &front.heads, of.name, &of.indices, major)?;
    let made = over_local(alloc, terms, Binder::Pi, major, end)?;
    Ok(made)
}

/// The type of the recursor of a type, read back.
pub fn recursor_type<T: Terms>(
    alloc: Global,
    terms: &mut T,
    shape: &Shape,
    front: &Front,
    of: &TypeShape,
) -> Result<u64, NoMemory>
    requires shape_in { IsShapeIn (T.contents terms.old) shape.now }
    requires front_is { IsFront (T.contents terms.old) shape.now front.now }
    requires type_in { IsTypeShapeIn (T.contents terms.old) of.now }
    ensures keeps { Extends (T.contents terms.old) (T.contents terms.new) }
    ensures rest { T.rest terms.new ≡ T.rest terms.old }
    ensures ok { IfOk result (λ e. IsTree (T.contents terms.new) e
        (rec_type (read_by (T.contents terms.old) shape.now front.now)
        (shape_at (T.contents terms.old) shape.now)
        (type_shape_at (T.contents terms.old) of.now))) }
{
    let end = end_of(alloc, terms, shape, front, of)?;
    let body = over_locals(alloc, terms, Binder::Pi, &of.indices, end)?;
    let made = over_front(alloc, terms, Binder::Pi, shape, front, body)?;
    Ok(made)
}

/// Whether the recursors of a block are by K.
pub fn by_k<T: Terms>(terms: &T, shape: &Shape) -> bool
    requires { IsShapeIn (T.contents terms.now) shape.now }
    ensures { result ≡ is_k (shape_at (T.contents terms.now) shape.now) }
{
    let [of] = shape.types.as_slice() else {
        return false;
    };
    let [constructor] = of.constructors.as_slice() else {
        return false;
    };
    terms.level_is_zero(shape.sort) && constructor.fields.is_empty()
}
