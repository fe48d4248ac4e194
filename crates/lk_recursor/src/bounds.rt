//! The least number above those of all Locals of a shape.

ghost use Rattle.std.specs.Prelude.{◌≡◌, ◌<◌, length, map, max, All, IfOk};
ghost use Rattle.lk_store.specs.Contents.{tree_at};
ghost use Rattle.lk_inductive.specs.Recursors.{bounds, kind_bound, fields_bound, ctors_bound, types_bound, shape_bound};
ghost use Rattle.lk_block.specs.Shapes.{kind_at, field_at, constructor_shape_at, type_shape_at, shape_at, IsKindIn, IsFieldIn, IsConstructorShapeIn, IsTypeShapeIn, IsShapeIn};

use lk_block::shape::{ConstructorShape, Field, FieldKind, Shape, TypeShape};
use lk_store::memory::NoMemory;
use lk_store::terms::Terms;

/// The larger of two numbers.
fn larger(a: u128, b: u128) -> u128
    ensures { result ≡ max a b }
{
    a.max(b)
}

/// The least number above every Local of a list.
fn trees_bound<T: Terms>(terms: &T, trees: &[u64]) -> u128
    requires { All (λ x. x < length (T.contents terms.now).trees) trees.now }
    ensures { result ≡ bounds (map (tree_at (T.contents terms.now)) trees.now) }
{
    let mut left = trees;
    let mut most = 0;
    'trees: while let Some((tree, others)) = left.split_first() {
        most = larger(most, terms.local_bound(*tree));
        left = others;
    }
    most
}

/// The least number above every Local in a kind of fields.
fn bound_of_kind<T: Terms>(terms: &T, kind: &FieldKind) -> u128
    requires { IsKindIn (T.contents terms.now) kind.now }
    ensures { result ≡ kind_bound (kind_at (T.contents terms.now) kind.now) }
{
    match kind {
        FieldKind::Plain => 0,
        FieldKind::Recursive(recursion) => larger(
            trees_bound(terms, &recursion.arguments),
            trees_bound(terms, &recursion.indices),
        ),
    }
}

/// The least number above every Local of fields.
fn bound_of_fields<T: Terms>(terms: &T, fields: &[Field]) -> u128
    requires { All (IsFieldIn (T.contents terms.now)) fields.now }
    ensures { result ≡ fields_bound (map (field_at (T.contents terms.now)) fields.now) }
{
    let mut left = fields;
    let mut most = 0;
    'fields: while let Some((field, others)) = left.split_first() {
        let variable = larger(most, terms.local_bound(field.variable));
        most = larger(variable, bound_of_kind(terms, &field.kind));
        left = others;
    }
    most
}

/// The least number above every Local of constructors.
fn bound_of_constructors<T: Terms>(terms: &T, constructors: &[ConstructorShape]) -> u128
    requires { All (IsConstructorShapeIn (T.contents terms.now)) constructors.now }
    ensures { result ≡ ctors_bound (map (constructor_shape_at
        (T.contents terms.now)) constructors.now) }
{
    let mut left = constructors;
    let mut most = 0;
    'constructors: while let Some((constructor, others)) = left.split_first() {
        let fields = larger(most, bound_of_fields(terms, &constructor.fields));
        most = larger(fields, trees_bound(terms, &constructor.indices));
        left = others;
    }
    most
}

/// The least number above every Local of types.
fn bound_of_types<T: Terms>(terms: &T, types: &[TypeShape]) -> u128
    requires { All (IsTypeShapeIn (T.contents terms.now)) types.now }
    ensures { result ≡ types_bound (map (type_shape_at (T.contents terms.now)) types.now) }
{
    let mut left = types;
    let mut most = 0;
    'types: while let Some((of, others)) = left.split_first() {
        let indices = larger(most, trees_bound(terms, &of.indices));
        most = larger(indices, bound_of_constructors(terms, &of.constructors));
        left = others;
    }
    most
}

/// The least number above every Local of a shape.
pub fn bound_of<T: Terms>(terms: &T, shape: &Shape) -> Result<u64, NoMemory>
    requires { IsShapeIn (T.contents terms.now) shape.now }
    ensures { IfOk result (λ n. n ≡ shape_bound (shape_at (T.contents terms.now) shape.now)) }
{
    let parameters = trees_bound(terms, &shape.parameters);
    let bound = larger(parameters, bound_of_types(terms, &shape.types));
    // No Local in memory has so great a number.
    match u64::try_from(bound) {
        Ok(number) => Ok(number),
        Err(_) => Err(NoMemory),
    }
}
