//! What a constructor's recursive fields give: hypotheses in the type of a minor premise, and in the value of a rule what the
//! recursion comes to.

ghost use Rattle.std.specs.Prelude.{◌≡◌, ◌<◌, ◌++◌, ◌∷◌, [], length, map, All, IfOk, OnOk};
ghost use Rattle.lk_tree.specs.Tree.{app};
ghost use Rattle.lk_tree.specs.Spine.{apply as applied};
ghost use Rattle.lk_store.specs.Contents.{name_at, tree_at, Extends, IsTree};
ghost use Rattle.lk_spine.specs.Reading.{AreTrees};
ghost use Rattle.lk_block.specs.Shapes.{field_at, shape_at, AreTreesIn};
ghost use Rattle.lk_block.specs.Shapes.{IsFieldIn, IsRecursionIn, IsShapeIn};
ghost use Rattle.lk_recursor.specs.Fronts.{IsFront};
ghost use Rattle.lk_recursor.specs.Hypotheses.{recursor_at};
ghost use Rattle.lk_recursor.specs.Recursive.{binder_in, head_in, term_of, terms_of, IsHeading};

use crate::binders::{Binder, over_locals};
use crate::front::{Front, at_front};
use crate::heads::{Heads, motive_for};
use crate::levels::recursor_name;
use lk_block::shape::{Field, FieldKind, Recursion, Shape};
use lk_spine::apply;
use lk_store::memory::NoMemory;
use lk_store::node::Node;
use lk_store::terms::Terms;
use std::alloc::Global;

/// What stands at the head for a field of type `(ys) -> T P is`: the motive of T in a hypothesis, the recursor of T in a rule.
#[derive(Clone, Copy)]
pub(crate) enum Heading<'a, 'b> {
    Motives(&'a Heads),
    Recursors(&'a Front<'b>),
}

/// What binds the ys: a hypothesis is a type, and what the recursion comes to is a function.
fn binder_of(heading: &Heading<'_, '_>) -> Binder
    ensures { result ≡ binder_in heading.now }
{
    match heading {
        Heading::Motives(_) => Binder::Pi,
        Heading::Recursors(_) => Binder::Lam,
    }
}

/// The recursor of the type of a name, applied to the parameters, the motives and the minor premises.
fn recursor_at_front<T: Terms>(
    alloc: Global,
    terms: &mut T,
    shape: &Shape,
    front: &Front,
    name: u64,
) -> Result<u64, NoMemory>
    requires shape_in { IsShapeIn (T.contents terms.old) shape.now }
    requires front_is { IsFront (T.contents terms.old) shape.now front.now }
    requires name_in { name < length (T.contents terms.old).names }
    ensures keeps { Extends (T.contents terms.old) (T.contents terms.new) }
    ensures rest { T.rest terms.new ≡ T.rest terms.old }
    ensures ok { IfOk result (λ e. IsTree (T.contents terms.new) e
        (recursor_at (shape_at (T.contents terms.old) shape.now)
        (name_at (T.contents terms.old) name))) }
{
    let recursor = recursor_name(alloc, terms, name)?;
    let head = terms.make(Node::Const(recursor, front.levels))?;
    let made = at_front(terms, shape, front, head)?;
    Ok(made)
}

/// The motive or the recursor of the type of a name.
fn head_of<T: Terms>(
    alloc: Global,
    terms: &mut T,
    shape: &Shape,
    heading: &Heading<'_, '_>,
    name: u64,
) -> Result<u64, NoMemory>
    requires shape_in { IsShapeIn (T.contents terms.old) shape.now }
    requires heading_is { IsHeading (T.contents terms.old) shape.now heading.now }
    requires name_in { name < length (T.contents terms.old).names }
    ensures keeps { Extends (T.contents terms.old) (T.contents terms.new) }
    ensures rest { T.rest terms.new ≡ T.rest terms.old }
    ensures ok { IfOk result (λ e. IsTree (T.contents terms.new) e
        (head_in heading.now (shape_at (T.contents terms.old) shape.now)
        (name_at (T.contents terms.old) name))) }
{
    match heading {
        Heading::Motives(heads) => motive_for(terms, shape, heads, name),
        Heading::Recursors(front) => recursor_at_front(alloc, terms, shape, front, name),
    }
}

/// The motive or the recursor of T at the indices `is` and a term of type `T P is`.
fn head_at<T: Terms>(
    alloc: Global,
    terms: &mut T,
    shape: &Shape,
    heading: &Heading<'_, '_>,
    recursion: &Recursion,
    subject: u64,
) -> Result<u64, NoMemory>
    requires shape_in { IsShapeIn (T.contents terms.old) shape.now }
    requires heading_is { IsHeading (T.contents terms.old) shape.now heading.now }
    requires recursion_in { IsRecursionIn (T.contents terms.old) recursion.now }
    requires subject_in { subject < length (T.contents terms.old).trees }
    ensures keeps { Extends (T.contents terms.old) (T.contents terms.new) }
    ensures rest { T.rest terms.new ≡ T.rest terms.old }
    ensures ok { IfOk result (λ e. IsTree (T.contents terms.new) e
        (app (applied (head_in heading.now (shape_at (T.contents terms.old) shape.now)
        (name_at (T.contents terms.old) recursion.now.name))
        (map (tree_at (T.contents terms.old)) recursion.now.indices.items))
        (tree_at (T.contents terms.old) subject))) }
{
    let head = head_of(alloc, terms, shape, heading, recursion.name)?;
    let at_indices = apply(terms, head, &recursion.indices)?;
    let made = terms.make(Node::App(at_indices, subject))?;
    Ok(made)
}

/// For a field of type `(ys) -> T P is`: the motive or the recursor of T at `is` and the field at the ys, under binders for
/// the ys.
fn recursive_term<T: Terms>(
    alloc: Global,
    terms: &mut T,
    shape: &Shape,
    heading: &Heading<'_, '_>,
    variable: u64,
    recursion: &Recursion,
) -> Result<u64, NoMemory>
    requires shape_in { IsShapeIn (T.contents terms.old) shape.now }
    requires heading_is { IsHeading (T.contents terms.old) shape.now heading.now }
    requires variable_in { variable < length (T.contents terms.old).trees }
    requires recursion_in { IsRecursionIn (T.contents terms.old) recursion.now }
    ensures keeps { Extends (T.contents terms.old) (T.contents terms.new) }
    ensures rest { T.rest terms.new ≡ T.rest terms.old }
    ensures ok { IfOk result (λ e. IsTree (T.contents terms.new) e
        (term_of heading.now (shape_at (T.contents terms.old) shape.now)
        (tree_at (T.contents terms.old) variable)
        (map (tree_at (T.contents terms.old)) recursion.now.arguments.items)
        (name_at (T.contents terms.old) recursion.now.name)
        (map (tree_at (T.contents terms.old)) recursion.now.indices.items))) }
{
    let subject = apply(terms, variable, &recursion.arguments)?;
    let body = head_at(alloc, terms, shape, heading, recursion, subject)?;
    let binder = binder_of(heading);
    let made = over_locals(alloc, terms, binder, &recursion.arguments, body)?;
    Ok(made)
}

/// Adds what a field gives, if it is recursive.
fn add_recursive_term<T: Terms>(
    alloc: Global,
    terms: &mut T,
    shape: &Shape,
    heading: &Heading<'_, '_>,
    field: &Field,
    found: &mut Vec<u64>,
) -> Result<(), NoMemory>
    requires shape_in { IsShapeIn (T.contents terms.old) shape.now }
    requires heading_is { IsHeading (T.contents terms.old) shape.now heading.now }
    requires field_in { IsFieldIn (T.contents terms.old) field.now }
    requires found_in { AreTreesIn (T.contents terms.old) found.old.items }
    ensures keeps { Extends (T.contents terms.old) (T.contents terms.new) }
    ensures rest { T.rest terms.new ≡ T.rest terms.old }
    ensures known { OnOk result (AreTreesIn (T.contents terms.new) found.new.items) }
    ensures ok { OnOk result (map (tree_at (T.contents terms.new)) found.new.items
        ≡ map (tree_at (T.contents terms.old)) found.old.items
        ++ terms_of heading.now (shape_at (T.contents terms.old) shape.now)
        (field_at (T.contents terms.old) field.now ∷ [])) }
{
    match &field.kind {
        FieldKind::Plain => Ok(()),
        FieldKind::Recursive(recursion) => {
            let variable = field.variable;
            let made = recursive_term(alloc, terms, shape, heading, variable, recursion)?;
            found.push(made)?;
            Ok(())
        }
    }
}

/// What fields give: one term for each that is recursive.
pub(crate) fn recursive_terms<T: Terms>(
    alloc: Global,
    terms: &mut T,
    shape: &Shape,
    heading: &Heading<'_, '_>,
    fields: &[Field],
) -> Result<Vec<u64>, NoMemory>
    requires shape_in { IsShapeIn (T.contents terms.old) shape.now }
    requires heading_is { IsHeading (T.contents terms.old) shape.now heading.now }
    requires fields_in { All (IsFieldIn (T.contents terms.old)) fields.now }
    ensures keeps { Extends (T.contents terms.old) (T.contents terms.new) }
    ensures rest { T.rest terms.new ≡ T.rest terms.old }
    ensures ok { IfOk result (λ es. AreTrees (T.contents terms.new) es.items
        (terms_of heading.now (shape_at (T.contents terms.old) shape.now)
        (map (field_at (T.contents terms.old)) fields.now))) }
{
    let mut found = Vec::new(alloc);
    let mut left = fields;
    'fields: while let Some((field, others)) = left.split_first() {
        add_recursive_term(alloc, terms, shape, heading, field, &mut found)?;
        left = others;
    }
    Ok(found)
}
