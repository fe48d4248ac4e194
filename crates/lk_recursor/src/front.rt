//! What all recursors of a block share.

ghost use Rattle.std.specs.Prelude.{◌≡◌, ◌<◌, ◌+◌, ◌++◌, length, map, IfOk, IfSome};
ghost use Rattle.lk_tree.specs.Spine.{apply as applied};
ghost use Rattle.lk_store.specs.Contents.{tree_at, Extends, IsTree};
ghost use Rattle.lk_spine.specs.Reading.{AreTrees};
ghost use Rattle.lk_inductive.specs.Recursors.{front as front_locals, motives, minors, shape_bound};
ghost use Rattle.lk_block.specs.Shapes.{shape_at, IsShapeIn};
ghost use Rattle.lk_recursor.specs.Binders.{bound_by};
ghost use Rattle.lk_restore.specs.Originals.{AreOriginals};
ghost use Rattle.lk_recursor.specs.Fronts.{AreHeads, IsFront, read_by};
ghost use Rattle.lk_recursor.specs.Telescopes.{IsFrontTelescope};

use crate::binders::{Binder, over_locals};
use crate::bounds::bound_of;
use crate::heads::{Heads, motives_of};
use crate::levels::{elimination_level, level_names};
use crate::minors::minors_of;
use crate::telescope::{Telescope, over_telescope, telescope_of};
use lk_block::parameters::parameter_levels;
use lk_block::shape::Shape;
use lk_restore::{Original, restore};
use lk_spine::apply;
use lk_store::memory::NoMemory;
use lk_store::terms::Terms;
use std::alloc::Global;

/// What all recursors of a block share. All numbers are those of one store.
#[derive(Drop)]
pub struct Front<'a> {
    pub heads: Heads,
    /// The names of a recursor's level parameters.
    pub names: Vec<u64>,
    /// The list of these, as levels.
    pub levels: u64,
    /// The Local of each constructor's minor premise, in the order of all constructors.
    pub minors: Vec<u64>,
    /// The number of the Local for a major premise. It is above those of all other Locals.
    pub major: u64,
    /// What constants of the block stand for.
    pub originals: &'a [Original],
    /// The binders for the parameters, the motives and the minor premises, where nothing is read back under the parameters.
    pub telescope: Option<Telescope>,
}

/// The number of the Local after so many.
fn number_past(number: u64, count: usize) -> Result<u64, NoMemory>
    ensures { IfOk result (λ n. n ≡ number + count) }
{
    // No Local in memory has so great a number.
    match number.checked_add(count as u64) {
        Some(next) => Ok(next),
        None => Err(NoMemory),
    }
}

/// The motives of a shape, numbered from its bound on.
fn heads_of<T: Terms>(
    alloc: Global,
    terms: &mut T,
    shape: &Shape,
    first: u64,
) -> Result<Heads, NoMemory>
    requires shape_in { IsShapeIn (T.contents terms.old) shape.now }
    requires first_is { first ≡ shape_bound (shape_at (T.contents terms.old) shape.now) }
    ensures keeps { Extends (T.contents terms.old) (T.contents terms.new) }
    ensures rest { T.rest terms.new ≡ T.rest terms.old }
    ensures ok { IfOk result (AreHeads (T.contents terms.new) shape.now) }
{
    let own_levels = parameter_levels(terms, &shape.levels)?;
    let level = elimination_level(alloc, terms, shape)?;
    let motives = motives_of(alloc, terms, shape, own_levels, level, first)?;
    Ok(Heads {
        own_levels,
        motives,
    })
}

/// The binders for the parameters, the motives and the minor premises, where nothing is read back.
fn telescope_for<T: Terms>(
    alloc: Global,
    terms: &mut T,
    shape: &Shape,
    heads: &Heads,
    minor_premises: &[u64],
    originals: &[Original],
) -> Result<Option<Telescope>, NoMemory>
    requires shape_in { IsShapeIn (T.contents terms.old) shape.now }
    requires heads_are { AreHeads (T.contents terms.old) shape.now heads.now }
    requires minors_are { AreTrees (T.contents terms.old) minor_premises.now
        (minors (shape_at (T.contents terms.old) shape.now)) }
    ensures keeps { Extends (T.contents terms.old) (T.contents terms.new) }
    ensures rest { T.rest terms.new ≡ T.rest terms.old }
    ensures ok { IfOk result (λ made. IfSome made (IsFrontTelescope (T.contents terms.new)
        (shape_at (T.contents terms.old) shape.now) originals.now)) }
{
    if !originals.is_empty() {
        return Ok(None);
    }
    let made = telescope_of(
        alloc,
        terms,
        &shape.parameters,
        &heads.motives,
        minor_premises,
    )?;
    Ok(made)
}

/// What all recursors of a block of this shape share.
pub fn front_of<'a, T: Terms>(
    alloc: Global,
    terms: &mut T,
    shape: &Shape,
    originals: &'a [Original],
) -> Result<Front<'a>, NoMemory>
    requires shape_in { IsShapeIn (T.contents terms.old) shape.now }
    requires originals_are { AreOriginals (T.contents terms.old)
        (shape_at (T.contents terms.old) shape.now) originals.now }
    ensures keeps { Extends (T.contents terms.old) (T.contents terms.new) }
    ensures rest { T.rest terms.new ≡ T.rest terms.old }
    ensures originals { IfOk result (λ f. f.originals.now ≡ originals.now) }
    ensures ok { IfOk result (IsFront (T.contents terms.new) shape.now) }
{
    let first = bound_of(terms, shape)?;
    let first_minor = number_past(first, shape.types.len())?;
    let names = level_names(alloc, terms, shape)?;
    let levels = parameter_levels(terms, &names)?;
    let heads = heads_of(alloc, terms, shape, first)?;
    let minors = minors_of(alloc, terms, shape, &heads, first_minor)?;
    let major = number_past(first_minor, minors.len())?;
    let telescope = telescope_for(alloc, terms, shape, &heads, &minors, originals)?;
    Ok(Front {
        heads,
        names,
        levels,
        minors,
        major,
        originals,
        telescope,
    })
}

/// Binders over a tree: for the motives and the minor premises, and over what is read back then, for the parameters.
pub(crate) fn over_front<T: Terms>(
    alloc: Global,
    terms: &mut T,
    binder: Binder,
    shape: &Shape,
    front: &Front,
    e: u64,
) -> Result<u64, NoMemory>
    requires shape_in { IsShapeIn (T.contents terms.old) shape.now }
    requires front_is { IsFront (T.contents terms.old) shape.now front.now }
    requires e_in { e < length (T.contents terms.old).trees }
    ensures keeps { Extends (T.contents terms.old) (T.contents terms.new) }
    ensures rest { T.rest terms.new ≡ T.rest terms.old }
    ensures ok { IfOk result (λ r. IsTree (T.contents terms.new) r
        (bound_by binder (shape_at (T.contents terms.old) shape.now).params
        ((read_by (T.contents terms.old) shape.now front.now).tree
        (bound_by binder (motives (shape_at (T.contents terms.old) shape.now)
        ++ minors (shape_at (T.contents terms.old) shape.now))
        (tree_at (T.contents terms.old) e))))) }
{
    if let Some(telescope) = &front.telescope {
        return over_telescope(alloc, terms, binder, telescope, e);
    }
    let inner = over_locals(alloc, terms, binder, &front.minors, e)?;
    let middle = over_locals(alloc, terms, binder, &front.heads.motives, inner)?;
    let read = restore(alloc, terms, front.originals, middle)?;
    let made = over_locals(alloc, terms, binder, &shape.parameters, read)?;
    Ok(made)
}

/// A head applied to the parameters, the motives and the minor premises.
pub(crate) fn at_front<T: Terms>(
    terms: &mut T,
    shape: &Shape,
    front: &Front,
    head: u64,
) -> Result<u64, NoMemory>
    requires shape_in { IsShapeIn (T.contents terms.old) shape.now }
    requires front_is { IsFront (T.contents terms.old) shape.now front.now }
    requires head_in { head < length (T.contents terms.old).trees }
    ensures keeps { Extends (T.contents terms.old) (T.contents terms.new) }
    ensures rest { T.rest terms.new ≡ T.rest terms.old }
    ensures ok { IfOk result (λ r. IsTree (T.contents terms.new) r
        (applied (tree_at (T.contents terms.old) head)
        (front_locals (shape_at (T.contents terms.old) shape.now)))) }
{
    let first = apply(terms, head, &shape.parameters)?;
    let second = apply(terms, first, &front.heads.motives)?;
    let made = apply(terms, second, &front.minors)?;
    Ok(made)
}
