//! A block's own recursors, so far as they are made before one of their names is stated.

ghost use Rattle.std.specs.Prelude.{◌≡◌, ◌<◌, length, drop, IfOk, IfSome, option_map};
ghost use Rattle.lk_store.specs.Contents.{name_at, Extends, IsName};
ghost use Rattle.lk_inductive.specs.Compare.{rec_named};
ghost use Rattle.lk_inductive.specs.Recursors.{rec_name};
ghost use Rattle.lk_block.specs.Shapes.{shape_at, IsShapeIn};
ghost use Rattle.lk_restore.specs.Originals.{read_name, AreOriginalsIn};
ghost use Rattle.lk_recursor.specs.Fronts.{IsFront, read_by, own_recursors};
ghost use Rattle.lk_recursor.specs.Comparisons.{own_at, AreNames, IsShared, IsOwnRecursor};

use crate::front::Front;
use crate::levels::recursor_name;
use lk_block::shape::{ConstructorShape, Shape, TypeShape};
use lk_env::unit::Recursor;
use lk_lists::names::names_equal;
use lk_restore::Original;
use lk_restore::originals::original_name;
use lk_store::memory::NoMemory;
use lk_store::terms::Terms;
use std::alloc::Global;

/// What all recursors of a block share, their names, and whether they are by K.
#[derive(Clone, Copy)]
pub struct Shared<'a> {
    pub shape: &'a Shape,
    pub front: &'a Front<'a>,
    /// The names of the recursors, in the order of the types.
    pub names: &'a [u64],
    pub k: bool,
}

/// The recursor of a type of the block.
#[derive(Clone, Copy)]
pub struct OwnRecursor<'a> {
    pub of: &'a TypeShape,
    /// The minor premises, from the first one of the type on.
    pub minors: &'a [u64],
}

/// A recursor of the block and the stated one of its name.
#[derive(Clone, Copy)]
pub struct Comparison<'a> {
    pub shared: Shared<'a>,
    pub own: OwnRecursor<'a>,
    pub stated: &'a Recursor,
    /// The stated level parameters, as levels.
    pub levels: &'a [u64],
}

/// The minor premises after those of a type.
fn past_minors<'a>(constructors: &[ConstructorShape], minors: &'a [u64]) -> &'a [u64]
    ensures { result.now ≡ drop (length constructors.now) minors.now }
{
    let count = constructors.len().min(minors.len());
    minors.split_at(count).1
}

/// The name of the recursor of the type of this name, read back.
fn own_name<T: Terms>(
    alloc: Global,
    terms: &mut T,
    originals: &[Original],
    name: u64,
) -> Result<u64, NoMemory>
    requires originals_in { AreOriginalsIn (T.contents terms.old) originals.now }
    requires name_in { name < length (T.contents terms.old).names }
    ensures keeps { Extends (T.contents terms.old) (T.contents terms.new) }
    ensures rest { T.rest terms.new ≡ T.rest terms.old }
    ensures ok { IfOk result (λ n. IsName (T.contents terms.new) n
        (read_name (T.contents terms.old) originals.now
        (rec_name (name_at (T.contents terms.old) name)))) }
{
    let made = recursor_name(alloc, terms, name)?;
    Ok(original_name(terms, originals, made))
}

/// The names of the recursors of a block's types, read back.
pub fn names_of<T: Terms>(
    alloc: Global,
    terms: &mut T,
    shape: &Shape,
    front: &Front,
) -> Result<Vec<u64>, NoMemory>
    requires shape_in { IsShapeIn (T.contents terms.old) shape.now }
    requires front_is { IsFront (T.contents terms.old) shape.now front.now }
    ensures keeps { Extends (T.contents terms.old) (T.contents terms.new) }
    ensures rest { T.rest terms.new ≡ T.rest terms.old }
    ensures ok { IfOk result (λ ns. AreNames (T.contents terms.new)
        (read_by (T.contents terms.new) shape.now front.now) ns.items shape.now.types.items) }
{
    let mut names: Vec<u64> = Vec::new(alloc);
    let mut rest = shape.types.as_slice();
    'types: while let Some((of, more)) = rest.split_first() {
        let name = own_name(alloc, terms, front.originals, of.name)?;
        names.push(name)?;
        rest = more;
    }
    Ok(names)
}

/// The recursor of this name: that of the first type there is.
pub fn named<'a, T: Terms>(terms: &T, shared: &Shared<'a>, name: u64) -> Option<OwnRecursor<'a>>
    requires shared_is { IsShared (T.contents terms.now) shared.now }
    requires name_in { name < length (T.contents terms.now).names }
    ensures known { IfSome result (IsOwnRecursor (T.contents terms.now)) }
    ensures found { rec_named (own_recursors (T.contents terms.now) shared.now.shape.now
        shared.now.front.now) (name_at (T.contents terms.now) name)
        ≡ option_map (own_at (T.contents terms.now)
        (read_by (T.contents terms.now) shared.now.shape.now shared.now.front.now)
        (shape_at (T.contents terms.now) shared.now.shape.now)) result }
{
    let mut names = shared.names;
    let mut types = shared.shape.types.as_slice();
    let mut minors = shared.front.minors.as_slice();
    'types: while let Some((of, more_types)) = types.split_first() {
        match names.split_first() {
            None => return None,
            Some((own, more_names)) => {
                if names_equal(terms, *own, name) {
                    return Some(OwnRecursor { of, minors });
                }
                minors = past_minors(&of.constructors, minors);
                names = more_names;
                types = more_types;
            }
        }
    }
    None
}
