//! Structures: types with one constructor and no indices, no field of which mentions a type of its block.

ghost use Rattle.std.specs.Prelude.{◌≡◌, ◌<◌, All, IfOk, IfSome, Some, length, map, option_map};
ghost use Rattle.lk_rulebook.specs.Place.{Entry as PlainEntry};
ghost use Rattle.lk_rulebook.specs.Structures.{is_structure_like, projections};
ghost use Rattle.lk_store.specs.Contents.{name_at, tree_at, Extends};
ghost use Rattle.lk_store.specs.Store.{contents_of};
ghost use Rattle.lk_env.specs.Units.{block_at, type_at, constructor_at, IsTypeIn, IsConstructorIn};
ghost use Rattle.lk_env.specs.Entries.{library_entry};
ghost use Rattle.lk_mentions.specs.Structures.{structure_in, unit_with, unit_in};
ghost use Rattle.lk_mentions.specs.Structures.{IsStructureIf};

use crate::fields::has_plain_fields;
use crate::names::names_of;
use lk_env::entry::Entry;
use lk_env::lends::Lends;
use lk_env::lent::{member_of, type_of};
use lk_env::only::only;
use lk_env::unit::{Block, BlockType, Constructor};
use lk_store::memory::NoMemory;
use lk_store::node::Node;
use lk_store::terms::Terms;
use std::alloc::Global;

/// What is asked of a structure's constructor.
#[derive(Clone, Copy)]
pub struct Structure {
    /// The name of its type.
    pub inductive: u64,
    pub parameters: u64,
    pub fields: u64,
}

/// Whether a type is structure-like, beside having just this constructor.
fn is_like<L: Lends, T: Terms>(
    alloc: Global,
    library: &L,
    terms: &T,
    block: &Block,
    ty: &BlockType,
    constructor: &Constructor,
) -> Result<bool, NoMemory>
    requires over { Extends (contents_of (L.lent library.now).tables) (T.contents terms.now) }
    requires block_in { All (IsTypeIn (contents_of
        (L.lent library.now).tables)) block.now.types.items }
    requires constructor_in { IsConstructorIn (contents_of
        (L.lent library.now).tables) constructor.now }
    ensures { IfOk result (λ r. r ≡ is_structure_like
        (block_at (contents_of (L.lent library.now).tables) block.now)
        (type_at (contents_of (L.lent library.now).tables) ty.now)
        (constructor_at (contents_of (L.lent library.now).tables) constructor.now)) }
{
    if ty.indices != 0 {
        return Ok(false);
    }
    let names = names_of(alloc, &block.types)?;
    has_plain_fields(
        alloc,
        terms,
        &names,
        constructor.parameters,
        constructor.fields,
        constructor.ty,
    )
}

/// The structure that an entry is the constructor of, where it is one.
pub fn structure_of<L: Lends, T: Terms>(
    alloc: Global,
    library: &L,
    terms: &T,
    entry: Entry,
) -> Result<Option<Structure>, NoMemory>
    requires over { Extends (contents_of (L.lent library.now).tables) (T.contents terms.now) }
    ensures known { IfOk result (λ s. IfSome s
        (λ s. s.inductive < length (T.contents terms.now).names)) }
    ensures is { (g : PlainEntry) → library_entry (L.lent library.now) entry ≡ Some g
        → IfOk result (λ s. IsStructureIf (T.contents terms.now) s (structure_in g.kind)) }
{
    match member_of(library, entry) {
        Some((block, ty, constructor)) => {
            if ty.constructors.len() != 1 {
                return Ok(None);
            }
            if is_like(alloc, library, terms, block, ty, constructor)? {
                Ok(Some(Structure {
                    inductive: ty.name,
                    parameters: constructor.parameters,
                    fields: constructor.fields,
                }))
            } else {
                Ok(None)
            }
        }
        None => Ok(None),
    }
}

/// The number of parameters of a type with just this constructor, where it is a structure without fields.
fn unit_by<L: Lends, T: Terms>(
    alloc: Global,
    library: &L,
    terms: &T,
    block: &Block,
    ty: &BlockType,
    constructor: &Constructor,
) -> Result<Option<u64>, NoMemory>
    requires over { Extends (contents_of (L.lent library.now).tables) (T.contents terms.now) }
    requires block_in { All (IsTypeIn (contents_of
        (L.lent library.now).tables)) block.now.types.items }
    requires constructor_in { IsConstructorIn (contents_of
        (L.lent library.now).tables) constructor.now }
    ensures { IfOk result (λ n. n ≡ unit_with
        (block_at (contents_of (L.lent library.now).tables) block.now)
        (type_at (contents_of (L.lent library.now).tables) ty.now)
        (constructor_at (contents_of (L.lent library.now).tables) constructor.now)) }
{
    if constructor.fields == 0 && is_like(alloc, library, terms, block, ty, constructor)? {
        Ok(Some(ty.parameters))
    } else {
        Ok(None)
    }
}

/// The number of parameters of a type that is a structure without fields, where an entry is such a type.
pub fn unit_parameters_of<L: Lends, T: Terms>(
    alloc: Global,
    library: &L,
    terms: &T,
    entry: Entry,
) -> Result<Option<u64>, NoMemory>
    requires over { Extends (contents_of (L.lent library.now).tables) (T.contents terms.now) }
    ensures { (g : PlainEntry) → library_entry (L.lent library.now) entry ≡ Some g
        → IfOk result (λ n. n ≡ unit_in g.kind) }
{
    match type_of(library, entry) {
        Some((block, ty)) => match only(&ty.constructors) {
            Some(constructor) => unit_by(alloc, library, terms, block, ty, constructor),
            None => Ok(None),
        },
        None => Ok(None),
    }
}

/// The projections of a term to so many fields, from the first one on, as of this type.
pub fn projections_of<T: Terms>(
    alloc: Global,
    terms: &mut T,
    inductive: u64,
    m: u64,
    fields: u64,
) -> Result<Vec<u64>, NoMemory>
    requires inductive_in { inductive < length (T.contents terms.old).names }
    requires m_in { m < length (T.contents terms.old).trees }
    ensures keeps { Extends (T.contents terms.old) (T.contents terms.new) }
    ensures rest { T.rest terms.new ≡ T.rest terms.old }
    ensures known { IfOk result (λ ps. All (λ e. e < length (T.contents terms.new).trees)
        ps.items) }
    ensures are { IfOk result (λ ps. map (tree_at (T.contents terms.new)) ps.items
        ≡ projections (name_at (T.contents terms.old) inductive)
        (tree_at (T.contents terms.old) m) 0 fields) }
{
    let mut found: Vec<u64> = Vec::new(alloc);
    for j in 0..fields {
        let projection = terms.make(Node::Proj(inductive, j, m))?;
        found.push(projection)?;
    }
    Ok(found)
}
