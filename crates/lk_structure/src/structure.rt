//! Types with exactly one constructor.

ghost use Rattle.std.specs.Prelude.{◌≡◌, ◌<◌, ◌+◌, ◌&&◌, nat_eq, nat_lt, Some, length, IfSome, option_map};
ghost use Rattle.lk_rulebook.specs.Place.{Entry as PlainEntry, Block as PlainBlock};
ghost use Rattle.lk_store.specs.Contents.{Contents};
ghost use Rattle.lk_store.specs.Store.{contents_of};
ghost use Rattle.lk_env.specs.Units.{type_at, IsTypeIn};
ghost use Rattle.lk_env.specs.Entries.{library_entry};
ghost use Rattle.lk_env.specs.Lent.{type_in};
ghost use Rattle.lk_env.specs.StoredLibrary.{StoredLibrary};
ghost use Rattle.lk_structure.specs.Structures.{structure_in, IsStructureIf};

use lk_env::entry::{Entry, Kind};
use lk_env::lends::Lends;
use lk_env::lent::type_of;
use lk_env::only::only;
use lk_env::unit::BlockType;

/// What is asked of a type with exactly one constructor, beside that constructor.
#[derive(Clone, Copy)]
pub struct Structure {
    pub constructor: Entry,
    pub parameters: u64,
    pub indices: u64,
    /// How many fields the constructor has.
    pub fields: u64,
}

/// The type of this number of a block, where it has exactly one constructor.
fn structure_by(ty: &BlockType, number: usize, unit: u32) -> Option<Structure>
    ensures is { (l : StoredLibrary) (e : Entry) (g : PlainEntry) (b : PlainBlock)
        → library_entry l e ≡ Some g → type_in g.kind
        ≡ Some (b, type_at (contents_of l.tables) ty.now) → e.kind ≡ Kind.Type number
        → e.unit ≡ unit → IsStructureIf l result (structure_in g.kind) }
    ensures known { (c : Contents) → IsTypeIn c ty.now → IfSome result
        (λ s. s.constructor.stated < length c.trees) }
{
    match only(&ty.constructors) {
        Some(constructor) => Some(Structure {
            constructor: Entry {
                kind: Kind::Constructor {
                    parent: number,
                    number: 0,
                },
                stated: constructor.ty,
                unit,
                origin: unit,
            },
            parameters: ty.parameters,
            indices: ty.indices,
            fields: constructor.fields,
        }),
        None => None,
    }
}

/// The type with exactly one constructor that an entry is, where it is one. It takes no memory.
pub fn structure_of<L: Lends>(library: &L, entry: Entry) -> Option<Structure>
    ensures known { IfSome result
        (λ s. s.constructor.stated < length (contents_of (L.lent library.now).tables).trees) }
    ensures is { (g : PlainEntry) → library_entry (L.lent library.now) entry ≡ Some g
        → IsStructureIf (L.lent library.now) result (structure_in g.kind) }
{
    match entry.kind {
        Kind::Type(number) => match type_of(library, entry) {
            Some((_, ty)) => structure_by(ty, number, entry.unit),
            None => None,
        },
        Kind::Declared(_) | Kind::Constructor { .. } | Kind::Recursor(_) | Kind::BareRecursor(_) =>
            None,
    }
}

/// Whether a structure has such a field, and so many arguments are its parameters and its indices.
/// Counts have 64 bits, so that their sum may be above 2^64.
pub fn fits(structure: Structure, field: u64, arguments: usize) -> bool
    ensures { result ≡ (nat_eq arguments (structure.parameters + structure.indices)
        && nat_lt field structure.fields) }
{
    let all = u128::from(structure.parameters) + u128::from(structure.indices);
    arguments as u128 == all && field < structure.fields
}
