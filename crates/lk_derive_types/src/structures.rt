//! The structure that a projection is from: its constructor's type, and how many parameters it has.

ghost use Rattle.std.specs.Prelude.{◌≡◌, ◌<◌, length, IfOk};
ghost use Rattle.lk_tree.specs.Tree.{Tree};
ghost use Rattle.lk_store.specs.Contents.{name_at, list_at, tree_at, Extends};
ghost use Rattle.lk_premises.specs.Given.{IsGiven};
ghost use Rattle.lk_derive_types.specs.Subjects.{IsStructureType, IsStructureName, IsStructureRead};
ghost use Rattle.lk_derive_types.specs.Subjects.{IsConstructorOf};

use lk_ask::looks::Looks;
use lk_constructor::levels_of_type;
use lk_env::entry::Entry;
use lk_premises::meaning_of;
use lk_store::memory::NoMemory;
use lk_structure::structure::{Structure, structure_of};

/// A structure's constructor: its type at the structure's levels, and how many parameters it has.
#[derive(Clone, Copy)]
pub struct Stated {
    pub ty: u64,
    pub parameters: u64,
}

/// The structure that a name means by this entry.
fn structure_by<L: Looks>(looks: &L, name: u64, entry: Entry) -> Structure
    requires given { IsGiven (L.sight (L.rest looks.now)).basis
        (name_at (L.contents looks.now) name) entry }
    requires structure { IsStructureName (L.sight (L.rest looks.now)).basis.place
        (name_at (L.contents looks.now) name) }
    ensures known { result.constructor.stated < length (L.contents looks.now).trees }
    ensures is { (T : Tree) → (s : IsStructureType (L.sight (L.rest looks.now)).basis.place
        (name_at (L.contents looks.now) name) T)
        → IsStructureRead (L.sight (L.rest looks.now)).basis.library (L.contents looks.now)
        s result }
{
    match structure_of(looks.scope(), entry) {
        Some(structure) => structure,
        None => unreachable!(),
    }
}

/// The structure that a name means.
fn structure_at<L: Looks>(looks: &L, name: u64) -> Structure
    requires name_in { name < length (L.contents looks.now).names }
    requires structure { IsStructureName (L.sight (L.rest looks.now)).basis.place
        (name_at (L.contents looks.now) name) }
    ensures known { result.constructor.stated < length (L.contents looks.now).trees }
    ensures is { (T : Tree) → (s : IsStructureType (L.sight (L.rest looks.now)).basis.place
        (name_at (L.contents looks.now) name) T)
        → IsStructureRead (L.sight (L.rest looks.now)).basis.library (L.contents looks.now)
        s result }
{
    match meaning_of(looks, name) {
        Some(entry) => structure_by(looks, name, entry),
        None => unreachable!(),
    }
}

/// The levels at which the structure of this name stands in its type.
fn levels_of<L: Looks>(looks: &L, name: u64, form: u64) -> u64
    requires name_in { name < length (L.contents looks.now).names }
    requires form_in { form < length (L.contents looks.now).trees }
    requires structure { IsStructureType (L.sight (L.rest looks.now)).basis.place
        (name_at (L.contents looks.now) name) (tree_at (L.contents looks.now) form) }
    ensures known { result < length (L.contents looks.now).lists }
    ensures is { (s : IsStructureType (L.sight (L.rest looks.now)).basis.place
        (name_at (L.contents looks.now) name) (tree_at (L.contents looks.now) form))
        → list_at (L.contents looks.now) result ≡ s.levels }
{
    match levels_of_type(looks, name, form) {
        Some(levels) => levels,
        None => unreachable!(),
    }
}

/// The constructor of the structure of this name, whose type in weak head form this is.
pub(crate) fn constructor_of<L: Looks>(
    looks: &mut L,
    name: u64,
    form: u64,
) -> Result<Stated, NoMemory>
    requires name_in { name < length (L.contents looks.old).names }
    requires form_in { form < length (L.contents looks.old).trees }
    requires structure { IsStructureType (L.sight (L.rest looks.old)).basis.place
        (name_at (L.contents looks.old) name) (tree_at (L.contents looks.old) form) }
    ensures keeps { Extends (L.contents looks.old) (L.contents looks.new) }
    ensures stays { L.rest looks.new ≡ L.rest looks.old }
    ensures ok { IfOk result (IsConstructorOf (L.sight (L.rest looks.old)).basis.place
        (L.contents looks.new) (name_at (L.contents looks.old) name)
        (tree_at (L.contents looks.old) form)) }
{
    let structure = structure_at(looks, name);
    let levels = levels_of(looks, name, form);
    match looks.at_levels(structure.constructor, levels, structure.constructor.stated)? {
        Some(ty) => Ok(Stated {
            ty,
            parameters: structure.parameters,
        }),
        None => unreachable!(),
    }
}
