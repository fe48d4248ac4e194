//! The constructor that the head of a term means.

ghost use Rattle.std.specs.Prelude.{◌≡◌, ◌<◌, Some, IfOk, length};
ghost use Rattle.lk_tree.specs.Spine.{head as head_of, args};
ghost use Rattle.lk_rulebook.specs.Place.{Entry as PlainEntry};
ghost use Rattle.lk_store.specs.Contents.{tree_at};
ghost use Rattle.lk_env.specs.Lent.{constructor_in};
ghost use Rattle.lk_ask.specs.Looks.{entry_at};
ghost use Rattle.lk_mentions.specs.Structures.{IsStructureIf};
ghost use Rattle.lk_eta.specs.Structures.{constructor_at, is_full};

use crate::arguments::has_arguments;
use lk_ask::looks::Looks;
use lk_env::entry::Entry;
use lk_env::lent::constructor_of;
use lk_mentions::structures::{Structure, structure_of};
use lk_spine::head;
use lk_store::memory::NoMemory;
use lk_store::node::Node;

/// The constructor of an entry, where it is one; its type need not be a structure.
pub fn constructor_by<L: Looks>(looks: &L, entry: Entry) -> Option<Structure>
    ensures { (g : PlainEntry) → entry_at (L.sight (L.rest looks.now)).basis entry ≡ Some g
        → IsStructureIf (L.contents looks.now) result (constructor_in g.kind) }
{
    match constructor_of(looks.scope(), entry) {
        Some((ty, constructor)) => Some(Structure {
            inductive: ty.name,
            parameters: constructor.parameters,
            fields: constructor.fields,
        }),
        None => None,
    }
}

/// The constructor that the head of a term means, once it was looked up before: nothing is noted. It takes no memory.
pub(crate) fn constructor_again<L: Looks>(looks: &L, e: u64) -> Option<Structure>
    requires { e < length (L.contents looks.now).trees }
    ensures { IsStructureIf (L.contents looks.now) result
        (constructor_at (L.sight (L.rest looks.now)).basis.place
        (head_of (tree_at (L.contents looks.now) e))) }
{
    let front = head(looks, e);
    match looks.view(front) {
        Node::Const(name, _) => match looks.means(name) {
            Ok(entry) => constructor_by(looks, entry),
            Err(_) => None,
        },
        _ => None,
    }
}

/// Whether a term is a structure's constructor with all its arguments, where its head is the constant of this entry. The
/// arguments are counted first, since whether it is a structure takes a walk over the constructor's type.
pub fn is_full<L: Looks>(looks: &L, entry: Entry, e: u64) -> Result<bool, NoMemory>
    requires { e < length (L.contents looks.now).trees }
    ensures { (g : PlainEntry) → entry_at (L.sight (L.rest looks.now)).basis entry ≡ Some g
        → IfOk result (λ r. r ≡ is_full g.kind (args (tree_at (L.contents looks.now) e))) }
{
    let count = match constructor_by(looks, entry) {
        Some(found) => found.parameters as u128 + found.fields as u128,
        None => return Ok(false),
    };
    if !has_arguments(looks, e, count) {
        return Ok(false);
    }
    match structure_of(looks.alloc(), looks.scope(), looks, entry)? {
        Some(_) => Ok(true),
        None => Ok(false),
    }
}
