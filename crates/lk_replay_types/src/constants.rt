//! Constants.

ghost use Rattle.std.specs.Prelude.{◌≡◌, ◌<◌, Some, length};
ghost use Rattle.lk_tree.specs.Tree.{const};
ghost use Rattle.lk_rulebook.specs.Place.{Entry as PlainEntry};
ghost use Rattle.lk_written.specs.Typing.{type_const};
ghost use Rattle.lk_store.specs.Contents.{name_at, list_at, tree_at};
ghost use Rattle.lk_store.specs.Store.{contents_of};
ghost use Rattle.lk_env.specs.Entries.{IsEntryIn};
ghost use Rattle.lk_ask.specs.Looks.{entry_at, IsOver};
ghost use Rattle.lk_premises.specs.Testing.{Tests};
ghost use Rattle.lk_replay_types.specs.Constants.{const_by};

use lk_ask::looks::Looks;
use lk_env::entry::Entry;
use lk_premises::{comes_to, meaning_of};
use lk_store::memory::NoMemory;
use lk_store::node::Node;

/// Whether a tree is what the line of an entry states, at these levels.
#[tactic(auto, using(lk_ask::proofs::Entries::entry_type))]
fn is_stated<L: Looks>(
    looks: &mut L,
    left: &[u32],
    entry: Entry,
    levels: u64,
    ty: u64,
) -> Result<bool, NoMemory>
    requires over { IsOver L.contents L.rest L.sight looks.old }
    requires entry_in { let b = contents_of (L.sight (L.rest looks.old)).basis.library.tables in
        IsEntryIn b entry }
    requires levels_in { levels < length (L.contents looks.old).lists }
    requires ty_in { ty < length (L.contents looks.old).trees }
    ensures { (g : PlainEntry) → entry_at (L.sight (L.rest looks.old)).basis entry ≡ Some g
        → Tests L.contents (λ s. (L.sight (L.rest s)).basis) looks.old looks.new result
        (const_by left.now g (list_at (L.contents looks.old) levels)
        (tree_at (L.contents looks.old) ty)) }
{
    match looks.at_levels(entry, levels, entry.stated)? {
        Some(e) => Ok(comes_to(looks, ty, e, left)),
        None => Ok(false),
    }
}

/// A line of a constant of this name at these levels.
fn constant_of<L: Looks>(
    looks: &mut L,
    left: &[u32],
    name: u64,
    levels: u64,
    ty: u64,
) -> Result<bool, NoMemory>
    requires name_in { name < length (L.contents looks.old).names }
    requires levels_in { levels < length (L.contents looks.old).lists }
    requires ty_in { ty < length (L.contents looks.old).trees }
    ensures { Tests L.contents (λ s. (L.sight (L.rest s)).basis) looks.old looks.new result
        (type_const (L.sight (L.rest looks.old)).basis.place left.now
        (const (name_at (L.contents looks.old) name) (list_at (L.contents looks.old) levels))
        (tree_at (L.contents looks.old) ty)) }
{
    match meaning_of(looks, name) {
        Some(entry) => is_stated(looks, left, entry, levels, ty),
        None => Ok(false),
    }
}

/// A line of a constant, whose type is the one that is stated, at its levels.
pub fn test_constant<L: Looks>(
    looks: &mut L,
    left: &[u32],
    e: u64,
    ty: u64,
) -> Result<bool, NoMemory>
    requires e_in { e < length (L.contents looks.old).trees }
    requires ty_in { ty < length (L.contents looks.old).trees }
    ensures { Tests L.contents (λ s. (L.sight (L.rest s)).basis) looks.old looks.new result
        (type_const (L.sight (L.rest looks.old)).basis.place left.now
        (tree_at (L.contents looks.old) e) (tree_at (L.contents looks.old) ty)) }
{
    match looks.view(e) {
        Node::Const(name, levels) => constant_of(looks, left, name, levels, ty),
        _ => Ok(false),
    }
}
