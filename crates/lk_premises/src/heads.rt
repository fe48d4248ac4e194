//! The constant at the head of a tree, and what it means.

ghost use Rattle.std.specs.Prelude.{◌≡◌, ◌<◌, None, length, IfSome, IfNone};
ghost use Rattle.lk_store.specs.Contents.{tree_at};
ghost use Rattle.lk_store.specs.Store.{contents_of};
ghost use Rattle.lk_env.specs.Entries.{IsEntryIn};
ghost use Rattle.lk_ask.specs.Looks.{IsOver};
ghost use Rattle.lk_premises.specs.Heads.{head_means, IsHeaded};

use crate::meaning::meaning_of;
use lk_ask::looks::Looks;
use lk_env::entry::Entry;
use lk_spine::head;
use lk_store::node::Node;

/// A constant at the head of a tree: the numbers of its name and of its levels, and what it means.
#[derive(Clone, Copy)]
pub struct Headed {
    pub name: u64,
    pub levels: u64,
    pub entry: Entry,
}

/// The constant at the head of a tree, where there is one that means anything. Nothing is noted, and it takes no memory.
pub fn head_meaning<L: Looks>(looks: &L, e: u64) -> Option<Headed>
    requires { e < length (L.contents looks.now).trees }
    ensures over { IfSome result (λ h. IsOver L.contents L.rest L.sight looks.now) }
    ensures known { IfSome result (λ h. IsEntryIn
        (contents_of (L.sight (L.rest looks.now)).basis.library.tables) h.entry) }
    ensures name_in { IfSome result (λ h. h.name < length (L.contents looks.now).names) }
    ensures levels_in { IfSome result (λ h. h.levels < length (L.contents looks.now).lists) }
    ensures headed { IfSome result (IsHeaded (L.sight (L.rest looks.now)).basis
        (L.contents looks.now) (tree_at (L.contents looks.now) e)) }
    ensures headless { IfNone result (head_means (L.sight (L.rest looks.now)).basis.place
        (tree_at (L.contents looks.now) e) ≡ None) }
{
    let front = head(looks, e);
    match looks.view(front) {
        Node::Const(name, levels) => match meaning_of(looks, name) {
            Some(entry) => Some(Headed {
                name,
                levels,
                entry,
            }),
            None => None,
        },
        _ => None,
    }
}
