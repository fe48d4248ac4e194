//! What the head of a term unfolds by.

ghost use Rattle.std.specs.Prelude.{◌≡◌, ◌<◌, Some, length};
ghost use Rattle.lk_tree.specs.Spine.{head as head_of};
ghost use Rattle.lk_rulebook.specs.Place.{Entry as PlainEntry};
ghost use Rattle.lk_questions.specs.Unfolding.{unfolding_by as plain_by};
ghost use Rattle.lk_store.specs.Contents.{Contents, name_at, list_at, tree_at, Extends};
ghost use Rattle.lk_store.specs.Store.{contents_of};
ghost use Rattle.lk_env.specs.Entries.{IsEntryIn, library_entry};
ghost use Rattle.lk_env.specs.StoredLibrary.{StoredLibrary};
ghost use Rattle.lk_lazy.specs.Heads.{IsUnfoldingIf, IsHeadUnfolding, LooksUp};

use crate::rank::{Rank, rank_of};
use lk_ask::looks::Looks;
use lk_env::entry::{Entry, Kind};
use lk_env::unit::Body;
use lk_spine::head;
use lk_store::node::Node;
use lk_tree::rule::Rule;

/// What a term unfolds by whose head is a definition or a theorem: the constant, its entry, its
/// value and its rank.
#[derive(Clone, Copy)]
pub struct Unfolding {
    pub name: u64,
    pub levels: u64,
    pub entry: Entry,
    pub value: u64,
    pub rank: Rank,
}

/// What a constant unfolds by whose name means this entry.
fn unfolding_by(name: u64, levels: u64, entry: Entry) -> Option<Unfolding>
    ensures { (c : Contents) (l : StoredLibrary) (g : PlainEntry)
        → Extends (contents_of l.tables) c → IsEntryIn (contents_of l.tables) entry
        → name < length c.names → levels < length c.lists → library_entry l entry ≡ Some g
        → IsUnfoldingIf c l result (plain_by (name_at c name) (list_at c levels) g g.kind) }
{
    match entry.kind {
        Kind::Declared(body) => match body {
            Body::Definition { hint, value } => Some(Unfolding {
                name,
                levels,
                entry,
                value: u64::from(value),
                rank: rank_of(hint),
            }),
            Body::Theorem { proof } => Some(Unfolding {
                name,
                levels,
                entry,
                value: u64::from(proof),
                rank: Rank::Lowest,
            }),
            Body::Axiom | Body::Opaque { .. } | Body::Quotient => None,
        },
        Kind::Type(_) | Kind::Constructor { .. } | Kind::Recursor(_) | Kind::BareRecursor(_) =>
            None,
    }
}

/// Looks up what the head of a term unfolds by. That its unit was looked at is noted.
pub(crate) fn unfolding_of<L: Looks>(looks: &mut L, e: u64) -> Result<Option<Unfolding>, Rule>
    requires { e < length (L.contents looks.old).trees }
    ensures { LooksUp L.contents L.rest L.sight looks.old looks.new e result }
{
    let front = head(looks, e);
    match looks.view(front) {
        Node::Const(name, levels) => {
            let entry = looks.look(name, Rule::UnknownConstant)?;
            Ok(unfolding_by(name, levels, entry))
        }
        _ => Ok(None),
    }
}

/// What the head of a term unfolds by, once it was looked up before.
pub(crate) fn unfolding_again<L: Looks>(looks: &L, e: u64) -> Option<Unfolding>
    requires { e < length (L.contents looks.now).trees }
    ensures { IsHeadUnfolding (L.contents looks.now) (L.sight (L.rest looks.now)).basis e result }
{
    let front = head(looks, e);
    match looks.view(front) {
        Node::Const(name, levels) => match looks.means(name) {
            Ok(entry) => unfolding_by(name, levels, entry),
            Err(_) => None,
        },
        _ => None,
    }
}
