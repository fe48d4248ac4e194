//! A recursor that is applied: its arguments, split at the major premise.

ghost use Rattle.std.specs.Prelude.{◌≡◌, ◌<◌, ◌+◌, List, Some, IfOk, IfSome, length, map, All};
ghost use Rattle.lk_tree.specs.Spine.{args as args_of};
ghost use Rattle.lk_rulebook.specs.Place.{Entry as PlainEntry, a_rec};
ghost use Rattle.lk_store.specs.Contents.{Contents, list_at, tree_at};
ghost use Rattle.lk_store.specs.Store.{contents_of};
ghost use Rattle.lk_env.specs.declared.unit.RecursorRule.{RecursorRule};
ghost use Rattle.lk_env.specs.Entries.{library_entry};
ghost use Rattle.lk_env.specs.Lent.{given_recursor};
ghost use Rattle.lk_env.specs.StoredLibrary.{StoredLibrary};
ghost use Rattle.lk_ask.specs.Looks.{entry_at};
ghost use Rattle.lk_iota.specs.Redexes.{split_at, redex_by as plain_redex_by, redex_at};
ghost use Rattle.lk_iota.specs.Redexes.{IsKnownRedex, IsRedexIf};

use lk_ask::looks::Looks;
use lk_env::entry::Entry;
use lk_env::lent::recursor_of;
use lk_env::unit::Recursor;
use lk_spine::{args, head};
use lk_store::memory::NoMemory;
use lk_store::node::Node;

/// A recursor that is applied to its major premise.
#[derive(Drop)]
pub struct Redex {
    pub entry: Entry,
    pub levels: u64,
    /// All its arguments.
    pub arguments: Vec<u64>,
    /// How many of them come in front of a rule's fields: the parameters, the motives and the minor
    /// premises.
    pub shared: usize,
    /// How many of them stand before the major premise.
    pub before: usize,
    pub major: u64,
    /// Whether the recursor has K.
    pub k: bool,
}

/// How many arguments each rule shares, and how many stand before the major premise. Counts have 64
/// bits, so that a sum may be above 2^64.
fn counts(parameters: u64, motives: u64, minors: u64, indices: u64) -> (u128, u128)
    ensures shared { result.0 ≡ parameters + motives + minors }
    ensures before { result.1 ≡ parameters + motives + minors + indices }
{
    let shared = u128::from(parameters) + u128::from(motives) + u128::from(minors);
    (shared, shared + u128::from(indices))
}

/// The arguments of a recursor, split at the major premise. There is none where they are too few.
fn split(entry: Entry, levels: u64, recursor: &Recursor, arguments: Vec<u64>) -> Option<Redex>
    ensures known { (c : Contents) → levels < length c.lists
        → All (λ x. x < length c.trees) arguments.items → IfSome result (IsKnownRedex c) }
    ensures is { (c : Contents) (l : StoredLibrary) (g : PlainEntry)
        (rules : List RecursorRule) → library_entry l entry ≡ Some g
        → g.kind ≡ a_rec (given_recursor (contents_of l.tables) recursor.now rules)
        → IsRedexIf c l result (split_at (list_at c levels) g
        (given_recursor (contents_of l.tables) recursor.now rules) (map
        (tree_at c) arguments.items)) }
{
    let (shared, before) = counts(
        recursor.parameters,
        recursor.motives,
        recursor.minors,
        recursor.indices,
    );
    if before >= arguments.len() as u128 {
        return None;
    }
    let major = arguments[before as usize];
    Some(Redex {
        entry,
        levels,
        arguments,
        shared: shared as usize,
        before: before as usize,
        major,
        k: recursor.k,
    })
}

/// What a term is whose head is a constant of this entry and these levels: a recursor that is
/// applied to its major premise, or none.
pub(crate) fn redex_by<L: Looks>(
    looks: &L,
    entry: Entry,
    levels: u64,
    e: u64,
) -> Result<Option<Redex>, NoMemory>
    requires levels_in { levels < length (L.contents looks.now).lists }
    requires e_in { e < length (L.contents looks.now).trees }
    ensures known { IfOk result (λ u. IfSome u (IsKnownRedex (L.contents looks.now))) }
    ensures is { IfOk result (λ u. (g : PlainEntry)
        → entry_at (L.sight (L.rest looks.now)).basis entry ≡ Some g
        → IsRedexIf (L.contents looks.now) (L.sight (L.rest looks.now)).basis.library u
        (plain_redex_by (list_at (L.contents looks.now) levels)
        (args_of (tree_at (L.contents looks.now) e)) g g.kind)) }
{
    match recursor_of(looks.scope(), entry) {
        Some((recursor, _)) => {
            let arguments = args(looks.alloc(), looks, e)?;
            Ok(split(entry, levels, recursor, arguments))
        }
        None => Ok(None),
    }
}

/// The recursor that a term is, applied to its major premise, where its head was looked up before.
pub(crate) fn applied_recursor<L: Looks>(looks: &L, e: u64) -> Result<Option<Redex>, NoMemory>
    requires e_in { e < length (L.contents looks.now).trees }
    ensures known { IfOk result (λ u. IfSome u (IsKnownRedex (L.contents looks.now))) }
    ensures is { IfOk result (λ u. IsRedexIf (L.contents looks.now)
        (L.sight (L.rest looks.now)).basis.library u
        (redex_at (L.sight (L.rest looks.now)).basis.place (tree_at (L.contents looks.now) e))) }
{
    let front = head(looks, e);
    match looks.view(front) {
        Node::Const(name, levels) => match looks.means(name) {
            Ok(entry) => redex_by(looks, entry, levels, e),
            Err(_) => Ok(None),
        },
        _ => Ok(None),
    }
}
