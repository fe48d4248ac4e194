//! Constants unfolded by their values.

ghost use Rattle.std.specs.Prelude.{◌≡◌, ◌<◌, List, Some, IfSome, length, option_map};
ghost use Rattle.lk_rulebook.specs.Place.{Entry as PlainEntry};
ghost use Rattle.lk_questions.specs.Steps.{value_of as plain_value};
ghost use Rattle.lk_written.specs.Reducing.{red_delta};
ghost use Rattle.lk_store.specs.Contents.{Contents, list_at, tree_at};
ghost use Rattle.lk_store.specs.Store.{contents_of};
ghost use Rattle.lk_env.specs.declared.unit.Unit.{Unit as StoredUnit};
ghost use Rattle.lk_env.specs.Entries.{plain_entry, IsEntryIn};
ghost use Rattle.lk_ask.specs.Looks.{entry_at, IsOver};
ghost use Rattle.lk_premises.specs.Testing.{Tests};
ghost use Rattle.lk_replay_reduce.specs.Unfolding.{unfolds_to, unfolds};

use lk_ask::looks::Looks;
use lk_env::entry::{Entry, Kind};
use lk_env::unit::Body;
use lk_premises::{comes_to_applied, head_meaning};
use lk_store::memory::NoMemory;

/// The value that a constant is unfolded by.
fn value_of(entry: Entry) -> Option<u64>
    ensures known { (c : Contents) → IsEntryIn c entry → IfSome result (λ v. v < length c.trees) }
    ensures value { (c : Contents) (us : List StoredUnit) (g : PlainEntry)
        → plain_entry c us entry ≡ Some g → plain_value g.kind ≡ option_map (tree_at c) result }
{
    match entry.kind {
        Kind::Declared(body) => match body {
            Body::Definition { value, .. } => Some(u64::from(value)),
            Body::Theorem { proof } => Some(u64::from(proof)),
            Body::Axiom | Body::Opaque { .. } | Body::Quotient => None,
        },
        Kind::Type(_) | Kind::Constructor { .. } | Kind::Recursor(_) | Kind::BareRecursor(_) =>
            None,
    }
}

/// Whether a tree is a value at levels, applied to the arguments of another tree.
fn is_value<L: Looks>(
    looks: &mut L,
    left: &[u32],
    entry: Entry,
    levels: u64,
    value: u64,
    a: u64,
    b: u64,
) -> Result<bool, NoMemory>
    requires levels_in { levels < length (L.contents looks.old).lists }
    requires value_in { value < length (L.contents looks.old).trees }
    requires a_in { a < length (L.contents looks.old).trees }
    requires b_in { b < length (L.contents looks.old).trees }
    ensures { let c = L.contents looks.old in (g : PlainEntry)
        → entry_at (L.sight (L.rest looks.old)).basis entry ≡ Some g
        → Tests L.contents L.rest looks.old looks.new result
        (unfolds_to left.now g.levels (list_at c levels) (tree_at c value) (tree_at c a)
        (tree_at c b)) }
{
    match looks.at_levels(entry, levels, value)? {
        Some(front) => Ok(comes_to_applied(looks, left, front, a, b)),
        None => Ok(false),
    }
}

/// The same of the value of an entry.
fn is_unfolded<L: Looks>(
    looks: &mut L,
    left: &[u32],
    entry: Entry,
    levels: u64,
    a: u64,
    b: u64,
) -> Result<bool, NoMemory>
    requires over { IsOver L.contents L.rest L.sight looks.old }
    requires entry_in { IsEntryIn
        (contents_of (L.sight (L.rest looks.old)).basis.library.tables) entry }
    requires levels_in { levels < length (L.contents looks.old).lists }
    requires a_in { a < length (L.contents looks.old).trees }
    requires b_in { b < length (L.contents looks.old).trees }
    ensures { let c = L.contents looks.old in (g : PlainEntry)
        → entry_at (L.sight (L.rest looks.old)).basis entry ≡ Some g
        → Tests L.contents L.rest looks.old looks.new result
        (unfolds left.now g (list_at c levels) (tree_at c a) (tree_at c b)) }
{
    match value_of(entry) {
        Some(value) => is_value(looks, left, entry, levels, value, a, b),
        None => Ok(false),
    }
}

/// A line of a constant that is unfolded, with arguments or without.
pub fn test_delta<L: Looks>(looks: &mut L, left: &[u32], a: u64, b: u64) -> Result<bool, NoMemory>
    requires a_in { a < length (L.contents looks.old).trees }
    requires b_in { b < length (L.contents looks.old).trees }
    ensures { let t = tree_at (L.contents looks.old) in
        Tests L.contents L.rest looks.old looks.new result
        (red_delta (L.sight (L.rest looks.old)).basis.place left.now (t a) (t b)) }
{
    match head_meaning(looks, a) {
        Some(front) => is_unfolded(looks, left, front.entry, front.levels, a, b),
        None => Ok(false),
    }
}
