//! Two terms that are the same where what they unfold to is.

ghost use Rattle.std.specs.Prelude.{◌≡◌, ◌<◌, [], ◌∷◌, ℕ, true, length, IfOk, IfSome, OnOk, option_map};
ghost use Rattle.lk_tree.specs.WellFormed.{IsWellFormed};
ghost use Rattle.lk_rulebook.specs.Place.{Place};
ghost use Rattle.lk_rulebook.specs.Claims.{reduces, equals};
ghost use Rattle.lk_questions.specs.Query.{same};
ghost use Rattle.lk_questions.specs.Unfolding.{by_unfolding};
ghost use Rattle.lk_store.specs.Contents.{tree_at};
ghost use Rattle.lk_ask.specs.Sheets.{map_pair, IsKnownPair};
ghost use Rattle.lk_step.specs.Rows.{IsAnswered};
ghost use Rattle.lk_step.specs.Parts.{States, IsPartIn};
ghost use Rattle.lk_step.specs.Tests.{ArePair};
ghost use Rattle.lk_derive_lazy.specs.Turns.{IsTurned, Turns, Bears, pair_in};

use crate::steps::{add_equality, add_unfolding, ask_same};
use lk_ask::looks::Looks;
use lk_ask::next::Next;
use lk_ask::query::Query;
use lk_ask::sheet::Pair;
use lk_lazy::LazyNext;
use lk_step::Row;
use lk_step::making::{equality, reduction};
use lk_step::under_way::empty_row;
use lk_store::memory::NoMemory;
use lk_trace::ConversionRule;

/// The two that are asked for their `Same` next, if that is asked.
pub(crate) fn next_pair(next: LazyNext) -> Option<Pair<u64>>
    ensures { result ≡ pair_in next }
{
    match next {
        Next::Ask(query, _) => match query {
            Query::Same(left, right) => Some(Pair { left, right }),
            Query::Core(_) => None,
            Query::Whnf(_) => None,
            Query::Infer(_) => None,
        },
        Next::Done(_) => None,
        Next::No(_) => None,
    }
}

/// Says that two terms are the same that reduce to these.
fn add_reduced<L: Looks>(
    looks: &L,
    row: &mut Row,
    a: u64,
    b: u64,
    x: u64,
    y: u64,
) -> Result<(), NoMemory>
    requires a_in { a < length (L.contents looks.now).trees }
    requires b_in { b < length (L.contents looks.now).trees }
    requires x_in { x < length (L.contents looks.now).trees }
    requires y_in { y < length (L.contents looks.now).trees }
    ensures { let c = L.contents looks.now in let t = tree_at c in OnOk result ((w : Place)
        → ArePair w (t a) (t b) → States w c row.old row.new
        (reduces (t a) (t x) ∷ reduces (t b) (t y) ∷ equals (t x) (t y) ∷ [])
        (equals (t a) (t b))) }
{
    let premises = vec![in looks.alloc(); reduction(a, x), reduction(b, y), equality(x, y)]?;
    add_equality(looks, row, ConversionRule::Reduce, a, b, premises)?;
    Ok(())
}

/// The row of two terms that are these, or unfold to them.
fn reduced_row<L: Looks>(looks: &L, a: u64, b: u64, x: u64, y: u64) -> Result<Row, NoMemory>
    requires a_in { a < length (L.contents looks.now).trees }
    requires b_in { b < length (L.contents looks.now).trees }
    requires x_in { x < length (L.contents looks.now).trees }
    requires y_in { y < length (L.contents looks.now).trees }
    ensures { let c = L.contents looks.now in let t = tree_at c in IfOk result (λ r. (w : Place)
        (n : ℕ) → ArePair w (t a) (t b) → IsTurned w (t a) (t x) → IsTurned w (t b) (t y)
        → IsAnswered w (same (t x) (t y)) true n → IsPartIn w c r (equals (t a) (t b) ∷ []) n) }
{
    let alloc = looks.alloc();
    let mut row = empty_row(alloc);
    ask_same(looks, &mut row, x, y)?;
    add_unfolding(alloc, looks, &mut row, a, x)?;
    add_unfolding(alloc, looks, &mut row, b, y)?;
    add_reduced(looks, &mut row, a, b, x, y)?;
    Ok(row)
}

/// The row of two terms that turn into these two, which are asked for next.
pub(crate) fn turned_row<L: Looks>(
    looks: &L,
    a: u64,
    b: u64,
    pair: Option<Pair<u64>>,
) -> Result<Row, NoMemory>
    requires a_in { a < length (L.contents looks.now).trees }
    requires b_in { b < length (L.contents looks.now).trees }
    requires pair_in { IfSome pair (IsKnownPair (length (L.contents looks.now).trees)) }
    requires two { ArePair (L.sight (L.rest looks.now)).basis.place
        (tree_at (L.contents looks.now) a) (tree_at (L.contents looks.now) b) }
    requires turns { let t = tree_at (L.contents looks.now) in
        Turns (L.sight (L.rest looks.now)).basis.place (by_unfolding (t a) (t b)) (t a) (t b)
        (option_map (map_pair t) pair) }
    ensures { let t = tree_at (L.contents looks.now) in
        IfOk result (Bears (L.sight (L.rest looks.now)).basis.place (L.contents looks.now)
        (by_unfolding (t a) (t b)) (equals (t a) (t b))) }
{
    match pair {
        Some(found) => reduced_row(looks, a, b, found.left, found.right),
        None => unreachable!(),
    }
}
