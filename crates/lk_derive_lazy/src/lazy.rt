//! Two terms by unfolding (lazy delta reduction).

ghost use Rattle.std.specs.Prelude.{◌≡◌, ◌<◌, length, IfOk, IfSome, option_map};
ghost use Rattle.lk_rulebook.specs.Claims.{equals};
ghost use Rattle.lk_questions.specs.Unfolding.{by_unfolding};
ghost use Rattle.lk_store.specs.Contents.{tree_at};
ghost use Rattle.lk_ask.specs.Sheets.{map_pair, IsKnownPair};
ghost use Rattle.lk_step.specs.Meaning.{IsRowIn};
ghost use Rattle.lk_step.specs.Told.{Leaves};
ghost use Rattle.lk_step.specs.Tells.{Tells};
ghost use Rattle.lk_step.specs.Tests.{IsRun, NeverNo, ArePair, AreReduced};
ghost use Rattle.lk_derive_lazy.specs.Turns.{SaysYes, Bears, IsFirst};

use crate::alike::alike;
use crate::arguments::by_arguments;
use crate::reduced::{next_pair, turned_row};
use lk_ask::looks::Looks;
use lk_ask::sheet::Pair;
use lk_lazy::begin;
use lk_premises::same_tree;
use lk_step::under_way::empty_row;
use lk_step::{Derives, Row};
use lk_store::memory::NoMemory;

/// The row of two terms that unfolding says yes of, by what it asks for first.
fn unfolded_row<D: Derives>(
    derives: &mut D,
    a: u64,
    b: u64,
    pair: Option<Pair<u64>>,
    enough: u128,
) -> Result<Row, NoMemory>
    requires a_in { a < length (D.contents derives.old).trees }
    requires b_in { b < length (D.contents derives.old).trees }
    requires pair_in { IfSome pair (IsKnownPair (length (D.contents derives.old).trees)) }
    requires first { let t = tree_at (D.contents derives.old) in
        IsFirst (D.sight (D.rest derives.old)).basis.place (t a) (t b)
        (option_map (map_pair t) pair) }
    requires two { ArePair (D.sight (D.rest derives.old)).basis.place
        (tree_at (D.contents derives.old) a) (tree_at (D.contents derives.old) b) }
    requires yes { SaysYes (D.sight (D.rest derives.old)).basis.place (by_unfolding
        (tree_at (D.contents derives.old) a) (tree_at (D.contents derives.old) b)) enough }
    ensures leaves { Leaves D.contents D.rest D.sight derives.old derives.new }
    ensures bears { let t = tree_at (D.contents derives.old) in
        IfOk result (Bears (D.sight (D.rest derives.old)).basis.place (D.contents derives.new)
        (by_unfolding (t a) (t b)) (equals (t a) (t b))) }
{
    let likeness = alike(derives.alloc(), derives, a, b)?;
    match likeness {
        Some(found) => by_arguments(derives, a, b, &found, enough),
        None => turned_row(derives, a, b, pair),
    }
}

/// The row of two terms by unfolding, which does not say no of them. There is none where neither unfolds.
pub fn by_unfolding<D: Derives>(
    derives: &mut D,
    a: u64,
    b: u64,
    enough: u128,
) -> Result<Option<Row>, NoMemory>
    requires a_in { a < length (D.contents derives.old).trees }
    requires b_in { b < length (D.contents derives.old).trees }
    requires pair { AreReduced (D.sight (D.rest derives.old)).basis.place
        (tree_at (D.contents derives.old) a) (tree_at (D.contents derives.old) b) }
    requires run { IsRun (D.sight (D.rest derives.old)).basis.place (by_unfolding
        (tree_at (D.contents derives.old) a) (tree_at (D.contents derives.old) b)) enough }
    requires never_no { NeverNo (D.sight (D.rest derives.old)).basis.place (by_unfolding
        (tree_at (D.contents derives.old) a) (tree_at (D.contents derives.old) b)) }
    ensures leaves { Leaves D.contents D.rest D.sight derives.old derives.new }
    ensures known { IfOk result (λ r. IfSome r (IsRowIn (D.contents derives.new))) }
    ensures tells { let t = tree_at (D.contents derives.old) in
        IfOk result (Tells (D.sight (D.rest derives.old)).basis.place (D.contents derives.new)
        (by_unfolding (t a) (t b)) (equals (t a) (t b))) }
{
    if same_tree(derives, a, b) {
        return Ok(Some(empty_row(derives.alloc())));
    }
    let begun = begin(derives, a, b)?;
    match begun {
        Some(next) => {
            let row = unfolded_row(derives, a, b, next_pair(next), enough)?;
            Ok(Some(row))
        }
        None => Ok(None),
    }
}
