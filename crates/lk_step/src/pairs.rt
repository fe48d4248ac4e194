//! Pairs of terms that are compared one after another.

ghost use Rattle.std.specs.Prelude.{◌≡◌, ◌<◌, ℕ, Bool, [], ◌∷◌, ◌++◌, length, All, IfOk, OnOk};
ghost use Rattle.lk_store.specs.Contents.{tree_at};
ghost use Rattle.lk_ask.specs.declared.query.Query.TheVariants as query;
ghost use Rattle.lk_ask.specs.Sheets.{IsKnownPair};
ghost use Rattle.lk_step.specs.Runs.{Runs};
ghost use Rattle.lk_step.specs.Told.{Leaves};
ghost use Rattle.lk_step.specs.Makes.{equality_claim};
ghost use Rattle.lk_step.specs.Pairs.{same_pairs, pairs_at, AreAsked};
ghost use Rattle.lk_step.specs.Tests.{IsRun};

use crate::Derives;
use crate::derives::are_same;
use crate::making::equality;
use lk_ask::looks::Looks;
use lk_ask::query::Query;
use lk_ask::sheet::Pair;
use lk_premises::Claim;
use lk_store::memory::NoMemory;

/// What is asked of pairs, and what is claimed then.
#[derive(Drop)]
pub struct Asked {
    pub asks: Vec<Query<u64>>,
    pub premises: Vec<Claim>,
}

/// Whether the two of each pair are the same, from the top down, up to the first that are not.
pub fn are_all_same<D: Derives>(
    derives: &mut D,
    pairs: &[Pair<u64>],
    enough: u128,
) -> Result<bool, NoMemory>
    requires pairs_in { All (IsKnownPair (length (D.contents derives.old).trees)) pairs.now }
    requires run { IsRun (D.sight (D.rest derives.old)).basis.place
        (same_pairs (pairs_at (D.contents derives.old) pairs.now)) enough }
    ensures leaves { Leaves D.contents D.rest D.sight derives.old derives.new }
    ensures told { IfOk result (λ y. (v : Bool) (n : ℕ)
        → Runs (D.sight (D.rest derives.old)).basis.place
        (same_pairs (pairs_at (D.contents derives.old) pairs.now)) v n → v ≡ y) }
{
    let mut rest = pairs;
    'pairs: while let Some((pair, more)) = rest.split_last() {
        if !are_same(derives, pair.left, pair.right, enough)? {
            return Ok(false);
        }
        rest = more;
    }
    Ok(true)
}

/// Adds what is asked of a pair, and what is claimed then.
fn push_pair(asked: &mut Asked, pair: Pair<u64>) -> Result<(), NoMemory>
    ensures asks { OnOk result (asked.new.asks.items
        ≡ asked.old.asks.items ++ query.Same pair.left pair.right ∷ []) }
    ensures premises { OnOk result (asked.new.premises.items
        ≡ asked.old.premises.items ++ equality_claim pair.left pair.right ∷ []) }
{
    asked.asks.push(Query::Same(pair.left, pair.right))?;
    asked.premises.push(equality(pair.left, pair.right))?;
    Ok(())
}

/// What is asked of pairs, from the top down, and what is claimed then.
pub fn asked_of<L: Looks>(looks: &L, pairs: &[Pair<u64>]) -> Result<Asked, NoMemory>
    requires pairs_in { All (IsKnownPair (length (L.contents looks.now).trees)) pairs.now }
    ensures { IfOk result (λ r. AreAsked (L.contents looks.now) pairs.now r.asks.items
        r.premises.items) }
{
    let alloc = looks.alloc();
    let mut asked = Asked {
        asks: Vec::new(alloc),
        premises: Vec::new(alloc),
    };
    let mut rest = pairs;
    'pairs: while let Some((pair, more)) = rest.split_last() {
        push_pair(&mut asked, *pair)?;
        rest = more;
    }
    Ok(asked)
}
