//! Two applications, by their heads and their arguments.

ghost use Rattle.std.specs.Prelude.{◌≡◌, ◌<◌, [], ◌∷◌, ◌++◌, length, All, IfOk, IfSome};
ghost use Rattle.lk_rulebook.specs.Claims.{equals};
ghost use Rattle.lk_questions.specs.Same.{by_parts};
ghost use Rattle.lk_store.specs.Contents.{tree_at};
ghost use Rattle.lk_ask.specs.Lines.{lefts, rights};
ghost use Rattle.lk_ask.specs.Sheets.{IsKnownPair};
ghost use Rattle.lk_written.specs.Line.{apps_rule};
ghost use Rattle.lk_step.specs.Equal.{argument_claims};
ghost use Rattle.lk_step.specs.Steps.{equality as equality_step};
ghost use Rattle.lk_step.specs.Meaning.{IsRowIn};
ghost use Rattle.lk_step.specs.Told.{Leaves};
ghost use Rattle.lk_step.specs.Makes.{IsMade};
ghost use Rattle.lk_step.specs.Pairs.{pairs_at, ArePairs, ArePairsIf};
ghost use Rattle.lk_step.specs.Pairs.{heads_pair, same_asks, IsApplication};
ghost use Rattle.lk_step.specs.Tests.{IsRun, AreReduced};
ghost use Rattle.lk_step.specs.Tells.{Tells};

use lk_ask::looks::Looks;
use lk_ask::sheet::Pair;
use lk_lazy::spines::{Paired, pair_up};
use lk_step::making::converted;
use lk_step::pairs::{Asked, are_all_same, asked_of};
use lk_step::{Derives, Row};
use lk_store::memory::NoMemory;
use lk_store::terms::Terms;
use lk_trace::ConversionRule;
use std::alloc::Global;

/// The pairs of arguments of two terms, with the pair of their heads on top.
fn with_heads(found: Paired) -> Result<Vec<Pair<u64>>, NoMemory>
    ensures { IfOk result (λ v. v.items
        ≡ found.pairs.items ++ heads_pair found.left found.right ∷ []) }
{
    let heads = Pair {
        left: found.left,
        right: found.right,
    };
    let mut pairs = found.pairs;
    pairs.push(heads)?;
    Ok(pairs)
}

/// A stack of the pairs of arguments of two terms that have as many, with the pair of their heads on top.
fn pairs_of<T: Terms>(
    alloc: Global,
    terms: &T,
    a: u64,
    b: u64,
) -> Result<Option<Vec<Pair<u64>>>, NoMemory>
    requires a_in { a < length (T.contents terms.now).trees }
    requires b_in { b < length (T.contents terms.now).trees }
    ensures { IfOk result (ArePairsIf (T.contents terms.now) a b) }
{
    let paired = pair_up(alloc, terms, a, b)?;
    match paired {
        Some(found) => {
            let pairs = with_heads(found)?;
            Ok(Some(pairs))
        }
        None => Ok(None),
    }
}

/// The row of two applications whose pairs are the same.
fn pairs_row<L: Looks>(looks: &L, a: u64, b: u64, pairs: &[Pair<u64>]) -> Result<Row, NoMemory>
    requires a_in { a < length (L.contents looks.now).trees }
    requires b_in { b < length (L.contents looks.now).trees }
    requires pairs_in { All (IsKnownPair (length (L.contents looks.now).trees)) pairs.now }
    ensures known { IfOk result (IsRowIn (L.contents looks.now)) }
    ensures row { let c = L.contents looks.now in let t = tree_at c in
        let ps = pairs_at c pairs.now in
        IfOk result (IsMade c (same_asks (lefts ps) (rights ps))
        (equality_step apps_rule (t a) (t b) (argument_claims (lefts ps) (rights ps)) ∷ [])) }
{
    let asked = asked_of(looks, pairs)?;
    let Asked { asks, premises } = asked;
    converted(looks, ConversionRule::Apply, a, b, asks, premises)
}

/// Two applications in pairs. There is no row where two of a pair differ.
fn by_pairs<D: Derives>(
    derives: &mut D,
    a: u64,
    b: u64,
    pairs: &[Pair<u64>],
    enough: u128,
) -> Result<Option<Row>, NoMemory>
    requires a_in { a < length (D.contents derives.old).trees }
    requires b_in { b < length (D.contents derives.old).trees }
    requires applied { IsApplication (tree_at (D.contents derives.old) a) }
    requires pairs_are { ArePairs (D.contents derives.old) a b pairs.now }
    requires pair { AreReduced (D.sight (D.rest derives.old)).basis.place
        (tree_at (D.contents derives.old) a) (tree_at (D.contents derives.old) b) }
    requires run { IsRun (D.sight (D.rest derives.old)).basis.place (by_parts
        (tree_at (D.contents derives.old) a) (tree_at (D.contents derives.old) b)) enough }
    ensures leaves { Leaves D.contents D.rest D.sight derives.old derives.new }
    ensures known { IfOk result (λ r. IfSome r (IsRowIn (D.contents derives.new))) }
    ensures tells { let t = tree_at (D.contents derives.old) in
        IfOk result (Tells (D.sight (D.rest derives.old)).basis.place (D.contents derives.new)
        (by_parts (t a) (t b)) (equals (t a) (t b))) }
{
    if !are_all_same(derives, pairs, enough)? {
        return Ok(None);
    }
    let row = pairs_row(derives, a, b, pairs)?;
    Ok(Some(row))
}

/// Two applications, by their heads and their arguments, where they have as many.
pub(crate) fn by_spines<D: Derives>(
    derives: &mut D,
    a: u64,
    b: u64,
    enough: u128,
) -> Result<Option<Row>, NoMemory>
    requires a_in { a < length (D.contents derives.old).trees }
    requires b_in { b < length (D.contents derives.old).trees }
    requires applied { IsApplication (tree_at (D.contents derives.old) a) }
    requires pair { AreReduced (D.sight (D.rest derives.old)).basis.place
        (tree_at (D.contents derives.old) a) (tree_at (D.contents derives.old) b) }
    requires run { IsRun (D.sight (D.rest derives.old)).basis.place (by_parts
        (tree_at (D.contents derives.old) a) (tree_at (D.contents derives.old) b)) enough }
    ensures leaves { Leaves D.contents D.rest D.sight derives.old derives.new }
    ensures known { IfOk result (λ r. IfSome r (IsRowIn (D.contents derives.new))) }
    ensures tells { let t = tree_at (D.contents derives.old) in
        IfOk result (Tells (D.sight (D.rest derives.old)).basis.place (D.contents derives.new)
        (by_parts (t a) (t b)) (equals (t a) (t b))) }
{
    let found = pairs_of(derives.alloc(), derives, a, b)?;
    match found {
        Some(pairs) => by_pairs(derives, a, b, &pairs, enough),
        None => Ok(None),
    }
}
