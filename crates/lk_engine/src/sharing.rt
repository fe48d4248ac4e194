//! What a unit asks, where workers share answers: it is looked for at the desk before it is worked
//! out, and left there after that.

ghost use Rattle.std.specs.Prelude.{◌≡◌, Some, None, length, IfOk, IfSome};
ghost use Rattle.lk_store.specs.Contents.{Extends};
ghost use Rattle.lk_store.specs.Store.{contents_of};
ghost use Rattle.lk_store.specs.Layers.{layers_contents};
ghost use Rattle.lk_ask.specs.Questions.{IsKnownQuery};
ghost use Rattle.lk_engine.specs.Entries.{IsTrueAt, StillHas};
ghost use Rattle.lk_engine.specs.Lookouts.{place_of, Stays, Fetches, IsWorkedOut, Repeats};
ghost use Rattle.lk_engine.specs.Lookouts.{Answers, AnswersKept, Shares, Stands};

use crate::alone::answer_alone;
use crate::answering::{Stack, known, repeat};
use crate::paying::{last, left, turns};
use crate::share::Share;
use lk_ask::kept::Kept;
use lk_ask::lookout::Lookout;
use lk_ask::query::{Answer, Query};
use lk_ask::stop::Stop;
use lk_memo::PrivateMemo;
use lk_store::overlay::Overlay;

/// What the desk has of a question.
fn look_up<'a>(
    lookout: &mut Lookout<'a, Overlay<'a>>,
    share: &mut Share<'_>,
    query: Query<u64>,
) -> Option<Kept>
    requires shares { Shares lookout.old share.old }
    requires base { lookout.old.terms.base ≡ lookout.old.scope.library.tables }
    requires over { Extends (contents_of lookout.old.terms.base)
        (layers_contents lookout.old.terms) }
    ensures stays { Stays layers_contents (λ l. l.base) lookout.old lookout.new }
    ensures meter { lookout.new.meter ≡ lookout.old.meter }
    ensures share { share.new ≡ share.old }
    ensures found { IfSome result (IsTrueAt (place_of lookout.old)
        (layers_contents lookout.new.terms) query) }
{
    let alloc = lookout.alloc;
    share.look(alloc, &mut lookout.terms, query)
}

/// The answer of a question, where the memo or the desk has it. What is found at the desk is kept.
#[inline(never)]
fn fetch_at<'a>(
    lookout: &mut Lookout<'a, Overlay<'a>>,
    memo: &mut PrivateMemo,
    share: &mut Share<'_>,
    query: Query<u64>,
) -> Option<Kept>
    requires query_in { IsKnownQuery (length (layers_contents lookout.old.terms).trees) query }
    requires stands { Stands lookout.old memo.old (Some share.old) }
    ensures fetches { Fetches lookout.old lookout.new memo.new }
    ensures share { share.new ≡ share.old }
    ensures found { IfSome result (IsTrueAt (place_of lookout.old)
        (layers_contents lookout.new.terms) query) }
    ensures lacks { result ≡ None → StillHas memo.old memo.new query }
{
    if !share.is_for(&lookout.terms, query) {
        return None;
    }
    if !share.may_have(query) {
        return None;
    }
    if let Some(kept) = known(lookout, memo, query) {
        return Some(kept);
    }
    let kept = look_up(lookout, share, query)?;
    let _kept = memo.keep(query, kept);
    Some(kept)
}

/// The same, if any answer was left.
#[inline(always)]
fn fetch<'a>(
    lookout: &mut Lookout<'a, Overlay<'a>>,
    memo: &mut PrivateMemo,
    share: &mut Share<'_>,
    query: Query<u64>,
) -> Option<Kept>
    requires query_in { IsKnownQuery (length (layers_contents lookout.old.terms).trees) query }
    requires stands { Stands lookout.old memo.old (Some share.old) }
    ensures fetches { Fetches lookout.old lookout.new memo.new }
    ensures share { share.new ≡ share.old }
    ensures found { IfSome result (IsTrueAt (place_of lookout.old)
        (layers_contents lookout.new.terms) query) }
    ensures lacks { result ≡ None → StillHas memo.old memo.new query }
{
    if !share.has_any() {
        return None;
    }
    fetch_at(lookout, memo, share, query)
}

/// An answer that costs fewer steps is not left. It is worked out anew as fast as it is looked for.
const LEAST: u128 = 256;

/// Leaves an answer at the desk, if its question is of the library's terms.
#[inline(never)]
fn offer_at<'a>(
    lookout: &Lookout<'a, Overlay<'a>>,
    share: &mut Share<'_>,
    query: Query<u64>,
    kept: Kept,
)
    requires base { lookout.now.terms.base ≡ lookout.now.scope.library.tables }
    requires over { Extends (contents_of lookout.now.terms.base)
        (layers_contents lookout.now.terms) }
    requires shares { Shares lookout.now share.old }
    requires is { IsTrueAt (place_of lookout.now) (layers_contents lookout.now.terms) query kept }
    ensures { share.new ≡ share.old }
{
    if !share.is_for(&lookout.terms, query) {
        return;
    }
    share.leave(lookout.alloc, &lookout.terms, query, kept);
}

/// What was left of the budget when a question was asked, and how many turns were taken.
#[derive(Clone, Copy)]
pub struct Since {
    budget: u128,
    turns: u64,
}

/// Leaves an answer at the desk, if it was worked out and cost so many steps. One that was known
/// took one turn.
fn offer<'a>(
    lookout: &Lookout<'a, Overlay<'a>>,
    share: &mut Share<'_>,
    query: Query<u64>,
    since: Since,
    outcome: &Result<Answer<u64>, Stop>,
)
    requires base { lookout.now.terms.base ≡ lookout.now.scope.library.tables }
    requires over { Extends (contents_of lookout.now.terms.base)
        (layers_contents lookout.now.terms) }
    requires shares { Shares lookout.now share.old }
    requires worked { IfOk outcome.now (IsWorkedOut lookout.now since.budget query) }
    ensures { share.new ≡ share.old }
{
    let Ok(answer) = outcome else {
        return;
    };
    let cost = since.budget - left(lookout);
    if cost < LEAST {
        return;
    }
    if turns(lookout) <= since.turns.saturating_add(1) {
        return;
    }
    let (answer, top) = (*answer, last(lookout));
    offer_at(lookout, share, query, Kept { answer, cost, top });
}

/// The plain answer of a question, which is left at the desk if it was worked out.
fn answer_and_offer<'a>(
    lookout: &mut Lookout<'a, Overlay<'a>>,
    memo: &mut PrivateMemo,
    stack: &mut Stack,
    share: &mut Share<'_>,
    query: Query<u64>,
) -> Result<Answer<u64>, Stop>
    requires query_in { IsKnownQuery (length (layers_contents lookout.old.terms).trees) query }
    requires stands { Stands lookout.old memo.old (Some share.old) }
    ensures answers { Answers layers_contents (λ l. l.base) lookout.old lookout.new
        memo.new result query }
    ensures kept { AnswersKept lookout.old lookout.new memo.old result query }
    ensures share { share.new ≡ share.old }
{
    let since = Since {
        budget: left(lookout),
        turns: turns(lookout),
    };
    let result = answer_alone(lookout, memo, stack, query);
    offer(lookout, share, query, since, &result);
    result
}

/// The plain answer of a question of which this was found. What was found takes one turn.
fn answer_after<'a>(
    lookout: &mut Lookout<'a, Overlay<'a>>,
    memo: &mut PrivateMemo,
    stack: &mut Stack,
    share: &mut Share<'_>,
    query: Query<u64>,
    found: Option<Kept>,
) -> Result<Answer<u64>, Stop>
    requires query_in { IsKnownQuery (length (layers_contents lookout.old.terms).trees) query }
    requires stands { Stands lookout.old memo.old (Some share.old) }
    requires found { IfSome found (IsTrueAt (place_of lookout.old)
        (layers_contents lookout.old.terms) query) }
    ensures answers { Answers layers_contents (λ l. l.base) lookout.old lookout.new
        memo.new result query }
    ensures found { IfSome found (Repeats lookout.old lookout.new result) }
    ensures kept { found ≡ None → AnswersKept lookout.old lookout.new memo.old result query }
    ensures share { share.new ≡ share.old }
{
    match found {
        Some(kept) => repeat(lookout, kept),
        None => answer_and_offer(lookout, memo, stack, share, query),
    }
}

/// The plain answer of a question where workers share answers: one that another worker left is
/// found, and one that is worked out here is left for them.
pub(crate) fn answer_shared<'a>(
    lookout: &mut Lookout<'a, Overlay<'a>>,
    memo: &mut PrivateMemo,
    stack: &mut Stack,
    share: &mut Share<'_>,
    query: Query<u64>,
) -> Result<Answer<u64>, Stop>
    requires query_in { IsKnownQuery (length (layers_contents lookout.old.terms).trees) query }
    requires stands { Stands lookout.old memo.old (Some share.old) }
    ensures answers { Answers layers_contents (λ l. l.base) lookout.old lookout.new
        memo.new result query }
    ensures kept { AnswersKept lookout.old lookout.new memo.old result query }
    ensures share { share.new ≡ share.old }
{
    let found = fetch(lookout, memo, share, query);
    answer_after(lookout, memo, stack, share, query, found)
}
