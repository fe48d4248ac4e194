//! Who answers what a unit asks: a worker that is alone, or one that shares answers with others.

ghost use Rattle.std.specs.Prelude.{◌≡◌, Option, None, length, option_map};
ghost use Rattle.lk_store.specs.Layers.{layers_contents};
ghost use Rattle.lk_ask.specs.Questions.{IsKnownQuery};
ghost use Rattle.lk_engine.specs.Lookouts.{AreTrueAt, Answers, AnswersKept, Stands};
ghost use Rattle.lk_engine.specs.Shares.{shared_from};
ghost use Rattle.lk_engine.specs.Shared.{Shared};

use crate::answering::{Stack, answer};
use lk_ask::lookout::Lookout;
use lk_ask::query::{Answer, Query};
use lk_ask::stop::Stop;
use lk_memo::PrivateMemo;
use lk_store::overlay::Overlay;

/// How a worker answers what its unit asks. An engine is over any of them, so that of what one has
/// nothing stands in the engine.
pub trait Sharing {
    /// The job of the desk where answers are shared, and the unit that looks there, if one does.
    /// None where no answers are shared.
    ghost shared: { Self → Option Shared };

    /// From here on this unit looks where answers are shared, or none does.
    fn look_from(&mut self, unit: Option<u32>)
        ensures { shared self.new ≡ option_map (shared_from unit) (shared self.old) };

    /// The plain answer of a question that the unit asks, whatever others have left.
    fn answer<'a>(
        &mut self,
        lookout: &mut Lookout<'a, Overlay<'a>>,
        memo: &mut PrivateMemo,
        stack: &mut Stack,
        query: Query<u64>,
    ) -> Result<Answer<u64>, Stop>
        requires query_in { IsKnownQuery (length (layers_contents lookout.old.terms).trees) query }
        requires stands { Stands lookout.old memo.old (shared self.old) }
        ensures answers { Answers layers_contents (λ l. l.base) lookout.old
            lookout.new memo.new result query }
        ensures share { shared self.new ≡ shared self.old };
}

/// The plain answer of a question, whether answers are shared or not. It is compiled once for both.
#[inline(never)]
pub(crate) fn answer_alone<'a>(
    lookout: &mut Lookout<'a, Overlay<'a>>,
    memo: &mut PrivateMemo,
    stack: &mut Stack,
    query: Query<u64>,
) -> Result<Answer<u64>, Stop>
    requires query_in { IsKnownQuery (length (layers_contents lookout.old.terms).trees) query }
    requires entries { AreTrueAt lookout.old (layers_contents lookout.old.terms)
        memo.old }
    ensures answers { Answers layers_contents (λ l. l.base) lookout.old lookout.new
        memo.new result query }
    ensures kept { AnswersKept lookout.old lookout.new memo.old result query }
{
    answer(lookout, memo, stack, query)
}

/// A worker that is alone: nothing is looked for, and nothing is left.
#[derive(Drop)]
pub struct Alone;

impl Sharing for Alone {
    ghost shared = { λ s. None };

    fn look_from(&mut self, _unit: Option<u32>) {}

    fn answer<'a>(
        &mut self,
        lookout: &mut Lookout<'a, Overlay<'a>>,
        memo: &mut PrivateMemo,
        stack: &mut Stack,
        query: Query<u64>,
    ) -> Result<Answer<u64>, Stop> {
        answer_alone(lookout, memo, stack, query)
    }
}
