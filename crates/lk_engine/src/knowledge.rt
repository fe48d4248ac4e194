//! What an engine knows and works with beside its terms.

ghost use Rattle.std.specs.Prelude.{◌≡◌, Option, None, Some, length, option_map};
ghost use Rattle.lk_store.specs.Layers.{layers_contents};
ghost use Rattle.lk_ask.specs.declared.kept.Kept.{Kept as Answered};
ghost use Rattle.lk_ask.specs.Questions.{IsKnownQuery};
ghost use Rattle.lk_memo.specs.declared.key.Key.{Key as Asked};
ghost use Rattle.lk_memo.specs.declared.memo.PrivateMemo.{PrivateMemo as Memo};
ghost use Rattle.lk_memo.specs.Lasting.{BeginsWith, GoesOn};
ghost use Rattle.lk_memo.specs.Entries.{Holds};
ghost use Rattle.lk_engine.specs.Lookouts.{Answers, BeginsUnit, Stands};
ghost use Rattle.lk_engine.specs.Shares.{shared_from};
ghost use Rattle.lk_engine.specs.Shared.{Shared};

use crate::alone::Sharing;
use crate::answering::Stack;
use lk_ask::lookout::Lookout;
use lk_ask::query::{Answer, Query};
use lk_ask::stop::Stop;
use lk_memo::PrivateMemo;
use lk_store::overlay::Overlay;
use std::alloc::Global;

/// Who answers what units ask, by what was answered before. An engine is over any of them, so that
/// of what they are made of nothing stands in the engine.
pub trait Knows {
    /// What is kept.
    ghost memo: { Self → Memo };

    /// The job of the desk where answers are shared, and the unit that looks there, if one does.
    /// None where no answers are shared.
    ghost shared: { Self → Option Shared };

    /// Forgets all that is kept. No unit looks from here on.
    fn begin(&mut self, terms: u64)
        ensures private { (k : Asked) (v : Answered) → Holds (memo self.new) k v → ⊥ }
        ensures lasting { BeginsWith (memo self.new).lasting terms None }
        ensures staying { BeginsWith (memo self.new).staying terms None }
        ensures share { shared self.new ≡ option_map (shared_from None) (shared self.old) };

    /// Keeps what outlasts a unit, for this one: over a library's own terms, and, where what
    /// earlier units made stays, over all the terms that stand, which are so many.
    fn start_unit(&mut self, unit: u32, terms: u64, stays: bool)
        ensures begins { BeginsUnit (memo self.old) (memo self.new) unit terms stays }
        ensures share { shared self.new ≡ option_map (shared_from (Some unit)) (shared self.old) };

    /// Forgets all that is kept but what outlasts a unit, for which none looks from here on.
    fn clear(&mut self)
        ensures private { (k : Asked) (v : Answered) → Holds (memo self.new) k v → ⊥ }
        ensures lasting { GoesOn (memo self.old).lasting (memo self.new).lasting
            (memo self.old).lasting.terms None }
        ensures staying { GoesOn (memo self.old).staying (memo self.new).staying
            (memo self.old).staying.terms None }
        ensures share { shared self.new ≡ option_map (shared_from None) (shared self.old) };

    /// The plain answer of a question that the unit asks.
    fn answer<'a>(
        &mut self,
        lookout: &mut Lookout<'a, Overlay<'a>>,
        query: Query<u64>,
    ) -> Result<Answer<u64>, Stop>
        requires query_in { IsKnownQuery (length (layers_contents lookout.old.terms).trees) query }
        requires stands { Stands lookout.old (memo self.old) (shared self.old) }
        ensures answers { Answers layers_contents (λ l. l.base) lookout.old
            lookout.new (memo self.new) result query }
        ensures share { shared self.new ≡ shared self.old };
}

/// The answers that an engine keeps for itself, room for the questions that wait, and how it shares
/// answers with other workers, if it does.
#[derive(Drop)]
pub struct Knowledge<S> {
    memo: PrivateMemo,
    stack: Stack,
    share: S,
}

/// Keeps what outlasts a unit, for this one: over a library's own terms, and, where what earlier
/// units made stays, over all the terms that stand, which are so many.
fn begin_unit(memo: &mut PrivateMemo, unit: u32, terms: u64, stays: bool)
    ensures { BeginsUnit memo.old memo.new unit terms stays }
{
    memo.start(unit);
    if stays {
        memo.stay(terms);
    } else {
        memo.forget_staying(terms);
    }
}

impl<S: Sharing> Knowledge<S> {
    pub fn new(alloc: Global, memo: PrivateMemo, share: S) -> Self
        ensures { result.share ≡ share }
    {
        let stack = Stack::new(alloc);
        Knowledge { memo, stack, share }
    }
}

impl<S: Sharing> Knows for Knowledge<S> {
    ghost memo = { λ s. s.memo };

    ghost shared = { λ s. S.shared s.share };

    fn begin(&mut self, terms: u64) {
        self.memo.begin(terms);
        self.share.look_from(None);
    }

    fn start_unit(&mut self, unit: u32, terms: u64, stays: bool) {
        begin_unit(&mut self.memo, unit, terms, stays);
        self.share.look_from(Some(unit));
    }

    fn clear(&mut self) {
        self.memo.clear();
        self.share.look_from(None);
    }

    fn answer<'a>(
        &mut self,
        lookout: &mut Lookout<'a, Overlay<'a>>,
        query: Query<u64>,
    ) -> Result<Answer<u64>, Stop> {
        self.share
            .answer(lookout, &mut self.memo, &mut self.stack, query)
    }
}
