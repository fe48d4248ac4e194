//! Answers that outlast a unit, each in the slot of its question.

ghost use Rattle.std.specs.Prelude.{◌≡◌, Some, None, true, false, IfOk};
ghost use Rattle.lk_questions.specs.Laws.{IsBelow};
ghost use Rattle.lk_ask.specs.Questions.{IsKnownQuery, IsKnownAnswer};
ghost use Rattle.lk_ask.specs.declared.kept.Kept.{Kept as Answered};
ghost use Rattle.lk_memo.specs.declared.key.Key.{Key as Asked};
ghost use Rattle.lk_memo.specs.Keys.{key_of};
ghost use Rattle.lk_memo.specs.Lasting.{is_query_below, is_below, lasting_of};
ghost use Rattle.lk_memo.specs.Lasting.{BeginsWith, GoesOn, Lasts, Outlasts, TakesIn};

use crate::key::Key;
use crate::recent::Recent;
use lk_ask::kept::Kept;
use lk_ask::query::{Answer, Query};
use lk_store::memory::NoMemory;
use std::alloc::Global;

/// The least cost of an answer that is kept here. A cheaper one is found as fast anew.
const LEAST: u128 = 4;

/// Answers over terms that stay, a library's own or those made since. Such an answer is true at each
/// unit behind all that were looked at for it, so it stays while other units are at work.
#[derive(Drop)]
pub struct Lasting {
    slots: Recent,
    /// So many terms stay: the first ones.
    terms: u64,
    /// The unit that looks, if one does.
    unit: Option<u32>,
}

/// Whether the terms of a question are among the first ones.
pub fn is_query_below(query: Query<u64>, terms: u64) -> bool
    ensures value { result ≡ is_query_below terms query }
    ensures known { result ≡ true → IsKnownQuery terms query }
{
    match query {
        Query::Core(e) => e < terms,
        Query::Whnf(e) => e < terms,
        Query::Infer(e) => e < terms,
        Query::Same(a, b) => a < terms && b < terms,
    }
}

/// Whether the term of an answer is among the first ones.
fn is_answer_below(answer: Answer<u64>, terms: u64) -> bool
    ensures { result ≡ true → IsKnownAnswer terms answer }
{
    match answer {
        Answer::Term(e) => e < terms,
        Answer::Truth(_) => true,
    }
}

/// Whether all units that were looked at stand before this one.
pub fn is_below(top: Option<u32>, unit: u32) -> bool
    ensures value { result ≡ is_below top unit }
    ensures below { result ≡ true → IsBelow top unit }
    ensures above { result ≡ false → IsBelow top unit → ⊥ }
{
    match top {
        None => true,
        Some(last) => last < unit,
    }
}

impl Lasting {
    /// So many slots, a power of two or none, in which nothing stands. No unit looks.
    pub(crate) fn new(alloc: Global, count: usize) -> Result<Self, NoMemory>
        ensures { IfOk result (λ l. (k : Asked) (v : Answered) → Outlasts l k v → ⊥) }
    {
        let slots = Recent::new(alloc, count)?;
        Ok(Lasting {
            slots,
            terms: 0,
            unit: None,
        })
    }

    /// Forgets all that is kept. From here on it is kept over so many first terms, and no unit
    /// looks.
    pub(crate) fn begin(&mut self, terms: u64)
        ensures { BeginsWith self.new terms None }
    {
        self.slots.clear();
        self.terms = terms;
        self.unit = None;
    }

    /// From here on it is kept over so many first terms, and what is kept stays.
    pub(crate) fn go_on(&mut self, terms: u64)
        ensures { GoesOn self.old self.new terms self.old.unit }
    {
        self.terms = terms;
    }

    /// From here on this unit looks, or none does.
    pub(crate) fn look_from(&mut self, unit: Option<u32>)
        ensures { GoesOn self.old self.new self.old.terms unit }
    {
        self.unit = unit;
    }

    /// Forgets all that is kept.
    pub(crate) fn forget(&mut self)
        ensures each { (k : Asked) (v : Answered) → Outlasts self.new k v → ⊥ }
        ensures terms { self.new.terms ≡ self.old.terms }
        ensures unit { self.new.unit ≡ self.old.unit }
    {
        self.slots.clear();
    }

    /// What is kept of a question and holds for the unit that looks.
    pub(crate) fn find(&self, query: Query<u64>, key: Key) -> Option<Kept>
        requires { key ≡ key_of query }
        ensures { result ≡ lasting_of self.now query }
    {
        if !is_query_below(query, self.terms) {
            return None;
        }
        let unit = self.unit?;
        let kept = self.slots.find(key)?;
        if is_below(kept.top, unit) {
            Some(kept)
        } else {
            None
        }
    }

    /// Whether an answer is one that lasts.
    fn lasts(&self, query: Query<u64>, kept: Kept) -> bool
        ensures { result ≡ true → Lasts self.now query kept }
    {
        match self.unit {
            None => false,
            Some(unit) => {
                kept.cost >= LEAST
                    && is_query_below(query, self.terms)
                    && is_answer_below(kept.answer, self.terms)
                    && is_below(kept.top, unit)
            }
        }
    }

    /// Keeps an answer, if it is one that lasts and there are slots.
    pub(crate) fn keep(&mut self, query: Query<u64>, key: Key, kept: Kept) -> bool
        requires { key ≡ key_of query }
        ensures takes { TakesIn self.old self.new query kept }
        ensures kept { result ≡ true → lasting_of self.new query ≡ Some kept }
        ensures refused { result ≡ false → self.new ≡ self.old }
    {
        if self.slots.is_empty() || !self.lasts(query, kept) {
            return false;
        }
        self.slots.keep(key, kept);
        true
    }
}
