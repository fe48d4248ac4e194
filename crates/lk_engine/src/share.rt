//! A desk where workers share answers, as one of them looks there and leaves there.

ghost use Rattle.std.specs.Prelude.{◌≡◌, Some, None, true, length, IfSome};
ghost use Rattle.lk_store.specs.Contents.{Extends};
ghost use Rattle.lk_store.specs.Store.{contents_of};
ghost use Rattle.lk_store.specs.Layers.{layers_contents};
ghost use Rattle.lk_ask.specs.Questions.{IsKnownQuery};
ghost use Rattle.lk_desk.specs.Seats.{job, Sits};
ghost use Rattle.lk_desk.specs.Truth.{IsTablesOf};
ghost use Rattle.lk_engine.specs.Shares.{IsFor, IsShared, LastsAt};

use crate::alone::Sharing;
use crate::answer_desk::{AnswerDesk, fitting_nodes};
use crate::answering::Stack;
use crate::sharing::answer_shared;
use lk_ask::kept::Kept;
use lk_ask::lookout::Lookout;
use lk_ask::query::{Answer, Query};
use lk_ask::stop::Stop;
use lk_desk::{Entry, Left, Seat};
use lk_memo::PrivateMemo;
use lk_memo::key::key_of;
use lk_memo::lasting::is_query_below;
use lk_store::memory::NoMemory;
use lk_store::overlay::Overlay;
use std::alloc::Global;
use std::marker::Model;

/// A seat where workers share answers, and the unit that looks and leaves there, if one does. Of
/// the seat nothing has to be told later: it draws no numbers.
#[derive(Drop)]
pub struct Share<'a> {
    answers: &'a AnswerDesk,
    seat: Seat,
    unit: Option<u32>,
}

impl<'a> Model for Share<'a> {
    ghost use Rattle.lk_engine.specs.Shared.{Shared};
    ghost use Rattle.lk_desk.specs.Seats.{job, Sits};

    ghost Value = { Shared };

    ghost view = { λ s. record { job = job s.answers.now.desk; unit = s.unit } };

    ghost invariant = { λ s. Sits s.seat s.answers.now.desk };
}

/// Whether an answer was left.
fn is_left(left: Result<Left, NoMemory>) -> bool {
    match left {
        Ok(left) => matches!(left, Left::Stored),
        Err(_) => false,
    }
}

impl<'a> Share<'a> {
    /// A seat there. No unit looks.
    pub fn new(answers: &'a AnswerDesk, seat: Seat) -> Self
        requires { Sits seat answers.now.desk }
        ensures { result ≡ record { job = job answers.now.desk; unit = None } }
    {
        Share {
            answers,
            seat,
            unit: None,
        }
    }

    /// One more seat there, if it is to be had. No unit looks from it.
    pub fn split(&mut self) -> Option<Share<'a>>
        ensures share { self.new ≡ self.old }
        ensures job { IfSome result (λ s. s.job ≡ self.old.job) }
    {
        let seat = self.answers.desk.split(&mut self.seat)?;
        Some(Share::new(self.answers, seat))
    }

    /// Whether the answer of a question is shared: a unit looks, and its terms are the library's.
    pub fn is_for(&self, terms: &Overlay<'_>, query: Query<u64>) -> bool
        ensures { result ≡ true → IsFor self.now (length (contents_of terms.now.base).trees) query }
    {
        match self.unit {
            None => false,
            Some(_) => is_query_below(query, terms.base_sizes().terms),
        }
    }

    /// Whether the desk may have any answer.
    #[inline(always)]
    pub fn has_any(&self) -> bool {
        self.answers.has_any()
    }

    /// Whether the desk may have an answer of a question.
    pub fn may_have(&self, query: Query<u64>) -> bool {
        self.answers.may_have(key_of(query))
    }

    /// What the desk has of a question, made in an overlay of the library. Where memory is wanting
    /// nothing is found.
    pub fn look(
        &mut self,
        alloc: Global,
        terms: &mut Overlay<'_>,
        query: Query<u64>,
    ) -> Option<Kept>
        requires tables { IsTablesOf self.old.job terms.old.base }
        requires over { Extends (contents_of terms.old.base) (layers_contents terms.old) }
        ensures share { self.new ≡ self.old }
        ensures keeps { Extends (layers_contents terms.old) (layers_contents terms.new) }
        ensures base { terms.new.base ≡ terms.old.base }
        ensures found { IfSome result (IsShared self.old (layers_contents terms.new) query) }
    {
        let unit = self.unit?;
        match self
            .answers
            .desk
            .look(alloc, terms, &mut self.seat, unit, key_of(query))
        {
            Ok(found) => found,
            Err(_) => None,
        }
    }

    /// Leaves an answer at the desk. Where it is too wide, its shard is out, or no room or memory
    /// is there, it is not left.
    pub fn leave(&mut self, alloc: Global, terms: &Overlay<'_>, query: Query<u64>, kept: Kept)
        requires tables { IsTablesOf self.old.job terms.now.base }
        requires over { Extends (contents_of terms.now.base) (layers_contents terms.now) }
        requires query_in { IsKnownQuery (length (contents_of terms.now.base).trees) query }
        requires lasts { LastsAt self.old.job (layers_contents terms.now) query
            kept }
        ensures share { self.new ≡ self.old }
    {
        if !self.answers.has_room() {
            return;
        }
        let Ok(entry) = Entry::spelled(alloc, terms, kept) else {
            return;
        };
        let Some(nodes) = fitting_nodes(&entry) else {
            return;
        };
        let key = key_of(query);
        let left = self.answers.desk.leave(&mut self.seat, key, entry);
        if is_left(left) {
            self.answers.note(key, nodes);
        }
    }
}

impl Sharing for Share<'_> {
    ghost shared = { λ s. Some s };

    fn look_from(&mut self, unit: Option<u32>) {
        self.unit = unit;
    }

    fn answer<'a>(
        &mut self,
        lookout: &mut Lookout<'a, Overlay<'a>>,
        memo: &mut PrivateMemo,
        stack: &mut Stack,
        query: Query<u64>,
    ) -> Result<Answer<u64>, Stop> {
        answer_shared(lookout, memo, stack, self, query)
    }
}
