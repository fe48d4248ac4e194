//! Answers that a desk keeps, spelled over the library's store.

ghost use Rattle.std.specs.Prelude.{◌≡◌, length, IfOk};
ghost use Rattle.lk_store.specs.Contents.{Extends, tree_at};
ghost use Rattle.lk_store.specs.Store.{contents_of};
ghost use Rattle.lk_store.specs.Layers.{layers_contents};
ghost use Rattle.lk_ask.specs.Questions.{IsKnownAnswer, value_at};
ghost use Rattle.lk_desk.specs.Entries.{IsSpelledAnswer, IsMade, spelled_value};

use lk_ask::kept::Kept;
use lk_ask::query::Answer;
use lk_spell::{SpellError, Spelled, spell, unspell};
use lk_store::memory::NoMemory;
use lk_store::overlay::Overlay;
use std::alloc::Global;

/// An answer: a term, spelled, or a truth.
#[derive(Drop)]
pub enum SpelledAnswer {
    Term(Spelled),
    Truth(bool),
}

/// The answer of a question, what it cost, and the last unit that was looked at for it.
#[derive(Drop)]
pub struct Entry {
    pub answer: SpelledAnswer,
    pub cost: u128,
    pub top: Option<u32>,
}

/// The answer, spelled.
fn spelled_answer(
    alloc: Global,
    terms: &Overlay,
    answer: Answer<u64>,
) -> Result<SpelledAnswer, SpellError>
    requires known { IsKnownAnswer (length (layers_contents terms.now).trees)
        answer }
    requires over { Extends (contents_of terms.now.base) (layers_contents terms.now) }
    ensures spelled { IfOk result (IsSpelledAnswer (contents_of terms.now.base)) }
    ensures value { IfOk result (λ s. spelled_value (contents_of terms.now.base) s
        ≡ value_at (tree_at (layers_contents terms.now)) answer) }
{
    match answer {
        Answer::Term(e) => Ok(SpelledAnswer::Term(spell(alloc, terms, e)?)),
        Answer::Truth(b) => Ok(SpelledAnswer::Truth(b)),
    }
}

/// The answer, made in an overlay.
fn made_answer(
    alloc: Global,
    terms: &mut Overlay,
    answer: &SpelledAnswer,
) -> Result<Answer<u64>, NoMemory>
    requires spelled { IsSpelledAnswer (contents_of terms.old.base) answer.now }
    requires over { Extends (contents_of terms.old.base) (layers_contents terms.old) }
    ensures keeps { Extends (layers_contents terms.old) (layers_contents terms.new) }
    ensures base { terms.new.base ≡ terms.old.base }
    ensures known { IfOk result (IsKnownAnswer (length (layers_contents terms.new).trees)) }
    ensures value { IfOk result (λ a.
        value_at (tree_at (layers_contents terms.new)) a
        ≡ spelled_value (contents_of terms.old.base) answer.now) }
{
    match answer {
        SpelledAnswer::Term(s) => Ok(Answer::Term(unspell(alloc, terms, s)?)),
        SpelledAnswer::Truth(b) => Ok(Answer::Truth(*b)),
    }
}

impl Entry {
    /// What is kept of an answer, spelled.
    pub fn spelled(alloc: Global, terms: &Overlay, kept: Kept) -> Result<Entry, SpellError>
        requires known { IsKnownAnswer (length (layers_contents terms.now).trees) kept.answer }
        requires over { Extends (contents_of terms.now.base) (layers_contents terms.now) }
        ensures spelled { IfOk result (λ x. IsSpelledAnswer (contents_of terms.now.base) x.answer) }
        ensures made { IfOk result (λ x. IsMade (contents_of terms.now.base)
            (layers_contents terms.now) x kept) }
    {
        let answer = spelled_answer(alloc, terms, kept.answer)?;
        Ok(Entry {
            answer,
            cost: kept.cost,
            top: kept.top,
        })
    }

    /// The answer, made in an overlay of the library.
    pub fn made(&self, alloc: Global, terms: &mut Overlay) -> Result<Kept, NoMemory>
        requires spelled { IsSpelledAnswer (contents_of terms.old.base) self.now.answer }
        requires over { Extends (contents_of terms.old.base) (layers_contents terms.old) }
        ensures keeps { Extends (layers_contents terms.old) (layers_contents terms.new) }
        ensures base { terms.new.base ≡ terms.old.base }
        ensures made { IfOk result (IsMade (contents_of terms.old.base)
            (layers_contents terms.new) self.now) }
    {
        let answer = made_answer(alloc, terms, &self.answer)?;
        Ok(Kept {
            answer,
            cost: self.cost,
            top: self.top,
        })
    }
}
