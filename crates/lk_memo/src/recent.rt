//! The last answers, each in the slot of its question.

ghost use Rattle.std.specs.Prelude.{◌≡◌, ◌⊎◌, ◌<◌, [], ℕ, length, None, Some, true, false, IfOk};
ghost use Rattle.lk_ask.specs.declared.kept.Kept.{Kept as Answered};
ghost use Rattle.lk_memo.specs.declared.key.Key.{Key as Asked};
ghost use Rattle.lk_memo.specs.Slots.{found_in, hash_of, slot_of, tag_of};

use crate::key::{Key, Kind, kind_number};
use lk_ask::kept::Kept;
use lk_ask::query::Answer;
use lk_store::hashing::mix;
use lk_store::memory::NoMemory;
use std::alloc::Global;
use std::marker::Model;

/// An answer in its slot.
#[derive(Clone, Copy)]
pub struct Slot {
    /// The era in which it was kept.
    pub era: u64,
    pub key: Key,
    pub kept: Kept,
}

/// The last answers. A question has one slot, and an answer that is kept takes the place of what
/// stood there. A new era begins when all are forgotten: what was kept before counts no more.
#[derive(Drop)]
pub struct Recent {
    slots: Vec<Slot>,
    /// The tag of the question that was kept last in each slot. A slot is long, so it is looked at
    /// only where its tag is that of the question.
    tags: Vec<u8>,
    era: u64,
}

impl Model for Recent {
    ghost use Rattle.std.specs.Prelude.{◌≤◌, All};
    ghost use Rattle.lk_memo.specs.LastAnswers.{LastAnswers};

    ghost Value = { LastAnswers };

    ghost use Rattle.lk_memo.specs.Slots.{AreTagged};

    ghost view = { λ r. record { slots = r.slots.items; era = r.era } };

    ghost invariant = { λ r. All (λ s. s.era ≤ r.era) r.slots.items
        × AreTagged r.slots.items r.tags.items r.era };
}

/// The hash of a question.
#[inline(always)]
#[tactic(auto, unfolding(crate::specs::Slots::hash_of))]
fn hash_of(key: Key) -> u64
    ensures { result ≡ hash_of key }
{
    mix(mix(kind_number(key.kind), key.first), key.second)
}

/// The slot of a question among so many, a power of two or none.
#[inline(always)]
#[tactic(auto, unfolding(crate::specs::Slots::slot_of))]
pub fn slot_of(key: Key, count: usize) -> usize
    ensures value { result ≡ slot_of key count }
    ensures within { 0 < count → result < count }
{
    (hash_of(key) & (count as u64).saturating_sub(1)) as usize
}

/// The tag of a question: other bits of its hash than those that tell its slot.
#[inline(always)]
#[tactic(auto, unfolding(crate::specs::Slots::tag_of))]
fn tag_of(key: Key) -> u8
    ensures { result ≡ tag_of key }
{
    (hash_of(key) >> 56) as u8
}

impl Recent {
    /// So many slots, a power of two or none, in which nothing stands.
    pub fn new(alloc: Global, count: usize) -> Result<Self, NoMemory>
        ensures { IfOk result (λ r. (k : Asked) → found_in r k ≡ None) }
    {
        let nothing = Slot {
            era: 0,
            key: Key {
                kind: Kind::Core,
                first: 0,
                second: 0,
            },
            kept: Kept {
                answer: Answer::Truth(false),
                cost: 0,
                top: None,
            },
        };
        let mut slots = Vec::new(alloc);
        slots.resize(count, nothing)?;
        let mut tags = Vec::new(alloc);
        tags.resize(count, 0)?;
        Ok(Recent {
            slots,
            tags,
            era: 1,
        })
    }

    /// Whether there are no slots.
    pub fn is_empty(&self) -> bool
        ensures { self.now.slots ≡ [] → result ≡ true }
    {
        let _era = self.era;
        self.slots.is_empty()
    }

    /// Forgets all that is kept, in one step.
    pub fn clear(&mut self)
        ensures { (k : Asked) → found_in self.new k ≡ None }
    {
        match self.era.checked_add(1) {
            Some(next) => self.era = next,
            // No run has so many eras.
            None => {
                self.slots.clear();
                self.tags.clear();
            }
        }
    }

    /// What is kept under a key.
    pub fn find(&self, key: Key) -> Option<Kept>
        ensures { result ≡ found_in self.now key }
    {
        let i = slot_of(key, self.slots.len());
        if *self.tags.get(i)? != tag_of(key) {
            return None;
        }
        let slot = self.slots.get(i)?;
        if slot.era == self.era && slot.key == key {
            Some(slot.kept)
        } else {
            None
        }
    }

    /// Keeps an answer under a key, where there are slots.
    pub fn keep(&mut self, key: Key, kept: Kept)
        ensures kept { 0 < length self.old.slots → found_in self.new key ≡ Some kept }
        ensures none { self.old.slots ≡ [] → self.new ≡ self.old }
        ensures others { (k : Asked) (v : Answered) → found_in self.new k ≡ Some v
            → (found_in self.old k ≡ Some v) ⊎ ((k ≡ key) × (v ≡ kept)) }
    {
        let era = self.era;
        let i = slot_of(key, self.slots.len());
        if i < self.slots.len() {
            self.slots[i] = Slot { era, key, kept };
            self.tags[i] = tag_of(key);
        }
    }
}
