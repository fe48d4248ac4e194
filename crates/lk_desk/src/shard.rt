//! What lies in a shard: true answers by their questions.

ghost use Rattle.std.specs.Prelude.{◌≡◌, ◌<◌, ◌≤◌, IfOk, OnErr, IfSome, IfNone, IsTrue, [], true, false};
ghost use Rattle.lk_store.specs.Contents.{Extends};
ghost use Rattle.lk_store.specs.Store.{contents_of};
ghost use Rattle.lk_store.specs.Layers.{layers_contents};
ghost use Rattle.lk_desk.specs.Truth.{entries_of};
ghost use Rattle.lk_desk.specs.Shards.{shard_number, Finds, Misses, IsMadeOf, AreSpelled, HasRoom, IsPut, IsFull};

use crate::entry::Entry;
use lk_ask::kept::Kept;
use lk_memo::key::{Key, kind_number};
use lk_memo::lasting::is_below;
use lk_store::memory::NoMemory;
use lk_store::overlay::Overlay;
use std::alloc::Global;
use std::collections::HashMap;

/// The most answers that a shard has.
const MOST: usize = 4096;

/// A shard has room for so many with its first one. As a table grows it gives back the memory that
/// it had. Where another worker had asked for that, a small piece would go to the wrong one: the
/// allocator keeps it for whoever gives it back, and what the two workers make of such pieces lies
/// side by side in memory, where each write of one makes the other wait. With so much room no piece
/// of a table is small.
const ROOM: usize = 256;

/// Answers, each under its question.
#[derive(Drop)]
pub struct Shard {
    pub(crate) answers: HashMap<Key, Entry>,
}

/// The shard of a question. It takes no memory.
pub fn shard_of(key: Key) -> u32
    ensures number { result ≡ shard_number key }
    ensures small { result < 64 }
{
    let number = (21 * kind_number(key.kind) + key.first % 64 + 4 * (key.second % 64)) % 64;
    number as u32
}

impl Shard {
    /// A shard with no answer. It takes no memory.
    pub fn new(alloc: Global) -> Shard
        ensures { entries_of result ≡ [] }
    {
        Shard {
            answers: HashMap::new(alloc),
        }
    }

    /// The answer to a question, where only units below this one were looked at for it.
    pub fn find(&self, key: Key, unit: u32) -> Option<&Entry>
        ensures some { IfSome result (λ x. Finds (entries_of self.now) key unit x.now) }
        ensures none { IfNone result (Misses (entries_of self.now) key unit) }
    {
        let entry = match self.answers.get(&key) {
            Some(entry) => entry,
            None => return None,
        };
        if is_below(entry.top, unit) {
            Some(entry)
        } else {
            None
        }
    }

    /// The same, made in an overlay of the library.
    pub fn made(
        &self,
        alloc: Global,
        terms: &mut Overlay,
        key: Key,
        unit: u32,
    ) -> Result<Option<Kept>, NoMemory>
        requires spelled { AreSpelled (contents_of terms.old.base) (entries_of self.now) }
        requires over { Extends (contents_of terms.old.base) (layers_contents terms.old) }
        ensures keeps { Extends (layers_contents terms.old) (layers_contents terms.new) }
        ensures base { terms.new.base ≡ terms.old.base }
        ensures some { IfOk result (λ o. IfSome o (IsMadeOf (entries_of self.now) key unit
            (contents_of terms.old.base) (layers_contents terms.new))) }
        ensures none { IfOk result (λ o. IfNone o (Misses (entries_of self.now) key unit)) }
    {
        match self.find(key, unit) {
            Some(entry) => Ok(Some(entry.made(alloc, terms)?)),
            None => Ok(None),
        }
    }

    /// Whether there is room for an answer of the question, or one stands there.
    fn has_room(&self, key: Key) -> bool
        ensures some { result ≡ true → HasRoom (entries_of self.now) key }
        ensures none { result ≡ false → IsFull (entries_of self.now) key }
    {
        self.answers.len() < MOST || self.answers.contains_key(&key)
    }

    /// Room for the first answers, where there is none yet.
    fn set_aside(&mut self) -> Result<(), NoMemory>
        ensures { entries_of self.new ≡ entries_of self.old }
    {
        if self.answers.is_empty() {
            self.answers.reserve(ROOM)?;
        }
        Ok(())
    }

    /// Puts an answer under its question, where there is room; whether there is. Where memory is
    /// wanting the shard is as before.
    pub fn put(&mut self, key: Key, entry: Entry) -> Result<bool, NoMemory>
        ensures stored { IfOk result (λ b. b ≡ true
            → IsPut (entries_of self.old) (entries_of self.new) key entry) }
        ensures full { IfOk result (λ b. b ≡ false → IsFull (entries_of self.old) key
            × (entries_of self.new ≡ entries_of self.old)) }
        ensures refused { OnErr result (entries_of self.new ≡ entries_of self.old) }
    {
        if !self.has_room(key) {
            return Ok(false);
        }
        self.set_aside()?;
        self.answers.insert(key, entry)?;
        Ok(true)
    }
}
