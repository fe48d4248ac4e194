//! Shards that are taken and given back, over a table or over memory.

ghost use Rattle.std.specs.Prelude.{◌≡◌, ◌≢◌, ◌+◌, ◌<◌, ◌≤◌, ◌⊎◌, ℕ, IfOk, OnErr, IfSome, IfNone, Some, None, Bool, true, Option};
ghost use Rattle.atomic_table.specs.Seated.{TableId};
ghost use Rattle.lk_questions.specs.Laws.{IsBelow};
ghost use Rattle.lk_desk.specs.declared.view.View.{View};
ghost use Rattle.lk_store.specs.Contents.{Extends};
ghost use Rattle.lk_store.specs.Store.{contents_of};
ghost use Rattle.lk_store.specs.Layers.{layers_contents};
ghost use Rattle.lk_desk.specs.Job.{Job};
ghost use Rattle.lk_desk.specs.Truth.{AreTrue, IsTrueOf, IsFoundOf, IsTablesOf, entries_of};
ghost use Rattle.lk_desk.specs.Shards.{shard_number, Misses};
ghost use Rattle.lk_desk.specs.Shelves.{Told, Numbered, AsBefore, AsTaken, AsGiven, LeftAs, IfOut, TakenMisses, TakenKept, LeftSo};

use crate::entry::Entry;
use crate::shard::{Shard, shard_of};
use lk_ask::kept::Kept;
use lk_memo::key::Key;
use lk_store::memory::NoMemory;
use lk_store::overlay::Overlay;
use std::alloc::Global;

/// How an answer was left: its shard has it, its shard was out, or its shard has no room.
#[derive(Clone, Copy)]
pub enum Left {
    Stored,
    Out,
    Full,
}

/// Shards of true answers, of which one can be taken in hand.
pub trait Shelf {
    /// What the answers are true of.
    ghost job: { Self → Job };

    /// Which object it is: the name of the reference that it holds, the table, and the seat's view
    /// but for its outs and what it remembers.
    ghost place: { Self → ℕ };

    ghost table: { Self → TableId };

    ghost rest: { Self → View };

    /// How often a shard was out.
    ghost outs: { Self → ℕ };

    /// The number of the shard in hand.
    ghost in_hand: { Self → Option ℕ };

    /// Whether it tells the answers of its shards at home, and these.
    ghost tells: { Self → Bool };

    ghost told: { Self → Told };

    /// Whether it remembers how often a shard was taken, which one was taken last, as it was, and
    /// which one was given back last.
    ghost remembers: { Self → Bool };

    ghost takes: { Self → ℕ };

    ghost taken: { Self → Numbered };

    ghost returned: { Self → Numbered };

    fn take(&mut self, shard: u32) -> Option<Shard>
        requires shard { shard < 64 }
        requires empty { in_hand self.old ≡ None }
        ensures job { job self.new ≡ job self.old }
        ensures place { place self.new ≡ place self.old }
        ensures table { table self.new ≡ table self.old }
        ensures rest { rest self.new ≡ rest self.old }
        ensures tells { tells self.new ≡ tells self.old }
        ensures remembers { remembers self.new ≡ remembers self.old }
        ensures some { IfSome result (λ x. AreTrue (job self.old) (entries_of x)
            × (in_hand self.new ≡ Some shard) × (outs self.new ≡ outs self.old)) }
        ensures none { IfNone result ((outs self.new ≡ outs self.old + 1)
            × (in_hand self.new ≡ None)) }
        ensures missed { remembers self.old ≡ true → IfNone result (
            (takes self.new ≡ takes self.old) × (taken self.new ≡ taken self.old)
            × (returned self.new ≡ returned self.old)) }
        ensures taken { remembers self.old ≡ true → IfSome result (λ x.
            (takes self.new ≡ takes self.old + 1) × (taken self.new ≡ Some (shard, x))) }
        ensures told { tells self.old ≡ true
            → AsTaken result shard (told self.old) (told self.new) };

    fn give(&mut self, shard: u32, given: Shard)
        requires shard { shard < 64 }
        requires in_hand { in_hand self.old ≡ Some shard }
        requires true_entries { AreTrue (job self.old) (entries_of given) }
        ensures job { job self.new ≡ job self.old }
        ensures place { place self.new ≡ place self.old }
        ensures table { table self.new ≡ table self.old }
        ensures rest { rest self.new ≡ rest self.old }
        ensures tells { tells self.new ≡ tells self.old }
        ensures remembers { remembers self.new ≡ remembers self.old }
        ensures empty { in_hand self.new ≡ None }
        ensures outs { outs self.new ≡ outs self.old }
        ensures returned { remembers self.old ≡ true → (takes self.new ≡ takes self.old)
            × (taken self.new ≡ taken self.old) × (returned self.new ≡ Some (shard, given)) }
        ensures told { tells self.old ≡ true
            → AsGiven shard (entries_of given) (told self.old) (told self.new) };
}

/// A true answer to the question, for which only units below this one were looked at, made in an overlay
/// of the job's library. There is none only where a shard was out, or where the question's shard as taken
/// had no such answer. The shard is given back as it was taken, also where memory is wanting.
pub fn look_on<S: Shelf>(
    alloc: Global,
    terms: &mut Overlay,
    shelf: &mut S,
    unit: u32,
    key: Key,
) -> Result<Option<Kept>, NoMemory>
    requires empty { S.in_hand shelf.old ≡ None }
    requires tables { IsTablesOf (S.job shelf.old) terms.old.base }
    requires over { Extends (contents_of terms.old.base) (layers_contents terms.old) }
    ensures keeps { Extends (layers_contents terms.old) (layers_contents terms.new) }
    ensures base { terms.new.base ≡ terms.old.base }
    ensures some { IfOk result (λ o. IfSome o (λ a. IsFoundOf (S.job shelf.old)
        (layers_contents terms.new) key a × IsBelow a.top unit)) }
    ensures none { IfOk result (λ o. IfNone o ((S.outs shelf.old < S.outs shelf.new)
        ⊎ (S.tells shelf.old ≡ true → Misses (S.told shelf.old (shard_number key)) key unit))) }
    ensures taken { S.remembers shelf.old ≡ true → IfOk result (λ o. IfNone o (
        (S.outs shelf.old < S.outs shelf.new)
        ⊎ TakenMisses (shard_number key) (S.taken shelf.new) key unit)) }
    ensures back { S.tells shelf.old ≡ true → AsBefore (S.told shelf.old) (S.told shelf.new) }
    ensures returned { S.remembers shelf.old ≡ true → (S.outs shelf.old < S.outs shelf.new)
        ⊎ ((S.takes shelf.new ≡ S.takes shelf.old + 1)
        × (S.returned shelf.new ≡ S.taken shelf.new)) }
    ensures outs { S.outs shelf.old ≤ S.outs shelf.new }
    ensures empty { S.in_hand shelf.new ≡ None }
    ensures job { S.job shelf.new ≡ S.job shelf.old }
    ensures place { S.place shelf.new ≡ S.place shelf.old }
    ensures table { S.table shelf.new ≡ S.table shelf.old }
    ensures rest { S.rest shelf.new ≡ S.rest shelf.old }
    ensures tells { S.tells shelf.new ≡ S.tells shelf.old }
    ensures remembers { S.remembers shelf.new ≡ S.remembers shelf.old }
{
    let number = shard_of(key);
    let Some(taken) = shelf.take(number) else {
        return Ok(None);
    };
    let found = taken.made(alloc, terms, key, unit);
    shelf.give(number, taken);
    found
}

/// Leaves a true answer. At `Stored` its shard has it under its question, and its other answers as they were.
pub fn leave_on<S: Shelf>(shelf: &mut S, key: Key, entry: Entry) -> Result<Left, NoMemory>
    requires empty { S.in_hand shelf.old ≡ None }
    requires true_entry { IsTrueOf (S.job shelf.old) key entry }
    ensures told { S.tells shelf.old ≡ true → IfOk result (λ l.
        LeftAs l (shard_number key) key entry (S.told shelf.old) (S.told shelf.new)) }
    ensures taken { S.remembers shelf.old ≡ true → IfOk result (λ l.
        LeftSo l (S.takes shelf.new ≡ S.takes shelf.old + 1) (shard_number key)
        (S.taken shelf.new) (S.returned shelf.new) key entry) }
    ensures memory { S.tells shelf.old ≡ true
        → OnErr result (AsBefore (S.told shelf.old) (S.told shelf.new)) }
    ensures back { S.remembers shelf.old ≡ true
        → OnErr result ((S.takes shelf.new ≡ S.takes shelf.old + 1)
        × TakenKept (shard_number key) (S.taken shelf.new) (S.returned shelf.new)) }
    ensures out { IfOk result (λ l. IfOut l (S.outs shelf.old < S.outs shelf.new)) }
    ensures outs { S.outs shelf.old ≤ S.outs shelf.new }
    ensures empty { S.in_hand shelf.new ≡ None }
    ensures job { S.job shelf.new ≡ S.job shelf.old }
    ensures place { S.place shelf.new ≡ S.place shelf.old }
    ensures table { S.table shelf.new ≡ S.table shelf.old }
    ensures rest { S.rest shelf.new ≡ S.rest shelf.old }
    ensures tells { S.tells shelf.new ≡ S.tells shelf.old }
    ensures remembers { S.remembers shelf.new ≡ S.remembers shelf.old }
{
    let number = shard_of(key);
    let Some(mut taken) = shelf.take(number) else {
        return Ok(Left::Out);
    };
    let stored = taken.put(key, entry);
    shelf.give(number, taken);
    if stored? {
        Ok(Left::Stored)
    } else {
        Ok(Left::Full)
    }
}
