//! The shelf of a desk and a seat.

ghost use Rattle.std.specs.Prelude.{◌≡◌, ◌+◌, ◌<◌, ◌≤◌, ◌⊎◌, [], ◌∷◌, IfOk, OnErr, IfSome, IfNone, Some, None, true};
ghost use Rattle.lk_questions.specs.Laws.{IsBelow};
ghost use Rattle.lk_desk.specs.Truth.{IsTrueOf, IsFoundOf, IsTablesOf};
ghost use Rattle.lk_store.specs.Contents.{Extends};
ghost use Rattle.lk_store.specs.Store.{contents_of};
ghost use Rattle.lk_store.specs.Layers.{layers_contents};
ghost use Rattle.lk_desk.specs.Seats.{view, hand, job, IsOf, Sits};
ghost use Rattle.lk_desk.specs.Held.{is_held, still};
ghost use Rattle.lk_desk.specs.Shards.{shard_number};
ghost use Rattle.lk_desk.specs.Shelves.{IfOut, LeftSo, TakenKept, TakenMisses};

use crate::entry::Entry;
use crate::shard::Shard;
use crate::shelf::{Left, Shelf, leave_on, look_on};
use crate::table::{Desk, Seat};
use lk_ask::kept::Kept;
use lk_memo::key::Key;
use lk_store::memory::NoMemory;
use lk_store::overlay::Overlay;
use std::alloc::Global;

/// The shards of a desk, as a seat takes and gives them.
#[derive(Drop)]
pub struct Hook<'a> {
    desk: &'a Desk,
    seat: &'a mut Seat,
    ghost of: { IsOf seat.now desk.now },
    ghost held: { is_held (hand seat.now) ≡ true },
}

impl<'a> Shelf for Hook<'a> {
    ghost use Rattle.lk_desk.specs.Hooks.{hook_job, hook_place, hook_table, hook_rest, hook_outs, hook_in_hand};
    ghost use Rattle.lk_desk.specs.Hooks.{hook_tells, hook_told, hook_remembers, hook_takes, hook_taken, hook_returned};

    ghost job = { hook_job };

    ghost place = { hook_place };

    ghost table = { hook_table };

    ghost rest = { hook_rest };

    ghost outs = { hook_outs };

    ghost in_hand = { hook_in_hand };

    ghost tells = { hook_tells };

    ghost told = { hook_told };

    ghost remembers = { hook_remembers };

    ghost takes = { hook_takes };

    ghost taken = { hook_taken };

    ghost returned = { hook_returned };

    fn take(&mut self, shard: u32) -> Option<Shard> {
        self.desk.take(self.seat, shard)
    }

    fn give(&mut self, shard: u32, given: Shard) {
        self.desk.give(self.seat, shard, given);
    }
}

impl Desk {
    /// A true answer to the question, for which only units below this one were looked at, made in
    /// an overlay of the job's library. There is none only where a shard was out, or where the
    /// question's shard was taken, once, and had no such answer.
    pub fn look(
        &self,
        alloc: Global,
        terms: &mut Overlay,
        seat: &mut Seat,
        unit: u32,
        key: Key,
    ) -> Result<Option<Kept>, NoMemory>
        requires of { Sits seat.old self.now }
        requires tables { IsTablesOf (job self.now) terms.old.base }
        requires over { Extends (contents_of terms.old.base) (layers_contents terms.old) }
        ensures keeps { Extends (layers_contents terms.old) (layers_contents terms.new) }
        ensures base { terms.new.base ≡ terms.old.base }
        ensures sits { Sits seat.new self.now }
        ensures still { still (view seat.new) ≡ still (view seat.old) }
        ensures some { IfOk result (λ o. IfSome o (λ a. IsFoundOf (job self.now)
            (layers_contents terms.new) key a × IsBelow a.top unit)) }
        ensures none { IfOk result (λ o. IfNone o (
            ((view seat.old).outs < (view seat.new).outs)
            ⊎ TakenMisses (shard_number key) (view seat.new).taken key unit)) }
        ensures returned { ((view seat.old).outs < (view seat.new).outs)
            ⊎ (((view seat.new).takes ≡ (view seat.old).takes + 1)
            × ((view seat.new).returned ≡ (view seat.new).taken)) }
        ensures outs { (view seat.old).outs ≤ (view seat.new).outs }
    {
        let mut hook = Hook { desk: self, seat };
        look_on(alloc, terms, &mut hook, unit, key)
    }

    /// Leaves a true answer. `Out` comes only where a shard was out, `Full` only where the question's
    /// shard was taken, once, and has no room.
    pub fn leave(&self, seat: &mut Seat, key: Key, entry: Entry) -> Result<Left, NoMemory>
        requires of { Sits seat.old self.now }
        requires true_entry { IsTrueOf (job self.now) key entry }
        ensures sits { Sits seat.new self.now }
        ensures still { still (view seat.new) ≡ still (view seat.old) }
        ensures left { IfOk result (λ l. LeftSo l
            ((view seat.new).takes ≡ (view seat.old).takes + 1) (shard_number key)
            (view seat.new).taken (view seat.new).returned key entry) }
        ensures memory { OnErr result (((view seat.new).takes ≡ (view seat.old).takes + 1)
            × TakenKept (shard_number key) (view seat.new).taken (view seat.new).returned) }
        ensures out { IfOk result (λ l. IfOut l ((view seat.old).outs < (view seat.new).outs)) }
        ensures outs { (view seat.old).outs ≤ (view seat.new).outs }
    {
        let mut hook = Hook { desk: self, seat };
        leave_on(&mut hook, key, entry)
    }
}
