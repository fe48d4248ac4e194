//! Shards are taken and given back.

ghost use Rattle.std.specs.Prelude.{◌≡◌, ◌+◌, ◌<◌, ◌≤◌, ℕ, [], ◌∷◌, IfSome, IfNone, None, Some};
ghost use Rattle.lk_desk.specs.Truth.{AreTrue, entries_of};
ghost use Rattle.lk_desk.specs.Steps.{saw, gave, missed};
ghost use Rattle.lk_desk.specs.Seats.{view, hand, job, IsOf, Sits};

use crate::shard::Shard;
use crate::table::{Desk, Gives, Seat, Takes};

impl Desk {
    /// Takes a shard. `None` comes only where it is out, and the seat then notes it.
    pub fn take(&self, seat: &mut Seat, shard: u32) -> Option<Shard>
        requires of { Sits seat.old self.now }
        requires shard { shard < 64 }
        ensures of { IsOf seat.new self.now }
        ensures some { IfSome result (λ x. AreTrue (job self.now) (entries_of x)
            × (view seat.new ≡ saw shard x (view seat.old))
            × (hand seat.new ≡ (shard, None) ∷ [])) }
        ensures none { IfNone result ((view seat.new ≡ missed (view seat.old))
            × (hand seat.new ≡ [])) }
    {
        let place = shard as usize;
        if self
            .table
            .shared
            .swap::<Takes>(&mut seat.token, place + 2, 1)
            != 0
        {
            return None;
        }
        match self.table.shared.exchange(&mut seat.token, place, None) {
            Some(taken) => Some(taken),
            None => unreachable!(),
        }
    }

    /// Gives the shard in hand back.
    pub fn give(&self, seat: &mut Seat, shard: u32, given: Shard)
        requires of { IsOf seat.old self.now }
        requires shard { shard < 64 }
        requires in_hand { hand seat.old ≡ (shard, None) ∷ [] }
        requires true_entries { AreTrue (job self.now) (entries_of given) }
        ensures of { Sits seat.new self.now }
        ensures view { view seat.new ≡ gave (Some (shard, given)) (view seat.old) }
    {
        let place = shard as usize;
        let _ = self
            .table
            .shared
            .exchange(&mut seat.token, place, Some(given));
        self.table
            .shared
            .store::<Gives>(&mut seat.token, place + 2, 0);
    }
}
