//! A desk is made; seats draw numbers, are cut and are joined.

ghost use Rattle.std.specs.Prelude.{◌≡◌, ◌+◌, ◌<◌, ◌≤◌, IfOk, IfSome, IfNone, IsNone, All, true, false, length};
ghost use Rattle.lk_desk.specs.Job.{job_of, units_of};
ghost use Rattle.lk_desk.specs.Rule.{HasEach, IsEmptyShard};
ghost use Rattle.lk_desk.specs.Steps.{both_views};
ghost use Rattle.lk_desk.specs.Seats.{view, job, IsOf, Sits, IsNew, Stays, IsUnchanged, Drew, Ended, WasRefused};

use crate::shard::Shard;
use crate::table::{Asks, Claims, Counts, Cuts, Desk, Loads, Merges, Seat};
use atomic_table::Table;
use lk_env::library::Library;
use lk_store::memory::NoMemory;
use std::alloc::Global;

const SHARDS: usize = 64;

const MOST_SEATS: u64 = 65536;

fn empty_shards(alloc: Global, count: usize) -> Result<Vec<Option<Shard>>, NoMemory>
    ensures count { IfOk result (λ v. length v.items ≡ count) }
    ensures each { IfOk result (λ v. All IsEmptyShard v.items) }
{
    let mut slots = Vec::new(alloc);
    for _ in 0..count {
        slots.push(Some(Shard::new(alloc)))?;
    }
    Ok(slots)
}

impl Desk {
    /// A desk for the units of a library, and its first seat. No desk has room for 2^32 units.
    pub fn new(alloc: Global, library: &Library) -> Result<(Desk, Seat), NoMemory>
        ensures job { IfOk result (λ d. job d.0 ≡ job_of library.now) }
        ensures seat { IfOk result (λ d. IsNew d.1 d.0) }
    {
        let Ok(units) = u32::try_from(library.units().len()) else {
            return Err(NoMemory);
        };
        let slots = empty_shards(alloc, SHARDS)?;
        let mut words = [0; 66];
        words[1] = 1;
        let (table, token) = match Table::new(alloc, &words, slots, library) {
            Ok(made) => made,
            Err(_) => return Err(NoMemory),
        };
        Ok((
            Desk { table, units },
            Seat {
                token,
                ended: false,
                refused: false,
            },
        ))
    }

    /// Draws the next number. `None` comes exactly where the number drawn is not below the number of
    /// units, or the seat has ended.
    pub fn claim(&self, seat: &mut Seat) -> Option<u32>
        requires { IsOf seat.old self.now }
        ensures of { Stays seat.old seat.new self.now }
        ensures some { IfSome result (λ n. (n < units_of (job self.now))
            × Drew seat.old seat.new n) }
        ensures none { IfNone result (Ended seat.old seat.new) }
        ensures overdrawn { IfNone result ((view seat.old).ended ≡ false
            → (view seat.new).overdrawn ≡ (view seat.old).overdrawn + 1) }
        ensures ended { (view seat.old).ended ≡ true
            → IsNone result × (view seat.new ≡ view seat.old) }
    {
        if seat.ended {
            return None;
        }
        let found = self.table.shared.fetch_add::<Claims>(&mut seat.token, 0, 1);
        if found < self.units as u64 {
            Some(found as u32)
        } else {
            seat.ended = true;
            None
        }
    }

    /// How many seats were made. A seat that came from as many, and has ended, drew each unit, once.
    pub fn seats_made(&self, seat: &mut Seat) -> u64
        requires { IsOf seat.old self.now }
        ensures same { IsUnchanged seat.old seat.new self.now }
        ensures most { (view seat.old).seats ≤ result }
        ensures whole { (view seat.old).seats ≡ result → (view seat.old).ended ≡ true
            → HasEach (view seat.old) (units_of (job self.now)) }
    {
        self.table.shared.load::<Counts>(&mut seat.token, 1)
    }

    /// A second seat, which has drawn nothing. `None` comes exactly where 65,536 seats were made, as
    /// the step found or the seat had noted.
    pub fn split(&self, seat: &mut Seat) -> Option<Seat>
        requires { IsOf seat.old self.now }
        ensures of { Stays seat.old seat.new self.now }
        ensures some { IfSome result (λ s. IsNew s self.now × (view seat.new ≡ view seat.old)
            × ((view seat.old).refusals ≡ 0)) }
        ensures none { IfNone result (WasRefused seat.old seat.new) }
        ensures noted { IfNone result ((view seat.old).refusals ≡ 0
            → (view seat.new).refusals ≡ 1) }
        ensures refusals { 0 < (view seat.old).refusals
            → IsNone result × (view seat.new ≡ view seat.old) }
    {
        if seat.refused {
            return None;
        }
        let found = self.table.shared.fetch_add::<Asks>(&mut seat.token, 1, 1);
        if found >= MOST_SEATS {
            seat.refused = true;
            return None;
        }
        let token = self.table.shared.split_seat::<Cuts>(&mut seat.token);
        Some(Seat {
            token,
            ended: false,
            refused: false,
        })
    }

    /// One seat takes in all of another.
    pub fn join(&self, seat: &mut Seat, other: Seat)
        requires { IsOf seat.old self.now × Sits other self.now }
        ensures of { Stays seat.old seat.new self.now }
        ensures both { view seat.new ≡ both_views (view seat.old) (view other) }
    {
        let Seat {
            mut token,
            ended,
            refused,
        } = other;
        let _below = self.table.shared.load::<Loads>(&mut token, 0);
        seat.ended = seat.ended || ended;
        seat.refused = seat.refused || refused;
        self.table
            .shared
            .join_seat::<Merges>(&mut seat.token, token);
    }
}

impl Seat {
    /// Whether the seat draws no more.
    pub fn has_ended(&self) -> bool
        ensures { result ≡ (view self.now).ended }
    {
        self.ended
    }
}
