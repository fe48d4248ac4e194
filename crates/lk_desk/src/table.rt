//! The table of a desk, with its rule and what its steps tell.

ghost use Rattle.std.specs.Prelude.{◌≡◌, ◌<◌, nat_lt};
ghost use Rattle.lk_desk.specs.Job.{job_of, units_of};

use crate::shard::Shard;
use crate::view::View;
use atomic_table::{Join, Play, Split, Table, TableRule};
use lk_env::library::Library;
use std::alloc::Global;

/// The rule of a desk.
pub struct InDesk;

impl TableRule<Option<Shard>, View, Library> for InDesk {
    ghost use Rattle.lk_desk.specs.Rule.{IsDesk, first_view};

    ghost holds = { λ l. IsDesk (job_of l) };

    ghost first = { λ l. first_view (job_of l) };
}

/// Drawing a number: a fetch_add of 1 on the first word.
pub struct Claims;

impl Play<Option<Shard>, View> for Claims {
    ghost use Rattle.lk_desk.specs.Steps.{Claimed};

    ghost then = { Claimed };
}

/// Reading the first word.
pub struct Loads;

impl Play<Option<Shard>, View> for Loads {
    ghost use Rattle.lk_desk.specs.Steps.{Loaded};

    ghost then = { Loaded };
}

/// Reading the word of seats.
pub struct Counts;

impl Play<Option<Shard>, View> for Counts {
    ghost use Rattle.lk_desk.specs.Steps.{Counted};

    ghost then = { Counted };
}

/// Taking a shard: a swap of its word with 1.
pub struct Takes;

impl Play<Option<Shard>, View> for Takes {
    ghost use Rattle.lk_desk.specs.Steps.{Took};

    ghost then = { Took };
}

/// Giving a shard back: a store of 0 in its word.
pub struct Gives;

impl Play<Option<Shard>, View> for Gives {
    ghost use Rattle.lk_desk.specs.Steps.{Gave};

    ghost then = { Gave };
}

/// Counting a seat that is to come: a fetch_add of 1 on the word of seats.
pub struct Asks;

impl Play<Option<Shard>, View> for Asks {
    ghost use Rattle.lk_desk.specs.Steps.{Asked};

    ghost then = { Asked };
}

/// A seat comes.
pub struct Cuts;

impl Split<View> for Cuts {
    ghost use Rattle.lk_desk.specs.Steps.{cut, newcomer};

    ghost left = { cut };

    ghost right = { newcomer };
}

/// One seat takes in another.
pub struct Merges;

impl Join<View> for Merges {
    ghost use Rattle.lk_desk.specs.Steps.{both_views};
    ghost use Rattle.lk_desk.specs.Rule.{spent_view};

    ghost both = { both_views };

    ghost spent = { spent_view };
}

/// What threads share.
#[derive(Drop)]
pub struct Desk {
    pub(crate) table: Table<Option<Shard>, View, Library, InDesk, Global>,
    pub(crate) units: u32,
    ghost units_are: { units ≡ units_of (job_of table.shared.key) },
    ghost words: { table.shared.table_id.words ≡ 66 },
    ghost slots: { table.shared.table_id.slots ≡ 64 },
}

/// What a thread steps with.
#[derive(Drop)]
pub struct Seat {
    pub(crate) token: atomic_table::Seat<Option<Shard>, View>,
    /// It draws no more.
    pub(crate) ended: bool,
    /// It was refused a new seat.
    pub(crate) refused: bool,
    ghost alive: { 0 < token.me.0.seats },
    ghost whole: { token.me.0.pending ≡ 0 },
    ghost ended_is: { ended ≡ token.me.0.ended },
    ghost refused_is: { refused ≡ nat_lt 0 token.me.0.refusals },
}
