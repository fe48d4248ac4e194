//! A desk that threads share: numbers of units that seats draw, each once, seats that are cut and
//! joined, and shards of answers that seats take and give back. None of its calls waits.
#![tactic(auto)]

pub mod entry;
pub mod hook;
pub mod laws;
pub mod mem_shelf;
mod seats;
pub mod shard;
mod shards;
pub mod shelf;
pub mod table;
pub mod view;

pub use entry::{Entry, SpelledAnswer};
pub use mem_shelf::MemShelf;
pub use shard::{Shard, shard_of};
pub use shelf::{Left, Shelf, leave_on, look_on};
pub use table::{Desk, Seat};
