//! What a seat knows.

use crate::shard::Shard;
use lk_env::library::Library;
use std::collections::LinkedList;

/// What a seat knows. No value of it is made, so it takes no memory.
pub struct View {
    /// The library whose units it draws.
    pub job: Option<Library>,
    /// The numbers that it drew, in order.
    pub drawn: LinkedList<u32>,
    /// How often it drew past the last unit.
    pub overdrawn: u64,
    /// It draws no more.
    pub ended: bool,
    /// How often it was refused a new seat.
    pub refusals: u64,
    /// How often a shard was out.
    pub outs: u64,
    /// How often it took a shard, and which one it took last, as it was.
    pub takes: u64,
    pub taken: Option<(u32, Shard)>,
    /// The one that it gave back last.
    pub returned: Option<(u32, Shard)>,
    /// How many seats it came from. A view that another took in has 0.
    pub seats: u64,
    /// A seat that was counted, and is about to come.
    pub pending: u64,
}
