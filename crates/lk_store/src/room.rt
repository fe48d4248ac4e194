//! The room that a walk over the terms of a store works in. The store keeps it between walks, so
//! that they do not each take memory anew.

use crate::hashing::hash_pair;
use crate::node::Node;
use lk_rows::row::Row;
use lk_rows::table::Table;
use std::alloc::Global;
use std::mem::{drop, replace};

/// A term by its number, and how many binders it stands under.
#[derive(Clone, Copy, PartialEq)]
pub struct Spot {
    pub e: u64,
    pub depth: u64,
}

/// What was made at a spot.
#[derive(Clone, Copy)]
pub struct Made {
    pub spot: Spot,
    pub made: u64,
}

impl Row for Made {
    type Key = Spot;

    ghost key = { λ m. m.spot };

    ghost use Rattle.lk_store.specs.Rooms.{hash_of_spot};

    ghost hash = { hash_of_spot };

    #[inline(always)]
    fn hash_of(seed: u64, wanted: &Spot) -> u64 {
        hash_pair(seed, wanted.e, wanted.depth)
    }

    #[inline(always)]
    fn own_hash(&self, seed: u64) -> u64 {
        hash_pair(seed, self.spot.e, self.spot.depth)
    }

    #[inline(always)]
    fn has(&self, wanted: &Spot) -> bool {
        self.spot == *wanted
    }
}

/// A child of a node.
#[derive(Clone, Copy)]
pub enum Child {
    First,
    Second,
    Third,
}

/// A node that waits for a child. The children before that one are built, and stand in the node in
/// place of those that it had.
#[derive(Clone, Copy)]
pub struct Waiting {
    pub spot: Spot,
    pub node: Node,
    pub child: Child,
}

/// Room for a walk: the nodes that wait, the innermost last, and what was made.
pub struct Room {
    pub stack: Vec<Waiting>,
    pub made: Table<Made>,
}

impl Drop for Room {
    fn drop(self) {
        let Room { stack, made } = self;
        drop(stack);
        drop(made);
    }
}

impl Room {
    ghost use Rattle.lk_store.specs.Rooms.{IsEmpty};

    /// Empty room. It takes no memory.
    pub(crate) fn new(alloc: Global) -> Room
        ensures { IsEmpty result }
    {
        Room {
            stack: Vec::new(alloc),
            made: Table::new(alloc),
        }
    }

    /// Lends the room, emptied, with its memory. Room that has none stays in its place.
    pub(crate) fn lend(&mut self, alloc: Global) -> Room
        ensures { IsEmpty result }
    {
        let mut room = replace(self, Room::new(alloc));
        room.stack.clear();
        room.made.clear();
        room
    }
}
