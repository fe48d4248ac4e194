//! Which things lead to a thing, by numbers.

ghost use Rattle.std.specs.Prelude.{◌≡◌, ◌<◌, ◌≤◌, length, IfOk, OnOk};

use lk_store::memory::NoMemory;
use std::alloc::Global;

/// A thing that leads to another, and the place behind the one before in the chain, or 0.
#[derive(Clone, Copy)]
pub(crate) struct Link {
    pub source: u32,
    pub previous: u32,
}

/// For each thing a chain of those that lead to it: the place behind its last link, or 0.
#[derive(Drop)]
pub(crate) struct Sources {
    pub last: Vec<u32>,
    pub links: Vec<Link>,
}

impl Sources {
    ghost use Rattle.lk_recheck.specs.Sources.{last_of, AreLinked, IsOneMore, IsWithRoom, HasNone};

    /// Nothing leads to anything yet, of so many things.
    pub(crate) fn new(alloc: Global, things: u32) -> Result<Sources, NoMemory>
        ensures { IfOk result (HasNone things) }
    {
        let mut last = Vec::new(alloc);
        last.resize(things as usize, 0)?;
        Ok(Sources {
            last,
            links: Vec::new(alloc),
        })
    }

    /// The same again in memory of its own, of so many things. Nothing leads to those that are new.
    pub(crate) fn with_room(&self, alloc: Global, things: u32) -> Result<Sources, NoMemory>
        requires linked { AreLinked self.now }
        requires room { length self.now.last.items ≤ things }
        ensures { IfOk result (IsWithRoom things self.now) }
    {
        let mut last = Vec::from_slice(alloc, &self.last)?;
        last.resize(things as usize, 0)?;
        Ok(Sources {
            last,
            links: Vec::from_slice(alloc, &self.links)?,
        })
    }

    /// The place behind the last link to a thing, or 0.
    pub(crate) fn last(&self, target: u32) -> u32
        requires { target < length self.now.last.items }
        ensures { result ≡ last_of self.now target }
    {
        self.last[target as usize]
    }

    /// A thing leads to another. Links are fewer than 2^32; more are want of memory.
    pub(crate) fn add(&mut self, source: u32, target: u32) -> Result<(), NoMemory>
        requires linked { AreLinked self.old }
        requires source_in { source < length self.old.last.items }
        requires target_in { target < length self.old.last.items }
        ensures { OnOk result (IsOneMore self.old self.new source target) }
    {
        let count = self.links.len();
        if count >= u32::MAX as usize {
            return Err(NoMemory);
        }
        let previous = self.last[target as usize];
        self.links.push(Link { source, previous })?;
        self.last[target as usize] = count as u32 + 1;
        Ok(())
    }
}
