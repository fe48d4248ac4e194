//! Sets of unit numbers, each a rising list, by numbers of their own.

ghost use Rattle.std.specs.Prelude.{◌≡◌, ◌<◌, ◌++◌, [], ◌∷◌, length, IfOk, OnOk, slice_index_or};
ghost use Rattle.std.specs.List.Sorted.{IsStrictlyIncreasing};
ghost use Rattle.lk_axioms.specs.Lists.{set_at, IsUnion, IsUnited};

use crate::merge::merge;
use lk_store::memory::NoMemory;
use std::alloc::Global;
use std::marker::Model;

/// Sets of unit numbers. A number stands for one set for good.
#[derive(Drop)]
pub struct Sets {
    lists: Vec<Vec<u32>>,
}

impl Model for Sets {
    ghost use Rattle.std.specs.Prelude.{ℕ, List, map, All};
    ghost use Rattle.std.specs.List.Sorted.{IsStrictlyIncreasing};

    ghost Value = { List (List ℕ) };

    ghost view = { λ s. map (λ l. l.items) s.lists.items };

    ghost invariant = { λ s. All (λ l. IsStrictlyIncreasing l.items) s.lists.items };
}

impl Sets {
    /// The empty set alone.
    pub fn new(alloc: Global) -> Result<Sets, NoMemory>
        ensures { IfOk result (λ s. s ≡ [] ∷ []) }
    {
        let mut lists: Vec<Vec<u32>> = Vec::new(alloc);
        lists.push(Vec::new(alloc))?;
        Ok(Sets { lists })
    }

    /// The numbers of a set.
    pub fn get(&self, set: u32) -> &[u32]
        requires { set < length self.now }
        ensures numbers { result.now ≡ slice_index_or self.now set [] }
        ensures rising { IsStrictlyIncreasing result.now }
    {
        self.lists[set as usize].as_slice()
    }

    /// One more set. There are at most 2^32 - 1 of them.
    pub fn add(&mut self, list: Vec<u32>) -> Result<u32, NoMemory>
        requires { IsStrictlyIncreasing list.items }
        ensures grown { OnOk result (self.new ≡ self.old ++ list.items ∷ []) }
        ensures number { IfOk result (λ set. set ≡ length self.old) }
    {
        if self.lists.len() >= u32::MAX as usize {
            return Err(NoMemory);
        }
        let set = self.lists.len() as u32;
        self.lists.push(list)?;
        Ok(set)
    }

    /// The number of a set that is the union of two: one of theirs, where that has all numbers.
    fn add_union(&mut self, a: u32, b: u32, list: Vec<u32>) -> Result<u32, NoMemory>
        requires a_in { a < length self.old }
        requires b_in { b < length self.old }
        requires rising { IsStrictlyIncreasing list.items }
        requires union { IsUnion (set_at self.old a) (set_at self.old b) list.items }
        ensures { IfOk result (IsUnited self.old self.new a b) }
    {
        if list.as_slice() == self.get(a) {
            return Ok(a);
        }
        if list.as_slice() == self.get(b) {
            return Ok(b);
        }
        self.add(list)
    }

    /// The number of the union of two sets.
    pub fn union(&mut self, alloc: Global, a: u32, b: u32) -> Result<u32, NoMemory>
        requires a_in { a < length self.old }
        requires b_in { b < length self.old }
        ensures { IfOk result (IsUnited self.old self.new a b) }
    {
        let xs = self.get(a);
        let ys = self.get(b);
        if a == b || ys.is_empty() {
            return Ok(a);
        }
        if xs.is_empty() {
            return Ok(b);
        }
        let list = merge(alloc, xs, ys)?;
        self.add_union(a, b, list)
    }
}
