//! By which numbers parts of one store are known in another.

ghost use Rattle.std.specs.Prelude.{◌≡◌, None, OnOk};
ghost use Rattle.std.specs.HashMap.{get};
ghost use Rattle.lk_spell.specs.Numbers.{part_eq, number_in, number_or, Adds, IsDone};

use crate::part::Part;
use crate::sizes::is_within;
use lk_store::memory::NoMemory;
use lk_store::sizes::Sizes;
use std::alloc::Global;
use std::collections::HashMap;

/// By which numbers the parts of one store are known in another one. Those of the library have the
/// same numbers in both.
#[derive(Drop)]
pub(crate) struct Numbers {
    base: Sizes,
    own: HashMap<Part, u64>,
}

impl Numbers {
    /// Those of the library alone. It takes no memory.
    pub(crate) fn new(alloc: Global, base: Sizes) -> Numbers
        ensures base { result.base ≡ base }
        ensures own { (p : Part) → get part_eq result.own p ≡ None }
    {
        Numbers {
            base,
            own: HashMap::new(alloc),
        }
    }

    /// The number of a part.
    #[tactic(auto, unfolding(crate::specs::Numbers::number_in))]
    pub(crate) fn find(&self, part: Part) -> Option<u64>
        ensures { result ≡ number_in self.now part }
    {
        if is_within(&self.base, part) {
            return Some(part.number());
        }
        match self.own.get(&part) {
            Some(number) => Some(*number),
            None => None,
        }
    }

    /// The number of a part that has one.
    pub(crate) fn get(&self, part: Part) -> u64
        requires { IsDone self.now part }
        ensures { result ≡ number_or self.now part }
    {
        match self.find(part) {
            Some(number) => number,
            None => unreachable!(),
        }
    }

    /// Gives a part its number.
    pub(crate) fn add(&mut self, part: Part, number: u64) -> Result<(), NoMemory>
        ensures { OnOk result (Adds self.old self.new part number) }
    {
        self.own.insert(part, number)?;
        Ok(())
    }
}
