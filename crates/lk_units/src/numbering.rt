//! One of the file's numberings: its numbers, and what each has in a store.
ghost use Rattle.std.specs.Prelude.{◌≡◌, ◌==◌, ◌<◌, ℕ, All, length, nat_eq, IfOk, IfErr, OnOk, OnErr, Some, None};
ghost use Rattle.std.specs.Prelude.{if◌then◌else◌};
ghost use Rattle.std.specs.HashMap.{get};
ghost use Rattle.lk_units.specs.Numbering.{entry};
ghost use Rattle.lk_units.specs.State.{all_known};
ghost use Rattle.lk_units.specs.Held.{Below, Makes, Puts};

use crate::TakeError;
use lk_lines::{FileNumber, Word};
use lk_store::memory::NoMemory;
use std::alloc::Global;
use std::collections::HashMap;

/// Numbers of the file, which may begin anywhere and leave gaps, and the place that each has. They have 64 bits, as those
/// behind `#TR` may. A place has 32 bits; a greater one is want of memory.
///
/// Most files number in turn from 0 or 1, so the places of the first numbers stand in a list.
#[derive(Drop)]
pub struct Numbering {
    /// The places of the numbers from 0 on, as far as they came in turn.
    pub low: Vec<u32>,
    /// The places of the numbers that the list does not reach.
    pub map: HashMap<u64, u32>,
}

impl Numbering {
    #[tactic(auto, unfolding(crate::specs::Numbering::entry))]
    pub fn new(alloc: Global) -> Self
        ensures { (q : ℕ) → entry result q ≡ None }
    {
        Numbering {
            low: Vec::new(alloc),
            map: HashMap::new(alloc),
        }
    }

    // The place of a number in the map.
    #[inline(never)]
    fn find_in_map(&self, number: u64) -> Option<u32>
        ensures { result ≡ get nat_eq self.now.map number }
    {
        match self.map.get(&number) {
            Some(place) => Some(*place),
            None => None,
        }
    }

    // The place of a number that the list does not reach. Nearly every map is empty.
    #[inline(always)]
    fn find_other(&self, number: u64) -> Option<u32>
        ensures { result ≡ get nat_eq self.now.map number }
    {
        if self.map.is_empty() {
            return None;
        }
        self.find_in_map(number)
    }

    /// The place of a number.
    #[inline(always)]
    #[tactic(auto, unfolding(crate::specs::Numbering::entry))]
    pub fn find_place(&self, number: u64) -> Option<u32>
        ensures { result ≡ entry self.now number }
    {
        match self.low.get(number as usize) {
            Some(place) => Some(*place),
            None => self.find_other(number),
        }
    }

    /// The place of a number, as a store counts it.
    #[inline(always)]
    pub fn find(&self, number: u64) -> Option<u64>
        ensures { result ≡ entry self.now number }
    {
        match self.find_place(number) {
            Some(place) => Some(u64::from(place)),
            None => None,
        }
    }

    /// The place of a number, or the fault that it has none.
    #[inline(always)]
    pub fn known<N: FileNumber>(&self, number: N) -> Result<u64, TakeError>
        ensures ok { IfOk result (λ place. entry self.now (N.view.value number) ≡ Some place) }
        ensures err { IfErr result (λ e. e ≡ TakeError.Fault Word.IndexUnknown) }
        ensures absent { OnErr result (entry self.now (N.view.value number) ≡ None) }
    {
        match self.find(number.widened()) {
            Some(place) => Ok(place),
            None => Err(TakeError::Fault(Word::IndexUnknown)),
        }
    }

    /// The places of several numbers.
    pub(crate) fn find_all<N: FileNumber>(
        &self,
        alloc: Global,
        numbers: &[N],
    ) -> Result<Vec<u64>, TakeError>
        ensures known { (len : ℕ) → Below self.now len
            → IfOk result (λ v. All (λ i. i < len) v.items) }
        ensures found { Makes (λ v. v.items) result
            (all_known (entry self.now) (N.view.values numbers.now)) }
    {
        let mut places = Vec::new(alloc);
        let mut rest = numbers;
        while let Some((number, more)) = rest.split_first() {
            let Some(place) = self.find((*number).widened()) else {
                return Err(TakeError::Fault(Word::IndexUnknown));
            };
            match places.push(place) {
                Ok(()) => {}
                Err(_) => return Err(TakeError::NoMemory),
            }
            rest = more;
        }
        Ok(places)
    }

    // Gives the number its place that is next in turn.
    #[tactic(auto, using(crate::proofs::Turns::next_entry), unfolding(crate::specs::Numbering::entry))]
    fn add_next(&mut self, place: u32) -> Result<(), NoMemory>
        ensures ok { OnOk result ((q : ℕ) → entry self.new q
            ≡ (if q == length self.old.low.items then Some place else entry self.old q)) }
        ensures err { OnErr result ((q : ℕ) → entry self.new q ≡ entry self.old q) }
    {
        match self.low.push(place) {
            Ok(()) => Ok(()),
            Err(_) => Err(NoMemory),
        }
    }

    // Gives a number its place that is not next in turn.
    #[inline(never)]
    #[tactic(auto, using(crate::proofs::Turns::low_entry, crate::proofs::Turns::other_entry), unfolding(crate::specs::Numbering::entry))]
    fn add_other(&mut self, number: u64, place: u32) -> Result<(), NoMemory>
        ensures ok { OnOk result ((q : ℕ) → entry self.new q
            ≡ (if q == number then Some place else entry self.old q)) }
        ensures err { OnErr result ((q : ℕ) → entry self.new q ≡ entry self.old q) }
    {
        let at = number as usize;
        if at < self.low.len() {
            self.low[at] = place;
            return Ok(());
        }
        match self.map.insert(number, place) {
            Ok(_) => Ok(()),
            Err(_) => Err(NoMemory),
        }
    }

    /// Gives a number its place.
    pub fn add(&mut self, number: u64, place: u64) -> Result<(), NoMemory>
        ensures ok { OnOk result ((q : ℕ) → entry self.new q
            ≡ (if q == number then Some place else entry self.old q)) }
        ensures err { OnErr result ((q : ℕ) → entry self.new q ≡ entry self.old q) }
    {
        let Ok(place) = u32::try_from(place) else {
            return Err(NoMemory);
        };
        if number as usize == self.low.len() {
            self.add_next(place)
        } else {
            self.add_other(number, place)
        }
    }

    /// Gives the number of a line what the line made. A number that is taken comes before any fault of the making.
    pub fn put_new(&mut self, own: u64, made: Result<u64, TakeError>) -> Result<(), TakeError>
        ensures { Puts self.old self.new own made result }
    {
        if self.find(own).is_some() {
            return Err(TakeError::Fault(Word::IndexTaken));
        }
        match made {
            Ok(place) => match self.add(own, place) {
                Ok(()) => Ok(()),
                Err(_) => Err(TakeError::NoMemory),
            },
            Err(error) => Err(error),
        }
    }
}
