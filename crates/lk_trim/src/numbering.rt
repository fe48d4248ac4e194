//! The places at which numbers of a store were noted.

use lk_store::memory::NoMemory;
use std::alloc::Global;
use std::marker::Model;

/// Numbers of a store, in the order in which they were noted, with a table by number.
#[derive(Drop)]
pub struct Numbering {
    noted: Vec<u64>,
    /// For each number the place at which it was noted first, from 1, and 0 for one that was not.
    cells: Vec<u64>,
}

impl Model for Numbering {
    ghost use Rattle.std.specs.Prelude.{ℕ, List};

    ghost Value = { List ℕ };

    ghost use Rattle.lk_trim.specs.Numbering.{AreCells};

    ghost view = { λ s. s.noted.items };

    ghost invariant = { λ s. AreCells s.cells.items s.noted.items };
}

ghost use Rattle.std.specs.Prelude.{◌≡◌, ◌<◌, ℕ, suc, List, [], ◌∷◌, ◌++◌, length, OnOk};
ghost use Rattle.lk_trim.specs.Written.{stands, number_at};
ghost use Rattle.lk_trim.specs.Numbering.{from_one, place_in, AreCells, AreAlike};

/// Makes room for the cell of a number.
fn room_for(cells: &mut Vec<u64>, n: u64) -> Result<(), NoMemory>
    ensures same { AreAlike cells.old.items cells.new.items }
    ensures room { OnOk result (n < length cells.new.items) }
{
    let Some(wanted) = (n as usize).checked_add(1) else {
        return Err(NoMemory);
    };
    if cells.len() < wanted {
        cells.resize(wanted, 0)?;
    }
    Ok(())
}

/// Notes the place of a number, from 1, unless it has one.
fn set_place(cells: &mut Vec<u64>, n: u64, place: u64)
    requires { n < length cells.old.items }
    ensures { (noted : List ℕ) → place ≡ suc (length noted) → AreCells cells.old.items noted
        → AreCells cells.new.items (noted ++ n ∷ []) }
{
    if cells[n as usize] == 0 {
        cells[n as usize] = place;
    }
}

impl Numbering {
    /// Nothing is noted. It takes no memory.
    pub(crate) fn new(alloc: Global) -> Numbering
        ensures { result ≡ [] }
    {
        Numbering {
            noted: Vec::new(alloc),
            cells: Vec::new(alloc),
        }
    }

    /// How many were noted.
    pub(crate) fn len(&self) -> u64
        ensures { result ≡ length self.now }
    {
        self.noted.len() as u64
    }

    /// How many were noted, and one more.
    pub(crate) fn len_from_one(&self) -> u64
        ensures { result ≡ suc (length self.now) }
    {
        self.noted.len() as u64 + 1
    }

    /// The place of a number, from 1; 0 where it was not noted.
    pub(crate) fn place_from_one(&self, n: u64) -> u64
        ensures { result ≡ from_one (place_in self.now n) }
    {
        match self.cells.get(n as usize) {
            Some(cell) => *cell,
            None => 0,
        }
    }

    /// The place of a number, from 0; 0 too where it was not noted.
    pub(crate) fn place(&self, n: u64) -> u64
        ensures { result ≡ number_at (place_in self.now n) }
    {
        self.place_from_one(n).saturating_sub(1)
    }

    /// Whether a number was noted.
    pub(crate) fn has(&self, n: u64) -> bool
        ensures { result ≡ stands (place_in self.now n) }
    {
        self.place_from_one(n) != 0
    }

    /// Notes a number.
    pub(crate) fn note(&mut self, n: u64) -> Result<(), NoMemory>
        ensures { OnOk result (self.new ≡ self.old ++ n ∷ []) }
    {
        room_for(&mut self.cells, n)?;
        self.noted.push(n)?;
        set_place(&mut self.cells, n, self.noted.len() as u64);
        Ok(())
    }
}
