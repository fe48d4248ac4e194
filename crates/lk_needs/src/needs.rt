//! What is needed of a library, as far as it is known.

ghost use Rattle.std.specs.Prelude.{◌≡◌, ◌<◌, false, true, [], ◌∷◌, All, length, IfOk, OnOk};
ghost use Rattle.std.specs.Prelude.{replicate, slice_index_or, slice_set};
ghost use Rattle.lk_needs.specs.Marks.{IsThing, room_of, Marks, Enters, IsUnmarked};

use crate::thing::Thing;
use lk_store::memory::NoMemory;
use std::alloc::Global;

/// A mark for each thing that is needed: for units, names, trees, and for names by their numbered
/// recursors. What was not looked through yet waits.
#[derive(Drop)]
pub struct Needs {
    pub units: Vec<bool>,
    pub names: Vec<bool>,
    pub trees: Vec<bool>,
    pub numbered: Vec<bool>,
    pub waiting: Vec<Thing>,
}

fn no_marks(alloc: Global, count: usize) -> Result<Vec<bool>, NoMemory>
    ensures { IfOk result (λ marks. marks.items ≡ replicate count false) }
{
    let mut marks = Vec::new(alloc);
    marks.resize(count, false)?;
    Ok(marks)
}

/// Sets a mark, and tells whether it was set.
fn set_mark(marks: &mut Vec<bool>, i: usize) -> bool
    requires { i < length marks.old.items }
    ensures was { result ≡ slice_index_or marks.old.items i false }
    ensures set { marks.new.items ≡ slice_set marks.old.items i true }
{
    let was = marks[i];
    marks[i] = true;
    was
}

impl Needs {
    /// Nothing is needed yet, of so many units, names and trees.
    pub fn new(alloc: Global, units: usize, names: usize, trees: usize) -> Result<Needs, NoMemory>
        ensures { IfOk result (λ needs. IsUnmarked needs
            (record { units = units; names = names; trees = trees; numbered = names })) }
    {
        Ok(Needs {
            units: no_marks(alloc, units)?,
            names: no_marks(alloc, names)?,
            trees: no_marks(alloc, trees)?,
            numbered: no_marks(alloc, names)?,
            waiting: Vec::new(alloc),
        })
    }

    /// Marks a thing, and tells whether it was marked.
    fn mark(&mut self, thing: Thing) -> bool
        requires { IsThing (room_of self.old) thing }
        ensures { Marks self.old self.new thing result }
    {
        match thing {
            Thing::Unit(u) => set_mark(&mut self.units, u as usize),
            Thing::Name(n) => set_mark(&mut self.names, n as usize),
            Thing::Tree(e) => set_mark(&mut self.trees, e as usize),
            Thing::Numbered(n) => set_mark(&mut self.numbered, n as usize),
        }
    }

    /// A thing is needed.
    pub fn enter(&mut self, thing: Thing) -> Result<(), NoMemory>
        requires { IsThing (room_of self.old) thing }
        ensures { OnOk result (Enters self.old self.new (thing ∷ [])) }
    {
        if self.mark(thing) {
            return Ok(());
        }
        self.waiting.push(thing)?;
        Ok(())
    }

    /// These things are needed.
    pub fn enter_all(&mut self, things: &[Thing]) -> Result<(), NoMemory>
        requires { All (IsThing (room_of self.old)) things.now }
        ensures { OnOk result (Enters self.old self.new things.now) }
    {
        for thing in things {
            self.enter(*thing)?;
        }
        Ok(())
    }
}
