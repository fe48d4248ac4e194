//! A caller's pass.

ghost use Rattle.std.specs.Prelude.{◌≡◌, ◌+◌, ◌≤◌, length, take, map, OnOk};
ghost use Rattle.lk_env.specs.Units.{library_of};
ghost use Rattle.lk_verdict.specs.Held.{verdict};
ghost use Rattle.lk_session.specs.Texts.{units_of};
ghost use Rattle.lk_session.specs.Reading.{AreBehind};
ghost use Rattle.lk_session.specs.Answers.{AreFrom};

use crate::caller::Caller;
use crate::checking::check_each;
use crate::list_reader::ListReader;
use crate::room::Room;
use crate::texts::{Reads, Text};
use lk_env::library::Library;
use lk_port::Gate;
use lk_store::memory::NoMemory;
use lk_verdict::{Checks, Verdict};
use std::alloc::Global;
use std::marker::{Model, PhantomData};

/// What a caller's thread has of a session. Contracts see it as what it knows, and of how many
/// submissions its library has the units.
#[derive(Drop)]
pub struct Pass<B: Room, T: Reads> {
    pub(crate) caller: Caller<B>,
    pub(crate) reader: ListReader,
    pub(crate) texts: PhantomData<T>,
}

impl<B: Room, T: Reads> Model for Pass<B, T> {
    ghost use Rattle.lk_session.specs.Reading.{PassState, HasRead};

    ghost Value = { PassState };

    ghost view = { λ p. record { known = p.caller; read = p.reader.count } };

    ghost invariant = { λ p. HasRead T.stated p.caller.seen p.reader };
}

impl<B: Room, T: Reads> Pass<B, T> {
    /// The library of the list's first submissions, as many as it has read.
    pub fn library(&self) -> &Library
        ensures within { self.now.read ≤ length self.now.known.seen }
        ensures units { library_of result.now
            ≡ units_of T.stated (take self.now.read self.now.known.seen) }
    {
        &self.reader.library
    }

    /// Of how many of the list's submissions its library has the units.
    pub fn read(&self) -> usize
        ensures { result ≡ self.now.read }
    {
        self.reader.count
    }

    /// Reads the texts of the list that it has not read yet. Where memory is wanting, some of them
    /// are read.
    pub(crate) fn catch_up(&mut self, alloc: Global, texts: &[Text]) -> Result<(), NoMemory>
        requires { AreBehind T.stated self.old.read self.old.known.seen texts.now }
        ensures known { self.new.known ≡ self.old.known }
        ensures read { OnOk result (self.new.read ≡ length self.old.known.seen) }
    {
        self.reader.catch_up::<T>(alloc, texts)
    }

    /// Reads the texts of the list that it has not read yet, and checks the units from the first
    /// on, one after another. Where memory is wanting for the texts, no unit is checked.
    pub(crate) fn answer<C: Checks, G: Gate>(
        &mut self,
        alloc: Global,
        checks: &C,
        gate: &G,
        texts: &[Text],
        first: u32,
        verdicts: &mut Vec<Verdict>,
    )
        requires behind { AreBehind T.stated self.old.read self.old.known.seen texts.now }
        requires within { first + length verdicts.old.items
            ≤ length (units_of T.stated self.old.known.seen) }
        requires few { length (units_of T.stated self.old.known.seen) ≤ 65536 }
        requires given { AreFrom (units_of T.stated self.old.known.seen) (C.budget_of checks.now)
            first (map verdict verdicts.old.items) }
        ensures known { self.new.known ≡ self.old.known }
        ensures count { length verdicts.new.items ≡ length verdicts.old.items }
        ensures each { AreFrom (units_of T.stated self.old.known.seen) (C.budget_of checks.now)
            first (map verdict verdicts.new.items) }
    {
        let Ok(()) = self.catch_up(alloc, texts) else {
            return;
        };
        let library = self.library();
        check_each(alloc, checks, gate, library, first, verdicts);
    }
}
