//! What is told of a library and changes of it, part by part.

ghost use Rattle.std.specs.Prelude.{◌≡◌, ◌++◌, ℕ, List, [], true, IfOk, OnOk, Ok};
ghost use Rattle.lk_rulebook.specs.Spelled.{library_spelled};
ghost use Rattle.lk_store.specs.Store.{contents_of};
ghost use Rattle.lk_env.specs.Units.{library_at, library_of, AreUnitsIn};
ghost use Rattle.lk_book.specs.File.{rounds_of};
ghost use Rattle.lk_book.specs.Reading.{ArePartsIn, AreStated, parts_at};
ghost use Rattle.lk_axioms.specs.Lists.{axiom_lists, KeepsAxioms};
ghost use Rattle.lk_text.specs.Text.{checked_line, report_text};
ghost use Rattle.lk_recheck.specs.Rounds.{IsKept};
ghost use Rattle.leancheck.specs.Ends.{GivesRechecked, IsChecked};
ghost use Rattle.leancheck.specs.Telling.{IsTelling, TellsMore};

use crate::status::{Status, status_of};
use lk_axioms::{AxiomSets, uses_again};
use lk_book::Rounds;
use lk_env::unit::Unit;
use lk_port::Gate;
use lk_recheck::Recheck;
use lk_store::memory::NoMemory;
use lk_text::{add_checked, report};
use lk_verdict::Checks;
use std::alloc::Global;
use std::mem::replace;

/// What was told so far, and the library of the last part with its axioms.
#[derive(Drop)]
struct Telling {
    recheck: Recheck,
    axioms: AxiomSets,
    text: Vec<u8>,
}

impl Telling {
    /// Nothing was told yet, and there are no units.
    fn new(alloc: Global, recheck: Recheck) -> Result<Telling, NoMemory>
        requires { library_of recheck.library ≡ [] }
        ensures recheck { IfOk result (λ t. t.recheck ≡ recheck) }
        ensures axioms { IfOk result (λ t. IsTelling recheck.budget t) }
        ensures text { IfOk result (λ t. t.text.items ≡ []) }
    {
        let axioms = AxiomSets::none(alloc)?;
        Ok(Telling {
            recheck,
            axioms,
            text: Vec::new(alloc),
        })
    }

    /// Appends the lines of the library's units, and how many of them were checked.
    fn add_report(&mut self, alloc: Global, count: u32) -> Result<(), NoMemory>
        requires { self.old.axioms ≡ axiom_lists (library_of self.old.recheck.library) }
        ensures recheck { self.new.recheck ≡ self.old.recheck }
        ensures kept { OnOk result (IsKept self.old.recheck) }
        ensures axioms { self.new.axioms ≡ self.old.axioms }
        ensures text { OnOk result (self.new.text.items ≡ self.old.text.items
            ++ (report_text (library_of self.old.recheck.library) self.old.recheck.verdicts
            ++ checked_line count)) }
    {
        let verdicts = self.recheck.verdicts();
        let mut lines = report(alloc, self.recheck.library(), &self.axioms, verdicts)?;
        self.text.append(&mut lines)?;
        add_checked(&mut self.text, u64::from(count))
    }

    /// Finds the axioms of the library's units, where those that are known are of the units before.
    fn renew_axioms(&mut self, alloc: Global) -> Result<(), NoMemory>
        requires { KeepsAxioms (library_of self.old.recheck.library) self.old.axioms
            self.old.recheck.stale }
        ensures recheck { self.new.recheck ≡ self.old.recheck }
        ensures axioms { OnOk result (self.new.axioms
            ≡ axiom_lists (library_of self.old.recheck.library)) }
        ensures text { self.new.text ≡ self.old.text }
    {
        let known = replace(&mut self.axioms, AxiomSets::none(alloc)?);
        self.axioms = uses_again(alloc, self.recheck.library(), known, self.recheck.stale())?;
        Ok(())
    }

    /// Goes on to the list that a part leads to, has checked what has to be, and tells of it.
    fn tell_part<C: Checks>(
        &mut self,
        alloc: Global,
        checks: &C,
        part: Vec<Unit>,
    ) -> Result<(), NoMemory>
        requires telling { IsTelling (C.budget_of checks.now) self.old }
        requires part_in { AreUnitsIn (contents_of self.old.recheck.library.tables) part.items }
        requires spelled { library_spelled
            (library_at (contents_of self.old.recheck.library.tables) part.items) ≡ true }
        ensures { OnOk result (TellsMore (C.budget_of checks.now)
            (library_at (contents_of self.old.recheck.library.tables) part.items)
            self.old self.new) }
    {
        let count = self.recheck.round(alloc, checks, part)?;
        self.renew_axioms(alloc)?;
        self.add_report(alloc, count)
    }
}

/// How many units the parts state.
fn units_in(parts: &[Vec<Unit>]) -> u64 {
    let mut units: u64 = 0;
    for part in parts {
        units = units.saturating_add(part.len() as u64);
    }
    units
}

/// What is told of the parts, one after another, and the status.
pub(crate) fn told<C: Checks, G: Gate>(
    alloc: Global,
    rounds: Rounds,
    checks: &C,
    gate: &G,
) -> Result<(Vec<u8>, Status), NoMemory>
    requires known { ArePartsIn rounds }
    requires stated { AreStated rounds }
    ensures gives { (bytes : List ℕ) → rounds_of bytes ≡ Ok (parts_at rounds)
        → GivesRechecked (C.budget_of checks.now) bytes result }
    ensures status { IfOk result (λ r. IsChecked r.1) }
{
    let Rounds { base, mut parts } = rounds;
    gate.begins(units_in(&parts));
    let recheck = Recheck::new(alloc, base, checks.budget())?;
    let mut telling = Telling::new(alloc, recheck)?;
    parts.reverse();
    while let Some(part) = parts.pop() {
        telling.tell_part(alloc, checks, part)?;
    }
    let status = status_of(telling.recheck.verdicts());
    Ok((telling.text, status))
}
