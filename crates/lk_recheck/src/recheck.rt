//! Verdicts kept over changes of a library.

ghost use Rattle.std.specs.Prelude.{◌≡◌, ◌<◌, ◌^◌, ◌↔◌, IsTrue, true, false, [], length, map, All};
ghost use Rattle.std.specs.Prelude.{IfOk, OnOk, OnErr};
ghost use Rattle.std.specs.List.Sorted.{IsStrictlyIncreasing};
ghost use Rattle.lk_rulebook.specs.Spelled.{library_spelled};
ghost use Rattle.lk_store.specs.Store.{contents_of};
ghost use Rattle.lk_env.specs.Units.{library_at, library_of, AreUnitsIn};
ghost use Rattle.lk_verdict.specs.Told.{out_of_memory};
ghost use Rattle.lk_verdict.specs.Held.{verdict};
ghost use Rattle.lk_recheck.specs.Spliced.{next_list};
ghost use Rattle.lk_recheck.specs.Rounds.{ArePlain, AreHandedOn, IsCount, IsKept, KeepVerdicts};
ghost use Rattle.lk_recheck.specs.Stale.{MarksStale};
ghost use Rattle.lk_recheck.specs.Plans.{kept_verdict, IsUnitMore, IsPlanTo, IsPlan, ArePut, IsAnswered};

use crate::building::{StoreLinks, store_links};
use crate::splicing::splice;
use crate::stale::stale_units;
use lk_env::library::Library;
use lk_env::unit::Unit;
use lk_store::base_store::BaseStore;
use lk_store::memory::NoMemory;
use lk_verdict::{Checks, Verdict};
use std::alloc::Global;
use std::marker::Model;
use std::mem::drop;

/// The library of the last round, and the verdicts of its units under one budget.
pub struct Recheck {
    budget: u128,
    /// Whether there was a round.
    begun: bool,
    library: Library,
    /// What the library's store leads to, by itself.
    links: StoreLinks,
    verdicts: Vec<Verdict>,
    /// Of which units something in their closure changed in the last round.
    stale: Vec<bool>,
}

impl Model for Recheck {
    ghost use Rattle.lk_recheck.specs.Built.{AreLinksOf};
    ghost use Rattle.lk_recheck.specs.Rounds.{Kept, IsKept};
    ghost use Rattle.std.specs.Prelude.{map};
    ghost use Rattle.lk_verdict.specs.Held.{verdict};

    ghost Value = { Kept };

    ghost view = { λ r. record {
      budget = r.budget;
      begun = r.begun;
      library = r.library;
      verdicts = map verdict r.verdicts.items;
      stale = r.stale.items;
    } };

    ghost invariant = { λ r. IsKept (record {
      budget = r.budget;
      begun = r.begun;
      library = r.library;
      verdicts = map verdict r.verdicts.items;
      stale = r.stale.items;
    }) × AreLinksOf r.library.tables r.links };
}

impl Drop for Recheck {
    fn drop(self) {
        let Recheck {
            budget: _,
            begun: _,
            library,
            links,
            verdicts,
            stale,
        } = self;
        drop(library);
        drop(links);
        drop(verdicts);
        drop(stale);
    }
}

/// Which units are to be checked, and for each unit the verdict that it keeps, or memory where it is
/// to be checked.
#[derive(Drop)]
struct Plan {
    numbers: Vec<u32>,
    verdicts: Vec<Verdict>,
}

/// What a round begins with: its plan, and the marks that it was made by.
#[derive(Drop)]
struct Round {
    stale: Vec<bool>,
    plan: Plan,
}

/// The verdict that the unit keeps, and memory where it keeps none.
fn kept_verdict(verdicts: &[Verdict], unit: usize, is_stale: bool) -> Verdict
    ensures { verdict result ≡ kept_verdict (map verdict verdicts.now) unit is_stale }
{
    if is_stale {
        return Verdict::Memory;
    }
    match verdicts.get(unit) {
        Some(verdict) => *verdict,
        None => Verdict::Memory,
    }
}

fn is_memory(said: Verdict) -> bool
    ensures { IsTrue result ↔ (verdict said ≡ out_of_memory) }
{
    matches!(said, Verdict::Memory)
}

/// One unit more: it is to be checked where it keeps no verdict.
fn add_unit(plan: &mut Plan, kept: Verdict, unit: u32) -> Result<(), NoMemory>
    ensures { OnOk result (IsUnitMore (verdict kept) unit plan.old.numbers.items
        plan.new.numbers.items (map verdict plan.old.verdicts.items)
        (map verdict plan.new.verdicts.items)) }
{
    plan.verdicts.push(kept)?;
    if is_memory(kept) {
        Ok(plan.numbers.push(unit)?)
    } else {
        Ok(())
    }
}

/// Which units are to be checked: those that are marked, and those whose verdict is memory. Where
/// there are 2^32 units it is want of memory.
fn plan_of(alloc: Global, stale: &[bool], verdicts: &[Verdict]) -> Result<Plan, NoMemory>
    ensures few { IfOk result (λ _. length stale.now < 2 ^ 32) }
    ensures plan { IfOk result (λ p. IsPlanTo stale.now (map verdict verdicts.now)
        (length stale.now) p.numbers.items (map verdict p.verdicts.items)) }
{
    if stale.len() > u32::MAX as usize {
        return Err(NoMemory);
    }
    let mut plan = Plan {
        numbers: Vec::new(alloc),
        verdicts: Vec::new(alloc),
    };
    for (i, is_stale) in stale.iter().enumerate() {
        add_unit(&mut plan, kept_verdict(verdicts, i, *is_stale), i as u32)?;
    }
    Ok(plan)
}

/// Puts each verdict at its number.
fn put_verdicts(verdicts: &mut Vec<Verdict>, numbers: &[u32], answers: &[Verdict])
    requires within { All (λ n. n < length verdicts.old.items) numbers.now }
    requires rising { IsStrictlyIncreasing numbers.now }
    requires as_many { length answers.now ≡ length numbers.now }
    ensures { ArePut numbers.now (map verdict answers.now) (map verdict verdicts.old.items)
        (map verdict verdicts.new.items) }
{
    for i in 0..numbers.len() {
        verdicts[numbers[i] as usize] = answers[i];
    }
}

impl Recheck {
    /// No round was yet: the library has no units. Whatever is checked is checked under this budget.
    pub fn new(alloc: Global, base: BaseStore, budget: u128) -> Result<Recheck, NoMemory>
        ensures { IfOk result (λ r. (r.budget ≡ budget) × (r.begun ≡ false)
            × (r.library ≡ record { tables = base; units = []; budgets = [] })
            × (r.verdicts ≡ [])) }
    {
        let links = store_links(alloc, &base)?;
        let library = Library::new(alloc, base, Vec::new(alloc), Vec::new(alloc))?;
        Ok(Recheck {
            budget,
            begun: false,
            library,
            links,
            verdicts: Vec::new(alloc),
            stale: Vec::new(alloc),
        })
    }

    /// The library of the last round.
    pub fn library(&self) -> &Library
        ensures { result.now ≡ self.now.library }
    {
        &self.library
    }

    /// The verdicts of the library's units, in their order, each the plain one under the budget, or
    /// memory.
    pub fn verdicts(&self) -> &[Verdict]
        ensures value { map verdict result.now ≡ self.now.verdicts }
        ensures kept { IsKept self.now }
    {
        self.verdicts.as_slice()
    }

    /// For each unit of the library whether something of its closure changed in the last round, or the
    /// unit is new.
    pub fn stale(&self) -> &[bool]
        ensures { result.now ≡ self.now.stale }
    {
        self.stale.as_slice()
    }

    /// The units behind a part.
    fn next_units(&self, alloc: Global, part: Vec<Unit>) -> Result<Vec<Unit>, NoMemory>
        requires { AreUnitsIn (contents_of self.now.library.tables) part.items }
        ensures known { IfOk result (λ us.
            AreUnitsIn (contents_of self.now.library.tables) us.items) }
        ensures list { IfOk result (λ us. library_at (contents_of self.now.library.tables) us.items
            ≡ next_list self.now.begun (library_of self.now.library)
            (library_at (contents_of self.now.library.tables) part.items)) }
    {
        if self.begun {
            splice(alloc, self.library.base(), self.library.units(), part)
        } else {
            Ok(part)
        }
    }

    /// What a round with these units begins with.
    fn plan(&self, alloc: Global, units: &[Unit]) -> Result<Round, NoMemory>
        requires { AreUnitsIn (contents_of self.now.library.tables) units.now }
        ensures plan { IfOk result (λ r. IsPlan (library_of self.now.library)
            (library_at (contents_of self.now.library.tables) units.now) self.now.verdicts
            r.plan.numbers.items (map verdict r.plan.verdicts.items)) }
        ensures stale { IfOk result (λ r. MarksStale (library_of self.now.library)
            (library_at (contents_of self.now.library.tables) units.now) r.stale.items) }
    {
        let base = self.library.base();
        let stale = stale_units(alloc, base, &self.links, self.library.units(), units)?;
        let plan = plan_of(alloc, &stale, &self.verdicts)?;
        Ok(Round { stale, plan })
    }

    /// Checks the units of these numbers. Where memory is wanting for it, they say memory.
    fn check<C: Checks>(&mut self, alloc: Global, checks: &C, numbers: &[u32])
        requires budget { C.budget_of checks.now ≡ self.old.budget }
        requires numbers { All (λ n. n < length self.old.library.units) numbers.now }
        requires rising { IsStrictlyIncreasing numbers.now }
        ensures budget { self.new.budget ≡ self.old.budget }
        ensures begun { self.new.begun ≡ self.old.begun }
        ensures library { self.new.library ≡ self.old.library }
        ensures stale { self.new.stale ≡ self.old.stale }
        ensures plain { ArePlain (library_of self.new.library) self.new.budget self.new.verdicts }
        ensures answered { IsAnswered (C.may_answer checks.now self.old.library) numbers.now
            self.old.verdicts self.new.verdicts }
    {
        match checks.check_some(alloc, &self.library, numbers) {
            Ok(answers) => put_verdicts(&mut self.verdicts, numbers, &answers),
            Err(_) => {}
        }
    }

    /// Goes on to the list behind a part, and has each unit checked whose verdict may be another one:
    /// the unit itself, or a unit that it rests on, is new, changed or gone; or its verdict is memory.
    /// The others keep their verdicts. It answers how many units were handed on to be checked. Where
    /// memory is wanting before that, all stays as it was; where it is wanting while units are
    /// checked, these say memory.
    pub fn round<C: Checks>(
        &mut self,
        alloc: Global,
        checks: &C,
        part: Vec<Unit>,
    ) -> Result<u32, NoMemory>
        requires budget { C.budget_of checks.now ≡ self.old.budget }
        requires part_in { AreUnitsIn (contents_of self.old.library.tables) part.items }
        requires spelled { library_spelled
            (library_at (contents_of self.old.library.tables) part.items) ≡ true }
        ensures budget { self.new.budget ≡ self.old.budget }
        ensures begun { OnOk result (self.new.begun ≡ true) }
        ensures base { self.new.library.tables ≡ self.old.library.tables }
        ensures list { OnOk result (library_of self.new.library ≡ next_list self.old.begun
            (library_of self.old.library)
            (library_at (contents_of self.old.library.tables) part.items)) }
        ensures stale { OnOk result (MarksStale (library_of self.old.library)
            (library_of self.new.library) self.new.stale) }
        ensures count { IfOk result (IsCount (library_of self.old.library)
            (library_of self.new.library) self.old.verdicts) }
        ensures handed_on { OnOk result (AreHandedOn (C.may_answer checks.now self.new.library)
            (library_of self.old.library) (library_of self.new.library) self.old.verdicts
            self.new.verdicts) }
        ensures kept { OnOk result (KeepVerdicts (library_of self.old.library)
            (library_of self.new.library) self.old.verdicts self.new.verdicts) }
        ensures plain { OnOk result (ArePlain (library_of self.new.library) self.new.budget
            self.new.verdicts) }
        ensures err { OnErr result (self.new ≡ self.old) }
    {
        let units = self.next_units(alloc, part)?;
        let Round { stale, plan } = self.plan(alloc, &units)?;
        let Plan { numbers, verdicts } = plan;
        self.library.replace_units(alloc, units)?;
        self.verdicts = verdicts;
        self.stale = stale;
        self.begun = true;
        let count = numbers.len() as u32;
        self.check(alloc, checks, &numbers);
        Ok(count)
    }
}
