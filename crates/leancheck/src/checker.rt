//! Whoever checks units on the caller's thread, each under one budget.

ghost use Rattle.std.specs.Prelude.{◌≡◌, ◌<◌, length, map, All, IfOk};
ghost use Rattle.lk_env.specs.Units.{library_of};
ghost use Rattle.lk_verdict.specs.Held.{verdict};
ghost use Rattle.lk_verdict.specs.Checked.{AreChecked};

use crate::checking::check_unit;
use lk_engine::{Alone, Engine, Knowledge, Knows};
use lk_env::library::Library;
use lk_memo::PrivateMemo;
use lk_store::memory::NoMemory;
use lk_verdict::{Checks, Verdict};
use std::alloc::Global;
use std::mem::drop;

/// How many answers are kept on the caller's thread.
pub(crate) const MEMO: u32 = 1 << 16;

/// How many are kept where units are checked one by one: so few that a memo has no slots for what
/// outlasts a unit, which takes longer to make than most units to check.
pub(crate) const MEMO_FOR_ONE: u32 = (1 << 15) - 1;

/// Who is told of each unit that is checked on the caller's thread, as a gate is: a gate may be shared
/// by threads, and this may not.
pub(crate) trait Watch {
    /// A unit is checked next.
    fn before_unit(&self, unit: u32);

    /// A unit was checked; whether it says yes.
    fn after_unit(&self, unit: u32, yes: bool);
}

/// The verdicts of the units of these numbers, in their order.
fn check_each<K: Knows, W: Watch>(
    alloc: Global,
    library: &Library,
    engine: &mut Engine<'_, K>,
    units: &[u32],
    steps: u128,
    watch: &W,
) -> Result<Vec<Verdict>, NoMemory>
    requires library { engine.old.scope.library ≡ library.now }
    requires units { All (λ n. n < length library.now.units) units.now }
    ensures { IfOk result (λ vs. AreChecked (library_of library.now) steps units.now
        (map verdict vs.items)) }
{
    let mut verdicts = Vec::new(alloc);
    for i in 0..units.len() {
        let number = units[i];
        watch.before_unit(number);
        let verdict = check_unit(alloc, library, engine, number, steps);
        watch.after_unit(number, matches!(verdict, Verdict::Yes));
        verdicts.push(verdict)?;
    }
    Ok(verdicts)
}

/// The same on the caller's thread, by a memo and an engine of its own.
fn check_alone<W: Watch>(
    alloc: Global,
    library: &Library,
    units: &[u32],
    steps: u128,
    kept: u32,
    watch: &W,
) -> Result<Vec<Verdict>, NoMemory>
    requires { All (λ n. n < length library.now.units) units.now }
    ensures { IfOk result (λ vs. AreChecked (library_of library.now) steps units.now
        (map verdict vs.items)) }
{
    let Ok(memo) = PrivateMemo::new(alloc, kept) else {
        return Err(NoMemory);
    };
    let mut knowledge = Knowledge::new(alloc, memo, Alone);
    let mut engine = Engine::new(alloc, library, &mut knowledge);
    let verdicts = check_each(alloc, library, &mut engine, units, steps, watch);
    drop(engine);
    verdicts
}

/// One who checks units on the caller's thread, each under so many steps.
#[derive(Clone, Copy)]
pub(crate) struct Checker<'a, W> {
    pub(crate) steps: u128,
    /// How many answers it keeps at most.
    pub(crate) kept: u32,
    pub(crate) watch: &'a W,
}

impl<W: Watch> Checks for Checker<'_, W> {
    ghost budget_of = { λ c. c.steps };

    ghost may_answer = { λ c l numbers answer. IfOk answer (λ vs. AreChecked (library_of l) c.steps
        numbers (map verdict vs.items)) };

    fn budget(&self) -> u128 {
        self.steps
    }

    fn check_some(
        &self,
        alloc: Global,
        library: &Library,
        units: &[u32],
    ) -> Result<Vec<Verdict>, NoMemory> {
        check_alone(alloc, library, units, self.steps, self.kept, self.watch)
    }
}
