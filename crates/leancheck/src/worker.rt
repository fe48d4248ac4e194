//! A worker: it draws units and checks them until there are none, or memory is wanting.

ghost use Rattle.std.specs.Prelude.{◌≡◌, IfSome};
ghost use Rattle.lk_desk.specs.Job.{job_of};
ghost use Rattle.lk_desk.specs.Seats.{job, IsNew, Sits};
ghost use Rattle.leancheck.specs.Drawn.{AreRight, numbers, unit_budget};
ghost use Rattle.leancheck.specs.Workers.{IsPassed, GoesOnDrawing, Draws, IsDone, IsWorkerSeat};

use crate::checking::check_unit;
use crate::order::UnitVerdict;
use lk_desk::{Desk, Seat};
use lk_engine::{Alone, Engine, Knowledge, Knows, Share, Sharing};
use lk_env::library::Library;
use lk_memo::PrivateMemo;
use lk_port::Gate;
use lk_verdict::Verdict;
use std::alloc::Global;
use std::mem::drop;

/// A worker draws at most so many units at once,
const MOST: u64 = 128;

/// and at most one in so many of its equal share of those that are left.
const PART: u64 = 16;

/// How units are checked.
#[derive(Clone, Copy)]
pub struct Settings {
    /// How many steps the questions of one unit may take; a budget of its own may be less.
    pub steps: u128,
    /// How many answers a worker keeps at most.
    pub kept: u32,
    /// How many workers check.
    pub workers: u32,
}

/// Where a worker sits: at the desk at which units are drawn and, where others check too, at one at
/// which answers are shared.
#[derive(Drop)]
pub struct WorkerSeat<'a> {
    pub seat: Seat,
    pub share: Option<Share<'a>>,
}

/// What a worker has done: its seat, and a verdict for each unit that it drew.
#[derive(Drop)]
pub struct Done {
    pub seat: Seat,
    pub answers: Vec<UnitVerdict>,
}

/// Whether a verdict is yes.
fn says_yes(verdict: Verdict) -> bool {
    matches!(verdict, Verdict::Yes)
}

/// How many units one of so many workers draws at once, where so many are left. Neighbours have much
/// in common, so one worker makes for all of them what two would each make. Of the last ones few are
/// drawn at once, since whoever has many of them may end long after the others.
fn at_once(left: u64, workers: u32) -> u64 {
    (left / PART / u64::from(workers.max(1))).clamp(1, MOST)
}

/// Draws one unit, where one is left and there is room for its answer, which says memory until the
/// unit is checked. No number below `passed` is drawn any more; what is returned is the number
/// below which none is drawn from then on.
fn draw_one(desk: &Desk, seat: &mut Seat, answers: &mut Vec<UnitVerdict>, passed: u64) -> u64
    requires sits { Sits seat.old desk.now }
    requires passed { IsPassed passed seat.old }
    ensures { GoesOnDrawing desk.now seat.old seat.new answers.old.items answers.new.items
        passed result }
{
    if answers.try_reserve(1).is_err() {
        return passed;
    }
    match desk.claim(seat) {
        None => passed,
        Some(number) => {
            let verdict = Verdict::Memory;
            answers.push_reserved(UnitVerdict { number, verdict });
            u64::from(number) + 1
        }
    }
}

/// Draws as many units as a worker draws at once, fewer where fewer are left or memory is wanting
/// for one more answer. `passed` and what is returned are as for one unit.
fn draw(
    desk: &Desk,
    seat: &mut Seat,
    answers: &mut Vec<UnitVerdict>,
    passed: u64,
    units: u64,
    workers: u32,
) -> u64
    requires sits { Sits seat.old desk.now }
    requires passed { IsPassed passed seat.old }
    ensures { GoesOnDrawing desk.now seat.old seat.new answers.old.items answers.new.items
        passed result }
{
    // How many are left only the desk can tell.
    let mut next = draw_one(desk, seat, answers, passed);
    for _ in 1..at_once(units.saturating_sub(next), workers) {
        next = draw_one(desk, seat, answers, next);
    }
    next
}

/// The budget of a unit in a run that gives each unit so many steps: its own, where it has one that
/// is less.
pub(crate) fn budget_of(library: &Library, number: u32, steps: u128) -> u128
    ensures { result ≡ unit_budget library.now steps number }
{
    match library.budget(number) {
        Some(own) if u128::from(own) < steps => u128::from(own),
        _ => steps,
    }
}

/// Gives a verdict for each unit among the answers from this place on.
fn check_from<K: Knows, G: Gate>(
    alloc: Global,
    library: &Library,
    engine: &mut Engine<'_, K>,
    answers: &mut Vec<UnitVerdict>,
    place: usize,
    steps: u128,
    gate: &G,
)
    requires library { engine.old.scope.library ≡ library.now }
    requires right { AreRight library.now steps answers.old.items }
    ensures library { engine.new.scope.library ≡ library.now }
    ensures numbers { numbers answers.new.items ≡ numbers answers.old.items }
    ensures right { AreRight library.now steps answers.new.items }
{
    for i in place..answers.len() {
        let number = answers[i].number;
        gate.before_unit(number);
        let budget = budget_of(library, number, steps);
        let verdict = check_unit(alloc, library, engine, number, budget);
        gate.after_unit(number, says_yes(verdict));
        answers[i].verdict = verdict;
    }
}

/// Draws units, and gives a verdict for each.
fn draw_all<K: Knows, G: Gate>(
    alloc: Global,
    library: &Library,
    engine: &mut Engine<'_, K>,
    desk: &Desk,
    seat: &mut Seat,
    settings: Settings,
    gate: &G,
) -> Vec<UnitVerdict>
    requires library { engine.old.scope.library ≡ library.now }
    requires sits { Sits seat.old desk.now }
    requires job { job desk.now ≡ job_of library.now }
    ensures { Draws library.now settings.steps desk.now seat.old seat.new result.items }
{
    let units = library.units().len() as u64;
    let mut answers = Vec::new(alloc);
    let mut passed = 0;
    loop {
        let place = answers.len();
        passed = draw(desk, seat, &mut answers, passed, units, settings.workers);
        if answers.len() == place {
            return answers;
        }
        check_from(
            alloc,
            library,
            engine,
            &mut answers,
            place,
            settings.steps,
            gate,
        );
    }
}

/// Gives a verdict for each unit that a new seat draws, by a memo and an engine of the worker's
/// own, whether it shares answers or not.
fn work_by<S: Sharing + Drop, G: Gate>(
    alloc: Global,
    library: &Library,
    settings: Settings,
    desk: &Desk,
    mut seat: Seat,
    share: S,
    gate: &G,
) -> Done
    requires seat { IsNew seat desk.now }
    requires share { IfSome (S.shared share) (λ s. s.job ≡ job desk.now) }
    requires job { job desk.now ≡ job_of library.now }
    ensures { IsDone library.now settings.steps desk.now result }
{
    let Ok(memo) = PrivateMemo::new(alloc, settings.kept) else {
        let answers = Vec::new(alloc);
        return Done { seat, answers };
    };
    let mut knowledge = Knowledge::new(alloc, memo, share);
    let mut engine = Engine::new(alloc, library, &mut knowledge);
    let answers = draw_all(alloc, library, &mut engine, desk, &mut seat, settings, gate);
    drop(engine);
    Done { seat, answers }
}

/// Gives a verdict for each unit that a new seat draws. Here alone it is told apart who shares
/// answers.
pub(crate) fn work<G: Gate>(
    alloc: Global,
    library: &Library,
    settings: Settings,
    desk: &Desk,
    at: WorkerSeat<'_>,
    gate: &G,
) -> Done
    requires at { IsWorkerSeat desk.now at }
    requires job { job desk.now ≡ job_of library.now }
    ensures { IsDone library.now settings.steps desk.now result }
{
    let WorkerSeat { seat, share } = at;
    match share {
        None => work_by(alloc, library, settings, desk, seat, Alone, gate),
        Some(share) => work_by(alloc, library, settings, desk, seat, share, gate),
    }
}
