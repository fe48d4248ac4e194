//! Workers in threads, and what they did put together.

ghost use Rattle.std.specs.Prelude.{◌≡◌, ◌+◌, [], IfOk, IfSome, All, true, map, vec_len};
ghost use Rattle.lk_verdict.specs.GoodUnit.{IsClearLibrary};
ghost use Rattle.lk_verdict.specs.Told.{AreVerdicts};
ghost use Rattle.lk_env.specs.Units.{library_of};
ghost use Rattle.lk_desk.specs.Job.{Job, job_of, units_of};
ghost use Rattle.lk_desk.specs.Rule.{HasEach};
ghost use Rattle.lk_desk.specs.Seats.{view, job, IsNew, Sits};
ghost use Rattle.lk_verdict.specs.Held.{verdict};
ghost use Rattle.leancheck.specs.Drawn.{AreRight, numbers, unit_budget};
ghost use Rattle.leancheck.specs.Workers.{IsDone, IsIdle, IsWorkerSeat, IsWhole};

use crate::order::{UnitVerdict, blank, fill};
use crate::worker::{Done, Settings, WorkerSeat, work};
use lk_command::Options;
use lk_desk::{Desk, Seat};
use lk_engine::{AnswerDesk, Share};
use lk_env::library::Library;
use lk_port::Gate;
use lk_store::memory::NoMemory;
use lk_verdict::Verdict;
use std::alloc::Global;
use std::thread;
use std::thread::Threads;

/// A verdict for each unit, in their order, with the answers that they come from.
#[derive(Drop)]
pub struct Report {
    pub verdicts: Vec<Verdict>,
    pub answers: Vec<UnitVerdict>,
    /// Some worker went on until there was no unit left, and every seat came back.
    pub ended: bool,
}

/// One more share in the answers of others, where there is one.
fn share_of<'a>(share: &mut Option<Share<'a>>) -> Option<Share<'a>>
    ensures { (j : Job) → IfSome share.old (λ s. s.job ≡ j)
        → IfSome share.new (λ s. s.job ≡ j) × IfSome result (λ s. s.job ≡ j) }
{
    match share {
        None => None,
        Some(first) => first.split(),
    }
}

/// Seats for so many workers, or for as many as there are. They share answers where a share is
/// given.
fn seats_for<'a>(
    alloc: Global,
    desk: &Desk,
    first: &mut Seat,
    share: &mut Option<Share<'a>>,
    workers: u32,
) -> Result<Vec<WorkerSeat<'a>>, NoMemory>
    requires first { IsNew first.old desk.now }
    requires share { IfSome share.old (λ s. s.job ≡ job desk.now) }
    ensures first { IsIdle first.new desk.now }
    ensures each { IfOk result (λ v. All (IsWorkerSeat desk.now) v.items) }
{
    let mut seats = Vec::new(alloc);
    for _ in 0..workers {
        let Some(seat) = desk.split(first) else {
            return Ok(seats);
        };
        let share = share_of(share);
        seats.push(WorkerSeat { seat, share })?;
    }
    Ok(seats)
}

/// As many workers as seats, each in a thread where one can be made, with what they did.
fn run_workers<R: Threads + Sync, G: Gate>(
    rt: &R,
    alloc: Global,
    library: &Library,
    settings: Settings,
    desk: &Desk,
    seats: Vec<WorkerSeat<'_>>,
    gate: &G,
) -> Result<Vec<Done>, NoMemory>
    requires seats { All (IsWorkerSeat desk.now) seats.items }
    requires job { job desk.now ≡ job_of library.now }
    ensures count { IfOk result (λ v. vec_len v ≡ vec_len seats.entry) }
    ensures each { IfOk result (λ v. All (IsDone library.now settings.steps desk.now) v.items) }
{
    let all = thread::map_vec(
        rt,
        seats,
        &|at| -> Done
            requires { IsWorkerSeat desk.now at × (job desk.now ≡ job_of library.now) }
            ensures { IsDone library.entry.now settings.steps desk.entry.now result }
        { work(alloc, library, settings, desk, at, gate) },
    )?;
    Ok(all)
}

/// Joins all seats, and puts the answers together.
fn gather(
    alloc: Global,
    library: &Library,
    steps: u128,
    desk: &Desk,
    first: &mut Seat,
    mut all: Vec<Done>,
) -> Result<Vec<UnitVerdict>, NoMemory>
    requires first { IsIdle first.old desk.now }
    requires each { All (IsDone library.now steps desk.now) all.items }
    ensures sits { IfOk result (λ v. Sits first.new desk.now) }
    ensures drawn { IfOk result (λ v. (view first.new).drawn ≡ numbers v.items) }
    ensures seats { IfOk result (λ v. (view first.new).seats ≡ 1 + vec_len all) }
    ensures right { IfOk result (λ v. AreRight library.now steps v.items) }
{
    let mut answers = Vec::new(alloc);
    while let Some(one) = all.pop() {
        let Done {
            seat,
            answers: mut more,
        } = one;
        answers.append(&mut more)?;
        desk.join(first, seat);
    }
    Ok(answers)
}

/// Whether the seat, which came from so many, came from all that were made, and draws no more. Then
/// it drew each unit, once.
fn drew_all(desk: &Desk, seat: &mut Seat, count: u64) -> bool
    requires sits { Sits seat.old desk.now }
    requires seats { (view seat.old).seats ≡ count }
    ensures { result ≡ true → HasEach (view seat.old) (units_of (job desk.now)) }
{
    seat.has_ended() && desk.seats_made(seat) == count
}

/// One verdict for each unit, in their order, by workers at these seats. Where a worker went on
/// until there was no unit left, each unit stands among the answers once, whoever drew it; and what
/// no worker drew says memory.
fn check_at<R: Threads + Sync, G: Gate>(
    rt: &R,
    alloc: Global,
    library: &Library,
    settings: Settings,
    desk: &Desk,
    first: &mut Seat,
    seats: Vec<WorkerSeat<'_>>,
    gate: &G,
) -> Result<Report, NoMemory>
    requires first { IsIdle first.old desk.now }
    requires seats { All (IsWorkerSeat desk.now) seats.items }
    requires job { job desk.now ≡ job_of library.now }
    ensures { IfOk result (IsWhole library.now settings.steps) }
{
    let mut verdicts = blank(alloc, library.units().len())?;
    let count = seats.len() as u64 + 1;
    let all = run_workers(rt, alloc, library, settings, desk, seats, gate)?;
    let answers = gather(alloc, library, settings.steps, desk, first, all)?;
    let ended = drew_all(desk, first, count);
    fill(&mut verdicts, answers.as_slice());
    Ok(Report {
        verdicts,
        answers,
        ended,
    })
}

/// The same by workers that have yet to be seated, with a share in each other's answers if one is
/// given.
fn check_by<'a, R: Threads + Sync, G: Gate>(
    rt: &R,
    alloc: Global,
    library: &Library,
    settings: Settings,
    share: &mut Option<Share<'a>>,
    gate: &G,
) -> Result<Report, NoMemory>
    requires { IfSome share.old (λ s. s.job ≡ job_of library.now) }
    ensures { IfOk result (IsWhole library.now settings.steps) }
{
    let (desk, mut first) = Desk::new(alloc, library)?;
    let seats = seats_for(alloc, &desk, &mut first, share, settings.workers)?;
    check_at(rt, alloc, library, settings, &desk, &mut first, seats, gate)
}

/// The same by as many workers as the settings say: a single one shares no answers, and has no desk
/// for them.
pub(crate) fn check_with<R: Threads + Sync, G: Gate>(
    rt: &R,
    alloc: Global,
    library: &Library,
    settings: Settings,
    gate: &G,
) -> Result<Report, NoMemory>
    ensures { IfOk result (IsWhole library.now settings.steps) }
{
    if settings.workers <= 1 {
        return check_by(rt, alloc, library, settings, &mut None, gate);
    }
    let (answers, seat) = AnswerDesk::new(alloc, library)?;
    let mut share = Some(Share::new(&answers, seat));
    check_by(rt, alloc, library, settings, &mut share, gate)
}

/// The verdicts of the units, in their order, by so many workers; the questions of each unit may
/// take so many steps, or fewer by its own budget, and each worker keeps at most so many answers. A
/// unit that no worker drew says memory. Which axioms are allowed is not asked here.
pub(crate) fn check_all<R: Threads + Sync, G: Gate>(
    rt: &R,
    alloc: Global,
    library: &Library,
    options: Options<'_>,
    gate: &G,
) -> Result<Vec<Verdict>, NoMemory>
    ensures { IfOk result (λ v. IsClearLibrary (library_of library.now)
        → AreVerdicts (library_of library.now) (unit_budget library.now options.entry.steps)
        (map verdict v.items)) }
{
    gate.begins(library.units().len() as u64);
    let settings = Settings {
        steps: options.steps,
        kept: options.memo,
        workers: options.workers,
    };
    let report = check_with(rt, alloc, library, settings, gate)?;
    Ok(report.verdicts)
}
