//! A pass for each caller, in a thread of its own.

ghost use Rattle.std.specs.Prelude.{◌≡◌, ◌≤◌, ◌<◌, ◌^◌, length, IfOk, OnOk};
ghost use Rattle.lk_session.specs.Texts.{AreFaultless};
ghost use Rattle.lk_callers.specs.Turns.{AreTurns};
ghost use Rattle.lk_callers.specs.Owned.{bytes_in};
ghost use Rattle.lk_callers.specs.Answered.{AreCalled, AreNew, IsCalled, IsIdle, IsNew};

use crate::calling::Called;
use crate::turns::Turns;
use lk_port::Gate;
use lk_session::{Pass, Reads, Room, Session};
use lk_store::memory::NoMemory;
use lk_verdict::Checks;
use std::alloc::Global;
use std::sync::Wait;
use std::thread;
use std::thread::Threads;

/// So many passes are made at most, by all that split.
const MOST_PASSES: u32 = 65536;

/// A pass that has added no text.
fn idle<B: Room, T: Reads>(alloc: Global, number: u32, pass: Pass<B, T>) -> Called<B, T>
    requires { IsIdle pass.known }
    ensures { IsNew number result }
{
    Called {
        number,
        pass,
        replies: Vec::new(alloc),
        full: false,
    }
}

/// So many more passes, or as many as there are.
fn split_others<B: Room, T: Reads>(
    alloc: Global,
    session: &Session<B, T>,
    pass: &mut Pass<B, T>,
    count: u32,
) -> Result<Vec<Called<B, T>>, NoMemory>
    requires { IsIdle pass.old.known }
    ensures idle { OnOk result (IsIdle pass.new.known) }
    ensures each { IfOk result (λ ps. AreNew ps.items) }
    ensures most { IfOk result (λ ps. length ps.items ≤ count) }
{
    let mut passes = Vec::new(alloc);
    for number in 0..count {
        let Some(other) = session.split(pass) else {
            return Ok(passes);
        };
        passes.push(idle(alloc, number, other))?;
    }
    Ok(passes)
}

/// A pass for each caller, of which the first one is given; or as many as there are.
pub(crate) fn split_passes<B: Room, T: Reads>(
    alloc: Global,
    session: &Session<B, T>,
    first: Pass<B, T>,
    callers: u32,
) -> Result<Vec<Called<B, T>>, NoMemory>
    requires callers { 1 ≤ callers }
    requires first { IsIdle first.known }
    ensures some { IfOk result (λ ps. 1 ≤ length ps.items) }
    ensures each { IfOk result (λ ps. AreNew ps.items) }
    ensures few { IfOk result (λ ps. length ps.items < 2 ^ 32) }
{
    let mut pass = first;
    let mut passes = split_others(alloc, session, &mut pass, callers.min(MOST_PASSES) - 1)?;
    let number = passes.len() as u32;
    passes.push(idle(alloc, number, pass))?;
    Ok(passes)
}

/// Each pass adds its texts, in a thread where one can be made.
pub(crate) fn call_all<B, T, C, G, R>(
    rt: &R,
    session: &Session<B, T>,
    passes: Vec<Called<B, T>>,
    checks: &C,
    gate: &G,
    texts: &[Vec<u8>],
    turns: Turns,
) -> Result<Vec<Result<Called<B, T>, NoMemory>>, NoMemory>
where
    B: Room + Send + Sync,
    T: Reads + Send + Sync,
    C: Checks + Sync,
    G: Gate,
    R: Threads + Wait + Sync,
    requires new { AreNew passes.items }
    requires turns { AreTurns turns }
    requires faultless { AreFaultless T.stated (bytes_in texts.now) }
    ensures count { IfOk result (λ cs. length cs.items ≡ length passes.items) }
    ensures each { IfOk result (λ cs. AreCalled T.stated (bytes_in texts.now) turns
        (C.budget_of checks.now) (length texts.now) cs.items) }
{
    let all = thread::map_vec(
        rt,
        passes,
        &|pass| -> Result<Called<B, T>, NoMemory>
            requires { IsNew pass.number pass × AreTurns turns
                × AreFaultless T.stated (bytes_in texts.now) }
            ensures { IfOk result (IsCalled T.stated (bytes_in texts.entry.now) turns
                (C.budget_of checks.entry.now) (length texts.entry.now) pass.number) }
        { pass.submit_all(rt, session, checks, gate, texts, turns) },
    )?;
    Ok(all)
}
