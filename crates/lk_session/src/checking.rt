//! Units checked one after another, by their numbers.

ghost use Rattle.std.specs.Prelude.{◌≡◌, ◌+◌, ◌<◌, ◌≤◌, length, map, replicate, IfOk};
ghost use Rattle.std.specs.List.{range_with_len};
ghost use Rattle.lk_env.specs.Units.{library_of};
ghost use Rattle.lk_verdict.specs.Told.{IsPlainVerdict};
ghost use Rattle.lk_verdict.specs.Held.{verdict};
ghost use Rattle.lk_verdict.specs.declared.verdict.Verdict.TheVariants.{Memory};
ghost use Rattle.lk_session.specs.Answers.{AreFrom};

use lk_env::library::Library;
use lk_port::Gate;
use lk_store::memory::NoMemory;
use lk_verdict::{Checks, Verdict};
use std::alloc::Global;

/// Want of memory, so often.
pub(crate) fn unanswered(alloc: Global, count: usize) -> Result<Vec<Verdict>, NoMemory>
    ensures { IfOk result (λ vs. vs.items ≡ replicate count Memory) }
{
    let mut verdicts = Vec::new(alloc);
    verdicts.resize(count, Verdict::Memory)?;
    Ok(verdicts)
}

/// The verdict of a unit.
fn check_unit<C: Checks>(alloc: Global, checks: &C, library: &Library, number: u32) -> Verdict
    requires { number < length (library_of library.now) }
    ensures { IsPlainVerdict (library_of library.now) (C.budget_of checks.now) number
        (verdict result) }
{
    let Ok(answers) = checks.check_some(alloc, library, &[number]) else {
        return Verdict::Memory;
    };
    match answers.first() {
        Some(verdict) => *verdict,
        None => Verdict::Memory,
    }
}

/// So many numbers, from the first on.
fn numbers_from(alloc: Global, first: u32, count: usize) -> Result<Vec<u32>, NoMemory>
    requires { first + count ≤ 65536 }
    ensures { IfOk result (λ ns. ns.items ≡ range_with_len first count) }
{
    let mut numbers = Vec::with_capacity(alloc, count)?;
    for k in 0..count {
        numbers.push(first + k as u32)?;
    }
    Ok(numbers)
}

/// The verdicts of so many units from the first on, by one call of whoever checks.
fn check_together<C: Checks>(
    alloc: Global,
    checks: &C,
    library: &Library,
    first: u32,
    count: usize,
) -> Result<Vec<Verdict>, NoMemory>
    requires within { first + count ≤ length (library_of library.now) }
    requires few { length (library_of library.now) ≤ 65536 }
    ensures count { IfOk result (λ vs. length vs.items ≡ count) }
    ensures each { IfOk result (λ vs. AreFrom (library_of library.now) (C.budget_of checks.now) first
        (map verdict vs.items)) }
{
    let numbers = numbers_from(alloc, first, count)?;
    checks.check_some(alloc, library, &numbers)
}

/// Checks the units from the first on, one after another.
fn check_one_by_one<C: Checks>(
    alloc: Global,
    checks: &C,
    library: &Library,
    first: u32,
    verdicts: &mut Vec<Verdict>,
)
    requires within { first + length verdicts.old.items ≤ length (library_of library.now) }
    requires few { length (library_of library.now) ≤ 65536 }
    requires given { AreFrom (library_of library.now) (C.budget_of checks.now) first
        (map verdict verdicts.old.items) }
    ensures count { length verdicts.new.items ≡ length verdicts.old.items }
    ensures each { AreFrom (library_of library.now) (C.budget_of checks.now) first
        (map verdict verdicts.new.items) }
{
    for k in 0..verdicts.len() {
        verdicts[k] = check_unit(alloc, checks, library, first + k as u32);
    }
}

/// Checks the units from the first on: in one call, in which what one unit needs is kept for the
/// next; where memory is wanting for all of them, one after another, so that it is wanting for those
/// alone for which it is.
pub(crate) fn check_each<C: Checks, G: Gate>(
    alloc: Global,
    checks: &C,
    gate: &G,
    library: &Library,
    first: u32,
    verdicts: &mut Vec<Verdict>,
)
    requires within { first + length verdicts.old.items ≤ length (library_of library.now) }
    requires few { length (library_of library.now) ≤ 65536 }
    requires given { AreFrom (library_of library.now) (C.budget_of checks.now) first
        (map verdict verdicts.old.items) }
    ensures count { length verdicts.new.items ≡ length verdicts.old.items }
    ensures each { AreFrom (library_of library.now) (C.budget_of checks.now) first
        (map verdict verdicts.new.items) }
{
    for k in 0..verdicts.len() {
        gate.before_unit(first + k as u32);
    }
    match check_together(alloc, checks, library, first, verdicts.len()) {
        Ok(all) => *verdicts = all,
        Err(_) => check_one_by_one(alloc, checks, library, first, verdicts),
    }
}
