//! The sections of a file with derivations, tested unit by unit.

ghost use Rattle.std.specs.Prelude.{◌≡◌, ◌≢◌, ◌⊎◌, ℕ, List, map, IfSome, IfOk, Ok, Err};
ghost use Rattle.std.specs.Io.KnownBytes.{Appends};
ghost use Rattle.lk_env.specs.Units.{library_of};
ghost use Rattle.lk_port.specs.Bytes.{Rose};
ghost use Rattle.lk_lines.specs.declared.line.Fault.{Fault as LineFault};
ghost use Rattle.lk_trace.specs.Files.{sections_of, AreSectionsIn, AreRising};
ghost use Rattle.lk_trace.specs.Outcomes.{outcome_at};
ghost use Rattle.lk_traced.specs.Held.{trace_at};
ghost use Rattle.lk_traced.specs.Trace.{trace_of};
ghost use Rattle.lk_text.specs.Text.{bad_line};
ghost use Rattle.leancheck.specs.Ends.{outcomes_of, replay_status, GivesReplayed, IsChecked, IsDone, Replays, ReplaysPrefix};

use crate::fault::tell_fault;
use crate::status::Status;
use lk_book::ReadError;
use lk_port::{Gate, Sink, Source, write_all};
use lk_replay::replay_unit;
use lk_store::memory::NoMemory;
use lk_text::{OutcomeKind, count_outcomes, replay_report};
use lk_trace::{Outcome, Traced};
use lk_traced::read_trace;
use std::alloc::Global;

/// The status that belongs to what comes of the sections of all units.
fn replay_status(outcomes: &[Outcome]) -> Status
    ensures is { result ≡ replay_status (map outcome_at outcomes.now) }
    ensures checked { IsChecked result }
{
    if count_outcomes(OutcomeKind::Bad, outcomes) > 0 {
        return Status::SomeNo;
    }
    if count_outcomes(OutcomeKind::None, outcomes) > 0 {
        return Status::SomeNo;
    }
    Status::AllYes
}

/// What comes of the section of each unit, in their order. Units are fewer than 2^32; more are want of memory.
fn replay_units<G: Gate>(alloc: Global, traced: &Traced, gate: &G) -> Result<Vec<Outcome>, NoMemory>
    requires sections_in { AreSectionsIn traced.now }
    requires rising { AreRising traced.now.sections.items }
    ensures { IfOk result (λ v. map outcome_at v.items
        ≡ outcomes_of (library_of traced.now.library) (sections_of traced.now)) }
{
    let mut outcomes = Vec::new(alloc);
    let units = traced.library.units();
    if units.len() > u32::MAX as usize {
        return Err(NoMemory);
    }
    gate.begins(units.len() as u64);
    for n in 0..units.len() as u32 {
        gate.before_unit(n);
        let outcome = replay_unit(alloc, traced, n)?;
        gate.after_unit(n, matches!(outcome, Outcome::Ok | Outcome::Block));
        outcomes.push(outcome)?;
    }
    Ok(outcomes)
}

/// What is told of a file with derivations, and the status.
fn replayed<G: Gate>(
    alloc: Global,
    traced: &Traced,
    gate: &G,
) -> Result<(Vec<u8>, Status), NoMemory>
    requires sections_in { AreSectionsIn traced.now }
    requires rising { AreRising traced.now.sections.items }
    ensures gives { (bytes : List ℕ) → trace_of bytes ≡ Ok (trace_at traced.now)
        → GivesReplayed bytes result }
    ensures status { IfOk result (λ r. IsChecked r.1) }
{
    let outcomes = replay_units(alloc, traced, gate)?;
    let text = replay_report(alloc, &traced.library, &outcomes)?;
    let status = replay_status(&outcomes);
    Ok((text, status))
}

/// Writes what is to be told of a file with derivations.
fn tell_replayed<K: Sink, G: Gate>(alloc: Global, traced: &Traced, sink: &mut K, gate: &G) -> Status
    requires sections_in { AreSectionsIn traced.now }
    requires rising { AreRising traced.now.sections.items }
    ensures told { IsChecked result
        → ((bytes : List ℕ) → trace_of bytes ≡ Ok (trace_at traced.now)
        → Replays bytes result (K.written sink.old) (K.written sink.new))
        × (K.faults sink.new ≡ K.faults sink.old) }
    ensures failed { result ≡ Status.WriteFault
        → ((bytes : List ℕ) → trace_of bytes ≡ Ok (trace_at traced.now)
        → ReplaysPrefix bytes (K.written sink.old) (K.written sink.new))
        × Rose (K.faults sink.old) (K.faults sink.new) }
    ensures no_memory { result ≡ Status.NoMemory → sink.new ≡ sink.old }
    ensures only { IsChecked result ⊎ (result ≡ Status.WriteFault) ⊎ (result ≡ Status.NoMemory) }
{
    match replayed(alloc, traced, gate) {
        Ok((text, status)) => match write_all(sink, &text) {
            Ok(()) => status,
            Err(_) => Status::WriteFault,
        },
        Err(_) => Status::NoMemory,
    }
}

/// Reads a file with derivations from the source, tests the section of each unit, and writes to the
/// sink what comes of them.
pub fn replay<S: Source, K: Sink, G: Gate>(
    alloc: Global,
    source: &mut S,
    sink: &mut K,
    gate: &G,
) -> Status
    ensures no_usage { result ≢ Status.Usage }
    ensures read { result ≡ Status.ReadFault → Rose (S.faults source.old) (S.faults source.new)
        × (K.written sink.new ≡ K.written sink.old) }
    ensures no_read { result ≢ Status.ReadFault → S.faults source.new ≡ S.faults source.old }
    ensures bad { result ≡ Status.BadFile
        → ((f : LineFault) × IfSome (S.left source.old) (λ bytes. trace_of bytes ≡ Err f)
        × Appends (K.written sink.old) (K.written sink.new) (bad_line f)) }
    ensures ends { IsDone result → IsChecked result }
    ensures replays { IsChecked result → IfSome (S.left source.old) (λ bytes.
        Replays bytes result (K.written sink.old) (K.written sink.new)) }
    ensures write { result ≡ Status.WriteFault → Rose (K.faults sink.old) (K.faults sink.new) }
    ensures no_write { result ≢ Status.WriteFault → K.faults sink.new ≡ K.faults sink.old }
    ensures prefix { result ≡ Status.WriteFault → IfSome (S.left source.old) (λ bytes.
        ReplaysPrefix bytes (K.written sink.old) (K.written sink.new)) }
    ensures no_memory { result ≡ Status.NoMemory → K.written sink.new ≡ K.written sink.old }
{
    match read_trace(alloc, source) {
        Ok(traced) => tell_replayed(alloc, &traced, sink, gate),
        Err(ReadError::ReadFault) => Status::ReadFault,
        Err(ReadError::NoMemory) => Status::NoMemory,
        Err(ReadError::Fault(fault)) => tell_fault(alloc, fault, sink),
    }
}
