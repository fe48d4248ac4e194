//! A library with a section for each declaration that says yes.

ghost use Rattle.std.specs.Prelude.{◌≡◌, ◌≢◌, ◌⊎◌, ◌<◌, ◌||◌, ℕ, List, [], length, not};
ghost use Rattle.std.specs.Prelude.{IfSome, IfOk, OnOk, Ok, Err};
ghost use Rattle.std.specs.Io.KnownBytes.{Appends};
ghost use Rattle.std.specs.List.{range_with_len};
ghost use Rattle.lk_verdict.specs.Told.{told};
ghost use Rattle.lk_verdict.specs.Verdict.{PlainVerdict};
ghost use Rattle.lk_store.specs.Store.{contents_of};
ghost use Rattle.lk_store.specs.Layers.{layers_contents};
ghost use Rattle.lk_env.specs.Units.{library_of};
ghost use Rattle.lk_port.specs.Bytes.{Rose};
ghost use Rattle.lk_lines.specs.declared.line.Fault.{Fault as LineFault};
ghost use Rattle.lk_book.specs.File.{export_at, export_of};
ghost use Rattle.lk_text.specs.Text.{bad_line};
ghost use Rattle.lk_step.specs.Calls.{contents_from};
ghost use Rattle.lk_sections.specs.Stored.{HasWritten};
ghost use Rattle.leancheck.specs.Drawn.{unit_budget};
ghost use Rattle.leancheck.specs.Held.{IsPlain};
ghost use Rattle.leancheck.specs.Traces.{all_kept, is_yes, is_accepted, status_by, trace_status};
ghost use Rattle.leancheck.specs.Derived.{AreTraced, IsAllTraced};
ghost use Rattle.leancheck.specs.Ends.{GivesTraced, IsChecked, IsDone, Traces, TracesPrefix};

use crate::checker::MEMO;
use crate::checking::check_unit;
use crate::derived::{Checked, trace_unit};
use crate::deriver::Deriver;
use crate::fault::tell_fault;
use crate::status::Status;
use crate::tracer::Tracer;
use crate::worker::budget_of;
use lk_book::{ReadError, read_library};
use lk_engine::{Alone, Engine, Knowledge, Knows};
use lk_env::library::Library;
use lk_handle::EngineHandle;
use lk_memo::PrivateMemo;
use lk_port::{Gate, Sink, Source, write_all};
use lk_sections::{TraceWriter, begin_trace, text_of_trace};
use lk_step::EngineCalls;
use lk_store::memory::NoMemory;
use lk_verdict::Verdict;
use std::alloc::Global;
use std::mem::drop;

/// Whether a verdict is yes. Memory that is wanting is no verdict.
fn is_yes(verdict: Verdict) -> Result<bool, NoMemory>
    ensures { (p : PlainVerdict) → IsPlain (told p) verdict → IfOk result (λ b. b ≡ is_yes p) }
{
    match verdict {
        Verdict::Yes => Ok(true),
        Verdict::No(_) => Ok(false),
        Verdict::Steps => Ok(false),
        Verdict::Memory => Err(NoMemory),
    }
}

/// Checks a unit, in a run that gives each unit so many steps.
fn checked_unit<K: Knows>(
    alloc: Global,
    library: &Library,
    engine: &mut Engine<'_, K>,
    unit: u32,
    steps: u128,
) -> Result<Checked, NoMemory>
    requires library { engine.old.scope.library ≡ library.now }
    requires number { unit < length library.now.units }
    ensures library { engine.new.scope.library ≡ engine.old.scope.library }
    ensures unit { IfOk result (λ k. k.unit ≡ unit) }
    ensures budget { IfOk result (λ k. k.budget ≡ unit_budget library.now steps unit) }
    ensures yes { IfOk result (λ k. k.yes ≡ is_accepted (library_of library.now) k.budget unit) }
{
    let budget = budget_of(library, unit, steps);
    let verdict = check_unit(alloc, library, engine, unit, budget);
    let yes = is_yes(verdict)?;
    Ok(Checked { unit, budget, yes })
}

/// Whether a unit lacks its section, this one or one before it.
fn lacks_by(before: bool, complete: bool) -> bool
    ensures { result ≡ (before || not complete) }
{
    before || !complete
}

/// The status, by whether a declaration lacks its section.
fn status_by(lacks: bool) -> Status
    ensures is { result ≡ status_by lacks }
    ensures checked { IsChecked result }
{
    if lacks {
        Status::SomeNo
    } else {
        Status::AllYes
    }
}

/// Checks the units of a library by the engine, and writes the sections that they are to have. The
/// status that belongs to them. Units are fewer than 2^32; more are want of memory.
fn trace_units<K: Knows, D: Tracer, G: Gate>(
    alloc: Global,
    library: &Library,
    steps: u128,
    engine: &mut Engine<'_, K>,
    deriver: &mut Deriver<D>,
    trace: &mut TraceWriter,
    gate: &G,
) -> Result<Status, NoMemory>
    requires engine { engine.old.scope.library ≡ library.now }
    requires deriver { D.library (D.sight (D.rest deriver.old.derives)).basis.beside
        ≡ library.now }
    requires trace { HasWritten (D.contents deriver.old.derives) (all_kept (export_at library.now)) []
        trace.old }
    ensures traced { OnOk result (AreTraced (library_of library.now) (unit_budget library.now steps)
        (D.contents deriver.new.derives) (all_kept (export_at library.now))
        (length (library_of library.now)) trace.new) }
    ensures status { IfOk result (λ s. s ≡ trace_status (export_at library.now) steps) }
    ensures checked { IfOk result IsChecked }
{
    let mut lacks = false;
    let units = library.units();
    if units.len() > u32::MAX as usize {
        return Err(NoMemory);
    }
    gate.begins(units.len() as u64);
    for n in 0..units.len() as u32 {
        gate.before_unit(n);
        let checked = checked_unit(alloc, library, engine, n, steps)?;
        let complete = trace_unit(alloc, library, deriver, trace, checked)?;
        lacks = lacks_by(lacks, complete);
        gate.after_unit(n, checked.yes);
    }
    Ok(status_by(lacks))
}

/// One who derives, at the first unit, with nothing to spend.
fn deriver_at<D: Tracer>(mut derives: D) -> Deriver<D>
    ensures contents { D.contents result.derives ≡ D.contents derives }
    ensures library { D.library (D.sight (D.rest result.derives)).basis.beside
        ≡ D.library (D.sight (D.rest derives)).basis.beside }
{
    derives.turn_to(0);
    Deriver { derives, enough: 0 }
}

/// Checks the units by the engine, and derives by this one beside it.
fn trace_by<K: Knows, D: Tracer + Drop, G: Gate>(
    alloc: Global,
    library: &Library,
    steps: u128,
    engine: &mut Engine<'_, K>,
    derives: D,
    trace: &mut TraceWriter,
    gate: &G,
) -> Result<Status, NoMemory>
    requires engine { engine.old.scope.library ≡ library.now }
    requires library { D.library (D.sight (D.rest derives)).basis.beside ≡ library.now }
    requires trace { HasWritten (D.contents derives) (all_kept (export_at library.now)) []
        trace.old }
    ensures traced { OnOk result (IsAllTraced (export_at library.now) steps trace.new) }
    ensures status { IfOk result (λ s. s ≡ trace_status (export_at library.now) steps) }
    ensures checked { IfOk result IsChecked }
{
    let mut deriver = deriver_at(derives);
    let status = trace_units(alloc, library, steps, engine, &mut deriver, trace, gate);
    drop(deriver);
    status
}

/// Checks the units by the engine, and derives through a handle of the other.
fn trace_by_handle<K: Knows, E: EngineCalls + Drop, G: Gate>(
    alloc: Global,
    library: &Library,
    steps: u128,
    engine: &mut Engine<'_, K>,
    other: E,
    trace: &mut TraceWriter,
    gate: &G,
) -> Result<Status, NoMemory>
    requires engine { engine.old.scope.library ≡ library.now }
    requires other { (E.outlook other).scope.library ≡ library.now }
    requires trace { HasWritten (contents_from (E.outlook other)) (all_kept (export_at library.now))
        [] trace.old }
    ensures traced { OnOk result (IsAllTraced (export_at library.now) steps trace.new) }
    ensures status { IfOk result (λ s. s ≡ trace_status (export_at library.now) steps) }
    ensures checked { IfOk result IsChecked }
{
    let handle = EngineHandle::new(other);
    trace_by(alloc, library, steps, engine, handle, trace, gate)
}

/// The same by two engines. What a call owes of an engine is much to check at once, so this one
/// hands it on, and does nothing else.
fn trace_beside<K: Knows, L: Knows, G: Gate>(
    alloc: Global,
    library: &Library,
    steps: u128,
    engine: &mut Engine<'_, K>,
    other: Engine<'_, L>,
    trace: &mut TraceWriter,
    gate: &G,
) -> Result<Status, NoMemory>
    requires engine { engine.old.scope.library ≡ library.now }
    requires other { other.scope.library ≡ library.now }
    requires trace { HasWritten (layers_contents other.terms) (all_kept (export_at library.now)) []
        trace.old }
    ensures traced { OnOk result (IsAllTraced (export_at library.now) steps trace.new) }
    ensures status { IfOk result (λ s. s ≡ trace_status (export_at library.now) steps) }
    ensures checked { IfOk result IsChecked }
{
    trace_by_handle(alloc, library, steps, engine, other, trace, gate)
}

/// The same by this engine, and by a second one, whose store has all that was written.
fn trace_with<K: Knows, G: Gate>(
    alloc: Global,
    library: &Library,
    steps: u128,
    engine: &mut Engine<'_, K>,
    trace: &mut TraceWriter,
    gate: &G,
) -> Result<Status, NoMemory>
    requires engine { engine.old.scope.library ≡ library.now }
    requires trace { HasWritten (contents_of library.now.tables) (all_kept (export_at library.now)) []
        trace.old }
    ensures traced { OnOk result (IsAllTraced (export_at library.now) steps trace.new) }
    ensures status { IfOk result (λ s. s ≡ trace_status (export_at library.now) steps) }
    ensures checked { IfOk result IsChecked }
{
    let Ok(memo) = PrivateMemo::new(alloc, MEMO) else {
        return Err(NoMemory);
    };
    let mut knowledge = Knowledge::new(alloc, memo, Alone);
    let other = Engine::new(alloc, library, &mut knowledge);
    trace_beside(alloc, library, steps, engine, other, trace, gate)
}

/// The same by two engines, of which one checks, and forgets, and one derives.
fn trace_by_engines<G: Gate>(
    alloc: Global,
    library: &Library,
    steps: u128,
    trace: &mut TraceWriter,
    gate: &G,
) -> Result<Status, NoMemory>
    requires { HasWritten (contents_of library.now.tables) (all_kept (export_at library.now)) []
        trace.old }
    ensures traced { OnOk result (IsAllTraced (export_at library.now) steps trace.new) }
    ensures status { IfOk result (λ s. s ≡ trace_status (export_at library.now) steps) }
    ensures checked { IfOk result IsChecked }
{
    let Ok(memo) = PrivateMemo::new(alloc, MEMO) else {
        return Err(NoMemory);
    };
    let mut knowledge = Knowledge::new(alloc, memo, Alone);
    let mut engine = Engine::new(alloc, library, &mut knowledge);
    let status = trace_with(alloc, library, steps, &mut engine, trace, gate);
    drop(engine);
    status
}

/// The numbers of all units. They are fewer than 2^32; more are want of memory.
fn all_numbers(alloc: Global, library: &Library) -> Result<Vec<u32>, NoMemory>
    ensures { IfOk result (λ v. v.items ≡ range_with_len 0 (length (library_of library.now))) }
{
    let units = library.units();
    if units.len() > u32::MAX as usize {
        return Err(NoMemory);
    }
    let mut numbers = Vec::new(alloc);
    for n in 0..units.len() as u32 {
        numbers.push(n)?;
    }
    Ok(numbers)
}

/// The text of a library with its sections, and the status.
fn traced<G: Gate>(
    alloc: Global,
    steps: u128,
    library: &Library,
    gate: &G,
) -> Result<(Vec<u8>, Status), NoMemory>
    ensures gives { (bytes : List ℕ) → export_of bytes ≡ Ok (export_at library.now)
        → GivesTraced steps bytes result }
    ensures status { IfOk result (λ r. IsChecked r.1) }
{
    let numbers = all_numbers(alloc, library)?;
    let mut trace = begin_trace(alloc, library, &numbers)?;
    let status = trace_by_engines(alloc, library, steps, &mut trace, gate)?;
    Ok((text_of_trace(trace), status))
}

/// Writes a library with its sections.
fn tell_traced<K: Sink, G: Gate>(
    alloc: Global,
    steps: u128,
    library: &Library,
    sink: &mut K,
    gate: &G,
) -> Status
    ensures told { IsChecked result
        → ((bytes : List ℕ) → export_of bytes ≡ Ok (export_at library.now)
        → Traces steps bytes result (K.written sink.old) (K.written sink.new))
        × (K.faults sink.new ≡ K.faults sink.old) }
    ensures failed { result ≡ Status.WriteFault
        → ((bytes : List ℕ) → export_of bytes ≡ Ok (export_at library.now)
        → TracesPrefix steps bytes (K.written sink.old) (K.written sink.new))
        × Rose (K.faults sink.old) (K.faults sink.new) }
    ensures no_memory { result ≡ Status.NoMemory → sink.new ≡ sink.old }
    ensures only { IsChecked result ⊎ (result ≡ Status.WriteFault) ⊎ (result ≡ Status.NoMemory) }
{
    match traced(alloc, steps, library, gate) {
        Ok((text, status)) => match write_all(sink, &text) {
            Ok(()) => status,
            Err(_) => Status::WriteFault,
        },
        Err(_) => Status::NoMemory,
    }
}

/// Reads an export from the source, checks its units, and writes to the sink its canonical text and
/// a section for each declaration that says yes.
pub fn trace<S: Source, K: Sink, G: Gate>(
    alloc: Global,
    steps: u128,
    source: &mut S,
    sink: &mut K,
    gate: &G,
) -> Status
    ensures no_usage { result ≢ Status.Usage }
    ensures read { result ≡ Status.ReadFault → Rose (S.faults source.old) (S.faults source.new)
        × (K.written sink.new ≡ K.written sink.old) }
    ensures no_read { result ≢ Status.ReadFault → S.faults source.new ≡ S.faults source.old }
    ensures bad { result ≡ Status.BadFile
        → ((f : LineFault) × IfSome (S.left source.old) (λ bytes. export_of bytes ≡ Err f)
        × Appends (K.written sink.old) (K.written sink.new) (bad_line f)) }
    ensures ends { IsDone result → IsChecked result }
    ensures traces { IsChecked result → IfSome (S.left source.old) (λ bytes.
        Traces steps bytes result (K.written sink.old) (K.written sink.new)) }
    ensures write { result ≡ Status.WriteFault → Rose (K.faults sink.old) (K.faults sink.new) }
    ensures no_write { result ≢ Status.WriteFault → K.faults sink.new ≡ K.faults sink.old }
    ensures prefix { result ≡ Status.WriteFault → IfSome (S.left source.old) (λ bytes.
        TracesPrefix steps bytes (K.written sink.old) (K.written sink.new)) }
    ensures no_memory { result ≡ Status.NoMemory → K.written sink.new ≡ K.written sink.old }
{
    match read_library(alloc, source) {
        Ok(library) => tell_traced(alloc, steps, &library, sink, gate),
        Err(ReadError::ReadFault) => Status::ReadFault,
        Err(ReadError::NoMemory) => Status::NoMemory,
        Err(ReadError::Fault(fault)) => tell_fault(alloc, fault, sink),
    }
}
