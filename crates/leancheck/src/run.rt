//! A whole run.

ghost use Rattle.std.specs.Prelude.{◌≡◌, ◌≢◌, ◌⊎◌, ℕ, List, IfSome, IfOk, Ok, Err};
ghost use Rattle.std.specs.Io.KnownBytes.{Appends};
ghost use Rattle.lk_port.specs.Bytes.{Rose, AppendsSome};
ghost use Rattle.lk_lines.specs.declared.line.Fault.{Fault as LineFault};
ghost use Rattle.lk_book.specs.File.{export_at, export_of};
ghost use Rattle.lk_text.specs.Text.{bad_line};
ghost use Rattle.lk_generator.specs.Generated.{file_of};
ghost use Rattle.lk_command.specs.Command.{usage_line};
ghost use Rattle.lk_command.specs.Words.{IsMeaningless, Means, MeansCheck, texts_of};
ghost use Rattle.lk_command.specs.declared.words.Meaning.{Meaning as WordsMeaning};
ghost use Rattle.lk_command.specs.declared.words.Options.{Options as CheckOptions};
ghost use Rattle.leancheck.specs.Ends.{Begins, Does, FindsFault, Gives, IsAllGood, IsChecked, IsDone};
ghost use Rattle.leancheck.specs.Ends.{ReadsSource, Reports, WritesPrefix};

use crate::callers::session;
use crate::extent::{Extent, judged_text};
use crate::fault::tell_fault;
use crate::rechecking::recheck;
use crate::replaying::replay;
use crate::status::{Status, status_of};
use crate::tracing::trace;
use crate::trimming::trim;
use crate::workers::check_all;
use lk_book::{ReadError, read_library};
use lk_command::{LineError, Meaning, Options, Sample, line_means};
use lk_env::library::Library;
use lk_generator::generate;
use lk_port::{Gate, MemSource, Sink, Source, write_all};
use lk_store::memory::NoMemory;
use std::alloc::Global;
use std::sync::Wait;
use std::thread::Threads;

/// What is told of a library, and the status.
fn checked<R: Threads + Sync, G: Gate>(
    rt: &R,
    alloc: Global,
    extent: Extent,
    library: &Library,
    options: Options<'_>,
    gate: &G,
) -> Result<(Vec<u8>, Status), NoMemory>
    ensures gives { (bytes : List ℕ) → export_of bytes ≡ Ok (export_at library.now)
        → Gives extent options.entry bytes result }
    ensures status { IfOk result (λ r. IsChecked r.1) }
{
    let Ok(mut verdicts) = check_all(rt, alloc, library, options, gate) else {
        return Err(NoMemory);
    };
    let Ok(text) = judged_text(alloc, extent, library, options.allow, &mut verdicts) else {
        return Err(NoMemory);
    };
    let status = status_of(&verdicts);
    Ok((text, status))
}

/// Writes the usage line.
fn tell_usage<K: Sink>(sink: &mut K) -> Status
    ensures told { result ≡ Status.Usage
        → Appends (K.written sink.old) (K.written sink.new) usage_line
        × (K.faults sink.new ≡ K.faults sink.old) }
    ensures failed { result ≢ Status.Usage → (result ≡ Status.WriteFault)
        × AppendsSome (K.written sink.old) (K.written sink.new) usage_line
        × Rose (K.faults sink.old) (K.faults sink.new) }
{
    match write_all(
        sink,
        b"usage: leancheck check|make|trial|trim|trace|replay|recheck|session [--workers W] [--steps N] [--memo M] [--allow LIST] [--units N] [--seed S] [--name NAME]\n",
    ) {
        Ok(()) => Status::Usage,
        Err(_) => Status::WriteFault,
    }
}

/// Checks the units of a library, and writes what is to be told of it.
fn tell_verdicts<R: Threads + Sync, K: Sink, G: Gate>(
    rt: &R,
    alloc: Global,
    extent: Extent,
    library: &Library,
    options: Options<'_>,
    sink: &mut K,
    gate: &G,
) -> Status
    ensures told { IsChecked result → ((bytes : List ℕ)
        → export_of bytes ≡ Ok (export_at library.now)
        → Reports extent options.entry bytes result (K.written sink.old) (K.written sink.new))
        × (K.faults sink.new ≡ K.faults sink.old) }
    ensures failed { result ≡ Status.WriteFault
        → ((bytes : List ℕ) → export_of bytes ≡ Ok (export_at library.now)
        → WritesPrefix extent options.entry bytes (K.written sink.old) (K.written sink.new))
        × Rose (K.faults sink.old) (K.faults sink.new) }
    ensures no_memory { result ≡ Status.NoMemory → sink.new ≡ sink.old }
    ensures only { IsChecked result ⊎ (result ≡ Status.WriteFault) ⊎ (result ≡ Status.NoMemory) }
{
    match checked(rt, alloc, extent, library, options, gate) {
        Ok((text, status)) => match write_all(sink, &text) {
            Ok(()) => status,
            Err(_) => Status::WriteFault,
        },
        Err(_) => Status::NoMemory,
    }
}

/// Reads an export from the source, checks its units, and writes to the sink what is to be told of it.
fn check<R: Threads + Sync, S: Source, K: Sink, G: Gate>(
    rt: &R,
    alloc: Global,
    extent: Extent,
    options: Options<'_>,
    source: &mut S,
    sink: &mut K,
    gate: &G,
) -> Status
    ensures no_usage { result ≢ Status.Usage }
    ensures ends { IsDone result → IsChecked result }
    ensures read { result ≡ Status.ReadFault → Rose (S.faults source.old) (S.faults source.new)
        × (K.written sink.new ≡ K.written sink.old) }
    ensures no_read { result ≢ Status.ReadFault → S.faults source.new ≡ S.faults source.old }
    ensures bad { result ≡ Status.BadFile
        → ((f : LineFault) × IfSome (S.left source.old) (λ bytes. export_of bytes ≡ Err f)
        × Appends (K.written sink.old) (K.written sink.new) (bad_line f)) }
    ensures verdicts { IsChecked result → IfSome (S.left source.old) (λ bytes.
        Reports extent options.entry bytes result (K.written sink.old) (K.written sink.new)) }
    ensures write { result ≡ Status.WriteFault → Rose (K.faults sink.old) (K.faults sink.new) }
    ensures no_write { result ≢ Status.WriteFault → K.faults sink.new ≡ K.faults sink.old }
    ensures prefix { result ≡ Status.WriteFault → IfSome (S.left source.old) (λ bytes.
        WritesPrefix extent options.entry bytes (K.written sink.old) (K.written sink.new)) }
    ensures no_memory { result ≡ Status.NoMemory → K.written sink.new ≡ K.written sink.old }
{
    match read_library(alloc, source) {
        Ok(library) => tell_verdicts(rt, alloc, extent, &library, options, sink, gate),
        Err(ReadError::ReadFault) => Status::ReadFault,
        Err(ReadError::NoMemory) => Status::NoMemory,
        Err(ReadError::Fault(fault)) => tell_fault(alloc, fault, sink),
    }
}

/// Writes the file that is to be made.
fn make<K: Sink>(alloc: Global, sample: Sample, sink: &mut K) -> Status
    ensures made { result ≡ Status.AllYes → Appends (K.written sink.old) (K.written sink.new)
        (file_of sample.units sample.seed) }
    ensures write { result ≡ Status.WriteFault → Rose (K.faults sink.old) (K.faults sink.new) }
    ensures no_write { result ≢ Status.WriteFault → K.faults sink.new ≡ K.faults sink.old }
    ensures prefix { result ≡ Status.WriteFault → AppendsSome (K.written sink.old)
        (K.written sink.new) (file_of sample.units sample.seed) }
    ensures no_memory { result ≡ Status.NoMemory → K.written sink.new ≡ K.written sink.old }
    ensures only { (result ≡ Status.AllYes) ⊎ (result ≡ Status.WriteFault)
        ⊎ (result ≡ Status.NoMemory) }
{
    let Ok(file) = generate(alloc, sample.units, sample.seed) else {
        return Status::NoMemory;
    };
    match write_all(sink, &file) {
        Ok(()) => Status::AllYes,
        Err(_) => Status::WriteFault,
    }
}

/// Makes a file in memory, checks its units, and writes the last line of what a check tells.
fn trial<R: Threads + Sync, K: Sink, G: Gate>(
    rt: &R,
    alloc: Global,
    sample: Sample,
    options: Options<'_>,
    sink: &mut K,
    gate: &G,
) -> Status
    ensures no_usage { result ≢ Status.Usage }
    ensures ends { IsDone result → IsChecked result }
    ensures no_read { result ≢ Status.ReadFault }
    ensures bad { result ≡ Status.BadFile
        → ((f : LineFault) × (export_of (file_of sample.units sample.seed) ≡ Err f)
        × Appends (K.written sink.old) (K.written sink.new) (bad_line f)) }
    ensures verdicts { IsChecked result → Reports Extent.Summary options.entry
        (file_of sample.units sample.seed) result (K.written sink.old) (K.written sink.new) }
    ensures write { result ≡ Status.WriteFault → Rose (K.faults sink.old) (K.faults sink.new) }
    ensures no_write { result ≢ Status.WriteFault → K.faults sink.new ≡ K.faults sink.old }
    ensures prefix { result ≡ Status.WriteFault → WritesPrefix Extent.Summary options.entry
        (file_of sample.units sample.seed) (K.written sink.old) (K.written sink.new) }
    ensures no_memory { result ≡ Status.NoMemory → K.written sink.new ≡ K.written sink.old }
{
    let Ok(bytes) = generate(alloc, sample.units, sample.seed) else {
        return Status::NoMemory;
    };
    let mut source = MemSource { bytes, at: 0 };
    check(rt, alloc, Extent::Summary, options, &mut source, sink, gate)
}

/// Does what the words say. A check reads an export from the source and writes a verdict for each of its units to the sink; `make`
/// writes an export, and a trial checks one that it makes, and writes the last line alone; `trim` reads an export, and writes the
/// first unit with a member of a printed name and all that this unit needs, as an export; `trace` reads an export, and writes its
/// units as canonical text, with a section for each declaration that says yes, which is a derivation of it; `replay` reads a
/// library and what is written of its units, and writes for each unit whether its section holds; `recheck` reads a library and
/// changes of it, and writes of each list of units that they lead to what a check writes, and how many units were checked for it;
/// `session` reads texts, has them added to one list by callers at one time, and writes what a check of this list writes, text by
/// text.
///
/// The words begin with the program's name. The gate is told of each unit before its first question, or before its
/// section is tested.
pub fn run<R: Threads + Wait + Sync, S: Source, K: Sink, G: Gate>(
    rt: &R,
    alloc: Global,
    words: &[String],
    source: &mut S,
    sink: &mut K,
    gate: &G,
) -> Status
    ensures usage { result ≡ Status.Usage → IsMeaningless (texts_of words.now)
        × Appends (K.written sink.old) (K.written sink.new) usage_line × (source.new ≡ source.old) }
    ensures usage_only { IsMeaningless (texts_of words.now) → (result ≡ Status.Usage)
        ⊎ (result ≡ Status.WriteFault) ⊎ (result ≡ Status.NoMemory) }

    // Nothing but a check, `trim`, `trace`, `replay`, `recheck` and `session` read the source.
    ensures unread { ((m : WordsMeaning) → Means (texts_of words.now) m → ReadsSource m → ⊥)
        → source.new ≡ source.old }
    ensures read { result ≡ Status.ReadFault
        → ((m : WordsMeaning) × Means (texts_of words.now) m × ReadsSource m)
        × Rose (S.faults source.old) (S.faults source.new)
        × (K.written sink.new ≡ K.written sink.old) }
    ensures no_read { result ≢ Status.ReadFault → S.faults source.new ≡ S.faults source.old }
    ensures bad { result ≡ Status.BadFile
        → ((m : WordsMeaning) × Means (texts_of words.now) m
        × FindsFault m (S.left source.old) (K.written sink.old) (K.written sink.new)) }
    ensures verdicts { IsDone result
        → ((m : WordsMeaning) × Means (texts_of words.now) m
        × Does m (S.left source.old) result (K.written sink.old) (K.written sink.new)) }

    // Where a check ends with status 0, an auditor may rely on each unit, and on no axiom that the
    // words do not allow.
    ensures all_yes { result ≡ Status.AllYes
        → ((o : CheckOptions) → MeansCheck (texts_of words.now) o
        → IfSome (S.left source.old) (IsAllGood o)) }
    ensures write { result ≡ Status.WriteFault → Rose (K.faults sink.old) (K.faults sink.new) }
    ensures no_write { result ≢ Status.WriteFault → K.faults sink.new ≡ K.faults sink.old }
    ensures prefix { result ≡ Status.WriteFault
        → (IsMeaningless (texts_of words.now)
        × AppendsSome (K.written sink.old) (K.written sink.new) usage_line)
        ⊎ ((m : WordsMeaning) × Means (texts_of words.now) m
        × Begins m (S.left source.old) (K.written sink.old) (K.written sink.new)) }
    ensures no_memory { result ≡ Status.NoMemory → K.written sink.new ≡ K.written sink.old }
{
    match line_means(alloc, words) {
        Ok(Meaning::Check(options)) => check(
            rt,
            alloc,
            Extent::Report,
            options,
            source,
            sink,
            gate,
        ),
        Ok(Meaning::Make(sample)) => make(alloc, sample, sink),
        Ok(Meaning::Trial(sample, options)) => trial(rt, alloc, sample, options, sink, gate),
        Ok(Meaning::Trim(name)) => trim(alloc, name, source, sink, gate),
        Ok(Meaning::Trace(steps)) => trace(alloc, steps, source, sink, gate),
        Ok(Meaning::Replay) => replay(alloc, source, sink, gate),
        Ok(Meaning::Recheck(steps)) => recheck(alloc, steps, source, sink, gate),
        Ok(Meaning::Session(callers)) => session(rt, alloc, callers, source, sink, gate),
        Err(LineError::Usage) => tell_usage(sink),
        Err(LineError::NoMemory) => Status::NoMemory,
    }
}
