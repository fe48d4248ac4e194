//! One declaration with all that it needs.

ghost use Rattle.std.specs.Prelude.{◌≡◌, ◌≢◌, ◌⊎◌, ◌<◌, ℕ, List, length, IfSome, IfOk, Ok, Err};
ghost use Rattle.std.specs.Io.KnownBytes.{Appends};
ghost use Rattle.lk_port.specs.Bytes.{Rose};
ghost use Rattle.lk_lines.specs.declared.line.Fault.{Fault as LineFault};
ghost use Rattle.lk_book.specs.File.{export_at, export_of};
ghost use Rattle.lk_text.specs.Text.{bad_line};
ghost use Rattle.lk_readback.specs.Trimmed.{IsTrimmed};
ghost use Rattle.leancheck.specs.Ends.{GivesTrimmed, IsDone, IsLookedUp, Trims, TrimsPrefix};

use crate::fault::tell_fault;
use crate::status::Status;
use lk_book::{ReadError, read_library};
use lk_env::library::Library;
use lk_needs::closure;
use lk_port::{Gate, Sink, Source, write_all};
use lk_store::memory::NoMemory;
use lk_text::{unit_named, unknown_line};
use lk_trim::canonical;
use std::alloc::Global;

/// The text of what a unit needs.
fn needed(alloc: Global, library: &Library, unit: u32) -> Result<Vec<u8>, NoMemory>
    requires { unit < length library.now.units }
    ensures { (bytes : List ℕ) → export_of bytes ≡ Ok (export_at library.now)
        → IfOk result (λ v. IsTrimmed (export_at library.now) unit v.items) }
{
    let numbers = closure(alloc, library, unit)?;
    canonical(alloc, library, &numbers)
}

/// What is told of a library for a printed name, and the status.
fn trimmed(alloc: Global, library: &Library, name: &str) -> Result<(Vec<u8>, Status), NoMemory>
    ensures gives { (bytes : List ℕ) → export_of bytes ≡ Ok (export_at library.now)
        → GivesTrimmed name.now bytes result }
    ensures status { IfOk result (λ r. IsLookedUp r.1) }
{
    match unit_named(alloc, library, name.as_bytes())? {
        Some(unit) => {
            let text = needed(alloc, library, unit)?;
            Ok((text, Status::AllYes))
        }
        None => {
            let line = unknown_line(alloc, name.as_bytes())?;
            Ok((line, Status::NoSuchName))
        }
    }
}

/// Writes what is to be told of a library for a printed name.
fn tell_trimmed<K: Sink>(alloc: Global, library: &Library, name: &str, sink: &mut K) -> Status
    ensures told { IsLookedUp result → ((bytes : List ℕ)
        → export_of bytes ≡ Ok (export_at library.now)
        → Trims name.now bytes result (K.written sink.old) (K.written sink.new))
        × (K.faults sink.new ≡ K.faults sink.old) }
    ensures failed { result ≡ Status.WriteFault
        → ((bytes : List ℕ) → export_of bytes ≡ Ok (export_at library.now)
        → TrimsPrefix name.now bytes (K.written sink.old) (K.written sink.new))
        × Rose (K.faults sink.old) (K.faults sink.new) }
    ensures no_memory { result ≡ Status.NoMemory → sink.new ≡ sink.old }
    ensures only { IsLookedUp result ⊎ (result ≡ Status.WriteFault) ⊎ (result ≡ Status.NoMemory) }
{
    match trimmed(alloc, library, name) {
        Ok((text, status)) => match write_all(sink, &text) {
            Ok(()) => status,
            Err(_) => Status::WriteFault,
        },
        Err(_) => Status::NoMemory,
    }
}

/// Reads an export from the source, and writes to the sink the first unit with a member of this
/// printed name and all that it needs, or that there is none.
pub fn trim<S: Source, K: Sink, G: Gate>(
    alloc: Global,
    name: &str,
    source: &mut S,
    sink: &mut K,
    gate: &G,
) -> Status
    ensures no_usage { result ≢ Status.Usage }
    ensures read { result ≡ Status.ReadFault → Rose (S.faults source.old) (S.faults source.new)
        × (K.written sink.new ≡ K.written sink.old) }
    ensures no_read { result ≢ Status.ReadFault → S.faults source.new ≡ S.faults source.old }
    ensures bad { result ≡ Status.BadFile
        → ((f : LineFault) × IfSome (S.left source.old) (λ bytes. export_of bytes ≡ Err f)
        × Appends (K.written sink.old) (K.written sink.new) (bad_line f)) }
    ensures ends { IsDone result → IsLookedUp result }
    ensures trims { IsLookedUp result → IfSome (S.left source.old) (λ bytes.
        Trims name.now bytes result (K.written sink.old) (K.written sink.new)) }
    ensures write { result ≡ Status.WriteFault → Rose (K.faults sink.old) (K.faults sink.new) }
    ensures no_write { result ≢ Status.WriteFault → K.faults sink.new ≡ K.faults sink.old }
    ensures prefix { result ≡ Status.WriteFault → IfSome (S.left source.old) (λ bytes.
        TrimsPrefix name.now bytes (K.written sink.old) (K.written sink.new)) }
    ensures no_memory { result ≡ Status.NoMemory → K.written sink.new ≡ K.written sink.old }
{
    match read_library(alloc, source) {
        Ok(library) => {
            // How many units were read is told for the messages alone: none is checked.
            gate.begins(library.units().len() as u64);
            tell_trimmed(alloc, &library, name, sink)
        }
        Err(ReadError::ReadFault) => Status::ReadFault,
        Err(ReadError::NoMemory) => Status::NoMemory,
        Err(ReadError::Fault(fault)) => tell_fault(alloc, fault, sink),
    }
}
