//! A library and changes of it, checked one after another.

ghost use Rattle.std.specs.Prelude.{◌≡◌, ◌≢◌, ◌⊎◌, ℕ, List, IfSome, Ok, Err};
ghost use Rattle.std.specs.Io.KnownBytes.{Appends};
ghost use Rattle.lk_port.specs.Bytes.{Rose};
ghost use Rattle.lk_lines.specs.declared.line.Fault.{Fault as LineFault};
ghost use Rattle.lk_book.specs.File.{rounds_of};
ghost use Rattle.lk_book.specs.Reading.{ArePartsIn, AreStated, parts_at};
ghost use Rattle.lk_text.specs.Text.{bad_line};
ghost use Rattle.leancheck.specs.Ends.{IsChecked, IsDone, Rechecks, RechecksPrefix};

use crate::checker::{Checker, MEMO, Watch};
use crate::fault::tell_fault;
use crate::rounds::told;
use crate::status::Status;
use lk_book::{ReadError, Rounds, read_rounds};
use lk_port::{Gate, Sink, Source, write_all};
use std::alloc::Global;

/// A gate that is told so.
#[derive(Clone, Copy)]
struct AtGate<'a, G> {
    gate: &'a G,
}

impl<G: Gate> Watch for AtGate<'_, G> {
    fn before_unit(&self, unit: u32) {
        self.gate.before_unit(unit);
    }

    fn after_unit(&self, unit: u32, yes: bool) {
        self.gate.after_unit(unit, yes);
    }
}

/// Writes what is to be told of a library and changes of it.
fn tell_rounds<K: Sink, G: Gate>(
    alloc: Global,
    steps: u128,
    rounds: Rounds,
    sink: &mut K,
    gate: &G,
) -> Status
    requires known { ArePartsIn rounds }
    requires stated { AreStated rounds }
    ensures told { IsChecked result
        → ((bytes : List ℕ) → rounds_of bytes ≡ Ok (parts_at rounds)
        → Rechecks steps bytes result (K.written sink.old) (K.written sink.new))
        × (K.faults sink.new ≡ K.faults sink.old) }
    ensures failed { result ≡ Status.WriteFault
        → ((bytes : List ℕ) → rounds_of bytes ≡ Ok (parts_at rounds)
        → RechecksPrefix steps bytes (K.written sink.old) (K.written sink.new))
        × Rose (K.faults sink.old) (K.faults sink.new) }
    ensures no_memory { result ≡ Status.NoMemory → sink.new ≡ sink.old }
    ensures only { IsChecked result ⊎ (result ≡ Status.WriteFault) ⊎ (result ≡ Status.NoMemory) }
{
    let checker = Checker {
        steps,
        kept: MEMO,
        watch: &AtGate { gate },
    };
    match told(alloc, rounds, &checker, gate) {
        Ok((text, status)) => match write_all(sink, &text) {
            Ok(()) => status,
            Err(_) => Status::WriteFault,
        },
        Err(_) => Status::NoMemory,
    }
}

/// Reads a library and changes of it from the source, checks each list of units that they lead to,
/// and writes to the sink what is to be told of them.
pub fn recheck<S: Source, K: Sink, G: Gate>(
    alloc: Global,
    steps: u128,
    source: &mut S,
    sink: &mut K,
    gate: &G,
) -> Status
    ensures no_usage { result ≢ Status.Usage }
    ensures read { result ≡ Status.ReadFault → Rose (S.faults source.old) (S.faults source.new)
        × (K.written sink.new ≡ K.written sink.old) }
    ensures no_read { result ≢ Status.ReadFault → S.faults source.new ≡ S.faults source.old }
    ensures bad { result ≡ Status.BadFile
        → ((f : LineFault) × IfSome (S.left source.old) (λ bytes. rounds_of bytes ≡ Err f)
        × Appends (K.written sink.old) (K.written sink.new) (bad_line f)) }
    ensures ends { IsDone result → IsChecked result }
    ensures rechecks { IsChecked result → IfSome (S.left source.old) (λ bytes.
        Rechecks steps bytes result (K.written sink.old) (K.written sink.new)) }
    ensures write { result ≡ Status.WriteFault → Rose (K.faults sink.old) (K.faults sink.new) }
    ensures no_write { result ≢ Status.WriteFault → K.faults sink.new ≡ K.faults sink.old }
    ensures prefix { result ≡ Status.WriteFault → IfSome (S.left source.old) (λ bytes.
        RechecksPrefix steps bytes (K.written sink.old) (K.written sink.new)) }
    ensures no_memory { result ≡ Status.NoMemory → K.written sink.new ≡ K.written sink.old }
{
    match read_rounds(alloc, source) {
        Ok(rounds) => tell_rounds(alloc, steps, rounds, sink, gate),
        Err(ReadError::ReadFault) => Status::ReadFault,
        Err(ReadError::NoMemory) => Status::NoMemory,
        Err(ReadError::Fault(fault)) => tell_fault(alloc, fault, sink),
    }
}
