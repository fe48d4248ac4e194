//! What is told of a faulty file.

ghost use Rattle.std.specs.Prelude.{◌≡◌, ◌⊎◌};
ghost use Rattle.std.specs.Io.KnownBytes.{Appends};
ghost use Rattle.lk_port.specs.Bytes.{Rose, AppendsSome};
ghost use Rattle.lk_text.specs.Text.{bad_line};

use crate::status::Status;
use lk_lines::Fault;
use lk_port::{Sink, write_all};
use lk_text::fault_line;
use std::alloc::Global;

/// Writes the line of a file's fault.
pub fn tell_fault<K: Sink>(alloc: Global, fault: Fault, sink: &mut K) -> Status
    ensures told { result ≡ Status.BadFile
        → Appends (K.written sink.old) (K.written sink.new) (bad_line fault)
        × (K.faults sink.new ≡ K.faults sink.old) }
    ensures failed { result ≡ Status.WriteFault
        → AppendsSome (K.written sink.old) (K.written sink.new) (bad_line fault)
        × Rose (K.faults sink.old) (K.faults sink.new) }
    ensures no_memory { result ≡ Status.NoMemory → sink.new ≡ sink.old }
    ensures only { (result ≡ Status.BadFile) ⊎ (result ≡ Status.WriteFault)
        ⊎ (result ≡ Status.NoMemory) }
{
    let Ok(line) = fault_line(alloc, fault) else {
        return Status::NoMemory;
    };
    match write_all(sink, &line) {
        Ok(()) => Status::BadFile,
        Err(_) => Status::WriteFault,
    }
}
