//! Texts that callers add to one list at one time, checked, and what is told of them.

ghost use Rattle.std.specs.Prelude.{◌≡◌, ◌≢◌, ◌≤◌, ◌⊎◌, ℕ, List, IfSome, IfOk, Ok, Err};
ghost use Rattle.std.specs.Io.KnownBytes.{Appends};
ghost use Rattle.lk_port.specs.Bytes.{Rose};
ghost use Rattle.lk_lines.specs.declared.line.Fault.{Fault as LineFault};
ghost use Rattle.lk_book.specs.Texts.{text_of, texts_of};
ghost use Rattle.lk_session.specs.Texts.{AreFaultless};
ghost use Rattle.lk_callers.specs.Owned.{bytes_in};
ghost use Rattle.lk_text.specs.Text.{bad_line};
ghost use Rattle.leancheck.specs.Ends.{full_line, GivesSession, IsDone, IsEndOfSession, SessionPrefix};
ghost use Rattle.leancheck.specs.Ends.{TellsSession};

use crate::checker::{Checker, MEMO_FOR_ONE, Watch};
use crate::fault::tell_fault;
use crate::status::{Status, status_of};
use lk_book::{ReadError, read_texts};
use lk_callers::{SessionError, SessionReport, check_texts};
use lk_command::Callers;
use lk_port::{Gate, Sink, Source, write_all};
use lk_store::memory::NoMemory;
use std::alloc::Global;
use std::sync::Wait;
use std::thread::Threads;

/// A gate that is told of each unit once it was checked. That a unit is checked next, it is told by
/// whoever hands the unit on.
#[derive(Clone, Copy)]
struct AfterUnits<'a, G> {
    gate: &'a G,
}

impl<G: Gate> Watch for AfterUnits<'_, G> {
    fn before_unit(&self, _unit: u32) {}

    fn after_unit(&self, unit: u32, yes: bool) {
        self.gate.after_unit(unit, yes);
    }
}

/// The line that says that the texts have too many units for one list.
fn full_line(alloc: Global) -> Result<Vec<u8>, NoMemory>
    ensures { IfOk result (λ v. v.items ≡ full_line) }
{
    let line = Vec::from_slice(alloc, b"full\n")?;
    Ok(line)
}

/// What is told of the texts, and the status.
fn told<R: Threads + Wait + Sync, G: Gate>(
    rt: &R,
    alloc: Global,
    callers: Callers,
    texts: &[Vec<u8>],
    gate: &G,
) -> Result<(Vec<u8>, Status), NoMemory>
    requires callers { 1 ≤ callers.workers }
    requires faultless { AreFaultless text_of (bytes_in texts.now) }
    ensures gives { (bytes : List ℕ) → texts_of bytes ≡ Ok (bytes_in texts.now)
        → GivesSession callers bytes result }
    ensures status { IfOk result (λ r. IsEndOfSession r.1) }
{
    let checker = Checker {
        steps: callers.steps,
        kept: MEMO_FOR_ONE,
        watch: &AfterUnits { gate },
    };
    match check_texts(rt, alloc, texts, callers.workers, &checker, gate) {
        Ok(SessionReport { text, verdicts }) => {
            let status = status_of(&verdicts);
            Ok((text, status))
        }
        Err(SessionError::Full) => Ok((full_line(alloc)?, Status::SessionFull)),
        Err(SessionError::NoMemory) => Err(NoMemory),
    }
}

/// Writes what is to be told of the texts.
fn tell_texts<R: Threads + Wait + Sync, K: Sink, G: Gate>(
    rt: &R,
    alloc: Global,
    callers: Callers,
    texts: &[Vec<u8>],
    sink: &mut K,
    gate: &G,
) -> Status
    requires callers { 1 ≤ callers.workers }
    requires faultless { AreFaultless text_of (bytes_in texts.now) }
    ensures told { IsEndOfSession result
        → ((bytes : List ℕ) → texts_of bytes ≡ Ok (bytes_in texts.now)
        → TellsSession callers bytes result (K.written sink.old) (K.written sink.new))
        × (K.faults sink.new ≡ K.faults sink.old) }
    ensures failed { result ≡ Status.WriteFault
        → ((bytes : List ℕ) → texts_of bytes ≡ Ok (bytes_in texts.now)
        → SessionPrefix callers bytes (K.written sink.old) (K.written sink.new))
        × Rose (K.faults sink.old) (K.faults sink.new) }
    ensures no_memory { result ≡ Status.NoMemory → sink.new ≡ sink.old }
    ensures only { IsEndOfSession result ⊎ (result ≡ Status.WriteFault)
        ⊎ (result ≡ Status.NoMemory) }
{
    match told(rt, alloc, callers, texts, gate) {
        Ok((text, status)) => match write_all(sink, &text) {
            Ok(()) => status,
            Err(_) => Status::WriteFault,
        },
        Err(_) => Status::NoMemory,
    }
}

/// Reads texts from the source, has them added to one list by callers at one time, checks the list's
/// units, and writes to the sink what is to be told of the texts.
pub fn session<R: Threads + Wait + Sync, S: Source, K: Sink, G: Gate>(
    rt: &R,
    alloc: Global,
    callers: Callers,
    source: &mut S,
    sink: &mut K,
    gate: &G,
) -> Status
    requires { 1 ≤ callers.workers }
    ensures no_usage { result ≢ Status.Usage }
    ensures read { result ≡ Status.ReadFault → Rose (S.faults source.old) (S.faults source.new)
        × (K.written sink.new ≡ K.written sink.old) }
    ensures no_read { result ≢ Status.ReadFault → S.faults source.new ≡ S.faults source.old }
    ensures bad { result ≡ Status.BadFile
        → ((f : LineFault) × IfSome (S.left source.old) (λ bytes. texts_of bytes ≡ Err f)
        × Appends (K.written sink.old) (K.written sink.new) (bad_line f)) }
    ensures ends { IsDone result → IsEndOfSession result }
    ensures tells { IsEndOfSession result → IfSome (S.left source.old) (λ bytes.
        TellsSession callers bytes result (K.written sink.old) (K.written sink.new)) }
    ensures write { result ≡ Status.WriteFault → Rose (K.faults sink.old) (K.faults sink.new) }
    ensures no_write { result ≢ Status.WriteFault → K.faults sink.new ≡ K.faults sink.old }
    ensures prefix { result ≡ Status.WriteFault → IfSome (S.left source.old) (λ bytes.
        SessionPrefix callers bytes (K.written sink.old) (K.written sink.new)) }
    ensures no_memory { result ≡ Status.NoMemory → K.written sink.new ≡ K.written sink.old }
{
    match read_texts(alloc, source) {
        Ok(texts) => tell_texts(rt, alloc, callers, &texts, sink, gate),
        Err(ReadError::ReadFault) => Status::ReadFault,
        Err(ReadError::NoMemory) => Status::NoMemory,
        Err(ReadError::Fault(fault)) => tell_fault(alloc, fault, sink),
    }
}
