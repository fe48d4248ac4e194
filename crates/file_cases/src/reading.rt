//! What reading a file gives, at once, in pieces and where a read fails.
ghost use Rattle.std.specs.Prelude.{◌≤◌};

use lk_book::{ReadError, read_library};
use lk_port::{FaultySource, MemSource};
use std::alloc::{AllocError, Global};
use std::{fmt, io};

/// The greatest piece that reading asks for.
pub const AT_ONCE: usize = 1 << 16;

/// What reading gives.
#[derive(Clone, Copy, PartialEq)]
pub enum Answer {
    /// So many units.
    Units(usize),
    /// The first fault: its line and its word.
    Fault(u64, &'static str),
    ReadFault,
    NoMemory,
}

impl fmt::Display for Answer {
    fn fmt<W: fmt::Write>(&self, f: &mut fmt::Formatter<W>) -> fmt::Result {
        match self {
            Answer::Units(count) => write!(f, "units {count}"),
            Answer::Fault(line, word) => write!(f, "bad line {line} {word}"),
            Answer::ReadFault => f.write_str("read fault"),
            Answer::NoMemory => f.write_str("no memory"),
        }
    }
}

/// The list of the calls that fail.
fn calls(alloc: Global, failing: Option<u64>) -> Result<Vec<u64>, AllocError> {
    match failing {
        Some(call) => Vec::from_slice(alloc, &[call]),
        None => Ok(Vec::new(alloc)),
    }
}

/// What reading a source gives.
fn read(alloc: Global, source: &mut FaultySource) -> Answer {
    match read_library(alloc, source) {
        Ok(library) => Answer::Units(library.units().len()),
        Err(ReadError::Fault(fault)) => Answer::Fault(fault.line, fault.word.text()),
        Err(ReadError::ReadFault) => Answer::ReadFault,
        Err(ReadError::NoMemory) => Answer::NoMemory,
    }
}

/// What reading a file gives, in pieces of at most so many bytes, where the read `failing` fails.
pub fn answer_of(alloc: Global, file: &[u8], greatest: usize, failing: Option<u64>) -> Answer
    requires { 1 ≤ greatest }
{
    let (Ok(bytes), Ok(failing)) = (Vec::from_slice(alloc, file), calls(alloc, failing)) else {
        return Answer::NoMemory;
    };
    let mut source = FaultySource {
        inner: MemSource { bytes, at: 0 },
        greatest,
        failing,
        call: 0,
        faults: 0,
    };
    read(alloc, &mut source)
}

/// Reads a file again, in pieces of at most so many bytes: 1 where that gives the answer that is
/// wanted; else 0, and what it gives is written.
fn is_alike(
    rt: &impl Print,
    alloc: Global,
    file: &[u8],
    greatest: usize,
    want: Answer,
) -> io::Result<u64>
    requires { 1 ≤ greatest }
{
    let found = answer_of(alloc, file, greatest, None);
    if found == want {
        return Ok(1);
    }
    println!(rt; "  but in pieces of {greatest}: {found}")?;
    Ok(0)
}

/// Reads a file again, in pieces of six sizes, with and without its last line feed. It says how
/// many of these readings give the answer that is wanted, and writes what others give.
pub fn read_in_pieces(
    rt: &impl Print,
    alloc: Global,
    file: &[u8],
    want: Answer,
) -> io::Result<u64> {
    let open = match file {
        [open @ .., b'\n'] => open,
        _ => file,
    };
    let mut alike = 0u64;
    for greatest in [1, 2, 7, 16, 1000, AT_ONCE] {
        let ended = is_alike(rt, alloc, file, greatest, want)?;
        let unended = is_alike(rt, alloc, open, greatest, want)?;
        alike = alike.saturating_add(ended).saturating_add(unended);
    }
    Ok(alike)
}

/// Reads a file byte by byte where one of its first reads fails. It says how many of these
/// readings tell that, and writes what others give.
pub fn read_with_faults(rt: &impl Print, alloc: Global, file: &[u8]) -> io::Result<u64> {
    let mut told = 0u64;
    for call in 0..3 {
        // Of a file of n bytes there are n reads and the one that finds its end.
        if call <= file.len() as u64 {
            let found = answer_of(alloc, file, 1, Some(call));
            if found == Answer::ReadFault {
                told = told.saturating_add(1);
            } else {
                println!(rt; "  but where read {call} fails: {found}")?;
            }
        }
    }
    Ok(told)
}
