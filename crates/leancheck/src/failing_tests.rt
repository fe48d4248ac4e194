//! Reads and writes that fail, each in turn.

use crate::run::run;
use crate::tests::{IDENTITY, words_of};
use lk_port::{FaultySink, FaultySource, MemSink, MemSource, OpenGate, Sink};
use std::alloc::{AllocError, Global};
use std::sync::Wait;
use std::test::Fail;
use std::thread::Threads;

const TOLD: &[u8] = b"yes thm 0 id\nunits 1 yes 1 no 0 memory 0\n";

/// The status of a check of these bytes, which are read at once.
fn status_of_check<R: Threads + Wait + Sync, K: Sink>(
    rt: &R,
    alloc: Global,
    bytes: &[u8],
    sink: &mut K,
) -> Result<u8, AllocError> {
    let words = words_of(alloc, "leancheck check")?;
    let bytes = Vec::from_slice(alloc, bytes)?;
    let mut source = MemSource { bytes, at: 0 };
    let end = run(rt, alloc, words.as_slice(), &mut source, sink, &OpenGate);
    Ok(end.code())
}

/// Whether a check that reads 16 bytes at a time, and whose reads fail at one call, ends with this status and so many
/// bytes written.
fn ends_at_read<R: Threads + Wait + Sync>(
    rt: &R,
    alloc: Global,
    call: u64,
    status: u8,
    written: usize,
) -> Result<bool, AllocError> {
    let words = words_of(alloc, "leancheck check")?;
    let bytes = Vec::from_slice(alloc, IDENTITY)?;
    let mut failing = Vec::new(alloc);
    failing.push(call)?;
    let mut source = FaultySource {
        inner: MemSource { bytes, at: 0 },
        greatest: 16,
        failing,
        call: 0,
        faults: 0,
    };
    let mut sink = MemSink::new(alloc, 4096)?;
    let end = run(
        rt,
        alloc,
        words.as_slice(),
        &mut source,
        &mut sink,
        &OpenGate,
    );
    Ok(end.code() == status && sink.bytes.len() == written)
}

// 126 bytes are read in eight calls, and the ninth finds the end.
#[test]
fn each_read_fails(rt: HostRuntime) -> Result<(), Fail> {
    let alloc = rt.alloc();
    for call in 0..9 {
        assert!(rt; ends_at_read(&rt, alloc, call, 4, 0)?, "{call}");
    }
    assert!(rt; ends_at_read(&rt, alloc, 9, 0, TOLD.len())?);
    Ok(())
}

/// A sink that takes so many bytes at a time, and fails at one call.
fn sink_that_fails(alloc: Global, greatest: usize, call: u64) -> Result<FaultySink, AllocError> {
    let mut failing = Vec::new(alloc);
    failing.push(call)?;
    Ok(FaultySink {
        inner: MemSink::new(alloc, 4096)?,
        greatest,
        failing,
        call: 0,
        faults: 0,
    })
}

/// Whether a check that writes 4 bytes at a time, and whose writes fail at one call, ends with this status and the
/// beginning of its text, of at most so many bytes.
fn ends_at_write<R: Threads + Wait + Sync>(
    rt: &R,
    alloc: Global,
    call: u64,
    status: u8,
    most: u64,
) -> Result<bool, AllocError> {
    let mut sink = sink_that_fails(alloc, 4, call)?;
    let end = status_of_check(rt, alloc, IDENTITY, &mut sink)?;
    let written = sink.inner.bytes.as_slice();
    Ok(end == status && written.len() as u64 <= most && TOLD.starts_with(written))
}

// 41 bytes are written in eleven calls.
#[test]
fn each_write_fails(rt: HostRuntime) -> Result<(), Fail> {
    let alloc = rt.alloc();
    for call in 0..11 {
        assert!(rt;
            ends_at_write(&rt, alloc, call, 5, call.saturating_mul(4))?,
            "{call}"
        );
    }
    assert!(rt; ends_at_write(&rt, alloc, 11, 0, 41)?);
    Ok(())
}

/// Whether a check of these bytes whose first write fails, or which takes no byte, ends with status 5 and nothing written.
fn writes_nothing<R: Threads + Wait + Sync>(
    rt: &R,
    alloc: Global,
    bytes: &[u8],
    greatest: usize,
    call: u64,
) -> Result<bool, AllocError> {
    let mut sink = sink_that_fails(alloc, greatest, call)?;
    let end = status_of_check(rt, alloc, bytes, &mut sink)?;
    Ok(end == 5 && sink.inner.bytes.is_empty())
}

#[test]
fn nothing_is_taken(rt: HostRuntime) -> Result<(), Fail> {
    let alloc = rt.alloc();
    assert!(rt; writes_nothing(&rt, alloc, IDENTITY, 0, 64)?);
    assert!(rt; writes_nothing(&rt, alloc, b"0 #ES 7\n", 0, 64)?);
    assert!(rt; writes_nothing(&rt, alloc, b"0 #ES 7\n", 64, 0)?);
    Ok(())
}
