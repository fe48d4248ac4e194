//! What is told of a run by its end.

use crate::escaped::Escaped;
use crate::fault::{likely, meaning, told_fault};
use crate::format::seems;
use crate::front::Front;
use crate::passed::Passed;
use std::io::{Eprint, Error, ErrorKind};

/// Tells where an export that was checked seems to be cut off: there is nothing in it, or it ends in the middle of a line.
pub fn tell_checked<R: Eprint>(rt: &R, passed: &Passed, units: u64) {
    if !passed.is_read {
        return;
    }
    if passed.front.as_slice().is_empty() {
        let _ = eprintln!(rt;
            "leancheck: the input is empty, so nothing was checked; did the exporter fail?"
        );
    } else if units == 0 {
        let _ = eprintln!(rt;
            "leancheck: the input has no declaration at all, so nothing was checked; did the exporter fail?"
        );
    } else if passed.is_open {
        let _ = eprintln!(rt;
            "leancheck: the last line has no line feed; the export may be cut off"
        );
    }
}

/// Tells of a fault, by its line as it was written: the line, what the word means, and what the input seems to be.
pub fn tell_fault<R: Eprint>(rt: &R, passed: &Passed, output: &Front) {
    if let Some(fault) = told_fault(output) {
        let number = fault.number;
        let meaning = meaning(fault.word);
        let _ = eprintln!(rt; "leancheck: line {number} of the input: {meaning}");
        if let Some(line) = passed.line(number) {
            let shown = Escaped(line.as_slice());
            let _ = eprintln!(rt; "leancheck: the line is: {shown}");
            if let Some(likely) = likely(line.as_slice(), &fault) {
                let _ = eprintln!(rt; "leancheck: {likely}");
            }
        }
    }
    if let Some(kind) = seems(passed.front.as_slice()) {
        let _ = eprintln!(rt; "leancheck: {kind}");
    } else if passed.is_open {
        let _ = eprintln!(rt;
            "leancheck: the input ends in the middle of a line; it may be cut off"
        );
    }
}

/// Tells why a read failed.
pub fn tell_read<R: Eprint>(rt: &R, code: Option<i32>) {
    match code {
        Some(code) => {
            let reason = Error::from_raw_os_error(code);
            let _ = eprintln!(rt; "leancheck: standard input cannot be read: {reason}");
        }
        None => {
            let _ = eprintln!(rt; "leancheck: standard input cannot be read");
        }
    }
}

/// Tells why a write failed.
pub fn tell_write<R: Eprint>(rt: &R, code: Option<i32>) {
    match code {
        Some(code) => {
            let reason = Error::from_raw_os_error(code);
            if reason.kind() == ErrorKind::BrokenPipe {
                let _ = eprintln!(rt;
                    "leancheck: standard output was closed before all was written"
                );
            } else {
                let _ = eprintln!(rt;
                    "leancheck: standard output cannot be written, and is not whole: {reason}"
                );
            }
        }
        None => {
            let _ = eprintln!(rt; "leancheck: standard output takes no more, and is not whole");
        }
    }
}

/// Tells that no declaration has the name that was asked for, and where an export seems to be cut off.
pub fn tell_no_name<R: Eprint>(rt: &R, passed: &Passed, units: u64) {
    tell_checked(rt, passed, units);
    let _ = eprintln!(rt;
        "leancheck: no declaration has this name; names are as check writes them, such as Nat.rec"
    );
}

/// Tells that the exports of a session have more declarations than it takes.
pub fn tell_full<R: Eprint>(rt: &R) {
    let _ = eprintln!(rt;
        "leancheck: the exports have more than 65536 declarations in all, and a session takes no more"
    );
}

/// Tells that memory was wanting before anything was written.
pub fn tell_no_memory<R: Eprint>(rt: &R) {
    let _ = eprintln!(rt; "leancheck: out of memory; nothing was written");
}
