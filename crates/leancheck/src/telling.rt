//! What a person is told of a run that has ended, by its status.

use crate::status::Status;
use lk_messages::{
    Reading, Showing, tell_checked, tell_fault, tell_full, tell_no_memory, tell_no_name, tell_read,
    tell_usage, tell_write,
};
use std::alloc::Global;
use std::io::{Eprint, Read, Write};
use std::time::Clock;

/// Tells on standard error what a person may want to know of a run with these words that ended so; nothing where all is well.
pub fn tell<R: Eprint + Clock, I: Read + Drop, O: Write + Drop>(
    rt: &R,
    alloc: Global,
    status: Status,
    words: &[String],
    reading: &Reading<'_, I, R>,
    showing: &Showing<'_, O, R>,
    units: u64,
) {
    match status {
        Status::AllYes | Status::SomeNo | Status::SomeMemory => {
            tell_checked(rt, &reading.passed, units);
        }
        Status::Usage => tell_usage(rt, alloc, words),
        Status::BadFile => tell_fault(rt, &reading.passed, &showing.front),
        Status::ReadFault => tell_read(rt, reading.code),
        Status::WriteFault => tell_write(rt, showing.code),
        Status::NoMemory => tell_no_memory(rt),
        Status::NoSuchName => tell_no_name(rt, &reading.passed, units),
        Status::SessionFull => tell_full(rt),
    }
}
