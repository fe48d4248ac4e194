//! Standard input, of which it is kept what a message may need.

use crate::passed::Passed;
use crate::progress::Progress;
use std::alloc::Global;
use std::io::{Eprint, Error, Read, Result};
use std::time::Clock;

/// A reader of which it is told how much was read.
#[derive(Drop)]
pub struct Reading<'a, I: Read + Drop, R: Eprint + Clock> {
    inner: I,
    rt: &'a R,
    progress: &'a Progress<'a, R>,
    /// Whether a terminal is read, and nothing was asked of it yet.
    waits: bool,
    /// What is kept of what was read.
    pub passed: Passed,
    /// Why the last read failed, by the system's code.
    pub code: Option<i32>,
}

impl<'a, I: Read + Drop, R: Eprint + Clock> Reading<'a, I, R> {
    /// A reader of which nothing was asked yet.
    pub fn new(
        alloc: Global,
        inner: I,
        is_terminal: bool,
        rt: &'a R,
        progress: &'a Progress<'a, R>,
    ) -> Reading<'a, I, R> {
        Reading {
            inner,
            rt,
            progress,
            waits: is_terminal,
            passed: Passed::new(alloc),
            code: None,
        }
    }

    /// Tells once that input is waited for, where a person has to give it.
    fn tell_wait(&mut self) {
        if self.waits {
            self.waits = false;
            let _ = eprintln!(self.rt;
                "leancheck: waiting for an export on standard input; Ctrl-D ends it"
            );
        }
    }

    fn note_error(&mut self, error: &Error) {
        self.code = error.raw_os_error();
    }
}

impl<'a, I: Read + Drop, R: Eprint + Clock> Read for Reading<'a, I, R> {
    fn read(&mut self, buf: &mut [u8]) -> Result<usize> {
        self.tell_wait();
        match self.inner.read(buf) {
            Ok(count) => {
                self.progress.took(count);
                self.passed.pass(&buf[..count]);
                Ok(count)
            }
            Err(error) => {
                self.note_error(&error);
                Err(error)
            }
        }
    }
}
