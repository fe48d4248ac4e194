//! Standard output: the line of progress is taken away before it, and a terminal gets no commands.

ghost use Rattle.std.specs.Io.{WritesAtMost};

use crate::escaped::{first, plain_count, shown};
use crate::front::Front;
use crate::progress::Progress;
use std::io::{Eprint, Result, Write};
use std::time::Clock;

/// A writer that keeps what a message may need of what is written.
#[derive(Drop)]
pub struct Showing<'a, O: Write + Drop, R: Eprint + Clock> {
    inner: O,
    progress: &'a Progress<'a, R>,
    /// Whether a terminal is written to, which takes some characters for commands.
    is_terminal: bool,
    /// The first bytes of what was written.
    pub front: Front,
    /// Why the last write failed, by the system's code.
    pub code: Option<i32>,
}

impl<'a, O: Write + Drop, R: Eprint + Clock> Showing<'a, O, R> {
    /// A writer to which nothing was written yet.
    pub fn new(inner: O, is_terminal: bool, progress: &'a Progress<'a, R>) -> Showing<'a, O, R> {
        Showing {
            inner,
            progress,
            is_terminal,
            front: Front::new(),
            code: None,
        }
    }

    /// Writes what may be shown as it is, or else one character by its bytes; tells how many bytes that were.
    fn write_shown(&mut self, buf: &[u8]) -> Result<usize>
        ensures { WritesAtMost result buf.now }
    {
        let Some((plain, _)) = buf.split_at_checked(plain_count(buf)) else {
            return Ok(0);
        };
        if !plain.is_empty() {
            return self.inner.write(plain);
        }
        let Some((command, _, _)) = first(buf) else {
            return Ok(0);
        };
        for byte in command {
            self.inner.write_all(&shown(*byte))?;
        }
        Ok(command.len().min(buf.len()))
    }
}

impl<'a, O: Write + Drop, R: Eprint + Clock> Write for Showing<'a, O, R> {
    fn write(&mut self, buf: &[u8]) -> Result<usize> {
        self.progress.end();
        let result = if self.is_terminal {
            self.write_shown(buf)
        } else {
            self.inner.write(buf)
        };
        match result {
            Ok(count) => {
                self.front.push(&buf[..count]);
                Ok(count)
            }
            Err(error) => {
                self.code = error.raw_os_error();
                Err(error)
            }
        }
    }

    fn flush(&mut self) -> Result<()> {
        self.inner.flush()
    }
}
