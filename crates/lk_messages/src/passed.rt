//! What is kept of an input that passes: a few bytes of it, so that whoever sends much takes no more room.

use crate::front::Front;
use memchr::{memchr, memrchr};
use std::alloc::Global;

/// How many line feeds there are. Each small sum fits a byte, so that many bytes are looked at in one step.
fn line_feeds(bytes: &[u8]) -> u64 {
    let mut all: u64 = 0;
    for piece in bytes.chunks(192) {
        let mut some: u8 = 0;
        for byte in piece {
            some = some.wrapping_add(u8::from(*byte == b'\n'));
        }
        all = all.saturating_add(u64::from(some));
    }
    all
}

/// What stands behind the first line feed.
fn behind_line(bytes: &[u8]) -> Option<&[u8]> {
    let (_, behind) = bytes.split_at_checked(memchr(b'\n', bytes)?)?;
    let (_, rest) = behind.split_first()?;
    Some(rest)
}

/// What is kept of an input.
#[derive(Drop)]
pub struct Passed {
    /// Its first bytes.
    pub front: Front,
    /// Whether it was asked for at all.
    pub is_read: bool,
    /// Whether it ended, or may have ended, in the middle of a line.
    pub is_open: bool,
    /// How many lines ended before the last piece; nothing where that is not known.
    lines: Option<u64>,
    /// The first bytes of the line that was open where the last piece began.
    open: Front,
    /// The last piece.
    piece: Vec<u8>,
}

impl Passed {
    /// Nothing has passed.
    pub fn new(alloc: Global) -> Passed {
        Passed {
            front: Front::new(),
            is_read: false,
            is_open: false,
            lines: Some(0),
            open: Front::new(),
            piece: Vec::new(alloc),
        }
    }

    /// These bytes pass.
    pub fn pass(&mut self, bytes: &[u8]) {
        self.is_read = true;
        let Some(last) = bytes.last() else {
            return;
        };
        self.is_open = *last != b'\n';
        self.front.push(bytes);
        self.leave_piece();
        if self.piece.extend_from_slice(bytes).is_err() {
            self.lines = None;
        }
    }

    /// Keeps of the last piece how many lines ended in it, and the first bytes of the line that is open behind it.
    fn leave_piece(&mut self) {
        let ended = line_feeds(&self.piece);
        self.lines = match self.lines {
            Some(lines) => Some(lines.saturating_add(ended)),
            None => None,
        };
        match memrchr(b'\n', &self.piece) {
            Some(at) => {
                self.open = Front::new();
                self.open.push(&self.piece[at + 1..]);
            }
            None => self.open.push(&self.piece),
        }
        self.piece.clear();
    }

    /// The first bytes of a line, by its number from 1 on, where they are kept still.
    pub fn line(&self, number: u64) -> Option<Front> {
        let before = self.lines?;
        let mut ahead = number.checked_sub(before)?.checked_sub(1)?;
        let mut front = self.open;
        let mut rest = self.piece.as_slice();
        for _ in 0..self.piece.len() {
            if ahead == 0 {
                break;
            }
            ahead -= 1;
            rest = behind_line(rest)?;
            front = Front::new();
        }
        if ahead > 0 {
            return None;
        }
        match memchr(b'\n', rest) {
            Some(at) => front.push(&rest[..at]),
            None => front.push(rest),
        }
        Some(front)
    }
}
