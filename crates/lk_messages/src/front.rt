//! The first bytes of what passes.

ghost use Rattle.std.specs.Prelude.{◌≤◌};

/// So many bytes are kept at most.
const MOST: usize = 80;

/// The first bytes of what passes, 80 at most.
#[derive(Clone, Copy)]
pub struct Front {
    bytes: [u8; MOST],
    count: usize,
    ghost within: { count ≤ 80 },
}

impl Front {
    /// None yet.
    pub fn new() -> Front {
        Front {
            bytes: [0; MOST],
            count: 0,
        }
    }

    /// Keeps the first of these bytes, as far as there is room.
    pub fn push(&mut self, bytes: &[u8]) {
        let count = bytes.len().min(MOST - self.count);
        let end = self.count + count;
        self.bytes[self.count..end].copy_from_slice(&bytes[..count]);
        self.count = end;
    }

    /// What is kept.
    pub fn as_slice(&self) -> &[u8] {
        &self.bytes[..self.count]
    }
}
