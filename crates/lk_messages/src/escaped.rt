//! Text for a terminal: what a terminal may take for a command is shown by its bytes.

ghost use Rattle.std.specs.Prelude.{◌≤◌, length};

use bstr::decode_utf8;
use std::fmt;

/// At most so many characters are looked at in one go.
const MOST: usize = 4096;

/// Whether a terminal may take a character for a command, or turn the direction of writing by it.
fn is_command(c: char) -> bool {
    if c == '\n' {
        return false;
    }
    c.is_control()
        || matches!(c, '\u{200e}' | '\u{200f}' | '\u{2028}'..='\u{202e}' | '\u{2066}'..='\u{2069}')
}

/// The first character of bytes and what stands behind it, and whether it may be shown as it is; bytes that are no UTF-8 may not.
/// There is none where there are no bytes.
pub fn first(bytes: &[u8]) -> Option<(&[u8], &[u8], bool)> {
    let (c, count) = decode_utf8(bytes);
    let (now, more) = bytes.split_at_checked(count.max(1))?;
    let is_plain = match c {
        Some(c) => !is_command(c),
        None => false,
    };
    Some((now, more, is_plain))
}

/// How many bytes at the front may be shown as they are.
pub fn plain_count(bytes: &[u8]) -> usize {
    let mut count: usize = 0;
    let mut rest = bytes;
    for _ in 0..MOST {
        match first(rest) {
            Some((now, more, true)) => {
                count = count.saturating_add(now.len());
                rest = more;
            }
            _ => return count,
        }
    }
    count
}

/// A byte as it is shown.
pub fn shown(byte: u8) -> [u8; 4] {
    const DIGITS: &[u8; 16] = b"0123456789abcdef";
    [
        b'\\',
        b'x',
        DIGITS[usize::from(byte >> 4)],
        DIGITS[usize::from(byte & 15)],
    ]
}

/// Bytes as a terminal may show them, without line feeds.
#[derive(Clone, Copy)]
pub struct Escaped<'a>(pub &'a [u8]);

impl fmt::Display for Escaped<'_> {
    fn fmt<W: fmt::Write>(&self, f: &mut fmt::Formatter<W>) -> fmt::Result {
        for chunk in self.0.utf8_chunks() {
            for c in chunk.valid().chars() {
                if is_command(c) || c == '\n' {
                    let mut room = [0; 4];
                    for byte in c.encode_utf8(&mut room).as_bytes() {
                        write!(f, "\\x{byte:02x}")?;
                    }
                } else {
                    f.write_char(c)?;
                }
            }
            for byte in chunk.invalid() {
                write!(f, "\\x{byte:02x}")?;
            }
        }
        Ok(())
    }
}
