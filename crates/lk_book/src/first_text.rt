//! The first text of an input.
ghost use Rattle.std.specs.Prelude.{◌≡◌};
ghost use Rattle.lk_token.specs.Fields.{fields_of};
ghost use Rattle.lk_book.specs.Texts.{parts_texts, has_extra};
ghost use Rattle.lk_book.specs.ReadingTexts.{IsFirstText};

use crate::MAX_LINE;
use crate::lines::cut;
use lk_token::next_field;

/// The first text of an input. A line `#GO` ends it, or the end of the input.
#[derive(Clone, Copy)]
pub(crate) struct FirstText {
    /// How many bytes it has.
    pub(crate) bytes: usize,
    /// How many lines. Where a line `#GO` ends it, the last of them is empty, and stands where that
    /// line is.
    pub(crate) lines: u64,
    /// How many bytes that line has, with its line feed.
    pub(crate) ending: usize,
    /// Whether that line has another field.
    pub(crate) extra: bool,
    /// Whether the end of the input ends it.
    pub(crate) last: bool,
}

/// Whether the line ends a text.
fn parts_texts(line: &[u8]) -> bool
    ensures { result ≡ parts_texts line.now }
{
    if line.len() > MAX_LINE {
        return false;
    }
    match next_field(line) {
        None => false,
        Some((field, _)) => field == b"#GO".as_slice(),
    }
}

/// Whether the line has another field behind its first.
fn has_extra(line: &[u8]) -> bool
    ensures { result ≡ has_extra (fields_of line.now) }
{
    match next_field(line) {
        None => false,
        Some((_, rest)) => next_field(rest).is_some(),
    }
}

/// The first text of an input.
pub(crate) fn first_text(bytes: &[u8]) -> FirstText
    ensures { IsFirstText bytes.now result }
{
    let mut rest = bytes;
    let mut count = 0;
    let mut lines = 1;
    while let Some((line, more)) = cut(rest) {
        if parts_texts(line) {
            return FirstText {
                bytes: count,
                lines,
                ending: line.len() + 1,
                extra: has_extra(line),
                last: false,
            };
        }
        count += line.len() + 1;
        lines += 1;
        rest = more;
    }
    if parts_texts(rest) {
        return FirstText {
            bytes: count,
            lines,
            ending: rest.len(),
            extra: has_extra(rest),
            last: false,
        };
    }
    FirstText {
        bytes: bytes.len(),
        lines,
        ending: 0,
        extra: false,
        last: true,
    }
}
