ghost use Rattle.std.specs.Prelude.{◌≡◌, ◌<◌, ◌+◌, ◌^◌};
ghost use Rattle.lk_lines.specs.Limits.{limits};

use crate::Word;
use lk_token::MAX_LINE;

/// The input has at most this many bytes.
const MAX_INPUT: u64 = 1 << 40;

/// The fault of a line's length, which comes before any fault of its fields.
///
/// `before` bytes of the input stand before the line, which has `length` bytes up to its line feed
/// or the end of the input; `feed` says that a line feed ends it. InputTooLong, where byte number
/// 2^40 + 1 of the input stands in the line, its line feed counted, comes before LineTooLong. So a
/// line that a buffer shows to be too long is read on to its end, or to that byte.
pub fn limit_fault(before: u64, length: u64, feed: bool) -> Option<Word>
    requires { before + length + 1 < 2 ^ 64 }
    ensures { result ≡ limits before length feed }
{
    let end = if feed {
        before + length + 1
    } else {
        before + length
    };
    if end > MAX_INPUT {
        Some(Word::InputTooLong)
    } else if length > MAX_LINE as u64 {
        Some(Word::LineTooLong)
    } else {
        None
    }
}
