//! Lines that are too long to be held. Their bytes say nothing but how many they are.
ghost use Rattle.std.specs.Prelude.{◌≡◌, ◌+◌, ◌-◌, ◌≤◌, ◌<◌, ◌^◌, ◌∷◌, ◌++◌, ℕ, List, length, Some, true, IfOk, IfErr};
ghost use Rattle.lk_token.specs.Lines.{HasNoLineFeed};
ghost use Rattle.lk_lines.specs.Limits.{limits};
ghost use Rattle.lk_port.specs.Bytes.{CountsFailure};
ghost use Rattle.lk_book.specs.File.{lines_of};
ghost use Rattle.lk_book.specs.Reading.{first_limits, ConsumesSome};

use crate::MAX_INPUT;
use crate::lines::cut;
use lk_lines::{Word, limit_fault};
use lk_port::{Failed, Source};

/// The fault of a line that is too long.
fn word_of(before: u64, length: u64, feed: bool) -> Word
    requires long { 2 ^ 24 < length }
    requires room { before + length + 1 < 2 ^ 64 }
    ensures { limits before length feed ≡ Some result }
{
    match limit_fault(before, length, feed) {
        Some(word) => word,
        None => unreachable!(),
    }
}

/// How long a line is behind a piece of the input, or its fault, where it ends there or is beyond the input's limit.
#[tactic(auto, using(crate::proofs::LongLines::ends, crate::proofs::LongLines::beyond))]
fn count_piece(before: u64, count: u64, piece: &[u8]) -> Result<u64, Word>
    requires long { 2 ^ 24 < count }
    requires room { before + count + length piece.now + 1 < 2 ^ 64 }
    ensures on { IfOk result (λ n. (n ≡ count + length piece.now) × (before + n ≤ 2 ^ 40)) }
    ensures unfinished { IfOk result (λ n. HasNoLineFeed piece.now) }
    ensures word { (begun rest : List ℕ) → HasNoLineFeed begun → length begun ≡ count
        → IfErr result (λ w. first_limits before (lines_of (begun ++ (piece.now ++ rest)))
        ≡ Some w) }
{
    match cut(piece) {
        Some((line, _)) => Err(word_of(before, count + line.len() as u64, true)),
        None => {
            let count = count + piece.len() as u64;
            if before + count > MAX_INPUT {
                Err(Word::InputTooLong)
            } else {
                Ok(count)
            }
        }
    }
}

/// Reads on through a line that is too long to be held, to its line feed, to the end of the input or beyond the
/// input's limit, and gives its fault. `held` bytes of it were read, and `before` bytes stand before it. It is read into
/// `piece`, whose bytes are lost.
pub fn long_line<S: Source>(
    source: &mut S,
    piece: &mut [u8],
    before: u64,
    held: u64,
) -> Result<Word, Failed>
    requires piece { length piece.old ≡ 2 ^ 16 }
    requires long { 2 ^ 24 < held }
    requires room { before + held < 2 ^ 41 }
    ensures word { (begun bytes : List ℕ) → HasNoLineFeed begun → length begun ≡ held
        → S.left source.old ≡ Some bytes
        → IfOk result (λ w. first_limits before (lines_of (begun ++ bytes)) ≡ Some w) }
    ensures front { ConsumesSome (S.left source.old) (S.left source.new) }
    ensures count { CountsFailure (S.faults source.old) (S.faults source.new) result }
{
    let mut count = held;
    loop {
        let read = source.read(piece)?;
        if read == 0 {
            return Ok(word_of(before, count, false));
        }
        match count_piece(before, count, &piece[..read]) {
            Ok(more) => count = more,
            Err(word) => return Ok(word),
        }
    }
}
