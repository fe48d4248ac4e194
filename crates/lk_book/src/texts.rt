//! The texts of an input, which lines `#GO` part, read from a source.
ghost use Rattle.std.specs.Prelude.{◌≡◌, ◌≢◌, ◌+◌, ◌<◌, ◌≤◌, ◌^◌, ℕ, List, length, take, IfOk, IfErr, OnOk, Some, Ok, Err};
ghost use Rattle.std.specs.Io.KnownBytes.{IsAtEnd};
ghost use Rattle.lk_port.specs.Bytes.{Rose};
ghost use Rattle.lk_book.specs.Courses.{Fails, IsCounted};
ghost use Rattle.lk_book.specs.File.{lines_of};
ghost use Rattle.lk_book.specs.Texts.{ending_fault, cut_stated, moved, texts_of};
ghost use Rattle.lk_book.specs.ReadingTexts.{cut_of, IsFirstText, States, line_named, moved_error, source_error, bytes_of_each, ReadsTexts, AreOfSome};

use crate::file::lines_and_budgets;
use crate::first_text::{FirstText, first_text};
use crate::text::{closed_units, text_lines};
use crate::{MAX_INPUT, ReadError};
use lk_lines::{Fault, LineError, Word};
use lk_port::{Source, read_all};
use lk_store::base_store::BaseStore;
use std::alloc::Global;

/// The fault of the line that ends a text of so many bytes, where so many stand before it.
fn ending_fault(before: u64, bytes: u64, first: FirstText) -> Option<Word>
    requires before { before ≤ 2 ^ 40 }
    requires room { bytes + first.ending < 2 ^ 64 }
    ensures { (text : List ℕ) → length text ≡ bytes
        → result ≡ ending_fault before (cut_of text first) }
{
    if bytes + first.ending as u64 > MAX_INPUT - before {
        Some(Word::InputTooLong)
    } else if first.extra {
        Some(Word::ExtraField)
    } else {
        None
    }
}

/// Whether a text that was cut off an input states units; or its fault. What it states is dropped:
/// whoever wants its units reads it again.
fn check_text(alloc: Global, before: u64, text: &[u8], first: FirstText) -> Result<(), LineError>
    requires before { before ≤ 2 ^ 40 }
    requires room { length text.now + first.ending < 2 ^ 64 }
    requires lines { first.lines ≡ length (lines_of text.now) }
    ensures ok { OnOk result (States before (cut_of text.now first)) }
    ensures within { OnOk result (before + (length text.now + first.ending) ≤ 2 ^ 40) }
    ensures fault { IfErr result (λ e. Fails e (cut_stated before (cut_of text.now first))) }
{
    let mut store = BaseStore::new(alloc);
    let assembler = match text_lines(alloc, &mut store, before, text) {
        Ok(assembler) => assembler,
        Err(error) => return Err(error),
    };
    if let Some(word) = ending_fault(before, text.len() as u64, first) {
        return Err(LineError::Fault(Fault {
            line: first.lines,
            word,
        }));
    }
    let (members, _budgets) = lines_and_budgets(assembler);
    match closed_units(alloc, &store, members) {
        Ok(_units) => Ok(()),
        Err(error) => Err(error),
    }
}

/// The error of a text, where so many lines stand before it.
fn behind_lines(lines: u64, error: LineError) -> LineError
    requires { lines + line_named error < 2 ^ 64 }
    ensures { result ≡ moved_error lines error }
{
    match error {
        LineError::NoMemory => LineError::NoMemory,
        LineError::Fault(fault) => LineError::Fault(Fault {
            line: lines + fault.line,
            word: fault.word,
        }),
    }
}

/// The first text of what is left of an input, where it has no fault; or its fault. So many lines
/// and bytes stand before it.
fn take_text(
    alloc: Global,
    lines: u64,
    before: u64,
    rest: &[u8],
    first: FirstText,
) -> Result<Vec<u8>, LineError>
    requires first { IsFirstText rest.now first }
    requires counted { IsCounted lines before }
    ensures text { IfOk result (λ t. t.items ≡ take first.bytes rest.now) }
    ensures ok { OnOk result (States before (cut_of (take first.bytes rest.now) first)) }
    ensures within { OnOk result (before + (first.bytes + first.ending) ≤ 2 ^ 40) }
    ensures fault { IfErr result (λ e. Fails e
        (moved lines (cut_stated before (cut_of (take first.bytes rest.now) first)))) }
{
    let (text, _behind) = rest.split_at(first.bytes);
    match check_text(alloc, before, text, first) {
        Ok(()) => {}
        Err(error) => return Err(behind_lines(lines, error)),
    }
    match Vec::from_slice(alloc, text) {
        Ok(copy) => Ok(copy),
        Err(_) => Err(LineError::NoMemory),
    }
}

/// The texts of an input; or the fault of the first that has one.
fn texts_in(alloc: Global, bytes: &[u8]) -> Result<Vec<Vec<u8>>, LineError>
    ensures texts { IfOk result (λ ts. texts_of bytes.now ≡ Ok (bytes_of_each ts)) }
    ensures fault { IfErr result (λ e. Fails e (texts_of bytes.now)) }
{
    let mut texts = Vec::new(alloc);
    let mut rest = bytes;
    let mut lines = 0;
    let mut before = 0;
    'texts: loop {
        let first = first_text(rest);
        let text = take_text(alloc, lines, before, rest, first)?;
        match texts.push(text) {
            Ok(()) => {}
            Err(_) => return Err(LineError::NoMemory),
        }
        if first.last {
            return Ok(texts);
        }
        lines += first.lines;
        before += (first.bytes + first.ending) as u64;
        let (_front, behind) = rest.split_at(first.bytes + first.ending);
        rest = behind;
    }
}

/// Why the bytes of a source are not had.
fn read_failure(error: lk_port::ReadError) -> ReadError
    ensures { result ≡ source_error error }
{
    match error {
        lk_port::ReadError::NoMemory => ReadError::NoMemory,
        lk_port::ReadError::Fault => ReadError::ReadFault,
    }
}

/// Reads the texts of an input, from a source to its end: the bytes of each text, none of which has
/// a fault by itself, or the fault of the first text that has one. Lines `#GO` part the texts, each
/// of which has numbers of its own; the lines of faults are counted over the whole input. The line
/// that ends a text is tested behind the text's own lines, and before its blocks are found open.
///
/// The whole input is held. A failed read and want of memory end it at once.
pub fn read_texts<S: Source>(alloc: Global, source: &mut S) -> Result<Vec<Vec<u8>>, ReadError>
    // Where the source tells its bytes, the answer is what they state.
    ensures reads { (bytes : List ℕ) → S.left source.old ≡ Some bytes
        → ReadsTexts (texts_of bytes) result }

    // Also where it does not, they are the texts of some input.
    ensures some { IfOk result AreOfSome }

    ensures end { OnOk result (IsAtEnd (S.left source.new)) }
    ensures fault { result ≡ Err ReadError.ReadFault
        → Rose (S.faults source.old) (S.faults source.new) }
    ensures no_fault { result ≢ Err ReadError.ReadFault → S.faults source.new
        ≡ S.faults source.old }
{
    let bytes = match read_all(alloc, source) {
        Ok(bytes) => bytes,
        Err(error) => return Err(read_failure(error)),
    };
    match texts_in(alloc, &bytes) {
        Ok(texts) => Ok(texts),
        Err(error) => Err(ReadError::from(error)),
    }
}
