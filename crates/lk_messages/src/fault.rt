//! The line of a fault, as it was written, and what its word means.

use crate::front::Front;
use lk_num::{Nat, read_nat};
use memchr::{memchr, memmem};

/// The words of faults, and what each means.
const MEANINGS: [(&[u8], &str); 18] = [
    (b"BadVersion", "the first number of the version is not 2"),
    (b"BadNumber", "a field that has to be a number is none"),
    (
        b"UnknownTag",
        "no such tag, or a number stands before it that should not, or is missing",
    ),
    (b"MissingField", "the line ends before a field that is due"),
    (
        b"ExtraField",
        "a field stands behind the last one that is due",
    ),
    (
        b"IndexTaken",
        "the number of the line was given to an earlier one",
    ),
    (
        b"IndexUnknown",
        "a number of a name, level, expression, rule or premise that no earlier line gives",
    ),
    (b"BadHex", "a field of a text is not two hexadecimal digits"),
    (b"LineTooLong", "the line has more than 2^24 bytes"),
    (b"InputTooLong", "the input has more than 2^40 bytes"),
    (
        b"TooManyItems",
        "the input has more than 2^32 - 1 entries and declarations",
    ),
    (b"BadUtf8", "a name or a text is not UTF-8"),
    (
        b"NumberTooLarge",
        "a number is above 2^32 - 1, or above 2^64 - 1 in a name, a budget or behind #TR",
    ),
    (
        b"BadWord",
        "a binder info, a hint, a k or the rule of a derivation is none of its words",
    ),
    (
        b"BadCount",
        "a list has fewer fields than its count says, or does not fit the block",
    ),
    (
        b"RepeatedMember",
        "the same type, constructor or recursor stands twice",
    ),
    (
        b"BlockOpen",
        "the block lacks a line: a type or constructor that is listed, or what lists this one",
    ),
    (
        b"TraceOrder",
        "a line of derivations before #TR or outside of a section, a section out of order or not ended, or a line that may not follow #TR",
    ),
];

/// A fault as it was written: the number of its line, and its word.
#[derive(Clone, Copy)]
pub struct Written<'a> {
    pub number: u64,
    pub word: &'a [u8],
}

/// The fault that was written, by the first bytes of the output: `bad line L WORD`.
pub fn told_fault(output: &Front) -> Option<Written<'_>> {
    let rest = output.as_slice().strip_prefix(b"bad line ")?;
    let (digits, behind) = rest.split_at_checked(memchr(b' ', rest)?)?;
    let (_, behind) = behind.split_first()?;
    let (word, _) = behind.split_at_checked(memchr(b'\n', behind)?)?;
    let Some(Nat::Fits(number)) = read_nat(digits) else {
        return None;
    };
    let number = u64::try_from(number).ok()?;
    Some(Written { number, word })
}

/// What the word of a fault means.
pub fn meaning(word: &[u8]) -> &'static str {
    for (known, meaning) in MEANINGS {
        if word == known {
            return meaning;
        }
    }
    "the line is not of the format"
}

/// What may be at work where a line has this fault, beside what its word says.
pub fn likely(line: &[u8], fault: &Written<'_>) -> Option<&'static str> {
    let word = fault.word;
    if word == b"BadNumber".as_slice() && memmem::find(line, b"#EZ #B").is_some() {
        return Some("lines of lets have no binder info in this format");
    }
    if word == b"UnknownTag".as_slice() && memmem::find(line, b" #EM ").is_some() {
        return Some("lines of metadata (#EM) are no part of this format");
    }
    if word == b"UnknownTag".as_slice() && line.starts_with(b"#GO") {
        return Some(
            "lines #GO are for recheck, before changes of a library, and for session, between exports",
        );
    }
    if word == b"UnknownTag".as_slice() && line.starts_with(b"#TR") {
        return Some("derivations, behind a line #TR, are read by replay alone");
    }
    if word == b"UnknownTag".as_slice() && line.starts_with(b"#BUD") {
        return Some(
            "recheck and session read no budgets (#BUD); give one for all units by --steps",
        );
    }
    if word == b"BadNumber".as_slice() && fault.number > 1 && is_version(line) {
        return Some(
            "a version stands in the first line alone; a second export cannot follow, but in session behind a line #GO",
        );
    }
    if word == b"IndexTaken".as_slice() {
        return Some(
            "numbers do not begin anew, so a second export cannot follow, but in session behind a line #GO",
        );
    }
    None
}

/// Whether a line seems to be that of a version.
fn is_version(line: &[u8]) -> bool {
    memchr(b'.', line).is_some() && memchr(b'#', line).is_none()
}
