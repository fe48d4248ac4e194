//! Cases of reading: a table of them on standard input, and on standard output what the crates that
//! read files say of each.
//!
//! A line that begins with `%%` ends a case, and what stands behind it says what is done with the
//! lines of the next one (`Case`). In `stdin`, `\xHH` is a byte by its two hexadecimal digits. What
//! `stdout` wants of the program is from elsewhere:
//!
//! - of a file, also of one with many spaces in front, how many units it states, or its first
//!   fault: from a checker of exports that was written apart, in another language;
//! - of an input of texts, how many bytes each of them has, or the input's first fault: from the same
//!   checker;
//! - of a line, its fields: from the format's table of lines, by which each is written with one
//!   space between fields, numbers without leading zeros, a literal above 2^128 - 1 as `wide`, and
//!   the text of a name or of a literal in quotes;
//! - of a place and a length, the fault with a line feed and without: from the format's two limits;
//! - of a number of items and a line behind them, the line's fault: from the format's limit on items
//!   and its order of faults;
//! - of all files, how many further readings agree: 15 a file, 14 where it is one byte, 13 where it
//!   is empty. The format lets the last line feed be missing and knows no pieces, so six sizes of
//!   pieces, with the last line feed and without, are to give the same; and the first failed read
//!   ends reading, so each of the first three reads is to be told where it fails.
#![tactic(auto)]

mod cases;
mod items;
mod limits;
mod reading;
mod table;
mod texts;
mod written;

use crate::cases::Cases;
use crate::table::Case;
use std::io;

fn main(rt: HostRuntime) -> io::Result<()> {
    let alloc = rt.alloc();
    let mut cases = Cases {
        case: Case::File,
        text: Vec::new(alloc),
        alike: 0,
    };
    for line in rt.lines(alloc) {
        let line = line?;
        cases.take(&rt, alloc, line.as_str())?;
    }
    cases.end(&rt, alloc)?;
    let alike = cases.alike;
    println!(rt; "further readings alike: {alike}")
}
