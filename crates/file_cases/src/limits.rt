//! The limits of a line and of the input, also where no file of the table could reach them.
ghost use Rattle.std.specs.Prelude.{◌<◌, ◌^◌};

use lk_lines::limit_fault;
use std::io;

/// The fault of a line of so many bytes behind so many bytes of the input; `feed` says that a line
/// feed ends it.
fn fault_word(before: u64, length: u32, feed: bool) -> &'static str
    requires { before < 2 ^ 63 }
{
    match limit_fault(before, u64::from(length), feed) {
        Some(word) => word.text(),
        None => "none",
    }
}

/// Reads two numbers, how many bytes stand before a line and how many it has, and writes the line's
/// fault with a line feed and without one.
pub fn write_limits(rt: &impl Print, line: &str) -> io::Result<()> {
    if let Some((before, length)) = line.split_once(' ') {
        if let (Ok(before), Ok(length)) = (before.parse::<u64>(), length.parse::<u32>()) {
            if before < 1 << 63 {
                let ended = fault_word(before, length, true);
                let open = fault_word(before, length, false);
                return println!(rt; "{ended} {open}");
            }
        }
    }
    println!(rt; "no numbers")
}
