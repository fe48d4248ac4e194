//! The help, and which of the words is not understood.

use crate::escaped::Escaped;
use clap::ArgMatches;
use lk_command::whole_command;
use lk_num::{Nat, read_nat};
use memchr::memmem;
use std::alloc::Global;
use std::io::Eprint;

const HELP: &str = "
  leancheck reads an export of a Lean 4 library on standard input, in the text format 2 of lean4export,
  and writes for each declaration whether it follows from the ones before it.

  leancheck check [--workers W] [--steps N] [--memo M] [--allow LIST]
  leancheck make --units N --seed S
  leancheck trial --units N --seed S [--workers W] [--steps N] [--memo M] [--allow LIST]
  leancheck trim --name NAME
  leancheck trace [--steps N]
  leancheck replay
  leancheck recheck [--steps N]
  leancheck session [--workers W] [--steps N]

  check   checks standard input, and writes a verdict for each declaration
  make    writes an export that it makes
  trial   checks that export in memory, and writes the last line alone
  trim    reads standard input, and writes one declaration with all that it needs, as an export
  trace   checks standard input, and writes it with a derivation of each declaration that says yes, inductive blocks apart
  replay  reads standard input, and tests the derivation that stands for each declaration behind the line #TR
  recheck checks standard input up to the line #GO, then each change behind it, and what it touches
  session checks the exports that lines #GO part, as W callers add them to one list, and writes the verdicts in its order

  --workers W   threads that check, or callers (session): 1 to 64, 1 if not given
  --steps N     budget of each declaration: 1 to 2^64 - 1, 2^100 if not given; the export may lower it (not for recheck, session)
  --memo M      answers that each thread keeps: 1 to 1048576, 65536 if not given
  --allow LIST  axioms to allow: names joined by commas, '' for none; every axiom if not given
  --units N     declarations to make: 1 to 1048576
  --seed S      number that they are made by: 0 to 2147483647
  --name NAME   name of a declaration, or of a member of a block, as check writes it

  status 0  every declaration says yes, or there is none; or each but inductive blocks has a derivation (trace),
            which holds (replay); or the export was made or trimmed
         1  some declaration says no; or some but inductive blocks has no derivation (trace), or none that holds (replay)
         2  the words are not understood
         3  the input has a fault
         4  a read failed
         5  a write failed
         6  out of memory, and nothing was written
         7  no declaration has the name
         8  the exports have more than 65536 declarations in all (session)
         9  some declaration says no for want of memory, and none for another reason

  example: leancheck check < examples/identity.export
";

const VERSION: &str = "0.1";

/// An option with a number: its name, the least and the greatest number.
const RANGES: [(&str, u128, u128); 5] = [
    ("workers", 1, 64),
    ("steps", 1, u64::MAX as u128),
    ("memo", 1, 1 << 20),
    ("units", 1, 1 << 20),
    ("seed", 0, (1 << 31) - 1),
];

/// Tells of each value that is no number, or out of range.
fn tell_values<R: Eprint>(rt: &R, matches: &ArgMatches<'_>) {
    for (name, least, most) in RANGES {
        let Some(text) = matches.get_str(name) else {
            continue;
        };
        let shown = Escaped(text.as_bytes());
        match read_nat(text.as_bytes()) {
            None => {
                let _ = eprintln!(rt;
                    "leancheck: --{name} takes a number in decimal digits, not '{shown}'"
                );
            }
            Some(Nat::Fits(n)) if least <= n && n <= most => {}
            Some(_) => {
                let _ = eprintln!(rt;
                    "leancheck: --{name} {shown} is out of range: it takes {least} to {most}"
                );
            }
        }
    }
}

/// Tells what `clap` found wrong: its text up to the usage, which is told otherwise.
fn tell_text<R: Eprint>(rt: &R, text: &[u8]) {
    let first = match memmem::find(text, b"\n\n") {
        Some(at) => &text[..at],
        None => text,
    };
    let first = first.strip_prefix(b"error: ").unwrap_or(first);
    let mut rest = first;
    let mut begin = "leancheck: ";
    for _ in 0..first.len() {
        let at = memchr::memchr(b'\n', rest).unwrap_or(rest.len());
        let Some((line, more)) = rest.split_at_checked(at) else {
            return;
        };
        let line = Escaped(line);
        let _ = eprintln!(rt; "{begin}{line}");
        let Some((_, more)) = more.split_first() else {
            return;
        };
        rest = more;
        begin = "";
    }
}

/// Tells which of the words is not understood, and why.
fn tell_why<R: Eprint>(rt: &R, alloc: Global, words: &[String]) {
    let Ok(command) = whole_command(alloc) else {
        return;
    };
    match command.try_get_matches_from(words) {
        Ok(matches) => match matches.subcommand() {
            Some((_, given)) => tell_values(rt, given),
            None => {
                let _ = eprintln!(rt;
                    "leancheck: no command is given: check, make, trial, trim, trace, replay, recheck or session"
                );
            }
        },
        Err(error) => {
            let Ok(text) = format!(in alloc; "{error}") else {
                return;
            };
            tell_text(rt, text.as_bytes());
        }
    }
}

/// Whether one of the words asks for help or for the version.
fn asks_help(words: &[String]) -> bool {
    for word in words {
        if matches!(word.as_str(), "--help" | "-h" | "help" | "--version" | "-V") {
            return true;
        }
    }
    false
}

/// Tells why words have no meaning, and the help. There are no words where they are not all UTF-8.
pub fn tell_usage<R: Eprint>(rt: &R, alloc: Global, words: &[String]) {
    match words {
        [] => {
            let _ = eprintln!(rt; "leancheck: the words are not all UTF-8");
        }
        [_, given @ ..] => {
            if asks_help(given) {
                let _ = eprintln!(rt; "leancheck {VERSION}");
            } else {
                tell_why(rt, alloc, words);
            }
        }
    }
    let _ = eprint!(rt; "{HELP}");
}
