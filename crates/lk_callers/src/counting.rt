//! How many units texts state.

ghost use Rattle.std.specs.Prelude.{◌≡◌, ◌<◌, false, length, IfOk};
ghost use Rattle.lk_session.specs.Texts.{AreFaultless, IsFaultless, units_in};
ghost use Rattle.lk_callers.specs.Owned.{all_units, bytes_in};

use lk_session::{Reads, TextError};
use lk_store::memory::NoMemory;
use std::alloc::Global;

/// A list has at most this many units.
pub(crate) const MOST_UNITS: usize = 65536;

/// How many units a text states that has no fault.
fn units_in<T: Reads>(alloc: Global, text: &[u8]) -> Result<usize, NoMemory>
    requires { IsFaultless T.stated text.now }
    ensures { IfOk result (λ n. n ≡ length (units_in T.stated text.now)) }
{
    match T::count(alloc, text) {
        Ok(count) => Ok(count),
        Err(TextError::NoMemory) => Err(NoMemory),
        Err(TextError::Fault(_)) => unreachable!(),
    }
}

/// Whether one list has room for the units of all texts.
pub(crate) fn have_room<T: Reads>(alloc: Global, texts: &[Vec<u8>]) -> Result<bool, NoMemory>
    requires { AreFaultless T.stated (bytes_in texts.now) }
    ensures { IfOk result (λ b. b ≡ false
        → 65536 < length (all_units T.stated (bytes_in texts.now))) }
{
    let mut units = 0;
    for text in texts {
        let count = units_in::<T>(alloc, text.as_slice())?;
        if count > MOST_UNITS - units {
            return Ok(false);
        }
        units += count;
    }
    Ok(true)
}

/// Whether a line that begins with these bytes declares a unit or a type of one.
fn declares(first: u8, second: u8) -> bool {
    first == b'#' && matches!(second, b'A' | b'D' | b'T' | b'O' | b'Q' | b'I')
}

/// How many lines declare a unit or, of a block, one of its types: no fewer than there are units.
pub(crate) fn declaring_lines(texts: &[Vec<u8>]) -> u64 {
    let mut lines: u64 = 0;
    for text in texts {
        let mut before = b'\n';
        for two in text.as_slice().windows(2) {
            if before == b'\n' && declares(two[0], two[1]) {
                lines = lines.saturating_add(1);
            }
            before = two[0];
        }
    }
    lines
}
