ghost use Rattle.std.specs.Prelude.{◌≡◌, ◌==◌, IfOk, map};
ghost use Rattle.std.specs.List.{slice_split};
ghost use Rattle.lk_token.specs.Fields.{fields_of};
ghost use Rattle.lk_lines.specs.Says.{parts_number, version_of, is_two};

use lk_num::{Nat, read_nat};
use lk_token::next_field;
use std::alloc::{AllocError, Global};

fn parts(alloc: Global, field: &[u8]) -> Result<Vec<&[u8]>, AllocError>
    ensures { IfOk result (λ v. map (λ f. f.now) v.items ≡ slice_split (λ b. b == 46) field.now) }
{
    field.split(|b| *b == b'.').collect(alloc)
}

fn parts_number(parts: &[&[u8]]) -> Option<Nat>
    ensures { result ≡ parts_number (map (λ f. f.now) parts.now) }
{
    let [major, minor, patch] = parts else {
        return None;
    };
    let major = read_nat(major)?;
    let _ = read_nat(minor)?;
    let _ = read_nat(patch)?;
    Some(major)
}

/// The first number of the version that a line is, and None where it is no version: one field of
/// three numbers joined by dots.
pub(crate) fn version_of(alloc: Global, line: &[u8]) -> Result<Option<Nat>, AllocError>
    ensures { IfOk result (λ v. v ≡ version_of (fields_of line.now)) }
{
    match next_field(line) {
        None => Ok(None),
        Some((field, rest)) => match next_field(rest) {
            None => Ok(parts_number(parts(alloc, field)?.as_slice())),
            Some(_) => Ok(None),
        },
    }
}

pub(crate) fn is_two(number: Nat) -> bool
    ensures { result ≡ is_two number }
{
    match number {
        Nat::Fits(n) => n == 2,
        Nat::Wide => false,
    }
}
