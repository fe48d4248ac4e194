ghost use Rattle.std.specs.Prelude.{◌≡◌, ◌<◌, ℕ, List, IfOk, IsErrOf, None, Some};
ghost use Rattle.std.specs.Char.{digit_value};
ghost use Rattle.lk_token.specs.Fields.{fields_of};
ghost use Rattle.lk_token.specs.Hex.{pair_of, pairs_of, ArePairs};

use crate::split::next_field;
use std::alloc::Global;

/// Why fields give no bytes.
#[derive(Clone, Copy, Debug)]
pub enum HexError {
    /// Memory ran out.
    NoMemory,
    /// A field is not two hexadecimal digits.
    BadHex,
}

// What a hexadecimal digit stands for.
fn digit(byte: u8) -> u8
    requires { digit_value byte < 16 }
    ensures { result ≡ digit_value byte }
{
    if byte < b'A' {
        byte - b'0'
    } else if byte < b'a' {
        byte - b'A' + 10
    } else {
        byte - b'a' + 10
    }
}

// The byte of a field of two hexadecimal digits.
fn pair(field: &[u8]) -> Option<u8>
    ensures { result ≡ pair_of field.now }
{
    let [high, low] = field else {
        return None;
    };
    if high.is_ascii_hexdigit() && low.is_ascii_hexdigit() {
        Some(digit(*high) * 16 + digit(*low))
    } else {
        None
    }
}

/// The bytes that the fields of a line spell, where each field is two hexadecimal digits of either
/// case. No field gives no byte.
///
/// BadHex exactly where some field is not two hexadecimal digits, if memory lasts that far.
#[tactic(auto, using(crate::proofs::PairLaws::pairs_unspelled))]
pub fn hex_pairs(alloc: Global, line: &[u8]) -> Result<Vec<u8>, HexError>
    ensures spelled { IfOk result (λ v. ArePairs (fields_of line.now) v.items) }
    ensures unspelled { IsErrOf result HexError.BadHex → (bytes : List ℕ) →
        ¬ (ArePairs (fields_of line.now) bytes) }

    // The same as equations, for callers whose own definitions compute.
    ensures bytes { IfOk result (λ v. pairs_of (fields_of line.now) ≡ Some v.items) }
    ensures bad { IsErrOf result HexError.BadHex → pairs_of (fields_of line.now) ≡ None }
{
    let mut found = Vec::new(alloc);
    let mut rest = line;
    while let Some((field, more)) = next_field(rest) {
        let Some(byte) = pair(field) else {
            return Err(HexError::BadHex);
        };
        if found.push(byte).is_err() {
            return Err(HexError::NoMemory);
        }
        rest = more;
    }
    Ok(found)
}
