ghost use Rattle.std.specs.Prelude.{◌≡◌, ◌+◌, ◌*◌, ◌<◌, ◌↔◌, ℕ, IsSome, IfSome};
ghost use Rattle.std.specs.Str.Parse.{AllDigits, IsNumeral, digits_value, digits_value_after};
ghost use Rattle.lk_num.specs.Numeral.{IsNat, nat_of};

/// A natural number: one of at most 128 bits, or some number that needs more.
#[derive(Clone, Copy, Debug, PartialEq, Eq)]
pub enum Nat {
    /// A number below 2^128.
    Fits(u128),
    /// A number from 2^128 on. Which one is not kept.
    Wide,
}

// A 64-bit number up to this one has room for one more digit.
const ROOM: u64 = 1_844_674_407_370_955_160;

// The number with one more digit at its end.
fn with_digit(number: Nat, digit: u8) -> Nat
    requires { digit < 10 }
    ensures { (value : ℕ) → IsNat number value → IsNat result (value * 10 + digit) }
{
    match number {
        Nat::Fits(n) => match n.checked_mul(10) {
            Some(tens) => match tens.checked_add(u128::from(digit)) {
                Some(n) => Nat::Fits(n),
                None => Nat::Wide,
            },
            None => Nat::Wide,
        },
        Nat::Wide => Nat::Wide,
    }
}

// The number that more digits make of this one, and None where they are not digits alone.
fn digits_on(before: Nat, digits: &[u8]) -> Option<Nat>
    ensures some { IsSome result ↔ AllDigits 10 digits.now }
    ensures value { (value : ℕ) → IsNat before value → IfSome result
        (λ n. IsNat n (digits_value_after 10 value digits.now)) }
{
    let mut number = before;
    let mut rest = digits;
    while let [byte, more @ ..] = rest {
        if !byte.is_ascii_digit() {
            return None;
        }
        number = with_digit(number, *byte - b'0');
        rest = more;
    }
    Some(number)
}

// The number that the digits write. Nearly every number of a file fits 64 bits, whose arithmetic
// is several times faster than that of 128.
fn digits(bytes: &[u8]) -> Option<Nat>
    ensures some { IsSome result ↔ IsNumeral 10 bytes.now }
    ensures value { IfSome result (λ n. IsNat n (digits_value 10 bytes.now)) }
{
    let mut number = 0u64;
    let mut rest = bytes;
    while let [byte, more @ ..] = rest {
        if number > ROOM {
            return digits_on(Nat::Fits(u128::from(number)), rest);
        }
        if !byte.is_ascii_digit() {
            return None;
        }
        number = number * 10 + u64::from(*byte - b'0');
        rest = more;
    }
    if bytes.is_empty() {
        None
    } else {
        Some(Nat::Fits(u128::from(number)))
    }
}

/// Reads a number of the export format: one or more decimal digits and nothing else, where leading
/// zeros are allowed.
///
/// None exactly where the bytes are not digits alone; `Nat::Wide` where the number is above
/// 2^128 - 1.
pub fn read_nat(bytes: &[u8]) -> Option<Nat>
    ensures some { IsSome result ↔ IsNumeral 10 bytes.now }
    ensures value { IfSome result (λ n. IsNat n (digits_value 10 bytes.now)) }

    // The same as one equation, for callers whose own definitions compute.
    ensures equation { result ≡ nat_of bytes.now }
{
    digits(bytes)
}
