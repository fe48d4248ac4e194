//! Operations of two numbers.

ghost use Rattle.std.specs.Prelude.{◌≡◌, ◌*◌, ◌/◌, ◌%◌, ◌^◌, nat_eq, [], ◌∷◌, option_map};
ghost use Rattle.std.specs.Prelude.{if◌then◌else◌, bit_or, bit_xor};
ghost use Rattle.lk_tree.specs.Operations.{op_value, euclid};
ghost use Rattle.lk_op.specs.Ops.{binary_at, value_at, fitting, fits};

use crate::op::{BinaryOp, Value};

/// Euclid's loop in at most 257 rounds, which are enough below 2^128.
fn gcd(a: u128, b: u128) -> u128
    ensures { result ≡ euclid 257 a b }
{
    let mut greater = a;
    let mut smaller = b;
    let mut rounds: u32 = 257;
    'divide: while rounds > 0 {
        if smaller == 0 {
            return greater;
        }
        let rest = greater % smaller;
        greater = smaller;
        smaller = rest;
        rounds -= 1;
    }
    greater
}

/// The quotient; 0 where the divisor is 0.
fn quotient(a: u128, b: u128) -> u128
    ensures { result ≡ (if nat_eq b 0 then 0 else a / b) }
{
    if b == 0 { 0 } else { a / b }
}

/// The remainder; the number itself where the divisor is 0.
fn remainder(a: u128, b: u128) -> u128
    ensures { result ≡ (if nat_eq b 0 then a else a % b) }
{
    if b == 0 { a } else { a % b }
}

/// A power, where it is at most 2^128 - 1.
#[tactic(auto, using(crate::proofs::Powers::small_power, crate::proofs::Powers::great_power))]
fn power(a: u128, b: u128) -> Option<u128>
    ensures { result ≡ fits (a ^ b) }
{
    if b < 128 {
        return a.checked_pow(b as u32);
    }
    if a < 2 { Some(a) } else { None }
}

/// A number times a power of 2, where that is at most 2^128 - 1.
fn shifted_left(a: u128, b: u128) -> Option<u128>
    ensures { result ≡ fits (a * 2 ^ b) }
{
    if a == 0 {
        return Some(0);
    }
    match power(2, b) {
        Some(factor) => a.checked_mul(factor),
        None => None,
    }
}

/// A number divided by a power of 2.
fn shifted_right(a: u128, b: u128) -> u128
    ensures { result ≡ a / 2 ^ b }
{
    match power(2, b) {
        Some(divisor) => quotient(a, divisor),
        None => 0,
    }
}

/// The bits that are in one of them or in both.
fn bitwise_or(a: u128, b: u128) -> u128
    ensures { result ≡ bit_or a b }
{
    a | b
}

/// The bits that are in just one of them.
fn bitwise_xor(a: u128, b: u128) -> u128
    ensures { result ≡ bit_xor a b }
{
    a ^ b
}

/// The number, as what an operation gives.
fn number(n: Option<u128>) -> Option<Value>
    ensures { result ≡ option_map Value.Number n }
{
    match n {
        Some(n) => Some(Value::Number(n)),
        None => None,
    }
}

/// What an operation gives of two numbers; nothing exactly where that is a number above 2^128 - 1.
pub fn binary_value(op: BinaryOp, a: u128, b: u128) -> Option<Value>
    ensures { option_map value_at result
        ≡ fitting (op_value (binary_at op) (a ∷ b ∷ [])) }
{
    match op {
        BinaryOp::Add => number(a.checked_add(b)),
        BinaryOp::Sub => Some(Value::Number(a.saturating_sub(b))),
        BinaryOp::Mul => number(a.checked_mul(b)),
        BinaryOp::Div => Some(Value::Number(quotient(a, b))),
        BinaryOp::Mod => Some(Value::Number(remainder(a, b))),
        BinaryOp::Gcd => Some(Value::Number(gcd(a, b))),
        BinaryOp::Beq => Some(Value::Truth(a == b)),
        BinaryOp::Ble => Some(Value::Truth(a <= b)),
        BinaryOp::Land => Some(Value::Number(a & b)),
        BinaryOp::Lor => Some(Value::Number(bitwise_or(a, b))),
        BinaryOp::Xor => Some(Value::Number(bitwise_xor(a, b))),
        BinaryOp::ShiftLeft => number(shifted_left(a, b)),
        BinaryOp::ShiftRight => Some(Value::Number(shifted_right(a, b))),
        BinaryOp::Pow => number(power(a, b)),
    }
}
