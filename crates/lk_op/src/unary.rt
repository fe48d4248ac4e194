//! Operations of one number.

ghost use Rattle.std.specs.Prelude.{◌≡◌, ◌+◌, [], ◌∷◌, option_map};
ghost use Rattle.lk_tree.specs.Operations.{op_value, halvings};
ghost use Rattle.lk_op.specs.Ops.{unary_at, value_at, fitting, fits};

use crate::op::{UnaryOp, Value};

/// The number after it, where that is at most 2^128 - 1.
fn successor(a: u128) -> Option<u128>
    ensures { result ≡ fits (a + 1) }
{
    a.checked_add(1)
}

/// How often a number can be halved before it is below 2.
fn log2(a: u128) -> u128
    ensures { result ≡ halvings 128 a }
{
    let mut left = a;
    let mut count: u128 = 0;
    let mut rounds: u32 = 128;
    'halve: while rounds > 0 {
        if left < 2 {
            return count;
        }
        left /= 2;
        count += 1;
        rounds -= 1;
    }
    count
}

/// What an operation gives of one number; nothing exactly where that is a number above 2^128 - 1.
pub fn unary_value(op: UnaryOp, a: u128) -> Option<Value>
    ensures { option_map value_at result ≡ fitting (op_value (unary_at op) (a ∷ [])) }
{
    match op {
        UnaryOp::Succ => match successor(a) {
            Some(n) => Some(Value::Number(n)),
            None => None,
        },
        UnaryOp::Log2 => Some(Value::Number(log2(a))),
    }
}
