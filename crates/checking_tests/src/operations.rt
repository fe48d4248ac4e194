//! Operations on numbers, on a table of what they give.

use lk_op::{BinaryOp, UnaryOp, Value, binary_value, unary_value};
use std::test::Fail;

const GREATEST: u128 = u128::MAX;

// Whether it is this number, or none where none is due.
fn is_number(value: Option<Value>, due: Option<u128>) -> bool {
    match value {
        Some(Value::Number(n)) => due == Some(n),
        Some(Value::Truth(_)) => false,
        None => due.is_none(),
    }
}

#[test]
fn numbers_of_two(rt: HostRuntime) -> Result<(), Fail> {
    let rows: [(BinaryOp, u128, u128, Option<u128>); 13] = [
        (BinaryOp::Add, GREATEST, 1, None),
        (BinaryOp::Add, GREATEST - 1, 1, Some(GREATEST)),
        (BinaryOp::Sub, 2, 5, Some(0)),
        (BinaryOp::Mul, GREATEST, 2, None),
        (BinaryOp::Div, 5, 0, Some(0)),
        (BinaryOp::Mod, 5, 0, Some(5)),
        (BinaryOp::Gcd, 0, 6, Some(6)),
        (BinaryOp::Pow, 0, 0, Some(1)),
        (BinaryOp::Pow, 2, 128, None),
        (BinaryOp::ShiftLeft, 0, 200, Some(0)),
        (BinaryOp::ShiftLeft, 1, 128, None),
        (BinaryOp::ShiftRight, 1, 200, Some(0)),
        (BinaryOp::Xor, 6, 3, Some(5)),
    ];
    for (op, a, b, due) in rows {
        assert!(rt; is_number(binary_value(op, a, b), due), "{a} {b}");
    }
    Ok(())
}

#[test]
fn numbers_of_one(rt: HostRuntime) -> Result<(), Fail> {
    let rows: [(UnaryOp, u128, Option<u128>); 4] = [
        (UnaryOp::Succ, 0, Some(1)),
        (UnaryOp::Succ, GREATEST, None),
        (UnaryOp::Log2, 0, Some(0)),
        (UnaryOp::Log2, GREATEST, Some(127)),
    ];
    for (op, a, due) in rows {
        assert!(rt; is_number(unary_value(op, a), due), "{a}");
    }
    Ok(())
}

#[test]
fn truths(rt: HostRuntime) -> Result<(), Fail> {
    assert!(rt; matches!(binary_value(BinaryOp::Beq, 3, 3), Some(Value::Truth(true))));
    assert!(rt; matches!(binary_value(BinaryOp::Ble, 4, 3), Some(Value::Truth(false))));
    Ok(())
}
