//! Operations on numbers, and what they give.

/// An operation of one number.
#[derive(Clone, Copy)]
pub enum UnaryOp {
    Succ,
    Log2,
}

/// An operation of two numbers.
#[derive(Clone, Copy)]
pub enum BinaryOp {
    Add,
    /// 0 where the second number is greater.
    Sub,
    Mul,
    /// By 0 it gives 0.
    Div,
    /// By 0 it gives the first number.
    Mod,
    Gcd,
    Beq,
    Ble,
    Land,
    Lor,
    Xor,
    ShiftLeft,
    ShiftRight,
    Pow,
}

/// A number, or whether something holds.
#[derive(Clone, Copy)]
pub enum Value {
    Number(u128),
    Truth(bool),
}
