//! The operations on numbers that literals are computed by. Of numbers up to 2^128 - 1 each is exact where it gives a number
//! up to 2^128 - 1 or a truth value, and gives nothing above.
#![tactic(auto)]

mod binary;
mod op;
mod unary;

pub use binary::binary_value;
pub use op::{BinaryOp, UnaryOp, Value};
pub use unary::unary_value;
