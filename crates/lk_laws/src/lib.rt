//! The laws of operations on numbers, which are asked of a definition that is named as one: what they rest on is given, and
//! both sides of each are equal.
#![tactic(auto)]

mod asking;
pub mod constant;
pub mod definition;
mod given;
pub mod needs;
pub mod operation;
pub mod sides;
pub mod table;

pub use definition::check_definition;
pub use needs::{Laws, Needed, is_given, look_needed};
