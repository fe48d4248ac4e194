//! What it rests on that two terms are the same where function eta says nothing: eta of structures in both orders,
//! types with one value, and texts.
#![tactic(auto)]

mod fields;
mod structures;
mod tests;
mod texts;
mod units;

pub use tests::by_structures;
