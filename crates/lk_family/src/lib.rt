//! The types that stand in one block with a type, copied out of a library, so that terms can be made of theirs.
#![tactic(auto)]

pub mod copies;
pub mod families;
pub mod family;

pub use families::Families;
pub use family::Family;
