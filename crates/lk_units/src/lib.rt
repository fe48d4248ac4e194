//! The units that the lines of a file state: what its numbers stand for, item by item, and the faults of items among one
//! another (a number that is taken, a number that stands for nothing, too many items).
#![tactic(auto)]

mod assembler;
mod making;
mod numbering;
mod stating;
mod taking;

pub use assembler::{Assembler, Binder, LevelPair, TakeError, ValueUse};
pub use numbering::Numbering;
