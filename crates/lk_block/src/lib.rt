//! The checks of a block of inductive types, each as a run of questions: the lines of its members, its types, its
//! constructors, and whether it may be eliminated into every universe.
#![tactic(auto)]

mod asking;
pub mod block;
mod constructors;
pub mod counts;
mod elimination;
mod fields;
mod frame;
pub mod laws;
mod members;
mod over;
pub mod parameters;
mod positive;
pub mod shape;
pub mod sorts;
mod telescope;
pub mod types;

pub use block::check_shape;
