//! The lines of a file that declare something, and the units that they state: declarations alone, and blocks whose
//! members may stand apart.
#![tactic(auto)]

mod blocks;
mod ends;
pub mod fault;
pub mod finish;
mod kinds;
pub mod line;
mod lists;
pub mod members;
pub mod names;
mod open;
mod places;
pub mod taking;

pub use members::Members;
