//! Questions, answers and what waits for them, as plain values; whoever answers questions, and terms made between them; what a
//! constant of a term means in a library, and by what it is unfolded.
#![tactic(auto)]

pub mod asks;
pub mod building;
pub mod constants;
pub mod instances;
pub mod kept;
pub mod lookout;
pub mod looks;
pub mod next;
pub mod query;
pub mod sheet;
pub mod stack;
pub mod stop;
pub mod unfolding;
