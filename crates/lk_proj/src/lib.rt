//! Projections: the steps of `Infer` of a projection and of `Core` of one, as the table says them.
#![tactic(auto)]

mod fields;
pub mod infer;
mod node;
mod parameters;
pub mod reduce;
pub mod sheet;
mod sort;
mod subject;
