//! What it rests on that two terms are the same: the row of a `Same` that is answered yes, for whoever has all of its tests.
#![tactic(auto)]

mod binders;
mod constants;
mod cores;
mod functions;
mod parts;
mod proofs;
mod row;
mod shapes;
mod sorts;
mod spines;
mod subjects;
pub mod tests;

pub use functions::FunctionEta;
pub use parts::Congruence;
pub use proofs::ProofIrrelevance;
pub use row::equality_row;
