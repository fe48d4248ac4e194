//! The questions of an axiom, an opaque and a theorem, asked one after another of whoever answers
//! them, and the single questions of which the checks of definitions and of blocks are made too. Each clause says what a program gives,
//! whatever comes next.
#![tactic(auto)]

pub mod asking;
pub mod declaration;
pub mod laws;

pub use declaration::{check_axiom, check_opaque, check_theorem, check_value};
