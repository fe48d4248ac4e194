//! The lines of reduction in a written section that rest on no constructor, a test for each rule, by the numbers of a
//! store: exactly the tests of the definitions. Spines are compared from the outside in, so none is built where comparing
//! does.
#![tactic(auto)]

mod applications;
mod beta;
mod chains;
mod numbers;
mod openings;
mod operations;
mod quotients;
mod unfolding;

pub use chains::{test_chain, test_head};
pub use numbers::test_operation;
pub use openings::{test_beta, test_zeta};
pub use quotients::{test_induction, test_lift};
pub use unfolding::test_delta;
