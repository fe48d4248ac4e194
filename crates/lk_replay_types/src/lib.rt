//! The lines of typing in a written section, a test for each rule, by the numbers of a store: exactly the tests of the
//! definitions.
#![tactic(auto)]

mod application;
mod atoms;
mod constants;
mod fields;
mod lambdas;
mod lets;
mod literals;
mod parameters;
mod pis;
mod projections;
mod shapes;
mod testing;

pub use application::test_application;
pub use atoms::{test_local, test_sort};
pub use constants::test_constant;
pub use lambdas::test_lambda;
pub use lets::test_let;
pub use literals::{test_number, test_text};
pub use pis::test_pi;
pub use projections::test_projection;
pub use testing::test_typing;
