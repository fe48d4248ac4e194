//! The lines of conversion in a written section, a test for each rule, by the numbers of a store: exactly the tests of
//! the definitions.
#![tactic(auto)]

mod atoms;
mod binders;
mod eta;
mod levels;
mod neutral;
mod numbers;
mod spines;
mod structures;
mod testing;
mod texts;
mod units;

pub use atoms::{test_constants, test_projections, test_proofs, test_reductions, test_sorts};
pub use binders::{test_lambdas, test_pis};
pub use eta::test_eta;
pub use numbers::{test_successor, test_zero};
pub use spines::test_applications;
pub use structures::test_structure;
pub use testing::test_conversion;
pub use texts::{test_text_left, test_text_right};
pub use units::test_units;
