//! The lines of reduction in a written section that rest on a constructor, a test for each rule, by the numbers of a store:
//! what a recursor comes to at a constructor, how its major premise comes to be one, and the field of a constructor. They
//! are exactly the tests of the definitions.
#![tactic(auto)]

mod candidates;
mod expansions;
mod fields;
mod fronts;
mod majors;
mod recursors;
mod rules;
mod texts;

pub use candidates::test_k;
pub use expansions::test_expansion;
pub use fields::test_field;
pub use majors::test_major;
pub use rules::test_iota;
