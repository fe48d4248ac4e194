//! The complete comparison of levels: whether two are equal, or one at most the other, under every
//! assignment.
//!
//! A level is computed from values of its parameters. For each choice of which parameters inside right sides of `imax`
//! are above 0, the levels are computed at the least values that fit it, and once for each other parameter far above
//! all else: that tells how they compare at all values that fit the choice. Where there are many choices, those are
//! listed that are enough for the two levels: mostly few more than there are parameters.
#![tactic(auto)]

pub mod cases;
pub mod compared;
pub mod enough;
pub mod gathering;
pub mod listing;
pub mod parameters;
pub mod placing;
pub mod relation;
pub mod support;
pub mod values;
