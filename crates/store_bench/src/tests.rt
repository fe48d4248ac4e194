//! Each call of the stores and of the walks over them, once, with its answer.
//!
//! The helpers look at numbers before they use them, so that a test has nothing to prove of where its numbers lie.

mod guarded;
mod names;
mod spelling;
mod spine;
mod trees;
mod walks;
