//! Nested occurrences of a block's types in the terms of a store: whether there is one, the first one that is not known, and
//! the terms in which others stand in their place.
#![tactic(auto)]

pub mod foreign;
pub mod marks;
pub mod nested;
pub mod outermost;
pub mod spines;
pub mod swap;
