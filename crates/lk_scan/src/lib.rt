//! What is wrong with a unit in itself, before any question is asked: a level parameter that a
//! member declares twice, a tree that is not closed, a level parameter that is not declared, a
//! literal that is too wide. Trees are walked by their numbers, each once under the same level
//! parameters, and only where a level parameter stands in them.
#![tactic(auto)]

mod declared;
pub mod different;
mod distinct;
pub mod names;
mod part;
pub mod scan;
mod seen;
mod trees;
mod walk;
