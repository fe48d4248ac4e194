//! The axioms that each unit of a library rests on. A tree is walked once, and again only where one
//! of its names came to mean something in between: what was found in it is kept by its number. A
//! set is shared where a union adds nothing to it. After a change of the library only the units that
//! may have other axioms are walked again.
#![tactic(auto)]

pub mod axioms;
mod finding;
mod gathering;
pub mod laws;
mod merge;
mod sets;
mod stated;
mod units;
mod visit;

pub use axioms::{AxiomSets, uses, uses_again};
