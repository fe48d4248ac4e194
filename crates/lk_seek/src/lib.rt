//! A walk over the parts of a term, or of whatever else has parts, that only reads: it goes from
//! the left to the right, opens each part once where its caller keeps those that it passed, and ends
//! at the first thing that is sought. What is sought, and what is kept of the parts where it is not
//! found, is the caller's (`Seek`).
#![tactic(auto)]

pub mod seek;
pub mod tree;
pub mod visit;
pub mod walk;

pub use seek::Seek;
