//! Spelled terms: a term of an overlay as a list of nodes over the library's store, each part before
//! what is made of it, so that any overlay of the library can make it anew. Names and texts that the
//! library lacks are spelled too.
#![tactic(auto)]

pub mod making;
mod moved;
mod numbers;
mod open;
pub mod part;
mod sizes;
pub mod spelled;
mod speller;
pub mod walk;

pub use making::unspell;
pub use spelled::{OwnNode, SpellError, Spelled};
pub use walk::spell;
