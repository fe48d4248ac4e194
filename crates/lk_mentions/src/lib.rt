//! Which names a term mentions, and which types are structures, as the types of their constructors say: walks over the
//! parts of terms by their numbers, each part once, so that a term takes no longer than its parts in the store.
#![tactic(auto)]

pub mod fields;
mod mentioned;
pub mod names;
pub mod part;
pub mod pis;
pub mod structures;
pub mod walk;
