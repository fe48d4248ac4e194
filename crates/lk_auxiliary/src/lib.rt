//! Auxiliary types, by which a block with nested occurrences is made larger: what an earlier type becomes at an occurrence's
//! levels and arguments, with the others of that type's block.
#![tactic(auto)]

pub mod among;
pub mod auxiliary;
pub mod ends;
pub mod family;
pub mod instance;
pub mod levels;
pub mod made;
pub mod naming;
pub mod parts;
pub mod past;
pub mod setting;
