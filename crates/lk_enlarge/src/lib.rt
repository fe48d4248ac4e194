//! A block with nested occurrences is made larger here: each occurrence gets an auxiliary type, which is what an earlier type
//! becomes at the occurrence's levels and arguments, with the others of that type's block. `enlarge` gives the block's own types
//! with an auxiliary type in the place of each occurrence, the auxiliary types, made in the same way, and what each of these
//! stands for; and nothing where there is no occurrence. `check_sorts` compares the auxiliary types' sorts with the block's.
//! `originals_of` says what the constants of auxiliary types, of their constructors and of their recursors stand for, by which the
//! larger block's recursors are read back.
#![tactic(auto)]

pub mod auxiliary_types;
pub mod components;
pub mod draft;
pub mod larger;
pub mod meet;
pub mod nest;
pub mod occurrences;
pub mod originals;
pub mod own;
pub mod past;
pub mod sorts;
pub mod types;
pub mod visited;
