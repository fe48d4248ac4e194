//! Derivations that are written: whoever has the rows of the question table gets, question by question, lines that hold,
//! and of a declaration that is answered yes its section.
#![tactic(auto)]

mod course;
mod derivation;
mod key;
mod laws;
mod notes;
mod numbering;
mod parts;
mod rows;
mod section;
mod sides;
mod task;
mod unit;
mod writing;

pub use course::derive;
pub use derivation::Derivation;
pub use laws::{section_with_parts_holds, yes_has_parts};
pub use notes::Notes;
pub use rows::Rows;
pub use section::section_of_parts;
pub use sides::sides_of_laws;
pub use unit::section_of_unit;
pub use writing::{write_row, write_step};
