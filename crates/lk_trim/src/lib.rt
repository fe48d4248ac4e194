//! The canonical text of units of a library: each different name, level and tree has one line, and
//! stands behind those that it is made of. Equal units have equal texts, whatever file states them.
#![tactic(auto)]

mod blocks;
mod declarations;
mod fields;
mod levels;
mod names;
mod numbering;
mod numbers;
mod recursors;
mod trees;
mod units;
mod visit;
mod whole;

pub use fields::{add_field, add_fields, add_number, add_row};
pub use numbering::Numbering;
pub use numbers::{Numbers, Writer};
pub use trees::{tree_number, write_tree};
pub use whole::{begin, canonical, text_of, write_all};
