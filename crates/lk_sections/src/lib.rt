//! The text of a library with a section for each of some of its units: what `trace` writes. Behind
//! the canonical text stands a line `#TR`, and then one section after another; a tree has its line
//! once in the file, before the first line of a section that names it.
#![tactic(auto)]

mod extra;
mod laws;
mod lines;
mod sections;
mod trace;
mod words;

pub use laws::{numbers_stay, trace_stays};
pub use sections::write_section;
pub use trace::{TraceWriter, add_section, begin_trace, text_of_trace};
