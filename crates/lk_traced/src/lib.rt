//! A file with derivations: a library, and behind `#TR` what is written for its units.
//! `specs/Trace.antt` says what the bytes of such a file state, and `read_trace` reads just that.
#![tactic(auto)]

mod before;
mod behind;
mod derived;
mod file;
mod locals;
mod misplaced;
mod opening;
mod reader;
mod sections;

pub use file::read_trace;
pub use reader::TraceReader;
pub use sections::{BegunSection, Sections};
