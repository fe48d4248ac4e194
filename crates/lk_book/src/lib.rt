//! What a file states, a library or a library and changes of it: its lines one by one, read from a source in pieces, with
//! the file's first fault. Beside it texts in memory, each of which is read behind the units of a library.
#![tactic(auto)]

mod error;
mod file;
mod first_text;
mod laws;
mod line_reader;
mod lines;
mod long;
mod reader;
mod rounds;
mod text;
mod texts;

pub use error::ReadError;
pub use file::{library_of, read_library, read_lines};
pub use laws::{files_are_spelled, rounds_are_spelled, texts_are_faultless, texts_are_spelled};
pub use line_reader::LineReader;
pub use reader::{Reader, at_line};
pub use rounds::{Rounds, read_rounds};
pub use text::{add_text, read_text};
pub use texts::read_texts;

/// A file has at most this many bytes.
const MAX_INPUT: u64 = 1 << 40;

/// A line has at most this many bytes, its line feed not counted.
const MAX_LINE: usize = 1 << 24;

/// The source is read in pieces of this many bytes at most.
const PIECE: usize = 1 << 16;
