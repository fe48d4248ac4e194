//! What the program's words mean. `line_means` reads them by the command that `clap` is told, and gives what they ask for: a
//! check, a file to be made, a trial, each with its options, what one declaration needs, derivations, which are written or
//! tested, a check of a library and of changes of it, or one of texts that several callers add to one list.
#![tactic(auto)]

mod command;
mod words;

pub use command::command as whole_command;
pub use words::{Callers, LineError, Meaning, Options, Sample, line_means, words_mean_one_thing};
