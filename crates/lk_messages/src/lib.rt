//! What a person is told on standard error: how far a check is, what is wrong with the words, with the input or with a call of the
//! system, and where an export seems to be cut off. It is made of what passes into a run and out of it, and of how the run ends. No
//! clause says what is told; each function is safe and ends.
#![tactic(auto)]

mod escaped;
mod fault;
mod format;
mod front;
mod help;
mod input;
mod output;
mod passed;
mod progress;
mod tell;

pub use help::tell_usage;
pub use input::Reading;
pub use output::Showing;
pub use progress::Progress;
pub use tell::{
    tell_checked, tell_fault, tell_full, tell_no_memory, tell_no_name, tell_read, tell_write,
};
