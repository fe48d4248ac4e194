//! Callers of one session. The texts of an input are parted among so many callers, each in a thread
//! of its own, and come into one list in whatever order the callers add them; each caller's own
//! texts come in their order. What is told is the list: each text, its units and their verdicts.
#![tactic(auto)]

mod calling;
mod counting;
mod gathering;
mod passes;
mod report;
mod telling;
mod text_reader;
mod turns;
mod verdicts;

pub use report::{SessionError, SessionReport, check_texts};
