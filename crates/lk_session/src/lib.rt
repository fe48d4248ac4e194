//! A session: callers in threads of their own add texts to one list, and each is told of the units
//! of its text what one thread would have been told that had read the list up to it.
//!
//! Threads share a `Session`, and each has a `Pass` of its own. Under the session's lock lie the
//! texts alone; a pass reads them into a library of its own, in place, and checks there, while the
//! lock is free. So no library is copied, and a call costs its own text and those that came since
//! the pass's last call.
#![tactic(auto)]

mod book;
mod caller;
mod checking;
mod error;
mod found;
mod list_reader;
mod mark;
mod pass;
mod reply;
mod room;
mod session;
mod steps;
mod submit;
mod table;
#[cfg(test)]
mod tests;
mod texts;
mod view;

pub use error::{SubmitError, TextError};
pub use mark::Mark;
pub use pass::Pass;
pub use reply::{History, Reply};
pub use room::Room;
pub use session::{Opened, Session};
pub use texts::Reads;
pub use view::{Submission, View};
