//! What goes under the lock, and what is found there.

use crate::mark::Mark;
use crate::texts::Text;

/// A text that is to be added, and how many units it states.
#[derive(Drop)]
pub(crate) struct Offer {
    pub(crate) tag: u64,
    pub(crate) text: Text,
    pub(crate) count: usize,
}

/// Of a text that was added: its first unit, and the texts that its caller has not read, its own
/// the last of them.
#[derive(Drop)]
pub(crate) struct Entered {
    pub(crate) first: u32,
    pub(crate) texts: Vec<Text>,
}

/// Of the list: each of its submissions, and the texts that its caller has not read.
#[derive(Drop)]
pub(crate) struct Found {
    pub(crate) marks: Vec<Mark>,
    pub(crate) texts: Vec<Text>,
}
