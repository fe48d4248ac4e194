//! What a seat of a session knows.

use std::collections::LinkedList;

/// A call of `submit`: its tag and its text. No value of it is made.
pub struct Submission {
    pub tag: u64,
    pub text: LinkedList<u8>,
}

/// What a seat knows. No value of it is made, so it takes no memory.
pub struct View {
    /// It is the book's.
    pub keeps: bool,
    /// A beginning of the list of submissions.
    pub seen: LinkedList<Submission>,
    /// The places of its own submissions.
    pub mine: LinkedList<u64>,
    /// Earlier values of what it has seen.
    pub olds: LinkedList<LinkedList<Submission>>,
    /// How often it was refused a new pass.
    pub refusals: u64,
    /// How many passes it came from.
    pub passes: u64,
    /// A pass that was counted, and is about to come.
    pub pending: u64,
}
