//! What waits for the answer of one question that is the answer of the whole.

/// What waits for yes or no.
#[derive(Drop)]
pub enum AnswerSheet {
    /// The answer is that of the question too.
    Passed,
}
