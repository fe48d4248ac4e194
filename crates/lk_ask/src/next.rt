//! What a question does next.

use crate::query::{Answer, Query};
use lk_tree::rule::Rule;

/// What a question does next. While it asks another one it keeps a sheet.
#[derive(Drop)]
pub enum Next<X: Drop, S: Drop> {
    Ask(Query<X>, S),
    Done(Answer<X>),
    No(Rule),
}

/// What a line of `Same` does next: it goes on, or it gives no answer, and what comes behind it is asked of these two.
#[derive(Drop)]
pub enum Line<X: Drop, S: Drop> {
    Goes(Next<X, S>),
    Behind { left: X, right: X },
}
