//! Steps and rows.

use lk_ask::query::Query;
use lk_premises::Claim;
use lk_trace::Rule;

/// A line before it has a number: `left => right`, `left >> right` or `left == right`, by the kind of its rule, and what
/// it rests on, in the order in which the rule reads it. Trees are numbers of a store.
#[derive(Drop)]
pub struct Step {
    pub rule: Rule,
    pub left: u64,
    pub right: u64,
    pub premises: Vec<Claim>,
}

/// What an answer rests on: questions whose answers together cost less than it, and steps over what these answers claim,
/// each over those and the steps before it.
#[derive(Drop)]
pub struct Row {
    pub asks: Vec<Query<u64>>,
    pub steps: Vec<Step>,
}
