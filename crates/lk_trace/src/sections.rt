//! Lines and sections.

use crate::rules::Rule;

/// A line: `left => right`, `left >> right` or `left == right`, by the kind of its rule. Trees are numbers of a store,
/// premises the places of lines in the section, from 0.
#[derive(Drop)]
pub struct Line {
    pub rule: Rule,
    pub left: u64,
    pub right: u64,
    pub premises: Vec<u32>,
}

/// What is written for one unit: the unit's number, the lines, and the premises of the line that ends the section.
#[derive(Drop)]
pub struct Section {
    pub unit: u32,
    pub lines: Vec<Line>,
    pub parts: Vec<u32>,
}
