//! What is written so far.

use crate::numbering::Numbering;

/// The names, levels and trees that have a line, by their numbers in a store, and how many rules
/// have one.
#[derive(Drop)]
pub struct Numbers {
    pub names: Numbering,
    pub levels: Numbering,
    pub trees: Numbering,
    pub rules: u64,
}

/// The text, and what has a line in it.
#[derive(Drop)]
pub struct Writer {
    pub out: Vec<u8>,
    pub numbers: Numbers,
}
