//! The units of a library. Names and trees are numbers of a store.

use std::sync::Arc;

/// How a definition is unfolded, as its line states it.
#[derive(Clone, Copy)]
pub enum Hint {
    Opaque,
    Abbreviation,
    /// The height of the definition.
    Regular(u32),
}

/// What a declaration states beside its name, its level parameters and its type.
#[derive(Clone, Copy)]
pub enum Body {
    Axiom,
    Definition { hint: Hint, value: u32 },
    Theorem { proof: u32 },
    Opaque { value: u32 },
    Quotient,
}

/// A declaration alone: its name, its type, the names of its level parameters and its body. Most
/// units are declarations alone, so its numbers have 32 bits, as those of a store, and the list of
/// its level parameters is shared with declarations that have the same one.
#[derive(Clone, Drop)]
pub struct Declaration {
    pub name: u32,
    pub ty: u32,
    pub levels: Arc<Vec<u64>>,
    pub body: Body,
}

/// A constructor as its line states it.
#[derive(Clone, Drop)]
pub struct Constructor {
    pub name: u64,
    pub levels: Vec<u64>,
    pub ty: u64,
    /// The name of its type.
    pub parent: u64,
    /// Its place among the constructors of its type.
    pub place: u64,
    pub parameters: u64,
    pub fields: u64,
}

/// A type of a block as its line states it, with the constructors of its list.
#[derive(Clone, Drop)]
pub struct BlockType {
    pub name: u64,
    pub levels: Vec<u64>,
    pub ty: u64,
    pub parameters: u64,
    pub indices: u64,
    pub constructors: Vec<Constructor>,
}

/// A rule of a recursor: the name of a constructor, how many fields it has, and the right side.
#[derive(Clone, Copy)]
pub struct RecursorRule {
    pub constructor: u64,
    pub fields: u64,
    pub value: u64,
}

/// A recursor as its line states it.
#[derive(Clone, Drop)]
pub struct Recursor {
    pub name: u64,
    pub levels: Vec<u64>,
    pub ty: u64,
    pub parameters: u64,
    pub indices: u64,
    pub motives: u64,
    pub minors: u64,
    /// Whether its line claims that the subject need not be spelled as a constructor.
    pub k: bool,
    pub rules: Vec<RecursorRule>,
}

/// The types of a block in the order of its list, and its recursors. These are in a box, so that a
/// unit takes no more room for a block than for a declaration alone.
#[derive(Clone, Drop)]
pub struct Block {
    pub types: Vec<BlockType>,
    pub recursors: Box<Vec<Recursor>>,
}

/// A unit: a declaration alone, or a block of inductive types.
#[derive(Clone, Drop)]
pub enum Unit {
    Declaration(Declaration),
    Block(Block),
}
