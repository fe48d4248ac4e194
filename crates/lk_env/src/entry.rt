//! What a look-up answers.

use crate::unit::Body;

/// Which member of its unit it is: a declaration, with its body, or by number a type of a block, a constructor of a
/// type of a block, or a recursor of a block. A recursor that is partial is bare: its rules are not given yet.
#[derive(Clone, Copy)]
pub enum Kind {
    Declared(Body),
    Type(usize),
    Constructor { parent: usize, number: usize },
    Recursor(usize),
    BareRecursor(usize),
}

/// A member of a unit, by numbers: which it is, its type, and the unit that has its level parameters and all else that
/// its line states.
#[derive(Clone, Copy)]
pub struct Entry {
    pub kind: Kind,
    pub stated: u64,
    pub unit: u32,
    /// The unit that gives it: the same one, save that an auxiliary type is given by the unit at work.
    pub origin: u32,
}

/// Which members of a unit are partial: given while the unit itself is checked.
#[derive(Clone, Copy)]
pub enum Partial {
    Nothing,
    /// The types of a block.
    Types,
    /// All members of a block, its recursors without their rules.
    Members,
}

/// From where names are looked up: the units below this one are seen, and what is partial of this one.
#[derive(Clone, Copy)]
pub struct Site {
    pub unit: u32,
    pub partial: Partial,
}
