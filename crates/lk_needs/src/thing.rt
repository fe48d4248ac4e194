//! What may be needed of a library.

/// A unit, a name or a tree, or the recursors `T.rec_1`, `T.rec_2` and so on of the name `T`.
#[derive(Clone, Copy)]
pub enum Thing {
    Unit(u32),
    Name(u64),
    Tree(u64),
    Numbered(u64),
}
