//! Auxiliary types.

use lk_env::unit::BlockType;

/// What an auxiliary type stands for, a type of an earlier block at levels and arguments, and what that type's stated trees
/// become there: its type past the parameters, the Locals of that type's indices and the level of its sort, and its
/// constructors' types past the parameters. All numbers are those of one store.
#[derive(Drop)]
pub struct Auxiliary {
    pub name: u64,
    pub own: BlockType,
    pub levels: u64,
    pub arguments: Vec<u64>,
    /// The type at the levels and the arguments, as a tree.
    pub instance: u64,
    pub ty: u64,
    pub indices: Vec<u64>,
    pub sort: u64,
    pub constructors: Vec<u64>,
}
