//! A type and the types of its block.

use lk_env::unit::BlockType;

/// A type of a block, and all types of that block.
#[derive(Drop)]
pub struct Family {
    pub own: BlockType,
    pub types: Vec<BlockType>,
}
