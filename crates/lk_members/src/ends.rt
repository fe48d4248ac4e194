//! The blocks that end at lines.

ghost use Rattle.std.specs.Prelude.{◌≡◌, ◌∷◌, [], OnOk};
ghost use Rattle.lk_members.specs.Finishing.{IsNext, blocks_at};

use crate::blocks::push_any;
use lk_env::unit::Block;
use lk_store::memory::NoMemory;
use std::alloc::Global;

/// For each of the lines, from the last to the first, the block that ends there, where there is one. A line takes one mark,
/// since at most lines no block ends.
#[derive(Drop)]
pub(crate) struct Ends {
    /// Whether a block ends at the line.
    pub marks: Vec<bool>,
    /// The blocks of the lines that are marked.
    pub blocks: Vec<Block>,
}

impl Ends {
    /// Of no lines.
    pub(crate) fn new(alloc: Global) -> Self
        ensures { blocks_at result ≡ [] }
    {
        Ends {
            marks: Vec::new(alloc),
            blocks: Vec::new(alloc),
        }
    }

    /// Adds the line before.
    pub(crate) fn push(&mut self, block: Option<Block>) -> Result<(), NoMemory>
        ensures { OnOk result (blocks_at self.new ≡ block ∷ blocks_at self.old) }
    {
        self.marks.push(block.is_some())?;
        push_any(&mut self.blocks, block)?;
        Ok(())
    }

    /// Takes away the line that was added last, and tells its block.
    pub(crate) fn pop(&mut self) -> Option<Block>
        ensures { IsNext (blocks_at self.old) result (blocks_at self.new) }
    {
        let Some(ends) = self.marks.pop() else {
            return None;
        };
        if ends {
            return self.blocks.pop();
        }
        None
    }
}
