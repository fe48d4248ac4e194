//! What waits on the stack of a walk.

ghost use Rattle.std.specs.Prelude.{◌≡◌, [], ◌∷◌, ◌++◌, OnOk};

use lk_store::memory::NoMemory;

/// A part that the walk is to enter, or one whose line it writes, once those of its own parts are
/// there.
#[derive(Clone, Copy)]
pub enum Visit {
    Enter(u64),
    Leave(u64),
}

/// Puts a visit on the stack.
pub(crate) fn push(stack: &mut Vec<Visit>, visit: Visit) -> Result<(), NoMemory>
    ensures { OnOk result (stack.new.items ≡ stack.old.items ++ visit ∷ []) }
{
    stack.push(visit)?;
    Ok(())
}
