//! What waits on the stack of a walk.

ghost use Rattle.std.specs.Prelude.{◌≡◌, [], ◌∷◌, ◌++◌, OnOk};

use lk_store::memory::NoMemory;

/// A part that the walk is to enter, or one that it leaves once the parts above it are done.
#[derive(Clone, Copy)]
pub enum Visit<P> {
    Enter(P),
    Leave(P),
}

/// Puts a visit on the stack.
pub fn push<P: Copy>(stack: &mut Vec<Visit<P>>, visit: Visit<P>) -> Result<(), NoMemory>
    ensures { OnOk result (stack.new.items ≡ stack.old.items ++ visit ∷ []) }
{
    stack.push(visit)?;
    Ok(())
}
