//! What is wrong with a line among those before it.

use lk_store::memory::NoMemory;

/// What is wrong with a line of a block's member among the lines before it.
#[derive(Clone, Copy)]
pub enum MemberFault {
    /// The lists of a type lack its own name, share one with the list of another block, or hold one twice.
    BadCount,
    /// The member has a line already.
    RepeatedMember,
}

/// Why a line is not taken.
#[derive(Clone, Copy)]
pub enum MemberError {
    /// Memory ran out.
    NoMemory,
    /// The line has a fault among those before it.
    Fault(MemberFault),
}

impl From<NoMemory> for MemberError {
    ghost use Rattle.std.specs.Prelude.{◌≡◌};
    ghost use Rattle.lk_members.specs.declared.fault.MemberError.TheVariants.{NoMemory};

    ghost from_gives = { λ _ e. e ≡ NoMemory };

    fn from(_e: NoMemory) -> MemberError {
        MemberError::NoMemory
    }
}
