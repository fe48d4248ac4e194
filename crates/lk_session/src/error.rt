//! Why a text is not read, and why it is not added to the list.

use lk_lines::Fault;
use lk_store::memory::NoMemory;

/// Why a text is not read.
#[derive(Clone, Copy)]
pub enum TextError {
    /// The text's first fault.
    Fault(Fault),
    /// Memory is wanting.
    NoMemory,
}

/// Why a text is not added to the list.
#[derive(Clone, Copy)]
pub enum SubmitError {
    /// The text's first fault.
    Fault(Fault),
    /// The list has so many units, and with those of the text there would be more than 65,536.
    Full { units: u32 },
    /// Memory is wanting.
    NoMemory,
}

impl From<NoMemory> for SubmitError {
    ghost use Rattle.std.specs.Prelude.{◌≡◌};
    ghost use Rattle.lk_session.specs.declared.error.SubmitError.TheVariants.{NoMemory};

    ghost from_gives = { λ _ e. e ≡ NoMemory };

    fn from(_: NoMemory) -> SubmitError {
        SubmitError::NoMemory
    }
}

impl From<TextError> for SubmitError {
    ghost use Rattle.std.specs.Prelude.{◌≡◌};
    ghost use Rattle.lk_session.specs.Texts.{submit_error};

    ghost from_gives = { λ t e. e ≡ submit_error t };

    fn from(error: TextError) -> SubmitError {
        match error {
            TextError::Fault(fault) => SubmitError::Fault(fault),
            TextError::NoMemory => SubmitError::NoMemory,
        }
    }
}
