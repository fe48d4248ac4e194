use lk_lines::{Fault, LineError};
use lk_port::Failed;

/// Why a file is not read.
#[derive(Clone, Copy)]
pub enum ReadError {
    /// Memory ran out.
    NoMemory,
    /// A read of the source failed.
    ReadFault,
    /// The file has a fault: its first faulty line, and that line's first fault.
    Fault(Fault),
}

impl From<Failed> for ReadError {
    ghost use Rattle.std.specs.Prelude.{◌≡◌};
    ghost use Rattle.lk_book.specs.declared.error.ReadError.TheVariants.{ReadFault};

    ghost from_gives = { λ _ e. e ≡ ReadFault };

    fn from(_: Failed) -> Self {
        ReadError::ReadFault
    }
}

impl From<LineError> for ReadError {
    ghost use Rattle.std.specs.Prelude.{◌≡◌};
    ghost use Rattle.lk_book.specs.Reading.{read_error};

    ghost from_gives = { λ l e. e ≡ read_error l };

    fn from(error: LineError) -> Self {
        match error {
            LineError::NoMemory => ReadError::NoMemory,
            LineError::Fault(fault) => ReadError::Fault(fault),
        }
    }
}
