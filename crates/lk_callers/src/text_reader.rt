//! Texts as files have them, read by `lk_book`.

ghost use Rattle.std.specs.Prelude.{◌≡◌};
ghost use Rattle.lk_callers.specs.Errors.{text_error};

use lk_book::{add_text, read_text};
use lk_env::library::Library;
use lk_lines::LineError;
use lk_session::{Reads, TextError};
use std::alloc::Global;

/// Reads texts that are whole exports.
pub struct TextReader;

/// Why a text is not read.
fn text_error(error: LineError) -> TextError
    ensures { result ≡ text_error error }
{
    match error {
        LineError::Fault(fault) => TextError::Fault(fault),
        LineError::NoMemory => TextError::NoMemory,
    }
}

impl Reads for TextReader {
    ghost use Rattle.lk_book.specs.Texts.{text_of};

    ghost stated = { text_of };

    fn count(alloc: Global, text: &[u8]) -> Result<usize, TextError> {
        match read_text(alloc, text) {
            Ok(library) => Ok(library.units().len()),
            Err(error) => Err(text_error(error)),
        }
    }

    fn add_text(alloc: Global, library: &mut Library, text: &[u8]) -> Result<(), TextError> {
        match add_text(alloc, library, text) {
            Ok(()) => Ok(()),
            Err(error) => Err(text_error(error)),
        }
    }
}
