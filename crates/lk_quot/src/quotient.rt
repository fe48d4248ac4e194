//! The four constants of quotient types.

ghost use Rattle.std.specs.Prelude.{◌≡◌, ◌<◌, length, option_map};
ghost use Rattle.lk_questions.specs.QuotientUnits.{quotients, quotient_named as plain_named};
ghost use Rattle.lk_store.specs.Contents.{name_at};
ghost use Rattle.lk_quot.specs.Constants.{plain_quotient};

use crate::names::{is_dotted, is_word};
use lk_store::terms::Terms;

/// The four constants of quotient types.
#[derive(Clone, Copy)]
pub(crate) enum Quotient {
    Quot,
    Mk,
    Lift,
    Ind,
}

/// The constant of quotient types that has this name.
pub(crate) fn quotient_named<T: Terms>(terms: &T, name: u64) -> Option<Quotient>
    requires { name < length (T.contents terms.now).names }
    ensures { option_map plain_quotient result
        ≡ plain_named quotients (name_at (T.contents terms.now) name) }
{
    if is_word(terms, name, b"Quot") {
        return Some(Quotient::Quot);
    }
    if is_dotted(terms, name, b"Quot", b"mk") {
        return Some(Quotient::Mk);
    }
    if is_dotted(terms, name, b"Quot", b"lift") {
        return Some(Quotient::Lift);
    }
    if is_dotted(terms, name, b"Quot", b"ind") {
        return Some(Quotient::Ind);
    }
    None
}
