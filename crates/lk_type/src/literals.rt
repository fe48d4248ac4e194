//! Literals.

ghost use Rattle.lk_type.specs.Types.{number_steps, text_steps, Infers};

use crate::infer::TypeNext;
use lk_ask::looks::Looks;
use lk_ask::next::Next;
use lk_ask::query::Answer;
use lk_store::memory::NoMemory;

/// The type of a number, which is `Nat` where that has its shape.
pub(crate) fn number_type<L: Looks>(looks: &mut L) -> Result<TypeNext, NoMemory>
    ensures { Infers L.contents L.rest L.sight looks.old looks.new result (λ t. number_steps) }
{
    match lk_lit::nat_shape(looks)? {
        Ok(()) => {
            let e = lk_lit::nat(looks)?;
            Ok(Next::Done(Answer::Term(e)))
        }
        Err(rule) => Ok(Next::No(rule)),
    }
}

/// The type of a text, which is `String` where that has its shape.
pub(crate) fn text_type<L: Looks>(looks: &mut L) -> Result<TypeNext, NoMemory>
    ensures { Infers L.contents L.rest L.sight looks.old looks.new result (λ t. text_steps) }
{
    match lk_lit::string_shape(looks)? {
        Ok(()) => {
            let e = lk_lit::string(looks)?;
            Ok(Next::Done(Answer::Term(e)))
        }
        Err(rule) => Ok(Next::No(rule)),
    }
}
