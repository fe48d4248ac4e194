//! Applications.

ghost use Rattle.std.specs.Prelude.{◌<◌, Ok, IfOk, length};
ghost use Rattle.lk_type.specs.Types.{applied_end, applied_rest, Infers};

use crate::infer::TypeNext;
use crate::sheet::TypeTermSheet;
use lk_ask::looks::Looks;
use lk_ask::next::Next;
use lk_ask::query::{Answer, Query};
use lk_ask::sheet::Sheet;
use lk_store::memory::NoMemory;
use lk_store::node::Node;
use lk_subst::opening::open_with;
use lk_tree::rule::Rule;

/// Goes on with the weak head form of the function's type, which is to be a Pi.
pub(crate) fn function_form<L: Looks>(looks: &L, argument: u64, form: u64) -> TypeNext
    requires argument_in { argument < length (L.contents looks.now).trees }
    requires form_in { form < length (L.contents looks.now).trees }
    ensures { Infers L.contents L.rest L.sight looks.now looks.now (Ok result)
        (λ t. applied_rest (t argument) (t form)) }
{
    match looks.view(form) {
        Node::Pi(domain, body) => Next::Ask(
            Query::Infer(argument),
            Sheet::Term(TypeTermSheet::Argument {
                domain,
                body,
                argument,
            }),
        ),
        _ => Next::No(Rule::NotAFunction),
    }
}

/// The end of an application, whose argument is of the right type or not.
pub(crate) fn application_end<L: Looks>(
    looks: &mut L,
    body: u64,
    argument: u64,
    equal: bool,
) -> Result<TypeNext, NoMemory>
    requires body_in { body < length (L.contents looks.old).trees }
    requires argument_in { argument < length (L.contents looks.old).trees }
    ensures { Infers L.contents L.rest L.sight looks.old looks.new result
        (λ t. applied_end (t body) (t argument) equal) }
{
    if !equal {
        return Ok(Next::No(Rule::ArgumentType));
    }
    let e = open_with(looks.alloc(), looks, body, argument)?;
    Ok(Next::Done(Answer::Term(e)))
}
