//! Lets.

ghost use Rattle.std.specs.Prelude.{◌<◌, Ok, IfOk, length};
ghost use Rattle.lk_type.specs.Types.{let_end, let_sorted, Infers};

use crate::infer::TypeNext;
use crate::sheet::TypeTermSheet;
use lk_ask::looks::Looks;
use lk_ask::next::Next;
use lk_ask::query::Query;
use lk_ask::sheet::Sheet;
use lk_store::memory::NoMemory;
use lk_store::node::Node;
use lk_subst::opening::open_with;
use lk_tree::rule::Rule;

/// Goes on with the sort of what a Let states as its value's type: asks for the type of the value.
pub(crate) fn let_type_sort<L: Looks>(looks: &L, ty: u64, value: u64, body: u64, e: u64) -> TypeNext
    requires ty_in { ty < length (L.contents looks.now).trees }
    requires value_in { value < length (L.contents looks.now).trees }
    requires body_in { body < length (L.contents looks.now).trees }
    requires e_in { e < length (L.contents looks.now).trees }
    ensures { Infers L.contents L.rest L.sight looks.now looks.now (Ok result)
        (λ t. let_sorted (t ty) (t value) (t body) (t e)) }
{
    match looks.view(e) {
        Node::Sort(_) => Next::Ask(
            Query::Infer(value),
            Sheet::Term(TypeTermSheet::LetValue { ty, value, body }),
        ),
        _ => Next::No(Rule::NotASort),
    }
}

/// Goes on with a Let whose value is of the stated type or not: asks for the type of the body,
/// opened with the value.
pub(crate) fn let_body<L: Looks>(
    looks: &mut L,
    value: u64,
    body: u64,
    equal: bool,
) -> Result<TypeNext, NoMemory>
    requires value_in { value < length (L.contents looks.old).trees }
    requires body_in { body < length (L.contents looks.old).trees }
    ensures { Infers L.contents L.rest L.sight looks.old looks.new result
        (λ t. let_end (t value) (t body) equal) }
{
    if !equal {
        return Ok(Next::No(Rule::LetType));
    }
    let e = open_with(looks.alloc(), looks, body, value)?;
    Ok(Next::Ask(Query::Infer(e), Sheet::Term(TypeTermSheet::Passed)))
}
