//! What `Core` of a constant of quotients asks for: the weak head form of the major premise, and `Core` of what comes
//! of that.

ghost use Rattle.std.specs.Prelude.{◌≡◌, ◌<◌, IfOk, IfSome, length, option_map};
ghost use Rattle.lk_store.specs.Contents.{name_at, tree_at};
ghost use Rattle.lk_step.specs.Nexts.{core_number, form_number};
ghost use Rattle.lk_step.specs.Told.{Leaves};
ghost use Rattle.lk_derive_quot.specs.Quotients.{IsNamed, major_at, reduct_at};

use lk_ask::next::Next;
use lk_ask::query::Query;
use lk_quot::core_form::{QuotNext, begin, resume_term};
use lk_quot::sheet::QuotSheet;
use lk_step::Derives;
use lk_store::memory::NoMemory;

/// What is asked for next, where that is `Whnf`.
fn form_of_next(next: QuotNext) -> Option<u64>
    ensures { result ≡ form_number next }
{
    match next {
        Next::Ask(query, _) => match query {
            Query::Whnf(r) => Some(r),
            Query::Core(_) => None,
            Query::Infer(_) => None,
            Query::Same(_, _) => None,
        },
        Next::Done(_) => None,
        Next::No(_) => None,
    }
}

/// What is asked for next, where that is `Core`.
fn core_of_next(next: QuotNext) -> Option<u64>
    ensures { result ≡ core_number next }
{
    match next {
        Next::Ask(query, _) => match query {
            Query::Core(r) => Some(r),
            Query::Whnf(_) => None,
            Query::Infer(_) => None,
            Query::Same(_, _) => None,
        },
        Next::Done(_) => None,
        Next::No(_) => None,
    }
}

/// The major premise of a term whose head is a constant of this name, which a quotient unit gives.
pub(crate) fn major_of<D: Derives>(
    derives: &mut D,
    name: u64,
    e: u64,
) -> Result<Option<u64>, NoMemory>
    requires name_in { name < length (D.contents derives.old).names }
    requires e_in { e < length (D.contents derives.old).trees }
    requires named { let c = D.contents derives.old in IsNamed (name_at c name) (tree_at c e) }
    ensures leaves { Leaves D.contents D.rest D.sight derives.old derives.new }
    ensures known { IfOk result (λ x. IfSome x (λ r. r < length (D.contents derives.new).trees)) }
    ensures is { let c = D.contents derives.old in let s = D.sight (D.rest derives.old) in
        IfOk result (λ x. option_map (tree_at (D.contents derives.new)) x
        ≡ major_at s.basis.place s.last (name_at c name) (tree_at c e)) }
{
    let next = begin(derives, name, e)?;
    Ok(form_of_next(next))
}

/// What a constant of quotients comes to, whose major premise has the weak head form of this number, if that is an
/// element.
pub(crate) fn reduct_of<D: Derives>(
    derives: &mut D,
    e: u64,
    form: u64,
) -> Result<Option<u64>, NoMemory>
    requires e_in { e < length (D.contents derives.old).trees }
    requires form_in { form < length (D.contents derives.old).trees }
    ensures leaves { Leaves D.contents D.rest D.sight derives.old derives.new }
    ensures known { IfOk result (λ x. IfSome x (λ r. r < length (D.contents derives.new).trees)) }
    ensures is { let t = tree_at (D.contents derives.old) in let s = D.sight (D.rest derives.old) in
        IfOk result (λ x. option_map (tree_at (D.contents derives.new)) x
        ≡ reduct_at s.basis.place s.last (t e) (t form)) }
{
    let next = resume_term(derives, QuotSheet::Major { application: e }, form)?;
    Ok(core_of_next(next))
}
