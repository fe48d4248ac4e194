//! How a recursor goes on with an answer: it is found anew from the whole term, whose head was looked
//! up before. Here as in the first step a term that is no recursor applied is its own `Core`.

ghost use Rattle.std.specs.Prelude.{◌<◌, length};
ghost use Rattle.lk_iota.specs.Redexes.{redex_at};
ghost use Rattle.lk_iota.specs.Expansions.{structure_rest, sort_rest};
ghost use Rattle.lk_iota.specs.Iotas.{form_rest, type_rest, compared_rest, Reduces};

use crate::candidate::{after_type, by_candidate};
use crate::iota::IotaNext;
use crate::major::applied_recursor;
use crate::structure::{after_sort, after_structure};
use crate::subject::by_form;
use lk_ask::looks::Looks;
use lk_ask::next::Next;
use lk_ask::query::Answer;
use lk_store::memory::NoMemory;

/// Goes on with the weak head form of the major premise's type.
pub(crate) fn resume_type<L: Looks>(looks: &mut L, e: u64, ty: u64) -> Result<IotaNext, NoMemory>
    requires e_in { e < length (L.contents looks.old).trees }
    requires ty_in { ty < length (L.contents looks.old).trees }
    ensures { let w = (L.sight (L.rest looks.old)).basis.place in
        Reduces L.contents L.rest L.sight looks.old looks.new result
        (λ t. type_rest w (t e) (redex_at w (t e)) (t ty)) }
{
    match applied_recursor(looks, e)? {
        Some(redex) => after_type(looks, &redex, e, ty),
        None => Ok(Next::Done(Answer::Term(e))),
    }
}

/// Goes on with a candidate, once its type was compared with that of the major premise.
pub(crate) fn resume_candidate<L: Looks>(
    looks: &mut L,
    e: u64,
    candidate: u64,
    equal: bool,
) -> Result<IotaNext, NoMemory>
    requires e_in { e < length (L.contents looks.old).trees }
    requires candidate_in { candidate < length (L.contents looks.old).trees }
    ensures { let w = (L.sight (L.rest looks.old)).basis.place in
        Reduces L.contents L.rest L.sight looks.old looks.new result
        (λ t. compared_rest (t e) (redex_at w (t e)) (t candidate) equal) }
{
    match applied_recursor(looks, e)? {
        Some(redex) => by_candidate(looks, &redex, e, candidate, equal),
        None => Ok(Next::Done(Answer::Term(e))),
    }
}

/// Goes on with the weak head form of the major premise.
pub(crate) fn resume_form<L: Looks>(looks: &mut L, e: u64, m: u64) -> Result<IotaNext, NoMemory>
    requires e_in { e < length (L.contents looks.old).trees }
    requires m_in { m < length (L.contents looks.old).trees }
    ensures { let w = (L.sight (L.rest looks.old)).basis.place in
        Reduces L.contents L.rest L.sight looks.old looks.new result
        (λ t. form_rest (t e) (redex_at w (t e)) (t m)) }
{
    match applied_recursor(looks, e)? {
        Some(redex) => by_form(looks, &redex, e, m),
        None => Ok(Next::Done(Answer::Term(e))),
    }
}

/// Goes on with the weak head form of the subject's type.
pub(crate) fn resume_structure<L: Looks>(
    looks: &mut L,
    e: u64,
    m: u64,
    ty: u64,
) -> Result<IotaNext, NoMemory>
    requires e_in { e < length (L.contents looks.old).trees }
    requires m_in { m < length (L.contents looks.old).trees }
    requires ty_in { ty < length (L.contents looks.old).trees }
    ensures { let w = (L.sight (L.rest looks.old)).basis.place in
        Reduces L.contents L.rest L.sight looks.old looks.new result
        (λ t. structure_rest w (t e) (redex_at w (t e)) (t m) (t ty)) }
{
    match applied_recursor(looks, e)? {
        Some(redex) => after_structure(looks, &redex, e, m, ty),
        None => Ok(Next::Done(Answer::Term(e))),
    }
}

/// Goes on with the weak head form of that type's type.
pub(crate) fn resume_sort<L: Looks>(
    looks: &mut L,
    e: u64,
    m: u64,
    ty: u64,
    sort: u64,
) -> Result<IotaNext, NoMemory>
    requires e_in { e < length (L.contents looks.old).trees }
    requires m_in { m < length (L.contents looks.old).trees }
    requires ty_in { ty < length (L.contents looks.old).trees }
    requires sort_in { sort < length (L.contents looks.old).trees }
    ensures { let w = (L.sight (L.rest looks.old)).basis.place in
        Reduces L.contents L.rest L.sight looks.old looks.new result
        (λ t. sort_rest w (t e) (redex_at w (t e)) (t m) (t ty) (t sort)) }
{
    match applied_recursor(looks, e)? {
        Some(redex) => after_sort(looks, &redex, e, m, ty, sort),
        None => Ok(Next::Done(Answer::Term(e))),
    }
}
