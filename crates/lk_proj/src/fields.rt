//! The Pis of the fields in a constructor's type.

ghost use Rattle.std.specs.Prelude.{◌≡◌, ◌<◌, ◌-◌, Ok, length, IfOk};
ghost use Rattle.lk_store.specs.Contents.{name_at, tree_at};
ghost use Rattle.lk_ask.specs.Looks.{Made};
ghost use Rattle.lk_proj.specs.Nodes.{IsProjection};
ghost use Rattle.lk_proj.specs.Sheets.{map_pi, IsKnownPi};
ghost use Rattle.lk_proj.specs.Infers.{fields_rest, next_field as plain_next};
ghost use Rattle.lk_proj.specs.Infers.{must_be_prop as plain_must};
ghost use Rattle.lk_proj.specs.Infers.{field_pi as plain_pi, field_rest, field_sort_rest, Infers};

use crate::infer::InferNext;
use crate::node::{Projection, projection_of};
use crate::sheet::{FieldPi, InferSheet};
use crate::sort::is_prop;
use lk_ask::looks::Looks;
use lk_ask::next::Next;
use lk_ask::query::{Answer, Query};
use lk_store::memory::NoMemory;
use lk_store::node::Node;
use lk_structure::occurs::occurs;
use lk_subst::opening::open_with;
use lk_tree::rule::Rule;

/// Goes on to the fields once the parameters are past.
pub(crate) fn begin_fields<L: Looks>(looks: &L, e: u64, prop: bool, ty: u64) -> InferNext
    requires e_in { e < length (L.contents looks.now).trees }
    requires ty_in { ty < length (L.contents looks.now).trees }
    ensures { Infers L.contents L.rest L.sight looks.now looks.now (Ok result)
        (λ t. fields_rest (t e) prop (t ty)) }
{
    match projection_of(looks, e) {
        Some(_) => Next::Ask(
            Query::Whnf(ty),
            InferSheet::Field {
                projection: e,
                number: 0,
                prop,
            },
        ),
        None => Next::No(Rule::BadProjection),
    }
}

/// Goes on behind the Pi of a field, which is allowed: with its domain, where it is the field that
/// is asked for, else with the next one.
fn next_field<L: Looks>(
    looks: &mut L,
    p: Projection,
    number: u64,
    prop: bool,
    domain: u64,
    body: u64,
) -> Result<InferNext, NoMemory>
    requires p_in { IsProjection (L.contents looks.old) p }
    requires domain_in { domain < length (L.contents looks.old).trees }
    requires body_in { body < length (L.contents looks.old).trees }
    ensures { let S = name_at (L.contents looks.old) p.structure in
        Infers L.contents L.rest L.sight looks.old looks.new result
        (λ t. plain_next S (t p.subject) prop number (p.field - number) (t domain, t body)) }
{
    if number >= p.field {
        return Ok(Next::Done(Answer::Term(domain)));
    }
    let value = looks.make(Node::Proj(p.structure, number, p.subject))?;
    let rest = open_with(looks.alloc(), looks, body, value)?;
    Ok(Next::Ask(
        Query::Whnf(rest),
        InferSheet::Field {
            projection: p.whole,
            number: number + 1,
            prop,
        },
    ))
}

/// Whether the domain of a field is to be a proposition: in a structure that is one, where the
/// field is asked for, or what stands behind depends on it.
fn must_be_prop<L: Looks>(
    looks: &mut L,
    p: Projection,
    number: u64,
    prop: bool,
    body: u64,
) -> Result<bool, NoMemory>
    requires body_in { body < length (L.contents looks.old).trees }
    ensures made { Made L.contents L.rest looks.old looks.new }
    ensures ok { IfOk result (λ r. r ≡ plain_must prop (p.field - number)
        (tree_at (L.contents looks.old) body)) }
{
    if !prop || number >= p.field {
        return Ok(prop);
    }
    occurs(looks, body)
}

/// Goes on with the Pi of a field.
fn field_pi<L: Looks>(
    looks: &mut L,
    p: Projection,
    number: u64,
    prop: bool,
    domain: u64,
    body: u64,
) -> Result<InferNext, NoMemory>
    requires p_in { IsProjection (L.contents looks.old) p }
    requires domain_in { domain < length (L.contents looks.old).trees }
    requires body_in { body < length (L.contents looks.old).trees }
    ensures { let S = name_at (L.contents looks.old) p.structure in
        Infers L.contents L.rest L.sight looks.old looks.new result
        (λ t. plain_pi S (t p.subject) prop number (p.field - number) (t domain, t body)) }
{
    if must_be_prop(looks, p, number, prop, body)? {
        return Ok(Next::Ask(
            Query::Infer(domain),
            InferSheet::FieldSort(FieldPi {
                projection: p.whole,
                number,
                domain,
                body,
            }),
        ));
    }
    next_field(looks, p, number, prop, domain, body)
}

/// Goes on with the weak head form of the constructor's type, which is to be the Pi of a field.
fn at_field<L: Looks>(
    looks: &mut L,
    p: Projection,
    number: u64,
    prop: bool,
    form: u64,
) -> Result<InferNext, NoMemory>
    requires p_in { IsProjection (L.contents looks.old) p }
    requires form_in { form < length (L.contents looks.old).trees }
    ensures { Infers L.contents L.rest L.sight looks.old looks.new result
        (λ t. field_rest (t p.whole) number prop (t form)) }
{
    match looks.view(form) {
        Node::Pi(domain, body) => field_pi(looks, p, number, prop, domain, body),
        _ => Ok(Next::No(Rule::BadProjection)),
    }
}

/// The same of a projection by its number.
pub(crate) fn field_form<L: Looks>(
    looks: &mut L,
    e: u64,
    number: u64,
    prop: bool,
    form: u64,
) -> Result<InferNext, NoMemory>
    requires e_in { e < length (L.contents looks.old).trees }
    requires form_in { form < length (L.contents looks.old).trees }
    ensures { Infers L.contents L.rest L.sight looks.old looks.new result
        (λ t. field_rest (t e) number prop (t form)) }
{
    match projection_of(looks, e) {
        Some(p) => at_field(looks, p, number, prop, form),
        None => Ok(Next::No(Rule::BadProjection)),
    }
}

/// Goes on with the sort of a field's domain, which is to be a proposition.
fn at_field_sort<L: Looks>(
    looks: &mut L,
    p: Projection,
    pi: FieldPi<u64>,
    form: u64,
) -> Result<InferNext, NoMemory>
    requires p_in { IsProjection (L.contents looks.old) p }
    requires pi_in { IsKnownPi (length (L.contents looks.old).trees) pi }
    requires pi_of { pi.projection ≡ p.whole }
    requires form_in { form < length (L.contents looks.old).trees }
    ensures { Infers L.contents L.rest L.sight looks.old looks.new result
        (λ t. field_sort_rest (map_pi t pi) (t form)) }
{
    match is_prop(looks, form) {
        Some(true) => next_field(looks, p, pi.number, true, pi.domain, pi.body),
        Some(false) => Ok(Next::No(Rule::PropProjection)),
        None => Ok(Next::No(Rule::NotASort)),
    }
}

/// The same of a projection by its number.
pub(crate) fn field_sort<L: Looks>(
    looks: &mut L,
    pi: FieldPi<u64>,
    form: u64,
) -> Result<InferNext, NoMemory>
    requires pi_in { IsKnownPi (length (L.contents looks.old).trees) pi }
    requires form_in { form < length (L.contents looks.old).trees }
    ensures { Infers L.contents L.rest L.sight looks.old looks.new result
        (λ t. field_sort_rest (map_pi t pi) (t form)) }
{
    match projection_of(looks, pi.projection) {
        Some(p) => at_field_sort(looks, p, pi, form),
        None => Ok(Next::No(Rule::BadProjection)),
    }
}
