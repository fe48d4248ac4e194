//! Fields of a projection's structure, up to the one that is asked for: whether the domain of one is to be a proposition,
//! and what is noted of that.

ghost use Rattle.std.specs.Prelude.{◌≡◌, ◌<◌, ◌+◌, ◌&&◌, true, length, IfOk, OnOk};
ghost use Rattle.lk_tree.specs.Tree.{proj};
ghost use Rattle.lk_tree.specs.Bind.{has_var, opened};
ghost use Rattle.lk_store.specs.Contents.{name_at, tree_at};
ghost use Rattle.lk_ask.specs.Looks.{Made, MakesTree};
ghost use Rattle.lk_step.specs.Told.{Leaves};
ghost use Rattle.lk_derive_types.specs.Parts.{IsSortedWithin};
ghost use Rattle.lk_derive_types.specs.Projections.{NotesSort, NotesProp, IsFieldAt};
ghost use Rattle.lk_rulebook.specs.WellStated.{WellStated};
ghost use Rattle.lk_derive_types.specs.TypeRows.{IsTypedBy};
ghost use Rattle.lk_trace.specs.declared.rules.TypingRule.TheVariants.{Project};

use crate::asked::Asked;
use crate::parts::{pi_of, sort_of};
use lk_ask::looks::Looks;
use lk_step::Derives;
use lk_store::memory::NoMemory;
use lk_store::node::Node;
use lk_structure::occurs::occurs;
use lk_subst::opening::open_with;

/// A projection, by the numbers of its parts, and whether its subject's type is a proposition.
#[derive(Clone, Copy)]
pub struct Projected {
    pub whole: u64,
    pub structure: u64,
    pub field: u64,
    pub subject: u64,
    pub prop: bool,
}

/// Whether the domain of a field before the one that is asked for is to be a proposition: in a
/// structure that is one, where what stands behind depends on it.
pub(crate) fn is_due<L: Looks>(looks: &mut L, prop: bool, body: u64) -> Result<bool, NoMemory>
    requires body_in { body < length (L.contents looks.old).trees }
    ensures made { Made L.contents L.rest looks.old looks.new }
    ensures ok { IfOk result (λ r. r ≡ (prop && has_var 0 (tree_at (L.contents looks.old) body))) }
{
    if !prop {
        return Ok(false);
    }
    occurs(looks, body)
}

/// Asks for the sort of a type, and notes it.
fn note_sort<D: Derives>(
    derives: &mut D,
    asked: &mut Asked,
    domain: u64,
    enough: u128,
) -> Result<(), NoMemory>
    requires domain_in { domain < length (D.contents derives.old).trees }
    requires sorted { IsSortedWithin (D.sight (D.rest derives.old)).basis.place
        (tree_at (D.contents derives.old) domain) enough }
    ensures leaves { Leaves D.contents D.rest D.sight derives.old derives.new }
    ensures noted { OnOk result (NotesSort (D.sight (D.rest derives.old)).basis.place
        (D.contents derives.new) (tree_at (D.contents derives.old) domain)
        asked.old asked.new domain) }
{
    let sorted = sort_of(derives, domain, enough)?;
    asked.note_type(domain, sorted.ty)?;
    asked.note_form(sorted.ty, sorted.sort)
}

/// The same, where it is due that the type is a proposition.
pub(crate) fn note_prop<D: Derives>(
    derives: &mut D,
    asked: &mut Asked,
    due: bool,
    domain: u64,
    enough: u128,
) -> Result<(), NoMemory>
    requires domain_in { domain < length (D.contents derives.old).trees }
    requires sorted { due ≡ true → IsSortedWithin (D.sight (D.rest derives.old)).basis.place
        (tree_at (D.contents derives.old) domain) enough }
    ensures leaves { Leaves D.contents D.rest D.sight derives.old derives.new }
    ensures noted { OnOk result (NotesProp (D.sight (D.rest derives.old)).basis.place
        (D.contents derives.new) due (tree_at (D.contents derives.old) domain)
        asked.old asked.new domain) }
{
    if due {
        return note_sort(derives, asked, domain, enough);
    }
    Ok(())
}

/// The body of a field's Pi, with that field's projection put in.
fn with_field<L: Looks>(
    looks: &mut L,
    p: Projected,
    number: u64,
    body: u64,
) -> Result<u64, NoMemory>
    requires structure_in { p.structure < length (L.contents looks.old).names }
    requires subject_in { p.subject < length (L.contents looks.old).trees }
    requires body_in { body < length (L.contents looks.old).trees }
    ensures { let c = L.contents looks.old in
        MakesTree L.contents L.rest looks.old looks.new result (λ t. opened (t body)
        (proj (name_at c p.structure) number (t p.subject))) }
{
    let value = looks.make(Node::Proj(p.structure, number, p.subject))?;
    open_with(looks.alloc(), looks, body, value)
}

/// What is left of a constructor's type behind a field that stands before the one that is asked for.
fn past_field<D: Derives>(
    derives: &mut D,
    asked: &mut Asked,
    p: Projected,
    number: u64,
    at: u64,
    enough: u128,
) -> Result<u64, NoMemory>
    requires stated { WellStated (D.sight (D.rest derives.old)).basis.place }
    requires field { IsFieldAt (D.sight (D.rest derives.old)).basis.place (D.contents derives.old)
        p enough number at asked.old }
    requires before { number < p.field }
    ensures leaves { Leaves D.contents D.rest D.sight derives.old derives.new }
    ensures field { IfOk result (λ t. IsFieldAt (D.sight (D.rest derives.old)).basis.place
        (D.contents derives.new) p enough (number + 1) t asked.new) }
{
    let function = pi_of(derives, at, enough)?;
    asked.note_form(at, function.pi)?;
    let due = is_due(derives, p.prop, function.body)?;
    note_prop(derives, asked, due, function.domain, enough)?;
    with_field(derives, p, number, function.body)
}

/// What is left of a constructor's type behind all fields before the one that is asked for.
pub(crate) fn past_fields<D: Derives>(
    derives: &mut D,
    asked: &mut Asked,
    p: Projected,
    stated: u64,
    enough: u128,
) -> Result<u64, NoMemory>
    requires stated { WellStated (D.sight (D.rest derives.old)).basis.place }
    requires field { IsFieldAt (D.sight (D.rest derives.old)).basis.place (D.contents derives.old)
        p enough 0 stated asked.old }
    ensures leaves { Leaves D.contents D.rest D.sight derives.old derives.new }
    ensures field { IfOk result (λ t. IsFieldAt (D.sight (D.rest derives.old)).basis.place
        (D.contents derives.new) p enough p.field t asked.new) }
{
    let mut at = stated;
    let mut number = 0;
    'fields: while number < p.field {
        at = past_field(derives, asked, p, number, at, enough)?;
        number += 1;
    }
    Ok(at)
}

/// The type of a projection, which is the domain of the Pi that its field stands at.
pub(crate) fn last_field<D: Derives>(
    derives: &mut D,
    asked: &mut Asked,
    p: Projected,
    at: u64,
    enough: u128,
) -> Result<u64, NoMemory>
    requires stated { WellStated (D.sight (D.rest derives.old)).basis.place }
    requires field { IsFieldAt (D.sight (D.rest derives.old)).basis.place (D.contents derives.old)
        p enough p.field at asked.old }
    ensures leaves { Leaves D.contents D.rest D.sight derives.old derives.new }
    ensures typed { IfOk result (λ t. IsTypedBy (D.sight (D.rest derives.old)).basis.place
        (D.contents derives.new) Project p.whole t asked.new
        (tree_at (D.contents derives.old) p.whole)) }
{
    let function = pi_of(derives, at, enough)?;
    asked.note_form(at, function.pi)?;
    note_prop(derives, asked, p.prop, function.domain, enough)?;
    Ok(function.domain)
}
