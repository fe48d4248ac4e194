//! Projections of constructors.

ghost use Rattle.std.specs.Prelude.{◌≡◌, ◌<◌, ◌+◌, IfOk, IfSome, length, option_map, slice_get};
ghost use Rattle.lk_tree.specs.Tree.{proj};
ghost use Rattle.lk_tree.specs.Spine.{args as args_of};
ghost use Rattle.lk_questions.specs.Tests.{passes};
ghost use Rattle.lk_written.specs.Reducing.{red_field};
ghost use Rattle.lk_store.specs.Contents.{name_at, tree_at};
ghost use Rattle.lk_constructor.specs.Applied.{IsKnownConstructor};
ghost use Rattle.lk_premises.specs.Claims.{claims_at, AreClaimsIn};
ghost use Rattle.lk_premises.specs.Testing.{Tests};
ghost use Rattle.lk_replay_iota.specs.Fields.{argument_is, field_with, field_at, field_form};

use crate::texts::text_as_constructor;
use lk_ask::looks::Looks;
use lk_constructor::{AppliedConstructor, head_constructor};
use lk_premises::{Claim, comes_to, reduced, same_name};
use lk_spine::args;
use lk_store::memory::NoMemory;
use lk_store::node::Node;

/// The argument that is the field of this number, behind so many parameters. Counts have 64 bits, and no tree has an
/// argument whose number is above that.
fn argument_at<L: Looks>(
    looks: &L,
    e: u64,
    parameters: u64,
    field: u64,
) -> Result<Option<u64>, NoMemory>
    requires { e < length (L.contents looks.now).trees }
    ensures known { IfOk result (λ x. IfSome x (λ a. a < length (L.contents looks.now).trees)) }
    ensures is { IfOk result (λ x. option_map (tree_at (L.contents looks.now)) x
        ≡ slice_get (args_of (tree_at (L.contents looks.now) e)) (parameters + field)) }
{
    let arguments = args(looks.alloc(), looks, e)?;
    match parameters.checked_add(field) {
        Some(place) => Ok(arguments.get(place as usize).copied()),
        None => Ok(None),
    }
}

/// Whether a tree is that argument, and no premise is left.
fn is_argument<L: Looks>(
    looks: &L,
    left: &[u32],
    e: u64,
    parameters: u64,
    field: u64,
    b: u64,
) -> Result<bool, NoMemory>
    requires e_in { e < length (L.contents looks.now).trees }
    requires b_in { b < length (L.contents looks.now).trees }
    ensures { let t = tree_at (L.contents looks.now) in
        IfOk result (λ r. r ≡ passes (argument_is left.now (t e) (parameters + field) (t b))) }
{
    match argument_at(looks, e, parameters, field)? {
        Some(argument) => Ok(comes_to(looks, b, argument, left)),
        None => Ok(false),
    }
}

/// The same, where the constructor is to be of the structure that is projected from.
fn is_field<L: Looks>(
    looks: &L,
    left: &[u32],
    structure: u64,
    field: u64,
    e: u64,
    found: AppliedConstructor,
    b: u64,
) -> Result<bool, NoMemory>
    requires structure_in { structure < length (L.contents looks.now).names }
    requires found_in { IsKnownConstructor (L.contents looks.now) found }
    requires e_in { e < length (L.contents looks.now).trees }
    requires b_in { b < length (L.contents looks.now).trees }
    ensures { let c = L.contents looks.now in
        IfOk result (λ r. r ≡ passes (field_with left.now (name_at c found.inductive)
        (name_at c structure) (found.parameters + field) (tree_at c e) (tree_at c b))) }
{
    if !same_name(looks, found.inductive, structure) {
        return Ok(false);
    }
    is_argument(looks, left, e, found.parameters, field, b)
}

/// The same of the constructor at the head of a tree.
fn with_constructor<L: Looks>(
    looks: &L,
    left: &[u32],
    structure: u64,
    field: u64,
    e: u64,
    b: u64,
) -> Result<bool, NoMemory>
    requires structure_in { structure < length (L.contents looks.now).names }
    requires e_in { e < length (L.contents looks.now).trees }
    requires b_in { b < length (L.contents looks.now).trees }
    ensures { let c = L.contents looks.now in
        IfOk result (λ r. r ≡ passes (field_at (L.sight (L.rest looks.now)).basis.place left.now
        (name_at c structure) field (tree_at c e) (tree_at c b))) }
{
    match head_constructor(looks, e) {
        Some(found) => is_field(looks, left, structure, field, e, found, b),
        None => Ok(false),
    }
}

/// The same of the subject's weak head form, which is a constructor or reads as one.
fn with_form<L: Looks>(
    looks: &mut L,
    left: &[u32],
    structure: u64,
    field: u64,
    form: u64,
    b: u64,
) -> Result<bool, NoMemory>
    requires structure_in { structure < length (L.contents looks.old).names }
    requires form_in { form < length (L.contents looks.old).trees }
    requires b_in { b < length (L.contents looks.old).trees }
    ensures { let c = L.contents looks.old in
        Tests L.contents (λ s. (L.sight (L.rest s)).basis) looks.old looks.new result
        (field_form (L.sight (L.rest looks.old)).basis.place left.now (name_at c structure) field
        (tree_at c form) (tree_at c b)) }
{
    match text_as_constructor(looks, form)? {
        Some(e) => with_constructor(looks, left, structure, field, e, b),
        None => Ok(false),
    }
}

/// A line of this projection.
#[tactic(auto, using(crate::proofs::FieldForms::field_read))]
fn projected<L: Looks>(
    looks: &mut L,
    claims: &[Claim],
    left: &[u32],
    structure: u64,
    field: u64,
    subject: u64,
    b: u64,
) -> Result<bool, NoMemory>
    requires claims_in { AreClaimsIn (L.contents looks.old) claims.now }
    requires structure_in { structure < length (L.contents looks.old).names }
    requires subject_in { subject < length (L.contents looks.old).trees }
    requires b_in { b < length (L.contents looks.old).trees }
    ensures { let c = L.contents looks.old in
        Tests L.contents (λ s. (L.sight (L.rest s)).basis) looks.old looks.new result
        (red_field (L.sight (L.rest looks.old)).basis.place (claims_at c claims.now) left.now
        (proj (name_at c structure) field (tree_at c subject)) (tree_at c b)) }
{
    let form = reduced(looks, claims, left, subject);
    with_form(looks, form.after, structure, field, form.tree, b)
}

/// A line of a projection of a constructor.
pub fn test_field<L: Looks>(
    looks: &mut L,
    claims: &[Claim],
    left: &[u32],
    a: u64,
    b: u64,
) -> Result<bool, NoMemory>
    requires claims_in { AreClaimsIn (L.contents looks.old) claims.now }
    requires a_in { a < length (L.contents looks.old).trees }
    requires b_in { b < length (L.contents looks.old).trees }
    ensures { let c = L.contents looks.old in
        Tests L.contents (λ s. (L.sight (L.rest s)).basis) looks.old looks.new result
        (red_field (L.sight (L.rest looks.old)).basis.place (claims_at c claims.now) left.now
        (tree_at c a) (tree_at c b)) }
{
    match looks.view(a) {
        Node::Proj(structure, field, subject) => {
            projected(looks, claims, left, structure, field, subject, b)
        }
        _ => Ok(false),
    }
}
