//! Types with one value.

ghost use Rattle.std.specs.Prelude.{◌≡◌, ◌<◌, Some, length, IfOk};
ghost use Rattle.lk_rulebook.specs.Place.{Entry as PlainEntry};
ghost use Rattle.lk_questions.specs.Tests.{passes};
ghost use Rattle.lk_written.specs.Equal.{eq_unit};
ghost use Rattle.lk_store.specs.Contents.{tree_at};
ghost use Rattle.lk_ask.specs.Looks.{entry_at};
ghost use Rattle.lk_premises.specs.Claims.{claims_at, AreClaimsIn};
ghost use Rattle.lk_replay_equal.specs.Units.{typed_alike, unit_by, unit_form, units_read};

use crate::neutral::is_head_normal;
use lk_ask::looks::Looks;
use lk_env::entry::Entry;
use lk_eta::unit::is_unit_like;
use lk_premises::{Claim, are_equal, head_meaning, reduced, typed};
use lk_store::memory::NoMemory;
use lk_store::terms::Terms;

/// Whether a tree is of a type that equals this one, and no premise is left after that.
#[tactic(auto, unfolding(crate::specs::Units::typed_alike))]
fn is_of_equal_type<T: Terms>(terms: &T, claims: &[Claim], left: &[u32], ty: u64, b: u64) -> bool
    requires claims_in { AreClaimsIn (T.contents terms.now) claims.now }
    requires ty_in { ty < length (T.contents terms.now).trees }
    requires b_in { b < length (T.contents terms.now).trees }
    ensures { let c = T.contents terms.now in
        result ≡ passes (typed_alike (claims_at c claims.now) left.now (tree_at c ty)
        (tree_at c b)) }
{
    match typed(terms, claims, left, b) {
        Some(other) => are_equal(terms, claims, other.after, ty, other.tree),
        None => false,
    }
}

/// The same, where the weak head form of the type has this entry for its head, which is to have one value.
#[tactic(auto, unfolding(crate::specs::Units::typed_alike))]
fn with_entry<L: Looks>(
    looks: &L,
    claims: &[Claim],
    left: &[u32],
    ty: u64,
    form: u64,
    entry: Entry,
    b: u64,
) -> Result<bool, NoMemory>
    requires claims_in { AreClaimsIn (L.contents looks.now) claims.now }
    requires ty_in { ty < length (L.contents looks.now).trees }
    requires form_in { form < length (L.contents looks.now).trees }
    requires b_in { b < length (L.contents looks.now).trees }
    ensures { let c = L.contents looks.now in (g : PlainEntry)
        → entry_at (L.sight (L.rest looks.now)).basis entry ≡ Some g
        → IfOk result (λ r. r ≡ passes (unit_by (claims_at c claims.now) left.now (tree_at c ty)
        (tree_at c form) g.kind (tree_at c b))) }
{
    if !is_unit_like(looks, entry, form)? {
        return Ok(false);
    }
    Ok(is_of_equal_type(looks, claims, left, ty, b))
}

/// The same, where the type has this weak head form.
fn with_form<L: Looks>(
    looks: &L,
    claims: &[Claim],
    left: &[u32],
    ty: u64,
    form: u64,
    b: u64,
) -> Result<bool, NoMemory>
    requires claims_in { AreClaimsIn (L.contents looks.now) claims.now }
    requires ty_in { ty < length (L.contents looks.now).trees }
    requires form_in { form < length (L.contents looks.now).trees }
    requires b_in { b < length (L.contents looks.now).trees }
    ensures { let c = L.contents looks.now in
        IfOk result (λ r. r ≡ passes (unit_form (L.sight (L.rest looks.now)).basis.place
        (claims_at c claims.now) left.now (tree_at c ty) (tree_at c form) (tree_at c b))) }
{
    match head_meaning(looks, form) {
        Some(front) => with_entry(looks, claims, left, ty, form, front.entry, b),
        None => Ok(false),
    }
}

/// The same of two trees whose heads take no step.
fn are_units<L: Looks>(
    looks: &L,
    claims: &[Claim],
    left: &[u32],
    a: u64,
    b: u64,
) -> Result<bool, NoMemory>
    requires claims_in { AreClaimsIn (L.contents looks.now) claims.now }
    requires a_in { a < length (L.contents looks.now).trees }
    requires b_in { b < length (L.contents looks.now).trees }
    ensures { let c = L.contents looks.now in
        IfOk result (λ r. r ≡ passes (units_read (L.sight (L.rest looks.now)).basis.place
        (claims_at c claims.now) left.now (tree_at c a) (tree_at c b))) }
{
    match typed(looks, claims, left, a) {
        Some(own) => {
            let form = reduced(looks, claims, own.after, own.tree);
            with_form(looks, claims, form.after, own.tree, form.tree, b)
        }
        None => Ok(false),
    }
}

/// A line of two trees of a type with one value.
#[tactic(auto, using(crate::proofs::UnitLike::unit_read))]
pub fn test_units<L: Looks>(
    looks: &L,
    claims: &[Claim],
    left: &[u32],
    a: u64,
    b: u64,
) -> Result<bool, NoMemory>
    requires claims_in { AreClaimsIn (L.contents looks.now) claims.now }
    requires a_in { a < length (L.contents looks.now).trees }
    requires b_in { b < length (L.contents looks.now).trees }
    ensures { let c = L.contents looks.now in
        IfOk result (λ r. r ≡ passes (eq_unit (L.sight (L.rest looks.now)).basis.place
        (claims_at c claims.now) left.now (tree_at c a) (tree_at c b))) }
{
    if !is_head_normal(looks, a) || !is_head_normal(looks, b) {
        return Ok(false);
    }
    are_units(looks, claims, left, a, b)
}
