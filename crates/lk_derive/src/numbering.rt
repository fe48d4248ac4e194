//! The numbers of the lines that state claims.

ghost use Rattle.std.specs.Prelude.{◌≡◌, ◌<◌, ◌^◌, ◌++◌, ◌↔◌, Some, map, length, slice_get, All, Contains, IfOk, OnOk, IsTrue, true};
ghost use Rattle.std.specs.Option.{option_to_list};
ghost use Rattle.lk_store.specs.Contents.{Contents};
ghost use Rattle.lk_trace.specs.Meaning.{IsLineIn};
ghost use Rattle.lk_premises.specs.Claims.{claim_at, claims_at, IsClaimIn, AreClaimsIn};
ghost use Rattle.lk_step.specs.Steps.{is_of_one, AreNamed};
ghost use Rattle.lk_step.specs.Rows.{IsThere};
ghost use Rattle.lk_derive.specs.Notes.{claim_of, stated_at, IsIndexed, IsNumberOf};

use crate::notes::{Notes, claim_with};
use lk_premises::{Claim, Relation, same_tree};
use lk_store::memory::NoMemory;
use lk_store::terms::Terms;
use lk_trace::Line;
use std::alloc::Global;

/// Whether a claim says of one tree that it reduces to itself, or equals itself: no line states that.
fn is_of_one<T: Terms>(terms: &T, claim: Claim) -> bool
    requires { IsClaimIn (T.contents terms.now) claim }
    ensures { result ≡ is_of_one (claim_at (T.contents terms.now) claim) }
{
    match claim.relation {
        Relation::Typing => false,
        Relation::Reduction => same_tree(terms, claim.left, claim.right),
        Relation::Equality => same_tree(terms, claim.left, claim.right),
    }
}

/// Whether two claims state the same of the same trees.
fn are_same<T: Terms>(terms: &T, a: Claim, b: Claim) -> bool
    requires a_in { IsClaimIn (T.contents terms.now) a }
    requires b_in { IsClaimIn (T.contents terms.now) b }
    ensures { IsTrue result
        ↔ (claim_at (T.contents terms.now) a ≡ claim_at (T.contents terms.now) b) }
{
    a.relation == b.relation && terms.same(a.left, b.left) && terms.same(a.right, b.right)
}

/// The place of a line that states a claim, found by comparing trees.
fn search<T: Terms>(terms: &T, lines: &[Line], claim: Claim) -> u32
    requires lines_in { All (IsLineIn (T.contents terms.now)) lines.now }
    requires few { length lines.now < 2 ^ 32 }
    requires claim_in { IsClaimIn (T.contents terms.now) claim }
    requires there { let c = T.contents terms.now in
        Contains (claims_at c (map claim_of lines.now)) (claim_at c claim) }
    ensures { let c = T.contents terms.now in
        slice_get (claims_at c (map claim_of lines.now)) result ≡ Some (claim_at c claim) }
{
    let mut place: u32 = 0;
    let mut rest = lines;
    'lines: while let Some((line, more)) = rest.split_first() {
        let stated = claim_with(line.rule, line.left, line.right);
        if are_same(terms, stated, claim) {
            return place;
        }
        place += 1;
        rest = more;
    }
    unreachable!()
}

/// Whether a claim is of one tree, or a line states it by these numbers.
pub(crate) fn is_there<T: Terms>(terms: &T, notes: &Notes, claim: Claim) -> bool
    requires claim_in { IsClaimIn (T.contents terms.now) claim }
    requires notes { IsIndexed (T.contents terms.now) notes.now }
    ensures { let c = T.contents terms.now in
        result ≡ true → IsThere (stated_at c notes.now) (claim_at c claim) }
{
    is_of_one(terms, claim) || notes.place_of(claim).is_some()
}

/// The number of the line that states a claim; one of one tree has none. It is looked up by the numbers of the claim, and
/// only where its trees have other numbers there, lines are compared.
fn number_of<T: Terms>(terms: &T, notes: &Notes, claim: Claim) -> Option<u32>
    requires claim_in { IsClaimIn (T.contents terms.now) claim }
    requires notes { IsIndexed (T.contents terms.now) notes.now }
    requires there { let c = T.contents terms.now in
        IsThere (stated_at c notes.now) (claim_at c claim) }
    ensures { let c = T.contents terms.now in
        IsNumberOf (stated_at c notes.now) (claim_at c claim) result }
{
    if is_of_one(terms, claim) {
        return None;
    }
    match notes.place_of(claim) {
        Some(place) => Some(place),
        None => Some(search(terms, &notes.lines, claim)),
    }
}

/// Adds the number, where there is one.
fn push_any(numbers: &mut Vec<u32>, number: Option<u32>) -> Result<(), NoMemory>
    ensures { OnOk result (numbers.new.items ≡ numbers.old.items ++ option_to_list number) }
{
    if let Some(number) = number {
        numbers.push(number)?;
    }
    Ok(())
}

/// The numbers of the lines that state these claims, in their order; those of one tree have none.
pub(crate) fn numbers_of<T: Terms>(
    alloc: Global,
    terms: &T,
    notes: &Notes,
    claims: &[Claim],
) -> Result<Vec<u32>, NoMemory>
    requires claims_in { AreClaimsIn (T.contents terms.now) claims.now }
    requires notes { IsIndexed (T.contents terms.now) notes.now }
    requires there { let c = T.contents terms.now in
        All (IsThere (stated_at c notes.now)) (claims_at c claims.now) }
    ensures { let c = T.contents terms.now in
        IfOk result (λ v. AreNamed (stated_at c notes.now) (claims_at c claims.now) v.items) }
{
    let mut numbers = Vec::new(alloc);
    let mut rest = claims;
    'claims: while let Some((claim, more)) = rest.split_first() {
        let number = number_of(terms, notes, *claim);
        push_any(&mut numbers, number)?;
        rest = more;
    }
    Ok(numbers)
}
