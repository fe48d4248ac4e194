//! Premises by which a tree is a type, a proposition or a function type.

ghost use Rattle.std.specs.Prelude.{◌≡◌, ◌<◌, length, option_map, IfSome};
ghost use Rattle.lk_written.specs.Premises as premises;
ghost use Rattle.lk_store.specs.Contents.{tree_at};
ghost use Rattle.lk_premises.specs.Claims.{claims_at, AreClaimsIn};
ghost use Rattle.lk_premises.specs.Sorts.{sort_read_at, pi_read_at};

use crate::claims::Claim;
use crate::premises::{reduced, typed};
use lk_store::node::Node;
use lk_store::terms::Terms;

/// The level of a sort that was read, and the premises after it.
#[derive(Clone, Copy)]
pub struct SortRead<'a> {
    pub level: u64,
    pub after: &'a [u32],
}

/// The parts of a function type that was read, and the premises after it.
#[derive(Clone, Copy)]
pub struct PiRead<'a> {
    pub domain: u64,
    pub body: u64,
    pub after: &'a [u32],
}

/// The level of the sort that a tree reduces to.
fn to_sort<'a, T: Terms>(
    terms: &T,
    claims: &[Claim],
    left: &'a [u32],
    e: u64,
) -> Option<SortRead<'a>>
    requires claims_in { AreClaimsIn (T.contents terms.now) claims.now }
    requires e_in { e < length (T.contents terms.now).trees }
    ensures read { let c = T.contents terms.now in
        premises.to_sort (claims_at c claims.now) left.now (tree_at c e)
        ≡ option_map (sort_read_at c) result }
    ensures known { IfSome result (λ r. r.level < length (T.contents terms.now).levels) }
{
    let form = reduced(terms, claims, left, e);
    match terms.view(form.tree) {
        Node::Sort(level) => Some(SortRead {
            level,
            after: form.after,
        }),
        _ => None,
    }
}

/// The function type that a tree reduces to.
pub fn to_pi<'a, T: Terms>(
    terms: &T,
    claims: &[Claim],
    left: &'a [u32],
    e: u64,
) -> Option<PiRead<'a>>
    requires claims_in { AreClaimsIn (T.contents terms.now) claims.now }
    requires e_in { e < length (T.contents terms.now).trees }
    ensures read { let c = T.contents terms.now in
        premises.to_pi (claims_at c claims.now) left.now (tree_at c e)
        ≡ option_map (pi_read_at c) result }
    ensures known { IfSome result (λ r. (r.domain < length (T.contents terms.now).trees)
        × (r.body < length (T.contents terms.now).trees)) }
{
    let form = reduced(terms, claims, left, e);
    match terms.view(form.tree) {
        Node::Pi(domain, body) => Some(PiRead {
            domain,
            body,
            after: form.after,
        }),
        _ => None,
    }
}

/// The level of the sort of a tree.
pub fn sorted<'a, T: Terms>(
    terms: &T,
    claims: &[Claim],
    left: &'a [u32],
    e: u64,
) -> Option<SortRead<'a>>
    requires claims_in { AreClaimsIn (T.contents terms.now) claims.now }
    requires e_in { e < length (T.contents terms.now).trees }
    ensures read { let c = T.contents terms.now in
        premises.sorted (claims_at c claims.now) left.now (tree_at c e)
        ≡ option_map (sort_read_at c) result }
    ensures known { IfSome result (λ r. r.level < length (T.contents terms.now).levels) }
{
    let ty = typed(terms, claims, left, e)?;
    to_sort(terms, claims, ty.after, ty.tree)
}

/// The premises after those that a tree is a proposition by.
pub fn proposition<'a, T: Terms>(
    terms: &T,
    claims: &[Claim],
    left: &'a [u32],
    e: u64,
) -> Option<&'a [u32]>
    requires claims_in { AreClaimsIn (T.contents terms.now) claims.now }
    requires e_in { e < length (T.contents terms.now).trees }
    ensures { let c = T.contents terms.now in
        premises.is_prop_by (claims_at c claims.now) left.now (tree_at c e)
        ≡ option_map (λ r. r.now) result }
{
    let sort = sorted(terms, claims, left, e)?;
    if terms.level_is_zero(sort.level) {
        Some(sort.after)
    } else {
        None
    }
}
