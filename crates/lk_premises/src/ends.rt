//! Tests with which a line ends: no premise is left after them.

ghost use Rattle.std.specs.Prelude.{◌≡◌, ◌<◌, length};
ghost use Rattle.lk_questions.specs.Tests.{passes};
ghost use Rattle.lk_written.specs.Typing as typing;
ghost use Rattle.lk_store.specs.Contents.{tree_at};
ghost use Rattle.lk_premises.specs.Claims.{claims_at, AreClaimsIn};
ghost use Rattle.lk_premises.specs.Reading.{ends_equal};

use crate::claims::Claim;
use crate::premises::{ended, equal, same_tree};
use lk_store::terms::Terms;

/// Whether a tree is this one, and no premise is left.
pub fn comes_to<T: Terms>(terms: &T, ty: u64, e: u64, left: &[u32]) -> bool
    requires ty_in { ty < length (T.contents terms.now).trees }
    requires e_in { e < length (T.contents terms.now).trees }
    ensures { result ≡ passes (typing.comes_to (tree_at (T.contents terms.now) ty)
        (tree_at (T.contents terms.now) e) left.now) }
{
    ended(left) && same_tree(terms, ty, e)
}

/// Whether two trees are equal, and no premise is left after that.
#[tactic(auto, unfolding(crate::specs::Reading::ends_equal))]
pub fn are_equal<T: Terms>(terms: &T, claims: &[Claim], left: &[u32], a: u64, b: u64) -> bool
    requires claims_in { AreClaimsIn (T.contents terms.now) claims.now }
    requires a_in { a < length (T.contents terms.now).trees }
    requires b_in { b < length (T.contents terms.now).trees }
    ensures { let c = T.contents terms.now in
        result ≡ passes (ends_equal (claims_at c claims.now) left.now (tree_at c a)
        (tree_at c b)) }
{
    match equal(terms, claims, left, a, b) {
        Some(rest) => ended(rest),
        None => false,
    }
}
