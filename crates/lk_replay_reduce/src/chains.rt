//! Reductions one after another, and of the function of an application.

ghost use Rattle.std.specs.Prelude.{◌≡◌, ◌<◌, length};
ghost use Rattle.lk_questions.specs.Tests.{passes};
ghost use Rattle.lk_written.specs.Reducing.{red_chain, red_head};
ghost use Rattle.lk_store.specs.Contents.{tree_at};
ghost use Rattle.lk_premises.specs.Claims.{claims_at, AreClaimsIn};
ghost use Rattle.lk_premises.specs.Reading.{stated_at};
ghost use Rattle.lk_premises.specs.Applied.{head_after};

use lk_premises::{Claim, Relation, Stated, are_applied, comes_to, ended, next_stated, same_tree};
use lk_store::terms::Terms;

/// A line of one reduction after another.
pub fn test_chain<T: Terms>(terms: &T, claims: &[Claim], left: &[u32], a: u64, b: u64) -> bool
    requires claims_in { AreClaimsIn (T.contents terms.now) claims.now }
    requires a_in { a < length (T.contents terms.now).trees }
    requires b_in { b < length (T.contents terms.now).trees }
    ensures { let c = T.contents terms.now in
        result ≡ passes (red_chain (claims_at c claims.now) left.now (tree_at c a)
        (tree_at c b)) }
{
    let Some(first) = next_stated(Relation::Reduction, claims, left) else {
        return false;
    };
    let Some(second) = next_stated(Relation::Reduction, claims, first.after) else {
        return false;
    };
    if !same_tree(terms, first.left, a) || !same_tree(terms, second.left, first.right) {
        return false;
    }
    comes_to(terms, b, second.right, second.after)
}

/// Whether two trees are those of this premise, applied to the same arguments, and no premise is left.
#[tactic(auto, using(lk_premises::proofs::Comparing::heads_are))]
fn is_after<T: Terms>(terms: &T, step: Stated<'_>, a: u64, b: u64) -> bool
    requires left_in { step.left < length (T.contents terms.now).trees }
    requires right_in { step.right < length (T.contents terms.now).trees }
    requires a_in { a < length (T.contents terms.now).trees }
    requires b_in { b < length (T.contents terms.now).trees }
    ensures { let c = T.contents terms.now in
        result ≡ passes (head_after (stated_at c step.entry) (tree_at c a) (tree_at c b)) }
{
    ended(step.after) && are_applied(terms, step.left, step.right, a, b)
}

/// A line of the reduction of a function that is applied.
pub fn test_head<T: Terms>(terms: &T, claims: &[Claim], left: &[u32], a: u64, b: u64) -> bool
    requires claims_in { AreClaimsIn (T.contents terms.now) claims.now }
    requires a_in { a < length (T.contents terms.now).trees }
    requires b_in { b < length (T.contents terms.now).trees }
    ensures { let c = T.contents terms.now in
        result ≡ passes (red_head (claims_at c claims.now) left.now (tree_at c a)
        (tree_at c b)) }
{
    match next_stated(Relation::Reduction, claims, left) {
        Some(step) => is_after(terms, step, a, b),
        None => false,
    }
}
