//! A line of reduction by its rule.

ghost use Rattle.std.specs.Prelude.{◌<◌, length};
ghost use Rattle.lk_written.specs.Reducing.{red_test};
ghost use Rattle.lk_store.specs.Contents.{tree_at};
ghost use Rattle.lk_trace.specs.Meaning.{reduction_rule_of};
ghost use Rattle.lk_premises.specs.Claims.{claims_at, AreClaimsIn};
ghost use Rattle.lk_premises.specs.Testing.{Tests};

use lk_ask::looks::Looks;
use lk_premises::Claim;
use lk_replay_iota::{test_expansion, test_field, test_iota, test_k, test_major};
use lk_replay_reduce::{
    test_beta, test_chain, test_delta, test_head, test_induction, test_lift, test_operation,
    test_zeta,
};
use lk_store::memory::NoMemory;
use lk_trace::ReductionRule;

/// Whether a line of reduction is an instance of its rule, where earlier lines state these claims.
pub(crate) fn test_reduction<L: Looks>(
    looks: &mut L,
    claims: &[Claim],
    rule: ReductionRule,
    a: u64,
    b: u64,
    left: &[u32],
) -> Result<bool, NoMemory>
    requires claims_in { AreClaimsIn (L.contents looks.old) claims.now }
    requires a_in { a < length (L.contents looks.old).trees }
    requires b_in { b < length (L.contents looks.old).trees }
    ensures { let c = L.contents looks.old in
        Tests L.contents (λ s. (L.sight (L.rest s)).basis) looks.old looks.new result
        (red_test (L.sight (L.rest looks.old)).basis.place (claims_at c claims.now)
        (reduction_rule_of rule) (tree_at c a) (tree_at c b) left.now) }
{
    let alloc = looks.alloc();
    match rule {
        ReductionRule::Chain => Ok(test_chain(looks, claims, left, a, b)),
        ReductionRule::Head => Ok(test_head(looks, claims, left, a, b)),
        ReductionRule::Beta => test_beta(looks, left, a, b),
        ReductionRule::Zeta => test_zeta(alloc, looks, left, a, b),
        ReductionRule::Delta => test_delta(looks, left, a, b),
        ReductionRule::Project => test_field(looks, claims, left, a, b),
        ReductionRule::Major => test_major(looks, claims, left, a, b),
        ReductionRule::K => test_k(looks, claims, left, a, b),
        ReductionRule::Structure => test_expansion(looks, claims, left, a, b),
        ReductionRule::Lift => test_lift(looks, claims, left, a, b),
        ReductionRule::Induction => test_induction(looks, claims, left, a, b),
        ReductionRule::Operation => test_operation(looks, claims, left, a, b),
        ReductionRule::Iota { place } => test_iota(looks, left, place, a, b),
    }
}
