//! A line of conversion by its rule.

ghost use Rattle.std.specs.Prelude.{◌<◌, length};
ghost use Rattle.lk_written.specs.Equal.{eq_test};
ghost use Rattle.lk_store.specs.Contents.{tree_at};
ghost use Rattle.lk_trace.specs.Meaning.{conversion_rule_of, IsConversionRuleIn};
ghost use Rattle.lk_premises.specs.Claims.{claims_at, AreClaimsIn};
ghost use Rattle.lk_premises.specs.Testing.{Tests};

use crate::atoms::{test_constants, test_projections, test_proofs, test_reductions, test_sorts};
use crate::binders::{test_lambdas, test_pis};
use crate::eta::test_eta;
use crate::numbers::{test_successor, test_zero};
use crate::spines::test_applications;
use crate::structures::test_structure;
use crate::texts::{test_text_left, test_text_right};
use crate::units::test_units;
use lk_ask::looks::Looks;
use lk_premises::Claim;
use lk_store::memory::NoMemory;
use lk_trace::ConversionRule;

/// Whether a line of conversion is an instance of its rule, where earlier lines state these claims.
pub fn test_conversion<L: Looks>(
    looks: &mut L,
    claims: &[Claim],
    rule: ConversionRule,
    a: u64,
    b: u64,
    left: &[u32],
) -> Result<bool, NoMemory>
    requires claims_in { AreClaimsIn (L.contents looks.old) claims.now }
    requires rule_in { IsConversionRuleIn (L.contents looks.old) rule }
    requires a_in { a < length (L.contents looks.old).trees }
    requires b_in { b < length (L.contents looks.old).trees }
    ensures { let c = L.contents looks.old in
        Tests L.contents (λ s. (L.sight (L.rest s)).basis) looks.old looks.new result
        (eq_test (L.sight (L.rest looks.old)).basis.place (claims_at c claims.now)
        (conversion_rule_of c rule) (tree_at c a) (tree_at c b) left.now) }
{
    let alloc = looks.alloc();
    match rule {
        ConversionRule::Reduce => Ok(test_reductions(looks, claims, left, a, b)),
        ConversionRule::Sorts => test_sorts(alloc, looks, left, a, b),
        ConversionRule::Constants => test_constants(alloc, looks, left, a, b),
        ConversionRule::Apply => test_applications(alloc, looks, claims, left, a, b),
        ConversionRule::Project => Ok(test_projections(looks, claims, left, a, b)),
        ConversionRule::Lambda { local } => test_lambdas(alloc, looks, claims, left, local, a, b),
        ConversionRule::Pi { local } => test_pis(alloc, looks, claims, left, local, a, b),
        ConversionRule::Eta => test_eta(looks, claims, left, a, b),
        ConversionRule::StructureLeft => test_structure(looks, claims, left, a, b),
        ConversionRule::StructureRight => test_structure(looks, claims, left, b, a),
        ConversionRule::UnitLike => test_units(looks, claims, left, a, b),
        ConversionRule::Proof => Ok(test_proofs(looks, claims, left, a, b)),
        ConversionRule::Zero => test_zero(alloc, looks, left, a, b),
        ConversionRule::Successor => test_successor(alloc, looks, claims, left, a, b),
        ConversionRule::TextLeft => test_text_left(looks, claims, left, a, b),
        ConversionRule::TextRight => test_text_right(looks, claims, left, a, b),
    }
}
