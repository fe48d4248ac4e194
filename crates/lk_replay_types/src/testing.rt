//! A line of typing by its rule.

ghost use Rattle.std.specs.Prelude.{◌<◌, length};
ghost use Rattle.lk_written.specs.Typing.{type_test};
ghost use Rattle.lk_store.specs.Contents.{tree_at};
ghost use Rattle.lk_trace.specs.Meaning.{typing_rule_of, IsTypingRuleIn};
ghost use Rattle.lk_premises.specs.Claims.{claims_at, AreClaimsIn};
ghost use Rattle.lk_premises.specs.Testing.{Tests};

use crate::application::test_application;
use crate::atoms::{test_local, test_sort};
use crate::constants::test_constant;
use crate::lambdas::test_lambda;
use crate::lets::test_let;
use crate::literals::{test_number, test_text};
use crate::pis::test_pi;
use crate::projections::test_projection;
use lk_ask::looks::Looks;
use lk_premises::Claim;
use lk_store::memory::NoMemory;
use lk_trace::TypingRule;

/// Whether a line of typing is an instance of its rule, where earlier lines state these claims.
pub fn test_typing<L: Looks>(
    looks: &mut L,
    claims: &[Claim],
    rule: TypingRule,
    e: u64,
    ty: u64,
    left: &[u32],
) -> Result<bool, NoMemory>
    requires claims_in { AreClaimsIn (L.contents looks.old) claims.now }
    requires rule_in { IsTypingRuleIn (L.contents looks.old) rule }
    requires e_in { e < length (L.contents looks.old).trees }
    requires ty_in { ty < length (L.contents looks.old).trees }
    ensures { let c = L.contents looks.old in
        Tests L.contents (λ s. (L.sight (L.rest s)).basis) looks.old looks.new result
        (type_test (L.sight (L.rest looks.old)).basis.place (claims_at c claims.now)
        (typing_rule_of c rule) (tree_at c e) (tree_at c ty) left.now) }
{
    let alloc = looks.alloc();
    match rule {
        TypingRule::Sort => test_sort(looks, left, e, ty),
        TypingRule::Local => Ok(test_local(looks, left, e, ty)),
        TypingRule::Constant => test_constant(looks, left, e, ty),
        TypingRule::Apply => test_application(alloc, looks, claims, left, e, ty),
        TypingRule::Let => test_let(alloc, looks, claims, left, e, ty),
        TypingRule::NatLiteral => test_number(looks, left, e, ty),
        TypingRule::TextLiteral => test_text(looks, left, e, ty),
        TypingRule::Project => test_projection(looks, claims, left, e, ty),
        TypingRule::Lambda { local } => test_lambda(alloc, looks, claims, left, local, e, ty),
        TypingRule::Pi { local } => test_pi(alloc, looks, claims, left, local, e, ty),
    }
}
