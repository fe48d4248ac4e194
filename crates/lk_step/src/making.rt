//! Rows of one step.

ghost use Rattle.std.specs.Prelude.{◌≡◌, ◌<◌, [], ◌∷◌, length, map, IfOk};
ghost use Rattle.std.specs.List.{AllByRecursion};
ghost use Rattle.lk_store.specs.Contents.{tree_at};
ghost use Rattle.lk_ask.specs.Questions.{query_of, IsKnownQuery};
ghost use Rattle.lk_premises.specs.Claims.{claims_at, IsClaimIn};
ghost use Rattle.lk_trace.specs.Meaning.{conversion_rule_of, IsConversionRuleIn};
ghost use Rattle.lk_step.specs.Steps.{equality as equality_step};
ghost use Rattle.lk_step.specs.Meaning.{IsRowIn};
ghost use Rattle.lk_step.specs.Makes.{typing_claim, reduction_claim, equality_claim, IsMade};

use crate::{Row, Step};
use lk_ask::looks::Looks;
use lk_ask::query::Query;
use lk_premises::{Claim, Relation};
use lk_store::memory::NoMemory;
use lk_trace::{ConversionRule, Rule};

/// `left => right`.
pub fn typing(left: u64, right: u64) -> Claim
    ensures { result ≡ typing_claim left right }
{
    Claim {
        relation: Relation::Typing,
        left,
        right,
    }
}

/// `left >> right`.
pub fn reduction(left: u64, right: u64) -> Claim
    ensures { result ≡ reduction_claim left right }
{
    Claim {
        relation: Relation::Reduction,
        left,
        right,
    }
}

/// `left == right`.
pub fn equality(left: u64, right: u64) -> Claim
    ensures { result ≡ equality_claim left right }
{
    Claim {
        relation: Relation::Equality,
        left,
        right,
    }
}

/// A row that asks these questions and has one step, by a rule of conversion, which rests on these claims.
pub fn converted<L: Looks>(
    looks: &L,
    rule: ConversionRule,
    left: u64,
    right: u64,
    asks: Vec<Query<u64>>,
    premises: Vec<Claim>,
) -> Result<Row, NoMemory>
    requires rule_in { IsConversionRuleIn (L.contents looks.now) rule }
    requires left_in { left < length (L.contents looks.now).trees }
    requires right_in { right < length (L.contents looks.now).trees }
    requires asks_in { AllByRecursion (IsKnownQuery (length (L.contents looks.now).trees))
        asks.items }
    requires premises_in { AllByRecursion (IsClaimIn (L.contents looks.now)) premises.items }
    ensures known { IfOk result (IsRowIn (L.contents looks.now)) }
    ensures row { let c = L.contents looks.now in IfOk result (IsMade c
        (map (query_of (tree_at c)) asks.items)
        (equality_step (conversion_rule_of c rule) (tree_at c left) (tree_at c right)
        (claims_at c premises.items) ∷ [])) }
{
    let mut steps = Vec::new(looks.alloc());
    steps.push(Step {
        rule: Rule::Conversion(rule),
        left,
        right,
        premises,
    })?;
    Ok(Row { asks, steps })
}
