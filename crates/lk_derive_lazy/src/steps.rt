//! Questions and steps that are added to a row under way.

ghost use Rattle.std.specs.Prelude.{◌≡◌, ◌<◌, ◌++◌, ◌∷◌, [], ℕ, List, true, length, OnOk};
ghost use Rattle.lk_tree.specs.Tree.{Tree};
ghost use Rattle.lk_rulebook.specs.Place.{Place};
ghost use Rattle.lk_rulebook.specs.Claims.{Claim as PlainClaim, reduces, equals};
ghost use Rattle.lk_questions.specs.Query.{same};
ghost use Rattle.lk_questions.specs.Sound.{IsAskable};
ghost use Rattle.lk_store.specs.Contents.{tree_at};
ghost use Rattle.lk_trace.specs.Meaning.{conversion_rule_of, IsConversionRuleIn};
ghost use Rattle.lk_premises.specs.Claims.{claims_at, AreClaimsIn};
ghost use Rattle.lk_step.specs.Steps.{equality as plain_step, StepHolds};
ghost use Rattle.lk_step.specs.Rows.{IsAnswered};
ghost use Rattle.lk_step.specs.Parts.{Asks, States};
ghost use Rattle.lk_derive_lazy.specs.Turns.{IsTurned};

use lk_ask::query::Query;
use lk_premises::{Claim, same_tree};
use lk_step::under_way::{add_step, no_premise};
use lk_step::{Row, Step};
use lk_store::memory::NoMemory;
use lk_store::terms::Terms;
use lk_trace::{ConversionRule, ReductionRule, Rule};
use std::alloc::Global;

/// Adds a question.
fn push_question(row: &mut Row, query: Query<u64>) -> Result<(), NoMemory>
    ensures asks { OnOk result (row.new.asks.items ≡ row.old.asks.items ++ query ∷ []) }
    ensures steps { OnOk result (row.new.steps ≡ row.old.steps) }
{
    row.asks.push(query)?;
    Ok(())
}

/// Adds a step.
fn push_step(row: &mut Row, step: Step) -> Result<(), NoMemory>
    ensures asks { OnOk result (row.new.asks ≡ row.old.asks) }
    ensures steps { OnOk result (row.new.steps.items ≡ row.old.steps.items ++ step ∷ []) }
{
    row.steps.push(step)?;
    Ok(())
}

/// Asks whether two terms are the same, which they are.
pub(crate) fn ask_same<T: Terms>(terms: &T, row: &mut Row, x: u64, y: u64) -> Result<(), NoMemory>
    requires x_in { x < length (T.contents terms.now).trees }
    requires y_in { y < length (T.contents terms.now).trees }
    ensures { let c = T.contents terms.now in let t = tree_at c in OnOk result ((w : Place)
        (n : ℕ) → IsAskable (same (t x) (t y)) → IsAnswered w (same (t x) (t y)) true n
        → Asks w c c row.old row.new (equals (t x) (t y)) n) }
{
    push_question(row, Query::Same(x, y))?;
    Ok(())
}

/// Adds a step of a conversion, which holds, and whose premises are there.
pub(crate) fn add_equality<T: Terms>(
    terms: &T,
    row: &mut Row,
    rule: ConversionRule,
    left: u64,
    right: u64,
    premises: Vec<Claim>,
) -> Result<(), NoMemory>
    requires rule_in { IsConversionRuleIn (T.contents terms.now) rule }
    requires left_in { left < length (T.contents terms.now).trees }
    requires right_in { right < length (T.contents terms.now).trees }
    requires premises_in { AreClaimsIn (T.contents terms.now) premises.items }
    ensures { let c = T.contents terms.now in OnOk result ((w : Place) (a b : Tree)
        (cs : List PlainClaim) → tree_at c left ≡ a → tree_at c right ≡ b
        → claims_at c premises.items ≡ cs
        → StepHolds w (plain_step (conversion_rule_of c rule) a b cs)
        → States w c row.old row.new cs (equals a b)) }
{
    push_step(
        row,
        Step {
            rule: Rule::Conversion(rule),
            left,
            right,
            premises,
        },
    )?;
    Ok(())
}

/// Says that a term reduces to what it unfolds to, where that is another term.
pub(crate) fn add_unfolding<T: Terms>(
    alloc: Global,
    terms: &T,
    row: &mut Row,
    e: u64,
    next: u64,
) -> Result<(), NoMemory>
    requires e_in { e < length (T.contents terms.now).trees }
    requires next_in { next < length (T.contents terms.now).trees }
    ensures { let c = T.contents terms.now in let t = tree_at c in OnOk result ((w : Place)
        → IsTurned w (t e) (t next) → States w c row.old row.new [] (reduces (t e) (t next))) }
{
    if same_tree(terms, e, next) {
        return Ok(());
    }
    add_step(terms, row, ReductionRule::Delta, e, next, no_premise(alloc))?;
    Ok(())
}
