//! Steps between two trees.

ghost use Rattle.std.specs.Prelude.{◌≡◌, ◌<◌, List, length, OnOk};
ghost use Rattle.lk_tree.specs.Tree.{Tree};
ghost use Rattle.lk_rulebook.specs.Place.{Place};
ghost use Rattle.lk_rulebook.specs.Claims.{Claim as PlainClaim, reduces};
ghost use Rattle.lk_store.specs.Contents.{tree_at};
ghost use Rattle.lk_trace.specs.Meaning.{reduction_rule_of};
ghost use Rattle.lk_premises.specs.Claims.{claims_at, AreClaimsIn};
ghost use Rattle.lk_step.specs.Steps.{reduction as plain_step, StepHolds};
ghost use Rattle.lk_step.specs.Parts.{States};

use lk_premises::{Claim, same_tree};
use lk_step::Row;
use lk_step::under_way::add_step;
use lk_store::memory::NoMemory;
use lk_store::terms::Terms;
use lk_trace::ReductionRule;

/// Says that a tree reduces to another by a step that holds, and whose premises are there. Nothing has to be said where the
/// two are one tree.
pub(crate) fn state_step<T: Terms>(
    terms: &T,
    row: &mut Row,
    rule: ReductionRule,
    left: u64,
    right: u64,
    premises: Vec<Claim>,
) -> Result<(), NoMemory>
    requires left_in { left < length (T.contents terms.now).trees }
    requires right_in { right < length (T.contents terms.now).trees }
    requires premises_in { AreClaimsIn (T.contents terms.now) premises.items }
    ensures { let c = T.contents terms.now in OnOk result ((w : Place) (a b : Tree)
        (cs : List PlainClaim) → tree_at c left ≡ a → tree_at c right ≡ b
        → claims_at c premises.items ≡ cs → StepHolds w (plain_step (reduction_rule_of rule) a b cs)
        → States w c row.old row.new cs (reduces a b)) }
{
    if same_tree(terms, left, right) {
        return Ok(());
    }
    add_step(terms, row, rule, left, right, premises)
}
