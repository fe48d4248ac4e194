//! Rows under way: what is added to them.

ghost use Rattle.std.specs.Prelude.{◌≡◌, ◌<◌, ◌++◌, ◌∷◌, [], List, length, IfOk, OnOk};
ghost use Rattle.lk_tree.specs.Tree.{Tree};
ghost use Rattle.lk_rulebook.specs.Place.{Place};
ghost use Rattle.lk_rulebook.specs.Claims.{Claim as PlainClaim, reduces};
ghost use Rattle.lk_questions.specs.Query.{core, whnf, infer};
ghost use Rattle.lk_store.specs.Contents.{Contents, tree_at};
ghost use Rattle.lk_trace.specs.Meaning.{reduction_rule_of};
ghost use Rattle.lk_premises.specs.Claims.{claims_at, AreClaimsIn};
ghost use Rattle.lk_step.specs.Steps.{reduction as plain_step, StepHolds};
ghost use Rattle.lk_step.specs.Told.{IsAnsweredWithin, Leaves};
ghost use Rattle.lk_step.specs.Parts.{IsEmpty, are_linked, States, Chains, AsksCore, AsksForm};
ghost use Rattle.lk_step.specs.Parts.{AsksType, AsksSame};
ghost use Rattle.lk_step.specs.Parts.{FollowsCore, FollowsForm, StepGoes};

use crate::derives::{core_of, form_of, type_of};
use crate::{Derives, Row, Step};
use lk_ask::query::Query;
use lk_premises::{Claim, Relation, same_tree};
use lk_store::memory::NoMemory;
use lk_store::terms::Terms;
use lk_trace::{ReductionRule, Rule};
use std::alloc::Global;

/// A row with nothing in it.
pub fn empty_row(alloc: Global) -> Row
    ensures { IsEmpty result }
{
    Row {
        asks: Vec::new(alloc),
        steps: Vec::new(alloc),
    }
}

/// Adds a question.
fn push_question(row: &mut Row, query: Query<u64>) -> Result<(), NoMemory>
    ensures asks { OnOk result (row.new.asks.items ≡ row.old.asks.items ++ query ∷ []) }
    ensures steps { OnOk result (row.new.steps ≡ row.old.steps) }
{
    row.asks.push(query)?;
    Ok(())
}

/// Adds a step.
fn push_step(row: &mut Row, step: Step) -> Result<(), NoMemory>
    ensures asks { OnOk result (row.new.asks ≡ row.old.asks) }
    ensures steps { OnOk result (row.new.steps.items ≡ row.old.steps.items ++ step ∷ []) }
{
    row.steps.push(step)?;
    Ok(())
}

/// Adds a step of a reduction, which holds, and whose premises are there.
pub fn add_step<T: Terms>(
    terms: &T,
    row: &mut Row,
    rule: ReductionRule,
    left: u64,
    right: u64,
    premises: Vec<Claim>,
) -> Result<(), NoMemory>
    requires left_in { left < length (T.contents terms.now).trees }
    requires right_in { right < length (T.contents terms.now).trees }
    requires premises_in { AreClaimsIn (T.contents terms.now) premises.items }
    ensures { let c = T.contents terms.now in OnOk result ((w : Place) (a b : Tree)
        (cs : List PlainClaim) → tree_at c left ≡ a → tree_at c right ≡ b
        → claims_at c premises.items ≡ cs → StepHolds w (plain_step (reduction_rule_of rule) a b cs)
        → States w c row.old row.new cs (reduces a b)) }
{
    push_step(
        row,
        Step {
            rule: Rule::Reduction(rule),
            left,
            right,
            premises,
        },
    )?;
    Ok(())
}

/// No premise.
pub fn no_premise(alloc: Global) -> Vec<Claim>
    ensures { result.items ≡ [] }
{
    Vec::new(alloc)
}

/// The one premise that a tree reduces to another.
pub fn one_reduction(alloc: Global, a: u64, b: u64) -> Result<Vec<Claim>, NoMemory>
    ensures are { IfOk result (λ cs. (c : Contents)
        → claims_at c cs.items ≡ reduces (tree_at c a) (tree_at c b) ∷ []) }
    ensures known { IfOk result (λ cs. (c : Contents) → a < length c.trees → b < length c.trees
        → AreClaimsIn c cs.items) }
{
    let mut premises = Vec::new(alloc);
    premises.push(Claim {
        relation: Relation::Reduction,
        left: a,
        right: b,
    })?;
    Ok(premises)
}

/// The two premises that a tree reduces to another, and that to a third.
fn two_reductions(alloc: Global, a: u64, b: u64, c: u64) -> Result<Vec<Claim>, NoMemory>
    ensures are { IfOk result (λ cs. (d : Contents) → claims_at d cs.items
        ≡ reduces (tree_at d a) (tree_at d b) ∷ reduces (tree_at d b) (tree_at d c) ∷ []) }
    ensures known { IfOk result (λ cs. (d : Contents) → a < length d.trees → b < length d.trees
        → c < length d.trees → AreClaimsIn d cs.items) }
{
    let mut premises = one_reduction(alloc, a, b)?;
    premises.push(Claim {
        relation: Relation::Reduction,
        left: b,
        right: c,
    })?;
    Ok(premises)
}

/// Whether no step is needed for the first reducing to the last, from each reducing to the next.
fn are_linked<T: Terms>(terms: &T, a: u64, b: u64, c: u64) -> bool
    requires a_in { a < length (T.contents terms.now).trees }
    requires b_in { b < length (T.contents terms.now).trees }
    requires c_in { c < length (T.contents terms.now).trees }
    ensures { let t = tree_at (T.contents terms.now) in
        result ≡ are_linked (t a) (t b) (t c) }
{
    if same_tree(terms, a, b) {
        return true;
    }
    if same_tree(terms, b, c) {
        return true;
    }
    same_tree(terms, a, c)
}

/// Says that the first reduces to the last, where it is stated that each reduces to the next.
pub fn chain<T: Terms>(
    alloc: Global,
    terms: &T,
    row: &mut Row,
    a: u64,
    b: u64,
    c: u64,
) -> Result<(), NoMemory>
    requires a_in { a < length (T.contents terms.now).trees }
    requires b_in { b < length (T.contents terms.now).trees }
    requires c_in { c < length (T.contents terms.now).trees }
    ensures { let d = T.contents terms.now in
        OnOk result (Chains d row.old row.new (tree_at d a) (tree_at d b) (tree_at d c)) }
{
    if are_linked(terms, a, b, c) {
        return Ok(());
    }
    let premises = two_reductions(alloc, a, b, c)?;
    add_step(terms, row, ReductionRule::Chain, a, c, premises)?;
    Ok(())
}

/// Asks for the weak head form without unfolding, and says that the tree reduces to it.
pub fn ask_core<D: Derives>(
    derives: &mut D,
    row: &mut Row,
    e: u64,
    enough: u128,
) -> Result<u64, NoMemory>
    requires e_in { e < length (D.contents derives.old).trees }
    requires answered { IsAnsweredWithin (D.sight (D.rest derives.old)).basis.place
        (core (tree_at (D.contents derives.old) e)) enough }
    ensures leaves { Leaves D.contents D.rest D.sight derives.old derives.new }
    ensures known { IfOk result (λ v. v < length (D.contents derives.new).trees) }
    ensures asks { let t = tree_at (D.contents derives.old) in IfOk result (λ v. AsksCore
        (D.sight (D.rest derives.old)).basis.place (D.contents derives.old)
        (D.contents derives.new) row.old row.new (t e) (tree_at (D.contents derives.new) v)) }
{
    let v = core_of(derives, e, enough)?;
    if same_tree(derives, e, v) {
        return Ok(v);
    }
    push_question(row, Query::Core(e))?;
    Ok(v)
}

/// Asks for the weak head form, and says that the tree reduces to it.
pub fn ask_form<D: Derives>(
    derives: &mut D,
    row: &mut Row,
    e: u64,
    enough: u128,
) -> Result<u64, NoMemory>
    requires e_in { e < length (D.contents derives.old).trees }
    requires answered { IsAnsweredWithin (D.sight (D.rest derives.old)).basis.place
        (whnf (tree_at (D.contents derives.old) e)) enough }
    ensures leaves { Leaves D.contents D.rest D.sight derives.old derives.new }
    ensures known { IfOk result (λ v. v < length (D.contents derives.new).trees) }
    ensures asks { let t = tree_at (D.contents derives.old) in IfOk result (λ v. AsksForm
        (D.sight (D.rest derives.old)).basis.place (D.contents derives.old)
        (D.contents derives.new) row.old row.new (t e) (tree_at (D.contents derives.new) v)) }
{
    let v = form_of(derives, e, enough)?;
    if same_tree(derives, e, v) {
        return Ok(v);
    }
    push_question(row, Query::Whnf(e))?;
    Ok(v)
}

/// Asks for the type, and says that the tree is of it.
pub fn ask_type<D: Derives>(
    derives: &mut D,
    row: &mut Row,
    e: u64,
    enough: u128,
) -> Result<u64, NoMemory>
    requires e_in { e < length (D.contents derives.old).trees }
    requires answered { IsAnsweredWithin (D.sight (D.rest derives.old)).basis.place
        (infer (tree_at (D.contents derives.old) e)) enough }
    ensures leaves { Leaves D.contents D.rest D.sight derives.old derives.new }
    ensures known { IfOk result (λ v. v < length (D.contents derives.new).trees) }
    ensures asks { let t = tree_at (D.contents derives.old) in IfOk result (λ v. AsksType
        (D.sight (D.rest derives.old)).basis.place (D.contents derives.old)
        (D.contents derives.new) row.old row.new (t e) (tree_at (D.contents derives.new) v)) }
{
    let v = type_of(derives, e, enough)?;
    push_question(row, Query::Infer(e))?;
    Ok(v)
}

/// Asks whether two trees are the same, of which it is known, and says that they are.
pub fn ask_same<T: Terms>(terms: &T, row: &mut Row, a: u64, b: u64) -> Result<(), NoMemory>
    requires a_in { a < length (T.contents terms.now).trees }
    requires b_in { b < length (T.contents terms.now).trees }
    ensures { let c = T.contents terms.now in
        OnOk result (AsksSame c row.old row.new (tree_at c a) (tree_at c b)) }
{
    if same_tree(terms, a, b) {
        return Ok(());
    }
    push_question(row, Query::Same(a, b))?;
    Ok(())
}

/// Says that a tree reduces to the weak head form without unfolding of another, to which it is stated to reduce.
pub fn then_core<D: Derives>(
    derives: &mut D,
    row: &mut Row,
    e: u64,
    r: u64,
    enough: u128,
) -> Result<(), NoMemory>
    requires e_in { e < length (D.contents derives.old).trees }
    requires r_in { r < length (D.contents derives.old).trees }
    requires answered { IsAnsweredWithin (D.sight (D.rest derives.old)).basis.place
        (core (tree_at (D.contents derives.old) r)) enough }
    ensures leaves { Leaves D.contents D.rest D.sight derives.old derives.new }
    ensures follows { let t = tree_at (D.contents derives.old) in OnOk result (FollowsCore
        (D.sight (D.rest derives.old)).basis.place (D.contents derives.old)
        (D.contents derives.new) row.old row.new (t e) (t r)) }
{
    let v = ask_core(derives, row, r, enough)?;
    chain(derives.alloc(), derives, row, e, r, v)?;
    Ok(())
}

/// The same of the weak head form.
pub fn then_form<D: Derives>(
    derives: &mut D,
    row: &mut Row,
    e: u64,
    r: u64,
    enough: u128,
) -> Result<(), NoMemory>
    requires e_in { e < length (D.contents derives.old).trees }
    requires r_in { r < length (D.contents derives.old).trees }
    requires answered { IsAnsweredWithin (D.sight (D.rest derives.old)).basis.place
        (whnf (tree_at (D.contents derives.old) r)) enough }
    ensures leaves { Leaves D.contents D.rest D.sight derives.old derives.new }
    ensures follows { let t = tree_at (D.contents derives.old) in OnOk result (FollowsForm
        (D.sight (D.rest derives.old)).basis.place (D.contents derives.old)
        (D.contents derives.new) row.old row.new (t e) (t r)) }
{
    let v = ask_form(derives, row, r, enough)?;
    chain(derives.alloc(), derives, row, e, r, v)?;
    Ok(())
}

/// Says that a tree reduces to another by a step that rests on nothing, and so to the weak head form without unfolding of that.
pub fn step_then_core<D: Derives>(
    derives: &mut D,
    row: &mut Row,
    rule: ReductionRule,
    e: u64,
    r: u64,
    enough: u128,
) -> Result<(), NoMemory>
    requires e_in { e < length (D.contents derives.old).trees }
    requires r_in { r < length (D.contents derives.old).trees }
    requires answered { IsAnsweredWithin (D.sight (D.rest derives.old)).basis.place
        (core (tree_at (D.contents derives.old) r)) enough }
    ensures leaves { Leaves D.contents D.rest D.sight derives.old derives.new }
    ensures goes { let t = tree_at (D.contents derives.old) in OnOk result (StepGoes
        (D.sight (D.rest derives.old)).basis.place (D.contents derives.new) row.old row.new
        (reduction_rule_of rule) (t e) (t r)) }
{
    add_step(derives, row, rule, e, r, no_premise(derives.alloc()))?;
    then_core(derives, row, e, r, enough)?;
    Ok(())
}
