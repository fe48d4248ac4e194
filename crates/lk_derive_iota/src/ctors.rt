//! A recursor whose major premise is a constructor applied.

ghost use Rattle.std.specs.Prelude.{◌≡◌, ◌<◌, Some, length, map, All, IfOk, OnOk};
ghost use Rattle.lk_tree.specs.Spine.{head as head_of, args as args_of};
ghost use Rattle.lk_rulebook.specs.WellStated.{WellStated};
ghost use Rattle.lk_questions.specs.Query.{core};
ghost use Rattle.lk_store.specs.Contents.{tree_at};
ghost use Rattle.lk_spine.specs.Reading.{AreTrees};
ghost use Rattle.lk_env.specs.Units.{rule_at, IsRuleIn};
ghost use Rattle.lk_constructor.specs.Applied.{IsKnownConstructor, IsAppliedIf};
ghost use Rattle.lk_constructor.specs.Looking.{app_at};
ghost use Rattle.lk_step.specs.Told.{Leaves};
ghost use Rattle.lk_step.specs.Parts.{IsWhole};
ghost use Rattle.lk_derive_iota.specs.Stages.{at_ctor, at_rule, IsUnderWay, IsFitting};
ghost use Rattle.lk_derive_iota.specs.Redexes.{IsApplied};
ghost use Rattle.lk_derive_iota.specs.Stages.{IsReduced, IsBefore};

use crate::redexes::Redex;
use crate::rules::{Placed, placed_rule, rules_of};
use crate::steps::state_step;
use lk_constructor::{AppliedConstructor, head_constructor};
use lk_premises::same_tree;
use lk_spine::{apply, args};
use lk_step::under_way::{add_step, chain, no_premise, one_reduction, then_core};
use lk_step::{Derives, Row};
use lk_store::memory::NoMemory;
use lk_store::node::Node;
use lk_store::terms::Terms;
use lk_trace::ReductionRule;

/// What a recursor on this constructor reduces to by a rule.
fn right_side<D: Derives>(
    derives: &mut D,
    row: &Row,
    redex: &Redex,
    placed: Placed,
    x: u64,
    fields: &[u64],
    enough: u128,
) -> Result<u64, NoMemory>
    requires stated { WellStated (D.sight (D.rest derives.old)).basis.place }
    requires x_in { x < length (D.contents derives.old).trees }
    requires rule_in { IsRuleIn (D.contents derives.old) placed.rule }
    requires fields_in { All (λ e. e < length (D.contents derives.old).trees) fields.now }
    requires at { let s = D.sight (D.rest derives.old) in let c = D.contents derives.old in
        IsFitting s.basis.place s.basis.library c row.now enough redex.now (tree_at c x)
        placed.place (rule_at c placed.rule) (map (tree_at c) fields.now) }
    ensures leaves { Leaves D.contents D.rest D.sight derives.old derives.new }
    ensures known { IfOk result (λ v. v < length (D.contents derives.new).trees) }
    ensures at { let s = D.sight (D.rest derives.old) in let c = D.contents derives.new in
        IfOk result (λ v. IsUnderWay s.basis.place s.basis.library c row.now enough redex.now
        (tree_at (D.contents derives.old) x) (at_rule placed.place
        (tree_at (D.contents derives.old) x) (tree_at c v)) 0) }
{
    let front = match derives.at_levels(redex.entry, redex.levels, placed.rule.value)? {
        Some(front) => front,
        None => unreachable!(),
    };
    let shared = apply(derives, front, &redex.shared)?;
    let made = apply(derives, shared, fields)?;
    Ok(made)
}

/// Says that the recursor on its major premise reduces to what the rule makes of it.
fn state_rule<D: Derives>(
    derives: &mut D,
    row: &mut Row,
    redex: &Redex,
    place: usize,
    x: u64,
    made: u64,
    enough: u128,
) -> Result<(), NoMemory>
    requires x_in { x < length (D.contents derives.old).trees }
    requires made_in { made < length (D.contents derives.old).trees }
    requires at { let s = D.sight (D.rest derives.old) in let c = D.contents derives.old in
        IsUnderWay s.basis.place s.basis.library c row.old enough redex.now (tree_at c x)
        (at_rule place (tree_at c x) (tree_at c made)) 0 }
    ensures leaves { Leaves D.contents D.rest D.sight derives.old derives.new }
    ensures reduced { OnOk result (IsReduced (D.sight (D.rest derives.old)).basis.place
        (D.contents derives.new) row.new enough redex.now
        (tree_at (D.contents derives.old) made)) }
{
    let alloc = derives.alloc();
    let next = derives.make(Node::App(redex.front, x))?;
    let rule = ReductionRule::Iota {
        place: place as u64,
    };
    state_step(derives, row, rule, next, made, no_premise(alloc))?;
    chain(alloc, derives, row, redex.reached, next, made)?;
    Ok(())
}

/// Says that all of it reduces to that, applied to what comes behind, which is the last tree.
fn state_head<D: Derives>(
    derives: &D,
    row: &mut Row,
    redex: &Redex,
    made: u64,
    next: u64,
    enough: u128,
) -> Result<(), NoMemory>
    requires made_in { made < length (D.contents derives.now).trees }
    requires next_in { next < length (D.contents derives.now).trees }
    requires reduced { IsReduced (D.sight (D.rest derives.now)).basis.place
        (D.contents derives.now) row.old enough redex.now (tree_at (D.contents derives.now) made) }
    requires next_is { IsApplied (D.contents derives.now) redex.now.behind.items made next }
    ensures { OnOk result (IsBefore (D.sight (D.rest derives.now)).basis.place
        (D.contents derives.now) row.new enough redex.now (tree_at (D.contents derives.now) next)) }
{
    if redex.behind.is_empty() {
        return Ok(());
    }
    if same_tree(derives, redex.application, next) {
        return Ok(());
    }
    let premises = one_reduction(derives.alloc(), redex.reached, made)?;
    add_step(
        derives,
        row,
        ReductionRule::Head,
        redex.application,
        next,
        premises,
    )?;
    Ok(())
}

/// Goes on with what the recursor on its major premise reduces to.
fn go_behind<D: Derives>(
    derives: &mut D,
    row: &mut Row,
    redex: &Redex,
    made: u64,
    enough: u128,
) -> Result<(), NoMemory>
    requires stated { WellStated (D.sight (D.rest derives.old)).basis.place }
    requires made_in { made < length (D.contents derives.old).trees }
    requires reduced { IsReduced (D.sight (D.rest derives.old)).basis.place
        (D.contents derives.old) row.old enough redex.now (tree_at (D.contents derives.old) made) }
    ensures leaves { Leaves D.contents D.rest D.sight derives.old derives.new }
    ensures whole { OnOk result (IsWhole (D.sight (D.rest derives.old)).basis.place
        (D.contents derives.new)
        (core (tree_at (D.contents derives.old) redex.now.application)) row.new) }
{
    let next = apply(derives, made, &redex.behind)?;
    state_head(derives, row, redex, made, next, enough)?;
    then_core(derives, row, redex.application, next, enough)?;
    Ok(())
}

/// Goes on by the rule that fits.
fn by_rule<D: Derives>(
    derives: &mut D,
    row: &mut Row,
    redex: &Redex,
    placed: Placed,
    x: u64,
    fields: &[u64],
    enough: u128,
) -> Result<(), NoMemory>
    requires stated { WellStated (D.sight (D.rest derives.old)).basis.place }
    requires x_in { x < length (D.contents derives.old).trees }
    requires rule_in { IsRuleIn (D.contents derives.old) placed.rule }
    requires fields_in { All (λ e. e < length (D.contents derives.old).trees) fields.now }
    requires at { let s = D.sight (D.rest derives.old) in let c = D.contents derives.old in
        IsFitting s.basis.place s.basis.library c row.old enough redex.now (tree_at c x)
        placed.place (rule_at c placed.rule) (map (tree_at c) fields.now) }
    ensures leaves { Leaves D.contents D.rest D.sight derives.old derives.new }
    ensures whole { OnOk result (IsWhole (D.sight (D.rest derives.old)).basis.place
        (D.contents derives.new)
        (core (tree_at (D.contents derives.old) redex.now.application)) row.new) }
{
    let made = right_side(derives, row, redex, placed, x, fields, enough)?;
    state_rule(derives, row, redex, placed.place, x, made, enough)?;
    go_behind(derives, row, redex, made, enough)?;
    Ok(())
}

/// Goes on where what stands for the major premise is this constructor, applied to these.
fn with_arguments<D: Derives>(
    derives: &mut D,
    row: &mut Row,
    redex: &Redex,
    constructor: AppliedConstructor,
    x: u64,
    arguments: &[u64],
    enough: u128,
) -> Result<(), NoMemory>
    requires stated { WellStated (D.sight (D.rest derives.old)).basis.place }
    requires x_in { x < length (D.contents derives.old).trees }
    requires constructor_in { IsKnownConstructor (D.contents derives.old) constructor }
    requires constructor_is { let s = D.sight (D.rest derives.old) in
        let t = tree_at (D.contents derives.old) x in
        IsAppliedIf (D.contents derives.old) s.basis.library (args_of t) (Some constructor)
        (app_at s.basis.place (head_of t) (args_of t)) }
    requires at { let s = D.sight (D.rest derives.old) in let c = D.contents derives.old in
        let t = tree_at c x in
        IsUnderWay s.basis.place s.basis.library c row.old enough redex.now t
        (at_ctor (app_at s.basis.place (head_of t) (args_of t))) 0 }
    requires arguments_are { AreTrees (D.contents derives.old) arguments.now
        (args_of (tree_at (D.contents derives.old) x)) }
    ensures leaves { Leaves D.contents D.rest D.sight derives.old derives.new }
    ensures whole { OnOk result (IsWhole (D.sight (D.rest derives.old)).basis.place
        (D.contents derives.new)
        (core (tree_at (D.contents derives.old) redex.now.application)) row.new) }
{
    let rules = rules_of(derives, redex.entry);
    match placed_rule(derives, rules, constructor, arguments.len()) {
        Some(placed) => {
            let (_, fields) = arguments.split_at(constructor.parameters as usize);
            by_rule(derives, row, redex, placed, x, fields, enough)
        }
        None => Ok(()),
    }
}

/// The same, whatever it is applied to.
fn with_constructor<D: Derives>(
    derives: &mut D,
    row: &mut Row,
    redex: &Redex,
    constructor: AppliedConstructor,
    x: u64,
    enough: u128,
) -> Result<(), NoMemory>
    requires stated { WellStated (D.sight (D.rest derives.old)).basis.place }
    requires x_in { x < length (D.contents derives.old).trees }
    requires constructor_in { IsKnownConstructor (D.contents derives.old) constructor }
    requires constructor_is { let s = D.sight (D.rest derives.old) in
        let t = tree_at (D.contents derives.old) x in
        IsAppliedIf (D.contents derives.old) s.basis.library (args_of t) (Some constructor)
        (app_at s.basis.place (head_of t) (args_of t)) }
    requires at { let s = D.sight (D.rest derives.old) in let c = D.contents derives.old in
        let t = tree_at c x in
        IsUnderWay s.basis.place s.basis.library c row.old enough redex.now t
        (at_ctor (app_at s.basis.place (head_of t) (args_of t))) 0 }
    ensures leaves { Leaves D.contents D.rest D.sight derives.old derives.new }
    ensures whole { OnOk result (IsWhole (D.sight (D.rest derives.old)).basis.place
        (D.contents derives.new)
        (core (tree_at (D.contents derives.old) redex.now.application)) row.new) }
{
    let arguments = args(derives.alloc(), derives, x)?;
    with_arguments(derives, row, redex, constructor, x, &arguments, enough)?;
    Ok(())
}

/// Goes on with what stands for the major premise, by its head.
pub(crate) fn at_constructor<D: Derives>(
    derives: &mut D,
    row: &mut Row,
    redex: &Redex,
    x: u64,
    enough: u128,
) -> Result<(), NoMemory>
    requires stated { WellStated (D.sight (D.rest derives.old)).basis.place }
    requires x_in { x < length (D.contents derives.old).trees }
    requires at { let s = D.sight (D.rest derives.old) in let c = D.contents derives.old in
        let t = tree_at c x in
        IsUnderWay s.basis.place s.basis.library c row.old enough redex.now t
        (at_ctor (app_at s.basis.place (head_of t) (args_of t))) 0 }
    ensures leaves { Leaves D.contents D.rest D.sight derives.old derives.new }
    ensures whole { OnOk result (IsWhole (D.sight (D.rest derives.old)).basis.place
        (D.contents derives.new)
        (core (tree_at (D.contents derives.old) redex.now.application)) row.new) }
{
    match head_constructor(derives, x) {
        Some(constructor) => with_constructor(derives, row, redex, constructor, x, enough),
        None => Ok(()),
    }
}
