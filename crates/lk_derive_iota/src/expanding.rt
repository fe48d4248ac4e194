//! The step by which a major premise becomes the constructor of its projections.

ghost use Rattle.std.specs.Prelude.{◌≡◌, ◌<◌, ◌∷◌, [], length, IfOk, OnOk};
ghost use Rattle.lk_tree.specs.Spine.{head as head_of, args as args_of};
ghost use Rattle.lk_rulebook.specs.Claims.{types, reduces};
ghost use Rattle.lk_rulebook.specs.WellStated.{WellStated};
ghost use Rattle.lk_questions.specs.Query.{core};
ghost use Rattle.lk_store.specs.Contents.{Contents, tree_at};
ghost use Rattle.lk_constructor.specs.Looking.{app_at};
ghost use Rattle.lk_premises.specs.Claims.{claims_at, AreClaimsIn};
ghost use Rattle.lk_step.specs.Told.{Leaves};
ghost use Rattle.lk_step.specs.Parts.{IsWhole};
ghost use Rattle.lk_derive_iota.specs.Stages.{at_ctor, IsUnderWay};
ghost use Rattle.lk_derive_iota.specs.Taken.{IsExpanded};
ghost use Rattle.lk_derive_iota.specs.Expanding.{IsExpansionAsked};

use crate::asking::{Typed, ask_typed};
use crate::ctors::at_constructor;
use crate::redexes::Redex;
use crate::steps::state_step;
use lk_premises::Claim;
use lk_step::making::{reduction, typing};
use lk_step::under_way::chain;
use lk_step::{Derives, Row};
use lk_store::memory::NoMemory;
use lk_store::node::Node;
use lk_trace::ReductionRule;
use std::alloc::Global;

/// What an expansion asks for: the type of the term, and the type of that, each with its weak head form.
#[derive(Clone, Copy)]
pub(crate) struct Sorted {
    pub typed: Typed,
    pub sorted: Typed,
}

/// What a step by an expansion rests on.
fn expand_premises(alloc: Global, m: u64, asked: Sorted) -> Result<Vec<Claim>, NoMemory>
    ensures are { IfOk result (λ cs. (c : Contents) → let t = tree_at c in claims_at c cs.items
        ≡ types (t m) (t asked.typed.ty) ∷ reduces (t asked.typed.ty) (t asked.typed.form)
        ∷ types (t asked.typed.form) (t asked.sorted.ty)
        ∷ reduces (t asked.sorted.ty) (t asked.sorted.form) ∷ []) }
    ensures known { IfOk result (λ cs. (c : Contents) → m < length c.trees
        → asked.typed.ty < length c.trees → asked.typed.form < length c.trees
        → asked.sorted.ty < length c.trees → asked.sorted.form < length c.trees
        → AreClaimsIn c cs.items) }
{
    let mut premises = Vec::new(alloc);
    premises.push(typing(m, asked.typed.ty))?;
    premises.push(reduction(asked.typed.ty, asked.typed.form))?;
    premises.push(typing(asked.typed.form, asked.sorted.ty))?;
    premises.push(reduction(asked.sorted.ty, asked.sorted.form))?;
    Ok(premises)
}

/// Asks for what the expansion asks for, which is known to be there.
fn ask_sorted<D: Derives>(
    derives: &mut D,
    row: &mut Row,
    redex: &Redex,
    m: u64,
    x: u64,
    enough: u128,
) -> Result<Sorted, NoMemory>
    requires stated { WellStated (D.sight (D.rest derives.old)).basis.place }
    requires m_in { m < length (D.contents derives.old).trees }
    requires x_in { x < length (D.contents derives.old).trees }
    requires expanded { let s = D.sight (D.rest derives.old) in let c = D.contents derives.old in
        IsExpanded s.basis.place s.basis.library c row.old enough redex.now (tree_at c m)
        (tree_at c x) (at_ctor (app_at s.basis.place (head_of (tree_at c x))
        (args_of (tree_at c x)))) }
    ensures leaves { Leaves D.contents D.rest D.sight derives.old derives.new }
    ensures ty_in { IfOk result (λ r. r.typed.ty < length (D.contents derives.new).trees) }
    ensures form_in { IfOk result (λ r. r.typed.form < length (D.contents derives.new).trees) }
    ensures own_in { IfOk result (λ r. r.sorted.ty < length (D.contents derives.new).trees) }
    ensures sort_in { IfOk result (λ r. r.sorted.form < length (D.contents derives.new).trees) }
    ensures asked { let s = D.sight (D.rest derives.old) in let c = D.contents derives.new in
        let o = tree_at (D.contents derives.old) in let t = tree_at c in
        IfOk result (λ r. IsExpansionAsked s.basis.place s.basis.library c row.new enough
        redex.now (o m) (o x) (t r.typed.ty) (t r.typed.form) (t r.sorted.ty)
        (t r.sorted.form)) }
{
    let typed = ask_typed(derives, row, m, enough)?;
    let sorted = ask_typed(derives, row, typed.form, enough)?;
    Ok(Sorted { typed, sorted })
}

/// Says that the recursor on its major premise reduces to that on the expansion.
fn state_expansion<D: Derives>(
    derives: &mut D,
    row: &mut Row,
    redex: &Redex,
    m: u64,
    x: u64,
    asked: Sorted,
    enough: u128,
) -> Result<(), NoMemory>
    requires m_in { m < length (D.contents derives.old).trees }
    requires x_in { x < length (D.contents derives.old).trees }
    requires ty_in { asked.typed.ty < length (D.contents derives.old).trees }
    requires form_in { asked.typed.form < length (D.contents derives.old).trees }
    requires own_in { asked.sorted.ty < length (D.contents derives.old).trees }
    requires sort_in { asked.sorted.form < length (D.contents derives.old).trees }
    requires asked { let s = D.sight (D.rest derives.old) in let c = D.contents derives.old in
        let t = tree_at c in IsExpansionAsked s.basis.place s.basis.library c row.old enough
        redex.now (t m) (t x) (t asked.typed.ty) (t asked.typed.form) (t asked.sorted.ty)
        (t asked.sorted.form) }
    ensures leaves { Leaves D.contents D.rest D.sight derives.old derives.new }
    ensures at { let s = D.sight (D.rest derives.old) in let t = tree_at (D.contents derives.old) x
        in OnOk result (IsUnderWay s.basis.place s.basis.library (D.contents derives.new) row.new
        enough redex.now t (at_ctor (app_at s.basis.place (head_of t) (args_of t))) 0) }
{
    let alloc = derives.alloc();
    let before = derives.make(Node::App(redex.front, m))?;
    let next = derives.make(Node::App(redex.front, x))?;
    let premises = expand_premises(alloc, m, asked)?;
    state_step(
        derives,
        row,
        ReductionRule::Structure,
        before,
        next,
        premises,
    )?;
    chain(alloc, derives, row, redex.reached, before, next)?;
    Ok(())
}

/// Goes on with the expansion of what stands for the major premise.
pub(crate) fn go_expanded<D: Derives>(
    derives: &mut D,
    row: &mut Row,
    redex: &Redex,
    m: u64,
    x: u64,
    enough: u128,
) -> Result<(), NoMemory>
    requires stated { WellStated (D.sight (D.rest derives.old)).basis.place }
    requires m_in { m < length (D.contents derives.old).trees }
    requires x_in { x < length (D.contents derives.old).trees }
    requires expanded { let s = D.sight (D.rest derives.old) in let c = D.contents derives.old in
        IsExpanded s.basis.place s.basis.library c row.old enough redex.now (tree_at c m)
        (tree_at c x) (at_ctor (app_at s.basis.place (head_of (tree_at c x))
        (args_of (tree_at c x)))) }
    ensures leaves { Leaves D.contents D.rest D.sight derives.old derives.new }
    ensures whole { OnOk result (IsWhole (D.sight (D.rest derives.old)).basis.place
        (D.contents derives.new)
        (core (tree_at (D.contents derives.old) redex.now.application)) row.new) }
{
    let asked = ask_sorted(derives, row, redex, m, x, enough)?;
    state_expansion(derives, row, redex, m, x, asked, enough)?;
    at_constructor(derives, row, redex, x, enough)?;
    Ok(())
}
