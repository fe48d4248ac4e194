//! The step by which a major premise becomes the constructor that K takes it for.

ghost use Rattle.std.specs.Prelude.{◌<◌, length, IfOk, OnOk};
ghost use Rattle.lk_rulebook.specs.WellStated.{WellStated};
ghost use Rattle.lk_store.specs.Contents.{Contents, tree_at};
ghost use Rattle.lk_premises.specs.Claims.{claims_at, AreClaimsIn};
ghost use Rattle.lk_step.specs.MajorSteps.{k_claims};
ghost use Rattle.lk_step.specs.Told.{Leaves};
ghost use Rattle.lk_derive_iota.specs.Stages.{at_subject, IsUnderWay};
ghost use Rattle.lk_derive_iota.specs.Taken.{IsTaken, IsAskedFor};
ghost use Rattle.std.specs.Prelude.{◌≡◌};

use crate::asking::ask_typed;
use crate::redexes::Redex;
use crate::steps::state_step;
use lk_premises::Claim;
use lk_step::making::{equality, reduction, typing};
use lk_step::under_way::{ask_same, ask_type};
use lk_step::{Derives, Row};
use lk_store::memory::NoMemory;
use lk_store::node::Node;
use lk_trace::ReductionRule;
use std::alloc::Global;

/// What K asks for: the type of the major premise, its weak head form, and the type of the candidate.
#[derive(Clone, Copy)]
pub(crate) struct Compared {
    pub ty: u64,
    pub form: u64,
    pub own: u64,
}

/// What a step by K rests on.
fn k_premises(alloc: Global, e: u64, d: u64, compared: Compared) -> Result<Vec<Claim>, NoMemory>
    ensures are { IfOk result (λ cs. (c : Contents) → claims_at c cs.items
        ≡ k_claims (tree_at c e) (tree_at c compared.ty) (tree_at c compared.form) (tree_at c d)
        (tree_at c compared.own)) }
    ensures known { IfOk result (λ cs. (c : Contents) → e < length c.trees → d < length c.trees
        → compared.ty < length c.trees → compared.form < length c.trees
        → compared.own < length c.trees → AreClaimsIn c cs.items) }
{
    let mut premises = Vec::new(alloc);
    premises.push(typing(e, compared.ty))?;
    premises.push(reduction(compared.ty, compared.form))?;
    premises.push(typing(d, compared.own))?;
    premises.push(equality(compared.form, compared.own))?;
    Ok(premises)
}

/// Asks for what K asks for, which is known to be there.
pub(crate) fn ask_compared<D: Derives>(
    derives: &mut D,
    row: &mut Row,
    redex: &Redex,
    d: u64,
    enough: u128,
) -> Result<Compared, NoMemory>
    requires stated { WellStated (D.sight (D.rest derives.old)).basis.place }
    requires d_in { d < length (D.contents derives.old).trees }
    requires taken { let s = D.sight (D.rest derives.old) in let c = D.contents derives.old in
        IsTaken s.basis.place s.basis.library c row.old enough redex.now
        (tree_at c redex.now.major) (tree_at c d) }
    ensures leaves { Leaves D.contents D.rest D.sight derives.old derives.new }
    ensures ty_in { IfOk result (λ r. r.ty < length (D.contents derives.new).trees) }
    ensures form_in { IfOk result (λ r. r.form < length (D.contents derives.new).trees) }
    ensures own_in { IfOk result (λ r. r.own < length (D.contents derives.new).trees) }
    ensures asked { let s = D.sight (D.rest derives.old) in let c = D.contents derives.new in
        IfOk result (λ r. IsAskedFor s.basis.place s.basis.library c row.new enough redex.now
        (tree_at (D.contents derives.old) redex.now.major) (tree_at (D.contents derives.old) d)
        (tree_at c r.ty) (tree_at c r.form) (tree_at c r.own)) }
{
    let typed = ask_typed(derives, row, redex.major, enough)?;
    let own = ask_type(derives, row, d, enough)?;
    ask_same(derives, row, typed.form, own)?;
    Ok(Compared {
        ty: typed.ty,
        form: typed.form,
        own,
    })
}

/// Says that the recursor on its major premise reduces to that on what K takes it for.
pub(crate) fn state_candidate<D: Derives>(
    derives: &mut D,
    row: &mut Row,
    redex: &Redex,
    d: u64,
    compared: Compared,
    enough: u128,
) -> Result<(), NoMemory>
    requires d_in { d < length (D.contents derives.old).trees }
    requires ty_in { compared.ty < length (D.contents derives.old).trees }
    requires form_in { compared.form < length (D.contents derives.old).trees }
    requires own_in { compared.own < length (D.contents derives.old).trees }
    requires asked { let s = D.sight (D.rest derives.old) in let c = D.contents derives.old in
        IsAskedFor s.basis.place s.basis.library c row.old enough redex.now
        (tree_at c redex.now.major) (tree_at c d) (tree_at c compared.ty)
        (tree_at c compared.form) (tree_at c compared.own) }
    ensures leaves { Leaves D.contents D.rest D.sight derives.old derives.new }
    ensures at { let s = D.sight (D.rest derives.old) in let t = tree_at (D.contents derives.old) in
        OnOk result (IsUnderWay s.basis.place s.basis.library (D.contents derives.new) row.new
        enough redex.now (t d) (at_subject (t d)) 0) }
{
    let next = derives.make(Node::App(redex.front, d))?;
    let premises = k_premises(derives.alloc(), redex.major, d, compared)?;
    state_step(
        derives,
        row,
        ReductionRule::K,
        redex.reached,
        next,
        premises,
    )?;
    Ok(())
}
