//! Pis over the types of Locals, which are put in.

ghost use Rattle.std.specs.Prelude.{◌≡◌, ◌<◌, length, map, All, IfOk};
ghost use Rattle.lk_store.specs.Contents.{tree_at, Extends};
ghost use Rattle.lk_inductive.specs.Block.{domain};
ghost use Rattle.lk_inductive.specs.BlockSteps.{over};
ghost use Rattle.lk_declaration.specs.Courses.{ComesTo};
ghost use Rattle.lk_block.specs.Forms.{put_form, over_form};

use crate::asking::pi_of;
use lk_ask::asks::Asks;
use lk_ask::building::open;
use lk_ask::stop::Stop;
use lk_declaration::asking::are_same;
use lk_store::node::Node;
use lk_store::terms::Terms;
use lk_tree::rule::Rule;
use std::alloc::Global;

/// The type inside a Local.
pub(crate) fn domain_of<T: Terms>(terms: &T, e: u64) -> u64
    requires { e < length (T.contents terms.now).trees }
    ensures known { result < length (T.contents terms.now).trees }
    ensures domain { tree_at (T.contents terms.now) result
        ≡ domain (tree_at (T.contents terms.now) e) }
{
    match terms.view(e) {
        Node::Local(_, domain) => domain,
        _ => e,
    }
}

/// A body with a Local put in, whose type the domain is to be.
fn put_in<A: Asks>(
    alloc: Global,
    asks: &mut A,
    parameter: u64,
    domain: u64,
    body: u64,
) -> Result<u64, Stop>
    requires parameter_in { parameter < length (A.contents asks.old).trees }
    requires domain_in { domain < length (A.contents asks.old).trees }
    requires body_in { body < length (A.contents asks.old).trees }
    ensures keeps { Extends (A.contents asks.old) (A.contents asks.new) }
    ensures stays { A.standing asks.new ≡ A.standing asks.old }
    ensures known { IfOk result (λ e. e < length (A.contents asks.new).trees) }
    ensures outcome { ComesTo (A.standing asks.old)
        (put_form (tree_at (A.contents asks.old) parameter) (tree_at (A.contents asks.old) domain)
        (tree_at (A.contents asks.old) body)) (A.left asks.old) (tree_at (A.contents asks.new))
        (A.left asks.new) result }
{
    let own = domain_of(asks, parameter);
    let equal = are_same(asks, domain, own)?;
    if !equal {
        return Err(Stop::No(Rule::ParameterDiffers));
    }
    Ok(open(alloc, asks, body, parameter)?)
}

/// What is left of the Pi that a term's weak head form is to be, once a Local is put in, whose type its domain is to be.
fn put_parameter<A: Asks>(alloc: Global, asks: &mut A, parameter: u64, e: u64) -> Result<u64, Stop>
    requires parameter_in { parameter < length (A.contents asks.old).trees }
    requires e_in { e < length (A.contents asks.old).trees }
    ensures keeps { Extends (A.contents asks.old) (A.contents asks.new) }
    ensures stays { A.standing asks.new ≡ A.standing asks.old }
    ensures known { IfOk result (λ e. e < length (A.contents asks.new).trees) }
    ensures outcome { ComesTo (A.standing asks.old)
        (over_form (tree_at (A.contents asks.old) parameter) (tree_at (A.contents asks.old) e))
        (A.left asks.old) (tree_at (A.contents asks.new)) (A.left asks.new) result }
{
    let parts = pi_of(asks, e)?;
    put_in(alloc, asks, parameter, parts.0, parts.1)
}

/// What is left of a term of Pis over the types of these Locals, which are put in.
pub fn over<A: Asks>(alloc: Global, asks: &mut A, parameters: &[u64], e: u64) -> Result<u64, Stop>
    requires parameters_in { All (λ x. x < length (A.contents asks.old).trees) parameters.now }
    requires e_in { e < length (A.contents asks.old).trees }
    ensures keeps { Extends (A.contents asks.old) (A.contents asks.new) }
    ensures stays { A.standing asks.new ≡ A.standing asks.old }
    ensures known { IfOk result (λ e. e < length (A.contents asks.new).trees) }
    ensures outcome { ComesTo (A.standing asks.old)
        (over (map (tree_at (A.contents asks.old)) parameters.now)
        (tree_at (A.contents asks.old) e)) (A.left asks.old) (tree_at (A.contents asks.new))
        (A.left asks.new) result }
{
    let mut more = parameters;
    let mut rest = e;
    'parameters: while let Some((parameter, others)) = more.split_first() {
        rest = put_parameter(alloc, asks, *parameter, rest)?;
        more = others;
    }
    Ok(rest)
}
