//! Pis opened one after another, each with a Local of its own.

ghost use Rattle.std.specs.Prelude.{◌≡◌, ◌<◌, length, map, All, IfOk};
ghost use Rattle.lk_tree.specs.Tree.{local};
ghost use Rattle.lk_tree.specs.Bind.{opened};
ghost use Rattle.lk_store.specs.Contents.{tree_at, Extends, IsTree};
ghost use Rattle.lk_inductive.specs.BlockSteps.{telescope};
ghost use Rattle.lk_declaration.specs.Courses.{ComesTo};
ghost use Rattle.lk_block.specs.Forms.{local_form};

use crate::asking::pi_of;
use lk_ask::asks::Asks;
use lk_ask::building::{build, open};
use lk_ask::stop::Stop;
use lk_lists::numbers::keep;
use lk_store::memory::NoMemory;
use lk_store::node::Node;
use std::alloc::Global;

/// The Local of a number for a Pi, and the Pi's body, opened with it.
pub(crate) fn open_local<A: Asks>(
    alloc: Global,
    asks: &mut A,
    number: u64,
    domain: u64,
    body: u64,
) -> Result<(u64, u64), NoMemory>
    requires domain_in { domain < length (A.contents asks.old).trees }
    requires body_in { body < length (A.contents asks.old).trees }
    ensures keeps { Extends (A.contents asks.old) (A.contents asks.new) }
    ensures stays { A.standing asks.new ≡ A.standing asks.old }
    ensures left { A.left asks.new ≡ A.left asks.old }
    ensures made { IfOk result (λ p. IsTree (A.contents asks.new) p.0
        (local number (tree_at (A.contents asks.old) domain))) }
    ensures opened { IfOk result (λ p. IsTree (A.contents asks.new) p.1
        (opened (tree_at (A.contents asks.old) body)
        (local number (tree_at (A.contents asks.old) domain)))) }
{
    let local = build(asks, Node::Local(number, domain))?;
    let rest = open(alloc, asks, body, local)?;
    Ok((local, rest))
}

/// The Local of a number for the Pi that a term's weak head form is to be, and what is left, opened with it.
fn next_local<A: Asks>(alloc: Global, asks: &mut A, number: u64, e: u64) -> Result<(u64, u64), Stop>
    requires { e < length (A.contents asks.old).trees }
    ensures keeps { Extends (A.contents asks.old) (A.contents asks.new) }
    ensures stays { A.standing asks.new ≡ A.standing asks.old }
    ensures known { IfOk result (λ p. (p.0 < length (A.contents asks.new).trees)
        × (p.1 < length (A.contents asks.new).trees)) }
    ensures outcome { ComesTo (A.standing asks.old)
        (local_form number (tree_at (A.contents asks.old) e)) (A.left asks.old)
        (λ p. (tree_at (A.contents asks.new) p.0, tree_at (A.contents asks.new) p.1))
        (A.left asks.new) result }
{
    let parts = pi_of(asks, e)?;
    Ok(open_local(alloc, asks, number, parts.0, parts.1)?)
}

/// So many Pis of a term, opened with Locals from a number on: the Locals, and what is left.
pub fn telescope<A: Asks>(
    alloc: Global,
    asks: &mut A,
    first: u64,
    count: u64,
    e: u64,
) -> Result<(Vec<u64>, u64), Stop>
    requires { e < length (A.contents asks.old).trees }
    ensures keeps { Extends (A.contents asks.old) (A.contents asks.new) }
    ensures stays { A.standing asks.new ≡ A.standing asks.old }
    ensures locals_known { IfOk result (λ t. All
        (λ x. x < length (A.contents asks.new).trees) t.0.items) }
    ensures rest_known { IfOk result (λ t. t.1 < length (A.contents asks.new).trees) }
    ensures outcome { ComesTo (A.standing asks.old)
        (telescope first count (tree_at (A.contents asks.old) e)) (A.left asks.old)
        (λ t. (map (tree_at (A.contents asks.new)) t.0.items, tree_at (A.contents asks.new) t.1))
        (A.left asks.new) result }
{
    let mut locals: Vec<u64> = Vec::new(alloc);
    let mut number = first;
    let mut left = count;
    let mut rest = e;
    'pis: while left > 0 {
        let opened = next_local(alloc, asks, number, rest)?;
        number = keep(&mut locals, opened.0, number)?;
        rest = opened.1;
        left -= 1;
    }
    Ok((locals, rest))
}
