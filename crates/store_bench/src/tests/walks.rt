//! Opening, closing, and values and levels put.

ghost use Rattle.std.specs.Prelude.{◌<◌, length};

use crate::tests::guarded::{applies, are_same, view};
use crate::{binders, opened, opened_and_closed, prop, put};
use lk_store::base_store::BaseStore;
use lk_store::memory::NoMemory;
use lk_store::node::{LevelNode, NameNode, Node};
use lk_store::terms::Terms;
use lk_subst::closing::close;
use lk_subst::levels::put_levels_in;
use lk_subst::opening::open_with;
use lk_subst::putting::put as put_values;
use std::alloc::Global;
use std::test::Fail;

fn open<T: Terms>(alloc: Global, terms: &mut T, body: u64, v: u64) -> Result<u64, NoMemory> {
    let n = terms.len();
    if body < n && v < n {
        open_with(alloc, terms, body, v)
    } else {
        Err(NoMemory)
    }
}

// A variable applied to itself, opened with a sort.
fn opens_both<T: Terms>(alloc: Global, terms: &mut T) -> Result<bool, NoMemory> {
    let variable = put(terms, Node::Var(0))?;
    let twice = put(terms, Node::App(variable, variable))?;
    let c = prop(terms)?;
    let e = open(alloc, terms, twice, c)?;
    applies(terms, e, c, c)
}

// A Local, closed.
fn closes_a_local<T: Terms>(alloc: Global, terms: &mut T) -> Result<bool, NoMemory> {
    let t = terms.make(Node::Var(3))?;
    let local = terms.make(Node::Local(0, t))?;
    let e = close(alloc, terms, local, 0)?;
    Ok(matches!(view(terms, e)?, Node::Var(0)))
}

// The outer one of two variables, with the first of two values for it.
fn puts_the_first<T: Terms>(alloc: Global, terms: &mut T) -> Result<bool, NoMemory> {
    let first = terms.make(Node::Lit(1))?;
    let second = terms.make(Node::Lit(2))?;
    let body = terms.make(Node::Var(1))?;
    let e = put_values(alloc, terms, body, &[first, second])?;
    Ok(are_same(terms, e, first))
}

fn put_zero<T: Terms>(alloc: Global, terms: &mut T, u: u64, e: u64) -> Result<u64, NoMemory>
    requires name_in { u < length (T.contents terms.old).names }
    requires tree_in { e < length (T.contents terms.old).trees }
{
    let zero = terms.make_level(LevelNode::Zero)?;
    put_levels_in(alloc, terms, &[u], &[zero], e)
}

// The sort of a parameter, with 0 for it.
fn puts_a_level<T: Terms>(alloc: Global, terms: &mut T) -> Result<bool, NoMemory> {
    let u = terms.make_name(NameNode::Anonymous)?;
    let level = terms.make_level(LevelNode::Param(u))?;
    let sort = terms.make(Node::Sort(level))?;
    let e = put_zero(alloc, terms, u, sort)?;
    let wanted = prop(terms)?;
    Ok(are_same(terms, e, wanted))
}

// A deep body, opened and closed again.
fn comes_back<T: Terms>(alloc: Global, terms: &mut T, depth: u64) -> Result<bool, NoMemory> {
    let body = binders(terms, depth)?;
    let inside = opened(alloc, terms, body)?;
    let back = opened_and_closed(alloc, terms, body)?;
    Ok(are_same(terms, body, back) && !are_same(terms, body, inside))
}

fn walks<T: Terms>(alloc: Global, terms: &mut T) -> Result<bool, NoMemory> {
    Ok(opens_both(alloc, terms)? && closes_a_local(alloc, terms)?)
}

fn puts<T: Terms>(alloc: Global, terms: &mut T) -> Result<bool, NoMemory> {
    Ok(puts_the_first(alloc, terms)? && puts_a_level(alloc, terms)?)
}

fn opened_in_a_base(alloc: Global) -> Result<bool, NoMemory> {
    let mut base = BaseStore::new(alloc);
    walks(alloc, &mut base)
}

fn put_in_a_base(alloc: Global) -> Result<bool, NoMemory> {
    let mut base = BaseStore::new(alloc);
    puts(alloc, &mut base)
}

fn deep_in_a_base(alloc: Global) -> Result<bool, NoMemory> {
    let mut base = BaseStore::new(alloc);
    comes_back(alloc, &mut base, 100_000)
}

#[test]
fn bodies_are_opened_and_closed(rt: HostRuntime) -> Result<(), Fail> {
    assert!(rt; opened_in_a_base(rt.alloc())?);
    Ok(())
}

#[test]
fn values_and_levels_are_put(rt: HostRuntime) -> Result<(), Fail> {
    assert!(rt; put_in_a_base(rt.alloc())?);
    Ok(())
}

#[test]
fn a_deep_body_comes_back(rt: HostRuntime) -> Result<(), Fail> {
    assert!(rt; deep_in_a_base(rt.alloc())?);
    Ok(())
}
