//! Heads, arguments, applications and telescopes.

use crate::tests::guarded::{applies, are_same, pi};
use crate::{prop, put};
use lk_spine::{apply, args, head, telescope};
use lk_store::base_store::BaseStore;
use lk_store::memory::NoMemory;
use lk_store::node::Node;
use lk_store::terms::Terms;
use std::alloc::Global;
use std::test::Fail;

fn head_is<T: Terms>(terms: &T, e: u64, f: u64) -> bool {
    e < terms.len() && are_same(terms, head(terms, e), f)
}

fn argument_is<T: Terms>(alloc: Global, terms: &T, e: u64, a: u64) -> Result<bool, NoMemory> {
    if e >= terms.len() {
        return Ok(false);
    }
    let found = args(alloc, terms, e)?;
    match found.as_slice() {
        [only] => Ok(are_same(terms, *only, a)),
        _ => Ok(false),
    }
}

// An application taken apart.
fn taken_apart<T: Terms>(alloc: Global, terms: &mut T) -> Result<bool, NoMemory> {
    let f = put(terms, Node::Var(0))?;
    let a = prop(terms)?;
    let e = put(terms, Node::App(f, a))?;
    Ok(head_is(terms, e, f) && argument_is(alloc, terms, e, a)?)
}

// A head applied to one argument.
fn put_together<T: Terms>(terms: &mut T) -> Result<bool, NoMemory> {
    let f = terms.make(Node::Var(0))?;
    let e = apply(terms, f, &[f])?;
    applies(terms, e, f, f)
}

fn domain_is<T: Terms>(alloc: Global, terms: &T, e: u64, t: u64, b: u64) -> Result<bool, NoMemory> {
    if e >= terms.len() {
        return Ok(false);
    }
    let (domains, under) = telescope(alloc, terms, e)?;
    match domains.as_slice() {
        [only] => Ok(are_same(terms, *only, t) && are_same(terms, under, b)),
        _ => Ok(false),
    }
}

// A Pi taken apart.
fn has_domain<T: Terms>(alloc: Global, terms: &mut T) -> Result<bool, NoMemory> {
    let t = prop(terms)?;
    let b = put(terms, Node::Var(0))?;
    let e = pi(terms, t, b)?;
    domain_is(alloc, terms, e, t, b)
}

fn takes_apart<T: Terms>(alloc: Global, terms: &mut T) -> Result<bool, NoMemory> {
    Ok(taken_apart(alloc, terms)? && put_together(terms)? && has_domain(alloc, terms)?)
}

fn in_a_base(alloc: Global) -> Result<bool, NoMemory> {
    let mut base = BaseStore::new(alloc);
    takes_apart(alloc, &mut base)
}

#[test]
fn spines_and_telescopes(rt: HostRuntime) -> Result<(), Fail> {
    assert!(rt; in_a_base(rt.alloc())?);
    Ok(())
}
