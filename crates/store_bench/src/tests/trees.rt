//! Trees in each store.

use crate::list_store::ListStore;
use crate::tests::guarded::{applies, are_same, view};
use crate::{prop, put};
use lk_store::base_store::BaseStore;
use lk_store::memory::NoMemory;
use lk_store::node::Node;
use lk_store::overlay::Overlay;
use lk_store::terms::Terms;
use std::alloc::Global;
use std::test::Fail;

// An application is seen as it was made, and counted.
fn sees_an_application<T: Terms>(terms: &mut T) -> Result<bool, NoMemory> {
    let f = put(terms, Node::Var(0))?;
    let a = put(terms, Node::Var(1))?;
    let before = terms.len();
    let e = put(terms, Node::App(f, a))?;
    Ok(applies(terms, e, f, a)? && terms.len().saturating_sub(before) == 1)
}

// Equal trees are the same, and others are not.
fn tells_trees<T: Terms>(terms: &mut T) -> Result<bool, NoMemory> {
    let a = put(terms, Node::Var(0))?;
    let again = put(terms, Node::Var(0))?;
    let other = put(terms, Node::Var(1))?;
    Ok(are_same(terms, a, again) && !are_same(terms, a, other))
}

// The sort that is made twice has one number.
fn one_number<T: Terms>(terms: &mut T) -> Result<bool, NoMemory> {
    let a = prop(terms)?;
    let b = prop(terms)?;
    Ok(a == b)
}

// The sort that is made twice has two numbers, which are the same tree.
fn two_numbers<T: Terms>(terms: &mut T) -> Result<bool, NoMemory> {
    let a = prop(terms)?;
    let b = prop(terms)?;
    Ok(a != b && are_same(terms, a, b))
}

// The bounds of a variable under no binder, and of a Local.
fn has_bounds<T: Terms>(terms: &mut T) -> Result<bool, NoMemory> {
    let variable = terms.make(Node::Var(6))?;
    let loose = terms.loose_bound(variable);
    let local = terms.make(Node::Local(4, variable))?;
    Ok(loose == 7 && terms.loose_bound(local) == 0 && terms.local_bound(local) == 5)
}

// The literal above 2^128 - 1 is not narrow, and no parameter stands in it.
fn has_marks<T: Terms>(terms: &mut T) -> Result<bool, NoMemory> {
    let wide = terms.make(Node::Wide)?;
    Ok(!terms.is_narrow(wide) && !terms.has_params(wide))
}

fn holds_trees<T: Terms>(terms: &mut T) -> Result<bool, NoMemory> {
    Ok(
        sees_an_application(terms)?
            && tells_trees(terms)?
            && has_bounds(terms)?
            && has_marks(terms)?,
    )
}

fn holds_each_once<T: Terms>(terms: &mut T) -> Result<bool, NoMemory> {
    Ok(one_number(terms)? && holds_trees(terms)?)
}

fn lists_each<T: Terms>(terms: &mut T) -> Result<bool, NoMemory> {
    Ok(two_numbers(terms)? && holds_trees(terms)?)
}

fn in_a_base(alloc: Global) -> Result<bool, NoMemory> {
    let mut base = BaseStore::new(alloc);
    holds_each_once(&mut base)
}

fn over(alloc: Global, base: &BaseStore) -> Result<bool, NoMemory> {
    let mut terms = Overlay::new(alloc, base);
    holds_each_once(&mut terms)
}

fn in_an_overlay(alloc: Global) -> Result<bool, NoMemory> {
    let base = BaseStore::new(alloc);
    over(alloc, &base)
}

fn in_a_list(alloc: Global) -> Result<bool, NoMemory> {
    let mut terms = ListStore::new(alloc, BaseStore::new(alloc));
    lists_each(&mut terms)
}

#[test]
fn trees_of_a_base(rt: HostRuntime) -> Result<(), Fail> {
    assert!(rt; in_a_base(rt.alloc())?);
    Ok(())
}

#[test]
fn trees_of_an_overlay(rt: HostRuntime) -> Result<(), Fail> {
    assert!(rt; in_an_overlay(rt.alloc())?);
    Ok(())
}

#[test]
fn trees_of_a_list(rt: HostRuntime) -> Result<(), Fail> {
    assert!(rt; in_a_list(rt.alloc())?);
    Ok(())
}

// An overlay over one tree has what is made in it too, and the one tree alone once it is emptied.
fn emptied(alloc: Global, base: &BaseStore) -> Result<bool, NoMemory> {
    let mut terms = Overlay::new(alloc, base);
    put(&mut terms, Node::Var(1))?;
    let both = terms.len();
    terms.clear();
    Ok(both == 2 && terms.len() == 1)
}

// A frozen base keeps its tree.
fn lent(alloc: Global) -> Result<bool, NoMemory> {
    let mut base = BaseStore::new(alloc);
    put(&mut base, Node::Var(0))?;
    base.freeze();
    emptied(alloc, &base)
}

#[test]
fn an_emptied_overlay_has_its_base(rt: HostRuntime) -> Result<(), Fail> {
    assert!(rt; lent(rt.alloc())?);
    Ok(())
}
