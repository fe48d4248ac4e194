//! Names, texts and levels in each store.

use crate::list_store::ListStore;
use lk_store::base_store::BaseStore;
use lk_store::memory::NoMemory;
use lk_store::node::{LevelNode, ListNode, NameNode};
use lk_store::overlay::Overlay;
use lk_store::terms::Terms;
use lk_store::text::Text;
use std::alloc::Global;
use std::test::Fail;

// Two names that are numbers, and how many there are.
fn tells_names<T: Terms>(terms: &mut T) -> Result<bool, NoMemory> {
    let nothing = terms.make_name(NameNode::Anonymous)?;
    let name = terms.make_name(NameNode::Number(nothing, 7))?;
    let again = terms.make_name(NameNode::Number(nothing, 7))?;
    let told = terms.same_name(name, again) && !terms.same_name(nothing, again);
    Ok(told && terms.count_names() == 2 && matches!(terms.name(name), NameNode::Number(_, 7)))
}

// A text as it was made.
fn keeps_text<T: Terms>(alloc: Global, terms: &mut T) -> Result<bool, NoMemory> {
    let s = terms.make_text(Text::new(Vec::from_slice(alloc, b"id")?))?;
    Ok(terms.text(s).as_bytes() == b"id".as_slice())
}

// A level with a parameter and one without.
fn tells_levels<T: Terms>(terms: &mut T) -> Result<bool, NoMemory> {
    let nothing = terms.make_name(NameNode::Anonymous)?;
    let zero = terms.make_level(LevelNode::Zero)?;
    let plain = !terms.level_has_params(zero) && matches!(terms.level(zero), LevelNode::Zero);
    let u = terms.make_level(LevelNode::Param(nothing))?;
    Ok(plain && terms.level_has_params(u) && matches!(terms.level(u), LevelNode::Param(_)))
}

// An empty list of levels.
fn tells_lists<T: Terms>(terms: &mut T) -> Result<bool, NoMemory> {
    let none = terms.make_levels(ListNode::Empty)?;
    Ok(matches!(terms.levels(none), ListNode::Empty) && !terms.levels_have_params(none))
}

fn holds_names<T: Terms>(alloc: Global, terms: &mut T) -> Result<bool, NoMemory> {
    Ok(
        tells_names(terms)?
            && keeps_text(alloc, terms)?
            && tells_levels(terms)?
            && tells_lists(terms)?,
    )
}

fn in_a_base(alloc: Global) -> Result<bool, NoMemory> {
    let mut base = BaseStore::new(alloc);
    holds_names(alloc, &mut base)
}

fn over(alloc: Global, base: &BaseStore) -> Result<bool, NoMemory> {
    let mut terms = Overlay::new(alloc, base);
    holds_names(alloc, &mut terms)
}

fn in_an_overlay(alloc: Global) -> Result<bool, NoMemory> {
    let base = BaseStore::new(alloc);
    over(alloc, &base)
}

fn in_a_list(alloc: Global) -> Result<bool, NoMemory> {
    let mut terms = ListStore::new(alloc, BaseStore::new(alloc));
    holds_names(alloc, &mut terms)
}

#[test]
fn names_of_a_base(rt: HostRuntime) -> Result<(), Fail> {
    assert!(rt; in_a_base(rt.alloc())?);
    Ok(())
}

#[test]
fn names_of_an_overlay(rt: HostRuntime) -> Result<(), Fail> {
    assert!(rt; in_an_overlay(rt.alloc())?);
    Ok(())
}

#[test]
fn names_of_a_list(rt: HostRuntime) -> Result<(), Fail> {
    assert!(rt; in_a_list(rt.alloc())?);
    Ok(())
}

// A name of the base is found once it is made.
fn found_once_made(alloc: Global) -> Result<bool, NoMemory> {
    let mut base = BaseStore::new(alloc);
    let before = base.find_name(NameNode::Anonymous).is_none();
    base.make_name(NameNode::Anonymous)?;
    Ok(before && base.find_name(NameNode::Anonymous).is_some())
}

#[test]
fn a_name_is_found(rt: HostRuntime) -> Result<(), Fail> {
    assert!(rt; found_once_made(rt.alloc())?);
    Ok(())
}
