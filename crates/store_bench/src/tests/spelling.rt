//! Terms spelled in one overlay and made in another.

ghost use Rattle.std.specs.Prelude.{◌≡◌, ◌<◌, length, IfOk};
ghost use Rattle.lk_store.specs.Contents.{Extends};
ghost use Rattle.lk_store.specs.Store.{contents_of};
ghost use Rattle.lk_store.specs.Layers.{layers_contents};

use lk_spell::{SpellError, spell, unspell};
use lk_store::base_store::BaseStore;
use lk_store::memory::NoMemory;
use lk_store::node::{LevelNode, ListNode, NameNode, Node};
use lk_store::overlay::Overlay;
use lk_store::terms::Terms;
use lk_store::text::Text;
use std::alloc::Global;
use std::test::Fail;

// A variable applied to itself, that to itself, and so on: so many terms and one.
fn doubled(terms: &mut Overlay, times: u64) -> Result<u64, NoMemory>
    ensures keeps { Extends (layers_contents terms.old) (layers_contents terms.new) }
    ensures base { terms.new.base ≡ terms.old.base }
    ensures known { IfOk result (λ e.
        e < length (layers_contents terms.new).trees) }
{
    let mut body = terms.make(Node::Var(0))?;
    'doublings: for _ in 0..times {
        body = terms.make(Node::App(body, body))?;
    }
    Ok(body)
}

// A name of a text, both of which the library lacks.
fn named(alloc: Global, terms: &mut Overlay) -> Result<u64, NoMemory>
    ensures keeps { Extends (layers_contents terms.old) (layers_contents terms.new) }
    ensures base { terms.new.base ≡ terms.old.base }
    ensures known { IfOk result (λ n.
        n < length (layers_contents terms.new).names) }
{
    let mut bytes = Vec::new(alloc);
    bytes.push(120)?;
    let root = terms.make_name(NameNode::Anonymous)?;
    let text = terms.make_text(Text::new(bytes))?;
    terms.make_name(NameNode::Text(root, text))
}

// A constant of this name, at a level that is a parameter of the same name.
fn constant(terms: &mut Overlay, name: u64) -> Result<u64, NoMemory>
    requires { name < length (layers_contents terms.old).names }
    ensures keeps { Extends (layers_contents terms.old) (layers_contents terms.new) }
    ensures base { terms.new.base ≡ terms.old.base }
    ensures known { IfOk result (λ e.
        e < length (layers_contents terms.new).trees) }
{
    let level = terms.make_level(LevelNode::Param(name))?;
    let empty = terms.make_levels(ListNode::Empty)?;
    let levels = terms.make_levels(ListNode::Cons(level, empty))?;
    terms.make(Node::Const(name, levels))
}

// Spelled, made in another overlay, and spelled and made back, a term has its number again.
fn comes_back(
    alloc: Global,
    first: &mut Overlay,
    second: &mut Overlay,
    e: u64,
) -> Result<bool, NoMemory>
    requires known { e < length (layers_contents first.old).trees }
    requires one_base { second.old.base ≡ first.old.base }
    requires first_over { Extends (contents_of first.old.base) (layers_contents first.old) }
    requires second_over { Extends (contents_of second.old.base) (layers_contents second.old) }
{
    let Ok(out) = spell(alloc, first, e) else {
        return Ok(false);
    };
    let there = unspell(alloc, second, &out)?;
    let Ok(back) = spell(alloc, second, there) else {
        return Ok(false);
    };
    let here = unspell(alloc, first, &back)?;
    Ok(here == e && back.own.len() == out.own.len())
}

fn constant_in(alloc: Global, first: &mut Overlay, second: &mut Overlay) -> Result<bool, NoMemory>
    requires one_base { second.old.base ≡ first.old.base }
    requires first_over { Extends (contents_of first.old.base) (layers_contents first.old) }
    requires second_over { Extends (contents_of second.old.base) (layers_contents second.old) }
{
    let name = named(alloc, first)?;
    let e = constant(first, name)?;
    comes_back(alloc, first, second, e)
}

// The second overlay has other terms of its own.
fn in_two(alloc: Global, base: &BaseStore) -> Result<bool, NoMemory> {
    let mut first = Overlay::new(alloc, base);
    let mut second = Overlay::new(alloc, base);
    let _ = doubled(&mut second, 2)?;
    constant_in(alloc, &mut first, &mut second)
}

fn over_a_base(alloc: Global) -> Result<bool, NoMemory> {
    let base = BaseStore::new(alloc);
    in_two(alloc, &base)
}

// How many own nodes a tower of so many doublings has: none where it is too wide.
fn own_nodes(alloc: Global, terms: &mut Overlay, times: u64) -> Result<u64, NoMemory>
    requires { Extends (contents_of terms.old.base) (layers_contents terms.old) }
{
    let e = doubled(terms, times)?;
    match spell(alloc, terms, e) {
        Ok(spelled) => Ok(spelled.own.len() as u64),
        Err(SpellError::TooWide) => Ok(0),
        Err(SpellError::NoMemory) => Err(NoMemory),
    }
}

fn own_nodes_over(alloc: Global, base: &BaseStore, times: u64) -> Result<u64, NoMemory> {
    let mut terms = Overlay::new(alloc, base);
    own_nodes(alloc, &mut terms, times)
}

fn counted(alloc: Global, times: u64) -> Result<u64, NoMemory> {
    let base = BaseStore::new(alloc);
    own_nodes_over(alloc, &base, times)
}

#[test]
fn spelled_terms_come_back(rt: HostRuntime) -> Result<(), Fail> {
    assert!(rt; over_a_base(rt.alloc())?);
    Ok(())
}

#[test]
fn few_are_spelled(rt: HostRuntime) -> Result<(), Fail> {
    assert!(rt; counted(rt.alloc(), 4095)? == 4096);
    Ok(())
}

#[test]
fn more_are_too_wide(rt: HostRuntime) -> Result<(), Fail> {
    assert!(rt; counted(rt.alloc(), 4096)? == 0);
    Ok(())
}
