//! What trees and units name, as lists.

ghost use Rattle.std.specs.Prelude.{◌≡◌, ◌<◌, ◌++◌, All, map, length, OnOk};
ghost use Rattle.std.specs.List.{flat_map};
ghost use Rattle.lk_store.specs.Store.{contents_of};
ghost use Rattle.lk_env.specs.Units.{IsTypeIn, IsUnitIn};
ghost use Rattle.lk_needs.specs.declared.thing.Thing.TheVariants as thing;
ghost use Rattle.lk_needs.specs.Things.{node_things, body_things, declaration_things};
ghost use Rattle.lk_needs.specs.Things.{constructor_things, type_things, rule_things};
ghost use Rattle.lk_needs.specs.Things.{recursor_things, own_things, numbered_things};
ghost use Rattle.lk_needs.specs.Things.{IsFirst, IsUnitListed};

use crate::followers::Followers;
use crate::thing::Thing;
use lk_env::unit::{
    Block, BlockType, Body, Constructor, Declaration, Recursor, RecursorRule, Unit,
};
use lk_store::base_store::BaseStore;
use lk_store::memory::NoMemory;
use lk_store::node::{NameNode, Node};

pub fn push_names(things: &mut Vec<Thing>, names: &[u64]) -> Result<(), NoMemory>
    ensures { OnOk result (things.new.items ≡ things.old.items ++ map thing.Name names.now) }
{
    for name in names {
        things.push(Thing::Name(*name))?;
    }
    Ok(())
}

/// The names and the parts of a node.
pub fn push_node(things: &mut Vec<Thing>, node: Node) -> Result<(), NoMemory>
    ensures { OnOk result (things.new.items ≡ things.old.items ++ node_things node) }
{
    match node {
        Node::Var(_) | Node::Sort(_) | Node::Lit(_) | Node::Wide => {}
        Node::Str(_) | Node::Local(_, _) => {}
        Node::Const(name, _) => things.push(Thing::Name(name))?,
        Node::Proj(name, _, e) => {
            things.push(Thing::Name(name))?;
            things.push(Thing::Tree(e))?;
        }
        Node::App(a, b) | Node::Lam(a, b) | Node::Pi(a, b) => {
            things.push(Thing::Tree(a))?;
            things.push(Thing::Tree(b))?;
        }
        Node::Let(a, b, c) => {
            things.push(Thing::Tree(a))?;
            things.push(Thing::Tree(b))?;
            things.push(Thing::Tree(c))?;
        }
    }
    Ok(())
}

fn push_body(things: &mut Vec<Thing>, body: Body) -> Result<(), NoMemory>
    ensures { OnOk result (things.new.items ≡ things.old.items ++ body_things body) }
{
    match body {
        Body::Axiom => {}
        Body::Quotient => {}
        Body::Definition { value, .. } => things.push(Thing::Tree(u64::from(value)))?,
        Body::Opaque { value } => things.push(Thing::Tree(u64::from(value)))?,
        Body::Theorem { proof } => things.push(Thing::Tree(u64::from(proof)))?,
    }
    Ok(())
}

fn push_declaration(things: &mut Vec<Thing>, d: &Declaration) -> Result<(), NoMemory>
    ensures { OnOk result (things.new.items ≡ things.old.items ++ declaration_things d.now) }
{
    things.push(Thing::Name(u64::from(d.name)))?;
    things.push(Thing::Tree(u64::from(d.ty)))?;
    push_body(things, d.body)
}

fn push_constructor(things: &mut Vec<Thing>, k: &Constructor) -> Result<(), NoMemory>
    ensures { OnOk result (things.new.items ≡ things.old.items ++ constructor_things k.now) }
{
    things.push(Thing::Name(k.name))?;
    things.push(Thing::Tree(k.ty))?;
    Ok(())
}

fn push_constructors(things: &mut Vec<Thing>, constructors: &[Constructor]) -> Result<(), NoMemory>
    ensures { OnOk result (things.new.items ≡ things.old.items
        ++ flat_map constructor_things constructors.now) }
{
    for k in constructors {
        push_constructor(things, k)?;
    }
    Ok(())
}

fn push_type(things: &mut Vec<Thing>, t: &BlockType) -> Result<(), NoMemory>
    ensures { OnOk result (things.new.items ≡ things.old.items ++ type_things t.now) }
{
    things.push(Thing::Name(t.name))?;
    things.push(Thing::Tree(t.ty))?;
    push_constructors(things, &t.constructors)
}

fn push_types(things: &mut Vec<Thing>, types: &[BlockType]) -> Result<(), NoMemory>
    ensures { OnOk result (things.new.items ≡ things.old.items ++ flat_map type_things types.now) }
{
    for t in types {
        push_type(things, t)?;
    }
    Ok(())
}

fn push_rule(things: &mut Vec<Thing>, rule: RecursorRule) -> Result<(), NoMemory>
    ensures { OnOk result (things.new.items ≡ things.old.items ++ rule_things rule) }
{
    things.push(Thing::Name(rule.constructor))?;
    things.push(Thing::Tree(rule.value))?;
    Ok(())
}

fn push_rules(things: &mut Vec<Thing>, rules: &[RecursorRule]) -> Result<(), NoMemory>
    ensures { OnOk result (things.new.items ≡ things.old.items ++ flat_map rule_things rules.now) }
{
    for rule in rules {
        push_rule(things, *rule)?;
    }
    Ok(())
}

fn push_recursor(things: &mut Vec<Thing>, r: &Recursor) -> Result<(), NoMemory>
    ensures { OnOk result (things.new.items ≡ things.old.items ++ recursor_things r.now) }
{
    things.push(Thing::Name(r.name))?;
    things.push(Thing::Tree(r.ty))?;
    push_rules(things, &r.rules)
}

fn push_recursors(things: &mut Vec<Thing>, recursors: &[Recursor]) -> Result<(), NoMemory>
    ensures { OnOk result (things.new.items ≡ things.old.items
        ++ flat_map recursor_things recursors.now) }
{
    for r in recursors {
        push_recursor(things, r)?;
    }
    Ok(())
}

/// The recursors that a block may give, one for each type.
fn push_own(things: &mut Vec<Thing>, plain: &Followers, types: &[BlockType]) -> Result<(), NoMemory>
    requires { All (λ t. t.name < length plain.now) types.now }
    ensures { OnOk result (things.new.items ≡ things.old.items
        ++ flat_map (own_things plain.now) types.now) }
{
    for t in types {
        push_names(things, plain.of(t.name))?;
    }
    Ok(())
}

/// The name of the first type, by its number. Where there are no types it is the anonymous name.
fn first_of(base: &BaseStore, types: &[BlockType]) -> Option<u64>
    requires { All (IsTypeIn (contents_of base.now)) types.now }
    ensures { IsFirst (contents_of base.now) types.now result }
{
    match types {
        [first, ..] => Some(first.name),
        [] => base.find_name(NameNode::Anonymous),
    }
}

/// The recursors of nested types: they are named after the first type of their block.
fn push_numbered(things: &mut Vec<Thing>, first: Option<u64>) -> Result<(), NoMemory>
    ensures { OnOk result (things.new.items ≡ things.old.items ++ numbered_things first) }
{
    if let Some(name) = first {
        things.push(Thing::Numbered(name))?;
    }
    Ok(())
}

fn push_block(
    things: &mut Vec<Thing>,
    base: &BaseStore,
    plain: &Followers,
    block: &Block,
) -> Result<(), NoMemory>
    requires block_in { IsUnitIn (contents_of base.now) (Unit.Block block.now) }
    requires one_each { length plain.now ≡ length (contents_of base.now).names }
    ensures { OnOk result (IsUnitListed (contents_of base.now) plain.now (Unit.Block block.now)
        things.old.items things.new.items) }
{
    push_types(things, &block.types)?;
    push_recursors(things, &block.recursors)?;
    push_own(things, plain, &block.types)?;
    push_numbered(things, first_of(base, &block.types))
}

/// All that a unit names.
pub fn push_unit(
    things: &mut Vec<Thing>,
    base: &BaseStore,
    plain: &Followers,
    unit: &Unit,
) -> Result<(), NoMemory>
    requires unit_in { IsUnitIn (contents_of base.now) unit.now }
    requires one_each { length plain.now ≡ length (contents_of base.now).names }
    ensures { OnOk result (IsUnitListed (contents_of base.now) plain.now unit.now
        things.old.items things.new.items) }
{
    match unit {
        Unit::Declaration(d) => push_declaration(things, d),
        Unit::Block(block) => push_block(things, base, plain, block),
    }
}
