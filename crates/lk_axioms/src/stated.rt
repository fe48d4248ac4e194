//! The trees that a unit states.

ghost use Rattle.std.specs.Prelude.{◌≡◌, ◌++◌, map, OnOk};
ghost use Rattle.std.specs.List.{flat_map};
ghost use Rattle.lk_axioms.specs.Stated.{body_numbers, constructor_numbers, recursor_numbers};
ghost use Rattle.lk_axioms.specs.Stated.{stated_numbers};

use lk_env::unit::{
    Block, BlockType, Body, Constructor, Declaration, Recursor, RecursorRule, Unit,
};
use lk_store::memory::NoMemory;

fn push_types(trees: &mut Vec<u64>, types: &[BlockType]) -> Result<(), NoMemory>
    ensures { OnOk result (trees.new.items ≡ trees.old.items ++ map (λ t. t.ty) types.now) }
{
    for t in types {
        trees.push(t.ty)?;
    }
    Ok(())
}

fn push_constructors(trees: &mut Vec<u64>, constructors: &[Constructor]) -> Result<(), NoMemory>
    ensures { OnOk result (trees.new.items ≡ trees.old.items ++ map (λ k. k.ty) constructors.now) }
{
    for k in constructors {
        trees.push(k.ty)?;
    }
    Ok(())
}

fn push_constructors_of_all(trees: &mut Vec<u64>, types: &[BlockType]) -> Result<(), NoMemory>
    ensures { OnOk result (trees.new.items ≡ trees.old.items
        ++ flat_map constructor_numbers types.now) }
{
    for t in types {
        push_constructors(trees, &t.constructors)?;
    }
    Ok(())
}

fn push_rules(trees: &mut Vec<u64>, rules: &[RecursorRule]) -> Result<(), NoMemory>
    ensures { OnOk result (trees.new.items ≡ trees.old.items ++ map (λ x. x.value) rules.now) }
{
    for rule in rules {
        trees.push(rule.value)?;
    }
    Ok(())
}

fn push_recursor(trees: &mut Vec<u64>, recursor: &Recursor) -> Result<(), NoMemory>
    ensures { OnOk result (trees.new.items ≡ trees.old.items ++ recursor_numbers recursor.now) }
{
    trees.push(recursor.ty)?;
    push_rules(trees, &recursor.rules)
}

fn push_recursors(trees: &mut Vec<u64>, recursors: &[Recursor]) -> Result<(), NoMemory>
    ensures { OnOk result (trees.new.items ≡ trees.old.items
        ++ flat_map recursor_numbers recursors.now) }
{
    for r in recursors {
        push_recursor(trees, r)?;
    }
    Ok(())
}

fn push_body(trees: &mut Vec<u64>, body: Body) -> Result<(), NoMemory>
    ensures { OnOk result (trees.new.items ≡ trees.old.items ++ body_numbers body) }
{
    match body {
        Body::Axiom => {}
        Body::Quotient => {}
        Body::Definition { value, .. } => trees.push(u64::from(value))?,
        Body::Opaque { value } => trees.push(u64::from(value))?,
        Body::Theorem { proof } => trees.push(u64::from(proof))?,
    }
    Ok(())
}

fn push_declaration(trees: &mut Vec<u64>, declaration: &Declaration) -> Result<(), NoMemory>
    ensures { OnOk result (trees.new.items ≡ trees.old.items
        ++ stated_numbers (Unit.Declaration declaration.now)) }
{
    trees.push(u64::from(declaration.ty))?;
    push_body(trees, declaration.body)
}

fn push_block(trees: &mut Vec<u64>, block: &Block) -> Result<(), NoMemory>
    ensures { OnOk result (trees.new.items ≡ trees.old.items
        ++ stated_numbers (Unit.Block block.now)) }
{
    push_types(trees, &block.types)?;
    push_constructors_of_all(trees, &block.types)?;
    push_recursors(trees, &block.recursors)
}

/// Lists the trees of a unit, member by member. What stood in the list is gone.
pub(crate) fn list_trees(trees: &mut Vec<u64>, unit: &Unit) -> Result<(), NoMemory>
    ensures { OnOk result (trees.new.items ≡ stated_numbers unit.now) }
{
    trees.clear();
    match unit {
        Unit::Declaration(declaration) => push_declaration(trees, declaration),
        Unit::Block(block) => push_block(trees, block),
    }
}
