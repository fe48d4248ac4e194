//! Whether each level parameter in the trees of a unit is one that its member declares.

ghost use Rattle.std.specs.Prelude.{◌≡◌, ◌<◌, List, length, map, All, IfOk, OnOk, true, false};
ghost use Rattle.std.specs.List.{list_all};
ghost use Rattle.lk_tree.specs.Tree.{Name};
ghost use Rattle.lk_tree.specs.Scan.{tree_over};
ghost use Rattle.lk_rulebook.specs.Units.{trees_of, body_trees};
ghost use Rattle.lk_rulebook.specs.Scan.{all_over};
ghost use Rattle.lk_store.specs.Contents.{name_at, tree_at};
ghost use Rattle.lk_store.specs.Store.{contents_of};
ghost use Rattle.lk_env.specs.Units.{body_at, unit_at, IsBodyIn, IsConstructorIn, IsTypeIn};
ghost use Rattle.lk_env.specs.Units.{IsRuleIn, IsRecursorIn, IsUnitIn};
ghost use Rattle.lk_scan.specs.Walks.{names_of, IsDeclared, AreWithin};
ghost use Rattle.lk_scan.specs.Members.{IsWalked, type_over, constructor_over, constructors_over};
ghost use Rattle.lk_scan.specs.Members.{rule_over, recursor_over};

use crate::declared::{Declared, make_declared};
use crate::part::Met;
use crate::walk::is_over;
use lk_env::unit::{
    Block, BlockType, Body, Constructor, Declaration, Recursor, RecursorRule, Unit,
};
use lk_rows::table::Table;
use lk_store::base_store::BaseStore;
use lk_store::memory::NoMemory;
use lk_store::terms::Terms;
use std::alloc::Global;

/// What was met under the level parameters of one member, or of several that declare the same.
#[derive(Drop)]
pub struct Walked {
    pub declared: Declared,
    pub met: Table<Met>,
}

fn start(alloc: Global, base: &BaseStore, levels: &[u64]) -> Result<Walked, NoMemory>
    requires { All (λ n. n < length (contents_of base.now).names) levels.now }
    ensures walked { IfOk result (λ w. IsWalked (contents_of base.now) w) }
    ensures same { IfOk result (λ w. w.declared.numbers.items ≡ levels.now) }
{
    let declared = make_declared(alloc, base, levels)?;
    Ok(Walked {
        declared,
        met: Table::new(alloc),
    })
}

/// From here on trees stand under these level parameters. What was met under others is forgotten.
fn enter(
    alloc: Global,
    base: &BaseStore,
    walked: &mut Walked,
    levels: &[u64],
) -> Result<(), NoMemory>
    requires walked { IsWalked (contents_of base.now) walked.old }
    requires levels_in { All (λ n. n < length (contents_of base.now).names) levels.now }
    ensures walked { OnOk result (IsWalked (contents_of base.now) walked.new) }
    ensures same { OnOk result (walked.new.declared.numbers.items ≡ levels.now) }
{
    if walked.declared.numbers.as_slice() == levels {
        return Ok(());
    }
    let fresh = start(alloc, base, levels)?;
    *walked = fresh;
    Ok(())
}

/// Whether each level parameter of a tree is one of these.
fn stated_over(
    alloc: Global,
    base: &BaseStore,
    walked: &mut Walked,
    levels: &[u64],
    tree: u64,
) -> Result<bool, NoMemory>
    requires walked { IsWalked (contents_of base.now) walked.old }
    requires levels_in { All (λ n. n < length (contents_of base.now).names) levels.now }
    requires tree_in { tree < length (contents_of base.now).trees }
    ensures walked { IfOk result (λ r. IsWalked (contents_of base.now) walked.new) }
    ensures same { IfOk result (λ r. walked.new.declared.numbers.items ≡ levels.now) }
    ensures over { IfOk result (λ r. r ≡ tree_over (map (name_at (contents_of base.now)) levels.now)
        (tree_at (contents_of base.now) tree)) }
{
    enter(alloc, base, walked, levels)?;
    let over = is_over(alloc, base, &walked.declared, &mut walked.met, tree)?;
    Ok(over)
}

fn types_over(
    alloc: Global,
    base: &BaseStore,
    walked: &mut Walked,
    types: &[BlockType],
) -> Result<bool, NoMemory>
    requires walked { IsWalked (contents_of base.now) walked.old }
    requires types_in { All (IsTypeIn (contents_of base.now)) types.now }
    ensures walked { IfOk result (λ r. IsWalked (contents_of base.now) walked.new) }
    ensures over { IfOk result (λ r. r ≡ list_all (type_over (contents_of base.now)) types.now) }
{
    for t in types {
        if !stated_over(alloc, base, walked, &t.levels, t.ty)? {
            return Ok(false);
        }
    }
    Ok(true)
}

fn constructors_over(
    alloc: Global,
    base: &BaseStore,
    walked: &mut Walked,
    constructors: &[Constructor],
) -> Result<bool, NoMemory>
    requires walked { IsWalked (contents_of base.now) walked.old }
    requires constructors_in { All (IsConstructorIn (contents_of base.now)) constructors.now }
    ensures walked { IfOk result (λ r. IsWalked (contents_of base.now) walked.new) }
    ensures over { IfOk result (λ r. r ≡ list_all (constructor_over (contents_of base.now))
        constructors.now) }
{
    for k in constructors {
        if !stated_over(alloc, base, walked, &k.levels, k.ty)? {
            return Ok(false);
        }
    }
    Ok(true)
}

fn all_constructors_over(
    alloc: Global,
    base: &BaseStore,
    walked: &mut Walked,
    types: &[BlockType],
) -> Result<bool, NoMemory>
    requires walked { IsWalked (contents_of base.now) walked.old }
    requires types_in { All (IsTypeIn (contents_of base.now)) types.now }
    ensures walked { IfOk result (λ r. IsWalked (contents_of base.now) walked.new) }
    ensures over { IfOk result (λ r. r ≡ list_all (constructors_over (contents_of base.now))
        types.now) }
{
    for t in types {
        if !constructors_over(alloc, base, walked, &t.constructors)? {
            return Ok(false);
        }
    }
    Ok(true)
}

fn rules_over(
    alloc: Global,
    base: &BaseStore,
    declared: &Declared,
    met: &mut Table<Met>,
    rules: &[RecursorRule],
) -> Result<bool, NoMemory>
    requires declared { IsDeclared (contents_of base.now) declared.now }
    requires met { AreWithin (contents_of base.now) declared.now met.old }
    requires rules_in { All (IsRuleIn (contents_of base.now)) rules.now }
    ensures met { IfOk result (λ r. AreWithin (contents_of base.now) declared.now met.new) }
    ensures over { IfOk result (λ r. r ≡ list_all (rule_over (contents_of base.now)
        (names_of (contents_of base.now) declared.now)) rules.now) }
{
    for rule in rules {
        if !is_over(alloc, base, declared, met, rule.value)? {
            return Ok(false);
        }
    }
    Ok(true)
}

fn recursor_over(
    alloc: Global,
    base: &BaseStore,
    walked: &mut Walked,
    recursor: &Recursor,
) -> Result<bool, NoMemory>
    requires walked { IsWalked (contents_of base.now) walked.old }
    requires recursor_in { IsRecursorIn (contents_of base.now) recursor.now }
    ensures walked { IfOk result (λ r. IsWalked (contents_of base.now) walked.new) }
    ensures over { IfOk result (λ r. r ≡ recursor_over (contents_of base.now) recursor.now) }
{
    if !stated_over(alloc, base, walked, &recursor.levels, recursor.ty)? {
        return Ok(false);
    }
    let over = rules_over(
        alloc,
        base,
        &walked.declared,
        &mut walked.met,
        &recursor.rules,
    )?;
    Ok(over)
}

fn recursors_over(
    alloc: Global,
    base: &BaseStore,
    walked: &mut Walked,
    recursors: &[Recursor],
) -> Result<bool, NoMemory>
    requires walked { IsWalked (contents_of base.now) walked.old }
    requires recursors_in { All (IsRecursorIn (contents_of base.now)) recursors.now }
    ensures { IfOk result (λ r. r ≡ list_all (recursor_over (contents_of base.now)) recursors.now) }
{
    for r in recursors {
        if !recursor_over(alloc, base, walked, r)? {
            return Ok(false);
        }
    }
    Ok(true)
}

fn block_over(alloc: Global, base: &BaseStore, block: &Block) -> Result<bool, NoMemory>
    requires { IsUnitIn (contents_of base.now) (Unit.Block block.now) }
    ensures { IfOk result (λ r. r ≡ all_over (trees_of
        (unit_at (contents_of base.now) (Unit.Block block.now)))) }
{
    let mut walked = start(alloc, base, &[])?;
    if !types_over(alloc, base, &mut walked, &block.types)? {
        return Ok(false);
    }
    if !all_constructors_over(alloc, base, &mut walked, &block.types)? {
        return Ok(false);
    }
    let over = recursors_over(alloc, base, &mut walked, &block.recursors)?;
    Ok(over)
}

fn body_over(
    alloc: Global,
    base: &BaseStore,
    walked: &mut Walked,
    body: Body,
) -> Result<bool, NoMemory>
    requires walked { IsWalked (contents_of base.now) walked.old }
    requires body_in { IsBodyIn (contents_of base.now) body }
    ensures { IfOk result (λ r. r ≡ all_over
        (body_trees (names_of (contents_of base.now) walked.old.declared)
        (body_at (contents_of base.now) body))) }
{
    match body {
        Body::Axiom | Body::Quotient => Ok(true),
        Body::Definition { value, .. } | Body::Opaque { value } => {
            is_over(
                alloc,
                base,
                &walked.declared,
                &mut walked.met,
                u64::from(value),
            )
        }
        Body::Theorem { proof } => {
            is_over(
                alloc,
                base,
                &walked.declared,
                &mut walked.met,
                u64::from(proof),
            )
        }
    }
}

/// Whether a level parameter stands in the trees of a body.
fn body_has_params(base: &BaseStore, body: Body) -> bool
    requires { IsBodyIn (contents_of base.now) body }
    ensures { result ≡ false → (ps : List Name)
        → all_over (body_trees ps (body_at (contents_of base.now) body)) ≡ true }
{
    match body {
        Body::Axiom | Body::Quotient => false,
        Body::Definition { value, .. } => base.has_params(u64::from(value)),
        Body::Opaque { value } => base.has_params(u64::from(value)),
        Body::Theorem { proof } => base.has_params(u64::from(proof)),
    }
}

/// Whether a level parameter stands in the trees of a declaration. Mostly none does, and then no
/// walk is made ready.
fn has_params(base: &BaseStore, declaration: &Declaration) -> bool
    requires { IsUnitIn (contents_of base.now) (Unit.Declaration declaration.now) }
    ensures { result ≡ false → all_over (trees_of
        (unit_at (contents_of base.now) (Unit.Declaration declaration.now))) ≡ true }
{
    base.has_params(u64::from(declaration.ty)) || body_has_params(base, declaration.body)
}

fn declaration_over(
    alloc: Global,
    base: &BaseStore,
    declaration: &Declaration,
) -> Result<bool, NoMemory>
    requires { IsUnitIn (contents_of base.now) (Unit.Declaration declaration.now) }
    ensures { IfOk result (λ r. r ≡ all_over (trees_of
        (unit_at (contents_of base.now) (Unit.Declaration declaration.now)))) }
{
    if !has_params(base, declaration) {
        return Ok(true);
    }
    let mut walked = start(alloc, base, &declaration.levels)?;
    if !is_over(
        alloc,
        base,
        &walked.declared,
        &mut walked.met,
        u64::from(declaration.ty),
    )? {
        return Ok(false);
    }
    let over = body_over(alloc, base, &mut walked, declaration.body)?;
    Ok(over)
}

/// Whether each level parameter in a unit's trees is one that its member declares.
pub(crate) fn levels_declared(
    alloc: Global,
    base: &BaseStore,
    unit: &Unit,
) -> Result<bool, NoMemory>
    requires { IsUnitIn (contents_of base.now) unit.now }
    ensures { IfOk result (λ r. r ≡ all_over (trees_of (unit_at (contents_of base.now) unit.now))) }
{
    let over = match unit {
        Unit::Declaration(declaration) => declaration_over(alloc, base, declaration)?,
        Unit::Block(block) => block_over(alloc, base, block)?,
    };
    Ok(over)
}
