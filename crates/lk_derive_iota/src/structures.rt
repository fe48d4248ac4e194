//! A major premise that is no constructor, in the type of a structure: it is expanded, unless it is a proof.

ghost use Rattle.std.specs.Prelude.{◌≡◌, ◌<◌, true, nat_eq, None, length, option_map, IfOk, IfSome};
ghost use Rattle.lk_tree.specs.Tree.{sort as a_sort};
ghost use Rattle.lk_tree.specs.Spine.{head as head_of, args as args_of};
ghost use Rattle.lk_rulebook.specs.WellStated.{WellStated};
ghost use Rattle.lk_store.specs.Contents.{level_at, list_at, tree_at, IsTree};
ghost use Rattle.lk_constructor.specs.Applied.{IsKnownConstructor};
ghost use Rattle.lk_constructor.specs.Looking.{app_at};
ghost use Rattle.lk_step.specs.Told.{Leaves};
ghost use Rattle.lk_derive_iota.specs.Stages.{at_subject, IsUnderWay};
ghost use Rattle.lk_derive_iota.specs.Taken.{HasForm};
ghost use Rattle.lk_derive_iota.specs.Expanding.{sort_level, expansion_at, IsExpandedIf};
ghost use Rattle.lk_derive_iota.specs.Expanding.{IsAtParent, IsLikeParent, IsOfParent};

use crate::asking::typed_form;
use crate::redexes::Redex;
use crate::rules::only_constructor;
use lk_ask::looks::Looks;
use lk_constructor::{AppliedConstructor, levels_of_type};
use lk_eta::arguments::has_arguments;
use lk_mentions::structures::{projections_of, structure_of};
use lk_spine::{apply, args};
use lk_step::{Derives, Row};
use lk_store::memory::NoMemory;
use lk_store::node::Node;
use lk_store::terms::Terms;

/// The level of a sort.
fn level_of<T: Terms>(terms: &T, e: u64) -> Option<u64>
    requires { e < length (T.contents terms.now).trees }
    ensures known { IfSome result (λ l. l < length (T.contents terms.now).levels) }
    ensures is { sort_level (tree_at (T.contents terms.now) e)
        ≡ option_map (level_at (T.contents terms.now)) result }
{
    match terms.view(e) {
        Node::Sort(level) => Some(level),
        _ => None,
    }
}

/// The constructor at the arguments of a type and at the projections of a term.
fn expand<L: Looks>(
    looks: &mut L,
    constructor: AppliedConstructor,
    levels: u64,
    m: u64,
    ty: u64,
) -> Result<u64, NoMemory>
    requires constructor_in { IsKnownConstructor (L.contents looks.old) constructor }
    requires levels_in { levels < length (L.contents looks.old).lists }
    requires m_in { m < length (L.contents looks.old).trees }
    requires ty_in { ty < length (L.contents looks.old).trees }
    ensures leaves { Leaves L.contents L.rest L.sight looks.old looks.new }
    ensures is { let c = L.contents looks.old in IfOk result (λ x. IsTree (L.contents looks.new) x
        (expansion_at c constructor (list_at c levels) (tree_at c m) (tree_at c ty))) }
{
    let arguments = args(looks.alloc(), looks, ty)?;
    let fields = projections_of(
        looks.alloc(),
        looks,
        constructor.inductive,
        m,
        constructor.fields,
    )?;
    let front = looks.make(Node::Const(constructor.name, levels))?;
    let at = apply(looks, front, &arguments)?;
    let x = apply(looks, at, &fields)?;
    Ok(x)
}

/// What a term is expanded to, whose type has a sort of this level.
fn by_level<D: Derives>(
    derives: &mut D,
    row: &Row,
    redex: &Redex,
    constructor: AppliedConstructor,
    levels: u64,
    m: u64,
    ty: u64,
    level: u64,
    enough: u128,
) -> Result<Option<u64>, NoMemory>
    requires stated { WellStated (D.sight (D.rest derives.old)).basis.place }
    requires constructor_in { IsKnownConstructor (D.contents derives.old) constructor }
    requires m_in { m < length (D.contents derives.old).trees }
    requires levels_in { levels < length (D.contents derives.old).lists }
    requires ty_in { ty < length (D.contents derives.old).trees }
    requires level_in { level < length (D.contents derives.old).levels }
    requires at { let s = D.sight (D.rest derives.old) in let c = D.contents derives.old in
        IsOfParent s.basis.place s.basis.library c row.now enough redex.now (tree_at c m)
        constructor (tree_at c ty) (list_at c levels) }
    requires count { nat_eq (length (args_of (tree_at (D.contents derives.old) ty)))
        constructor.parameters ≡ true }
    requires sorted { let c = D.contents derives.old in
        HasForm (D.sight (D.rest derives.old)).basis.place (tree_at c ty)
        (a_sort (level_at c level)) }
    ensures leaves { Leaves D.contents D.rest D.sight derives.old derives.new }
    ensures is { let s = D.sight (D.rest derives.old) in let c = D.contents derives.new in
        IfOk result (IsExpandedIf s.basis.place s.basis.library c row.now enough redex.now
        (tree_at c m) (tree_at c)) }
{
    let zero = derives.level_is_zero(level);
    if zero {
        return Ok(None);
    }
    let x = expand(derives, constructor, levels, m, ty)?;
    Ok(Some(x))
}

/// The same, where the type has as many arguments as the constructor has parameters.
fn by_sort<D: Derives>(
    derives: &mut D,
    row: &Row,
    redex: &Redex,
    constructor: AppliedConstructor,
    levels: u64,
    m: u64,
    ty: u64,
    enough: u128,
) -> Result<Option<u64>, NoMemory>
    requires stated { WellStated (D.sight (D.rest derives.old)).basis.place }
    requires constructor_in { IsKnownConstructor (D.contents derives.old) constructor }
    requires m_in { m < length (D.contents derives.old).trees }
    requires levels_in { levels < length (D.contents derives.old).lists }
    requires ty_in { ty < length (D.contents derives.old).trees }
    requires at { let s = D.sight (D.rest derives.old) in let c = D.contents derives.old in
        IsOfParent s.basis.place s.basis.library c row.now enough redex.now (tree_at c m)
        constructor (tree_at c ty) (list_at c levels) }
    requires count { nat_eq (length (args_of (tree_at (D.contents derives.old) ty)))
        constructor.parameters ≡ true }
    ensures leaves { Leaves D.contents D.rest D.sight derives.old derives.new }
    ensures is { let s = D.sight (D.rest derives.old) in let c = D.contents derives.new in
        IfOk result (IsExpandedIf s.basis.place s.basis.library c row.now enough redex.now
        (tree_at c m) (tree_at c)) }
{
    let sort = typed_form(derives, ty, enough)?;
    let level = level_of(derives, sort);
    match level {
        Some(level) => by_level(
            derives,
            row,
            redex,
            constructor,
            levels,
            m,
            ty,
            level,
            enough,
        ),
        None => unreachable!(),
    }
}

/// The same, where the type is that of the constructor.
fn by_count<D: Derives>(
    derives: &mut D,
    row: &Row,
    redex: &Redex,
    constructor: AppliedConstructor,
    levels: u64,
    m: u64,
    ty: u64,
    enough: u128,
) -> Result<Option<u64>, NoMemory>
    requires stated { WellStated (D.sight (D.rest derives.old)).basis.place }
    requires constructor_in { IsKnownConstructor (D.contents derives.old) constructor }
    requires m_in { m < length (D.contents derives.old).trees }
    requires levels_in { levels < length (D.contents derives.old).lists }
    requires ty_in { ty < length (D.contents derives.old).trees }
    requires at { let s = D.sight (D.rest derives.old) in let c = D.contents derives.old in
        IsOfParent s.basis.place s.basis.library c row.now enough redex.now (tree_at c m)
        constructor (tree_at c ty) (list_at c levels) }
    ensures leaves { Leaves D.contents D.rest D.sight derives.old derives.new }
    ensures is { let s = D.sight (D.rest derives.old) in let c = D.contents derives.new in
        IfOk result (IsExpandedIf s.basis.place s.basis.library c row.now enough redex.now
        (tree_at c m) (tree_at c)) }
{
    let fits = has_arguments(derives, ty, u128::from(constructor.parameters));
    if fits {
        return by_sort(derives, row, redex, constructor, levels, m, ty, enough);
    }
    Ok(None)
}

/// The same, where the constructor builds a structure.
fn by_form<D: Derives>(
    derives: &mut D,
    row: &Row,
    redex: &Redex,
    constructor: AppliedConstructor,
    m: u64,
    enough: u128,
) -> Result<Option<u64>, NoMemory>
    requires stated { WellStated (D.sight (D.rest derives.old)).basis.place }
    requires constructor_in { IsKnownConstructor (D.contents derives.old) constructor }
    requires m_in { m < length (D.contents derives.old).trees }
    requires at { let s = D.sight (D.rest derives.old) in let c = D.contents derives.old in
        IsLikeParent s.basis.place s.basis.library c row.now enough redex.now (tree_at c m)
        constructor }
    ensures leaves { Leaves D.contents D.rest D.sight derives.old derives.new }
    ensures is { let s = D.sight (D.rest derives.old) in let c = D.contents derives.new in
        IfOk result (IsExpandedIf s.basis.place s.basis.library c row.now enough redex.now
        (tree_at c m) (tree_at c)) }
{
    let ty = typed_form(derives, m, enough)?;
    match levels_of_type(derives, constructor.inductive, ty) {
        Some(levels) => by_count(derives, row, redex, constructor, levels, m, ty, enough),
        None => Ok(None),
    }
}

/// The same, where the recursor has this constructor alone.
fn by_parent<D: Derives>(
    derives: &mut D,
    row: &Row,
    redex: &Redex,
    constructor: AppliedConstructor,
    m: u64,
    enough: u128,
) -> Result<Option<u64>, NoMemory>
    requires stated { WellStated (D.sight (D.rest derives.old)).basis.place }
    requires constructor_in { IsKnownConstructor (D.contents derives.old) constructor }
    requires m_in { m < length (D.contents derives.old).trees }
    requires at { let s = D.sight (D.rest derives.old) in let c = D.contents derives.old in
        IsAtParent s.basis.place s.basis.library c row.now enough redex.now (tree_at c m)
        constructor }
    ensures leaves { Leaves D.contents D.rest D.sight derives.old derives.new }
    ensures is { let s = D.sight (D.rest derives.old) in let c = D.contents derives.new in
        IfOk result (IsExpandedIf s.basis.place s.basis.library c row.now enough redex.now
        (tree_at c m) (tree_at c)) }
{
    let structure = structure_of(derives.alloc(), derives.scope(), derives, constructor.entry)?;
    match structure {
        Some(_) => by_form(derives, row, redex, constructor, m, enough),
        None => Ok(None),
    }
}

/// What stands for the major premise and is no constructor is expanded to this, where it is.
pub(crate) fn expansion_of<D: Derives>(
    derives: &mut D,
    row: &Row,
    redex: &Redex,
    m: u64,
    enough: u128,
) -> Result<Option<u64>, NoMemory>
    requires stated { WellStated (D.sight (D.rest derives.old)).basis.place }
    requires m_in { m < length (D.contents derives.old).trees }
    requires headless { let t = tree_at (D.contents derives.old) m in
        app_at (D.sight (D.rest derives.old)).basis.place (head_of t) (args_of t) ≡ None }
    requires at { let s = D.sight (D.rest derives.old) in let c = D.contents derives.old in
        IsUnderWay s.basis.place s.basis.library c row.now enough redex.now (tree_at c m)
        (at_subject (tree_at c m)) 0 }
    ensures leaves { Leaves D.contents D.rest D.sight derives.old derives.new }
    ensures is { let s = D.sight (D.rest derives.old) in let c = D.contents derives.new in
        IfOk result (IsExpandedIf s.basis.place s.basis.library c row.now enough redex.now
        (tree_at c m) (tree_at c)) }
{
    match only_constructor(derives, redex.entry) {
        Some(constructor) => by_parent(derives, row, redex, constructor, m, enough),
        None => Ok(None),
    }
}
