//! A major premise that is taken for a constructor because of its type, where the recursor has K.

ghost use Rattle.std.specs.Prelude.{◌≡◌, ◌<◌, true, length, IfOk};
ghost use Rattle.lk_tree.specs.Tree.{const};
ghost use Rattle.lk_store.specs.Contents.{name_at, list_at, tree_at};
ghost use Rattle.lk_constructor.specs.Applied.{IsKnownConstructor};
ghost use Rattle.lk_step.specs.Told.{Leaves};
ghost use Rattle.lk_derive_iota.specs.Stages.{starts, IsUnderWay};
ghost use Rattle.lk_derive_iota.specs.Taken.{IsTakenIf, IsAtOnly, IsAtType, IsAtCandidate};
ghost use Rattle.lk_derive_iota.specs.Taken.{IsCompared, IsComparedWithin, IsMadeIf};

use crate::asking::typed_form;
use crate::redexes::Redex;
use crate::rules::only_constructor;
use lk_ask::looks::Looks;
use lk_constructor::{AppliedConstructor, levels_of_type};
use lk_spine::{apply, args};
use lk_step::derives::{are_same, type_of};
use lk_step::{Derives, Row};
use lk_store::memory::NoMemory;
use lk_store::node::Node;

/// The constructor at these levels and at the parameters of a type, which is to have as many arguments.
fn at_parameters<L: Looks>(
    looks: &mut L,
    constructor: AppliedConstructor,
    levels: u64,
    ty: u64,
) -> Result<Option<u64>, NoMemory>
    requires constructor_in { IsKnownConstructor (L.contents looks.old) constructor }
    requires levels_in { levels < length (L.contents looks.old).lists }
    requires ty_in { ty < length (L.contents looks.old).trees }
    ensures leaves { Leaves L.contents L.rest L.sight looks.old looks.new }
    ensures is { let c = L.contents looks.old in IfOk result (IsMadeIf (L.contents looks.new)
        (const (name_at c constructor.name) (list_at c levels)) constructor.parameters
        (tree_at c ty)) }
{
    let arguments = args(looks.alloc(), looks, ty)?;
    if u128::from(constructor.parameters) > arguments.len() as u128 {
        return Ok(None);
    }
    let front = looks.make(Node::Const(constructor.name, levels))?;
    let parameters = &arguments[..constructor.parameters as usize];
    let candidate = apply(looks, front, parameters)?;
    Ok(Some(candidate))
}

/// Whether a term is of a type.
fn is_of_type<D: Derives>(derives: &mut D, d: u64, ty: u64, enough: u128) -> Result<bool, NoMemory>
    requires d_in { d < length (D.contents derives.old).trees }
    requires ty_in { ty < length (D.contents derives.old).trees }
    requires compared { let t = tree_at (D.contents derives.old) in
        IsComparedWithin (D.sight (D.rest derives.old)).basis.place (t d) (t ty) enough }
    ensures leaves { Leaves D.contents D.rest D.sight derives.old derives.new }
    ensures told { let t = tree_at (D.contents derives.old) in
        IfOk result (IsCompared (D.sight (D.rest derives.old)).basis.place (t d) (t ty)) }
{
    let own = type_of(derives, d, enough)?;
    let y = are_same(derives, ty, own, enough)?;
    Ok(y)
}

/// K takes the major premise for a candidate where that is of this type.
fn by_candidate<D: Derives>(
    derives: &mut D,
    row: &Row,
    redex: &Redex,
    d: u64,
    ty: u64,
    enough: u128,
) -> Result<Option<u64>, NoMemory>
    requires d_in { d < length (D.contents derives.old).trees }
    requires ty_in { ty < length (D.contents derives.old).trees }
    requires at { let s = D.sight (D.rest derives.old) in let c = D.contents derives.old in
        IsAtCandidate s.basis.place s.basis.library c row.now enough redex.now
        (tree_at c redex.now.major) (tree_at c ty) (tree_at c d) }
    ensures leaves { Leaves D.contents D.rest D.sight derives.old derives.new }
    ensures is { let s = D.sight (D.rest derives.old) in let c = D.contents derives.new in
        IfOk result (IsTakenIf s.basis.place s.basis.library c row.now enough redex.now
        (tree_at c redex.now.major) (tree_at c)) }
{
    let same = is_of_type(derives, d, ty, enough)?;
    if same {
        return Ok(Some(d));
    }
    Ok(None)
}

/// The same, where the major premise is of this type, of the only constructor's, at these levels.
fn by_levels<D: Derives>(
    derives: &mut D,
    row: &Row,
    redex: &Redex,
    constructor: AppliedConstructor,
    levels: u64,
    ty: u64,
    enough: u128,
) -> Result<Option<u64>, NoMemory>
    requires constructor_in { IsKnownConstructor (D.contents derives.old) constructor }
    requires levels_in { levels < length (D.contents derives.old).lists }
    requires ty_in { ty < length (D.contents derives.old).trees }
    requires at { let s = D.sight (D.rest derives.old) in let c = D.contents derives.old in
        IsAtType s.basis.place s.basis.library c row.now enough redex.now
        (tree_at c redex.now.major) constructor (tree_at c ty) (list_at c levels) }
    ensures leaves { Leaves D.contents D.rest D.sight derives.old derives.new }
    ensures is { let s = D.sight (D.rest derives.old) in let c = D.contents derives.new in
        IfOk result (IsTakenIf s.basis.place s.basis.library c row.now enough redex.now
        (tree_at c redex.now.major) (tree_at c)) }
{
    let made = at_parameters(derives, constructor, levels, ty)?;
    match made {
        Some(d) => by_candidate(derives, row, redex, d, ty, enough),
        None => Ok(None),
    }
}

/// The same, where the recursor has K and this constructor alone.
fn by_type<D: Derives>(
    derives: &mut D,
    row: &Row,
    redex: &Redex,
    constructor: AppliedConstructor,
    enough: u128,
) -> Result<Option<u64>, NoMemory>
    requires constructor_in { IsKnownConstructor (D.contents derives.old) constructor }
    requires at { let s = D.sight (D.rest derives.old) in let c = D.contents derives.old in
        IsAtOnly s.basis.place s.basis.library c row.now enough redex.now
        (tree_at c redex.now.major) constructor }
    ensures leaves { Leaves D.contents D.rest D.sight derives.old derives.new }
    ensures is { let s = D.sight (D.rest derives.old) in let c = D.contents derives.new in
        IfOk result (IsTakenIf s.basis.place s.basis.library c row.now enough redex.now
        (tree_at c redex.now.major) (tree_at c)) }
{
    let ty = typed_form(derives, redex.major, enough)?;
    match levels_of_type(derives, constructor.inductive, ty) {
        Some(levels) => by_levels(derives, row, redex, constructor, levels, ty, enough),
        None => Ok(None),
    }
}

/// The same, where the recursor has K.
fn by_only<D: Derives>(
    derives: &mut D,
    row: &Row,
    redex: &Redex,
    enough: u128,
) -> Result<Option<u64>, NoMemory>
    requires has_k { redex.now.k ≡ true }
    requires at { let s = D.sight (D.rest derives.old) in let c = D.contents derives.old in
        IsUnderWay s.basis.place s.basis.library c row.now enough redex.now
        (tree_at c redex.now.major) starts 0 }
    ensures leaves { Leaves D.contents D.rest D.sight derives.old derives.new }
    ensures is { let s = D.sight (D.rest derives.old) in let c = D.contents derives.new in
        IfOk result (IsTakenIf s.basis.place s.basis.library c row.now enough redex.now
        (tree_at c redex.now.major) (tree_at c)) }
{
    match only_constructor(derives, redex.entry) {
        Some(constructor) => by_type(derives, row, redex, constructor, enough),
        None => Ok(None),
    }
}

/// What K takes the major premise for, where it does.
pub(crate) fn candidate_of<D: Derives>(
    derives: &mut D,
    row: &Row,
    redex: &Redex,
    enough: u128,
) -> Result<Option<u64>, NoMemory>
    requires at { let s = D.sight (D.rest derives.old) in let c = D.contents derives.old in
        IsUnderWay s.basis.place s.basis.library c row.now enough redex.now
        (tree_at c redex.now.major) starts 0 }
    ensures leaves { Leaves D.contents D.rest D.sight derives.old derives.new }
    ensures is { let s = D.sight (D.rest derives.old) in let c = D.contents derives.new in
        IfOk result (IsTakenIf s.basis.place s.basis.library c row.now enough redex.now
        (tree_at c redex.now.major) (tree_at c)) }
{
    let has_k = redex.k;
    if has_k {
        return by_only(derives, row, redex, enough);
    }
    Ok(None)
}
