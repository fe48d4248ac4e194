//! The section of a declaration that is answered yes.

ghost use Rattle.std.specs.Prelude.{◌≡◌, ◌<◌, List, length, option_map, map, IfSome, IfOk, OnOk};
ghost use Rattle.lk_rulebook.specs.Claims.{Claim as PlainClaim};
ghost use Rattle.lk_store.specs.Contents.{Contents, tree_at};
ghost use Rattle.lk_env.specs.Units.{body_at, declaration_at, IsBodyIn};
ghost use Rattle.lk_step.specs.Pairs.{pairs_at};
ghost use Rattle.lk_derive.specs.Sections.{IsSectionOf};
ghost use Rattle.lk_derive.specs.Stages.{Stays};
ghost use Rattle.lk_derive.specs.Units.{HasParts, parts_of, IsYes, IsUnitSection};
ghost use Rattle.lk_derive.specs.Parts.{parts_at, AreParts, AddsParts};
ghost use Rattle.lk_derive.specs.Sides.{body_value, pair_parts, AreSidesOf, AreSidesDue, AreValueParts, IsAnyDue, IsDeclarationIn, IsUnitDue};

use crate::derivation::Derivation;
use crate::parts::{Parts, add_equal, add_sort, add_value};
use crate::rows::Rows;
use crate::section::section_of_parts;
use lk_ask::sheet::Pair;
use lk_env::unit::{Body, Declaration};
use lk_store::memory::NoMemory;
use lk_trace::Section;
use std::alloc::Global;
use std::mem::drop;

/// The value of a declaration, if it has one.
fn value_of(declaration: &Declaration) -> Option<u64>
    ensures known { (c : Contents) → IsBodyIn c declaration.now.body
        → IfSome result (λ v. v < length c.trees) }
    ensures value { (c : Contents) → option_map (tree_at c) result
        ≡ body_value (body_at c declaration.now.body) }
{
    match declaration.body {
        Body::Axiom => None,
        Body::Definition { value, .. } => Some(u64::from(value)),
        Body::Theorem { proof } => Some(u64::from(proof)),
        Body::Opaque { value } => Some(u64::from(value)),
        Body::Quotient => None,
    }
}

/// Adds that the value is of a type, where there is one.
fn add_any_value<R: Rows>(
    alloc: Global,
    rows: &mut R,
    parts: &mut Parts,
    value: Option<u64>,
    ty: u64,
) -> Result<(), NoMemory>
    requires { IsAnyDue R.contents R.place R.most rows.old parts.old value ty }
    ensures stays { Stays R.contents R.place R.most rows.old rows.new }
    ensures rest { R.rest rows.new ≡ R.rest rows.old }
    ensures adds { let t = tree_at (R.contents rows.old) in (cs : List PlainClaim)
        → AreValueParts (R.place rows.old) (R.most rows.old) (option_map t value) (t ty) cs
        → OnOk result (AddsParts (R.place rows.old) (R.contents rows.old) (R.contents rows.new)
        parts.old parts.new cs) }
{
    match value {
        Some(value) => add_value(alloc, rows, parts, value, ty),
        None => Ok(()),
    }
}

/// Adds that the two of each pair are equal.
fn add_sides<R: Rows>(
    alloc: Global,
    rows: &mut R,
    parts: &mut Parts,
    sides: &[Pair<u64>],
) -> Result<(), NoMemory>
    requires { AreSidesDue R.contents R.place R.most rows.old parts.old sides.now }
    ensures stays { Stays R.contents R.place R.most rows.old rows.new }
    ensures rest { R.rest rows.new ≡ R.rest rows.old }
    ensures adds { OnOk result (AddsParts (R.place rows.old) (R.contents rows.old)
        (R.contents rows.new) parts.old parts.new
        (pair_parts (pairs_at (R.contents rows.old) sides.now))) }
{
    let mut rest = sides;
    'sides: while let Some((side, more)) = rest.split_first() {
        add_equal(alloc, rows, parts, side.left, side.right)?;
        rest = more;
    }
    Ok(())
}

/// Adds the parts of a declaration, the sides of whose laws are these.
fn add_parts<R: Rows>(
    alloc: Global,
    rows: &mut R,
    parts: &mut Parts,
    declaration: &Declaration,
    sides: &[Pair<u64>],
) -> Result<(), NoMemory>
    requires { IsUnitDue R.contents R.place R.most rows.old parts.old declaration.now sides.now }
    ensures stays { Stays R.contents R.place R.most rows.old rows.new }
    ensures rest { R.rest rows.new ≡ R.rest rows.old }
    ensures adds { let d = declaration_at (R.contents rows.old) declaration.now in
        (h : HasParts (R.place rows.old) (R.most rows.old) d)
        → OnOk result (AddsParts (R.place rows.old) (R.contents rows.old) (R.contents rows.new)
        parts.old parts.new (parts_of (R.place rows.old) (R.most rows.old) d h)) }
{
    let ty = u64::from(declaration.ty);
    add_sort(alloc, rows, parts, ty)?;
    add_any_value(alloc, rows, parts, value_of(declaration), ty)?;
    add_sides(alloc, rows, parts, sides)
}

/// The section of a unit of this number, whose last line rests on these parts.
fn end_with<R: Rows>(alloc: Global, rows: &R, parts: Parts, unit: u32) -> Result<Section, NoMemory>
    requires { AreParts (R.place rows.now) (R.contents rows.now) parts }
    ensures { IfOk result (IsSectionOf (R.place rows.now) (R.contents rows.now) unit
        (parts_at (R.contents rows.now) parts)) }
{
    let Parts { derivation, claims } = parts;
    let Derivation { notes, derived } = derivation;
    drop(derived);
    section_of_parts(alloc, rows, notes, unit, &claims)
}

/// The section of a declaration that is answered yes, of a unit of this number. The pairs are the sides of the laws
/// that are asked of it: none but for a definition that is named as an operation on numbers (`sides_of_laws`).
pub fn section_of_unit<R: Rows>(
    alloc: Global,
    rows: &mut R,
    declaration: &Declaration,
    sides: &[Pair<u64>],
    unit: u32,
) -> Result<Section, NoMemory>
    requires declaration_in { IsDeclarationIn (R.contents rows.old) declaration.now }
    requires yes { IsYes (R.place rows.old) (R.most rows.old)
        (declaration_at (R.contents rows.old) declaration.now) }
    requires sides { AreSidesOf (R.contents rows.old)
        (declaration_at (R.contents rows.old) declaration.now) sides.now }
    ensures stays { Stays R.contents R.place R.most rows.old rows.new }
    ensures rest { R.rest rows.new ≡ R.rest rows.old }
    ensures section { IfOk result (IsUnitSection (R.place rows.old) (R.contents rows.new) unit
        (declaration_at (R.contents rows.old) declaration.now)) }
{
    let mut parts = Parts::new(alloc);
    add_parts(alloc, rows, &mut parts, declaration, sides)?;
    end_with(alloc, rows, parts, unit)
}
