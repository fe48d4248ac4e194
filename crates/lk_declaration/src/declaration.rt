//! The questions of a declaration: its type has a sort, and its value is of that type.

ghost use Rattle.std.specs.Prelude.{◌≡◌, ◌<◌, length};
ghost use Rattle.lk_rulebook.specs.Units.{Decl, as_axiom, as_thm, as_opaque};
ghost use Rattle.lk_questions.specs.Declarations.{checked, unit_steps, value_steps};
ghost use Rattle.lk_store.specs.Contents.{tree_at, Extends};
ghost use Rattle.lk_declaration.specs.Asked.{agreeing_steps, typed_steps};
ghost use Rattle.lk_declaration.specs.Courses.{ComesTo};

use crate::asking::{are_same, sort_of, type_of};
use lk_ask::asks::Asks;
use lk_ask::stop::Stop;
use lk_tree::rule::Rule;

/// That the type found for a value is the one that is stated (`ValueType`).
fn check_agrees<A: Asks>(asks: &mut A, found: u64, ty: u64) -> Result<(), Stop>
    requires found_in { found < length (A.contents asks.old).trees }
    requires ty_in { ty < length (A.contents asks.old).trees }
    ensures keeps { Extends (A.contents asks.old) (A.contents asks.new) }
    ensures stays { A.standing asks.new ≡ A.standing asks.old }
    ensures outcome { ComesTo (A.standing asks.old)
        (agreeing_steps (tree_at (A.contents asks.old) ty) (tree_at (A.contents asks.old) found))
        (A.left asks.old) (λ u. checked) (A.left asks.new) result }
{
    if are_same(asks, found, ty)? {
        Ok(())
    } else {
        Err(Stop::No(Rule::ValueType))
    }
}

/// That the value is of the type (`ValueType`).
pub fn check_value<A: Asks>(asks: &mut A, ty: u64, value: u64) -> Result<(), Stop>
    requires ty_in { ty < length (A.contents asks.old).trees }
    requires value_in { value < length (A.contents asks.old).trees }
    ensures keeps { Extends (A.contents asks.old) (A.contents asks.new) }
    ensures stays { A.standing asks.new ≡ A.standing asks.old }
    ensures outcome { ComesTo (A.standing asks.old)
        (value_steps (tree_at (A.contents asks.old) ty) (tree_at (A.contents asks.old) value))
        (A.left asks.old) (λ u. checked) (A.left asks.new) result }
{
    let found = type_of(asks, value)?;
    check_agrees(asks, found, ty)
}

/// Asks the question of an axiom: its type has a sort (`NotASort`).
pub fn check_axiom<A: Asks>(asks: &mut A, ty: u64) -> Result<(), Stop>
    requires { ty < length (A.contents asks.old).trees }
    ensures stays { A.standing asks.new ≡ A.standing asks.old }
    ensures outcome { (d : Decl) → d.type ≡ tree_at (A.contents asks.old) ty
        → d.body ≡ as_axiom → ComesTo (A.standing asks.old) (unit_steps d)
        (A.left asks.old) (λ u. checked) (A.left asks.new) result }
{
    sort_of(asks, ty)?;
    Ok(())
}

/// Asks for the sort of a type, and whether a value is of that type.
fn check_typed<A: Asks>(asks: &mut A, ty: u64, value: u64) -> Result<(), Stop>
    requires ty_in { ty < length (A.contents asks.old).trees }
    requires value_in { value < length (A.contents asks.old).trees }
    ensures stays { A.standing asks.new ≡ A.standing asks.old }
    ensures outcome { ComesTo (A.standing asks.old)
        (typed_steps (tree_at (A.contents asks.old) ty) (tree_at (A.contents asks.old) value))
        (A.left asks.old) (λ u. checked) (A.left asks.new) result }
{
    sort_of(asks, ty)?;
    check_value(asks, ty, value)
}

/// Asks the questions of an opaque: its type has a sort (`NotASort`), and its value is of that type
/// (`ValueType`).
pub fn check_opaque<A: Asks>(asks: &mut A, ty: u64, value: u64) -> Result<(), Stop>
    requires ty_in { ty < length (A.contents asks.old).trees }
    requires value_in { value < length (A.contents asks.old).trees }
    ensures stays { A.standing asks.new ≡ A.standing asks.old }
    ensures outcome { (d : Decl) → d.type ≡ tree_at (A.contents asks.old) ty
        → d.body ≡ as_opaque (tree_at (A.contents asks.old) value)
        → ComesTo (A.standing asks.old) (unit_steps d)
        (A.left asks.old) (λ u. checked) (A.left asks.new) result }
{
    check_typed(asks, ty, value)
}

/// Asks the questions of a theorem: its type has a sort (`NotASort`), which is 0 (`TheoremNotProp`),
/// and its proof is of that type (`ValueType`).
pub fn check_theorem<A: Asks>(asks: &mut A, ty: u64, proof: u64) -> Result<(), Stop>
    requires ty_in { ty < length (A.contents asks.old).trees }
    requires proof_in { proof < length (A.contents asks.old).trees }
    ensures stays { A.standing asks.new ≡ A.standing asks.old }
    ensures outcome { (d : Decl) → d.type ≡ tree_at (A.contents asks.old) ty
        → d.body ≡ as_thm (tree_at (A.contents asks.old) proof)
        → ComesTo (A.standing asks.old) (unit_steps d)
        (A.left asks.old) (λ u. checked) (A.left asks.new) result }
{
    let level = sort_of(asks, ty)?;
    if asks.level_is_zero(level) {
        check_value(asks, ty, proof)
    } else {
        Err(Stop::No(Rule::TheoremNotProp))
    }
}
