//! The questions of a definition: its type has a sort, its value is of that type, and where it is named as an operation on
//! numbers with laws, its value meets them.

ghost use Rattle.std.specs.Prelude.{◌≡◌, ◌<◌, List, length, map, option_map};
ghost use Rattle.lk_tree.specs.Tree.{Name, Tree};
ghost use Rattle.lk_rulebook.specs.Place.{Hint};
ghost use Rattle.lk_rulebook.specs.Units.{Decl, as_def};
ghost use Rattle.lk_questions.specs.Declarations.{checked, unit_steps};
ghost use Rattle.lk_store.specs.Contents.{name_at, tree_at};
ghost use Rattle.lk_declaration.specs.Courses.{ComesTo};
ghost use Rattle.lk_laws.specs.Operations.{op_at};
ghost use Rattle.lk_laws.specs.Steps.{lawful_steps, valued_steps};

use crate::asking::check_operation;
use crate::needs::Laws;
use crate::operation::{LawfulOp, operation_named};
use lk_ask::stop::Stop;
use lk_declaration::asking::sort_of;
use lk_declaration::declaration::check_value;
use std::alloc::Global;

/// The laws of an operation, if it is one.
fn check_lawful<A: Laws>(
    alloc: Global,
    asks: &mut A,
    op: Option<LawfulOp>,
    levels: &[u64],
    value: u64,
) -> Result<(), Stop>
    requires { value < length (A.contents asks.old).trees }
    ensures stays { A.standing asks.new ≡ A.standing asks.old }
    ensures outcome { (ps : List Name) (v : Tree) → length ps ≡ length levels.now
        → tree_at (A.contents asks.old) value ≡ v
        → ComesTo (A.standing asks.old) (lawful_steps (option_map op_at op) ps v)
        (A.left asks.old) (λ u. checked) (A.left asks.new) result }
{
    match op {
        Some(op) => check_operation(alloc, asks, op, levels, value),
        None => Ok(()),
    }
}

/// The same, behind the question whether the value is of the type.
fn check_valued<A: Laws>(
    alloc: Global,
    asks: &mut A,
    op: Option<LawfulOp>,
    levels: &[u64],
    ty: u64,
    value: u64,
) -> Result<(), Stop>
    requires ty_in { ty < length (A.contents asks.old).trees }
    requires value_in { value < length (A.contents asks.old).trees }
    ensures stays { A.standing asks.new ≡ A.standing asks.old }
    ensures outcome { (ps : List Name) (type v : Tree) → length ps ≡ length levels.now
        → tree_at (A.contents asks.old) ty ≡ type → tree_at (A.contents asks.old) value ≡ v
        → ComesTo (A.standing asks.old) (valued_steps (option_map op_at op) ps type v)
        (A.left asks.old) (λ u. checked) (A.left asks.new) result }
{
    check_value(asks, ty, value)?;
    check_lawful(alloc, asks, op, levels, value)
}

/// Asks the questions of a definition with this name and these level parameters: its type has a sort (`NotASort`), its value
/// is of that type (`ValueType`), and meets the laws of the operation that it is named as, if it is (`NatLaw`, and the rules
/// by which what they rest on is refused). Its hint is not looked at.
pub fn check_definition<A: Laws>(
    alloc: Global,
    asks: &mut A,
    name: u64,
    levels: &[u64],
    ty: u64,
    value: u64,
) -> Result<(), Stop>
    requires name_in { name < length (A.contents asks.old).names }
    requires ty_in { ty < length (A.contents asks.old).trees }
    requires value_in { value < length (A.contents asks.old).trees }
    ensures stays { A.standing asks.new ≡ A.standing asks.old }
    ensures outcome { (d : Decl) (h : Hint) → d.name ≡ name_at (A.contents asks.old) name
        → d.levels ≡ map (name_at (A.contents asks.old)) levels.now
        → d.type ≡ tree_at (A.contents asks.old) ty
        → d.body ≡ as_def h (tree_at (A.contents asks.old) value)
        → ComesTo (A.standing asks.old) (unit_steps d)
        (A.left asks.old) (λ u. checked) (A.left asks.new) result }
{
    let op = operation_named(asks, name);
    sort_of(asks, ty)?;
    check_valued(alloc, asks, op, levels, ty, value)
}
