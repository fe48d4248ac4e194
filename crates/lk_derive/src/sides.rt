//! The sides of the laws that are asked of a definition.

ghost use Rattle.std.specs.Prelude.{◌≡◌, ◌<◌, ◌++◌, [], ◌∷◌, length, map, option_map, All, IfSome, IfOk, OnOk};
ghost use Rattle.lk_questions.specs.NumberLaws.{lawful_op};
ghost use Rattle.lk_store.specs.Contents.{Contents, name_at, tree_at, Extends};
ghost use Rattle.lk_env.specs.Units.{body_at, declaration_at, IsBodyIn};
ghost use Rattle.lk_ask.specs.Sheets.{IsKnownPair};
ghost use Rattle.lk_laws.specs.Sides.{law_at};
ghost use Rattle.lk_derive.specs.Units.{law_parts, lawful_parts};
ghost use Rattle.lk_derive.specs.Sides.{definition_value, AreSidesOf, IsDeclarationIn, IsPairOf, AddsPairs};

use lk_ask::sheet::Pair;
use lk_env::unit::{Body, Declaration};
use lk_laws::operation::operation_named;
use lk_laws::sides::make_side;
use lk_laws::table::{Law, laws_of};
use lk_store::memory::NoMemory;
use lk_store::terms::Terms;
use std::alloc::Global;

/// The sides of a law of this value.
fn sides_of<T: Terms>(
    alloc: Global,
    terms: &mut T,
    law: Law,
    value: u64,
) -> Result<Pair<u64>, NoMemory>
    requires { value < length (T.contents terms.old).trees }
    ensures keeps { Extends (T.contents terms.old) (T.contents terms.new) }
    ensures rest { T.rest terms.new ≡ T.rest terms.old }
    ensures sides { IfOk result (IsPairOf (T.contents terms.new)
        (law_at (tree_at (T.contents terms.old) value) law)) }
{
    let left = make_side(alloc, terms, law.left, value)?;
    let right = make_side(alloc, terms, law.right, value)?;
    Ok(Pair { left, right })
}

/// Puts a pair behind the others.
fn push_pair(sides: &mut Vec<Pair<u64>>, pair: Pair<u64>) -> Result<(), NoMemory>
    ensures { OnOk result (sides.new.items ≡ sides.old.items ++ pair ∷ []) }
{
    sides.push(pair)?;
    Ok(())
}

/// Adds the sides of these laws of this value.
fn add_laws<T: Terms>(
    alloc: Global,
    terms: &mut T,
    sides: &mut Vec<Pair<u64>>,
    laws: &[Law],
    value: u64,
) -> Result<(), NoMemory>
    requires pairs_in { All (IsKnownPair (length (T.contents terms.old).trees)) sides.old.items }
    requires value_in { value < length (T.contents terms.old).trees }
    ensures keeps { Extends (T.contents terms.old) (T.contents terms.new) }
    ensures rest { T.rest terms.new ≡ T.rest terms.old }
    ensures adds { let c = T.contents terms.old in OnOk result (AddsPairs c
        (T.contents terms.new) sides.old.items sides.new.items
        (law_parts (map (law_at (tree_at c value)) laws.now))) }
{
    let mut rest = laws;
    'laws: while let Some((law, more)) = rest.split_first() {
        let pair = sides_of(alloc, terms, *law, value)?;
        push_pair(sides, pair)?;
        rest = more;
    }
    Ok(())
}

/// Adds the sides of the laws of a definition of this name and value, where it is named as an operation that has laws.
fn add_lawful<T: Terms>(
    alloc: Global,
    terms: &mut T,
    sides: &mut Vec<Pair<u64>>,
    name: u64,
    value: u64,
) -> Result<(), NoMemory>
    requires pairs_in { All (IsKnownPair (length (T.contents terms.old).trees)) sides.old.items }
    requires name_in { name < length (T.contents terms.old).names }
    requires value_in { value < length (T.contents terms.old).trees }
    ensures keeps { Extends (T.contents terms.old) (T.contents terms.new) }
    ensures rest { T.rest terms.new ≡ T.rest terms.old }
    ensures adds { let c = T.contents terms.old in OnOk result (AddsPairs c
        (T.contents terms.new) sides.old.items sides.new.items
        (lawful_parts (lawful_op (name_at c name)) (tree_at c value))) }
{
    match operation_named(terms, name) {
        Some(op) => add_laws(alloc, terms, sides, laws_of(op), value),
        None => Ok(()),
    }
}

/// The value of a definition; none where the declaration is none.
fn definition_of(declaration: &Declaration) -> Option<u64>
    ensures known { (c : Contents) → IsBodyIn c declaration.now.body
        → IfSome result (λ v. v < length c.trees) }
    ensures value { (c : Contents) → option_map (tree_at c) result
        ≡ definition_value (body_at c declaration.now.body) }
{
    match declaration.body {
        Body::Axiom => None,
        Body::Definition { value, .. } => Some(u64::from(value)),
        Body::Theorem { .. } => None,
        Body::Opaque { .. } => None,
        Body::Quotient => None,
    }
}

/// Adds the sides of the laws that are asked of a declaration.
fn add_declared<T: Terms>(
    alloc: Global,
    terms: &mut T,
    sides: &mut Vec<Pair<u64>>,
    declaration: &Declaration,
) -> Result<(), NoMemory>
    requires none { sides.old.items ≡ [] }
    requires declaration_in { IsDeclarationIn (T.contents terms.old) declaration.now }
    ensures keeps { Extends (T.contents terms.old) (T.contents terms.new) }
    ensures rest { T.rest terms.new ≡ T.rest terms.old }
    ensures adds { let d = T.contents terms.new in OnOk result (AreSidesOf d
        (declaration_at d declaration.now) sides.new.items) }
{
    match definition_of(declaration) {
        Some(value) => add_lawful(alloc, terms, sides, u64::from(declaration.name), value),
        None => Ok(()),
    }
}

/// The sides of the laws that are asked of a declaration, in pairs: none but for a definition that is named as an
/// operation on numbers that has laws.
pub fn sides_of_laws<T: Terms>(
    alloc: Global,
    terms: &mut T,
    declaration: &Declaration,
) -> Result<Vec<Pair<u64>>, NoMemory>
    requires { IsDeclarationIn (T.contents terms.old) declaration.now }
    ensures keeps { Extends (T.contents terms.old) (T.contents terms.new) }
    ensures rest { T.rest terms.new ≡ T.rest terms.old }
    ensures sides { let d = T.contents terms.new in IfOk result (λ v.
        AreSidesOf d (declaration_at d declaration.now) v.items) }
{
    let mut sides = Vec::new(alloc);
    add_declared(alloc, terms, &mut sides, declaration)?;
    Ok(sides)
}
