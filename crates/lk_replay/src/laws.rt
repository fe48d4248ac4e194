//! The laws of an operation on numbers, as the premises of the section of its definition state them.

ghost use Rattle.std.specs.Prelude.{◌≡◌, ◌<◌, length, map, option_map, IfOk};
ghost use Rattle.lk_questions.specs.Tests.{found};
ghost use Rattle.lk_questions.specs.NumberLaws.{def_given, held_given, lawful_op};
ghost use Rattle.lk_rulebook.specs.NumberLaws.{stated_by as plain_stated_by};
ghost use Rattle.lk_written.specs.Section as section;
ghost use Rattle.lk_written.specs.Premises as premises;
ghost use Rattle.lk_store.specs.Contents.{tree_at, Extends};
ghost use Rattle.lk_env.specs.Units.{declaration_at};
ghost use Rattle.lk_laws.specs.Needs.{needed_steps};
ghost use Rattle.lk_laws.specs.Sides.{law_at};
ghost use Rattle.lk_laws.specs.Operations.{constant_name, op_at};
ghost use Rattle.lk_premises.specs.Claims.{claims_at, AreClaimsIn};
ghost use Rattle.lk_premises.specs.Testing.{Tests};
ghost use Rattle.lk_replay.specs.Bodies.{IsDeclarationIn};
ghost use Rattle.lk_replay.specs.Laws.{law_read, op_test, counted_test, stated_test};

use lk_ask::looks::Looks;
use lk_env::unit::Declaration;
use lk_laws::constant::Constant;
use lk_laws::operation::{LawfulOp, operation_named, stated_by};
use lk_laws::sides::make_side;
use lk_laws::table::{Law, laws_of};
use lk_laws::{Needed, look_needed};
use lk_premises::{Claim, ended, equal};
use lk_store::memory::NoMemory;

/// Whether what laws rest on is so.
#[tactic(auto, using(lk_premises::proofs::Settled::settled_found, lk_premises::proofs::Settled::failed_found))]
fn has<L: Looks>(looks: &mut L, needed: Needed) -> Result<bool, NoMemory>
    ensures { Tests L.contents (λ s. (L.sight (L.rest s)).basis) looks.old looks.new result
        (found (L.sight (L.rest looks.old)).basis.place (needed_steps needed)) }
{
    match look_needed(looks, needed)? {
        Ok(()) => Ok(true),
        Err(_) => Ok(false),
    }
}

/// Whether the name that a law holds is given.
fn has_held<L: Looks>(looks: &mut L, holds: Option<Constant>) -> Result<bool, NoMemory>
    ensures { Tests L.contents (λ s. (L.sight (L.rest s)).basis) looks.old looks.new result
        (found (L.sight (L.rest looks.old)).basis.place
        (held_given (option_map constant_name holds))) }
{
    match holds {
        Some(constant) => has(looks, Needed::Given(constant)),
        None => Ok(true),
    }
}

/// Whether a definition gives the operation by which the laws of another one are stated.
fn has_stated<L: Looks>(looks: &mut L, op: LawfulOp) -> Result<bool, NoMemory>
    ensures { Tests L.contents (λ s. (L.sight (L.rest s)).basis) looks.old looks.new result
        (found (L.sight (L.rest looks.old)).basis.place
        (def_given (plain_stated_by (op_at op)))) }
{
    match stated_by(op) {
        Some(base) => has(looks, Needed::Definition(base)),
        None => Ok(true),
    }
}

/// The premises after the one by which both sides of a law are equal, of this value.
fn after_sides<'a, L: Looks>(
    looks: &mut L,
    claims: &[Claim],
    left: &'a [u32],
    law: Law,
    value: u64,
) -> Result<Option<&'a [u32]>, NoMemory>
    requires claims_in { AreClaimsIn (L.contents looks.old) claims.now }
    requires value_in { value < length (L.contents looks.old).trees }
    ensures keeps { Extends (L.contents looks.old) (L.contents looks.new) }
    ensures stays { L.rest looks.new ≡ L.rest looks.old }
    ensures read { let c = L.contents looks.old in let p = law_at (tree_at c value) law in
        IfOk result (λ o. premises.equal (claims_at c claims.now) left.now p.left p.right
        ≡ option_map (λ r. r.now) o) }
{
    let first = make_side(looks.alloc(), looks, law.left, value)?;
    let second = make_side(looks.alloc(), looks, law.right, value)?;
    Ok(equal(looks, claims, left, first, second))
}

/// The same, where the name that the law holds is given.
fn after_law<'a, L: Looks>(
    looks: &mut L,
    claims: &[Claim],
    left: &'a [u32],
    law: Law,
    value: u64,
) -> Result<Option<&'a [u32]>, NoMemory>
    requires claims_in { AreClaimsIn (L.contents looks.old) claims.now }
    requires value_in { value < length (L.contents looks.old).trees }
    ensures keeps { Extends (L.contents looks.old) (L.contents looks.new) }
    ensures stays { (L.sight (L.rest looks.new)).basis ≡ (L.sight (L.rest looks.old)).basis }
    ensures read { let c = L.contents looks.old in IfOk result (λ o.
        law_read (L.sight (L.rest looks.old)).basis.place (claims_at c claims.now) left.now
        (law_at (tree_at c value) law) ≡ option_map (λ r. r.now) o) }
{
    if !has_held(looks, law.holds)? {
        return Ok(None);
    }
    after_sides(looks, claims, left, law, value)
}

/// Whether the premises say of each law that its sides are equal, and none is left.
fn test_each<L: Looks>(
    looks: &mut L,
    claims: &[Claim],
    left: &[u32],
    laws: &[Law],
    value: u64,
) -> Result<bool, NoMemory>
    requires claims_in { AreClaimsIn (L.contents looks.old) claims.now }
    requires value_in { value < length (L.contents looks.old).trees }
    ensures { let c = L.contents looks.old in
        Tests L.contents (λ s. (L.sight (L.rest s)).basis) looks.old looks.new result
        (section.laws_read (L.sight (L.rest looks.old)).basis.place (claims_at c claims.now)
        left.now (map (law_at (tree_at c value)) laws.now)) }
{
    let mut premises = left;
    let mut rest = laws;
    'laws: while let Some((law, more)) = rest.split_first() {
        match after_law(looks, claims, premises, *law, value)? {
            Some(after) => {
                premises = after;
                rest = more;
            }
            None => return Ok(false),
        }
    }
    Ok(ended(premises))
}

/// The laws of an operation: a definition gives the operation by which they are stated, if there is one, and each holds.
fn test_stated<L: Looks>(
    looks: &mut L,
    claims: &[Claim],
    left: &[u32],
    op: LawfulOp,
    value: u64,
) -> Result<bool, NoMemory>
    requires claims_in { AreClaimsIn (L.contents looks.old) claims.now }
    requires value_in { value < length (L.contents looks.old).trees }
    ensures { let c = L.contents looks.old in
        Tests L.contents (λ s. (L.sight (L.rest s)).basis) looks.old looks.new result
        (stated_test (L.sight (L.rest looks.old)).basis.place (claims_at c claims.now) left.now
        (op_at op) (tree_at c value)) }
{
    if !has_stated(looks, op)? {
        return Ok(false);
    }
    test_each(looks, claims, left, laws_of(op), value)
}

/// The same of a definition with these level parameters, of which there may be none.
fn test_counted<L: Looks>(
    looks: &mut L,
    claims: &[Claim],
    left: &[u32],
    op: LawfulOp,
    levels: &[u64],
    value: u64,
) -> Result<bool, NoMemory>
    requires claims_in { AreClaimsIn (L.contents looks.old) claims.now }
    requires value_in { value < length (L.contents looks.old).trees }
    ensures { let c = L.contents looks.old in
        Tests L.contents (λ s. (L.sight (L.rest s)).basis) looks.old looks.new result
        (counted_test (L.sight (L.rest looks.old)).basis.place (claims_at c claims.now) left.now
        (op_at op) (length levels.now) (tree_at c value)) }
{
    if levels.is_empty() {
        test_stated(looks, claims, left, op, value)
    } else {
        Ok(false)
    }
}

/// What is due of a definition that is named as an operation with laws.
fn test_operation<L: Looks>(
    looks: &mut L,
    claims: &[Claim],
    left: &[u32],
    op: LawfulOp,
    levels: &[u64],
    value: u64,
) -> Result<bool, NoMemory>
    requires claims_in { AreClaimsIn (L.contents looks.old) claims.now }
    requires value_in { value < length (L.contents looks.old).trees }
    ensures { let c = L.contents looks.old in
        Tests L.contents (λ s. (L.sight (L.rest s)).basis) looks.old looks.new result
        (op_test (L.sight (L.rest looks.old)).basis.place (claims_at c claims.now) left.now
        (op_at op) (length levels.now) (tree_at c value)) }
{
    if !has(looks, Needed::NatShape)? {
        return Ok(false);
    }
    test_counted(looks, claims, left, op, levels, value)
}

/// The laws of a definition of this value, where it is named as an operation that has laws; and no premise is left.
pub(crate) fn test_laws<L: Looks>(
    looks: &mut L,
    claims: &[Claim],
    left: &[u32],
    declaration: &Declaration,
    value: u64,
) -> Result<bool, NoMemory>
    requires claims_in { AreClaimsIn (L.contents looks.old) claims.now }
    requires declaration_in { IsDeclarationIn (L.contents looks.old) declaration.now }
    requires value_in { value < length (L.contents looks.old).trees }
    ensures { let c = L.contents looks.old in let d = declaration_at c declaration.now in
        Tests L.contents (λ s. (L.sight (L.rest s)).basis) looks.old looks.new result
        (section.laws_test (L.sight (L.rest looks.old)).basis.place (claims_at c claims.now)
        left.now (lawful_op d.name) d.levels (tree_at c value)) }
{
    match operation_named(looks, u64::from(declaration.name)) {
        Some(op) => test_operation(looks, claims, left, op, &declaration.levels, value),
        None => Ok(ended(left)),
    }
}
