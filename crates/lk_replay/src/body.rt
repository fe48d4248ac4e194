//! The parts of a good unit: what the line that ends a section names.

ghost use Rattle.std.specs.Prelude.{◌≡◌, ◌<◌, length, option_map};
ghost use Rattle.lk_questions.specs.Tests.{passes};
ghost use Rattle.lk_written.specs.Section as section;
ghost use Rattle.lk_store.specs.Contents.{level_at, tree_at};
ghost use Rattle.lk_env.specs.Units.{declaration_at};
ghost use Rattle.lk_premises.specs.Claims.{claims_at, AreClaimsIn};
ghost use Rattle.lk_premises.specs.Testing.{Tests};
ghost use Rattle.lk_replay.specs.Bodies.{IsDeclarationIn, quotient_test, definition_test, proof_test};

use crate::laws::test_laws;
use lk_ask::looks::Looks;
use lk_env::unit::{Body, Declaration};
use lk_premises::{Claim, ended, equal, sorted, typed};
use lk_quot::units::check;
use lk_store::memory::NoMemory;
use lk_store::terms::Terms;

/// The premises after those by which a value is of a type.
fn value_read<'a, T: Terms>(
    terms: &T,
    claims: &[Claim],
    left: &'a [u32],
    ty: u64,
    value: u64,
) -> Option<&'a [u32]>
    requires claims_in { AreClaimsIn (T.contents terms.now) claims.now }
    requires ty_in { ty < length (T.contents terms.now).trees }
    requires value_in { value < length (T.contents terms.now).trees }
    ensures { let c = T.contents terms.now in
        section.value_read (claims_at c claims.now) left.now (tree_at c ty) (tree_at c value)
        ≡ option_map (λ r. r.now) result }
{
    let own = typed(terms, claims, left, value)?;
    equal(terms, claims, own.after, own.tree, ty)
}

/// Whether a value is of a type, and no premise is left.
fn is_value<T: Terms>(terms: &T, claims: &[Claim], left: &[u32], ty: u64, value: u64) -> bool
    requires claims_in { AreClaimsIn (T.contents terms.now) claims.now }
    requires ty_in { ty < length (T.contents terms.now).trees }
    requires value_in { value < length (T.contents terms.now).trees }
    ensures { let c = T.contents terms.now in
        result ≡ passes (section.value_test (claims_at c claims.now) left.now (tree_at c ty)
        (tree_at c value)) }
{
    match value_read(terms, claims, left, ty, value) {
        Some(rest) => ended(rest),
        None => false,
    }
}

/// Whether a proof is of a type, whose sort has this level and is that of propositions.
fn is_proof<T: Terms>(
    terms: &T,
    claims: &[Claim],
    left: &[u32],
    level: u64,
    ty: u64,
    proof: u64,
) -> bool
    requires claims_in { AreClaimsIn (T.contents terms.now) claims.now }
    requires level_in { level < length (T.contents terms.now).levels }
    requires ty_in { ty < length (T.contents terms.now).trees }
    requires proof_in { proof < length (T.contents terms.now).trees }
    ensures { let c = T.contents terms.now in
        result ≡ passes (proof_test (claims_at c claims.now) left.now (level_at c level)
        (tree_at c ty) (tree_at c proof)) }
{
    terms.level_is_zero(level) && is_value(terms, claims, left, ty, proof)
}

/// Of a constant of quotient types: it has its shape, and no premise is left.
#[tactic(auto, using(lk_premises::proofs::Settled::settled_found, lk_premises::proofs::Settled::failed_found))]
fn test_quotient<L: Looks>(
    looks: &mut L,
    left: &[u32],
    declaration: &Declaration,
) -> Result<bool, NoMemory>
    requires { IsDeclarationIn (L.contents looks.old) declaration.now }
    ensures { let c = L.contents looks.old in
        Tests L.contents (λ s. (L.sight (L.rest s)).basis) looks.old looks.new result
        (quotient_test (L.sight (L.rest looks.old)).basis.place left.now
        (declaration_at c declaration.now)) }
{
    let name = u64::from(declaration.name);
    let ty = u64::from(declaration.ty);
    match check(looks, name, &declaration.levels, ty)? {
        Ok(()) => Ok(ended(left)),
        Err(_) => Ok(false),
    }
}

/// Of a definition of this value: the value is of its type, and meets the laws that are due.
fn test_definition<L: Looks>(
    looks: &mut L,
    claims: &[Claim],
    left: &[u32],
    declaration: &Declaration,
    value: u64,
) -> Result<bool, NoMemory>
    requires claims_in { AreClaimsIn (L.contents looks.old) claims.now }
    requires declaration_in { IsDeclarationIn (L.contents looks.old) declaration.now }
    requires value_in { value < length (L.contents looks.old).trees }
    ensures { let c = L.contents looks.old in
        Tests L.contents (λ s. (L.sight (L.rest s)).basis) looks.old looks.new result
        (definition_test (L.sight (L.rest looks.old)).basis.place (claims_at c claims.now)
        left.now (declaration_at c declaration.now) (tree_at c value)) }
{
    match value_read(looks, claims, left, u64::from(declaration.ty), value) {
        Some(rest) => test_laws(looks, claims, rest, declaration, value),
        None => Ok(false),
    }
}

/// What is due of a declaration by its kind, whose type is of the sort of this level.
fn test_body<L: Looks>(
    looks: &mut L,
    claims: &[Claim],
    left: &[u32],
    declaration: &Declaration,
    level: u64,
) -> Result<bool, NoMemory>
    requires claims_in { AreClaimsIn (L.contents looks.old) claims.now }
    requires declaration_in { IsDeclarationIn (L.contents looks.old) declaration.now }
    requires level_in { level < length (L.contents looks.old).levels }
    ensures { let c = L.contents looks.old in let d = declaration_at c declaration.now in
        Tests L.contents (λ s. (L.sight (L.rest s)).basis) looks.old looks.new result
        (section.body_test (L.sight (L.rest looks.old)).basis.place (claims_at c claims.now)
        left.now d (level_at c level) d.body) }
{
    let ty = u64::from(declaration.ty);
    match declaration.body {
        Body::Axiom => Ok(ended(left)),
        Body::Definition { value, .. } => {
            test_definition(looks, claims, left, declaration, u64::from(value))
        }
        Body::Theorem { proof } => {
            Ok(is_proof(looks, claims, left, level, ty, u64::from(proof)))
        }
        Body::Opaque { value } => Ok(is_value(looks, claims, left, ty, u64::from(value))),
        Body::Quotient => test_quotient(looks, left, declaration),
    }
}

/// The parts of a good unit: its type has a sort, and what is due by its kind.
pub(crate) fn test_parts<L: Looks>(
    looks: &mut L,
    claims: &[Claim],
    left: &[u32],
    declaration: &Declaration,
) -> Result<bool, NoMemory>
    requires claims_in { AreClaimsIn (L.contents looks.old) claims.now }
    requires declaration_in { IsDeclarationIn (L.contents looks.old) declaration.now }
    ensures { let c = L.contents looks.old in
        Tests L.contents (λ s. (L.sight (L.rest s)).basis) looks.old looks.new result
        (section.parts_test (L.sight (L.rest looks.old)).basis.place (claims_at c claims.now)
        left.now (declaration_at c declaration.now)) }
{
    match sorted(looks, claims, left, u64::from(declaration.ty)) {
        Some(sort) => test_body(looks, claims, sort.after, declaration, sort.level),
        None => Ok(false),
    }
}
