//! A tree, and a constructor of a structure with all its arguments.

ghost use Rattle.std.specs.Prelude.{◌≡◌, ◌<◌, length, map, drop, option_map, All, IfOk};
ghost use Rattle.lk_tree.specs.Tree.{proj};
ghost use Rattle.lk_tree.specs.Spine.{args as args_of};
ghost use Rattle.lk_questions.specs.Iota.{CtorApp};
ghost use Rattle.lk_written.specs.Premises as premises;
ghost use Rattle.lk_written.specs.Equal.{fields_equal, eq_struct};
ghost use Rattle.lk_store.specs.Contents.{name_at, tree_at};
ghost use Rattle.lk_constructor.specs.Applied.{IsKnownConstructor, IsApplied};
ghost use Rattle.lk_premises.specs.Claims.{claims_at, AreClaimsIn};
ghost use Rattle.lk_premises.specs.Testing.{Tests};
ghost use Rattle.lk_replay_equal.specs.Structures.{ReadsOn, types_read, fields_after};
ghost use Rattle.lk_replay_equal.specs.Structures.{full_and, are_full, constructor_and};

use crate::neutral::is_head_normal;
use lk_ask::looks::Looks;
use lk_constructor::{AppliedConstructor, head_constructor};
use lk_eta::constructor::is_full;
use lk_eta::fields::behind_parameters;
use lk_premises::{Claim, ended, equal, typed};
use lk_spine::args;
use lk_store::memory::NoMemory;
use lk_store::node::Node;
use lk_store::terms::Terms;

/// The premises after those that state that two trees are of equal types.
#[tactic(auto, unfolding(crate::specs::Structures::types_read))]
fn equal_types<'a, T: Terms>(
    terms: &T,
    claims: &[Claim],
    left: &'a [u32],
    a: u64,
    b: u64,
) -> Option<&'a [u32]>
    requires claims_in { AreClaimsIn (T.contents terms.now) claims.now }
    requires a_in { a < length (T.contents terms.now).trees }
    requires b_in { b < length (T.contents terms.now).trees }
    ensures { let c = T.contents terms.now in
        types_read (claims_at c claims.now) left.now (tree_at c a) (tree_at c b)
        ≡ option_map (λ r. r.now) result }
{
    let first = typed(terms, claims, left, a)?;
    let second = typed(terms, claims, first.after, b)?;
    equal(terms, claims, second.after, first.tree, second.tree)
}

/// The premises after the one that states a projection equal to a field.
#[tactic(auto, using(lk_premises::proofs::Staying::claims_known, lk_premises::proofs::Staying::claims_same))]
fn equal_field<'a, T: Terms>(
    terms: &mut T,
    claims: &[Claim],
    left: &'a [u32],
    inductive: u64,
    number: u64,
    a: u64,
    field: u64,
) -> Result<Option<&'a [u32]>, NoMemory>
    requires claims_in { AreClaimsIn (T.contents terms.old) claims.now }
    requires inductive_in { inductive < length (T.contents terms.old).names }
    requires a_in { a < length (T.contents terms.old).trees }
    requires field_in { field < length (T.contents terms.old).trees }
    ensures { let c = T.contents terms.old in
        ReadsOn T.contents T.rest terms.old terms.new result
        (premises.equal (claims_at c claims.now) left.now
        (proj (name_at c inductive) number (tree_at c a)) (tree_at c field)) }
{
    let projection = terms.make(Node::Proj(inductive, number, a))?;
    Ok(equal(terms, claims, left, projection, field))
}

/// The premises after those that state each projection equal to its field.
fn equal_each<'a, T: Terms>(
    terms: &mut T,
    claims: &[Claim],
    left: &'a [u32],
    inductive: u64,
    a: u64,
    fields: &[u64],
) -> Result<Option<&'a [u32]>, NoMemory>
    requires claims_in { AreClaimsIn (T.contents terms.old) claims.now }
    requires inductive_in { inductive < length (T.contents terms.old).names }
    requires a_in { a < length (T.contents terms.old).trees }
    requires fields_in { All (λ e. e < length (T.contents terms.old).trees) fields.now }
    ensures { let c = T.contents terms.old in
        ReadsOn T.contents T.rest terms.old terms.new result
        (fields_equal (claims_at c claims.now) left.now (name_at c inductive)
        (tree_at c a) 0 (map (tree_at c) fields.now)) }
{
    let mut at = left;
    let mut rest = fields;
    'fields: while let Some((field, more)) = rest.split_first() {
        let number = (fields.len() - rest.len()) as u64;
        match equal_field(terms, claims, at, inductive, number, a, *field)? {
            Some(after) => {
                at = after;
                rest = more;
            }
            None => return Ok(None),
        }
    }
    Ok(Some(at))
}

/// Whether each projection of a tree equals the field of a constructor that is applied, behind its parameters.
fn has_fields<L: Looks>(
    looks: &mut L,
    claims: &[Claim],
    left: &[u32],
    inductive: u64,
    parameters: u64,
    a: u64,
    b: u64,
) -> Result<bool, NoMemory>
    requires claims_in { AreClaimsIn (L.contents looks.old) claims.now }
    requires inductive_in { inductive < length (L.contents looks.old).names }
    requires a_in { a < length (L.contents looks.old).trees }
    requires b_in { b < length (L.contents looks.old).trees }
    ensures { let c = L.contents looks.old in
        Tests L.contents L.rest looks.old looks.new result
        (fields_after (claims_at c claims.now) left.now (name_at c inductive) (tree_at c a)
        (drop parameters (args_of (tree_at c b)))) }
{
    let values = args(looks.alloc(), looks, b)?;
    let fields = behind_parameters(&values, parameters);
    match equal_each(looks, claims, left, inductive, a, fields)? {
        Some(rest) => Ok(ended(rest)),
        None => Ok(false),
    }
}

/// The same, where the types of the two are equal.
#[tactic(auto, unfolding(crate::specs::Structures::fields_after))]
fn are_alike<L: Looks>(
    looks: &mut L,
    claims: &[Claim],
    left: &[u32],
    inductive: u64,
    parameters: u64,
    a: u64,
    b: u64,
) -> Result<bool, NoMemory>
    requires claims_in { AreClaimsIn (L.contents looks.old) claims.now }
    requires inductive_in { inductive < length (L.contents looks.old).names }
    requires a_in { a < length (L.contents looks.old).trees }
    requires b_in { b < length (L.contents looks.old).trees }
    ensures { let c = L.contents looks.old in
        Tests L.contents L.rest looks.old looks.new result
        (full_and (claims_at c claims.now) left.now (tree_at c a) (tree_at c b)
        (name_at c inductive) (drop parameters (args_of (tree_at c b)))) }
{
    match equal_types(looks, claims, left, a, b) {
        Some(after) => has_fields(looks, claims, after, inductive, parameters, a, b),
        None => Ok(false),
    }
}

/// Whether the head of a tree takes no step, and another one is this constructor of a structure with all its arguments.
fn are_whole<L: Looks>(
    looks: &L,
    found: AppliedConstructor,
    a: u64,
    b: u64,
) -> Result<bool, NoMemory>
    requires a_in { a < length (L.contents looks.now).trees }
    requires b_in { b < length (L.contents looks.now).trees }
    ensures { let t = tree_at (L.contents looks.now) in (k : CtorApp)
        → IsApplied (L.contents looks.now) (L.sight (L.rest looks.now)).basis.library
        (args_of (t b)) found k → IfOk result (λ r. r ≡ are_full (t a) (t b) k) }
{
    if !is_head_normal(looks, a) {
        return Ok(false);
    }
    is_full(looks, found.entry, b)
}

/// The same, the types of the two are equal, and so is each field.
fn with_constructor<L: Looks>(
    looks: &mut L,
    claims: &[Claim],
    left: &[u32],
    found: AppliedConstructor,
    a: u64,
    b: u64,
) -> Result<bool, NoMemory>
    requires claims_in { AreClaimsIn (L.contents looks.old) claims.now }
    requires found_in { IsKnownConstructor (L.contents looks.old) found }
    requires a_in { a < length (L.contents looks.old).trees }
    requires b_in { b < length (L.contents looks.old).trees }
    ensures { let c = L.contents looks.old in (k : CtorApp)
        → IsApplied c (L.sight (L.rest looks.old)).basis.library (args_of (tree_at c b)) found k
        → Tests L.contents L.rest looks.old looks.new result
        (constructor_and (claims_at c claims.now) left.now (tree_at c a) (tree_at c b) k) }
{
    if !are_whole(looks, found, a, b)? {
        return Ok(false);
    }
    are_alike(looks, claims, left, found.inductive, found.parameters, a, b)
}

/// A line of a tree and a constructor of a structure with all its arguments.
pub fn test_structure<L: Looks>(
    looks: &mut L,
    claims: &[Claim],
    left: &[u32],
    a: u64,
    b: u64,
) -> Result<bool, NoMemory>
    requires claims_in { AreClaimsIn (L.contents looks.old) claims.now }
    requires a_in { a < length (L.contents looks.old).trees }
    requires b_in { b < length (L.contents looks.old).trees }
    ensures { let c = L.contents looks.old in
        Tests L.contents L.rest looks.old looks.new result
        (eq_struct (L.sight (L.rest looks.old)).basis.place (claims_at c claims.now) left.now
        (tree_at c a) (tree_at c b)) }
{
    match head_constructor(looks, b) {
        Some(found) => with_constructor(looks, claims, left, found, a, b),
        None => Ok(false),
    }
}
