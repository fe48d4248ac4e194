//! A major premise that is taken for a constructor because of its type, where the recursor has K.

ghost use Rattle.std.specs.Prelude.{◌≡◌, ◌<◌, Some, IfOk, length};
ghost use Rattle.lk_tree.specs.Tree.{app};
ghost use Rattle.lk_rulebook.specs.Place.{Entry as PlainEntry};
ghost use Rattle.lk_questions.specs.Tests.{passes};
ghost use Rattle.lk_written.specs.Reducing.{red_k};
ghost use Rattle.lk_store.specs.Contents.{name_at, list_at, tree_at};
ghost use Rattle.lk_ask.specs.Looks.{entry_at};
ghost use Rattle.lk_constructor.specs.Applied.{IsKnownConstructor};
ghost use Rattle.lk_premises.specs.Claims.{claims_at, AreClaimsIn};
ghost use Rattle.lk_premises.specs.Testing.{Tests};
ghost use Rattle.lk_replay_iota.specs.Recursors.{ruled_at, IsRuledIn};
ghost use Rattle.lk_replay_iota.specs.Candidates.{types_agree, is_front, candidate_read};
ghost use Rattle.lk_replay_iota.specs.Candidates.{typed_read, constructor_read, name_read};
ghost use Rattle.lk_replay_iota.specs.Candidates.{rule_read, entry_read, function_read};

use crate::fronts::{first_arguments, is_applied_to};
use crate::recursors::{Ruled, only_rule};
use lk_ask::looks::Looks;
use lk_constructor::{AppliedConstructor, constructor_at, levels_of_type};
use lk_env::entry::Entry;
use lk_eta::arguments::has_arguments;
use lk_premises::{Claim, are_equal, head_meaning, reduced, same_tree, typed};
use lk_spine::args;
use lk_store::memory::NoMemory;
use lk_store::node::Node;
use lk_store::terms::Terms;

/// Whether a tree is of a type that equals this one, and no premise is left after that.
#[tactic(auto, unfolding(crate::specs::Candidates::types_agree))]
fn have_types<T: Terms>(terms: &T, claims: &[Claim], left: &[u32], ty: u64, d: u64) -> bool
    requires claims_in { AreClaimsIn (T.contents terms.now) claims.now }
    requires ty_in { ty < length (T.contents terms.now).trees }
    requires d_in { d < length (T.contents terms.now).trees }
    ensures { let c = T.contents terms.now in
        result ≡ passes (types_agree (claims_at c claims.now) left.now (tree_at c ty)
        (tree_at c d)) }
{
    match typed(terms, claims, left, d) {
        Some(own) => are_equal(terms, claims, own.after, ty, own.tree),
        None => false,
    }
}

/// Whether a tree is another one, applied to the first so many arguments of a type, which has as many.
fn is_at_parameters<L: Looks>(
    looks: &L,
    front: u64,
    parameters: u64,
    ty: u64,
    d: u64,
) -> Result<bool, NoMemory>
    requires front_in { front < length (L.contents looks.now).trees }
    requires ty_in { ty < length (L.contents looks.now).trees }
    requires d_in { d < length (L.contents looks.now).trees }
    ensures { let t = tree_at (L.contents looks.now) in
        IfOk result (λ r. r ≡ is_front (t front) parameters (t ty) (t d)) }
{
    let arguments = args(looks.alloc(), looks, ty)?;
    if u128::from(parameters) > arguments.len() as u128 {
        return Ok(false);
    }
    let shared = first_arguments(&arguments, u128::from(parameters));
    Ok(is_applied_to(looks, front, shared, d))
}

/// The same of a constructor at these levels, and the types agree.
#[tactic(auto, using(lk_premises::proofs::Staying::claims_known, lk_premises::proofs::Staying::claims_same))]
fn is_candidate<L: Looks>(
    looks: &mut L,
    claims: &[Claim],
    left: &[u32],
    name: u64,
    parameters: u64,
    levels: u64,
    ty: u64,
    d: u64,
) -> Result<bool, NoMemory>
    requires claims_in { AreClaimsIn (L.contents looks.old) claims.now }
    requires name_in { name < length (L.contents looks.old).names }
    requires levels_in { levels < length (L.contents looks.old).lists }
    requires ty_in { ty < length (L.contents looks.old).trees }
    requires d_in { d < length (L.contents looks.old).trees }
    ensures { let c = L.contents looks.old in
        Tests L.contents L.rest looks.old looks.new result
        (candidate_read (claims_at c claims.now) left.now (name_at c name) parameters
        (list_at c levels) (tree_at c ty) (tree_at c d)) }
{
    let front = looks.make(Node::Const(name, levels))?;
    if !is_at_parameters(looks, front, parameters, ty, d)? {
        return Ok(false);
    }
    Ok(have_types(looks, claims, left, ty, d))
}

/// The same, where the constructor is to be of the type.
fn with_type<L: Looks>(
    looks: &mut L,
    claims: &[Claim],
    left: &[u32],
    name: u64,
    found: AppliedConstructor,
    ty: u64,
    d: u64,
) -> Result<bool, NoMemory>
    requires claims_in { AreClaimsIn (L.contents looks.old) claims.now }
    requires name_in { name < length (L.contents looks.old).names }
    requires found_in { IsKnownConstructor (L.contents looks.old) found }
    requires ty_in { ty < length (L.contents looks.old).trees }
    requires d_in { d < length (L.contents looks.old).trees }
    ensures { let c = L.contents looks.old in
        Tests L.contents L.rest looks.old looks.new result
        (typed_read (claims_at c claims.now) left.now (name_at c name)
        (name_at c found.inductive) found.parameters (tree_at c ty) (tree_at c d)) }
{
    match levels_of_type(looks, found.inductive, ty) {
        Some(levels) => { is_candidate(looks, claims, left, name, found.parameters, levels, ty, d) }
        None => Ok(false),
    }
}

/// The same of the type of the major premise.
fn with_constructor<L: Looks>(
    looks: &mut L,
    claims: &[Claim],
    left: &[u32],
    name: u64,
    found: AppliedConstructor,
    e: u64,
    d: u64,
) -> Result<bool, NoMemory>
    requires claims_in { AreClaimsIn (L.contents looks.old) claims.now }
    requires name_in { name < length (L.contents looks.old).names }
    requires found_in { IsKnownConstructor (L.contents looks.old) found }
    requires e_in { e < length (L.contents looks.old).trees }
    requires d_in { d < length (L.contents looks.old).trees }
    ensures { let c = L.contents looks.old in
        Tests L.contents L.rest looks.old looks.new result
        (constructor_read (claims_at c claims.now) left.now (tree_at c e) (tree_at c d)
        (name_at c name) (name_at c found.inductive) found.parameters) }
{
    match typed(looks, claims, left, e) {
        Some(own) => {
            let form = reduced(looks, claims, own.after, own.tree);
            with_type(looks, claims, form.after, name, found, form.tree, d)
        }
        None => Ok(false),
    }
}

/// The same of the constructor of this name.
fn with_name<L: Looks>(
    looks: &mut L,
    claims: &[Claim],
    left: &[u32],
    name: u64,
    e: u64,
    d: u64,
) -> Result<bool, NoMemory>
    requires claims_in { AreClaimsIn (L.contents looks.old) claims.now }
    requires name_in { name < length (L.contents looks.old).names }
    requires e_in { e < length (L.contents looks.old).trees }
    requires d_in { d < length (L.contents looks.old).trees }
    ensures { let c = L.contents looks.old in
        Tests L.contents L.rest looks.old looks.new result
        (name_read (L.sight (L.rest looks.old)).basis.place (claims_at c claims.now) left.now
        (tree_at c e) (tree_at c d) (name_at c name)) }
{
    match constructor_at(looks, name) {
        Some(found) => with_constructor(looks, claims, left, name, found, e, d),
        None => Ok(false),
    }
}

/// The same, where the recursor has K and just the arguments before its major premise.
fn with_rule<L: Looks>(
    looks: &mut L,
    claims: &[Claim],
    left: &[u32],
    ruled: Ruled,
    f: u64,
    e: u64,
    d: u64,
) -> Result<bool, NoMemory>
    requires claims_in { AreClaimsIn (L.contents looks.old) claims.now }
    requires ruled_in { IsRuledIn (L.contents looks.old) ruled }
    requires f_in { f < length (L.contents looks.old).trees }
    requires e_in { e < length (L.contents looks.old).trees }
    requires d_in { d < length (L.contents looks.old).trees }
    ensures { let c = L.contents looks.old in
        Tests L.contents L.rest looks.old looks.new result
        (rule_read (L.sight (L.rest looks.old)).basis.place (claims_at c claims.now) left.now
        (tree_at c f) (tree_at c e) (tree_at c d) (ruled_at c ruled)) }
{
    if !ruled.k || !has_arguments(looks, f, ruled.before) {
        return Ok(false);
    }
    with_name(looks, claims, left, ruled.rule.constructor, e, d)
}

/// The same of the only rule of a recursor.
fn with_entry<L: Looks>(
    looks: &mut L,
    claims: &[Claim],
    left: &[u32],
    entry: Entry,
    f: u64,
    e: u64,
    d: u64,
) -> Result<bool, NoMemory>
    requires claims_in { AreClaimsIn (L.contents looks.old) claims.now }
    requires f_in { f < length (L.contents looks.old).trees }
    requires e_in { e < length (L.contents looks.old).trees }
    requires d_in { d < length (L.contents looks.old).trees }
    ensures { let c = L.contents looks.old in (g : PlainEntry)
        → entry_at (L.sight (L.rest looks.old)).basis entry ≡ Some g
        → Tests L.contents L.rest looks.old looks.new result
        (entry_read (L.sight (L.rest looks.old)).basis.place (claims_at c claims.now) left.now
        g.kind (tree_at c f) (tree_at c e) (tree_at c d)) }
{
    match only_rule(looks, entry) {
        Some(ruled) => with_rule(looks, claims, left, ruled, f, e, d),
        None => Ok(false),
    }
}

/// The same of the recursor at the head of a function.
fn with_function<L: Looks>(
    looks: &mut L,
    claims: &[Claim],
    left: &[u32],
    f: u64,
    e: u64,
    d: u64,
) -> Result<bool, NoMemory>
    requires claims_in { AreClaimsIn (L.contents looks.old) claims.now }
    requires f_in { f < length (L.contents looks.old).trees }
    requires e_in { e < length (L.contents looks.old).trees }
    requires d_in { d < length (L.contents looks.old).trees }
    ensures { let c = L.contents looks.old in
        Tests L.contents L.rest looks.old looks.new result
        (function_read (L.sight (L.rest looks.old)).basis.place (claims_at c claims.now) left.now
        (tree_at c f) (tree_at c e) (tree_at c d)) }
{
    match head_meaning(looks, f) {
        Some(front) => with_entry(looks, claims, left, front.entry, f, e, d),
        None => Ok(false),
    }
}

/// A line of two applications, whose functions are to be one recursor.
#[tactic(auto, using(crate::proofs::CandidateForms::k_read))]
fn by_type<L: Looks>(
    looks: &mut L,
    claims: &[Claim],
    left: &[u32],
    f: u64,
    e: u64,
    g: u64,
    d: u64,
) -> Result<bool, NoMemory>
    requires claims_in { AreClaimsIn (L.contents looks.old) claims.now }
    requires f_in { f < length (L.contents looks.old).trees }
    requires e_in { e < length (L.contents looks.old).trees }
    requires g_in { g < length (L.contents looks.old).trees }
    requires d_in { d < length (L.contents looks.old).trees }
    ensures { let c = L.contents looks.old in
        Tests L.contents L.rest looks.old looks.new result
        (red_k (L.sight (L.rest looks.old)).basis.place (claims_at c claims.now) left.now
        (app (tree_at c f) (tree_at c e)) (app (tree_at c g) (tree_at c d))) }
{
    if !same_tree(looks, g, f) {
        return Ok(false);
    }
    with_function(looks, claims, left, f, e, d)
}

/// An application, and a tree that is to be one.
fn by_type_and<L: Looks>(
    looks: &mut L,
    claims: &[Claim],
    left: &[u32],
    f: u64,
    e: u64,
    b: u64,
) -> Result<bool, NoMemory>
    requires claims_in { AreClaimsIn (L.contents looks.old) claims.now }
    requires f_in { f < length (L.contents looks.old).trees }
    requires e_in { e < length (L.contents looks.old).trees }
    requires b_in { b < length (L.contents looks.old).trees }
    ensures { let c = L.contents looks.old in
        Tests L.contents L.rest looks.old looks.new result
        (red_k (L.sight (L.rest looks.old)).basis.place (claims_at c claims.now) left.now
        (app (tree_at c f) (tree_at c e)) (tree_at c b)) }
{
    match looks.view(b) {
        Node::App(g, d) => by_type(looks, claims, left, f, e, g, d),
        _ => Ok(false),
    }
}

/// A line of a recursor with K, whose major premise becomes the constructor of its type.
pub fn test_k<L: Looks>(
    looks: &mut L,
    claims: &[Claim],
    left: &[u32],
    a: u64,
    b: u64,
) -> Result<bool, NoMemory>
    requires claims_in { AreClaimsIn (L.contents looks.old) claims.now }
    requires a_in { a < length (L.contents looks.old).trees }
    requires b_in { b < length (L.contents looks.old).trees }
    ensures { let c = L.contents looks.old in
        Tests L.contents L.rest looks.old looks.new result
        (red_k (L.sight (L.rest looks.old)).basis.place (claims_at c claims.now) left.now
        (tree_at c a) (tree_at c b)) }
{
    match looks.view(a) {
        Node::App(f, e) => by_type_and(looks, claims, left, f, e, b),
        _ => Ok(false),
    }
}
