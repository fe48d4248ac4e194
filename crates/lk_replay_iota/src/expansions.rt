//! A major premise in the type of a structure, which becomes the constructor of its projections.

ghost use Rattle.std.specs.Prelude.{◌≡◌, ◌<◌, ◌++◌, [], Some, length, map, All};
ghost use Rattle.lk_tree.specs.Tree.{app};
ghost use Rattle.lk_tree.specs.Spine.{apply, args as args_of};
ghost use Rattle.lk_rulebook.specs.Place.{Entry as PlainEntry};
ghost use Rattle.lk_questions.specs.Iota.{CtorApp};
ghost use Rattle.lk_questions.specs.Steps.{is_same_tree};
ghost use Rattle.lk_questions.specs.Tests.{passes};
ghost use Rattle.lk_written.specs.Reducing.{red_expand};
ghost use Rattle.lk_store.specs.Contents.{name_at, list_at, tree_at};
ghost use Rattle.lk_ask.specs.Looks.{entry_at};
ghost use Rattle.lk_constructor.specs.Applied.{IsKnownConstructor, IsApplied};
ghost use Rattle.lk_premises.specs.Claims.{claims_at, AreClaimsIn};
ghost use Rattle.lk_premises.specs.Testing.{Tests};
ghost use Rattle.lk_replay_iota.specs.Recursors.{ruled_at, IsRuledIn};
ghost use Rattle.lk_replay_iota.specs.Expansions.{sort_read, expansion_read, levels_read};
ghost use Rattle.lk_replay_iota.specs.Expansions.{type_read, constructor_read, rule_read};
ghost use Rattle.lk_replay_iota.specs.Expansions.{name_read, entry_read, function_read};

use crate::fronts::front_of;
use crate::recursors::{Ruled, only_rule};
use lk_ask::looks::Looks;
use lk_constructor::{AppliedConstructor, constructor_at, levels_of_type};
use lk_env::entry::Entry;
use lk_eta::arguments::has_arguments;
use lk_mentions::structures::{projections_of, structure_of};
use lk_premises::{Claim, ended, head_meaning, is_applied, reduced, same_tree, sorted, typed};
use lk_store::memory::NoMemory;
use lk_store::node::Node;
use lk_store::terms::Terms;

/// Whether a tree is of a sort that is not `Prop`, and no premise is left after that.
#[tactic(auto, unfolding(crate::specs::Expansions::sort_read))]
fn is_no_proposition<T: Terms>(terms: &T, claims: &[Claim], left: &[u32], ty: u64) -> bool
    requires claims_in { AreClaimsIn (T.contents terms.now) claims.now }
    requires ty_in { ty < length (T.contents terms.now).trees }
    ensures { let c = T.contents terms.now in
        result ≡ passes (sort_read (claims_at c claims.now) left.now (tree_at c ty)) }
{
    match sorted(terms, claims, left, ty) {
        Some(sort) => !terms.level_is_zero(sort.level) && ended(sort.after),
        None => false,
    }
}

/// Whether a tree is another one, applied to the arguments of a type and then to these.
fn is_spread<T: Terms>(terms: &T, front: u64, ty: u64, fields: &[u64], n: u64) -> bool
    requires front_in { front < length (T.contents terms.now).trees }
    requires ty_in { ty < length (T.contents terms.now).trees }
    requires fields_in { All (λ x. x < length (T.contents terms.now).trees) fields.now }
    requires n_in { n < length (T.contents terms.now).trees }
    ensures { let t = tree_at (T.contents terms.now) in result
        ≡ is_same_tree (t n) (apply (t front) (args_of (t ty) ++ map t fields.now)) }
{
    match front_of(terms, fields, n) {
        Some(rest) => is_applied(terms, front, ty, rest),
        None => false,
    }
}

/// The same of a constructor at these levels and the projections of the tree whose type it is, which is no proposition.
#[tactic(auto, using(lk_premises::proofs::Staying::claims_known, lk_premises::proofs::Staying::claims_same))]
fn is_expansion<L: Looks>(
    looks: &mut L,
    claims: &[Claim],
    left: &[u32],
    name: u64,
    found: AppliedConstructor,
    levels: u64,
    m: u64,
    ty: u64,
    n: u64,
) -> Result<bool, NoMemory>
    requires claims_in { AreClaimsIn (L.contents looks.old) claims.now }
    requires name_in { name < length (L.contents looks.old).names }
    requires found_in { IsKnownConstructor (L.contents looks.old) found }
    requires levels_in { levels < length (L.contents looks.old).lists }
    requires m_in { m < length (L.contents looks.old).trees }
    requires ty_in { ty < length (L.contents looks.old).trees }
    requires n_in { n < length (L.contents looks.old).trees }
    ensures { let c = L.contents looks.old in
        Tests L.contents L.rest looks.old looks.new result
        (expansion_read (claims_at c claims.now) left.now (name_at c name)
        (name_at c found.inductive) found.fields (list_at c levels) (tree_at c m) (tree_at c ty)
        (tree_at c n)) }
{
    let front = looks.make(Node::Const(name, levels))?;
    let projections = projections_of(looks.alloc(), looks, found.inductive, m, found.fields)?;
    if !is_spread(looks, front, ty, &projections, n) {
        return Ok(false);
    }
    Ok(is_no_proposition(looks, claims, left, ty))
}

/// The same, where the constructor is to be that of a structure, with just the parameters for arguments of the type.
fn with_levels<L: Looks>(
    looks: &mut L,
    claims: &[Claim],
    left: &[u32],
    name: u64,
    found: AppliedConstructor,
    levels: u64,
    m: u64,
    ty: u64,
    n: u64,
) -> Result<bool, NoMemory>
    requires claims_in { AreClaimsIn (L.contents looks.old) claims.now }
    requires name_in { name < length (L.contents looks.old).names }
    requires found_in { IsKnownConstructor (L.contents looks.old) found }
    requires levels_in { levels < length (L.contents looks.old).lists }
    requires m_in { m < length (L.contents looks.old).trees }
    requires ty_in { ty < length (L.contents looks.old).trees }
    requires n_in { n < length (L.contents looks.old).trees }
    ensures { let c = L.contents looks.old in (k : CtorApp)
        → IsApplied c (L.sight (L.rest looks.old)).basis.library [] found k
        → Tests L.contents L.rest looks.old looks.new result
        (levels_read (claims_at c claims.now) left.now (name_at c name) (tree_at c m)
        (tree_at c ty) (tree_at c n) k (list_at c levels)) }
{
    if !has_arguments(looks, ty, u128::from(found.parameters)) {
        return Ok(false);
    }
    match structure_of(looks.alloc(), looks.scope(), looks, found.entry)? {
        Some(_) => is_expansion(looks, claims, left, name, found, levels, m, ty, n),
        None => Ok(false),
    }
}

/// The same, where the constructor is to be of the type.
fn with_type<L: Looks>(
    looks: &mut L,
    claims: &[Claim],
    left: &[u32],
    name: u64,
    found: AppliedConstructor,
    m: u64,
    ty: u64,
    n: u64,
) -> Result<bool, NoMemory>
    requires claims_in { AreClaimsIn (L.contents looks.old) claims.now }
    requires name_in { name < length (L.contents looks.old).names }
    requires found_in { IsKnownConstructor (L.contents looks.old) found }
    requires m_in { m < length (L.contents looks.old).trees }
    requires ty_in { ty < length (L.contents looks.old).trees }
    requires n_in { n < length (L.contents looks.old).trees }
    ensures { let c = L.contents looks.old in (k : CtorApp)
        → IsApplied c (L.sight (L.rest looks.old)).basis.library [] found k
        → Tests L.contents L.rest looks.old looks.new result
        (type_read (claims_at c claims.now) left.now (name_at c name) (tree_at c m)
        (tree_at c ty) (tree_at c n) k) }
{
    match levels_of_type(looks, found.inductive, ty) {
        Some(levels) => with_levels(looks, claims, left, name, found, levels, m, ty, n),
        None => Ok(false),
    }
}

/// The same of the type of the major premise.
fn with_constructor<L: Looks>(
    looks: &mut L,
    claims: &[Claim],
    left: &[u32],
    name: u64,
    found: AppliedConstructor,
    m: u64,
    n: u64,
) -> Result<bool, NoMemory>
    requires claims_in { AreClaimsIn (L.contents looks.old) claims.now }
    requires name_in { name < length (L.contents looks.old).names }
    requires found_in { IsKnownConstructor (L.contents looks.old) found }
    requires m_in { m < length (L.contents looks.old).trees }
    requires n_in { n < length (L.contents looks.old).trees }
    ensures { let c = L.contents looks.old in (k : CtorApp)
        → IsApplied c (L.sight (L.rest looks.old)).basis.library [] found k
        → Tests L.contents L.rest looks.old looks.new result
        (constructor_read (claims_at c claims.now) left.now (name_at c name) (tree_at c m)
        (tree_at c n) k) }
{
    match typed(looks, claims, left, m) {
        Some(own) => {
            let form = reduced(looks, claims, own.after, own.tree);
            with_type(looks, claims, form.after, name, found, m, form.tree, n)
        }
        None => Ok(false),
    }
}

/// The same of the constructor of this name.
fn with_name<L: Looks>(
    looks: &mut L,
    claims: &[Claim],
    left: &[u32],
    name: u64,
    m: u64,
    n: u64,
) -> Result<bool, NoMemory>
    requires claims_in { AreClaimsIn (L.contents looks.old) claims.now }
    requires name_in { name < length (L.contents looks.old).names }
    requires m_in { m < length (L.contents looks.old).trees }
    requires n_in { n < length (L.contents looks.old).trees }
    ensures { let c = L.contents looks.old in
        Tests L.contents L.rest looks.old looks.new result
        (name_read (L.sight (L.rest looks.old)).basis.place (claims_at c claims.now) left.now
        (tree_at c m) (tree_at c n) (name_at c name)) }
{
    match constructor_at(looks, name) {
        Some(found) => with_constructor(looks, claims, left, name, found, m, n),
        None => Ok(false),
    }
}

/// The same, where the recursor has just the arguments before its major premise.
fn with_rule<L: Looks>(
    looks: &mut L,
    claims: &[Claim],
    left: &[u32],
    ruled: Ruled,
    f: u64,
    m: u64,
    n: u64,
) -> Result<bool, NoMemory>
    requires claims_in { AreClaimsIn (L.contents looks.old) claims.now }
    requires ruled_in { IsRuledIn (L.contents looks.old) ruled }
    requires f_in { f < length (L.contents looks.old).trees }
    requires m_in { m < length (L.contents looks.old).trees }
    requires n_in { n < length (L.contents looks.old).trees }
    ensures { let c = L.contents looks.old in
        Tests L.contents L.rest looks.old looks.new result
        (rule_read (L.sight (L.rest looks.old)).basis.place (claims_at c claims.now) left.now
        (tree_at c f) (tree_at c m) (tree_at c n) (ruled_at c ruled)) }
{
    if !has_arguments(looks, f, ruled.before) {
        return Ok(false);
    }
    with_name(looks, claims, left, ruled.rule.constructor, m, n)
}

/// The same of the only rule of a recursor.
fn with_entry<L: Looks>(
    looks: &mut L,
    claims: &[Claim],
    left: &[u32],
    entry: Entry,
    f: u64,
    m: u64,
    n: u64,
) -> Result<bool, NoMemory>
    requires claims_in { AreClaimsIn (L.contents looks.old) claims.now }
    requires f_in { f < length (L.contents looks.old).trees }
    requires m_in { m < length (L.contents looks.old).trees }
    requires n_in { n < length (L.contents looks.old).trees }
    ensures { let c = L.contents looks.old in (g : PlainEntry)
        → entry_at (L.sight (L.rest looks.old)).basis entry ≡ Some g
        → Tests L.contents L.rest looks.old looks.new result
        (entry_read (L.sight (L.rest looks.old)).basis.place (claims_at c claims.now) left.now
        g.kind (tree_at c f) (tree_at c m) (tree_at c n)) }
{
    match only_rule(looks, entry) {
        Some(ruled) => with_rule(looks, claims, left, ruled, f, m, n),
        None => Ok(false),
    }
}

/// The same of the recursor at the head of a function.
fn with_function<L: Looks>(
    looks: &mut L,
    claims: &[Claim],
    left: &[u32],
    f: u64,
    m: u64,
    n: u64,
) -> Result<bool, NoMemory>
    requires claims_in { AreClaimsIn (L.contents looks.old) claims.now }
    requires f_in { f < length (L.contents looks.old).trees }
    requires m_in { m < length (L.contents looks.old).trees }
    requires n_in { n < length (L.contents looks.old).trees }
    ensures { let c = L.contents looks.old in
        Tests L.contents L.rest looks.old looks.new result
        (function_read (L.sight (L.rest looks.old)).basis.place (claims_at c claims.now) left.now
        (tree_at c f) (tree_at c m) (tree_at c n)) }
{
    match head_meaning(looks, f) {
        Some(front) => with_entry(looks, claims, left, front.entry, f, m, n),
        None => Ok(false),
    }
}

/// A line of two applications, whose functions are to be one recursor.
#[tactic(auto, using(crate::proofs::ExpansionForms::expand_read))]
fn by_structure<L: Looks>(
    looks: &mut L,
    claims: &[Claim],
    left: &[u32],
    f: u64,
    m: u64,
    g: u64,
    n: u64,
) -> Result<bool, NoMemory>
    requires claims_in { AreClaimsIn (L.contents looks.old) claims.now }
    requires f_in { f < length (L.contents looks.old).trees }
    requires m_in { m < length (L.contents looks.old).trees }
    requires g_in { g < length (L.contents looks.old).trees }
    requires n_in { n < length (L.contents looks.old).trees }
    ensures { let c = L.contents looks.old in
        Tests L.contents L.rest looks.old looks.new result
        (red_expand (L.sight (L.rest looks.old)).basis.place (claims_at c claims.now) left.now
        (app (tree_at c f) (tree_at c m)) (app (tree_at c g) (tree_at c n))) }
{
    if !same_tree(looks, g, f) {
        return Ok(false);
    }
    with_function(looks, claims, left, f, m, n)
}

/// An application, and a tree that is to be one.
fn by_structure_and<L: Looks>(
    looks: &mut L,
    claims: &[Claim],
    left: &[u32],
    f: u64,
    m: u64,
    b: u64,
) -> Result<bool, NoMemory>
    requires claims_in { AreClaimsIn (L.contents looks.old) claims.now }
    requires f_in { f < length (L.contents looks.old).trees }
    requires m_in { m < length (L.contents looks.old).trees }
    requires b_in { b < length (L.contents looks.old).trees }
    ensures { let c = L.contents looks.old in
        Tests L.contents L.rest looks.old looks.new result
        (red_expand (L.sight (L.rest looks.old)).basis.place (claims_at c claims.now) left.now
        (app (tree_at c f) (tree_at c m)) (tree_at c b)) }
{
    match looks.view(b) {
        Node::App(g, n) => by_structure(looks, claims, left, f, m, g, n),
        _ => Ok(false),
    }
}

/// A line of a recursor of a structure, whose major premise becomes the constructor of its projections.
pub fn test_expansion<L: Looks>(
    looks: &mut L,
    claims: &[Claim],
    left: &[u32],
    a: u64,
    b: u64,
) -> Result<bool, NoMemory>
    requires claims_in { AreClaimsIn (L.contents looks.old) claims.now }
    requires a_in { a < length (L.contents looks.old).trees }
    requires b_in { b < length (L.contents looks.old).trees }
    ensures { let c = L.contents looks.old in
        Tests L.contents L.rest looks.old looks.new result
        (red_expand (L.sight (L.rest looks.old)).basis.place (claims_at c claims.now) left.now
        (tree_at c a) (tree_at c b)) }
{
    match looks.view(a) {
        Node::App(f, m) => by_structure_and(looks, claims, left, f, m, b),
        _ => Ok(false),
    }
}
