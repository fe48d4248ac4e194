//! `Quot.lift` and `Quot.ind` on an element of a quotient.

ghost use Rattle.std.specs.Prelude.{◌≡◌, ◌<◌, IfSome, length, option_map};
ghost use Rattle.lk_rulebook.specs.Names.{quot_mk};
ghost use Rattle.lk_questions.specs.Tests.{passes};
ghost use Rattle.lk_written.specs.Reducing.{is_quot, red_lift, red_ind};
ghost use Rattle.lk_store.specs.Contents.{name_at, tree_at};
ghost use Rattle.lk_premises.specs.Claims.{claims_at, AreClaimsIn};
ghost use Rattle.lk_premises.specs.Testing.{Tests};
ghost use Rattle.lk_replay_reduce.specs.Quotients.{four_parts, lift_parts, ind_parts, element};
ghost use Rattle.lk_replay_reduce.specs.Quotients.{front_at, redex_at, IsFrontIn, IsRedexIn};
ghost use Rattle.lk_replay_reduce.specs.Quotients.{element_read, quot_read, quot_name};
ghost use Rattle.lk_replay_reduce.specs.Quotients.{applied_is};

use crate::applications::{name_of, parts_of};
use lk_ask::looks::Looks;
use lk_premises::{Claim, dotted, ended, meaning_of, reduced, same_name, same_tree};
use lk_quot::is_quotient;
use lk_store::memory::NoMemory;
use lk_store::node::Node;
use lk_store::terms::Terms;

/// A constant with four arguments: its name, and the last of them.
#[derive(Clone, Copy)]
pub struct Front {
    pub name: u64,
    pub function: u64,
}

/// A constant on its major premise: its name, its fourth argument, and the major premise.
#[derive(Clone, Copy)]
pub struct Redex {
    pub name: u64,
    pub function: u64,
    pub major: u64,
}

/// A constant with four arguments.
fn front_of<T: Terms>(terms: &T, e: u64) -> Option<Front>
    requires { e < length (T.contents terms.now).trees }
    ensures is { let c = T.contents terms.now in
        four_parts (tree_at c e) ≡ option_map (front_at c) result }
    ensures known { IfSome result (IsFrontIn (T.contents terms.now)) }
{
    let last = parts_of(terms, e)?;
    let third = parts_of(terms, last.function)?;
    let second = parts_of(terms, third.function)?;
    let first = parts_of(terms, second.function)?;
    let name = name_of(terms, first.function)?;
    Some(Front {
        name,
        function: last.argument,
    })
}

/// A constant with six arguments.
fn lift_of<T: Terms>(terms: &T, e: u64) -> Option<Redex>
    requires { e < length (T.contents terms.now).trees }
    ensures is { let c = T.contents terms.now in
        lift_parts (tree_at c e) ≡ option_map (redex_at c) result }
    ensures known { IfSome result (IsRedexIn (T.contents terms.now)) }
{
    let last = parts_of(terms, e)?;
    let proof = parts_of(terms, last.function)?;
    let front = front_of(terms, proof.function)?;
    Some(Redex {
        name: front.name,
        function: front.function,
        major: last.argument,
    })
}

/// A constant with five arguments.
fn induction_of<T: Terms>(terms: &T, e: u64) -> Option<Redex>
    requires { e < length (T.contents terms.now).trees }
    ensures is { let c = T.contents terms.now in
        ind_parts (tree_at c e) ≡ option_map (redex_at c) result }
    ensures known { IfSome result (IsRedexIn (T.contents terms.now)) }
{
    let last = parts_of(terms, e)?;
    let front = front_of(terms, last.function)?;
    Some(Redex {
        name: front.name,
        function: front.function,
        major: last.argument,
    })
}

/// The element of a tree that is this constructor with three arguments.
fn element_of<T: Terms>(terms: &T, constructor: u64, m: u64) -> Option<u64>
    requires constructor_in { constructor < length (T.contents terms.now).names }
    requires m_in { m < length (T.contents terms.now).trees }
    ensures is { let c = T.contents terms.now in
        element (name_at c constructor) (tree_at c m) ≡ option_map (tree_at c) result }
    ensures known { IfSome result (λ e. e < length (T.contents terms.now).trees) }
{
    let last = parts_of(terms, m)?;
    let second = parts_of(terms, last.function)?;
    let first = parts_of(terms, second.function)?;
    let name = name_of(terms, first.function)?;
    if same_name(terms, name, constructor) {
        Some(last.argument)
    } else {
        None
    }
}

/// Whether a quotient unit gives a name.
fn is_given<L: Looks>(looks: &L, name: u64) -> bool
    requires { name < length (L.contents looks.now).names }
    ensures { result ≡ passes (is_quot (L.sight (L.rest looks.now)).basis.place
        (name_at (L.contents looks.now) name)) }
{
    match meaning_of(looks, name) {
        Some(entry) => is_quotient(entry),
        None => false,
    }
}

/// Whether a tree is a function, applied to an argument, and no premise is left.
fn is_application<T: Terms>(terms: &T, left: &[u32], f: u64, x: u64, b: u64) -> bool
    requires f_in { f < length (T.contents terms.now).trees }
    requires x_in { x < length (T.contents terms.now).trees }
    requires b_in { b < length (T.contents terms.now).trees }
    ensures { let t = tree_at (T.contents terms.now) in
        result ≡ passes (applied_is left.now (t f) (t x) (t b)) }
{
    if !ended(left) {
        return false;
    }
    match terms.view(b) {
        Node::App(function, argument) => {
            same_tree(terms, argument, x) && same_tree(terms, function, f)
        }
        _ => false,
    }
}

/// Whether a tree is what a function gives of the element that a major premise reduces to.
fn is_on_element<T: Terms>(
    terms: &T,
    claims: &[Claim],
    left: &[u32],
    constructor: u64,
    redex: Redex,
    b: u64,
) -> bool
    requires claims_in { AreClaimsIn (T.contents terms.now) claims.now }
    requires constructor_in { constructor < length (T.contents terms.now).names }
    requires redex_in { IsRedexIn (T.contents terms.now) redex }
    requires b_in { b < length (T.contents terms.now).trees }
    ensures { let c = T.contents terms.now in
        result ≡ passes (element_read (claims_at c claims.now) left.now (name_at c constructor)
        (redex_at c redex) (tree_at c b)) }
{
    let form = reduced(terms, claims, left, redex.major);
    match element_of(terms, constructor, form.tree) {
        Some(element) => is_application(terms, form.after, redex.function, element, b),
        None => false,
    }
}

/// The same, where a quotient unit gives the constant, which is to have this name, and the constructor.
fn with_names<L: Looks>(
    looks: &L,
    claims: &[Claim],
    left: &[u32],
    expected: u64,
    constructor: u64,
    redex: Redex,
    b: u64,
) -> bool
    requires claims_in { AreClaimsIn (L.contents looks.now) claims.now }
    requires expected_in { expected < length (L.contents looks.now).names }
    requires constructor_in { constructor < length (L.contents looks.now).names }
    requires redex_in { IsRedexIn (L.contents looks.now) redex }
    requires b_in { b < length (L.contents looks.now).trees }
    ensures { let c = L.contents looks.now in
        result ≡ passes (quot_read (L.sight (L.rest looks.now)).basis.place
        (claims_at c claims.now) left.now (name_at c expected) (name_at c constructor)
        (redex_at c redex) (tree_at c b)) }
{
    if !same_name(looks, redex.name, expected) || !is_given(looks, expected) {
        return false;
    }
    if !is_given(looks, constructor) {
        return false;
    }
    is_on_element(looks, claims, left, constructor, redex, b)
}

/// The same of the constant behind `Quot` of this word, and of `Quot.mk`.
fn on_quotient<L: Looks>(
    looks: &mut L,
    claims: &[Claim],
    left: &[u32],
    word: &[u8],
    redex: Redex,
    b: u64,
) -> Result<bool, NoMemory>
    requires claims_in { AreClaimsIn (L.contents looks.old) claims.now }
    requires redex_in { IsRedexIn (L.contents looks.old) redex }
    requires b_in { b < length (L.contents looks.old).trees }
    ensures { let c = L.contents looks.old in
        Tests L.contents L.rest looks.old looks.new result
        (quot_read (L.sight (L.rest looks.old)).basis.place (claims_at c claims.now) left.now
        (quot_name word.now) quot_mk (redex_at c redex) (tree_at c b)) }
{
    let alloc = looks.alloc();
    let expected = dotted(alloc, looks, b"Quot", word)?;
    let constructor = dotted(alloc, looks, b"Quot", b"mk")?;
    Ok(with_names(looks, claims, left, expected, constructor, redex, b))
}

/// A line of `Quot.lift` on an element.
#[tactic(auto, using(crate::proofs::QuotientForms::lift_read))]
pub fn test_lift<L: Looks>(
    looks: &mut L,
    claims: &[Claim],
    left: &[u32],
    a: u64,
    b: u64,
) -> Result<bool, NoMemory>
    requires claims_in { AreClaimsIn (L.contents looks.old) claims.now }
    requires a_in { a < length (L.contents looks.old).trees }
    requires b_in { b < length (L.contents looks.old).trees }
    ensures { let c = L.contents looks.old in
        Tests L.contents L.rest looks.old looks.new result
        (red_lift (L.sight (L.rest looks.old)).basis.place (claims_at c claims.now) left.now
        (tree_at c a) (tree_at c b)) }
{
    match lift_of(looks, a) {
        Some(redex) => on_quotient(looks, claims, left, b"lift", redex, b),
        None => Ok(false),
    }
}

/// A line of `Quot.ind` on an element.
#[tactic(auto, using(crate::proofs::QuotientForms::ind_read))]
pub fn test_induction<L: Looks>(
    looks: &mut L,
    claims: &[Claim],
    left: &[u32],
    a: u64,
    b: u64,
) -> Result<bool, NoMemory>
    requires claims_in { AreClaimsIn (L.contents looks.old) claims.now }
    requires a_in { a < length (L.contents looks.old).trees }
    requires b_in { b < length (L.contents looks.old).trees }
    ensures { let c = L.contents looks.old in
        Tests L.contents L.rest looks.old looks.new result
        (red_ind (L.sight (L.rest looks.old)).basis.place (claims_at c claims.now) left.now
        (tree_at c a) (tree_at c b)) }
{
    match induction_of(looks, a) {
        Some(redex) => on_quotient(looks, claims, left, b"ind", redex, b),
        None => Ok(false),
    }
}
