//! Two terms by their shape: sorts by their levels, binders by their domains and bodies, the others by their `Core`.

ghost use Rattle.std.specs.Prelude.{◌≡◌, ◌<◌, ℕ, max, Ok, IfOk, Option, length};
ghost use Rattle.lk_tree.specs.Tree.{Tree, sort, lam, pi, lit, str};
ghost use Rattle.lk_tree.specs.Bind.{bound};
ghost use Rattle.lk_rulebook.specs.Place.{Place};
ghost use Rattle.lk_questions.specs.Erased.{truth, erased};
ghost use Rattle.lk_questions.specs.Pairs.{same_bodies};
ghost use Rattle.lk_questions.specs.Same.{by_reduction, by_shape};
ghost use Rattle.lk_store.specs.Contents.{level_at, text_at, tree_at};
ghost use Rattle.lk_ask.specs.Nexts.{IsKnownNext};
ghost use Rattle.lk_same.specs.Sames.{same_next, Compares};
ghost use Rattle.lk_same.specs.Sheets.{IsKnownSameSheet};

use crate::parts::tested;
use crate::same::SameNext;
use crate::sheet::{SameTermSheet, SameTruthSheet};
use lk_ask::looks::Looks;
use lk_ask::next::Next;
use lk_ask::query::{Answer, Query};
use lk_ask::sheet::Sheet;
use lk_lazy::levels::are_equal;
use lk_store::memory::NoMemory;
use lk_store::node::Node;

/// Two terms by their `Core`.
fn reduced(a: u64, b: u64) -> SameNext
    ensures known { (n : ℕ) → a < n → b < n → IsKnownNext IsKnownSameSheet n result }
    ensures steps { (w : Place) (t : ℕ → Tree) (last : Option ℕ) → same_next w t last result
        ≡ erased w truth last (by_reduction (t a) (t b)) }
{
    Next::Ask(
        Query::Core(a),
        Sheet::Term(SameTermSheet::CoreLeft { left: a, right: b }),
    )
}

/// A sort and another term.
fn sort_and<L: Looks>(looks: &L, level: u64, a: u64, b: u64) -> Result<SameNext, NoMemory>
    requires level_in { level < length (L.contents looks.now).levels }
    requires a_in { a < length (L.contents looks.now).trees }
    requires b_in { b < length (L.contents looks.now).trees }
    requires a_is { sort (level_at (L.contents looks.now) level)
        ≡ tree_at (L.contents looks.now) a }
    ensures { Compares L.contents L.rest L.sight looks.now looks.now result
        (λ t. by_shape (t a) (t b)) }
{
    match looks.view(b) {
        Node::Sort(other) => {
            let equal = are_equal(looks.alloc(), looks, level, other)?;
            Ok(tested(equal))
        }
        _ => Ok(reduced(a, b)),
    }
}

/// A number above those of all Locals in two terms.
fn fresh_number<L: Looks>(looks: &L, a: u64, b: u64) -> Result<u64, NoMemory>
    requires a_in { a < length (L.contents looks.now).trees }
    requires b_in { b < length (L.contents looks.now).trees }
    ensures { let t = tree_at (L.contents looks.now) in
        IfOk result (λ k. k ≡ max (bound (t a)) (bound (t b))) }
{
    let number = looks.local_bound(a).max(looks.local_bound(b));
    // No Local in memory has so great a number.
    match u64::try_from(number) {
        Ok(number) => Ok(number),
        Err(_) => Err(NoMemory),
    }
}

/// Two binders, `a` and `b`, of these domains and bodies: the domains are asked for.
fn domains<L: Looks>(
    looks: &L,
    a: u64,
    b: u64,
    domain: u64,
    left: u64,
    other: u64,
    right: u64,
) -> Result<SameNext, NoMemory>
    requires a_in { a < length (L.contents looks.now).trees }
    requires b_in { b < length (L.contents looks.now).trees }
    requires domain_in { domain < length (L.contents looks.now).trees }
    requires left_in { left < length (L.contents looks.now).trees }
    requires other_in { other < length (L.contents looks.now).trees }
    requires right_in { right < length (L.contents looks.now).trees }
    ensures { Compares L.contents L.rest L.sight looks.now looks.now result
        (λ t. same_bodies (max (bound (t a)) (bound (t b)))
        (t domain) (t left) (t other) (t right)) }
{
    let number = fresh_number(looks, a, b)?;
    Ok(Next::Ask(
        Query::Same(domain, other),
        Sheet::Truth(SameTruthSheet::Domains {
            domain,
            left,
            right,
            number,
        }),
    ))
}

/// A lambda and another term.
fn lambda_and<L: Looks>(
    looks: &L,
    domain: u64,
    body: u64,
    a: u64,
    b: u64,
) -> Result<SameNext, NoMemory>
    requires domain_in { domain < length (L.contents looks.now).trees }
    requires body_in { body < length (L.contents looks.now).trees }
    requires a_in { a < length (L.contents looks.now).trees }
    requires b_in { b < length (L.contents looks.now).trees }
    requires a_is { let t = tree_at (L.contents looks.now) in lam (t domain) (t body) ≡ t a }
    ensures { Compares L.contents L.rest L.sight looks.now looks.now result
        (λ t. by_shape (t a) (t b)) }
{
    match looks.view(b) {
        Node::Lam(other, right) => domains(looks, a, b, domain, body, other, right),
        _ => Ok(reduced(a, b)),
    }
}

/// A Pi and another term.
fn pi_and<L: Looks>(looks: &L, domain: u64, body: u64, a: u64, b: u64) -> Result<SameNext, NoMemory>
    requires domain_in { domain < length (L.contents looks.now).trees }
    requires body_in { body < length (L.contents looks.now).trees }
    requires a_in { a < length (L.contents looks.now).trees }
    requires b_in { b < length (L.contents looks.now).trees }
    requires a_is { let t = tree_at (L.contents looks.now) in pi (t domain) (t body) ≡ t a }
    ensures { Compares L.contents L.rest L.sight looks.now looks.now result
        (λ t. by_shape (t a) (t b)) }
{
    match looks.view(b) {
        Node::Pi(other, right) => domains(looks, a, b, domain, body, other, right),
        _ => Ok(reduced(a, b)),
    }
}

/// A number and another term.
fn number_and<L: Looks>(looks: &L, number: u128, a: u64, b: u64) -> SameNext
    requires a_in { a < length (L.contents looks.now).trees }
    requires b_in { b < length (L.contents looks.now).trees }
    requires a_is { lit number ≡ tree_at (L.contents looks.now) a }
    ensures { Compares L.contents L.rest L.sight looks.now looks.now (Ok result)
        (λ t. by_shape (t a) (t b)) }
{
    match looks.view(b) {
        Node::Lit(other) => Next::Done(Answer::Truth(number == other)),
        _ => reduced(a, b),
    }
}

/// A text and another term, which is another one.
fn text_and<L: Looks>(looks: &L, text: u64, a: u64, b: u64) -> SameNext
    requires a_in { a < length (L.contents looks.now).trees }
    requires b_in { b < length (L.contents looks.now).trees }
    requires text_in { text < length (L.contents looks.now).texts }
    requires a_is { let c = L.contents looks.now in str (text_at c text) ≡ tree_at c a }
    ensures { Compares L.contents L.rest L.sight looks.now looks.now (Ok result)
        (λ t. by_shape (t a) (t b)) }
{
    match looks.view(b) {
        Node::Str(_) => Next::Done(Answer::Truth(looks.same(a, b))),
        _ => reduced(a, b),
    }
}

/// Two terms by their shape.
pub(crate) fn shape<L: Looks>(looks: &L, a: u64, b: u64) -> Result<SameNext, NoMemory>
    requires a_in { a < length (L.contents looks.now).trees }
    requires b_in { b < length (L.contents looks.now).trees }
    ensures { Compares L.contents L.rest L.sight looks.now looks.now result
        (λ t. by_shape (t a) (t b)) }
{
    match looks.view(a) {
        Node::Sort(level) => sort_and(looks, level, a, b),
        Node::Lam(domain, body) => lambda_and(looks, domain, body, a, b),
        Node::Pi(domain, body) => pi_and(looks, domain, body, a, b),
        Node::Lit(number) => Ok(number_and(looks, number, a, b)),
        Node::Str(text) => Ok(text_and(looks, text, a, b)),
        _ => Ok(reduced(a, b)),
    }
}
