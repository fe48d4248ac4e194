//! The major premise of a recursor, which reduces to what reads as a constructor.

ghost use Rattle.std.specs.Prelude.{◌≡◌, ◌<◌, Some, length};
ghost use Rattle.lk_tree.specs.Tree.{app};
ghost use Rattle.lk_tree.specs.Spine.{head as head_of, args as args_of};
ghost use Rattle.lk_rulebook.specs.Place.{Entry as PlainEntry};
ghost use Rattle.lk_questions.specs.Tests.{passes, reads_as as reads_so, reads};
ghost use Rattle.lk_written.specs.Reducing.{major_of, red_major};
ghost use Rattle.lk_store.specs.Contents.{tree_at};
ghost use Rattle.lk_ask.specs.Looks.{entry_at};
ghost use Rattle.lk_premises.specs.Claims.{claims_at, AreClaimsIn};
ghost use Rattle.lk_premises.specs.Testing.{Tests};
ghost use Rattle.lk_replay_iota.specs.Majors.{has_before, zero_is, successor_is, number_is};
ghost use Rattle.lk_replay_iota.specs.Majors.{text_is, major_read};

use crate::recursors::before_of;
use crate::texts::text_as_constructor;
use lk_ask::looks::Looks;
use lk_env::entry::Entry;
use lk_eta::arguments::has_arguments;
use lk_premises::{Claim, ended, head_meaning, nat_successor, nat_zero, reduced, same_tree};
use lk_store::memory::NoMemory;
use lk_store::node::Node;
use lk_store::terms::Terms;
use std::alloc::Global;

/// Whether an entry is a recursor, and a tree has just the arguments that stand before its major premise.
fn is_before<L: Looks>(looks: &L, entry: Entry, f: u64) -> bool
    requires { f < length (L.contents looks.now).trees }
    ensures { (g : PlainEntry) → entry_at (L.sight (L.rest looks.now)).basis entry ≡ Some g
        → result ≡ passes (has_before
        (length (args_of (tree_at (L.contents looks.now) f))) g.kind) }
{
    match before_of(looks, entry) {
        Some(count) => has_arguments(looks, f, count),
        None => false,
    }
}

/// Whether a tree is a recursor with all arguments before its major premise.
fn is_recursor<L: Looks>(looks: &L, f: u64) -> bool
    requires { f < length (L.contents looks.now).trees }
    ensures { let t = tree_at (L.contents looks.now) f in
        result ≡ passes (major_of (L.sight (L.rest looks.now)).basis.place (head_of t)
        (length (args_of t))) }
{
    match head_meaning(looks, f) {
        Some(front) => is_before(looks, front.entry, f),
        None => false,
    }
}

/// Whether a tree is `Nat.zero`.
fn is_zero<T: Terms>(alloc: Global, terms: &mut T, n: u64) -> Result<bool, NoMemory>
    requires { n < length (T.contents terms.old).trees }
    ensures { Tests T.contents T.rest terms.old terms.new result
        (zero_is (tree_at (T.contents terms.old) n)) }
{
    let zero = nat_zero(alloc, terms)?;
    Ok(same_tree(terms, n, zero))
}

/// Whether a tree is the successor of a number.
fn is_successor<T: Terms>(
    alloc: Global,
    terms: &mut T,
    below: u128,
    n: u64,
) -> Result<bool, NoMemory>
    requires { n < length (T.contents terms.old).trees }
    ensures { Tests T.contents T.rest terms.old terms.new result
        (successor_is below (tree_at (T.contents terms.old) n)) }
{
    let successor = nat_successor(alloc, terms)?;
    let number = terms.make(Node::Lit(below))?;
    let e = terms.make(Node::App(successor, number))?;
    Ok(same_tree(terms, n, e))
}

/// Whether a tree is a number as a constructor.
fn is_number<T: Terms>(alloc: Global, terms: &mut T, number: u128, n: u64) -> Result<bool, NoMemory>
    requires { n < length (T.contents terms.old).trees }
    ensures { Tests T.contents T.rest terms.old terms.new result
        (number_is number (tree_at (T.contents terms.old) n)) }
{
    if number == 0 {
        is_zero(alloc, terms, n)
    } else {
        is_successor(alloc, terms, number - 1, n)
    }
}

/// Whether a tree is a text as a constructor.
fn is_text<L: Looks>(looks: &mut L, m: u64, n: u64) -> Result<bool, NoMemory>
    requires m_in { m < length (L.contents looks.old).trees }
    requires n_in { n < length (L.contents looks.old).trees }
    ensures { let t = tree_at (L.contents looks.old) in
        Tests L.contents (λ s. (L.sight (L.rest s)).basis) looks.old looks.new result
        (text_is (L.sight (L.rest looks.old)).basis.place (t m) (t n)) }
{
    match text_as_constructor(looks, m)? {
        Some(e) => Ok(same_tree(looks, n, e)),
        None => Ok(false),
    }
}

/// Whether a literal reads as a constructor.
fn reads_as<L: Looks>(looks: &mut L, m: u64, n: u64) -> Result<bool, NoMemory>
    requires m_in { m < length (L.contents looks.old).trees }
    requires n_in { n < length (L.contents looks.old).trees }
    ensures { let t = tree_at (L.contents looks.old) in
        Tests L.contents (λ s. (L.sight (L.rest s)).basis) looks.old looks.new result
        (reads_so (L.sight (L.rest looks.old)).basis.place (t m) (t n)) }
{
    let alloc = looks.alloc();
    match looks.view(m) {
        Node::Lit(number) => is_number(alloc, looks, number, n),
        Node::Str(_) => is_text(looks, m, n),
        _ => Ok(false),
    }
}

/// Whether a tree reads as another one.
fn is_read_as<L: Looks>(looks: &mut L, m: u64, n: u64) -> Result<bool, NoMemory>
    requires m_in { m < length (L.contents looks.old).trees }
    requires n_in { n < length (L.contents looks.old).trees }
    ensures { let t = tree_at (L.contents looks.old) in
        Tests L.contents (λ s. (L.sight (L.rest s)).basis) looks.old looks.new result
        (reads (L.sight (L.rest looks.old)).basis.place (t m) (t n)) }
{
    if same_tree(looks, n, m) {
        return Ok(true);
    }
    reads_as(looks, m, n)
}

/// Whether an application is a recursor on its major premise, and another one the same on what that reduces to.
fn is_major<L: Looks>(
    looks: &mut L,
    claims: &[Claim],
    left: &[u32],
    f: u64,
    e: u64,
    g: u64,
    n: u64,
) -> Result<bool, NoMemory>
    requires claims_in { AreClaimsIn (L.contents looks.old) claims.now }
    requires f_in { f < length (L.contents looks.old).trees }
    requires e_in { e < length (L.contents looks.old).trees }
    requires g_in { g < length (L.contents looks.old).trees }
    requires n_in { n < length (L.contents looks.old).trees }
    ensures { let c = L.contents looks.old in
        Tests L.contents (λ s. (L.sight (L.rest s)).basis) looks.old looks.new result
        (major_read (L.sight (L.rest looks.old)).basis.place (claims_at c claims.now) left.now
        (tree_at c f) (tree_at c e) (tree_at c g) (tree_at c n)) }
{
    if !is_recursor(looks, f) || !same_tree(looks, g, f) {
        return Ok(false);
    }
    let form = reduced(looks, claims, left, e);
    if !is_read_as(looks, form.tree, n)? {
        return Ok(false);
    }
    Ok(ended(form.after))
}

/// An application, and a tree that is to be one.
#[tactic(auto, using(crate::proofs::MajorForms::major_by))]
fn major_and<L: Looks>(
    looks: &mut L,
    claims: &[Claim],
    left: &[u32],
    f: u64,
    e: u64,
    b: u64,
) -> Result<bool, NoMemory>
    requires claims_in { AreClaimsIn (L.contents looks.old) claims.now }
    requires f_in { f < length (L.contents looks.old).trees }
    requires e_in { e < length (L.contents looks.old).trees }
    requires b_in { b < length (L.contents looks.old).trees }
    ensures { let c = L.contents looks.old in
        Tests L.contents (λ s. (L.sight (L.rest s)).basis) looks.old looks.new result
        (red_major (L.sight (L.rest looks.old)).basis.place (claims_at c claims.now) left.now
        (app (tree_at c f) (tree_at c e)) (tree_at c b)) }
{
    match looks.view(b) {
        Node::App(g, n) => is_major(looks, claims, left, f, e, g, n),
        _ => Ok(false),
    }
}

/// A line of the major premise of a recursor.
pub fn test_major<L: Looks>(
    looks: &mut L,
    claims: &[Claim],
    left: &[u32],
    a: u64,
    b: u64,
) -> Result<bool, NoMemory>
    requires claims_in { AreClaimsIn (L.contents looks.old) claims.now }
    requires a_in { a < length (L.contents looks.old).trees }
    requires b_in { b < length (L.contents looks.old).trees }
    ensures { let c = L.contents looks.old in
        Tests L.contents (λ s. (L.sight (L.rest s)).basis) looks.old looks.new result
        (red_major (L.sight (L.rest looks.old)).basis.place (claims_at c claims.now) left.now
        (tree_at c a) (tree_at c b)) }
{
    match looks.view(a) {
        Node::App(f, e) => major_and(looks, claims, left, f, e, b),
        _ => Ok(false),
    }
}
