//! A text, and its expansion.

ghost use Rattle.std.specs.Prelude.{◌<◌, length};
ghost use Rattle.lk_written.specs.Equal.{eq_str_left, eq_str_right};
ghost use Rattle.lk_store.specs.Contents.{text_at, tree_at};
ghost use Rattle.lk_premises.specs.Claims.{claims_at, AreClaimsIn};
ghost use Rattle.lk_premises.specs.Testing.{Tests};
ghost use Rattle.lk_premises.specs.Found.{expanded, FindsTree};
ghost use Rattle.lk_replay_equal.specs.Texts.{text_and, and_text};

use lk_ask::looks::Looks;
use lk_lit::expansion_of;
use lk_premises::{Claim, are_equal};
use lk_store::memory::NoMemory;
use lk_store::node::Node;

/// The expansion of a text, where it expands and its names are given.
#[tactic(auto, using(lk_premises::proofs::Settled::settled_found, lk_premises::proofs::Settled::failed_found))]
fn text_expansion<L: Looks>(looks: &mut L, text: u64) -> Result<Option<u64>, NoMemory>
    requires { text < length (L.contents looks.old).texts }
    ensures { FindsTree L.contents (λ s. (L.sight (L.rest s)).basis) looks.old looks.new result
        (expanded (L.sight (L.rest looks.old)).basis.place (text_at (L.contents looks.old) text)) }
{
    match expansion_of(looks, text)? {
        Ok(expansion) => Ok(expansion),
        Err(_) => Ok(None),
    }
}

/// Whether the expansion of a text equals a tree.
#[tactic(auto, using(lk_premises::proofs::Staying::claims_known, lk_premises::proofs::Staying::claims_same))]
fn expansion_equals<L: Looks>(
    looks: &mut L,
    claims: &[Claim],
    left: &[u32],
    text: u64,
    b: u64,
) -> Result<bool, NoMemory>
    requires claims_in { AreClaimsIn (L.contents looks.old) claims.now }
    requires text_in { text < length (L.contents looks.old).texts }
    requires b_in { b < length (L.contents looks.old).trees }
    ensures { let c = L.contents looks.old in
        Tests L.contents (λ s. (L.sight (L.rest s)).basis) looks.old looks.new result
        (text_and (L.sight (L.rest looks.old)).basis.place (claims_at c claims.now) left.now
        (text_at c text) (tree_at c b)) }
{
    match text_expansion(looks, text)? {
        Some(expansion) => Ok(are_equal(looks, claims, left, expansion, b)),
        None => Ok(false),
    }
}

/// Whether a tree equals the expansion of a text.
#[tactic(auto, using(lk_premises::proofs::Staying::claims_known, lk_premises::proofs::Staying::claims_same))]
fn equals_expansion<L: Looks>(
    looks: &mut L,
    claims: &[Claim],
    left: &[u32],
    a: u64,
    text: u64,
) -> Result<bool, NoMemory>
    requires claims_in { AreClaimsIn (L.contents looks.old) claims.now }
    requires a_in { a < length (L.contents looks.old).trees }
    requires text_in { text < length (L.contents looks.old).texts }
    ensures { let c = L.contents looks.old in
        Tests L.contents (λ s. (L.sight (L.rest s)).basis) looks.old looks.new result
        (and_text (L.sight (L.rest looks.old)).basis.place (claims_at c claims.now) left.now
        (tree_at c a) (text_at c text)) }
{
    match text_expansion(looks, text)? {
        Some(expansion) => Ok(are_equal(looks, claims, left, a, expansion)),
        None => Ok(false),
    }
}

/// A line of a text and another tree.
pub fn test_text_left<L: Looks>(
    looks: &mut L,
    claims: &[Claim],
    left: &[u32],
    a: u64,
    b: u64,
) -> Result<bool, NoMemory>
    requires claims_in { AreClaimsIn (L.contents looks.old) claims.now }
    requires a_in { a < length (L.contents looks.old).trees }
    requires b_in { b < length (L.contents looks.old).trees }
    ensures { let c = L.contents looks.old in
        Tests L.contents (λ s. (L.sight (L.rest s)).basis) looks.old looks.new result
        (eq_str_left (L.sight (L.rest looks.old)).basis.place (claims_at c claims.now) left.now
        (tree_at c a) (tree_at c b)) }
{
    match looks.view(a) {
        Node::Str(text) => expansion_equals(looks, claims, left, text, b),
        _ => Ok(false),
    }
}

/// A line of a tree and a text.
pub fn test_text_right<L: Looks>(
    looks: &mut L,
    claims: &[Claim],
    left: &[u32],
    a: u64,
    b: u64,
) -> Result<bool, NoMemory>
    requires claims_in { AreClaimsIn (L.contents looks.old) claims.now }
    requires a_in { a < length (L.contents looks.old).trees }
    requires b_in { b < length (L.contents looks.old).trees }
    ensures { let c = L.contents looks.old in
        Tests L.contents (λ s. (L.sight (L.rest s)).basis) looks.old looks.new result
        (eq_str_right (L.sight (L.rest looks.old)).basis.place (claims_at c claims.now) left.now
        (tree_at c a) (tree_at c b)) }
{
    match looks.view(b) {
        Node::Str(text) => equals_expansion(looks, claims, left, a, text),
        _ => Ok(false),
    }
}
