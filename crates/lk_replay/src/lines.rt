//! Lines, one after another, each on what those before it state.

ghost use Rattle.std.specs.Prelude.{◌≡◌, ◌<◌, length, map, All, IfOk};
ghost use Rattle.lk_written.specs.Line.{claim_of as claim_of_line};
ghost use Rattle.lk_written.specs.Section.{are_fine as are_scoped};
ghost use Rattle.lk_store.specs.Contents.{Contents, tree_at};
ghost use Rattle.lk_trace.specs.Meaning.{line_of, IsLineIn};
ghost use Rattle.lk_fine.specs.Walks.{AreFit};
ghost use Rattle.lk_premises.specs.Claims.{claim_at, claims_at, IsClaimIn, AreClaimsIn};
ghost use Rattle.lk_premises.specs.Testing.{Tests};
ghost use Rattle.lk_replay.specs.Lines.{line_test, line_read, ReadsLines};

use crate::reduction::test_reduction;
use lk_ask::looks::Looks;
use lk_fine::is_fine;
use lk_mentions::part::Met;
use lk_premises::{Claim, Relation};
use lk_replay_equal::test_conversion;
use lk_replay_types::test_typing;
use lk_rows::table::Table;
use lk_store::memory::NoMemory;
use lk_store::terms::Terms;
use lk_trace::{Line, Rule};
use std::alloc::Global;

/// What lines state, where each holds, or else the place of the first that does not, from 0.
#[derive(Drop)]
pub enum Reading {
    Holds(Vec<Claim>),
    Fails(usize),
}

/// What a line states.
fn claim_of(line: &Line) -> Claim
    ensures is { (c : Contents) → claim_at c result ≡ claim_of_line (line_of c line.now) }
    ensures known { (c : Contents) → IsLineIn c line.now → IsClaimIn c result }
{
    match line.rule {
        Rule::Typing(_) => Claim {
            relation: Relation::Typing,
            left: line.left,
            right: line.right,
        },
        Rule::Reduction(_) => Claim {
            relation: Relation::Reduction,
            left: line.left,
            right: line.right,
        },
        Rule::Conversion(_) => Claim {
            relation: Relation::Equality,
            left: line.left,
            right: line.right,
        },
    }
}

/// Whether two trees are closed and well scoped.
fn are_fine<T: Terms>(
    alloc: Global,
    terms: &T,
    met: &mut Table<Met>,
    a: u64,
    b: u64,
) -> Result<bool, NoMemory>
    requires a_in { a < length (T.contents terms.now).trees }
    requires b_in { b < length (T.contents terms.now).trees }
    requires met { AreFit (T.contents terms.now) met.old }
    ensures fine { IfOk result (λ r. r ≡ are_scoped (tree_at (T.contents terms.now) a)
        (tree_at (T.contents terms.now) b)) }
    ensures met { IfOk result (λ r. AreFit (T.contents terms.now) met.new) }
{
    if !is_fine(alloc, terms, met, a)? {
        return Ok(false);
    }
    is_fine(alloc, terms, met, b)
}

/// Whether a line is an instance of its rule.
fn is_instance<L: Looks>(looks: &mut L, claims: &[Claim], line: &Line) -> Result<bool, NoMemory>
    requires claims_in { AreClaimsIn (L.contents looks.old) claims.now }
    requires line_in { IsLineIn (L.contents looks.old) line.now }
    ensures { let c = L.contents looks.old in
        Tests L.contents (λ s. (L.sight (L.rest s)).basis) looks.old looks.new result
        (line_test (L.sight (L.rest looks.old)).basis.place (claims_at c claims.now)
        (line_of c line.now)) }
{
    let (a, b) = (line.left, line.right);
    match line.rule {
        Rule::Typing(rule) => test_typing(looks, claims, rule, a, b, &line.premises),
        Rule::Reduction(rule) => test_reduction(looks, claims, rule, a, b, &line.premises),
        Rule::Conversion(rule) => test_conversion(looks, claims, rule, a, b, &line.premises),
    }
}

/// Whether a line holds.
fn holds<L: Looks>(
    looks: &mut L,
    met: &mut Table<Met>,
    claims: &[Claim],
    line: &Line,
) -> Result<bool, NoMemory>
    requires claims_in { AreClaimsIn (L.contents looks.old) claims.now }
    requires line_in { IsLineIn (L.contents looks.old) line.now }
    requires met { AreFit (L.contents looks.old) met.old }
    ensures tests { let c = L.contents looks.old in
        Tests L.contents (λ s. (L.sight (L.rest s)).basis) looks.old looks.new result
        (line_read (L.sight (L.rest looks.old)).basis.place (claims_at c claims.now)
        (line_of c line.now)) }
    ensures met { IfOk result (λ r. AreFit (L.contents looks.old) met.new) }
{
    if !are_fine(looks.alloc(), looks, met, line.left, line.right)? {
        return Ok(false);
    }
    is_instance(looks, claims, line)
}

/// What lines state, one after another.
pub fn read_lines<L: Looks>(
    looks: &mut L,
    met: &mut Table<Met>,
    lines: &[Line],
) -> Result<Reading, NoMemory>
    requires lines_in { All (IsLineIn (L.contents looks.old)) lines.now }
    requires met { AreFit (L.contents looks.old) met.old }
    ensures { let c = L.contents looks.old in
        ReadsLines L.contents (λ s. (L.sight (L.rest s)).basis) looks.old looks.new result
        (L.sight (L.rest looks.old)).basis.place (map (line_of c) lines.now) }
{
    let mut claims: Vec<Claim> = Vec::new(looks.alloc());
    let mut rest = lines;
    'lines: while let Some((line, more)) = rest.split_first() {
        if !holds(looks, met, &claims, line)? {
            return Ok(Reading::Fails(claims.len()));
        }
        claims.push(claim_of(line))?;
        rest = more;
    }
    Ok(Reading::Holds(claims))
}
