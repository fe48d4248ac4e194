//! Questions asked one after another, of whoever answers them.

ghost use Rattle.std.specs.Prelude.{◌≡◌, ◌<◌, length, IfOk};
ghost use Rattle.lk_tree.specs.LevelTest.{level_test, level_le_test};
ghost use Rattle.lk_questions.specs.Query.{whnf, infer, same};
ghost use Rattle.lk_questions.specs.Program.{asked};
ghost use Rattle.lk_store.specs.Contents.{level_at, tree_at, Extends};
ghost use Rattle.lk_questions.specs.Steps.{as_sort, sort_of};
ghost use Rattle.lk_questions.specs.Levels.{tested};
ghost use Rattle.lk_ask.specs.Questions.{query_of, IsKnownQuery};
ghost use Rattle.lk_declaration.specs.Asked.{AnswersTerm, AnswersTruth, ComesToTerm, ComesToTruth};
ghost use Rattle.lk_declaration.specs.Asked.{sort_form, tested_result};
ghost use Rattle.lk_declaration.specs.Courses.{ComesTo, Settles};

use lk_ask::asks::Asks;
use lk_ask::query::{Answer, Query};
use lk_ask::stop::Stop;
use lk_level_order::compared::{LevelError, equal, leq};
use lk_store::node::Node;
use lk_store::terms::Terms;
use lk_tree::rule::Rule;
use std::alloc::Global;

/// The answer of a question that answers a term.
fn ask_term<A: Asks>(asks: &mut A, query: Query<u64>) -> Result<u64, Stop>
    requires known { IsKnownQuery (length (A.contents asks.old).trees) query }
    requires kind { AnswersTerm (query_of (tree_at (A.contents asks.old)) query) }
    ensures keeps { Extends (A.contents asks.old) (A.contents asks.new) }
    ensures stays { A.standing asks.new ≡ A.standing asks.old }
    ensures known { IfOk result (λ e. e < length (A.contents asks.new).trees) }
    ensures outcome { ComesToTerm (A.standing asks.old)
        (query_of (tree_at (A.contents asks.old)) query) (A.left asks.old)
        (tree_at (A.contents asks.new)) (A.left asks.new) result }
{
    match asks.ask(query)? {
        Answer::Term(e) => Ok(e),
        Answer::Truth(_) => unreachable!(),
    }
}

/// The answer of a question that answers yes or no.
fn ask_truth<A: Asks>(asks: &mut A, query: Query<u64>) -> Result<bool, Stop>
    requires known { IsKnownQuery (length (A.contents asks.old).trees) query }
    requires kind { AnswersTruth (query_of (tree_at (A.contents asks.old)) query) }
    ensures keeps { Extends (A.contents asks.old) (A.contents asks.new) }
    ensures stays { A.standing asks.new ≡ A.standing asks.old }
    ensures outcome { ComesToTruth (A.standing asks.old)
        (query_of (tree_at (A.contents asks.old)) query) (A.left asks.old)
        (A.left asks.new) result }
{
    match asks.ask(query)? {
        Answer::Truth(holds) => Ok(holds),
        Answer::Term(_) => unreachable!(),
    }
}

/// The weak head form of a term.
pub fn form_of<A: Asks>(asks: &mut A, e: u64) -> Result<u64, Stop>
    requires { e < length (A.contents asks.old).trees }
    ensures keeps { Extends (A.contents asks.old) (A.contents asks.new) }
    ensures stays { A.standing asks.new ≡ A.standing asks.old }
    ensures known { IfOk result (λ f. f < length (A.contents asks.new).trees) }
    ensures outcome { ComesTo (A.standing asks.old)
        (asked (whnf (tree_at (A.contents asks.old) e))) (A.left asks.old)
        (tree_at (A.contents asks.new)) (A.left asks.new) result }
{
    ask_term(asks, Query::Whnf(e))
}

/// The type of a term.
pub fn type_of<A: Asks>(asks: &mut A, e: u64) -> Result<u64, Stop>
    requires { e < length (A.contents asks.old).trees }
    ensures keeps { Extends (A.contents asks.old) (A.contents asks.new) }
    ensures stays { A.standing asks.new ≡ A.standing asks.old }
    ensures known { IfOk result (λ f. f < length (A.contents asks.new).trees) }
    ensures outcome { ComesTo (A.standing asks.old)
        (asked (infer (tree_at (A.contents asks.old) e))) (A.left asks.old)
        (tree_at (A.contents asks.new)) (A.left asks.new) result }
{
    ask_term(asks, Query::Infer(e))
}

/// Whether two terms are the same.
pub fn are_same<A: Asks>(asks: &mut A, a: u64, b: u64) -> Result<bool, Stop>
    requires a_in { a < length (A.contents asks.old).trees }
    requires b_in { b < length (A.contents asks.old).trees }
    ensures keeps { Extends (A.contents asks.old) (A.contents asks.new) }
    ensures stays { A.standing asks.new ≡ A.standing asks.old }
    ensures outcome { ComesTo (A.standing asks.old)
        (asked (same (tree_at (A.contents asks.old) a) (tree_at (A.contents asks.old) b)))
        (A.left asks.old) (λ r. r) (A.left asks.new) result }
{
    ask_truth(asks, Query::Same(a, b))
}

/// The level of a weak head form, which is to be a sort (`NotASort`).
fn sort_in<T: Terms>(terms: &T, form: u64) -> Result<u64, Stop>
    requires { form < length (T.contents terms.now).trees }
    ensures known { IfOk result (λ l. l < length (T.contents terms.now).levels) }
    ensures sort { Settles (as_sort (tree_at (T.contents terms.now) form))
        (level_at (T.contents terms.now)) result }
{
    match terms.view(form) {
        Node::Sort(level) => Ok(level),
        _ => Err(Stop::No(Rule::NotASort)),
    }
}

/// The level of the sort that a type is to be.
fn sort_of_type<A: Asks>(asks: &mut A, ty: u64) -> Result<u64, Stop>
    requires { ty < length (A.contents asks.old).trees }
    ensures keeps { Extends (A.contents asks.old) (A.contents asks.new) }
    ensures stays { A.standing asks.new ≡ A.standing asks.old }
    ensures known { IfOk result (λ l. l < length (A.contents asks.new).levels) }
    ensures outcome { ComesTo (A.standing asks.old)
        (sort_form (tree_at (A.contents asks.old) ty)) (A.left asks.old)
        (level_at (A.contents asks.new)) (A.left asks.new) result }
{
    let form = form_of(asks, ty)?;
    sort_in(asks, form)
}

/// The level of a term's sort (`NotASort`).
pub fn sort_of<A: Asks>(asks: &mut A, e: u64) -> Result<u64, Stop>
    requires { e < length (A.contents asks.old).trees }
    ensures keeps { Extends (A.contents asks.old) (A.contents asks.new) }
    ensures stays { A.standing asks.new ≡ A.standing asks.old }
    ensures known { IfOk result (λ l. l < length (A.contents asks.new).levels) }
    ensures outcome { ComesTo (A.standing asks.old)
        (sort_of (tree_at (A.contents asks.old) e)) (A.left asks.old)
        (level_at (A.contents asks.new)) (A.left asks.new) result }
{
    let ty = type_of(asks, e)?;
    sort_of_type(asks, ty)
}

/// What a test of levels comes to in a check.
fn of_levels(outcome: Result<bool, LevelError>) -> Result<bool, Stop>
    ensures { result ≡ tested_result outcome }
{
    match outcome {
        Ok(holds) => Ok(holds),
        Err(error) => match error {
            LevelError::Width => Err(Stop::No(Rule::LevelWidth)),
            LevelError::NoMemory => Err(Stop::NoMemory),
        },
    }
}

/// Whether two levels are equal under every assignment; refused where they are too wide
/// (`LevelWidth`).
pub fn levels_equal<T: Terms>(alloc: Global, terms: &T, a: u64, b: u64) -> Result<bool, Stop>
    requires a_in { a < length (T.contents terms.now).levels }
    requires b_in { b < length (T.contents terms.now).levels }
    ensures { Settles (tested (level_test (level_at (T.contents terms.now) a)
        (level_at (T.contents terms.now) b))) (λ r. r) result }
{
    of_levels(equal(alloc, terms, a, b))
}

/// Whether the left level is at most the right one under every assignment; refused where they are
/// too wide (`LevelWidth`).
pub fn is_at_most<T: Terms>(alloc: Global, terms: &T, a: u64, b: u64) -> Result<bool, Stop>
    requires a_in { a < length (T.contents terms.now).levels }
    requires b_in { b < length (T.contents terms.now).levels }
    ensures { Settles (tested (level_le_test (level_at (T.contents terms.now) a)
        (level_at (T.contents terms.now) b))) (λ r. r) result }
{
    of_levels(leq(alloc, terms, a, b))
}
