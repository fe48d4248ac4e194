//! Who answers questions of which it is known that they are answered.

ghost use Rattle.std.specs.Prelude.{◌≡◌, ◌<◌, ℕ, length, IfOk};
ghost use Rattle.lk_questions.specs.Query.{core, whnf, infer, same};
ghost use Rattle.lk_store.specs.Contents.{tree_at};
ghost use Rattle.lk_step.specs.Told.{IsAnsweredWithin, Leaves, MayAsk, Answers};
ghost use Rattle.lk_step.specs.Told.{IsCore, IsForm, IsType, IsSame};

use lk_ask::looks::Looks;
use lk_ask::query::{Answer, Query};
use lk_store::memory::NoMemory;

/// A store at a library over which questions are answered.
pub trait Derives: Looks {
    /// The plain answer of a question that is answered, at no more than `enough`.
    fn answer(&mut self, query: Query<u64>, enough: u128) -> Result<Answer<u64>, NoMemory>
        requires { MayAsk Self.contents Self.rest Self.sight self.old query enough }
        ensures { Answers Self.contents Self.rest Self.sight self.old self.new query result };
}

/// The weak head form of a term without unfolding.
pub fn core_of<D: Derives>(derives: &mut D, e: u64, enough: u128) -> Result<u64, NoMemory>
    requires e_in { e < length (D.contents derives.old).trees }
    requires answered { IsAnsweredWithin (D.sight (D.rest derives.old)).basis.place
        (core (tree_at (D.contents derives.old) e)) enough }
    ensures leaves { Leaves D.contents D.rest D.sight derives.old derives.new }
    ensures known { IfOk result (λ v. v < length (D.contents derives.new).trees) }
    ensures told { IfOk result (λ v. IsCore (D.sight (D.rest derives.old)).basis.place
        (tree_at (D.contents derives.old) e) (tree_at (D.contents derives.new) v)) }
{
    match derives.answer(Query::Core(e), enough)? {
        Answer::Term(v) => Ok(v),
        Answer::Truth(_) => unreachable!(),
    }
}

/// The weak head form of a term.
pub fn form_of<D: Derives>(derives: &mut D, e: u64, enough: u128) -> Result<u64, NoMemory>
    requires e_in { e < length (D.contents derives.old).trees }
    requires answered { IsAnsweredWithin (D.sight (D.rest derives.old)).basis.place
        (whnf (tree_at (D.contents derives.old) e)) enough }
    ensures leaves { Leaves D.contents D.rest D.sight derives.old derives.new }
    ensures known { IfOk result (λ v. v < length (D.contents derives.new).trees) }
    ensures told { IfOk result (λ v. IsForm (D.sight (D.rest derives.old)).basis.place
        (tree_at (D.contents derives.old) e) (tree_at (D.contents derives.new) v)) }
{
    match derives.answer(Query::Whnf(e), enough)? {
        Answer::Term(v) => Ok(v),
        Answer::Truth(_) => unreachable!(),
    }
}

/// The type of a term.
pub fn type_of<D: Derives>(derives: &mut D, e: u64, enough: u128) -> Result<u64, NoMemory>
    requires e_in { e < length (D.contents derives.old).trees }
    requires answered { IsAnsweredWithin (D.sight (D.rest derives.old)).basis.place
        (infer (tree_at (D.contents derives.old) e)) enough }
    ensures leaves { Leaves D.contents D.rest D.sight derives.old derives.new }
    ensures known { IfOk result (λ v. v < length (D.contents derives.new).trees) }
    ensures told { IfOk result (λ v. IsType (D.sight (D.rest derives.old)).basis.place
        (tree_at (D.contents derives.old) e) (tree_at (D.contents derives.new) v)) }
{
    match derives.answer(Query::Infer(e), enough)? {
        Answer::Term(v) => Ok(v),
        Answer::Truth(_) => unreachable!(),
    }
}

/// Whether two terms are the same.
pub fn are_same<D: Derives>(derives: &mut D, a: u64, b: u64, enough: u128) -> Result<bool, NoMemory>
    requires a_in { a < length (D.contents derives.old).trees }
    requires b_in { b < length (D.contents derives.old).trees }
    requires answered { IsAnsweredWithin (D.sight (D.rest derives.old)).basis.place
        (same (tree_at (D.contents derives.old) a) (tree_at (D.contents derives.old) b)) enough }
    ensures leaves { Leaves D.contents D.rest D.sight derives.old derives.new }
    ensures told { IfOk result (IsSame (D.sight (D.rest derives.old)).basis.place
        (tree_at (D.contents derives.old) a) (tree_at (D.contents derives.old) b)) }
{
    match derives.answer(Query::Same(a, b), enough)? {
        Answer::Truth(y) => Ok(y),
        Answer::Term(_) => unreachable!(),
    }
}
