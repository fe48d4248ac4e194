//! The tests of two terms that `Core` leaves as they are, one behind the other.

ghost use Rattle.std.specs.Prelude.{◌≡◌, ◌<◌, Bool, length, IfOk, IfSome};
ghost use Rattle.lk_tree.specs.Tree.{Tree};
ghost use Rattle.lk_rulebook.specs.Claims.{equals};
ghost use Rattle.lk_questions.specs.Pairs.{Line};
ghost use Rattle.lk_questions.specs.Program.{Program};
ghost use Rattle.lk_questions.specs.Same.{same_reduced};
ghost use Rattle.lk_store.specs.Contents.{tree_at};
ghost use Rattle.lk_step.specs.Meaning.{IsRowIn};
ghost use Rattle.lk_step.specs.Told.{Leaves};
ghost use Rattle.lk_step.specs.Tests.{IsYes, IsRun, NeverNo, AreReduced};
ghost use Rattle.lk_step.specs.Tells.{Tells, Rests};

use lk_step::{Derives, Row};
use lk_store::memory::NoMemory;

/// A test of `Same`.
pub trait Test<D: Derives> {
    /// What it does with two terms.
    ghost line: { Tree → Tree → Line };

    /// The row of two terms where it says yes; none where it says nothing of them. It does not say no.
    fn tell(derives: &mut D, a: u64, b: u64, enough: u128) -> Result<Option<Row>, NoMemory>
        requires a_in { a < length (D.contents derives.old).trees }
        requires b_in { b < length (D.contents derives.old).trees }
        requires pair { AreReduced (D.sight (D.rest derives.old)).basis.place
            (tree_at (D.contents derives.old) a) (tree_at (D.contents derives.old) b) }
        requires run { IsRun (D.sight (D.rest derives.old)).basis.place (line
            (tree_at (D.contents derives.old) a) (tree_at (D.contents derives.old) b)) enough }
        requires never_no { NeverNo (D.sight (D.rest derives.old)).basis.place (line
            (tree_at (D.contents derives.old) a) (tree_at (D.contents derives.old) b)) }
        ensures leaves { Leaves D.contents D.rest D.sight derives.old derives.new }
        ensures known { IfOk result (λ r. IfSome r (IsRowIn (D.contents derives.new))) }
        ensures tells { let t = tree_at (D.contents derives.old) in
            IfOk result (Tells (D.sight (D.rest derives.old)).basis.place (D.contents derives.new)
            (line (t a) (t b)) (equals (t a) (t b))) };
}

/// Tests of `Same`, of which one says yes.
pub trait Tests<D: Derives> {
    /// What they do with two terms.
    ghost program: { Tree → Tree → Program Bool };

    /// The row of two terms by the first that says yes.
    fn row(derives: &mut D, a: u64, b: u64, enough: u128) -> Result<Row, NoMemory>
        requires a_in { a < length (D.contents derives.old).trees }
        requires b_in { b < length (D.contents derives.old).trees }
        requires pair { AreReduced (D.sight (D.rest derives.old)).basis.place
            (tree_at (D.contents derives.old) a) (tree_at (D.contents derives.old) b) }
        requires says { IsYes (D.sight (D.rest derives.old)).basis.place (program
            (tree_at (D.contents derives.old) a) (tree_at (D.contents derives.old) b)) enough }
        ensures leaves { Leaves D.contents D.rest D.sight derives.old derives.new }
        ensures known { IfOk result (IsRowIn (D.contents derives.new)) }
        ensures rests { let t = tree_at (D.contents derives.old) in
            IfOk result (Rests (D.sight (D.rest derives.old)).basis.place (D.contents derives.new)
            (program (t a) (t b)) (equals (t a) (t b))) };
}

/// All tests of `Same`.
pub trait AllTests<D: Derives>: Tests<D> {
    ghost whole: { (a b : Tree) → Self.program a b ≡ same_reduced a b };
}

/// A test before others. No value of it is made.
pub struct Before<T, N> {
    pub first: T,
    pub others: N,
}

impl<D: Derives, T: Test<D>, N: Tests<D>> Tests<D> for Before<T, N> {
    ghost use Rattle.lk_derive_equal.specs.Orders.{first_of};

    ghost program = { λ a b. first_of (T.line a b) (N.program a b) };

    fn row(derives: &mut D, a: u64, b: u64, enough: u128) -> Result<Row, NoMemory> {
        let found = T::tell(derives, a, b, enough)?;
        match found {
            Some(row) => Ok(row),
            None => N::row(derives, a, b, enough),
        }
    }
}

/// The row of two terms by the first of all tests that says yes.
pub(crate) fn by_tests<D: Derives, N: AllTests<D>>(
    derives: &mut D,
    a: u64,
    b: u64,
    enough: u128,
) -> Result<Row, NoMemory>
    requires a_in { a < length (D.contents derives.old).trees }
    requires b_in { b < length (D.contents derives.old).trees }
    requires pair { AreReduced (D.sight (D.rest derives.old)).basis.place
        (tree_at (D.contents derives.old) a) (tree_at (D.contents derives.old) b) }
    requires says { IsYes (D.sight (D.rest derives.old)).basis.place (same_reduced
        (tree_at (D.contents derives.old) a) (tree_at (D.contents derives.old) b)) enough }
    ensures leaves { Leaves D.contents D.rest D.sight derives.old derives.new }
    ensures known { IfOk result (IsRowIn (D.contents derives.new)) }
    ensures rests { let t = tree_at (D.contents derives.old) in
        IfOk result (Rests (D.sight (D.rest derives.old)).basis.place (D.contents derives.new)
        (same_reduced (t a) (t b)) (equals (t a) (t b))) }
{
    N::row(derives, a, b, enough)
}
