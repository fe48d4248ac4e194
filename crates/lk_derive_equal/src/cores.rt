//! Two terms by their `Core`.

ghost use Rattle.std.specs.Prelude.{◌≡◌, ◌<◌, ◌&&◌, [], ◌∷◌, length, IfOk};
ghost use Rattle.lk_rulebook.specs.Claims.{reduces, equals};
ghost use Rattle.lk_questions.specs.Query.{core, same};
ghost use Rattle.lk_questions.specs.Same.{by_reduction};
ghost use Rattle.lk_questions.specs.Steps.{is_same_tree};
ghost use Rattle.lk_store.specs.Contents.{tree_at};
ghost use Rattle.lk_written.specs.Line.{reduce_rule};
ghost use Rattle.lk_step.specs.Steps.{equality as equality_step};
ghost use Rattle.lk_step.specs.Meaning.{IsRowIn};
ghost use Rattle.lk_step.specs.Told.{Leaves};
ghost use Rattle.lk_step.specs.Makes.{IsMade};
ghost use Rattle.lk_step.specs.Tests.{IsYes, ArePair};
ghost use Rattle.lk_step.specs.Tells.{Rests};

use crate::tests::{AllTests, by_tests};
use lk_ask::looks::Looks;
use lk_ask::query::Query;
use lk_premises::same_tree;
use lk_step::derives::core_of;
use lk_step::making::{converted, equality, reduction};
use lk_step::{Derives, Row};
use lk_store::memory::NoMemory;
use lk_store::terms::Terms;
use lk_trace::ConversionRule;

/// Whether two terms are what they reduce to.
fn both_stay<T: Terms>(terms: &T, a: u64, b: u64, left: u64, right: u64) -> bool
    requires a_in { a < length (T.contents terms.now).trees }
    requires b_in { b < length (T.contents terms.now).trees }
    requires left_in { left < length (T.contents terms.now).trees }
    requires right_in { right < length (T.contents terms.now).trees }
    ensures { let t = tree_at (T.contents terms.now) in
        result ≡ is_same_tree (t left) (t a) && is_same_tree (t right) (t b) }
{
    same_tree(terms, left, a) && same_tree(terms, right, b)
}

/// The row of two terms that reduce to these.
fn reduced_row<L: Looks>(looks: &L, a: u64, b: u64, left: u64, right: u64) -> Result<Row, NoMemory>
    requires a_in { a < length (L.contents looks.now).trees }
    requires b_in { b < length (L.contents looks.now).trees }
    requires left_in { left < length (L.contents looks.now).trees }
    requires right_in { right < length (L.contents looks.now).trees }
    ensures known { IfOk result (IsRowIn (L.contents looks.now)) }
    ensures row { let c = L.contents looks.now in let t = tree_at c in IfOk result (IsMade c
        (core (t a) ∷ core (t b) ∷ same (t left) (t right) ∷ [])
        (equality_step reduce_rule (t a) (t b) (reduces (t a) (t left) ∷ reduces (t b) (t right)
        ∷ equals (t left) (t right) ∷ []) ∷ [])) }
{
    let alloc = looks.alloc();
    let asks = vec![in alloc; Query::Core(a), Query::Core(b), Query::Same(left, right)]?;
    let premises = vec![in alloc;
        reduction(a, left),
        reduction(b, right),
        equality(left, right),
    ]?;
    converted(looks, ConversionRule::Reduce, a, b, asks, premises)
}

/// The row of two terms by their `Core`.
pub(crate) fn by_cores<D: Derives, N: AllTests<D>>(
    derives: &mut D,
    a: u64,
    b: u64,
    enough: u128,
) -> Result<Row, NoMemory>
    requires a_in { a < length (D.contents derives.old).trees }
    requires b_in { b < length (D.contents derives.old).trees }
    requires pair { ArePair (D.sight (D.rest derives.old)).basis.place
        (tree_at (D.contents derives.old) a) (tree_at (D.contents derives.old) b) }
    requires says { IsYes (D.sight (D.rest derives.old)).basis.place (by_reduction
        (tree_at (D.contents derives.old) a) (tree_at (D.contents derives.old) b)) enough }
    ensures leaves { Leaves D.contents D.rest D.sight derives.old derives.new }
    ensures known { IfOk result (IsRowIn (D.contents derives.new)) }
    ensures rests { let t = tree_at (D.contents derives.old) in
        IfOk result (Rests (D.sight (D.rest derives.old)).basis.place (D.contents derives.new)
        (by_reduction (t a) (t b)) (equals (t a) (t b))) }
{
    let left = core_of(derives, a, enough)?;
    let right = core_of(derives, b, enough)?;
    if both_stay(derives, a, b, left, right) {
        return by_tests::<D, N>(derives, a, b, enough);
    }
    reduced_row(derives, a, b, left, right)
}
