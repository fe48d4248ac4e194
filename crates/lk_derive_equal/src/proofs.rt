//! Two proofs of one proposition.

ghost use Rattle.std.specs.Prelude.{◌≡◌, ◌<◌, [], ◌∷◌, length, IfOk, IfSome};
ghost use Rattle.lk_rulebook.specs.Claims.{types, reduces, equals};
ghost use Rattle.lk_questions.specs.Query.{infer, whnf, same};
ghost use Rattle.lk_questions.specs.Same.{by_proof_irrelevance};
ghost use Rattle.lk_store.specs.Contents.{tree_at};
ghost use Rattle.lk_written.specs.Line.{proof_rule};
ghost use Rattle.lk_step.specs.Steps.{equality as equality_step};
ghost use Rattle.lk_step.specs.Meaning.{IsRowIn};
ghost use Rattle.lk_step.specs.Told.{Leaves};
ghost use Rattle.lk_step.specs.Makes.{IsMade};
ghost use Rattle.lk_derive_equal.specs.Proofs.{IsProofOf};
ghost use Rattle.lk_step.specs.Tests.{IsRun, AreReduced};
ghost use Rattle.lk_derive_equal.specs.Sorts.{IsSortedIn};
ghost use Rattle.lk_step.specs.Tells.{Tells};

use crate::sorts::{Sorted, sort_of};
use crate::tests::Test;
use lk_ask::looks::Looks;
use lk_ask::query::Query;
use lk_step::derives::{are_same, type_of};
use lk_step::making::{converted, equality, reduction, typing};
use lk_step::{Derives, Row};
use lk_store::memory::NoMemory;
use lk_trace::ConversionRule;

/// The row of two proofs, of types that are the same.
fn proof_row<L: Looks>(
    looks: &L,
    a: u64,
    b: u64,
    left: u64,
    sort: Sorted,
    right: u64,
) -> Result<Row, NoMemory>
    requires a_in { a < length (L.contents looks.now).trees }
    requires b_in { b < length (L.contents looks.now).trees }
    requires left_in { left < length (L.contents looks.now).trees }
    requires sort_in { IsSortedIn (L.contents looks.now) sort }
    requires right_in { right < length (L.contents looks.now).trees }
    ensures known { IfOk result (IsRowIn (L.contents looks.now)) }
    ensures row { let c = L.contents looks.now in let t = tree_at c in IfOk result (IsMade c
        (infer (t a) ∷ infer (t left) ∷ whnf (t sort.ty) ∷ infer (t b)
        ∷ same (t left) (t right) ∷ [])
        (equality_step proof_rule (t a) (t b) (types (t a) (t left) ∷ types (t left) (t sort.ty)
        ∷ reduces (t sort.ty) (t sort.form) ∷ types (t b) (t right)
        ∷ equals (t left) (t right) ∷ []) ∷ [])) }
{
    let alloc = looks.alloc();
    let asks = vec![in alloc;
        Query::Infer(a),
        Query::Infer(left),
        Query::Whnf(sort.ty),
        Query::Infer(b),
        Query::Same(left, right),
    ]?;
    let premises = vec![in alloc;
        typing(a, left),
        typing(left, sort.ty),
        reduction(sort.ty, sort.form),
        typing(b, right),
        equality(left, right),
    ]?;
    converted(looks, ConversionRule::Proof, a, b, asks, premises)
}

/// Two terms, of which the first is a proof.
fn by_types<D: Derives>(
    derives: &mut D,
    a: u64,
    b: u64,
    left: u64,
    sort: Sorted,
    enough: u128,
) -> Result<Option<Row>, NoMemory>
    requires a_in { a < length (D.contents derives.old).trees }
    requires b_in { b < length (D.contents derives.old).trees }
    requires left_in { left < length (D.contents derives.old).trees }
    requires pair { AreReduced (D.sight (D.rest derives.old)).basis.place
        (tree_at (D.contents derives.old) a) (tree_at (D.contents derives.old) b) }
    requires proof { IsProofOf (D.sight (D.rest derives.old)).basis.place
        (tree_at (D.contents derives.old) a) (D.contents derives.old) left sort }
    requires run { IsRun (D.sight (D.rest derives.old)).basis.place (by_proof_irrelevance
        (tree_at (D.contents derives.old) a) (tree_at (D.contents derives.old) b)) enough }
    ensures leaves { Leaves D.contents D.rest D.sight derives.old derives.new }
    ensures known { IfOk result (λ r. IfSome r (IsRowIn (D.contents derives.new))) }
    ensures tells { let t = tree_at (D.contents derives.old) in
        IfOk result (Tells (D.sight (D.rest derives.old)).basis.place (D.contents derives.new)
        (by_proof_irrelevance (t a) (t b)) (equals (t a) (t b))) }
{
    let right = type_of(derives, b, enough)?;
    if !are_same(derives, left, right, enough)? {
        return Ok(None);
    }
    let row = proof_row(derives, a, b, left, sort, right)?;
    Ok(Some(row))
}

/// The test by proof irrelevance. No value of it is needed.
pub struct ProofIrrelevance;

impl<D: Derives> Test<D> for ProofIrrelevance {
    ghost use Rattle.lk_questions.specs.Same.{by_proof_irrelevance};

    ghost line = { by_proof_irrelevance };

    fn tell(derives: &mut D, a: u64, b: u64, enough: u128) -> Result<Option<Row>, NoMemory> {
        let left = type_of(derives, a, enough)?;
        let sort = sort_of(derives, left, enough)?;
        if !derives.level_is_zero(sort.level) {
            return Ok(None);
        }
        by_types(derives, a, b, left, sort, enough)
    }
}
