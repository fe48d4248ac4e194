//! Two terms of a type with one value.

ghost use Rattle.std.specs.Prelude.{◌≡◌, ◌<◌, [], ◌∷◌, length, IfOk, IfSome};
ghost use Rattle.lk_rulebook.specs.Claims.{types, reduces, equals};
ghost use Rattle.lk_questions.specs.Query.{infer, whnf, same};
ghost use Rattle.lk_questions.specs.Eta.{by_unit_eta};
ghost use Rattle.lk_store.specs.Contents.{tree_at};
ghost use Rattle.lk_written.specs.Line.{unit_rule};
ghost use Rattle.lk_step.specs.Steps.{equality as equality_step};
ghost use Rattle.lk_step.specs.Meaning.{IsRowIn};
ghost use Rattle.lk_step.specs.Told.{Leaves};
ghost use Rattle.lk_step.specs.Makes.{IsMade};
ghost use Rattle.lk_step.specs.Tests.{AreReduced};
ghost use Rattle.lk_step.specs.Tells.{Tells};
ghost use Rattle.lk_derive_eta.specs.Open.{IsNotNo};
ghost use Rattle.lk_derive_eta.specs.Units.{has_one_value, IsOfOneValue};

use lk_ask::looks::Looks;
use lk_ask::query::Query;
use lk_eta::unit::is_unit_like;
use lk_premises::head_meaning;
use lk_step::derives::{form_of, type_of};
use lk_step::making::{converted, equality, reduction, typing};
use lk_step::{Derives, Row};
use lk_store::memory::NoMemory;
use lk_trace::ConversionRule;

/// Whether a term in weak head form is a type with one value, at just its parameters.
fn has_one_value<L: Looks>(looks: &L, form: u64) -> Result<bool, NoMemory>
    requires { form < length (L.contents looks.now).trees }
    ensures { IfOk result (λ y. y ≡ has_one_value (L.sight (L.rest looks.now)).basis.place
        (tree_at (L.contents looks.now) form)) }
{
    match head_meaning(looks, form) {
        Some(front) => is_unit_like(looks, front.entry, form),
        None => Ok(false),
    }
}

/// The row of two terms of equal types, of which the first has this weak head form.
fn units_row<L: Looks>(
    looks: &L,
    a: u64,
    b: u64,
    ty: u64,
    form: u64,
    other: u64,
) -> Result<Row, NoMemory>
    requires a_in { a < length (L.contents looks.now).trees }
    requires b_in { b < length (L.contents looks.now).trees }
    requires ty_in { ty < length (L.contents looks.now).trees }
    requires form_in { form < length (L.contents looks.now).trees }
    requires other_in { other < length (L.contents looks.now).trees }
    ensures known { IfOk result (IsRowIn (L.contents looks.now)) }
    ensures row { let c = L.contents looks.now in let t = tree_at c in IfOk result (IsMade c
        (infer (t a) ∷ whnf (t ty) ∷ infer (t b) ∷ same (t ty) (t other) ∷ [])
        (equality_step unit_rule (t a) (t b) (types (t a) (t ty) ∷ reduces (t ty) (t form)
        ∷ types (t b) (t other) ∷ equals (t ty) (t other) ∷ []) ∷ [])) }
{
    let alloc = looks.alloc();
    let asks = vec![in alloc;
        Query::Infer(a),
        Query::Whnf(ty),
        Query::Infer(b),
        Query::Same(ty, other),
    ]?;
    let premises = vec![in alloc;
        typing(a, ty),
        reduction(ty, form),
        typing(b, other),
        equality(ty, other),
    ]?;
    converted(looks, ConversionRule::UnitLike, a, b, asks, premises)
}

/// Two terms, of which the first has a type with one value: the test said nothing but yes, so their types are the same.
fn of_one_value<D: Derives>(
    derives: &mut D,
    a: u64,
    b: u64,
    ty: u64,
    form: u64,
    enough: u128,
) -> Result<Row, NoMemory>
    requires a_in { a < length (D.contents derives.old).trees }
    requires b_in { b < length (D.contents derives.old).trees }
    requires pair { AreReduced (D.sight (D.rest derives.old)).basis.place
        (tree_at (D.contents derives.old) a) (tree_at (D.contents derives.old) b) }
    requires one { IsOfOneValue (D.sight (D.rest derives.old)).basis.place
        (tree_at (D.contents derives.old) a) (D.contents derives.old) ty form }
    requires run { IsNotNo (D.sight (D.rest derives.old)).basis.place (by_unit_eta
        (tree_at (D.contents derives.old) a) (tree_at (D.contents derives.old) b)) enough }
    ensures leaves { Leaves D.contents D.rest D.sight derives.old derives.new }
    ensures known { IfOk result (IsRowIn (D.contents derives.new)) }
    ensures tells { let t = tree_at (D.contents derives.old) in IfOk result (λ r. Tells
        (D.sight (D.rest derives.old)).basis.place (D.contents derives.new)
        (by_unit_eta (t a) (t b)) (equals (t a) (t b)) (Some r)) }
{
    let other = type_of(derives, b, enough)?;
    let row = units_row(derives, a, b, ty, form, other)?;
    Ok(row)
}

/// Two terms by eta of unit-like types. There is no row where the test leaves them to those behind it.
pub(crate) fn by_units<D: Derives>(
    derives: &mut D,
    a: u64,
    b: u64,
    enough: u128,
) -> Result<Option<Row>, NoMemory>
    requires a_in { a < length (D.contents derives.old).trees }
    requires b_in { b < length (D.contents derives.old).trees }
    requires pair { AreReduced (D.sight (D.rest derives.old)).basis.place
        (tree_at (D.contents derives.old) a) (tree_at (D.contents derives.old) b) }
    requires run { IsNotNo (D.sight (D.rest derives.old)).basis.place (by_unit_eta
        (tree_at (D.contents derives.old) a) (tree_at (D.contents derives.old) b)) enough }
    ensures leaves { Leaves D.contents D.rest D.sight derives.old derives.new }
    ensures known { IfOk result (λ r. IfSome r (IsRowIn (D.contents derives.new))) }
    ensures tells { let t = tree_at (D.contents derives.old) in
        IfOk result (Tells (D.sight (D.rest derives.old)).basis.place (D.contents derives.new)
        (by_unit_eta (t a) (t b)) (equals (t a) (t b))) }
{
    let ty = type_of(derives, a, enough)?;
    let form = form_of(derives, ty, enough)?;
    if !has_one_value(derives, form)? {
        return Ok(None);
    }
    let row = of_one_value(derives, a, b, ty, form, enough)?;
    Ok(Some(row))
}
