//! Function eta: a lambda, and another term as one.

ghost use Rattle.std.specs.Prelude.{◌≡◌, ◌<◌, true, false, [], ◌∷◌, length, IfOk, IfSome};
ghost use Rattle.lk_rulebook.specs.Claims.{types, reduces, equals};
ghost use Rattle.lk_questions.specs.Query.{infer, whnf, same};
ghost use Rattle.lk_questions.specs.Same.{by_function_eta, is_lam};
ghost use Rattle.lk_store.specs.Contents.{tree_at};
ghost use Rattle.lk_written.specs.Line.{eta_rule};
ghost use Rattle.lk_step.specs.Steps.{equality as equality_step};
ghost use Rattle.lk_step.specs.Meaning.{IsRowIn};
ghost use Rattle.lk_step.specs.Told.{Leaves};
ghost use Rattle.lk_derive_equal.specs.Etas.{IsTypedBy};
ghost use Rattle.lk_step.specs.Makes.{IsMade};
ghost use Rattle.lk_step.specs.Tests.{IsRun, AreReduced};
ghost use Rattle.lk_step.specs.Tells.{Tells};

use crate::tests::Test;
use lk_ask::looks::Looks;
use lk_ask::query::Query;
use lk_eta::function::long;
use lk_step::derives::{are_same, form_of, type_of};
use lk_step::making::{converted, equality, reduction, typing};
use lk_step::{Derives, Row};
use lk_store::memory::NoMemory;
use lk_store::node::Node;
use lk_store::terms::Terms;
use lk_trace::ConversionRule;

/// A term's type, its weak head form, and the parts of that, which is a function type.
#[derive(Clone, Copy)]
pub(crate) struct Typed {
    pub ty: u64,
    pub form: u64,
    pub domain: u64,
    pub codomain: u64,
}

/// Two terms that are compared.
#[derive(Clone, Copy)]
struct Sides {
    left: u64,
    right: u64,
}

/// Whether a term is a lambda.
fn is_lambda<T: Terms>(terms: &T, e: u64) -> bool
    requires { e < length (T.contents terms.now).trees }
    ensures { result ≡ is_lam (tree_at (T.contents terms.now) e) }
{
    match terms.view(e) {
        Node::Lam(_, _) => true,
        _ => false,
    }
}

/// The row of two terms, of which the one, `e`, was compared as a lambda.
fn eta_row<L: Looks>(
    looks: &L,
    a: u64,
    b: u64,
    e: u64,
    typed: Typed,
    sides: Sides,
) -> Result<Row, NoMemory>
    requires a_in { a < length (L.contents looks.now).trees }
    requires b_in { b < length (L.contents looks.now).trees }
    requires e_in { e < length (L.contents looks.now).trees }
    requires ty_in { typed.ty < length (L.contents looks.now).trees }
    requires form_in { typed.form < length (L.contents looks.now).trees }
    requires left_in { sides.left < length (L.contents looks.now).trees }
    requires right_in { sides.right < length (L.contents looks.now).trees }
    ensures known { IfOk result (IsRowIn (L.contents looks.now)) }
    ensures row { let c = L.contents looks.now in let t = tree_at c in IfOk result (IsMade c
        (infer (t e) ∷ whnf (t typed.ty) ∷ same (t sides.left) (t sides.right) ∷ [])
        (equality_step eta_rule (t a) (t b) (types (t e) (t typed.ty)
        ∷ reduces (t typed.ty) (t typed.form) ∷ equals (t sides.left) (t sides.right) ∷ [])
        ∷ [])) }
{
    let alloc = looks.alloc();
    let asks = vec![in alloc;
        Query::Infer(e),
        Query::Whnf(typed.ty),
        Query::Same(sides.left, sides.right),
    ]?;
    let premises = vec![in alloc;
        typing(e, typed.ty),
        reduction(typed.ty, typed.form),
        equality(sides.left, sides.right),
    ]?;
    converted(looks, ConversionRule::Eta, a, b, asks, premises)
}

/// The first of two terms, of this type, as a lambda, beside the other one, which is a lambda.
fn first_long<D: Derives>(
    derives: &mut D,
    a: u64,
    b: u64,
    typed: Typed,
    enough: u128,
) -> Result<Option<Row>, NoMemory>
    requires a_in { a < length (D.contents derives.old).trees }
    requires b_in { b < length (D.contents derives.old).trees }
    requires other { is_lam (tree_at (D.contents derives.old) a) ≡ false }
    requires lambda { is_lam (tree_at (D.contents derives.old) b) ≡ true }
    requires typed { IsTypedBy (D.sight (D.rest derives.old)).basis.place
        (tree_at (D.contents derives.old) a) (D.contents derives.old) typed }
    requires pair { AreReduced (D.sight (D.rest derives.old)).basis.place
        (tree_at (D.contents derives.old) a) (tree_at (D.contents derives.old) b) }
    requires run { IsRun (D.sight (D.rest derives.old)).basis.place (by_function_eta
        (tree_at (D.contents derives.old) a) (tree_at (D.contents derives.old) b)) enough }
    ensures leaves { Leaves D.contents D.rest D.sight derives.old derives.new }
    ensures known { IfOk result (λ r. IfSome r (IsRowIn (D.contents derives.new))) }
    ensures tells { let t = tree_at (D.contents derives.old) in
        IfOk result (Tells (D.sight (D.rest derives.old)).basis.place (D.contents derives.new)
        (by_function_eta (t a) (t b)) (equals (t a) (t b))) }
{
    let other = long(derives, typed.domain, a)?;
    if !are_same(derives, other, b, enough)? {
        return Ok(None);
    }
    let row = eta_row(
        derives,
        a,
        b,
        a,
        typed,
        Sides {
            left: other,
            right: b,
        },
    )?;
    Ok(Some(row))
}

/// The first of two terms as a lambda, beside the other one, which is a lambda.
fn by_first<D: Derives>(
    derives: &mut D,
    a: u64,
    b: u64,
    enough: u128,
) -> Result<Option<Row>, NoMemory>
    requires a_in { a < length (D.contents derives.old).trees }
    requires b_in { b < length (D.contents derives.old).trees }
    requires other { is_lam (tree_at (D.contents derives.old) a) ≡ false }
    requires lambda { is_lam (tree_at (D.contents derives.old) b) ≡ true }
    requires pair { AreReduced (D.sight (D.rest derives.old)).basis.place
        (tree_at (D.contents derives.old) a) (tree_at (D.contents derives.old) b) }
    requires run { IsRun (D.sight (D.rest derives.old)).basis.place (by_function_eta
        (tree_at (D.contents derives.old) a) (tree_at (D.contents derives.old) b)) enough }
    ensures leaves { Leaves D.contents D.rest D.sight derives.old derives.new }
    ensures known { IfOk result (λ r. IfSome r (IsRowIn (D.contents derives.new))) }
    ensures tells { let t = tree_at (D.contents derives.old) in
        IfOk result (Tells (D.sight (D.rest derives.old)).basis.place (D.contents derives.new)
        (by_function_eta (t a) (t b)) (equals (t a) (t b))) }
{
    let ty = type_of(derives, a, enough)?;
    let form = form_of(derives, ty, enough)?;
    match derives.view(form) {
        Node::Pi(domain, codomain) => {
            let typed = Typed {
                ty,
                form,
                domain,
                codomain,
            };
            first_long(derives, a, b, typed, enough)
        }
        _ => Ok(None),
    }
}

/// The second of two terms, of this type, as a lambda, beside the other one, which is a lambda.
fn second_long<D: Derives>(
    derives: &mut D,
    a: u64,
    b: u64,
    typed: Typed,
    enough: u128,
) -> Result<Option<Row>, NoMemory>
    requires a_in { a < length (D.contents derives.old).trees }
    requires b_in { b < length (D.contents derives.old).trees }
    requires other { is_lam (tree_at (D.contents derives.old) b) ≡ false }
    requires lambda { is_lam (tree_at (D.contents derives.old) a) ≡ true }
    requires typed { IsTypedBy (D.sight (D.rest derives.old)).basis.place
        (tree_at (D.contents derives.old) b) (D.contents derives.old) typed }
    requires pair { AreReduced (D.sight (D.rest derives.old)).basis.place
        (tree_at (D.contents derives.old) a) (tree_at (D.contents derives.old) b) }
    requires run { IsRun (D.sight (D.rest derives.old)).basis.place (by_function_eta
        (tree_at (D.contents derives.old) a) (tree_at (D.contents derives.old) b)) enough }
    ensures leaves { Leaves D.contents D.rest D.sight derives.old derives.new }
    ensures known { IfOk result (λ r. IfSome r (IsRowIn (D.contents derives.new))) }
    ensures tells { let t = tree_at (D.contents derives.old) in
        IfOk result (Tells (D.sight (D.rest derives.old)).basis.place (D.contents derives.new)
        (by_function_eta (t a) (t b)) (equals (t a) (t b))) }
{
    let other = long(derives, typed.domain, b)?;
    if !are_same(derives, a, other, enough)? {
        return Ok(None);
    }
    let row = eta_row(
        derives,
        a,
        b,
        b,
        typed,
        Sides {
            left: a,
            right: other,
        },
    )?;
    Ok(Some(row))
}

/// The second of two terms as a lambda, beside the other one, which is a lambda.
fn by_second<D: Derives>(
    derives: &mut D,
    a: u64,
    b: u64,
    enough: u128,
) -> Result<Option<Row>, NoMemory>
    requires a_in { a < length (D.contents derives.old).trees }
    requires b_in { b < length (D.contents derives.old).trees }
    requires other { is_lam (tree_at (D.contents derives.old) b) ≡ false }
    requires lambda { is_lam (tree_at (D.contents derives.old) a) ≡ true }
    requires pair { AreReduced (D.sight (D.rest derives.old)).basis.place
        (tree_at (D.contents derives.old) a) (tree_at (D.contents derives.old) b) }
    requires run { IsRun (D.sight (D.rest derives.old)).basis.place (by_function_eta
        (tree_at (D.contents derives.old) a) (tree_at (D.contents derives.old) b)) enough }
    ensures leaves { Leaves D.contents D.rest D.sight derives.old derives.new }
    ensures known { IfOk result (λ r. IfSome r (IsRowIn (D.contents derives.new))) }
    ensures tells { let t = tree_at (D.contents derives.old) in
        IfOk result (Tells (D.sight (D.rest derives.old)).basis.place (D.contents derives.new)
        (by_function_eta (t a) (t b)) (equals (t a) (t b))) }
{
    let ty = type_of(derives, b, enough)?;
    let form = form_of(derives, ty, enough)?;
    match derives.view(form) {
        Node::Pi(domain, codomain) => {
            let typed = Typed {
                ty,
                form,
                domain,
                codomain,
            };
            second_long(derives, a, b, typed, enough)
        }
        _ => Ok(None),
    }
}

/// The test by eta of functions. No value of it is needed.
pub struct FunctionEta;

impl<D: Derives> Test<D> for FunctionEta {
    ghost use Rattle.lk_questions.specs.Same.{by_function_eta};

    ghost line = { by_function_eta };

    fn tell(derives: &mut D, a: u64, b: u64, enough: u128) -> Result<Option<Row>, NoMemory> {
        let left = is_lambda(derives, a);
        let right = is_lambda(derives, b);
        if left {
            if right {
                return Ok(None);
            }
            return by_second(derives, a, b, enough);
        }
        if right {
            return by_first(derives, a, b, enough);
        }
        Ok(None)
    }
}
