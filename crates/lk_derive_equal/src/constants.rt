//! Two constants.

ghost use Rattle.std.specs.Prelude.{◌≡◌, ◌<◌, [], ◌∷◌, length, IfOk, IfSome};
ghost use Rattle.lk_rulebook.specs.Claims.{equals};
ghost use Rattle.lk_questions.specs.Same.{by_parts};
ghost use Rattle.lk_questions.specs.Tests.{is_true};
ghost use Rattle.lk_store.specs.Contents.{tree_at};
ghost use Rattle.lk_written.specs.Line.{consts_rule};
ghost use Rattle.lk_step.specs.Steps.{equality as equality_step};
ghost use Rattle.lk_step.specs.Meaning.{IsRowIn};
ghost use Rattle.lk_derive_equal.specs.Constants.{IsConstant};
ghost use Rattle.lk_step.specs.Makes.{IsMade};
ghost use Rattle.lk_step.specs.Tells.{Tells};

use lk_ask::looks::Looks;
use lk_lazy::levels::levels_equal;
use lk_premises::same_name;
use lk_step::Row;
use lk_step::making::converted;
use lk_store::memory::NoMemory;
use lk_trace::ConversionRule;

/// A constant: its name and a list of levels.
#[derive(Clone, Copy)]
pub(crate) struct Constant {
    pub name: u64,
    pub levels: u64,
}

/// Whether a test of levels says yes.
fn is_yes(answer: Option<bool>) -> bool
    ensures { result ≡ is_true answer }
{
    match answer {
        Some(equal) => equal,
        None => false,
    }
}

/// The row of two constants at equal levels.
fn constants_row<L: Looks>(looks: &L, a: u64, b: u64) -> Result<Row, NoMemory>
    requires a_in { a < length (L.contents looks.now).trees }
    requires b_in { b < length (L.contents looks.now).trees }
    ensures known { IfOk result (IsRowIn (L.contents looks.now)) }
    ensures row { let c = L.contents looks.now in let t = tree_at c in IfOk result (IsMade c []
        (equality_step consts_rule (t a) (t b) [] ∷ [])) }
{
    let asks = Vec::new(looks.alloc());
    let premises = Vec::new(looks.alloc());
    converted(looks, ConversionRule::Constants, a, b, asks, premises)
}

/// Two constants, by their names and their levels.
pub(crate) fn by_constants<L: Looks>(
    looks: &L,
    a: u64,
    b: u64,
    left: Constant,
    right: Constant,
) -> Result<Option<Row>, NoMemory>
    requires a_in { a < length (L.contents looks.now).trees }
    requires b_in { b < length (L.contents looks.now).trees }
    requires left_is { IsConstant (L.contents looks.now) a left }
    requires right_is { IsConstant (L.contents looks.now) b right }
    ensures known { IfOk result (λ r. IfSome r (IsRowIn (L.contents looks.now))) }
    ensures tells { let t = tree_at (L.contents looks.now) in
        IfOk result (Tells (L.sight (L.rest looks.now)).basis.place (L.contents looks.now)
        (by_parts (t a) (t b)) (equals (t a) (t b))) }
{
    if !same_name(looks, left.name, right.name) {
        return Ok(None);
    }
    let equal = levels_equal(looks.alloc(), looks, left.levels, right.levels)?;
    if !is_yes(equal) {
        return Ok(None);
    }
    let row = constants_row(looks, a, b)?;
    Ok(Some(row))
}
