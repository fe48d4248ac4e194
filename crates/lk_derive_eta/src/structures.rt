//! Structure eta: a term, and a structure's constructor with all its arguments.

ghost use Rattle.std.specs.Prelude.{◌≡◌, ◌<◌, [], ◌∷◌, Some, length, All, IfOk, IfSome};
ghost use Rattle.lk_tree.specs.Spine.{head as head_of, args as args_of};
ghost use Rattle.lk_rulebook.specs.Claims.{types, equals};
ghost use Rattle.lk_questions.specs.Query.{infer, same};
ghost use Rattle.lk_questions.specs.Eta.{by_structure_eta};
ghost use Rattle.lk_store.specs.Contents.{tree_at};
ghost use Rattle.lk_ask.specs.declared.query.Query.TheVariants as query;
ghost use Rattle.lk_ask.specs.Lines.{lefts, rights};
ghost use Rattle.lk_ask.specs.Sheets.{IsKnownPair};
ghost use Rattle.lk_constructor.specs.Applied.{IsKnownConstructor, IsAppliedIf};
ghost use Rattle.lk_constructor.specs.Looking.{app_at};
ghost use Rattle.lk_step.specs.Equal.{argument_claims};
ghost use Rattle.lk_step.specs.Meaning.{IsRowIn};
ghost use Rattle.lk_step.specs.Told.{Leaves};
ghost use Rattle.lk_step.specs.Makes.{typing_claim, equality_claim, IsMade};
ghost use Rattle.lk_step.specs.Pairs.{pairs_at, same_asks};
ghost use Rattle.lk_step.specs.Tests.{IsRun, AreReduced};
ghost use Rattle.lk_step.specs.Tells.{Tells};
ghost use Rattle.lk_derive_eta.specs.Structures.{claim_by, step_by, AreClaimed};
ghost use Rattle.lk_derive_eta.specs.Structures.{IsFullApp, AreTyped, AreFields};

use crate::fields::pairs_of;
use lk_ask::looks::Looks;
use lk_ask::query::Query;
use lk_ask::sheet::Pair;
use lk_constructor::{AppliedConstructor, head_constructor};
use lk_eta::constructor::is_full;
use lk_eta::sheet::Way;
use lk_step::derives::{are_same, type_of};
use lk_step::making::{converted, equality, typing};
use lk_step::pairs::{Asked, are_all_same, asked_of};
use lk_step::{Derives, Row};
use lk_store::memory::NoMemory;
use lk_trace::ConversionRule;
use std::alloc::Global;

/// The types of two terms.
#[derive(Clone, Copy)]
pub(crate) struct Typed {
    pub left: u64,
    pub right: u64,
}

/// What is asked of the types of two terms, and what is claimed then.
fn types_asked(alloc: Global, a: u64, b: u64, typed: Typed) -> Result<Asked, NoMemory>
    ensures asks { IfOk result (λ r. r.asks.items
        ≡ query.Infer a ∷ query.Infer b ∷ query.Same typed.left typed.right ∷ []) }
    ensures premises { IfOk result (λ r. r.premises.items ≡ typing_claim a typed.left
        ∷ typing_claim b typed.right ∷ equality_claim typed.left typed.right ∷ []) }
{
    let asks = vec![in alloc;
        Query::Infer(a),
        Query::Infer(b),
        Query::Same(typed.left, typed.right),
    ]?;
    let premises = vec![in alloc;
        typing(a, typed.left),
        typing(b, typed.right),
        equality(typed.left, typed.right),
    ]?;
    Ok(Asked { asks, premises })
}

/// What is asked of two terms whose types are the same, and of these pairs, and what is claimed then.
fn all_asked<L: Looks>(
    looks: &L,
    a: u64,
    b: u64,
    typed: Typed,
    pairs: &[Pair<u64>],
) -> Result<Asked, NoMemory>
    requires a_in { a < length (L.contents looks.now).trees }
    requires b_in { b < length (L.contents looks.now).trees }
    requires left_in { typed.left < length (L.contents looks.now).trees }
    requires right_in { typed.right < length (L.contents looks.now).trees }
    requires pairs_in { All (IsKnownPair (length (L.contents looks.now).trees)) pairs.now }
    ensures { let c = L.contents looks.now in let t = tree_at c in
        let ps = pairs_at c pairs.now in IfOk result (λ r. AreClaimed c r.asks.items
        r.premises.items (infer (t a) ∷ infer (t b) ∷ same (t typed.left) (t typed.right)
        ∷ same_asks (lefts ps) (rights ps))
        (types (t a) (t typed.left) ∷ types (t b) (t typed.right)
        ∷ equals (t typed.left) (t typed.right) ∷ argument_claims (lefts ps) (rights ps))) }
{
    let mut asked = types_asked(looks.alloc(), a, b, typed)?;
    let mut fields = asked_of(looks, pairs)?;
    asked.asks.append(&mut fields.asks)?;
    asked.premises.append(&mut fields.premises)?;
    Ok(asked)
}

/// The row of a term and a constructor of equal types, whose fields are those of these pairs.
fn structure_row<L: Looks>(
    looks: &L,
    way: Way,
    a: u64,
    b: u64,
    typed: Typed,
    pairs: &[Pair<u64>],
) -> Result<Row, NoMemory>
    requires a_in { a < length (L.contents looks.now).trees }
    requires b_in { b < length (L.contents looks.now).trees }
    requires left_in { typed.left < length (L.contents looks.now).trees }
    requires right_in { typed.right < length (L.contents looks.now).trees }
    requires pairs_in { All (IsKnownPair (length (L.contents looks.now).trees)) pairs.now }
    ensures known { IfOk result (IsRowIn (L.contents looks.now)) }
    ensures row { let c = L.contents looks.now in let t = tree_at c in
        let ps = pairs_at c pairs.now in IfOk result (IsMade c (infer (t a) ∷ infer (t b)
        ∷ same (t typed.left) (t typed.right) ∷ same_asks (lefts ps) (rights ps))
        (step_by way (t a) (t b) (types (t a) (t typed.left) ∷ types (t b) (t typed.right)
        ∷ equals (t typed.left) (t typed.right) ∷ argument_claims (lefts ps) (rights ps)) ∷ [])) }
{
    let asked = all_asked(looks, a, b, typed, pairs)?;
    let Asked { asks, premises } = asked;
    match way {
        Way::Given => converted(looks, ConversionRule::StructureLeft, a, b, asks, premises),
        Way::Turned => converted(looks, ConversionRule::StructureRight, b, a, asks, premises),
    }
}

/// A term and a constructor of equal types, whose fields are those of these pairs.
fn compare_fields<D: Derives>(
    derives: &mut D,
    way: Way,
    a: u64,
    b: u64,
    typed: Typed,
    pairs: &[Pair<u64>],
    enough: u128,
) -> Result<Option<Row>, NoMemory>
    requires a_in { a < length (D.contents derives.old).trees }
    requires b_in { b < length (D.contents derives.old).trees }
    requires fields { AreFields (D.sight (D.rest derives.old)).basis.place
        (tree_at (D.contents derives.old) a) (tree_at (D.contents derives.old) b)
        (D.contents derives.old) pairs.now }
    requires typed { AreTyped (D.sight (D.rest derives.old)).basis.place
        (tree_at (D.contents derives.old) a) (tree_at (D.contents derives.old) b)
        (D.contents derives.old) typed }
    requires pair { AreReduced (D.sight (D.rest derives.old)).basis.place
        (tree_at (D.contents derives.old) a) (tree_at (D.contents derives.old) b) }
    requires run { IsRun (D.sight (D.rest derives.old)).basis.place (by_structure_eta
        (tree_at (D.contents derives.old) a) (tree_at (D.contents derives.old) b)) enough }
    ensures leaves { Leaves D.contents D.rest D.sight derives.old derives.new }
    ensures known { IfOk result (λ r. IfSome r (IsRowIn (D.contents derives.new))) }
    ensures tells { let t = tree_at (D.contents derives.old) in
        IfOk result (Tells (D.sight (D.rest derives.old)).basis.place (D.contents derives.new)
        (by_structure_eta (t a) (t b)) (claim_by way (t a) (t b))) }
{
    if !are_all_same(derives, pairs, enough)? {
        return Ok(None);
    }
    let row = structure_row(derives, way, a, b, typed, pairs)?;
    Ok(Some(row))
}

/// A term and a constructor of equal types.
fn by_fields<D: Derives>(
    derives: &mut D,
    way: Way,
    a: u64,
    b: u64,
    found: AppliedConstructor,
    typed: Typed,
    enough: u128,
) -> Result<Option<Row>, NoMemory>
    requires a_in { a < length (D.contents derives.old).trees }
    requires b_in { b < length (D.contents derives.old).trees }
    requires full { IsFullApp (D.sight (D.rest derives.old)).basis.place (D.contents derives.old)
        (tree_at (D.contents derives.old) b) found }
    requires typed { AreTyped (D.sight (D.rest derives.old)).basis.place
        (tree_at (D.contents derives.old) a) (tree_at (D.contents derives.old) b)
        (D.contents derives.old) typed }
    requires pair { AreReduced (D.sight (D.rest derives.old)).basis.place
        (tree_at (D.contents derives.old) a) (tree_at (D.contents derives.old) b) }
    requires run { IsRun (D.sight (D.rest derives.old)).basis.place (by_structure_eta
        (tree_at (D.contents derives.old) a) (tree_at (D.contents derives.old) b)) enough }
    ensures leaves { Leaves D.contents D.rest D.sight derives.old derives.new }
    ensures known { IfOk result (λ r. IfSome r (IsRowIn (D.contents derives.new))) }
    ensures tells { let t = tree_at (D.contents derives.old) in
        IfOk result (Tells (D.sight (D.rest derives.old)).basis.place (D.contents derives.new)
        (by_structure_eta (t a) (t b)) (claim_by way (t a) (t b))) }
{
    let alloc = derives.alloc();
    let pairs = pairs_of(alloc, derives, found.inductive, found.parameters, a, b)?;
    compare_fields(derives, way, a, b, typed, &pairs, enough)
}

/// A term and a structure's constructor with all its arguments.
fn by_types<D: Derives>(
    derives: &mut D,
    way: Way,
    a: u64,
    b: u64,
    found: AppliedConstructor,
    enough: u128,
) -> Result<Option<Row>, NoMemory>
    requires a_in { a < length (D.contents derives.old).trees }
    requires b_in { b < length (D.contents derives.old).trees }
    requires full { IsFullApp (D.sight (D.rest derives.old)).basis.place (D.contents derives.old)
        (tree_at (D.contents derives.old) b) found }
    requires pair { AreReduced (D.sight (D.rest derives.old)).basis.place
        (tree_at (D.contents derives.old) a) (tree_at (D.contents derives.old) b) }
    requires run { IsRun (D.sight (D.rest derives.old)).basis.place (by_structure_eta
        (tree_at (D.contents derives.old) a) (tree_at (D.contents derives.old) b)) enough }
    ensures leaves { Leaves D.contents D.rest D.sight derives.old derives.new }
    ensures known { IfOk result (λ r. IfSome r (IsRowIn (D.contents derives.new))) }
    ensures tells { let t = tree_at (D.contents derives.old) in
        IfOk result (Tells (D.sight (D.rest derives.old)).basis.place (D.contents derives.new)
        (by_structure_eta (t a) (t b)) (claim_by way (t a) (t b))) }
{
    let left = type_of(derives, a, enough)?;
    let right = type_of(derives, b, enough)?;
    if !are_same(derives, left, right, enough)? {
        return Ok(None);
    }
    by_fields(derives, way, a, b, found, Typed { left, right }, enough)
}

/// A term and a constructor that is applied.
fn with_constructor<D: Derives>(
    derives: &mut D,
    way: Way,
    a: u64,
    b: u64,
    found: AppliedConstructor,
    enough: u128,
) -> Result<Option<Row>, NoMemory>
    requires a_in { a < length (D.contents derives.old).trees }
    requires b_in { b < length (D.contents derives.old).trees }
    requires found_in { IsKnownConstructor (D.contents derives.old) found }
    requires found_is { let t = tree_at (D.contents derives.old) b in
        IsAppliedIf (D.contents derives.old) (D.sight (D.rest derives.old)).basis.library
        (args_of t) (Some found)
        (app_at (D.sight (D.rest derives.old)).basis.place (head_of t) (args_of t)) }
    requires pair { AreReduced (D.sight (D.rest derives.old)).basis.place
        (tree_at (D.contents derives.old) a) (tree_at (D.contents derives.old) b) }
    requires run { IsRun (D.sight (D.rest derives.old)).basis.place (by_structure_eta
        (tree_at (D.contents derives.old) a) (tree_at (D.contents derives.old) b)) enough }
    ensures leaves { Leaves D.contents D.rest D.sight derives.old derives.new }
    ensures known { IfOk result (λ r. IfSome r (IsRowIn (D.contents derives.new))) }
    ensures tells { let t = tree_at (D.contents derives.old) in
        IfOk result (Tells (D.sight (D.rest derives.old)).basis.place (D.contents derives.new)
        (by_structure_eta (t a) (t b)) (claim_by way (t a) (t b))) }
{
    if !is_full(derives, found.entry, b)? {
        return Ok(None);
    }
    by_types(derives, way, a, b, found, enough)
}

/// Two terms by structure eta, where the second one may be a structure's constructor, applied. There is no row where
/// the test leaves them to those behind it.
pub(crate) fn by_structure<D: Derives>(
    derives: &mut D,
    way: Way,
    a: u64,
    b: u64,
    enough: u128,
) -> Result<Option<Row>, NoMemory>
    requires a_in { a < length (D.contents derives.old).trees }
    requires b_in { b < length (D.contents derives.old).trees }
    requires pair { AreReduced (D.sight (D.rest derives.old)).basis.place
        (tree_at (D.contents derives.old) a) (tree_at (D.contents derives.old) b) }
    requires run { IsRun (D.sight (D.rest derives.old)).basis.place (by_structure_eta
        (tree_at (D.contents derives.old) a) (tree_at (D.contents derives.old) b)) enough }
    ensures leaves { Leaves D.contents D.rest D.sight derives.old derives.new }
    ensures known { IfOk result (λ r. IfSome r (IsRowIn (D.contents derives.new))) }
    ensures tells { let t = tree_at (D.contents derives.old) in
        IfOk result (Tells (D.sight (D.rest derives.old)).basis.place (D.contents derives.new)
        (by_structure_eta (t a) (t b)) (claim_by way (t a) (t b))) }
{
    match head_constructor(derives, b) {
        Some(found) => with_constructor(derives, way, a, b, found, enough),
        None => Ok(None),
    }
}
