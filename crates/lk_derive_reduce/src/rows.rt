//! The rows of `Core` and `Whnf`.

ghost use Rattle.std.specs.Prelude.{◌≡◌, ◌<◌, List, Some, None, true, false, IfOk, IfSome, OnOk, length};
ghost use Rattle.lk_tree.specs.Tree.{const};
ghost use Rattle.lk_tree.specs.Spine.{head as head_of};
ghost use Rattle.lk_rulebook.specs.Place.{Entry as PlainEntry};
ghost use Rattle.lk_rulebook.specs.WellStated.{WellStated};
ghost use Rattle.lk_questions.specs.Query.{core, whnf};
ghost use Rattle.lk_store.specs.Contents.{Contents, name_at, list_at, tree_at};
ghost use Rattle.lk_env.specs.declared.unit.Unit.{Unit as StoredUnit};
ghost use Rattle.lk_env.specs.Entries.{plain_entry};
ghost use Rattle.lk_step.specs.Meaning.{IsRowIn, IsRowOf};
ghost use Rattle.lk_step.specs.Rows.{IsClaim};
ghost use Rattle.lk_step.specs.Told.{Leaves};
ghost use Rattle.lk_step.specs.Parts.{IsWhole, IsEmpty};
ghost use Rattle.lk_step.specs.Heads.{IsMajorHead};
ghost use Rattle.lk_derive_reduce.specs.Forms.{IsApp, IsCoreForm, IsHeadForm, IsInert};
ghost use Rattle.lk_derive_reduce.specs.MajorHeads.{IsMajorKind, IsFilled};

use crate::bindings::{beta_row, let_row};
use crate::forms::{Constant, fill_form};
use crate::heads::head_row;
use crate::projections::projection_row;
use lk_env::entry::{Entry, Kind};
use lk_env::unit::Body;
use lk_spine::head;
use lk_step::under_way::empty_row;
use lk_step::{Derives, Row};
use lk_store::memory::NoMemory;
use lk_store::node::Node;
use lk_store::terms::Terms;

/// What `Core` does first at a term.
#[derive(Clone, Copy)]
pub enum CoreForm {
    Applied,
    /// A let of this value and this body.
    Bound(u64, u64),
    /// A projection of this subject.
    Projected(u64),
    /// It is its own `Core`.
    Itself,
}

/// What `Core` of an application does first, by its head.
#[derive(Clone, Copy)]
pub enum HeadForm {
    Lambda,
    /// A let or a projection.
    Stuck,
    Named(Constant),
    /// The application is its own `Core`.
    Rigid,
}

fn core_form<T: Terms>(terms: &T, e: u64) -> CoreForm
    requires { e < length (T.contents terms.now).trees }
    ensures { let c = T.contents terms.now in IsCoreForm c (tree_at c e) result }
{
    match terms.view(e) {
        Node::App(_, _) => CoreForm::Applied,
        Node::Let(_, value, body) => CoreForm::Bound(value, body),
        Node::Proj(_, _, subject) => CoreForm::Projected(subject),
        _ => CoreForm::Itself,
    }
}

fn head_form<T: Terms>(terms: &T, e: u64) -> HeadForm
    requires { e < length (T.contents terms.now).trees }
    ensures { let c = T.contents terms.now in IsHeadForm c (tree_at c e) result }
{
    match terms.view(e) {
        Node::Lam(_, _) => HeadForm::Lambda,
        Node::Let(_, _, _) | Node::Proj(_, _, _) => HeadForm::Stuck,
        Node::Const(name, levels) => HeadForm::Named(Constant { name, levels }),
        _ => HeadForm::Rigid,
    }
}

/// Whether `Core` may reduce what a constant of this entry is at the head of.
fn is_active(entry: Entry) -> bool
    ensures inert { (c : Contents) (us : List StoredUnit) (g : PlainEntry)
        → plain_entry c us entry ≡ Some g → result ≡ false → IsInert g.kind }
    ensures active { (c : Contents) (us : List StoredUnit) (g : PlainEntry)
        → plain_entry c us entry ≡ Some g → result ≡ true → IsMajorKind g.kind }
{
    match entry.kind {
        Kind::Declared(body) => match body {
            Body::Quotient => true,
            Body::Definition { .. } | Body::Theorem { .. } | Body::Axiom | Body::Opaque { .. } => {
                false
            }
        },
        Kind::Recursor(_) | Kind::BareRecursor(_) => true,
        Kind::Type(_) | Kind::Constructor { .. } => false,
    }
}

/// Whether an empty row is that of an application of a constant. Else `Core` looks at a major premise.
fn is_constant_row<D: Derives>(
    derives: &D,
    row: &Row,
    e: u64,
    constant: Constant,
    enough: u128,
) -> bool
    requires e_in { e < length (D.contents derives.now).trees }
    requires applied { IsApp (tree_at (D.contents derives.now) e) }
    requires name_in { constant.name < length (D.contents derives.now).names }
    requires head_is { let c = D.contents derives.now in const (name_at c constant.name)
        (list_at c constant.levels) ≡ head_of (tree_at c e) }
    requires claimed { IsClaim (D.sight (D.rest derives.now)).basis.place
        (core (tree_at (D.contents derives.now) e)) enough }
    requires empty { IsEmpty row.now }
    ensures { IsFilled (D.sight (D.rest derives.now)).basis.place (D.contents derives.now)
        (tree_at (D.contents derives.now) e) row.now result }
{
    let entry = match derives.means(constant.name) {
        Ok(entry) => entry,
        Err(_) => unreachable!(),
    };
    if is_active(entry) {
        return false;
    }
    true
}

/// Fills an empty row with that of an application. Where its head is a constant by which `Core` looks at a major
/// premise it says no.
fn applied_row<D: Derives>(
    derives: &mut D,
    row: &mut Row,
    e: u64,
    enough: u128,
) -> Result<bool, NoMemory>
    requires stated { WellStated (D.sight (D.rest derives.old)).basis.place }
    requires e_in { e < length (D.contents derives.old).trees }
    requires applied { IsApp (tree_at (D.contents derives.old) e) }
    requires claimed { IsClaim (D.sight (D.rest derives.old)).basis.place
        (core (tree_at (D.contents derives.old) e)) enough }
    requires empty { IsEmpty row.old }
    ensures leaves { Leaves D.contents D.rest D.sight derives.old derives.new }
    ensures filled { IfOk result (IsFilled (D.sight (D.rest derives.old)).basis.place
        (D.contents derives.new) (tree_at (D.contents derives.old) e) row.new) }
{
    let front = head(derives, e);
    match head_form(derives, front) {
        HeadForm::Lambda => {
            beta_row(derives, row, e, enough)?;
            Ok(true)
        }
        HeadForm::Stuck => {
            head_row(derives, row, e, enough)?;
            Ok(true)
        }
        HeadForm::Named(constant) => Ok(is_constant_row(derives, row, e, constant, enough)),
        HeadForm::Rigid => Ok(true),
    }
}

/// Fills an empty row with that of the weak head form without unfolding. Where the head is a constant by which `Core`
/// looks at a major premise it says no.
fn fill_core<D: Derives>(
    derives: &mut D,
    row: &mut Row,
    e: u64,
    enough: u128,
) -> Result<bool, NoMemory>
    requires stated { WellStated (D.sight (D.rest derives.old)).basis.place }
    requires e_in { e < length (D.contents derives.old).trees }
    requires claimed { IsClaim (D.sight (D.rest derives.old)).basis.place
        (core (tree_at (D.contents derives.old) e)) enough }
    requires empty { IsEmpty row.old }
    ensures leaves { Leaves D.contents D.rest D.sight derives.old derives.new }
    ensures filled { IfOk result (IsFilled (D.sight (D.rest derives.old)).basis.place
        (D.contents derives.new) (tree_at (D.contents derives.old) e) row.new) }
{
    match core_form(derives, e) {
        CoreForm::Applied => applied_row(derives, row, e, enough),
        CoreForm::Bound(value, body) => {
            let_row(derives, row, e, value, body, enough)?;
            Ok(true)
        }
        CoreForm::Projected(subject) => {
            projection_row(derives, row, e, subject, enough)?;
            Ok(true)
        }
        CoreForm::Itself => Ok(true),
    }
}

/// What a weak head form without unfolding rests on. There is none here only of an application whose head is a recursor or
/// a constant that a quotient unit gives (`major_head` says which): these rows stand in crates of their own.
pub fn core_row<D: Derives>(derives: &mut D, e: u64, enough: u128) -> Result<Option<Row>, NoMemory>
    requires stated { WellStated (D.sight (D.rest derives.old)).basis.place }
    requires e_in { e < length (D.contents derives.old).trees }
    requires claimed { IsClaim (D.sight (D.rest derives.old)).basis.place
        (core (tree_at (D.contents derives.old) e)) enough }
    ensures leaves { Leaves D.contents D.rest D.sight derives.old derives.new }
    ensures known { IfOk result (λ o. IfSome o (IsRowIn (D.contents derives.new))) }
    ensures row { IfOk result (λ o. IfSome o (IsRowOf (D.sight (D.rest derives.old)).basis.place
        (D.contents derives.new) (core (tree_at (D.contents derives.old) e)))) }
    ensures none { IfOk result (λ o. o ≡ None → IsMajorHead
        (D.sight (D.rest derives.old)).basis.place (tree_at (D.contents derives.old) e)) }
{
    let mut row = empty_row(derives.alloc());
    let whole = fill_core(derives, &mut row, e, enough)?;
    if whole {
        return Ok(Some(row));
    }
    Ok(None)
}

/// What a weak head form rests on.
pub fn form_row<D: Derives>(derives: &mut D, e: u64, enough: u128) -> Result<Row, NoMemory>
    requires stated { WellStated (D.sight (D.rest derives.old)).basis.place }
    requires e_in { e < length (D.contents derives.old).trees }
    requires claimed { IsClaim (D.sight (D.rest derives.old)).basis.place
        (whnf (tree_at (D.contents derives.old) e)) enough }
    ensures leaves { Leaves D.contents D.rest D.sight derives.old derives.new }
    ensures known { IfOk result (IsRowIn (D.contents derives.new)) }
    ensures row { IfOk result (IsRowOf (D.sight (D.rest derives.old)).basis.place
        (D.contents derives.new) (whnf (tree_at (D.contents derives.old) e))) }
{
    let mut row = empty_row(derives.alloc());
    fill_form(derives, &mut row, e, enough)?;
    Ok(row)
}
