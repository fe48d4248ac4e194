//! Whoever answers questions, as one who tells what the answers rest on: the row of each question,
//! by its form.

ghost use Rattle.std.specs.Prelude.{◌≡◌, ◌<◌, length, IfOk};
ghost use Rattle.lk_rulebook.specs.WellStated.{WellStated};
ghost use Rattle.lk_questions.specs.Query.{core};
ghost use Rattle.lk_store.specs.Contents.{tree_at};
ghost use Rattle.lk_ask.specs.Questions.{query_of, IsKnownQuery};
ghost use Rattle.lk_step.specs.Rows.{IsClaim};
ghost use Rattle.lk_step.specs.Heads.{IsMajorHead};
ghost use Rattle.lk_step.specs.Meaning.{IsRowIn, IsRowOf};
ghost use Rattle.lk_step.specs.Told.{Leaves};

use crate::equality::InOrder;
use lk_ask::query::{Answer, Query};
use lk_derive::Rows;
use lk_derive_equal::equality_row;
use lk_derive_iota::recursor_row;
use lk_derive_quot::quotient_row;
use lk_derive_reduce::{MajorHead, core_row, form_row, major_head};
use lk_derive_types::type_row;
use lk_step::{Derives, Row};
use lk_store::memory::NoMemory;
use std::marker::Model;

/// The row of an application whose head is a recursor or a constant of a quotient.
fn major_row<D: Derives>(derives: &mut D, e: u64, enough: u128) -> Result<Row, NoMemory>
    requires stated { WellStated (D.sight (D.rest derives.old)).basis.place }
    requires e_in { e < length (D.contents derives.old).trees }
    requires claimed { IsClaim (D.sight (D.rest derives.old)).basis.place
        (core (tree_at (D.contents derives.old) e)) enough }
    requires head { IsMajorHead (D.sight (D.rest derives.old)).basis.place
        (tree_at (D.contents derives.old) e) }
    ensures leaves { Leaves D.contents D.rest D.sight derives.old derives.new }
    ensures known { IfOk result (IsRowIn (D.contents derives.new)) }
    ensures row { IfOk result (IsRowOf (D.sight (D.rest derives.old)).basis.place
        (D.contents derives.new) (core (tree_at (D.contents derives.old) e))) }
{
    match major_head(derives, e) {
        MajorHead::Quotient => quotient_row(derives, e, enough),
        MajorHead::Recursor => recursor_row(derives, e, enough),
    }
}

/// The row of a weak head form without unfolding.
fn any_core_row<D: Derives>(derives: &mut D, e: u64, enough: u128) -> Result<Row, NoMemory>
    requires stated { WellStated (D.sight (D.rest derives.old)).basis.place }
    requires e_in { e < length (D.contents derives.old).trees }
    requires claimed { IsClaim (D.sight (D.rest derives.old)).basis.place
        (core (tree_at (D.contents derives.old) e)) enough }
    ensures leaves { Leaves D.contents D.rest D.sight derives.old derives.new }
    ensures known { IfOk result (IsRowIn (D.contents derives.new)) }
    ensures row { IfOk result (IsRowOf (D.sight (D.rest derives.old)).basis.place
        (D.contents derives.new) (core (tree_at (D.contents derives.old) e))) }
{
    let found = core_row(derives, e, enough)?;
    match found {
        Some(row) => Ok(row),
        None => major_row(derives, e, enough),
    }
}

/// The row of a question.
fn row_of<D: Derives>(derives: &mut D, query: Query<u64>, enough: u128) -> Result<Row, NoMemory>
    requires stated { WellStated (D.sight (D.rest derives.old)).basis.place }
    requires known { IsKnownQuery (length (D.contents derives.old).trees) query }
    requires claimed { IsClaim (D.sight (D.rest derives.old)).basis.place
        (query_of (tree_at (D.contents derives.old)) query) enough }
    ensures leaves { Leaves D.contents D.rest D.sight derives.old derives.new }
    ensures known { IfOk result (IsRowIn (D.contents derives.new)) }
    ensures row { IfOk result (IsRowOf (D.sight (D.rest derives.old)).basis.place
        (D.contents derives.new) (query_of (tree_at (D.contents derives.old)) query)) }
{
    match query {
        Query::Core(e) => any_core_row(derives, e, enough),
        Query::Whnf(e) => form_row(derives, e, enough),
        Query::Infer(e) => type_row(derives, e, enough),
        Query::Same(a, b) => equality_row::<D, InOrder>(derives, a, b, enough),
    }
}

/// Whoever answers questions, at a place where what names mean is stated, and how much one of them
/// may cost.
#[derive(Drop)]
pub struct Deriver<D: Derives> {
    pub derives: D,
    pub enough: u128,
}

impl<D: Derives> Model for Deriver<D> {
    ghost use Rattle.leancheck.specs.Deriving.{Deriving};

    ghost Value = { Deriving D };

    ghost view = { λ s. record { derives = s.derives; enough = s.enough } };

    ghost use Rattle.lk_rulebook.specs.WellStated.{WellStated};

    ghost invariant = { λ s. WellStated (D.sight (D.rest s.derives)).basis.place };
}

impl<D: Derives> Rows for Deriver<D> {
    type Store = D;

    ghost contents = { λ s. D.contents s.derives };

    ghost place = { λ s. (D.sight (D.rest s.derives)).basis.place };

    ghost most = { λ s. s.enough };

    /// What whoever answers has beside the library.
    type Rest = D::Beside;

    ghost rest = { λ s. (D.sight (D.rest s.derives)).basis.beside };

    fn store(&self) -> &D {
        &self.derives
    }

    fn answer(&mut self, query: Query<u64>) -> Result<Answer<u64>, NoMemory> {
        self.derives.answer(query, self.enough)
    }

    fn row(&mut self, query: Query<u64>) -> Result<Row, NoMemory> {
        row_of(&mut self.derives, query, self.enough)
    }
}
