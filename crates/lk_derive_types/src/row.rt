//! The row of the type of a term.

ghost use Rattle.std.specs.Prelude.{◌<◌, length, IfOk};
ghost use Rattle.lk_rulebook.specs.WellStated.{WellStated};
ghost use Rattle.lk_questions.specs.Query.{infer};
ghost use Rattle.lk_store.specs.Contents.{tree_at};
ghost use Rattle.lk_step.specs.Rows.{IsClaim};
ghost use Rattle.lk_step.specs.Meaning.{IsRowIn, IsRowOf};
ghost use Rattle.lk_step.specs.Told.{Leaves};
ghost use Rattle.lk_derive_types.specs.TypeRows.{GivesRow};

use crate::applications::application_row;
use crate::atoms::{local_row, sort_row};
use crate::constants::constant_row;
use crate::field_types::projection_row;
use crate::lambdas::lambda_row;
use crate::lets::let_row;
use crate::literals::{number_row, text_row};
use crate::pis::pi_row;
use lk_step::{Derives, Row};
use lk_store::memory::NoMemory;
use lk_store::node::Node;

/// The row of the type of a term, by its form.
pub(crate) fn row_of<D: Derives>(derives: &mut D, e: u64, enough: u128) -> Result<Row, NoMemory>
    requires stated { WellStated (D.sight (D.rest derives.old)).basis.place }
    requires e_in { e < length (D.contents derives.old).trees }
    requires claimed { IsClaim (D.sight (D.rest derives.old)).basis.place
        (infer (tree_at (D.contents derives.old) e)) enough }
    ensures { GivesRow D.contents D.rest D.sight derives.old derives.new
        (tree_at (D.contents derives.old) e) result }
{
    match derives.view(e) {
        Node::Sort(level) => sort_row(derives, e, level),
        Node::Local(number, ty) => local_row(derives, e, number, ty),
        Node::Const(name, levels) => constant_row(derives, e, name, levels),
        Node::App(_, _) => application_row(derives, e, enough),
        Node::Lam(domain, body) => lambda_row(derives, e, domain, body, enough),
        Node::Pi(domain, body) => pi_row(derives, e, domain, body, enough),
        Node::Let(stated, value, body) => let_row(derives, e, stated, value, body, enough),
        Node::Proj(structure, field, subject) => projection_row(
            derives, e, structure, field, subject, enough,
        ),
        Node::Lit(number) => number_row(derives, e, number),
        Node::Str(text) => text_row(derives, e, text),
        Node::Var(_) => unreachable!(),
        Node::Wide => unreachable!(),
    }
}

/// The row of the type of a term: what is asked for it, and one step of typing.
pub fn type_row<D: Derives>(derives: &mut D, e: u64, enough: u128) -> Result<Row, NoMemory>
    requires stated { WellStated (D.sight (D.rest derives.old)).basis.place }
    requires e_in { e < length (D.contents derives.old).trees }
    requires claimed { IsClaim (D.sight (D.rest derives.old)).basis.place
        (infer (tree_at (D.contents derives.old) e)) enough }
    ensures leaves { Leaves D.contents D.rest D.sight derives.old derives.new }
    ensures known { IfOk result (IsRowIn (D.contents derives.new)) }
    ensures row { IfOk result (IsRowOf (D.sight (D.rest derives.old)).basis.place
        (D.contents derives.new) (infer (tree_at (D.contents derives.old) e))) }
{
    row_of(derives, e, enough)
}
