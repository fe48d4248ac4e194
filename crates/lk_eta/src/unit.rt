//! Eta of unit-like types: any two terms of one are the same.

ghost use Rattle.std.specs.Prelude.{◌≡◌, ◌<◌, ℕ, Option, Some, IfOk, length};
ghost use Rattle.lk_tree.specs.Tree.{Tree};
ghost use Rattle.lk_tree.specs.Spine.{args};
ghost use Rattle.lk_rulebook.specs.Place.{Place, Entry as PlainEntry};
ghost use Rattle.lk_questions.specs.Erased.{truth, erased};
ghost use Rattle.lk_questions.specs.Pairs.{◌or_else◌};
ghost use Rattle.lk_questions.specs.Eta.{is_unit_like_at};
ghost use Rattle.lk_store.specs.Contents.{tree_at};
ghost use Rattle.lk_ask.specs.Lines.{Rest, IsKnownLine};
ghost use Rattle.lk_ask.specs.Looks.{entry_at};
ghost use Rattle.lk_eta.specs.Etas.{then_unit, eta_line, Expands, ResumesTerm};
ghost use Rattle.lk_eta.specs.Sheets.{IsKnownUnit, IsKnownEtaSheet};
ghost use Rattle.lk_eta.specs.Units.{kind_line, form_line};

use crate::arguments::has_arguments;
use crate::eta::EtaLine;
use crate::sheet::{EtaTermSheet, EtaTruthSheet, UnitSheet};
use lk_ask::looks::Looks;
use lk_ask::next::{Line, Next};
use lk_ask::query::Query;
use lk_ask::sheet::Sheet;
use lk_env::entry::Entry;
use lk_mentions::structures::unit_parameters_of;
use lk_spine::head;
use lk_store::memory::NoMemory;
use lk_store::node::Node;
use lk_tree::rule::Rule;

/// Two terms by eta of unit-like types (`is_def_eq_unit_like`).
pub(crate) fn begin(a: u64, b: u64) -> EtaLine
    ensures known { (n : ℕ) → a < n → b < n → IsKnownLine IsKnownEtaSheet n result }
    ensures steps { (p : Rest) (w : Place) (t : ℕ → Tree) (last : Option ℕ)
        → eta_line p w t last result ≡ erased w truth last (then_unit p (t a) (t b)) }
{
    Line::Goes(Next::Ask(
        Query::Infer(a),
        Sheet::Term(EtaTermSheet::Unit(UnitSheet::Left { left: a, right: b })),
    ))
}

/// Whether a term is a unit-like type at its parameters, where its head is the constant of this entry.
pub fn is_unit_like<L: Looks>(looks: &L, entry: Entry, e: u64) -> Result<bool, NoMemory>
    requires { e < length (L.contents looks.now).trees }
    ensures { (g : PlainEntry) → entry_at (L.sight (L.rest looks.now)).basis entry ≡ Some g
        → IfOk result (λ r. r
        ≡ is_unit_like_at g.kind (args (tree_at (L.contents looks.now) e))) }
{
    match unit_parameters_of(looks.alloc(), looks.scope(), looks, entry)? {
        Some(count) => Ok(has_arguments(looks, e, count as u128)),
        None => Ok(false),
    }
}

/// Goes on where the head of the left one's type in weak head form is the constant of this entry.
fn by_entry<L: Looks>(
    looks: &L,
    entry: Entry,
    a: u64,
    b: u64,
    ty: u64,
    form: u64,
) -> Result<EtaLine, NoMemory>
    requires a_in { a < length (L.contents looks.now).trees }
    requires b_in { b < length (L.contents looks.now).trees }
    requires ty_in { ty < length (L.contents looks.now).trees }
    requires form_in { form < length (L.contents looks.now).trees }
    ensures { (g : PlainEntry) → entry_at (L.sight (L.rest looks.now)).basis entry ≡ Some g
        → Expands L.contents L.rest L.sight looks.now looks.now result
        (λ p t. kind_line (t b) (t ty) g.kind (args (t form)) or_else p (t a) (t b)) }
{
    if is_unit_like(looks, entry, form)? {
        Ok(Line::Goes(Next::Ask(
            Query::Infer(b),
            Sheet::Term(EtaTermSheet::Unit(UnitSheet::Right {
                left: a,
                right: b,
                ty,
            })),
        )))
    } else {
        Ok(Line::Behind { left: a, right: b })
    }
}

/// Goes on with the weak head form of the left one's type.
fn by_form<L: Looks>(looks: &mut L, a: u64, b: u64, ty: u64, form: u64) -> Result<EtaLine, NoMemory>
    requires a_in { a < length (L.contents looks.old).trees }
    requires b_in { b < length (L.contents looks.old).trees }
    requires ty_in { ty < length (L.contents looks.old).trees }
    requires form_in { form < length (L.contents looks.old).trees }
    ensures { Expands L.contents L.rest L.sight looks.old looks.new result
        (λ p t. form_line (t a) (t b) (t ty) (t form) or_else p (t a) (t b)) }
{
    let front = head(looks, form);
    match looks.view(front) {
        Node::Const(name, _) => match looks.look(name, Rule::UnknownConstant) {
            Ok(entry) => by_entry(looks, entry, a, b, ty, form),
            Err(rule) => Ok(Line::Goes(Next::No(rule))),
        },
        _ => Ok(Line::Behind { left: a, right: b }),
    }
}

/// Goes on once the term is there that a sheet waits for.
pub(crate) fn resume_term<L: Looks>(
    looks: &mut L,
    sheet: UnitSheet<u64>,
    e: u64,
) -> Result<EtaLine, NoMemory>
    requires sheet_in { IsKnownUnit (length (L.contents looks.old).trees) sheet }
    requires e_in { e < length (L.contents looks.old).trees }
    ensures { ResumesTerm L.contents L.rest L.sight looks.old looks.new result
        (EtaTermSheet.Unit sheet) e }
{
    match sheet {
        UnitSheet::Left { left, right } => Ok(Line::Goes(Next::Ask(
            Query::Whnf(e),
            Sheet::Term(EtaTermSheet::Unit(UnitSheet::LeftForm { left, right, ty: e })),
        ))),
        UnitSheet::LeftForm { left, right, ty } => by_form(looks, left, right, ty, e),
        UnitSheet::Right { ty, .. } => {
            Ok(Line::Goes(Next::Ask(Query::Same(ty, e), Sheet::Truth(EtaTruthSheet::Passed))))
        }
    }
}
