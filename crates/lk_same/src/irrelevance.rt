//! Two terms as proofs: where the type of the left one is a proposition, and the right one's type is
//! the same, they are.

ghost use Rattle.std.specs.Prelude.{◌≡◌, ◌<◌, ℕ, Option, length};
ghost use Rattle.lk_tree.specs.Tree.{Tree};
ghost use Rattle.lk_rulebook.specs.Place.{Place};
ghost use Rattle.lk_questions.specs.Erased.{truth, erased};
ghost use Rattle.lk_questions.specs.Same.{same_reduced};
ghost use Rattle.lk_store.specs.Contents.{level_at};
ghost use Rattle.lk_ask.specs.Nexts.{IsKnownNext};
ghost use Rattle.lk_same.specs.Sames.{level_rest, form_rest, types_rest, same_next};
ghost use Rattle.lk_same.specs.Sames.{Compares, ResumesTerm};
ghost use Rattle.lk_same.specs.Sheets.{IsKnownProof, IsKnownSameSheet};

use crate::lines::literals;
use crate::same::SameNext;
use crate::sheet::{ProofSheet, SameTermSheet, SameTruthSheet};
use lk_ask::looks::Looks;
use lk_ask::next::Next;
use lk_ask::query::{Answer, Query};
use lk_ask::sheet::Sheet;
use lk_store::memory::NoMemory;
use lk_store::node::Node;
use lk_tree::rule::Rule;

/// Two terms whose heads take no step of `Core`: first as proofs.
pub(crate) fn begin(left: u64, right: u64) -> SameNext
    ensures known { (n : ℕ) → left < n → right < n → IsKnownNext IsKnownSameSheet n result }
    ensures steps { (w : Place) (t : ℕ → Tree) (last : Option ℕ) → same_next w t last result
        ≡ erased w truth last (same_reduced (t left) (t right)) }
{
    Next::Ask(
        Query::Infer(left),
        Sheet::Term(SameTermSheet::Proof(ProofSheet::Left { left, right })),
    )
}

/// Goes on with the level of the left type's sort.
fn by_level<L: Looks>(
    looks: &mut L,
    left: u64,
    right: u64,
    ty: u64,
    level: u64,
) -> Result<SameNext, NoMemory>
    requires left_in { left < length (L.contents looks.old).trees }
    requires right_in { right < length (L.contents looks.old).trees }
    requires ty_in { ty < length (L.contents looks.old).trees }
    requires level_in { level < length (L.contents looks.old).levels }
    ensures { Compares L.contents L.rest L.sight looks.old looks.new result
        (λ t. level_rest (t left) (t right) (t ty) (level_at (L.contents looks.old) level)) }
{
    if looks.level_is_zero(level) {
        return Ok(Next::Ask(
            Query::Infer(right),
            Sheet::Term(SameTermSheet::Proof(ProofSheet::Right { left, right, ty })),
        ));
    }
    literals(looks, left, right)
}

/// Goes on with the weak head form that is to be the left type's sort.
fn by_form<L: Looks>(
    looks: &mut L,
    left: u64,
    right: u64,
    ty: u64,
    form: u64,
) -> Result<SameNext, NoMemory>
    requires left_in { left < length (L.contents looks.old).trees }
    requires right_in { right < length (L.contents looks.old).trees }
    requires ty_in { ty < length (L.contents looks.old).trees }
    requires form_in { form < length (L.contents looks.old).trees }
    ensures { Compares L.contents L.rest L.sight looks.old looks.new result
        (λ t. form_rest (t left) (t right) (t ty) (t form)) }
{
    match looks.view(form) {
        Node::Sort(level) => by_level(looks, left, right, ty, level),
        _ => Ok(Next::No(Rule::NotASort)),
    }
}

/// Goes on once the two types were compared, of which the left one is a proposition.
pub(crate) fn by_types<L: Looks>(
    looks: &mut L,
    left: u64,
    right: u64,
    equal: bool,
) -> Result<SameNext, NoMemory>
    requires left_in { left < length (L.contents looks.old).trees }
    requires right_in { right < length (L.contents looks.old).trees }
    ensures { Compares L.contents L.rest L.sight looks.old looks.new result
        (λ t. types_rest (t left) (t right) equal) }
{
    if equal {
        return Ok(Next::Done(Answer::Truth(true)));
    }
    literals(looks, left, right)
}

/// Goes on once the term is there that a sheet waits for.
pub(crate) fn resume_term<L: Looks>(
    looks: &mut L,
    sheet: ProofSheet<u64>,
    e: u64,
) -> Result<SameNext, NoMemory>
    requires sheet_in { IsKnownProof (length (L.contents looks.old).trees) sheet }
    requires e_in { e < length (L.contents looks.old).trees }
    ensures { ResumesTerm L.contents L.rest L.sight looks.old looks.new result
        (SameTermSheet.Proof sheet) e }
{
    match sheet {
        ProofSheet::Left { left, right } => Ok(Next::Ask(
            Query::Infer(e),
            Sheet::Term(SameTermSheet::Proof(ProofSheet::LeftSort { left, right, ty: e })),
        )),
        ProofSheet::LeftSort { left, right, ty } => Ok(Next::Ask(
            Query::Whnf(e),
            Sheet::Term(SameTermSheet::Proof(ProofSheet::LeftSortForm { left, right, ty })),
        )),
        ProofSheet::LeftSortForm { left, right, ty } => by_form(looks, left, right, ty, e),
        ProofSheet::Right { left, right, ty } => Ok(Next::Ask(
            Query::Same(ty, e),
            Sheet::Truth(SameTruthSheet::Types { left, right }),
        )),
    }
}
