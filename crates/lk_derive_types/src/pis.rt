//! Function types.

ghost use Rattle.std.specs.Prelude.{◌≡◌, ◌<◌, length, IfOk};
ghost use Rattle.lk_tree.specs.Tree.{Tree, sort, imax_level, pi};
ghost use Rattle.lk_tree.specs.WellFormed.{IsWellFormed};
ghost use Rattle.lk_rulebook.specs.Place.{Place};
ghost use Rattle.lk_rulebook.specs.WellStated.{WellStated};
ghost use Rattle.lk_questions.specs.Query.{infer};
ghost use Rattle.lk_store.specs.Contents.{Contents, level_at, tree_at};
ghost use Rattle.lk_ask.specs.Looks.{MakesTree};
ghost use Rattle.lk_step.specs.Told.{IsAnsweredWithin};
ghost use Rattle.lk_derive_types.specs.Binders.{IsPiAt};
ghost use Rattle.lk_derive_types.specs.TypeRows.{IsTypeRow, GivesRow};

use crate::asked::{Asked, typing_row};
use crate::binders::{Inside, open_fresh};
use crate::parts::{Sorted, sort_of};
use lk_ask::looks::Looks;
use lk_step::{Derives, Row};
use lk_store::memory::NoMemory;
use lk_store::node::{LevelNode, Node};
use lk_trace::TypingRule;
use std::alloc::Global;

/// The sort of functions between sorts of these levels.
fn function_sort<L: Looks>(looks: &mut L, domain: u64, codomain: u64) -> Result<u64, NoMemory>
    requires domain_in { domain < length (L.contents looks.old).levels }
    requires codomain_in { codomain < length (L.contents looks.old).levels }
    ensures { MakesTree L.contents L.rest looks.old looks.new result
        (λ _. sort (imax_level (level_at (L.contents looks.old) domain)
        (level_at (L.contents looks.old) codomain))) }
{
    let level = looks.make_level(LevelNode::IMax(domain, codomain))?;
    looks.make(Node::Sort(level))
}

/// The row of a Pi, from what was asked and made for it.
fn pi_step(
    alloc: Global,
    e: u64,
    domain: u64,
    sorted: Sorted,
    inside: Inside,
    inner: Sorted,
    ty: u64,
) -> Result<Row, NoMemory>
    ensures { (w : Place) → (c : Contents) → (tree : Tree)
        → IsPiAt w c e domain sorted inside inner ty tree → IfOk result (IsTypeRow w c tree) }
{
    let mut asked = Asked::new(alloc);
    asked.note_type(domain, sorted.ty)?;
    asked.note_form(sorted.ty, sorted.sort)?;
    asked.note_type(inside.body, inner.ty)?;
    asked.note_form(inner.ty, inner.sort)?;
    typing_row(
        alloc,
        TypingRule::Pi {
            local: inside.local,
        },
        e,
        ty,
        asked,
    )
}

/// The row of a Pi: the sort of its domain, and that of its body, opened with a fresh Local.
pub(crate) fn pi_row<D: Derives>(
    derives: &mut D,
    e: u64,
    domain: u64,
    body: u64,
    enough: u128,
) -> Result<Row, NoMemory>
    requires e_in { e < length (D.contents derives.old).trees }
    requires domain_in { domain < length (D.contents derives.old).trees }
    requires body_in { body < length (D.contents derives.old).trees }
    requires e_is { tree_at (D.contents derives.old) e ≡ pi
        (tree_at (D.contents derives.old) domain) (tree_at (D.contents derives.old) body) }
    requires stated { WellStated (D.sight (D.rest derives.old)).basis.place }
    requires askable { IsWellFormed (tree_at (D.contents derives.old) e) }
    requires answered { IsAnsweredWithin (D.sight (D.rest derives.old)).basis.place
        (infer (tree_at (D.contents derives.old) e)) enough }
    ensures { GivesRow D.contents D.rest D.sight derives.old derives.new
        (tree_at (D.contents derives.old) e) result }
{
    let sorted = sort_of(derives, domain, enough)?;
    let inside = open_fresh(derives, domain, body)?;
    let inner = sort_of(derives, inside.body, enough)?;
    let ty = function_sort(derives, sorted.level, inner.level)?;
    pi_step(derives.alloc(), e, domain, sorted, inside, inner, ty)
}
