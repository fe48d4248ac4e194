//! Lambdas.

ghost use Rattle.std.specs.Prelude.{◌≡◌, ◌<◌, length, IfOk};
ghost use Rattle.lk_tree.specs.Tree.{Tree, lam, pi};
ghost use Rattle.lk_tree.specs.Bind.{close as closed};
ghost use Rattle.lk_tree.specs.WellFormed.{IsWellFormed};
ghost use Rattle.lk_rulebook.specs.Place.{Place};
ghost use Rattle.lk_rulebook.specs.WellStated.{WellStated};
ghost use Rattle.lk_questions.specs.Query.{infer};
ghost use Rattle.lk_store.specs.Contents.{Contents, tree_at};
ghost use Rattle.lk_ask.specs.Looks.{MakesTree};
ghost use Rattle.lk_step.specs.Told.{IsAnsweredWithin};
ghost use Rattle.lk_derive_types.specs.Binders.{IsLambdaAt};
ghost use Rattle.lk_derive_types.specs.TypeRows.{IsTypeRow, GivesRow};

use crate::asked::{Asked, typing_row};
use crate::binders::{Inside, open_fresh};
use crate::parts::{Sorted, sort_of};
use lk_ask::looks::Looks;
use lk_step::derives::type_of;
use lk_step::{Derives, Row};
use lk_store::memory::NoMemory;
use lk_store::node::Node;
use lk_subst::closing::close;
use lk_trace::TypingRule;
use std::alloc::Global;

/// The function type of a lambda over this domain, whose opened body is of this type.
fn function_type<L: Looks>(
    looks: &mut L,
    domain: u64,
    number: u64,
    ty: u64,
) -> Result<u64, NoMemory>
    requires domain_in { domain < length (L.contents looks.old).trees }
    requires ty_in { ty < length (L.contents looks.old).trees }
    ensures { MakesTree L.contents L.rest looks.old looks.new result
        (λ t. pi (t domain) (closed number (t ty))) }
{
    let codomain = close(looks.alloc(), looks, ty, number)?;
    looks.make(Node::Pi(domain, codomain))
}

/// The row of a lambda, from what was asked and made for it.
fn lambda_step(
    alloc: Global,
    e: u64,
    domain: u64,
    sorted: Sorted,
    inside: Inside,
    inner: u64,
    ty: u64,
) -> Result<Row, NoMemory>
    ensures { (w : Place) → (c : Contents) → (tree : Tree)
        → IsLambdaAt w c e domain sorted inside inner ty tree
        → IfOk result (IsTypeRow w c tree) }
{
    let mut asked = Asked::new(alloc);
    asked.note_type(domain, sorted.ty)?;
    asked.note_form(sorted.ty, sorted.sort)?;
    asked.note_type(inside.body, inner)?;
    typing_row(
        alloc,
        TypingRule::Lambda {
            local: inside.local,
        },
        e,
        ty,
        asked,
    )
}

/// The row of a lambda: the sort of its domain, and the type of its body, opened with a fresh Local.
pub(crate) fn lambda_row<D: Derives>(
    derives: &mut D,
    e: u64,
    domain: u64,
    body: u64,
    enough: u128,
) -> Result<Row, NoMemory>
    requires e_in { e < length (D.contents derives.old).trees }
    requires domain_in { domain < length (D.contents derives.old).trees }
    requires body_in { body < length (D.contents derives.old).trees }
    requires e_is { tree_at (D.contents derives.old) e ≡ lam
        (tree_at (D.contents derives.old) domain) (tree_at (D.contents derives.old) body) }
    requires stated { WellStated (D.sight (D.rest derives.old)).basis.place }
    requires askable { IsWellFormed (tree_at (D.contents derives.old) e) }
    requires answered { IsAnsweredWithin (D.sight (D.rest derives.old)).basis.place
        (infer (tree_at (D.contents derives.old) e)) enough }
    ensures { GivesRow D.contents D.rest D.sight derives.old derives.new
        (tree_at (D.contents derives.old) e) result }
{
    let sorted = sort_of(derives, domain, enough)?;
    let inside = open_fresh(derives, domain, body)?;
    let inner = type_of(derives, inside.body, enough)?;
    let ty = function_type(derives, domain, inside.number, inner)?;
    lambda_step(derives.alloc(), e, domain, sorted, inside, inner, ty)
}
