//! Literals.

ghost use Rattle.std.specs.Prelude.{◌≡◌, ◌<◌, length};
ghost use Rattle.lk_tree.specs.Tree.{lit, str as text_tree};
ghost use Rattle.lk_tree.specs.WellFormed.{IsWellFormed};
ghost use Rattle.lk_store.specs.Contents.{text_at, tree_at};
ghost use Rattle.lk_derive_types.specs.TypeRows.{HasType, GivesRow};

use crate::asked::{Asked, typing_row};
use lk_step::{Derives, Row};
use lk_store::memory::NoMemory;
use lk_trace::TypingRule;

/// The row of a number.
pub(crate) fn number_row<D: Derives>(derives: &mut D, e: u64, number: u128) -> Result<Row, NoMemory>
    requires e_in { e < length (D.contents derives.old).trees }
    requires e_is { tree_at (D.contents derives.old) e ≡ lit number }
    requires askable { IsWellFormed (tree_at (D.contents derives.old) e) }
    requires answered { HasType (D.sight (D.rest derives.old)).basis.place
        (tree_at (D.contents derives.old) e) }
    ensures { GivesRow D.contents D.rest D.sight derives.old derives.new
        (tree_at (D.contents derives.old) e) result }
{
    let ty = lk_lit::nat(derives)?;
    typing_row(
        derives.alloc(),
        TypingRule::NatLiteral,
        e,
        ty,
        Asked::new(derives.alloc()),
    )
}

/// The row of a text.
pub(crate) fn text_row<D: Derives>(derives: &mut D, e: u64, text: u64) -> Result<Row, NoMemory>
    requires e_in { e < length (D.contents derives.old).trees }
    requires e_is { tree_at (D.contents derives.old) e
        ≡ text_tree (text_at (D.contents derives.old) text) }
    requires answered { HasType (D.sight (D.rest derives.old)).basis.place
        (tree_at (D.contents derives.old) e) }
    ensures { GivesRow D.contents D.rest D.sight derives.old derives.new
        (tree_at (D.contents derives.old) e) result }
{
    let ty = lk_lit::string(derives)?;
    typing_row(
        derives.alloc(),
        TypingRule::TextLiteral,
        e,
        ty,
        Asked::new(derives.alloc()),
    )
}
