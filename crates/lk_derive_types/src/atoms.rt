//! Sorts and Locals.

ghost use Rattle.std.specs.Prelude.{◌≡◌, ◌<◌, length};
ghost use Rattle.lk_tree.specs.Tree.{sort, local as tree_local};
ghost use Rattle.lk_tree.specs.WellFormed.{IsWellFormed};
ghost use Rattle.lk_store.specs.Contents.{level_at, tree_at};
ghost use Rattle.lk_derive_types.specs.TypeRows.{HasType, GivesRow};

use crate::asked::{Asked, typing_row};
use lk_step::{Derives, Row};
use lk_store::memory::NoMemory;
use lk_store::node::{LevelNode, Node};
use lk_trace::TypingRule;

/// The row of a sort.
pub(crate) fn sort_row<D: Derives>(derives: &mut D, e: u64, level: u64) -> Result<Row, NoMemory>
    requires e_in { e < length (D.contents derives.old).trees }
    requires level_in { level < length (D.contents derives.old).levels }
    requires e_is { tree_at (D.contents derives.old) e
        ≡ sort (level_at (D.contents derives.old) level) }
    requires answered { HasType (D.sight (D.rest derives.old)).basis.place
        (tree_at (D.contents derives.old) e) }
    ensures { GivesRow D.contents D.rest D.sight derives.old derives.new
        (tree_at (D.contents derives.old) e) result }
{
    let above = derives.make_level(LevelNode::Succ(level))?;
    let ty = derives.make(Node::Sort(above))?;
    typing_row(
        derives.alloc(),
        TypingRule::Sort,
        e,
        ty,
        Asked::new(derives.alloc()),
    )
}

/// The row of a Local, which carries its type.
pub(crate) fn local_row<D: Derives>(
    derives: &D,
    e: u64,
    number: u64,
    ty: u64,
) -> Result<Row, NoMemory>
    requires e_in { e < length (D.contents derives.now).trees }
    requires ty_in { ty < length (D.contents derives.now).trees }
    requires e_is { tree_at (D.contents derives.now) e
        ≡ tree_local number (tree_at (D.contents derives.now) ty) }
    requires askable { IsWellFormed (tree_at (D.contents derives.now) e) }
    requires answered { HasType (D.sight (D.rest derives.now)).basis.place
        (tree_at (D.contents derives.now) e) }
    ensures { GivesRow D.contents D.rest D.sight derives.now derives.now
        (tree_at (D.contents derives.now) e) result }
{
    typing_row(
        derives.alloc(),
        TypingRule::Local,
        e,
        ty,
        Asked::new(derives.alloc()),
    )
}
