//! Constants.

ghost use Rattle.std.specs.Prelude.{◌≡◌, ◌<◌, length};
ghost use Rattle.lk_tree.specs.Tree.{const};
ghost use Rattle.lk_rulebook.specs.WellStated.{WellStated};
ghost use Rattle.lk_store.specs.Contents.{name_at, list_at, tree_at};
ghost use Rattle.lk_store.specs.Store.{contents_of};
ghost use Rattle.lk_env.specs.Entries.{IsEntryIn};
ghost use Rattle.lk_ask.specs.Looks.{IsOver};
ghost use Rattle.lk_premises.specs.Given.{IsGiven};
ghost use Rattle.lk_derive_types.specs.TypeRows.{HasType, GivesRow};

use crate::asked::{Asked, typing_row};
use lk_env::entry::Entry;
use lk_premises::meaning_of;
use lk_step::{Derives, Row};
use lk_store::memory::NoMemory;
use lk_trace::TypingRule;

/// The row of a constant that means this entry.
fn stated_row<D: Derives>(
    derives: &mut D,
    e: u64,
    name: u64,
    levels: u64,
    entry: Entry,
) -> Result<Row, NoMemory>
    requires e_in { e < length (D.contents derives.old).trees }
    requires levels_in { levels < length (D.contents derives.old).lists }
    requires e_is { tree_at (D.contents derives.old) e ≡ const
        (name_at (D.contents derives.old) name) (list_at (D.contents derives.old) levels) }
    requires stated { WellStated (D.sight (D.rest derives.old)).basis.place }
    requires answered { HasType (D.sight (D.rest derives.old)).basis.place
        (tree_at (D.contents derives.old) e) }
    requires over { IsOver D.contents D.rest D.sight derives.old }
    requires entry_in { let b = contents_of
        (D.sight (D.rest derives.old)).basis.library.tables in IsEntryIn b entry }
    requires given { IsGiven (D.sight (D.rest derives.old)).basis
        (name_at (D.contents derives.old) name) entry }
    ensures { GivesRow D.contents D.rest D.sight derives.old derives.new
        (tree_at (D.contents derives.old) e) result }
{
    match derives.at_levels(entry, levels, entry.stated)? {
        Some(ty) => {
            typing_row(
                derives.alloc(),
                TypingRule::Constant,
                e,
                ty,
                Asked::new(derives.alloc()),
            )
        }
        None => unreachable!(),
    }
}

/// The row of a constant.
pub(crate) fn constant_row<D: Derives>(
    derives: &mut D,
    e: u64,
    name: u64,
    levels: u64,
) -> Result<Row, NoMemory>
    requires e_in { e < length (D.contents derives.old).trees }
    requires name_in { name < length (D.contents derives.old).names }
    requires levels_in { levels < length (D.contents derives.old).lists }
    requires e_is { tree_at (D.contents derives.old) e ≡ const
        (name_at (D.contents derives.old) name) (list_at (D.contents derives.old) levels) }
    requires stated { WellStated (D.sight (D.rest derives.old)).basis.place }
    requires answered { HasType (D.sight (D.rest derives.old)).basis.place
        (tree_at (D.contents derives.old) e) }
    ensures { GivesRow D.contents D.rest D.sight derives.old derives.new
        (tree_at (D.contents derives.old) e) result }
{
    match meaning_of(derives, name) {
        Some(entry) => stated_row(derives, e, name, levels, entry),
        None => unreachable!(),
    }
}
