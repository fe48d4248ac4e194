//! Constants unfolded by their values.

ghost use Rattle.std.specs.Prelude.{◌≡◌, ◌<◌, Some, IfOk, IfSome, length};
ghost use Rattle.lk_tree.specs.Spine.{apply as apply_to, args as args_of};
ghost use Rattle.lk_rulebook.specs.Place.{Entry as PlainEntry};
ghost use Rattle.lk_store.specs.Contents.{list_at, tree_at, Extends, IsTree};
ghost use Rattle.lk_ask.specs.Constants.{IsUnfolded};
ghost use Rattle.lk_ask.specs.Looks.{entry_at};

use crate::looks::Looks;
use lk_env::entry::Entry;
use lk_spine::{apply, args};
use lk_store::memory::NoMemory;
use lk_store::terms::Terms;
use std::alloc::Global;

/// Another head, applied to the arguments of a term.
pub fn with_head<T: Terms>(
    alloc: Global,
    terms: &mut T,
    e: u64,
    front: u64,
) -> Result<u64, NoMemory>
    requires e_in { e < length (T.contents terms.old).trees }
    requires front_in { front < length (T.contents terms.old).trees }
    ensures keeps { Extends (T.contents terms.old) (T.contents terms.new) }
    ensures rest { T.rest terms.new ≡ T.rest terms.old }
    ensures ok { IfOk result (λ r. IsTree (T.contents terms.new) r
        (apply_to (tree_at (T.contents terms.old) front)
        (args_of (tree_at (T.contents terms.old) e)))) }
{
    let values = args(alloc, terms, e)?;
    apply(terms, front, &values)
}

/// A term whose head is a constant of these levels, with the constant's value in place of it. There is none where the
/// levels are not as many as the constant's unit has level parameters.
pub fn unfold<L: Looks>(
    looks: &mut L,
    entry: Entry,
    levels: u64,
    value: u64,
    e: u64,
) -> Result<Option<u64>, NoMemory>
    requires levels_in { levels < length (L.contents looks.old).lists }
    requires value_in { value < length (L.contents looks.old).trees }
    requires e_in { e < length (L.contents looks.old).trees }
    ensures keeps { Extends (L.contents looks.old) (L.contents looks.new) }
    ensures rest { L.rest looks.new ≡ L.rest looks.old }
    ensures known { IfOk result (λ r. IfSome r (λ t. t < length (L.contents looks.new).trees)) }
    ensures ok { IfOk result (λ r. (g : PlainEntry)
        → entry_at (L.sight (L.rest looks.old)).basis entry ≡ Some g
        → IsUnfolded (L.contents looks.new) g.levels (list_at (L.contents looks.old) levels)
        (tree_at (L.contents looks.old) value) (args_of (tree_at (L.contents looks.old) e)) r) }
{
    match looks.at_levels(entry, levels, value)? {
        Some(front) => {
            let r = with_head(looks.alloc(), looks, e, front)?;
            Ok(Some(r))
        }
        None => Ok(None),
    }
}
