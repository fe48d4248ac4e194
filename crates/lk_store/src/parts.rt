//! Whether a store has the parts of a key. Where it lacks one, it has no row with the key: a row
//! stands after its parts.

ghost use Rattle.std.specs.Prelude.{◌≡◌, ◌<◌, ◌↔◌, length, IsTrue};
ghost use Rattle.lk_store.specs.Keys.{IsNameBelow, IsLevelBelow, IsListBelow, IsTreeBelow};
ghost use Rattle.lk_store.specs.Store.{parts_of};

use crate::key::{LevelKey, ListKey, NameKey, TreeKey};
use crate::tables::Tables;

/// Whether a part is among the first so many.
#[inline(always)]
fn is_below(part: u32, count: u64) -> bool
    ensures { IsTrue result ↔ (part < count) }
{
    u64::from(part) < count
}

/// Whether the store has the parts of a name.
#[inline]
pub(crate) fn has_name_parts(store: &Tables, key: NameKey) -> bool
    ensures { IsTrue result ↔ IsNameBelow (length store.now.texts) (length store.now.names) key }
{
    match key {
        NameKey::Anonymous => true,
        NameKey::Text(n, s) => is_below(n, store.names.len()) && is_below(s, store.texts.len()),
        NameKey::Number(n, _) => is_below(n, store.names.len()),
    }
}

/// Whether the store has the parts of a level.
#[inline]
pub(crate) fn has_level_parts(store: &Tables, key: LevelKey) -> bool
    ensures { IsTrue result ↔ IsLevelBelow (length store.now.names) (length store.now.levels) key }
{
    match key {
        LevelKey::Zero => true,
        LevelKey::Succ(l) => is_below(l, store.levels.len()),
        LevelKey::Max(l, m) | LevelKey::IMax(l, m) => {
            is_below(l, store.levels.len()) && is_below(m, store.levels.len())
        }
        LevelKey::Param(n) => is_below(n, store.names.len()),
    }
}

/// Whether the store has the parts of a list of levels.
#[inline]
pub(crate) fn has_list_parts(store: &Tables, key: ListKey) -> bool
    ensures { IsTrue result ↔ IsListBelow (length store.now.levels) (length store.now.lists) key }
{
    match key {
        ListKey::Empty => true,
        ListKey::Cons(l, ls) => {
            is_below(l, store.levels.len()) && is_below(ls, store.lists.len())
        }
    }
}

/// Whether the store has the parts of a tree, its numbers left aside: they are rarely so large that
/// they have rows.
#[inline(always)]
pub(crate) fn has_tree_parts(store: &Tables, key: TreeKey) -> bool
    ensures { IsTreeBelow (parts_of store.now) (length store.now.trees) key → IsTrue result }
{
    match key {
        TreeKey::Sort(l) => is_below(l, store.levels.len()),
        TreeKey::Const(n, ls) => is_below(n, store.names.len()) && is_below(ls, store.lists.len()),
        TreeKey::App(a, b) | TreeKey::Lam(a, b) | TreeKey::Pi(a, b) => {
            is_below(a, store.trees.len()) && is_below(b, store.trees.len())
        }
        TreeKey::Let(a, b, c) => {
            is_below(a, store.trees.len())
                && is_below(b, store.trees.len())
                && is_below(c, store.trees.len())
        }
        TreeKey::Proj(n, _, s) => is_below(n, store.names.len()) && is_below(s, store.trees.len()),
        TreeKey::Str(s) => is_below(s, store.texts.len()),
        TreeKey::Local(_, t) => is_below(t, store.trees.len()),
        TreeKey::Var(_) | TreeKey::Lit(_) | TreeKey::Wide => true,
    }
}
