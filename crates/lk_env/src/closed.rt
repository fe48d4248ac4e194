//! Which trees are closed.

ghost use Rattle.std.specs.Prelude.{◌≡◌, ◌<◌, length};
ghost use Rattle.lk_tree.specs.Scan.{is_bound};
ghost use Rattle.lk_store.specs.Contents.{tree_at};

use lk_store::terms::Terms;

/// Whether a tree has neither a loose variable nor a Local.
#[tactic(auto, using(crate::proofs::Bounds::closed_is))]
pub fn is_closed<T: Terms>(terms: &T, e: u64) -> bool
    requires { e < length (T.contents terms.now).trees }
    ensures { result ≡ is_bound 0 (tree_at (T.contents terms.now) e) }
{
    terms.loose_bound(e) == 0 && terms.local_bound(e) == 0
}
