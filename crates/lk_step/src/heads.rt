//! Heads of terms.

ghost use Rattle.std.specs.Prelude.{◌≡◌, ◌<◌, List, length};
ghost use Rattle.lk_tree.specs.Tree.{Name, Level, const};
ghost use Rattle.lk_tree.specs.Spine.{head as head_of};
ghost use Rattle.lk_store.specs.Contents.{name_at, tree_at};
ghost use Rattle.lk_step.specs.Heads.{HasConstant};

use lk_spine::head;
use lk_store::node::Node;
use lk_store::terms::Terms;

/// The name of the constant at the head of a term.
pub fn head_name<T: Terms>(terms: &T, e: u64) -> u64
    requires e_in { e < length (T.contents terms.now).trees }
    requires constant { HasConstant (tree_at (T.contents terms.now) e) }
    ensures known { result < length (T.contents terms.now).names }
    ensures is { let c = T.contents terms.now in (name : Name) (levels : List Level)
        → head_of (tree_at c e) ≡ const name levels → name_at c result ≡ name }
{
    let front = head(terms, e);
    match terms.view(front) {
        Node::Const(name, _) => name,
        _ => unreachable!(),
    }
}
