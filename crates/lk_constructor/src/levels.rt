//! The levels at which a type stands.

ghost use Rattle.std.specs.Prelude.{◌≡◌, ◌<◌, IfSome, option_map, length};
ghost use Rattle.lk_tree.specs.Spine.{head as head_of};
ghost use Rattle.lk_questions.specs.Iota.{levels_at};
ghost use Rattle.lk_store.specs.Contents.{name_at, list_at, tree_at};

use lk_spine::head;
use lk_store::node::Node;
use lk_store::terms::Terms;

/// The levels of a term whose head is the constant of this name. It takes no memory.
pub fn levels_of_type<T: Terms>(terms: &T, inductive: u64, e: u64) -> Option<u64>
    requires inductive_in { inductive < length (T.contents terms.now).names }
    requires e_in { e < length (T.contents terms.now).trees }
    ensures known { IfSome result (λ ls. ls < length (T.contents terms.now).lists) }
    ensures is { levels_at (name_at (T.contents terms.now) inductive)
        (head_of (tree_at (T.contents terms.now) e))
        ≡ option_map (list_at (T.contents terms.now)) result }
{
    let front = head(terms, e);
    match terms.view(front) {
        Node::Const(name, levels) => {
            if terms.same_name(inductive, name) {
                Some(levels)
            } else {
                None
            }
        }
        _ => None,
    }
}
