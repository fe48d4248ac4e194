//! The constructor at the head of a tree.

ghost use Rattle.std.specs.Prelude.{◌<◌, IfSome, length};
ghost use Rattle.lk_tree.specs.Spine.{head as head_of, args};
ghost use Rattle.lk_store.specs.Contents.{tree_at};
ghost use Rattle.lk_constructor.specs.Applied.{IsKnownConstructor, IsAppliedIf};
ghost use Rattle.lk_constructor.specs.Looking.{app_at};

use crate::constructor::{AppliedConstructor, constructor_at};
use lk_ask::looks::Looks;
use lk_spine::head;
use lk_store::node::Node;

/// The constructor that the head of a tree means, where it means one: nothing is noted, and it takes no memory.
pub fn head_constructor<L: Looks>(looks: &L, e: u64) -> Option<AppliedConstructor>
    requires { e < length (L.contents looks.now).trees }
    ensures known { IfSome result (IsKnownConstructor (L.contents looks.now)) }
    ensures is { let t = tree_at (L.contents looks.now) e in
        IsAppliedIf (L.contents looks.now) (L.sight (L.rest looks.now)).basis.library (args t)
        result (app_at (L.sight (L.rest looks.now)).basis.place (head_of t) (args t)) }
{
    let front = head(looks, e);
    match looks.view(front) {
        Node::Const(name, _) => constructor_at(looks, name),
        _ => None,
    }
}
