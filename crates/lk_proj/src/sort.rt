//! Sorts, of propositions or not.

ghost use Rattle.std.specs.Prelude.{◌<◌, length};
ghost use Rattle.lk_store.specs.Contents.{tree_at};
ghost use Rattle.lk_proj.specs.Sorts.{IsPropIf};

use lk_ask::looks::Looks;
use lk_store::node::Node;

/// Whether a sort is that of propositions; none of a term that is no sort.
pub(crate) fn is_prop<L: Looks>(looks: &L, form: u64) -> Option<bool>
    requires { form < length (L.contents looks.now).trees }
    ensures { IsPropIf (tree_at (L.contents looks.now) form) result }
{
    match looks.view(form) {
        Node::Sort(level) => Some(looks.level_is_zero(level)),
        _ => None,
    }
}
