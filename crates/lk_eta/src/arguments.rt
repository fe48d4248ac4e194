//! How many arguments a term has.

ghost use Rattle.std.specs.Prelude.{◌≡◌, ◌<◌, length, nat_eq};
ghost use Rattle.lk_tree.specs.Spine.{args};
ghost use Rattle.lk_store.specs.Contents.{tree_at};

use lk_store::node::Node;
use lk_store::terms::Terms;

/// Whether a term has just so many arguments. It takes no memory, and ends where there are too many.
pub fn has_arguments<T: Terms>(terms: &T, e: u64, count: u128) -> bool
    requires { e < length (T.contents terms.now).trees }
    ensures { result ≡ nat_eq (length (args (tree_at (T.contents terms.now) e))) count }
{
    let mut at = e;
    let mut left = count;
    'down: while let Node::App(f, _) = terms.view(at) {
        if left == 0 {
            return false;
        }
        at = f;
        left -= 1;
    }
    left == 0
}
