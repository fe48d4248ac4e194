//! Trees whose head takes no step of beta or zeta.

ghost use Rattle.std.specs.Prelude.{◌≡◌, ◌<◌, length};
ghost use Rattle.lk_written.specs.Equal as plain;
ghost use Rattle.lk_store.specs.Contents.{tree_at};

use lk_store::node::Node;
use lk_store::terms::Terms;

/// Whether the head of a tree is neither a lambda nor a Let.
pub(crate) fn is_neutral<T: Terms>(terms: &T, e: u64) -> bool
    requires { e < length (T.contents terms.now).trees }
    ensures { result ≡ plain.is_neutral (tree_at (T.contents terms.now) e) }
{
    let mut at = e;
    'down: loop {
        match terms.view(at) {
            Node::App(function, _) => at = function,
            Node::Lam(_, _) => return false,
            Node::Let(_, _, _) => return false,
            _ => return true,
        }
    }
}

/// Whether no step of beta or zeta is at the head of a tree.
pub(crate) fn is_head_normal<T: Terms>(terms: &T, e: u64) -> bool
    requires { e < length (T.contents terms.now).trees }
    ensures { result ≡ plain.is_head_normal (tree_at (T.contents terms.now) e) }
{
    match terms.view(e) {
        Node::Lam(_, _) => true,
        _ => is_neutral(terms, e),
    }
}
