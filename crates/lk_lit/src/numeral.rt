//! Numerals.

ghost use Rattle.std.specs.Prelude.{◌≡◌, ◌<◌, length};
ghost use Rattle.lk_questions.specs.Literals.{numeral_of};
ghost use Rattle.lk_store.specs.Contents.{tree_at};

use crate::builtin::{Builtin, is_builtin};
use crate::constant::is_empty;
use lk_store::node::Node;
use lk_store::terms::Terms;

/// The number of a numeral: a literal, or `Nat.zero`.
pub(crate) fn numeral_of<T: Terms>(terms: &T, e: u64) -> Option<u128>
    requires { e < length (T.contents terms.now).trees }
    ensures { result ≡ numeral_of (tree_at (T.contents terms.now) e) }
{
    match terms.view(e) {
        Node::Lit(n) => Some(n),
        Node::Const(name, levels) => {
            if is_empty(terms, levels) && is_builtin(terms, name, Builtin::NatZero) {
                Some(0)
            } else {
                None
            }
        }
        _ => None,
    }
}
