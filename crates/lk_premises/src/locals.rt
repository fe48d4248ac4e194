//! Locals that stand for the variable of a binder.

ghost use Rattle.std.specs.Prelude.{◌≡◌, ◌<◌, ◌∷◌, [], length, map, All, IfSome};
ghost use Rattle.lk_tree.specs.Tree.{local as a_local};
ghost use Rattle.lk_written.specs.Premises.{is_fresh as is_above, fresh_local as local_for};
ghost use Rattle.lk_store.specs.Contents.{tree_at};

use crate::premises::same_tree;
use lk_store::node::Node;
use lk_store::terms::Terms;

/// Whether a number is at least the bound of each of these trees, so that a Local of that number is in none of them.
fn is_fresh<T: Terms>(terms: &T, number: u64, trees: &[u64]) -> bool
    requires { All (λ e. e < length (T.contents terms.now).trees) trees.now }
    ensures { result ≡ is_above number (map (tree_at (T.contents terms.now)) trees.now) }
{
    let mut rest = trees;
    'trees: while let Some((e, more)) = rest.split_first() {
        if terms.local_bound(*e) > u128::from(number) {
            return false;
        }
        rest = more;
    }
    true
}

/// The number of a Local, where it is one of this type that stands in none of the trees.
pub fn fresh_local<T: Terms>(terms: &T, ty: u64, trees: &[u64], local: u64) -> Option<u64>
    requires ty_in { ty < length (T.contents terms.now).trees }
    requires trees_in { All (λ e. e < length (T.contents terms.now).trees) trees.now }
    requires local_in { local < length (T.contents terms.now).trees }
    ensures fresh { local_for (tree_at (T.contents terms.now) ty)
        (map (tree_at (T.contents terms.now)) trees.now) (tree_at (T.contents terms.now) local)
        ≡ result }
    ensures local { IfSome result (λ k. tree_at (T.contents terms.now) local
        ≡ a_local k (tree_at (T.contents terms.now) ty)) }
{
    match terms.view(local) {
        Node::Local(number, own) => {
            if same_tree(terms, own, ty) && is_fresh(terms, number, trees) {
                Some(number)
            } else {
                None
            }
        }
        _ => None,
    }
}
