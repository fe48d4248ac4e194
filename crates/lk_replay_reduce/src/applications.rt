//! Applications taken apart.

ghost use Rattle.std.specs.Prelude.{◌≡◌, ◌<◌, IfSome, length, option_map};
ghost use Rattle.lk_store.specs.Contents.{name_at, tree_at};
ghost use Rattle.lk_replay_reduce.specs.Applications.{as_app, parts_at, constant_name};

use lk_store::node::Node;
use lk_store::terms::Terms;

/// A function and its argument.
#[derive(Clone, Copy)]
pub struct Parts {
    pub function: u64,
    pub argument: u64,
}

/// The parts of an application.
pub(crate) fn parts_of<T: Terms>(terms: &T, e: u64) -> Option<Parts>
    requires { e < length (T.contents terms.now).trees }
    ensures is { let c = T.contents terms.now in
        as_app (tree_at c e) ≡ option_map (parts_at c) result }
    ensures known { IfSome result (λ p. (p.function < length (T.contents terms.now).trees)
        × (p.argument < length (T.contents terms.now).trees)) }
{
    match terms.view(e) {
        Node::App(function, argument) => Some(Parts { function, argument }),
        _ => None,
    }
}

/// The name of a constant.
pub(crate) fn name_of<T: Terms>(terms: &T, e: u64) -> Option<u64>
    requires { e < length (T.contents terms.now).trees }
    ensures is { let c = T.contents terms.now in
        constant_name (tree_at c e) ≡ option_map (name_at c) result }
    ensures known { IfSome result (λ n. n < length (T.contents terms.now).names) }
{
    match terms.view(e) {
        Node::Const(name, _) => Some(name),
        _ => None,
    }
}
