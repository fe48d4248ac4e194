//! What is applied to some arguments, found from the outside in.

ghost use Rattle.std.specs.Prelude.{◌≡◌, ◌<◌, length, map, take, drop, All};
ghost use Rattle.lk_tree.specs.Spine.{apply};
ghost use Rattle.lk_questions.specs.Steps.{is_same_tree};
ghost use Rattle.lk_store.specs.Contents.{tree_at};
ghost use Rattle.lk_replay_iota.specs.Fronts.{IsFront};

use lk_premises::same_tree;
use lk_store::node::Node;
use lk_store::terms::Terms;

/// What a tree is that is applied to these arguments.
pub(crate) fn front_of<T: Terms>(terms: &T, arguments: &[u64], e: u64) -> Option<u64>
    requires arguments_in { All (λ x. x < length (T.contents terms.now).trees) arguments.now }
    requires e_in { e < length (T.contents terms.now).trees }
    ensures { let c = T.contents terms.now in
        IsFront c (map (tree_at c) arguments.now) (tree_at c e) result }
{
    let mut at = e;
    let mut left = arguments;
    'down: while let Some((last, others)) = left.split_last() {
        let Node::App(function, argument) = terms.view(at) else {
            return None;
        };
        if !same_tree(terms, argument, *last) {
            return None;
        }
        at = function;
        left = others;
    }
    Some(at)
}

/// Whether a tree is another one, applied to these arguments.
pub(crate) fn is_applied_to<T: Terms>(terms: &T, front: u64, arguments: &[u64], e: u64) -> bool
    requires front_in { front < length (T.contents terms.now).trees }
    requires arguments_in { All (λ x. x < length (T.contents terms.now).trees) arguments.now }
    requires e_in { e < length (T.contents terms.now).trees }
    ensures { let t = tree_at (T.contents terms.now) in
        result ≡ is_same_tree (t e) (apply (t front) (map t arguments.now)) }
{
    match front_of(terms, arguments, e) {
        Some(found) => same_tree(terms, found, front),
        None => false,
    }
}

/// The first ones of some arguments.
pub(crate) fn first_arguments(values: &[u64], count: u128) -> &[u64]
    ensures { result.now ≡ take count values.now }
{
    if count > values.len() as u128 {
        return values;
    }
    let (first, _) = values.split_at(count as usize);
    first
}

/// The others.
pub(crate) fn other_arguments(values: &[u64], count: u64) -> &[u64]
    ensures { result.now ≡ drop count values.now }
{
    if count > values.len() as u64 {
        return &[];
    }
    let (_, others) = values.split_at(count as usize);
    others
}
