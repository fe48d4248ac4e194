//! The arguments that one tree is applied to in another.

ghost use Rattle.std.specs.Prelude.{◌≡◌, ◌<◌, [], length, option_map, All, IfOk, IfSome};
ghost use Rattle.lk_written.specs.Premises.{arguments_over as arguments_of};
ghost use Rattle.lk_store.specs.Contents.{tree_at};
ghost use Rattle.lk_premises.specs.Spines.{stack_at};

use crate::premises::same_tree;
use lk_store::memory::NoMemory;
use lk_store::node::Node;
use lk_store::terms::Terms;
use std::alloc::Global;

/// The arguments, one or more, where a tree is `front` applied to them: a stack with the first of them on top.
pub fn arguments_over<T: Terms>(
    alloc: Global,
    terms: &T,
    front: u64,
    e: u64,
) -> Result<Option<Vec<u64>>, NoMemory>
    requires front_in { front < length (T.contents terms.now).trees }
    requires e_in { e < length (T.contents terms.now).trees }
    ensures found { let t = tree_at (T.contents terms.now) in
        IfOk result (λ o. arguments_of (t front) (t e) []
        ≡ option_map (λ v. stack_at (T.contents terms.now) v.items) o) }
    ensures known { IfOk result (λ o. IfSome o
        (λ v. All (λ x. x < length (T.contents terms.now).trees) v.items)) }
{
    let mut found = Vec::new(alloc);
    let mut at = e;
    'down: while let Node::App(function, argument) = terms.view(at) {
        found.push(argument)?;
        if same_tree(terms, function, front) {
            return Ok(Some(found));
        }
        at = function;
    }
    Ok(None)
}
