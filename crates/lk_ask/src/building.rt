//! Terms that are made between questions. That costs nothing of the budget, and questions are answered as before.

ghost use Rattle.std.specs.Prelude.{◌<◌, length};
ghost use Rattle.lk_tree.specs.Bind.{opened};
ghost use Rattle.lk_store.specs.Contents.{tree_at, tree_of, IsIn};
ghost use Rattle.lk_ask.specs.Asking.{BuildsTree};

use crate::asks::Asks;
use lk_store::memory::NoMemory;
use lk_store::node::Node;
use lk_subst::opening::open_with;
use std::alloc::Global;

/// A number of the term that the node makes of its parts.
pub fn build<A: Asks>(asks: &mut A, node: Node) -> Result<u64, NoMemory>
    requires { IsIn (A.contents asks.old) node }
    ensures { BuildsTree A.contents A.standing A.left asks.old asks.new result
        (λ c. tree_of c node) }
{
    asks.make(node)
}

/// A body with a value in place of its outermost variable.
pub fn open<A: Asks>(alloc: Global, asks: &mut A, body: u64, value: u64) -> Result<u64, NoMemory>
    requires body_in { body < length (A.contents asks.old).trees }
    requires value_in { value < length (A.contents asks.old).trees }
    ensures { BuildsTree A.contents A.standing A.left asks.old asks.new result
        (λ c. opened (tree_at c body) (tree_at c value)) }
{
    open_with(alloc, asks, body, value)
}
