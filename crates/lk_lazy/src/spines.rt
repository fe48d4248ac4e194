//! Two applications taken apart in pairs.

ghost use Rattle.std.specs.Prelude.{◌<◌, length, IfOk};
ghost use Rattle.lk_lazy.specs.Spines.{IsPairedIf};

use lk_ask::sheet::Pair;
use lk_store::memory::NoMemory;
use lk_store::node::Node;
use lk_store::terms::Terms;
use std::alloc::Global;

/// The heads of two terms that have as many arguments, and the pairs of their arguments, the last one first.
#[derive(Drop)]
pub struct Paired {
    pub left: u64,
    pub right: u64,
    pub pairs: Vec<Pair<u64>>,
}

/// Two spines, walked down at once. There are no pairs where one of them is longer.
pub fn pair_up<T: Terms>(
    alloc: Global,
    terms: &T,
    a: u64,
    b: u64,
) -> Result<Option<Paired>, NoMemory>
    requires a_in { a < length (T.contents terms.now).trees }
    requires b_in { b < length (T.contents terms.now).trees }
    ensures { IfOk result (IsPairedIf (T.contents terms.now) a b) }
{
    let mut pairs: Vec<Pair<u64>> = Vec::new(alloc);
    let mut left = a;
    let mut right = b;
    'down: while let Node::App(f, x) = terms.view(left) {
        match terms.view(right) {
            Node::App(g, y) => {
                pairs.push(Pair { left: x, right: y })?;
                left = f;
                right = g;
            }
            _ => return Ok(None),
        }
    }
    if let Node::App(_, _) = terms.view(right) {
        return Ok(None);
    }
    Ok(Some(Paired { left, right, pairs }))
}
