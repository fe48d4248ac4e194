//! Levels of a list.

ghost use Rattle.std.specs.Prelude.{◌<◌, length, IfOk};
ghost use Rattle.lk_store.specs.Contents.{list_at};
ghost use Rattle.lk_ask.specs.Constants.{IsLevels};

use lk_store::memory::NoMemory;
use lk_store::node::ListNode;
use lk_store::terms::Terms;
use std::alloc::Global;

/// The levels of a list, in order.
pub fn levels_of<T: Terms>(alloc: Global, terms: &T, list: u64) -> Result<Vec<u64>, NoMemory>
    requires { list < length (T.contents terms.now).lists }
    ensures { IfOk result (λ found. IsLevels (T.contents terms.now) found.items
        (list_at (T.contents terms.now) list)) }
{
    let mut found = Vec::new(alloc);
    let mut rest = list;
    'list: while let ListNode::Cons(first, others) = terms.levels(rest) {
        found.push(first)?;
        rest = others;
    }
    Ok(found)
}
