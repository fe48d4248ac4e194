//! Levels compared; those that are too wide are not equal.

ghost use Rattle.std.specs.Prelude.{◌≡◌, ◌<◌, length, IfOk};
ghost use Rattle.lk_tree.specs.LevelTest.{level_test};
ghost use Rattle.lk_questions.specs.Tests.{is_true, same_levels as are_same};
ghost use Rattle.lk_store.specs.Contents.{level_at, list_at};
ghost use Rattle.lk_replay_equal.specs.Parts.{is_none};

use lk_level_order::compared::{LevelError, equal};
use lk_store::memory::NoMemory;
use lk_store::node::ListNode;
use lk_store::terms::Terms;
use std::alloc::Global;

/// Whether two levels are equal under every assignment.
pub(crate) fn same_level<T: Terms>(
    alloc: Global,
    terms: &T,
    a: u64,
    b: u64,
) -> Result<bool, NoMemory>
    requires a_in { a < length (T.contents terms.now).levels }
    requires b_in { b < length (T.contents terms.now).levels }
    ensures { IfOk result (λ r. r ≡ is_true (level_test (level_at (T.contents terms.now) a)
        (level_at (T.contents terms.now) b))) }
{
    match equal(alloc, terms, a, b) {
        Ok(equal) => Ok(equal),
        Err(LevelError::Width) => Ok(false),
        Err(LevelError::NoMemory) => Err(NoMemory),
    }
}

/// Whether two lists have equal levels, as many.
pub(crate) fn same_levels<T: Terms>(
    alloc: Global,
    terms: &T,
    a: u64,
    b: u64,
) -> Result<bool, NoMemory>
    requires a_in { a < length (T.contents terms.now).lists }
    requires b_in { b < length (T.contents terms.now).lists }
    ensures { IfOk result (λ r. r ≡ are_same (list_at (T.contents terms.now) a)
        (list_at (T.contents terms.now) b)) }
{
    let mut left = a;
    let mut right = b;
    'levels: while let ListNode::Cons(l, others) = terms.levels(left) {
        let ListNode::Cons(m, more) = terms.levels(right) else {
            return Ok(false);
        };
        if !same_level(alloc, terms, l, m)? {
            return Ok(false);
        }
        left = others;
        right = more;
    }
    Ok(is_empty(terms, right))
}

/// Whether a list has no level.
fn is_empty<T: Terms>(terms: &T, levels: u64) -> bool
    requires { levels < length (T.contents terms.now).lists }
    ensures { result ≡ is_none (list_at (T.contents terms.now) levels) }
{
    match terms.levels(levels) {
        ListNode::Empty => true,
        ListNode::Cons(_, _) => false,
    }
}
