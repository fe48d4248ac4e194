//! Levels compared, two or two lists of them.

ghost use Rattle.std.specs.Prelude.{◌≡◌, ◌<◌, nat_eq, length, IfOk};
ghost use Rattle.lk_questions.specs.Levels.{complete_test as plain_test, tested as plain_answer, level_pairs_equal, levels_equal as plain_equal};
ghost use Rattle.lk_store.specs.Contents.{level_at, list_at};

use lk_level_order::compared::{LevelError, equal};
use lk_store::memory::NoMemory;
use lk_store::node::ListNode;
use lk_store::terms::Terms;
use std::alloc::Global;

/// Whether two levels are equal. There is no answer where they are too wide.
pub fn are_equal<T: Terms>(
    alloc: Global,
    terms: &T,
    a: u64,
    b: u64,
) -> Result<Option<bool>, NoMemory>
    requires a_in { a < length (T.contents terms.now).levels }
    requires b_in { b < length (T.contents terms.now).levels }
    ensures { IfOk result (λ r. plain_answer r
        ≡ plain_test (level_at (T.contents terms.now) a) (level_at (T.contents terms.now) b)) }
{
    match equal(alloc, terms, a, b) {
        Ok(same) => Ok(Some(same)),
        Err(error) => match error {
            LevelError::Width => Ok(None),
            LevelError::NoMemory => Err(NoMemory),
        },
    }
}

/// Whether two lists are of one length.
fn same_length<T: Terms>(terms: &T, a: u64, b: u64) -> bool
    requires a_in { a < length (T.contents terms.now).lists }
    requires b_in { b < length (T.contents terms.now).lists }
    ensures { let ls = list_at (T.contents terms.now) in
        result ≡ nat_eq (length (ls a)) (length (ls b)) }
{
    let mut left = a;
    let mut right = b;
    'down: while let ListNode::Cons(_, left_rest) = terms.levels(left) {
        match terms.levels(right) {
            ListNode::Empty => return false,
            ListNode::Cons(_, right_rest) => {
                left = left_rest;
                right = right_rest;
            }
        }
    }
    match terms.levels(right) {
        ListNode::Empty => true,
        ListNode::Cons(_, _) => false,
    }
}

/// Whether two lists of levels are equal pair by pair, up to the first pair that is not.
fn pairs_equal<T: Terms>(alloc: Global, terms: &T, a: u64, b: u64) -> Result<Option<bool>, NoMemory>
    requires a_in { a < length (T.contents terms.now).lists }
    requires b_in { b < length (T.contents terms.now).lists }
    ensures { let ls = list_at (T.contents terms.now) in
        IfOk result (λ r. plain_answer r ≡ level_pairs_equal plain_test (ls a) (ls b)) }
{
    let mut left = a;
    let mut right = b;
    'pairs: while let ListNode::Cons(l, left_rest) = terms.levels(left) {
        match terms.levels(right) {
            ListNode::Empty => return Ok(Some(false)),
            ListNode::Cons(m, right_rest) => {
                match are_equal(alloc, terms, l, m)? {
                    None => return Ok(None),
                    Some(false) => return Ok(Some(false)),
                    Some(true) => {}
                }
                left = left_rest;
                right = right_rest;
            }
        }
    }
    match terms.levels(right) {
        ListNode::Empty => Ok(Some(true)),
        ListNode::Cons(_, _) => Ok(Some(false)),
    }
}

/// Whether two lists of levels are equal. Where their lengths differ, no level is compared.
pub fn levels_equal<T: Terms>(
    alloc: Global,
    terms: &T,
    a: u64,
    b: u64,
) -> Result<Option<bool>, NoMemory>
    requires a_in { a < length (T.contents terms.now).lists }
    requires b_in { b < length (T.contents terms.now).lists }
    ensures { let ls = list_at (T.contents terms.now) in
        IfOk result (λ r. plain_answer r ≡ plain_equal plain_test (ls a) (ls b)) }
{
    if !same_length(terms, a, b) {
        return Ok(Some(false));
    }
    pairs_equal(alloc, terms, a, b)
}
