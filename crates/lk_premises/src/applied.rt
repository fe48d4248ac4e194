//! Applications compared from the outside in, so that none is built.

ghost use Rattle.std.specs.Prelude.{◌≡◌, ◌<◌, ◌&&◌, length};
ghost use Rattle.lk_tree.specs.Spine.{apply, args};
ghost use Rattle.lk_questions.specs.Steps.{is_same_tree};
ghost use Rattle.lk_questions.specs.Tests.{passes};
ghost use Rattle.lk_store.specs.Contents.{tree_at};
ghost use Rattle.lk_premises.specs.Applied.{is_applied_as, are_headed, applied_to};

use crate::premises::{ended, same_tree};
use lk_store::node::Node;
use lk_store::terms::Terms;

/// Whether a tree is `front`, applied to the arguments of another one.
fn is_spine<T: Terms>(terms: &T, front: u64, a: u64, b: u64) -> bool
    requires front_in { front < length (T.contents terms.now).trees }
    requires a_in { a < length (T.contents terms.now).trees }
    requires b_in { b < length (T.contents terms.now).trees }
    ensures { let t = tree_at (T.contents terms.now) in
        result ≡ is_applied_as (t front) (t a) (t b) }
{
    let mut first = a;
    let mut second = b;
    'down: while let Node::App(function, argument) = terms.view(first) {
        let Node::App(other, value) = terms.view(second) else {
            return false;
        };
        if !same_tree(terms, value, argument) {
            return false;
        }
        first = function;
        second = other;
    }
    same_tree(terms, second, front)
}

/// The same.
#[tactic(auto, using(crate::proofs::Comparing::applied_is))]
pub fn is_applied<T: Terms>(terms: &T, front: u64, a: u64, b: u64) -> bool
    requires front_in { front < length (T.contents terms.now).trees }
    requires a_in { a < length (T.contents terms.now).trees }
    requires b_in { b < length (T.contents terms.now).trees }
    ensures { let t = tree_at (T.contents terms.now) in
        result ≡ is_same_tree (t b) (apply (t front) (args (t a))) }
{
    is_spine(terms, front, a, b)
}

/// The same, and no premise is left.
pub fn comes_to_applied<T: Terms>(terms: &T, left: &[u32], front: u64, a: u64, b: u64) -> bool
    requires front_in { front < length (T.contents terms.now).trees }
    requires a_in { a < length (T.contents terms.now).trees }
    requires b_in { b < length (T.contents terms.now).trees }
    ensures { let t = tree_at (T.contents terms.now) in
        result ≡ passes (applied_to left.now (t front) (t a) (t b)) }
{
    ended(left) && is_applied(terms, front, a, b)
}

/// Whether two trees are these two, applied to the same arguments, one or more.
pub fn are_applied<T: Terms>(terms: &T, f: u64, g: u64, a: u64, b: u64) -> bool
    requires f_in { f < length (T.contents terms.now).trees }
    requires g_in { g < length (T.contents terms.now).trees }
    requires a_in { a < length (T.contents terms.now).trees }
    requires b_in { b < length (T.contents terms.now).trees }
    ensures { let t = tree_at (T.contents terms.now) in
        result ≡ are_headed (t f) (t g) (t a) (t b) }
{
    let mut first = a;
    let mut second = b;
    'down: while let Node::App(function, argument) = terms.view(first) {
        let Node::App(other, value) = terms.view(second) else {
            return false;
        };
        if !same_tree(terms, value, argument) {
            return false;
        }
        if same_tree(terms, function, f) {
            return same_tree(terms, other, g);
        }
        first = function;
        second = other;
    }
    false
}
