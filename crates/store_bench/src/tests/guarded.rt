//! Calls that look first whether the numbers are there. Where one is not, they answer as if memory were wanting.

use lk_store::memory::NoMemory;
use lk_store::node::Node;
use lk_store::terms::Terms;

pub fn are_same<T: Terms>(terms: &T, a: u64, b: u64) -> bool {
    let n = terms.len();
    a < n && b < n && terms.same(a, b)
}

pub fn view<T: Terms>(terms: &T, e: u64) -> Result<Node, NoMemory> {
    if e < terms.len() {
        Ok(terms.view(e))
    } else {
        Err(NoMemory)
    }
}

pub fn pi<T: Terms>(terms: &mut T, t: u64, b: u64) -> Result<u64, NoMemory> {
    let n = terms.len();
    if t < n && b < n {
        terms.make(Node::Pi(t, b))
    } else {
        Err(NoMemory)
    }
}

/// Whether a tree is the application of f to a.
pub fn applies<T: Terms>(terms: &T, e: u64, f: u64, a: u64) -> Result<bool, NoMemory> {
    match view(terms, e)? {
        Node::App(g, b) => Ok(are_same(terms, f, g) && are_same(terms, a, b)),
        _ => Ok(false),
    }
}
