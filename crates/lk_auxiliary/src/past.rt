//! What stands past the Pis at the head of a type.

ghost use Rattle.std.specs.Prelude.{◌≡◌, ◌<◌, length, map, All, IfOk};
ghost use Rattle.lk_store.specs.Contents.{tree_at, Extends};
ghost use Rattle.lk_inductive.specs.Nested.{has_pis, past_pis, stated_pis};
ghost use Rattle.lk_declaration.specs.Courses.{Settles};
ghost use Rattle.lk_auxiliary.specs.Past.{past_pi, stated_pi};

use lk_ask::stop::Stop;
use lk_lists::numbers::keep;
use lk_mentions::pis::head_pi;
use lk_store::memory::NoMemory;
use lk_store::node::Node;
use lk_store::terms::Terms;
use lk_subst::opening::open_with;
use lk_tree::rule::Rule;
use std::alloc::Global;

/// Whether so many Pis stand at the head of a type.
pub fn has_pis<T: Terms>(terms: &T, count: u64, e: u64) -> bool
    requires { e < length (T.contents terms.now).trees }
    ensures { result ≡ has_pis count (tree_at (T.contents terms.now) e) }
{
    let mut left = count;
    let mut rest = e;
    'pis: while left > 0 {
        match head_pi(terms, rest) {
            None => return false,
            Some(pi) => {
                rest = pi.body;
                left -= 1;
            }
        }
    }
    true
}

/// The body of the Pi that a type is to be (`BlockShape`), with a value in place of its variable.
fn past_pi<T: Terms>(alloc: Global, terms: &mut T, value: u64, e: u64) -> Result<u64, Stop>
    requires value_in { value < length (T.contents terms.old).trees }
    requires e_in { e < length (T.contents terms.old).trees }
    ensures keeps { Extends (T.contents terms.old) (T.contents terms.new) }
    ensures rest { T.rest terms.new ≡ T.rest terms.old }
    ensures known { IfOk result (λ r. r < length (T.contents terms.new).trees) }
    ensures past { Settles (past_pi (tree_at (T.contents terms.old) value)
        (tree_at (T.contents terms.old) e)) (tree_at (T.contents terms.new)) result }
{
    match head_pi(terms, e) {
        None => Err(Stop::No(Rule::BlockShape)),
        Some(pi) => Ok(open_with(alloc, terms, pi.body, value)?),
    }
}

/// What stands past the Pis at the head of a type, one for each value (`BlockShape`), with these in place of their variables.
pub fn past_pis<T: Terms>(alloc: Global, terms: &mut T, values: &[u64], e: u64) -> Result<u64, Stop>
    requires values_in { All (λ x. x < length (T.contents terms.old).trees) values.now }
    requires e_in { e < length (T.contents terms.old).trees }
    ensures keeps { Extends (T.contents terms.old) (T.contents terms.new) }
    ensures rest { T.rest terms.new ≡ T.rest terms.old }
    ensures known { IfOk result (λ r. r < length (T.contents terms.new).trees) }
    ensures past { Settles (past_pis (map (tree_at (T.contents terms.old)) values.now)
        (tree_at (T.contents terms.old) e)) (tree_at (T.contents terms.new)) result }
{
    let mut rest = values;
    let mut at = e;
    'values: while let Some((value, more)) = rest.split_first() {
        at = past_pi(alloc, terms, *value, at)?;
        rest = more;
    }
    Ok(at)
}

/// The Local of a number for the Pi that a type is to be (`BlockShape`), and the Pi's body, opened with it.
fn stated_pi<T: Terms>(
    alloc: Global,
    terms: &mut T,
    number: u64,
    e: u64,
) -> Result<(u64, u64), Stop>
    requires e_in { e < length (T.contents terms.old).trees }
    ensures keeps { Extends (T.contents terms.old) (T.contents terms.new) }
    ensures rest { T.rest terms.new ≡ T.rest terms.old }
    ensures known { IfOk result (λ p. (p.0 < length (T.contents terms.new).trees)
        × (p.1 < length (T.contents terms.new).trees)) }
    ensures stated { Settles (stated_pi number (tree_at (T.contents terms.old) e))
        (λ p. (tree_at (T.contents terms.new) p.0, tree_at (T.contents terms.new) p.1)) result }
{
    match head_pi(terms, e) {
        None => Err(Stop::No(Rule::BlockShape)),
        Some(pi) => {
            let local = terms.make(Node::Local(number, pi.domain))?;
            let rest = open_with(alloc, terms, pi.body, local)?;
            Ok((local, rest))
        }
    }
}

/// So many Pis at the head of a type (`BlockShape`), opened with Locals from a number on: the Locals, and what stands past them.
pub fn stated_pis<T: Terms>(
    alloc: Global,
    terms: &mut T,
    first: u64,
    count: u64,
    e: u64,
) -> Result<(Vec<u64>, u64), Stop>
    requires { e < length (T.contents terms.old).trees }
    ensures keeps { Extends (T.contents terms.old) (T.contents terms.new) }
    ensures rest { T.rest terms.new ≡ T.rest terms.old }
    ensures locals_known { IfOk result (λ t. All
        (λ x. x < length (T.contents terms.new).trees) t.0.items) }
    ensures rest_known { IfOk result (λ t. t.1 < length (T.contents terms.new).trees) }
    ensures stated { Settles (stated_pis first count (tree_at (T.contents terms.old) e))
        (λ t. (map (tree_at (T.contents terms.new)) t.0.items, tree_at (T.contents terms.new) t.1))
        result }
{
    let mut locals: Vec<u64> = Vec::new(alloc);
    let mut number = first;
    let mut left = count;
    let mut rest = e;
    'pis: while left > 0 {
        let opened = stated_pi(alloc, terms, number, rest)?;
        number = keep(&mut locals, opened.0, number)?;
        rest = opened.1;
        left -= 1;
    }
    Ok((locals, rest))
}
