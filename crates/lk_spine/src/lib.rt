//! Heads, arguments, applications and the Pis at the head of a type.
#![tactic(auto)]

ghost use Rattle.std.specs.Prelude.{◌≡◌, ◌<◌, ℕ, length, All, map, IfOk, reverse};
ghost use Rattle.lk_tree.specs.Spine as spine;
ghost use Rattle.lk_store.specs.Contents.{tree_at, Extends, IsTree};
ghost use Rattle.lk_spine.specs.Telescope.{domains, under_pis};
ghost use Rattle.lk_spine.specs.Reading.{AreTrees};

use lk_store::memory::NoMemory;
use lk_store::node::Node;
use lk_store::terms::Terms;
use std::alloc::Global;

/// What stands at the head of applications. It takes no memory.
#[tactic(auto, unfolding(lk_tree::specs::Spine::head))]
pub fn head<T: Terms>(terms: &T, e: u64) -> u64
    requires { e < length (T.contents terms.now).trees }
    ensures { IsTree (T.contents terms.now) result (spine.head (tree_at (T.contents terms.now) e)) }
{
    let mut at = e;
    'down: while let Node::App(f, _) = terms.view(at) {
        at = f;
    }
    at
}

/// The arguments of a head, in order.
pub fn args<T: Terms>(alloc: Global, terms: &T, e: u64) -> Result<Vec<u64>, NoMemory>
    requires { e < length (T.contents terms.now).trees }
    ensures { IfOk result (λ es. AreTrees (T.contents terms.now) es.items
        (spine.args (tree_at (T.contents terms.now) e))) }
{
    let mut found = Vec::new(alloc);
    let mut at = e;
    'down: while let Node::App(f, a) = terms.view(at) {
        found.push(a)?;
        at = f;
    }
    found.reverse();
    Ok(found)
}

/// A head applied to arguments.
pub fn apply<T: Terms>(terms: &mut T, f: u64, args: &[u64]) -> Result<u64, NoMemory>
    requires head_in { f < length (T.contents terms.old).trees }
    requires args_in { All (λ e. e < length (T.contents terms.old).trees) args.now }
    ensures keeps { Extends (T.contents terms.old) (T.contents terms.new) }
    ensures rest { T.rest terms.new ≡ T.rest terms.old }
    ensures ok { IfOk result (λ e. IsTree (T.contents terms.new) e
        (spine.apply (tree_at (T.contents terms.old) f)
        (map (tree_at (T.contents terms.old)) args.now))) }
{
    let mut e = f;
    for a in args {
        e = terms.make(Node::App(e, *a))?;
    }
    Ok(e)
}

/// The domains of the Pis at the head of a type, in order, and what is under them.
pub fn telescope<T: Terms>(alloc: Global, terms: &T, e: u64) -> Result<(Vec<u64>, u64), NoMemory>
    requires { e < length (T.contents terms.now).trees }
    ensures { IfOk result (λ t.
        AreTrees (T.contents terms.now) t.0.items (domains (tree_at (T.contents terms.now) e))
        × IsTree (T.contents terms.now) t.1 (under_pis (tree_at (T.contents terms.now) e))) }
{
    let mut found = Vec::new(alloc);
    let mut at = e;
    'down: while let Node::Pi(t, b) = terms.view(at) {
        found.push(t)?;
        at = b;
    }
    Ok((found, at))
}
