//! The outermost variable for a Local.

ghost use Rattle.std.specs.Prelude.{◌≡◌, ◌<◌, length, IfOk};
ghost use Rattle.lk_tree.specs.Bind.{close as closed};
ghost use Rattle.lk_store.specs.Contents.{tree_at, Extends, IsTree};

use crate::walk::{Rewrite, rewritten};
use lk_store::memory::NoMemory;
use lk_store::node::Node;
use lk_store::terms::Terms;
use std::alloc::Global;

/// Puts the outermost variable in place of the Locals of a number.
#[derive(Clone, Copy)]
pub struct Closing {
    pub number: u64,
}

impl<T: Terms> Rewrite<T> for Closing {
    ghost use Rattle.std.specs.Prelude.{refl};
    ghost use Rattle.lk_tree.specs.Bind.{close_at};

    ghost change = { λ s c d. close_at d s.number };

    ghost is_known = { λ s c. Unit {0} };

    ghost more = { λ s c d x h. tt };

    ghost steady = { λ s c d x h. refl };

    #[tactic(auto, using(crate::proofs::Unchanged::leaves_low), unfolding(lk_tree::specs::Bind::close_at))]
    #[inline(always)]
    fn step(&self, terms: &mut T, e: u64, depth: u64) -> Result<Option<u64>, NoMemory> {
        if terms.local_bound(e) <= u128::from(self.number) {
            return Ok(Some(e));
        }
        match terms.view(e) {
            Node::App(_, _)
            | Node::Lam(_, _)
            | Node::Pi(_, _)
            | Node::Let(_, _, _)
            | Node::Proj(_, _, _) => Ok(None),
            Node::Var(_)
            | Node::Sort(_)
            | Node::Const(_, _)
            | Node::Lit(_)
            | Node::Wide
            | Node::Str(_) => Ok(Some(e)),
            Node::Local(number, _) => {
                if number == self.number {
                    let r = terms.make(Node::Var(depth))?;
                    Ok(Some(r))
                } else {
                    Ok(Some(e))
                }
            }
        }
    }
}

/// The tree with its outermost variable in place of each Local of number `k`.
pub fn close<T: Terms>(alloc: Global, terms: &mut T, e: u64, k: u64) -> Result<u64, NoMemory>
    requires { e < length (T.contents terms.old).trees }
    ensures keeps { Extends (T.contents terms.old) (T.contents terms.new) }
    ensures rest { T.rest terms.new ≡ T.rest terms.old }
    ensures ok { IfOk result (λ r. IsTree (T.contents terms.new) r
        (closed k (tree_at (T.contents terms.old) e))) }
{
    rewritten(alloc, terms, &Closing { number: k }, e)
}
