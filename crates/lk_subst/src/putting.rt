//! Values for the outermost variables, all at once.

ghost use Rattle.std.specs.Prelude.{◌≡◌, ◌<◌, length, IfOk, All, map};
ghost use Rattle.lk_store.specs.Contents.{tree_at, Extends, IsTree};
ghost use Rattle.lk_tree.specs.Putting.{put as put_values};

use crate::walk::{Rewrite, rewritten};
use lk_store::memory::NoMemory;
use lk_store::node::Node;
use lk_store::terms::Terms;
use std::alloc::Global;

/// Puts values in place of the outermost variables, the first in place of the outermost one.
#[derive(Clone, Copy)]
pub struct Putting<'a> {
    pub values: &'a [u64],
}

impl<'a, T: Terms> Rewrite<T> for Putting<'a> {
    ghost use Rattle.std.specs.Prelude.{◌<◌, length, All, map};
    ghost use Rattle.std.proofs.Common.{ap, arith};
    ghost use Rattle.lk_store.specs.Contents.{tree_at};
    ghost use Rattle.lk_tree.specs.Putting.{put_at};
    ghost use Rattle.lk_subst.specs.Numbers.{trees-steady, trees-known};

    ghost change = { λ s c. put_at (map (tree_at c) s.values.now) };

    ghost is_known = { λ s c. All (λ v. v < length c.trees) s.values.now };

    ghost more = { λ s c d x h. trees-known c d s.values.now x h };

    ghost steady = { λ s c d x h. ap put_at (trees-steady c d s.values.now x h) };

    #[tactic(auto, using(crate::proofs::Unchanged::leaves_put), unfolding(lk_tree::specs::Putting::put_at))]
    #[inline(always)]
    fn step(&self, terms: &mut T, e: u64, depth: u64) -> Result<Option<u64>, NoMemory> {
        if terms.loose_bound(e) <= u128::from(depth) {
            return Ok(Some(e));
        }
        match terms.view(e) {
            Node::App(_, _)
            | Node::Lam(_, _)
            | Node::Pi(_, _)
            | Node::Let(_, _, _)
            | Node::Proj(_, _, _) => Ok(None),
            Node::Sort(_)
            | Node::Const(_, _)
            | Node::Lit(_)
            | Node::Wide
            | Node::Str(_)
            | Node::Local(_, _) => Ok(Some(e)),
            Node::Var(i) => {
                let count = self.values.len();
                if i < depth {
                    Ok(Some(e))
                } else if i - depth < count as u64 {
                    Ok(Some(self.values[count - 1 - (i - depth) as usize]))
                } else {
                    let r = terms.make(Node::Var(i - count as u64))?;
                    Ok(Some(r))
                }
            }
        }
    }
}

/// The body with values in place of its outermost variables, the first in place of the outermost.
pub fn put<T: Terms>(
    alloc: Global,
    terms: &mut T,
    body: u64,
    values: &[u64],
) -> Result<u64, NoMemory>
    requires body_in { body < length (T.contents terms.old).trees }
    requires values_in { All (λ v. v < length (T.contents terms.old).trees) values.now }
    ensures keeps { Extends (T.contents terms.old) (T.contents terms.new) }
    ensures rest { T.rest terms.new ≡ T.rest terms.old }
    ensures ok { IfOk result (λ e. IsTree (T.contents terms.new) e
        (put_values (map (tree_at (T.contents terms.old)) values.now)
        (tree_at (T.contents terms.old) body))) }
{
    rewritten(alloc, terms, &Putting { values }, body)
}
