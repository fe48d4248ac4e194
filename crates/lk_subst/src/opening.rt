//! A value for the outermost variable.

ghost use Rattle.std.specs.Prelude.{◌≡◌, ◌<◌, length, IfOk};
ghost use Rattle.lk_tree.specs.Bind.{opened};
ghost use Rattle.lk_store.specs.Contents.{tree_at, Extends, IsTree};

use crate::walk::{Rewrite, rewritten};
use lk_store::memory::NoMemory;
use lk_store::node::Node;
use lk_store::terms::Terms;
use std::alloc::Global;

/// Puts a value in place of the outermost variable.
#[derive(Clone, Copy)]
pub struct Opening {
    pub value: u64,
}

impl<T: Terms> Rewrite<T> for Opening {
    ghost use Rattle.std.specs.Prelude.{◌<◌, length};
    ghost use Rattle.std.proofs.Common.{ap, arith};
    ghost use Rattle.lk_tree.specs.Bind.{open_at};
    ghost use Rattle.lk_store.specs.Contents.{tree_at};

    ghost change = { λ s c d. open_at d (tree_at c s.value) };

    ghost is_known = { λ s c. s.value < length c.trees };

    ghost more = { λ s c d x h. let longer = x.trees.longer in Prim.omega arith };

    ghost steady = { λ s c d x h. ap (λ v depth. open_at depth v) (x.trees.same s.value h) };

    #[tactic(auto, using(crate::proofs::Unchanged::leaves_closed), unfolding(lk_tree::specs::Bind::open_at))]
    #[inline(always)]
    fn step(&self, terms: &mut T, e: u64, depth: u64) -> Result<Option<u64>, NoMemory> {
        if terms.loose_bound(e) <= u128::from(depth) {
            return Ok(Some(e));
        }
        match terms.view(e) {
            Node::App(_, _)
            | Node::Lam(_, _)
            | Node::Pi(_, _)
            | Node::Let(_, _, _)
            | Node::Proj(_, _, _) => Ok(None),
            Node::Sort(_)
            | Node::Const(_, _)
            | Node::Lit(_)
            | Node::Wide
            | Node::Str(_)
            | Node::Local(_, _) => Ok(Some(e)),
            Node::Var(i) => {
                if i < depth {
                    Ok(Some(e))
                } else if i == depth {
                    Ok(Some(self.value))
                } else {
                    let r = terms.make(Node::Var(i - 1))?;
                    Ok(Some(r))
                }
            }
        }
    }
}

/// The body with `v` in place of its outermost variable.
pub fn open_with<T: Terms>(alloc: Global, terms: &mut T, body: u64, v: u64) -> Result<u64, NoMemory>
    requires body_in { body < length (T.contents terms.old).trees }
    requires v_in { v < length (T.contents terms.old).trees }
    ensures keeps { Extends (T.contents terms.old) (T.contents terms.new) }
    ensures rest { T.rest terms.new ≡ T.rest terms.old }
    ensures ok { IfOk result (λ e. IsTree (T.contents terms.new) e
        (opened (tree_at (T.contents terms.old) body) (tree_at (T.contents terms.old) v))) }
{
    rewritten(alloc, terms, &Opening { value: v }, body)
}
