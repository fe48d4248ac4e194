//! Trees that are replaced whole by others.

ghost use Rattle.std.specs.Prelude.{◌≡◌, ◌<◌, None, length, option_map, All, IfOk, IfSome};
ghost use Rattle.lk_store.specs.Contents.{tree_at, Extends, IsTree};
ghost use Rattle.lk_nested.specs.Pairs.{pairs_at, ArePairsIn};
ghost use Rattle.lk_nested.specs.Swaps.{instead, swapped};

use lk_seek::tree::is_leaf;
use lk_store::memory::NoMemory;
use lk_store::terms::Terms;
use lk_subst::walk::{Rewrite, rewritten};
use std::alloc::Global;

/// A tree and what comes in its place.
#[derive(Clone, Copy)]
pub struct Pair {
    pub from: u64,
    pub to: u64,
}

/// What comes in the place of a tree.
pub fn instead<T: Terms>(terms: &T, pairs: &[Pair], e: u64) -> Option<u64>
    requires pairs_in { ArePairsIn (T.contents terms.now) pairs.now }
    requires e_in { e < length (T.contents terms.now).trees }
    ensures known { IfSome result (λ r. r < length (T.contents terms.now).trees) }
    ensures is { option_map (tree_at (T.contents terms.now)) result
        ≡ instead (pairs_at (T.contents terms.now) pairs.now)
        (tree_at (T.contents terms.now) e) }
{
    let mut rest = pairs;
    'pairs: while let Some((pair, more)) = rest.split_first() {
        if terms.same(e, pair.from) {
            return Some(pair.to);
        }
        rest = more;
    }
    None
}

/// Puts trees in the place of others, the outermost first.
#[derive(Clone, Copy)]
pub struct Swapping<'a> {
    pub pairs: &'a [Pair],
}

impl<'a, T: Terms> Rewrite<T> for Swapping<'a> {
    ghost use Rattle.lk_nested.specs.Pairs.{pairs_at, ArePairsIn};
    ghost use Rattle.lk_nested.specs.Swaps.{swapping, swapping-steady, pairs-known};

    ghost change = { λ s c. swapping (pairs_at c s.pairs.now) };

    ghost is_known = { λ s c. ArePairsIn c s.pairs.now };

    ghost more = { λ s c d x h. pairs-known c d s.pairs.now x h };

    ghost steady = { λ s c d x h. swapping-steady c d s.pairs.now x h };

    #[inline(always)]
    fn step(&self, terms: &mut T, e: u64, depth: u64) -> Result<Option<u64>, NoMemory> {
        let _depth = depth;
        if let Some(r) = instead(terms, self.pairs, e) {
            return Ok(Some(r));
        }
        if is_leaf(terms.view(e)) {
            Ok(Some(e))
        } else {
            Ok(None)
        }
    }
}

/// The tree with others in the place of those of these pairs, the outermost first.
pub fn swap<T: Terms>(alloc: Global, terms: &mut T, pairs: &[Pair], e: u64) -> Result<u64, NoMemory>
    requires pairs_in { ArePairsIn (T.contents terms.old) pairs.now }
    requires e_in { e < length (T.contents terms.old).trees }
    ensures keeps { Extends (T.contents terms.old) (T.contents terms.new) }
    ensures rest { T.rest terms.new ≡ T.rest terms.old }
    ensures ok { IfOk result (λ r. IsTree (T.contents terms.new) r
        (swapped (pairs_at (T.contents terms.old) pairs.now)
        (tree_at (T.contents terms.old) e))) }
{
    rewritten(alloc, terms, &Swapping { pairs }, e)
}
