//! Terms that are read back.

ghost use Rattle.std.specs.Prelude.{◌≡◌, ◌<◌, [], length, IfOk, IfSome, option_map};
ghost use Rattle.lk_tree.specs.Tree.{const};
ghost use Rattle.lk_store.specs.Contents.{name_at, list_at, tree_at, Extends, IsTree};
ghost use Rattle.lk_inductive.specs.Enlarged.{Setting};
ghost use Rattle.lk_inductive.specs.Restore.{restore};
ghost use Rattle.lk_restore.specs.Originals.{originals_at, AreOriginalsIn, AreStanding, AreReadOver};
ghost use Rattle.lk_restore.specs.Marks.{marks_at, first, at_once, instead, constant_back};

use crate::originals::{Original, first};
use lk_store::memory::NoMemory;
use lk_store::node::Node;
use lk_store::terms::Terms;
use lk_subst::walk::{Rewrite, rewritten};
use std::alloc::Global;

/// What the constant of this name, at the block's levels and applied to the parameters, stands for.
fn applied<T: Terms>(terms: &T, originals: &[Original], name: u64) -> Option<u64>
    requires originals_in { AreOriginalsIn (T.contents terms.now) originals.now }
    requires name_in { name < length (T.contents terms.now).names }
    ensures known { IfSome result (λ r. r < length (T.contents terms.now).trees) }
    ensures is { option_map (tree_at (T.contents terms.now)) result
        ≡ at_once (first (marks_at (T.contents terms.now) originals.now)
        (name_at (T.contents terms.now) name)) }
{
    match first(terms, originals, name) {
        Some(Original::Applied { to, .. }) => Some(to),
        _ => None,
    }
}

/// What a whole term stands for.
fn instead<T: Terms>(terms: &T, originals: &[Original], e: u64) -> Option<u64>
    requires originals_in { AreOriginalsIn (T.contents terms.now) originals.now }
    requires e_in { e < length (T.contents terms.now).trees }
    ensures known { IfSome result (λ r. r < length (T.contents terms.now).trees) }
    ensures is { option_map (tree_at (T.contents terms.now)) result
        ≡ instead (marks_at (T.contents terms.now) originals.now)
        (marks_at (T.contents terms.now) originals.now) (tree_at (T.contents terms.now) e) }
{
    let mut rest = originals;
    'originals: while let Some((original, more)) = rest.split_first() {
        if let Original::Applied { name, from, .. } = *original {
            if terms.same(e, from) {
                return applied(terms, originals, name);
            }
        }
        rest = more;
    }
    None
}

/// The constant under a number, with the name that it has in the file if it is a recursor.
fn renamed<T: Terms>(
    terms: &mut T,
    originals: &[Original],
    e: u64,
    name: u64,
    levels: u64,
) -> Result<u64, NoMemory>
    requires originals_in { AreOriginalsIn (T.contents terms.old) originals.now }
    requires e_is { IsTree (T.contents terms.old) e
        (const (name_at (T.contents terms.old) name) (list_at (T.contents terms.old) levels)) }
    requires name_in { name < length (T.contents terms.old).names }
    requires levels_in { levels < length (T.contents terms.old).lists }
    ensures keeps { Extends (T.contents terms.old) (T.contents terms.new) }
    ensures rest { T.rest terms.new ≡ T.rest terms.old }
    ensures ok { IfOk result (λ r. IsTree (T.contents terms.new) r
        (constant_back (name_at (T.contents terms.old) name)
        (list_at (T.contents terms.old) levels)
        (first (marks_at (T.contents terms.old) originals.now)
        (name_at (T.contents terms.old) name)))) }
{
    match first(terms, originals, name) {
        Some(Original::Renamed { to, .. }) => terms.make(Node::Const(to, levels)),
        _ => Ok(e),
    }
}

/// Puts what terms stand for in their place, the outermost first, and recursors' names.
#[derive(Clone, Copy)]
struct Restoring<'a> {
    originals: &'a [Original],
}

impl<'a, T: Terms> Rewrite<T> for Restoring<'a> {
    ghost use Rattle.lk_restore.specs.Originals.{AreOriginalsIn};
    ghost use Rattle.lk_restore.specs.Marks.{marks_at, reading};
    ghost use Rattle.lk_restore.specs.Steady.{reading-steady, originals-known};

    ghost change = { λ s c. reading (marks_at c s.originals.now) };

    ghost is_known = { λ s c. AreOriginalsIn c s.originals.now };

    ghost more = { λ s c d x h. originals-known c d x s.originals.now h };

    ghost steady = { λ s c d x h. reading-steady c d x s.originals.now h };

    #[tactic(auto, unfolding(crate::specs::Marks::read))]
    #[inline(always)]
    fn step(&self, terms: &mut T, e: u64, depth: u64) -> Result<Option<u64>, NoMemory> {
        let _depth = depth;
        match terms.view(e) {
            Node::App(_, _) => Ok(instead(terms, self.originals, e)),
            Node::Const(name, levels) => {
                if let Some(r) = instead(terms, self.originals, e) {
                    return Ok(Some(r));
                }
                let r = renamed(terms, self.originals, e, name, levels)?;
                Ok(Some(r))
            }
            Node::Lam(_, _) | Node::Pi(_, _) | Node::Let(_, _, _) | Node::Proj(_, _, _) => Ok(None),
            Node::Var(_)
            | Node::Sort(_)
            | Node::Lit(_)
            | Node::Wide
            | Node::Str(_)
            | Node::Local(_, _) => Ok(Some(e)),
        }
    }
}

/// The term read back. Where nothing stands for anything it is the term itself, and no walk begins.
pub fn restore<T: Terms>(
    alloc: Global,
    terms: &mut T,
    originals: &[Original],
    e: u64,
) -> Result<u64, NoMemory>
    requires originals_in { AreOriginalsIn (T.contents terms.old) originals.now }
    requires e_in { e < length (T.contents terms.old).trees }
    ensures keeps { Extends (T.contents terms.old) (T.contents terms.new) }
    ensures rest { T.rest terms.new ≡ T.rest terms.old }
    ensures known { IfOk result (λ r. r < length (T.contents terms.new).trees) }
    ensures ok { (s : Setting) → AreStanding (T.contents terms.old) s originals.now
        → AreReadOver originals.now s.params → IfOk result (λ r. IsTree (T.contents terms.new) r
        (restore (originals_at (T.contents terms.old) originals.now) s
        (tree_at (T.contents terms.old) e) [])) }
{
    if originals.is_empty() {
        return Ok(e);
    }
    rewritten(alloc, terms, &Restoring { originals }, e)
}
