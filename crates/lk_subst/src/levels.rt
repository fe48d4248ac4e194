//! Levels in place of the parameters of a tree.

ghost use Rattle.std.specs.Prelude.{◌≡◌, ◌<◌, length, IfOk, All};
ghost use Rattle.lk_tree.specs.Tree.{sort, const};
ghost use Rattle.lk_store.specs.Contents.{name_at, level_at, list_at, tree_at, Extends, IsTree};
ghost use Rattle.lk_subst.specs.Levels.{put_in_tree};

use crate::parameters::{put_in_level, put_levels};
use crate::walk::{Rewrite, rewritten};
use lk_store::memory::NoMemory;
use lk_store::node::Node;
use lk_store::terms::Terms;
use std::alloc::Global;

/// Puts levels in place of parameters; of a repeated parameter the first place counts.
#[derive(Clone, Copy)]
pub struct PuttingLevels<'a> {
    pub alloc: Global,
    pub params: &'a [u64],
    pub levels: &'a [u64],
}

impl<'a, T: Terms> Rewrite<T> for PuttingLevels<'a> {
    ghost use Rattle.std.specs.Prelude.{◌<◌, length, All, map};
    ghost use Rattle.lk_store.specs.Contents.{name_at, level_at};
    ghost use Rattle.lk_subst.specs.Levels.{levels_for, levels-steady, parts-known};

    ghost change = { λ s c. levels_for (map (name_at c) s.params.now)
        (map (level_at c) s.levels.now) };

    ghost is_known = { λ s c. All (λ p. p < length c.names) s.params.now
        × All (λ l. l < length c.levels) s.levels.now };

    ghost more = { λ s c d x h. parts-known c d s.params.now s.levels.now x h };

    ghost steady = { λ s c d x h. levels-steady c d s.params.now s.levels.now x h };

    #[tactic(auto, using(crate::proofs::Unchanged::leaves_put_levels), unfolding(lk_tree::specs::Levels::put_levels))]
    #[inline(always)]
    fn step(&self, terms: &mut T, e: u64, depth: u64) -> Result<Option<u64>, NoMemory> {
        let _depth = depth;
        if !terms.has_params(e) {
            return Ok(Some(e));
        }
        match terms.view(e) {
            Node::App(_, _)
            | Node::Lam(_, _)
            | Node::Pi(_, _)
            | Node::Let(_, _, _)
            | Node::Proj(_, _, _)
            | Node::Local(_, _) => Ok(None),
            Node::Var(_) | Node::Lit(_) | Node::Wide | Node::Str(_) => Ok(Some(e)),
            Node::Sort(l) => {
                let r = put_sort(self.alloc, terms, self.params, self.levels, l)?;
                Ok(Some(r))
            }
            Node::Const(name, ls) => {
                let r = put_const(self.alloc, terms, self.params, self.levels, name, ls)?;
                Ok(Some(r))
            }
        }
    }
}

/// A sort with levels put in its level.
#[tactic(auto, unfolding(lk_tree::specs::Levels::put_levels))]
fn put_sort<T: Terms>(
    alloc: Global,
    terms: &mut T,
    params: &[u64],
    levels: &[u64],
    level: u64,
) -> Result<u64, NoMemory>
    requires level_in { level < length (T.contents terms.old).levels }
    requires params_in { All (λ p. p < length (T.contents terms.old).names) params.now }
    requires levels_in { All (λ l. l < length (T.contents terms.old).levels) levels.now }
    ensures keeps { Extends (T.contents terms.old) (T.contents terms.new) }
    ensures rest { T.rest terms.new ≡ T.rest terms.old }
    ensures ok { IfOk result (λ e. IsTree (T.contents terms.new) e
        (put_in_tree (T.contents terms.old) params.now levels.now
        (sort (level_at (T.contents terms.old) level)))) }
{
    let l = put_in_level(alloc, terms, params, levels, level)?;
    let r = terms.make(Node::Sort(l))?;
    Ok(r)
}

/// A constant with levels put in its levels.
#[tactic(auto, unfolding(lk_tree::specs::Levels::put_levels))]
fn put_const<T: Terms>(
    alloc: Global,
    terms: &mut T,
    params: &[u64],
    levels: &[u64],
    name: u64,
    list: u64,
) -> Result<u64, NoMemory>
    requires name_in { name < length (T.contents terms.old).names }
    requires list_in { list < length (T.contents terms.old).lists }
    requires params_in { All (λ p. p < length (T.contents terms.old).names) params.now }
    requires levels_in { All (λ l. l < length (T.contents terms.old).levels) levels.now }
    ensures keeps { Extends (T.contents terms.old) (T.contents terms.new) }
    ensures rest { T.rest terms.new ≡ T.rest terms.old }
    ensures ok { IfOk result (λ e. IsTree (T.contents terms.new) e
        (put_in_tree (T.contents terms.old) params.now levels.now
        (const (name_at (T.contents terms.old) name) (list_at (T.contents terms.old) list)))) }
{
    let ls = put_levels(alloc, terms, params, levels, list)?;
    let r = terms.make(Node::Const(name, ls))?;
    Ok(r)
}

/// The tree with levels in place of parameters; of a repeated parameter the first place counts.
pub fn put_levels_in<T: Terms>(
    alloc: Global,
    terms: &mut T,
    params: &[u64],
    levels: &[u64],
    e: u64,
) -> Result<u64, NoMemory>
    requires e_in { e < length (T.contents terms.old).trees }
    requires params_in { All (λ p. p < length (T.contents terms.old).names) params.now }
    requires levels_in { All (λ l. l < length (T.contents terms.old).levels) levels.now }
    ensures keeps { Extends (T.contents terms.old) (T.contents terms.new) }
    ensures rest { T.rest terms.new ≡ T.rest terms.old }
    ensures ok { IfOk result (λ r. IsTree (T.contents terms.new) r
        (put_in_tree (T.contents terms.old) params.now levels.now
        (tree_at (T.contents terms.old) e))) }
{
    rewritten(
        alloc,
        terms,
        &PuttingLevels {
            alloc,
            params,
            levels,
        },
        e,
    )
}
