//! Whether a term holds Locals other than a block's parameters.

ghost use Rattle.std.specs.Prelude.{◌≡◌, ◌<◌, length, map, not, All, IfOk};
ghost use Rattle.lk_store.specs.Contents.{tree_at};
ghost use Rattle.lk_inductive.specs.BlockSteps.{is_among};
ghost use Rattle.lk_inductive.specs.Nested.{has_only, may_nest};
ghost use Rattle.lk_nested.specs.Foreign.{AreOwn};

use lk_mentions::part::Met;
use lk_rows::table::Table;
use lk_seek::Seek;
use lk_seek::tree::{is_leaf, open};
use lk_seek::visit::Visit;
use lk_seek::walk::seek;
use lk_store::memory::NoMemory;
use lk_store::node::Node;
use lk_store::terms::Terms;
use std::alloc::Global;

/// Whether a term is one of these.
fn is_among<T: Terms>(terms: &T, e: u64, others: &[u64]) -> bool
    requires e_in { e < length (T.contents terms.now).trees }
    requires others_in { All (λ x. x < length (T.contents terms.now).trees) others.now }
    ensures { result ≡ is_among (tree_at (T.contents terms.now) e)
        (map (tree_at (T.contents terms.now)) others.now) }
{
    let mut rest = others;
    'others: while let Some((other, more)) = rest.split_first() {
        if terms.same(e, *other) {
            return true;
        }
        rest = more;
    }
    false
}

/// A Local that is none of the parameters.
#[derive(Drop)]
struct Foreign<'a, T: Terms> {
    pub terms: &'a T,
    pub parameters: &'a [u64],
    ghost parameters_in: { All (λ x. x < length (T.contents terms.now).trees) parameters.now },
}

impl<'a, T: Terms> Seek for Foreign<'a, T> {
    type Part = u64;

    type Kept = Table<Met>;

    type Stop = NoMemory;

    ghost use Rattle.std.specs.Prelude.{map};
    ghost use Rattle.lk_store.specs.Contents.{tree_at};
    ghost use Rattle.lk_seek.proofs.Truths.{truth_laws};
    ghost use Rattle.lk_nested.specs.Foreign.{foreign, AreOwn};

    ghost sought = { λ s. let c = T.contents s.terms.now in
        foreign (map (tree_at c) s.parameters.now) c };

    ghost are_kept = { λ s met. let c = T.contents s.terms.now in
        AreOwn (map (tree_at c) s.parameters.now) c met };

    ghost laws = { λ s. truth_laws };

    fn look(
        &self,
        met: &mut Table<Met>,
        stack: &mut Vec<Visit<u64>>,
        e: u64,
    ) -> Result<bool, NoMemory> {
        let node = self.terms.view(e);
        if let Node::Local(_, _) = node {
            return Ok(!is_among(self.terms, e, self.parameters));
        }
        if is_leaf(node) {
            return Ok(false);
        }
        if let Some(_) = met.find(&e) {
            return Ok(false);
        }
        open(stack, e, node)?;
        Ok(false)
    }

    fn keep(&self, met: &mut Table<Met>, e: u64) -> Result<(), NoMemory> {
        // What stands beyond the terms of today may become any term.
        if e >= self.terms.len() {
            return Ok(());
        }
        met.push(Met { tree: e })?;
        Ok(())
    }
}

/// Whether each Local in a term is one of the parameters. What was met in such terms is not walked again.
fn has_only<T: Terms>(
    alloc: Global,
    terms: &T,
    parameters: &[u64],
    met: &mut Table<Met>,
    e: u64,
) -> Result<bool, NoMemory>
    requires parameters_in { All (λ x. x < length (T.contents terms.now).trees) parameters.now }
    requires tree_in { e < length (T.contents terms.now).trees }
    requires met { AreOwn (map (tree_at (T.contents terms.now)) parameters.now)
        (T.contents terms.now) met.old }
    ensures met { IfOk result (λ r. AreOwn (map (tree_at (T.contents terms.now)) parameters.now)
        (T.contents terms.now) met.new) }
    ensures only { IfOk result (λ r. r
        ≡ has_only (map (tree_at (T.contents terms.now)) parameters.now)
        (tree_at (T.contents terms.now) e)) }
{
    let seeker = Foreign { terms, parameters };
    let found = seek(alloc, &seeker, met, e)?;
    Ok(!found)
}

/// Whether terms hold no loose variable, and no Local but the parameters. What was met in such terms is not walked again.
pub fn may_nest<T: Terms>(
    alloc: Global,
    terms: &T,
    parameters: &[u64],
    met: &mut Table<Met>,
    trees: &[u64],
) -> Result<bool, NoMemory>
    requires parameters_in { All (λ x. x < length (T.contents terms.now).trees) parameters.now }
    requires trees_in { All (λ x. x < length (T.contents terms.now).trees) trees.now }
    requires met { AreOwn (map (tree_at (T.contents terms.now)) parameters.now)
        (T.contents terms.now) met.old }
    ensures met { IfOk result (λ r. AreOwn (map (tree_at (T.contents terms.now)) parameters.now)
        (T.contents terms.now) met.new) }
    ensures nest { IfOk result (λ r. r
        ≡ may_nest (map (tree_at (T.contents terms.now)) parameters.now)
        (map (tree_at (T.contents terms.now)) trees.now)) }
{
    let mut rest = trees;
    'trees: while let Some((tree, more)) = rest.split_first() {
        if terms.loose_bound(*tree) != 0 {
            return Ok(false);
        }
        if !has_only(alloc, terms, parameters, met, *tree)? {
            return Ok(false);
        }
        rest = more;
    }
    Ok(true)
}
