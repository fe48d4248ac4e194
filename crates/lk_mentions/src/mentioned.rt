//! What the walk looks for: one of some names.

ghost use Rattle.std.specs.Prelude.{◌≡◌, ◌<◌, All, length};
ghost use Rattle.lk_store.specs.Contents.{IsIn};
ghost use Rattle.lk_mentions.specs.Parts.{is_named};

use crate::names::{Names, is_one_of};
use crate::part::Met;
use lk_rows::table::Table;
use lk_seek::Seek;
use lk_seek::tree::{is_leaf, open};
use lk_seek::visit::Visit;
use lk_store::memory::NoMemory;
use lk_store::node::Node;
use lk_store::terms::Terms;

/// Whether the name that stands in a node itself is one of the names.
fn is_named<T: Terms>(terms: &T, names: &Names, node: Node) -> bool
    requires names_in { All (λ n. n < length (T.contents terms.now).names) names.now }
    requires node_in { IsIn (T.contents terms.now) node }
    ensures { result ≡ is_named (T.contents terms.now) names.now node }
{
    match node {
        Node::Const(name, _) => is_one_of(terms, names, name),
        Node::Proj(name, _, _) => is_one_of(terms, names, name),
        _ => false,
    }
}

/// One of some names, in the terms of a store.
#[derive(Drop)]
pub struct Mentioned<'a, T: Terms> {
    pub terms: &'a T,
    pub names: &'a Names,
    ghost names_in: { All (λ n. n < length (T.contents terms.now).names) names.now },
}

impl<'a, T: Terms> Seek for Mentioned<'a, T> {
    type Part = u64;

    type Kept = Table<Met>;

    type Stop = NoMemory;

    ghost use Rattle.lk_seek.proofs.Truths.{truth_laws};
    ghost use Rattle.lk_mentions.specs.Walks.{mentioned, AreClear};

    ghost sought = { λ s. mentioned (T.contents s.terms.now) s.names.now };

    ghost are_kept = { λ s met. AreClear (T.contents s.terms.now) s.names.now met };

    ghost laws = { λ s. truth_laws };

    fn look(
        &self,
        met: &mut Table<Met>,
        stack: &mut Vec<Visit<u64>>,
        e: u64,
    ) -> Result<bool, NoMemory> {
        let node = self.terms.view(e);
        if is_named(self.terms, self.names, node) {
            return Ok(true);
        }
        if is_leaf(node) {
            return Ok(false);
        }
        if let Some(_) = met.find(&e) {
            return Ok(false);
        }
        open(stack, e, node)?;
        Ok(false)
    }

    fn keep(&self, met: &mut Table<Met>, e: u64) -> Result<(), NoMemory> {
        met.push(Met { tree: e })?;
        Ok(())
    }
}
