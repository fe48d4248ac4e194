//! A walk for Locals whose types are not closed, or have Locals of their own number or a later one.

ghost use Rattle.std.specs.Prelude.{◌≡◌, [], ◌∷◌, ◌++◌, map, OnOk};
ghost use Rattle.lk_store.specs.Contents.{tree_of, IsIn};
ghost use Rattle.lk_seek.specs.declared.visit.Visit.TheVariants as visit;
ghost use Rattle.lk_fine.specs.Locals.{is_unfit, all_parts_back};

use lk_mentions::part::Met;
use lk_rows::table::Table;
use lk_seek::Seek;
use lk_seek::tree::open;
use lk_seek::visit::{Visit, push};
use lk_store::memory::NoMemory;
use lk_store::node::Node;
use lk_store::terms::Terms;

/// Whether a node is a Local whose type does not fit it.
fn is_unfit<T: Terms>(terms: &T, node: Node) -> bool
    requires { IsIn (T.contents terms.now) node }
    ensures { result ≡ is_unfit (tree_of (T.contents terms.now) node) }
{
    match node {
        Node::Local(number, ty) => {
            terms.loose_bound(ty) > 0 || terms.local_bound(ty) > u128::from(number)
        }
        _ => false,
    }
}

/// Puts a tree on the stack again, and the parts of its node above it, the type of a Local too.
fn open_all(stack: &mut Vec<Visit<u64>>, e: u64, node: Node) -> Result<(), NoMemory>
    ensures { OnOk result (stack.new.items
        ≡ stack.old.items ++ visit.Leave e ∷ map visit.Enter (all_parts_back node)) }
{
    match node {
        Node::Local(_, ty) => {
            push(stack, Visit::Leave(e))?;
            push(stack, Visit::Enter(ty))?;
            Ok(())
        }
        _ => open(stack, e, node),
    }
}

/// Locals whose types do not fit them, in the trees of a store.
#[derive(Drop)]
pub(crate) struct UnfitLocal<'a, T: Terms> {
    pub terms: &'a T,
}

impl<'a, T: Terms> Seek for UnfitLocal<'a, T> {
    type Part = u64;

    type Kept = Table<Met>;

    type Stop = NoMemory;

    ghost use Rattle.lk_seek.proofs.Truths.{truth_laws};
    ghost use Rattle.lk_fine.specs.Walks.{unfit_locals, AreFit};

    ghost sought = { λ s. unfit_locals (T.contents s.terms.now) };

    ghost are_kept = { λ s met. AreFit (T.contents s.terms.now) met };

    ghost laws = { λ s. truth_laws };

    fn look(
        &self,
        met: &mut Table<Met>,
        stack: &mut Vec<Visit<u64>>,
        e: u64,
    ) -> Result<bool, NoMemory> {
        if self.terms.local_bound(e) == 0 {
            return Ok(false);
        }
        if let Some(_) = met.find(&e) {
            return Ok(false);
        }
        let node = self.terms.view(e);
        if is_unfit(self.terms, node) {
            return Ok(true);
        }
        open_all(stack, e, node)?;
        Ok(false)
    }

    fn keep(&self, met: &mut Table<Met>, e: u64) -> Result<(), NoMemory> {
        if e < self.terms.len() {
            met.push(Met { tree: e })?;
        }
        Ok(())
    }
}
