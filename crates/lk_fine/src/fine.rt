//! Trees that are closed and well scoped.

ghost use Rattle.std.specs.Prelude.{◌≡◌, ◌<◌, length, IfOk};
ghost use Rattle.lk_written.specs.Premises as premises;
ghost use Rattle.lk_store.specs.Contents.{tree_at};
ghost use Rattle.lk_fine.specs.Walks.{AreFit};

use crate::locals::UnfitLocal;
use lk_mentions::part::Met;
use lk_rows::table::Table;
use lk_seek::walk::seek;
use lk_store::memory::NoMemory;
use lk_store::terms::Terms;
use std::alloc::Global;

/// Whether a tree is closed and well scoped. What was met in trees whose Locals are fit is not walked again.
#[tactic(auto, using(crate::proofs::Scoped::fine_by))]
pub fn is_fine<T: Terms>(
    alloc: Global,
    terms: &T,
    met: &mut Table<Met>,
    e: u64,
) -> Result<bool, NoMemory>
    requires tree_in { e < length (T.contents terms.now).trees }
    requires met { AreFit (T.contents terms.now) met.old }
    ensures fine { IfOk result (λ r. r
        ≡ premises.is_fine 0 (tree_at (T.contents terms.now) e)) }
    ensures met { IfOk result (λ r. AreFit (T.contents terms.now) met.new) }
{
    if terms.loose_bound(e) > 0 || !terms.is_narrow(e) {
        return Ok(false);
    }
    let seeker = UnfitLocal { terms };
    let found = seek(alloc, &seeker, met, e)?;
    Ok(!found)
}
