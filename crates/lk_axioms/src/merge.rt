//! The union of two rising lists.

ghost use Rattle.std.specs.Prelude.{IfOk};
ghost use Rattle.std.specs.List.Sorted.{IsStrictlyIncreasing};
ghost use Rattle.lk_axioms.specs.Lists.{IsUnion};

use lk_store::memory::NoMemory;
use std::alloc::Global;

/// The numbers of two rising lists, as one rising list.
pub(crate) fn merge(alloc: Global, xs: &[u32], ys: &[u32]) -> Result<Vec<u32>, NoMemory>
    requires xs_rising { IsStrictlyIncreasing xs.now }
    requires ys_rising { IsStrictlyIncreasing ys.now }
    ensures rising { IfOk result (λ zs. IsStrictlyIncreasing zs.items) }
    ensures union { IfOk result (λ zs. IsUnion xs.now ys.now zs.items) }
{
    let mut merged = Vec::new(alloc);
    let mut i = 0;
    let mut j = 0;
    'both: while i < xs.len() && j < ys.len() {
        let x = xs[i];
        let y = ys[j];
        merged.push(x.min(y))?;
        if x <= y {
            i += 1;
        }
        if y <= x {
            j += 1;
        }
    }
    merged.extend_from_slice(xs.split_at(i).1)?;
    merged.extend_from_slice(ys.split_at(j).1)?;
    Ok(merged)
}
