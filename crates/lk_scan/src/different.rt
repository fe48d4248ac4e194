//! Whether names are different, by their numbers.

ghost use Rattle.std.specs.Prelude.{◌≡◌, ◌<◌, length, map, All, IfOk};
ghost use Rattle.lk_tree.specs.Scan.{none_twice};
ghost use Rattle.lk_store.specs.Contents.{name_at};
ghost use Rattle.lk_store.specs.Store.{contents_of};

use crate::seen::Seen;
use lk_store::base_store::BaseStore;
use lk_store::memory::NoMemory;
use lk_store::terms::Terms;
use std::alloc::Global;

/// Whether no name stands there twice. A store has each name once, so that their numbers tell.
pub fn none_twice(alloc: Global, base: &BaseStore, names: &[u64]) -> Result<bool, NoMemory>
    requires { All (λ n. n < length (contents_of base.now).names) names.now }
    ensures { IfOk result (λ r. r ≡ none_twice (map (name_at (contents_of base.now)) names.now)) }
{
    let _names = base.count_names();
    if names.len() < 2 {
        return Ok(true);
    }
    let mut seen = Seen::new(alloc);
    let mut rest = names;
    while let Some((name, more)) = rest.split_last() {
        if seen.has(*name) {
            return Ok(false);
        }
        seen.add(*name)?;
        rest = more;
    }
    Ok(true)
}
