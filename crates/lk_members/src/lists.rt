//! Lists of names, by the numbers of the names.

ghost use Rattle.std.specs.Prelude.{◌≡◌, IfOk, nat_eq};
ghost use Rattle.lk_members.specs.Lines.{has, same_list, is_distinct};

use lk_store::memory::NoMemory;
use std::alloc::Global;
use std::collections::HashSet;

/// Whether the name stands in the list.
pub(crate) fn has_name(names: &[u64], name: u64) -> bool
    ensures { result ≡ has nat_eq names.now name }
{
    names.contains(&name)
}

/// Whether two lists are equal, name for name.
pub(crate) fn are_same(left: &[u64], right: &[u64]) -> bool
    ensures { result ≡ same_list nat_eq left.now right.now }
{
    left == right
}

/// Whether no name stands there twice.
pub(crate) fn are_distinct(alloc: Global, names: &[u64]) -> Result<bool, NoMemory>
    ensures { IfOk result (λ r. r ≡ is_distinct nat_eq names.now) }
{
    let mut seen = HashSet::new(alloc);
    let mut rest = names;
    while let Some((name, more)) = rest.split_last() {
        if seen.contains(name) {
            return Ok(false);
        }
        match seen.insert(*name) {
            Ok(_) => {}
            Err(_) => return Err(NoMemory),
        }
        rest = more;
    }
    Ok(true)
}
