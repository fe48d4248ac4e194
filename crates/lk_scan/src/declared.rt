//! The level parameters that a member declares.

ghost use Rattle.std.specs.Prelude.{◌≡◌, ◌<◌, length, All, IfOk};
ghost use Rattle.lk_tree.specs.Mentions.{is_one_of};
ghost use Rattle.lk_store.specs.Contents.{name_at};
ghost use Rattle.lk_store.specs.Store.{contents_of};
ghost use Rattle.lk_scan.specs.Walks.{IsDeclared, IsSetOf, names_of};

use crate::seen::{Seen, all_seen};
use lk_store::base_store::BaseStore;
use lk_store::memory::NoMemory;
use lk_store::terms::Terms;
use std::alloc::Global;

/// So many level parameters are looked through one after another.
const FEW: usize = 8;

/// The level parameters that a member declares, in their order, and as a set where they are many.
#[derive(Drop)]
pub struct Declared {
    pub numbers: Vec<u64>,
    pub set: Option<Seen>,
}

/// All of these numbers, where they are many.
fn set_of(alloc: Global, numbers: &[u64]) -> Result<Option<Seen>, NoMemory>
    ensures { IfOk result (λ set. IsSetOf set numbers.now) }
{
    if numbers.len() <= FEW {
        return Ok(None);
    }
    let seen = all_seen(alloc, numbers)?;
    Ok(Some(seen))
}

/// These level parameters.
pub fn make_declared(alloc: Global, base: &BaseStore, levels: &[u64]) -> Result<Declared, NoMemory>
    requires { All (λ n. n < length (contents_of base.now).names) levels.now }
    ensures known { IfOk result (λ d. IsDeclared (contents_of base.now) d) }
    ensures same { IfOk result (λ d. d.numbers.items ≡ levels.now) }
{
    let _base = base;
    let set = set_of(alloc, levels)?;
    let mut numbers = Vec::new(alloc);
    numbers.extend_from_slice(levels)?;
    Ok(Declared { numbers, set })
}

/// Whether a name is one of the declared level parameters. A store has each name once, so that its
/// number tells.
pub fn is_declared(base: &BaseStore, declared: &Declared, name: u64) -> bool
    requires declared { IsDeclared (contents_of base.now) declared.now }
    requires name_in { name < length (contents_of base.now).names }
    ensures { result ≡ is_one_of (names_of (contents_of base.now) declared.now)
        (name_at (contents_of base.now) name) }
{
    let _names = base.count_names();
    match &declared.set {
        Some(set) => set.has(name),
        None => declared.numbers.contains(&name),
    }
}
