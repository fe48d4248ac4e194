//! The recursors' names of a store, by the names that they stand behind.

ghost use Rattle.std.specs.Prelude.{◌≡◌, ◌<◌, ◌+◌, [], length, IfOk, OnOk};
ghost use Rattle.std.specs.Prelude.{replicate, slice_index_or};
ghost use Rattle.lk_store.specs.Store.{contents_of};
ghost use Rattle.lk_needs.specs.Followers.{with_follower, AreFollowersTo, AreFollowers};

use crate::endings::{Ending, parent_of};
use lk_store::base_store::BaseStore;
use lk_store::memory::NoMemory;
use lk_store::terms::Terms;
use std::alloc::Global;
use std::marker::Model;

/// For each name of a store the names with one more component, which is of one kind.
#[derive(Drop)]
pub struct Followers {
    lists: Vec<Vec<u64>>,
}

impl Model for Followers {
    ghost use Rattle.std.specs.Prelude.{ℕ, List, map};

    ghost Value = { List (List ℕ) };

    ghost view = { λ f. map (λ l. l.items) f.lists.items };
}

impl Followers {
    /// None yet, of so many names.
    fn new(alloc: Global, names: u64) -> Result<Followers, NoMemory>
        ensures { IfOk result (λ f. f ≡ replicate names []) }
    {
        let mut lists: Vec<Vec<u64>> = Vec::new(alloc);
        for _ in 0..names {
            lists.push(Vec::new(alloc))?;
        }
        Ok(Followers { lists })
    }

    fn add(&mut self, name: u64, follower: u64) -> Result<(), NoMemory>
        requires { name < length self.old }
        ensures { OnOk result (self.new ≡ with_follower self.old name follower) }
    {
        self.lists[name as usize].push(follower)?;
        Ok(())
    }

    /// The names with one more component than this one.
    pub fn of(&self, name: u64) -> &[u64]
        requires { name < length self.now }
        ensures { result.now ≡ slice_index_or self.now name [] }
    {
        self.lists[name as usize].as_slice()
    }
}

/// Adds a name to those of the name before its last component, where that is of the kind.
fn add_name(
    base: &BaseStore,
    followers: &mut Followers,
    ending: Ending,
    name: u64,
) -> Result<(), NoMemory>
    requires name_in { name < length (contents_of base.now).names }
    requires before { AreFollowersTo (contents_of base.now) ending name followers.old }
    ensures { OnOk result (AreFollowersTo (contents_of base.now) ending (name + 1)
        followers.new) }
{
    let _names = base.count_names();
    match parent_of(base, ending, name) {
        Some(parent) => followers.add(parent, name),
        None => Ok(()),
    }
}

/// For each name those with one more component, which is of this kind: one pass over the names.
pub(crate) fn followers_of(
    alloc: Global,
    base: &BaseStore,
    ending: Ending,
) -> Result<Followers, NoMemory>
    ensures { IfOk result (AreFollowers (contents_of base.now) ending) }
{
    let count = base.count_names();
    let mut followers = Followers::new(alloc, count)?;
    for name in 0..count {
        add_name(base, &mut followers, ending, name)?;
    }
    Ok(followers)
}
