//! Lists of names in memory.

ghost use Rattle.std.specs.Prelude.{◌≡◌, ◌↔◌, IsTrue};

use lk_rows::row::Row;
use lk_store::hashing::{mix, start};
use std::marker::Model;

/// A list of names, by their numbers.
#[derive(Drop)]
pub struct Names {
    numbers: Vec<u64>,
}

impl Model for Names {
    ghost use Rattle.std.specs.Prelude.{ℕ, List};

    ghost Value = { List ℕ };

    ghost view = { λ n. n.numbers.items };
}

ghost use Rattle.lk_members.specs.Hashes.{hash_of_names};

/// The hash of a list of names.
fn hash_names(seed: u64, numbers: &[u64]) -> u64
    ensures { result ≡ hash_of_names seed numbers.now }
{
    numbers.iter().fold(start(seed), |hash, n| mix(hash, *n))
}

impl Names {
    /// The list of these names. It takes them as they are, and asks for no memory.
    pub fn new(numbers: Vec<u64>) -> Names
        ensures { result ≡ numbers.items }
    {
        Names { numbers }
    }

    /// The names of the list.
    pub fn as_slice(&self) -> &[u64]
        ensures { result.now ≡ self.now }
    {
        self.numbers.as_slice()
    }

    /// Whether two lists are equal, name for name.
    pub fn is(&self, other: &Names) -> bool
        ensures { IsTrue result ↔ (self.now ≡ other.now) }
    {
        self.as_slice() == other.as_slice()
    }
}

impl Row for Names {
    type Key = Names;

    ghost key = { λ n. n };

    ghost use Rattle.lk_members.specs.Hashes.{hash_of_names};

    ghost hash = { hash_of_names };

    fn hash_of(seed: u64, wanted: &Names) -> u64 {
        hash_names(seed, wanted.as_slice())
    }

    fn own_hash(&self, seed: u64) -> u64 {
        hash_names(seed, self.as_slice())
    }

    fn has(&self, wanted: &Names) -> bool {
        self.is(wanted)
    }
}
