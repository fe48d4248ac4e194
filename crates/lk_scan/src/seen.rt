//! Numbers that were seen.

ghost use Rattle.std.specs.Prelude.{◌≡◌, ℕ, IfOk};
ghost use Rattle.lk_scan.specs.Seen.{has_number, any_number};

use lk_store::memory::NoMemory;
use std::alloc::Global;
use std::collections::HashSet;

/// Numbers that were seen.
#[derive(Drop)]
pub struct Seen {
    pub numbers: HashSet<u64>,
}

impl Seen {
    ghost use Rattle.std.specs.Prelude.{◌≡◌, ◌==◌, ℕ, OnOk, true, false, if◌then◌else◌};
    ghost use Rattle.lk_scan.specs.Seen.{has_number};

    pub fn new(alloc: Global) -> Self
        ensures { (q : ℕ) → has_number result q ≡ false }
    {
        Seen {
            numbers: HashSet::new(alloc),
        }
    }

    pub fn has(&self, number: u64) -> bool
        ensures { result ≡ has_number self.now number }
    {
        self.numbers.contains(&number)
    }

    pub fn add(&mut self, number: u64) -> Result<(), NoMemory>
        ensures { OnOk result ((q : ℕ) → has_number self.new q
            ≡ (if number == q then true else has_number self.old q)) }
    {
        match self.numbers.insert(number) {
            Ok(_) => {}
            Err(_) => return Err(NoMemory),
        }
        Ok(())
    }
}

/// All of these numbers.
pub fn all_seen(alloc: Global, numbers: &[u64]) -> Result<Seen, NoMemory>
    ensures { IfOk result (λ seen. (q : ℕ) → has_number seen q ≡ any_number q numbers.now) }
{
    let mut seen = Seen::new(alloc);
    for number in numbers {
        seen.add(*number)?;
    }
    Ok(seen)
}
