//! Who checks units.

ghost use Rattle.std.specs.Prelude.{◌≡◌, ◌<◌, ℕ, List, length, map, All, IfOk};
ghost use Rattle.lk_env.specs.StoredLibrary.{StoredLibrary};
ghost use Rattle.lk_env.specs.Units.{library_of};
ghost use Rattle.lk_verdict.specs.Held.{verdict};
ghost use Rattle.lk_verdict.specs.Checked.{Answer, AreChecked};

use crate::verdict::Verdict;
use lk_env::library::Library;
use lk_store::memory::NoMemory;
use std::alloc::Global;

/// One who checks units of any library, each under one budget.
pub trait Checks {
    /// The budget of each unit.
    ghost budget_of: { Self → ℕ };

    /// The answers that may come when units of a library are handed on, by their numbers. It need not
    /// say anything of them: to know that this was answered of these numbers is to have asked it.
    ghost may_answer: { Self → StoredLibrary → List ℕ → Answer → Type 0 };

    /// How many steps the questions of one unit may take.
    fn budget(&self) -> u128
        ensures { result ≡ budget_of self.now };

    /// The verdicts of the units of these numbers, in the order of the numbers: each is the plain
    /// one, or says that memory was wanting.
    fn check_some(
        &self,
        alloc: Global,
        library: &Library,
        units: &[u32],
    ) -> Result<Vec<Verdict>, NoMemory>
        requires { All (λ n. n < length library.now.units) units.now }
        ensures checked { IfOk result (λ vs.
            AreChecked (library_of library.now) (budget_of self.now) units.now
            (map verdict vs.items)) }
        ensures answered { may_answer self.now library.now units.now result };
}
