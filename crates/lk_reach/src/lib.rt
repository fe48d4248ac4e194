//! What a unit reaches by the names that its trees mention, and its axioms. Nothing runs: each
//! function is a law.
#![tactic(auto)]

ghost use Rattle.std.specs.Prelude.{◌≡◌, ◌<◌, ◌≤◌, ◌⊎◌, ℕ, List, take, slice_get};
ghost use Rattle.lk_reach.specs.Axioms.{IsAxiomUnit, IsAxiomOf, IsAxiomList};
ghost use Rattle.lk_reach.specs.Computed.{axioms_of};
ghost use Rattle.lk_reach.specs.Reach.{Mentions, Reaches};
ghost use Rattle.lk_rulebook.specs.Units.{Library};

/// What is mentioned stands before, so what is reached does not stand after.
pub fn reached_units_are_earlier()
    ensures mentioned { (us : Library) (n m : ℕ) → Mentions us n m → m < n }
    ensures reached { (us : Library) (n k : ℕ) → Reaches us n k → k ≤ n }
{}

/// The axioms of a unit are those of the units that it mentions, and itself where it is one: so
/// they can be gathered in the order of the units.
pub fn axioms_are_gathered()
    ensures own { (us : Library) (n : ℕ) → IsAxiomUnit us n → IsAxiomOf us n n }
    ensures mentioned { (us : Library) (n m k : ℕ) → Mentions us n m → IsAxiomOf us m k
        → IsAxiomOf us n k }
    ensures only { (us : Library) (n k : ℕ) → IsAxiomOf us n k → ((n ≡ k) × IsAxiomUnit us n)
        ⊎ ((m : ℕ) × Mentions us n m × IsAxiomOf us m k) }
{}

/// A unit has one list of its axioms, and it is the one that is computed.
pub fn lists_are_one()
    ensures axioms_of { (us : Library) (n : ℕ) → IsAxiomList us n (axioms_of us n) }
    ensures axioms { (us : Library) (n : ℕ) (ks js : List ℕ) → IsAxiomList us n ks
        → IsAxiomList us n js → ks ≡ js }
{}

/// What a unit reaches rests on the units up to it.
pub fn reaching_rests_on_earlier_units()
    ensures { (us vs : Library) (n k : ℕ) → take n us ≡ take n vs
        → slice_get us n ≡ slice_get vs n → Reaches us n k → Reaches vs n k }
{}
