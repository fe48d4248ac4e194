//! What is kept when a library changes.

ghost use Rattle.std.specs.Prelude.{◌≡◌, ◌<◌, ℕ, Bool, false, List, length, Some, slice_get};
ghost use Rattle.lk_rulebook.specs.Units.{Library};
ghost use Rattle.lk_axioms.specs.Lists.{axiom_lists, KeepsAxioms, HasSameAxioms};

/// The lists of the units of one library are kept for another, where each unit of that which is not
/// stale has the same axioms in both.
pub fn same_axioms_are_kept()
    ensures { (us vs : Library) (stale : List Bool)
        → ((n : ℕ) → n < length vs → slice_get stale n ≡ Some false → HasSameAxioms us vs n)
        → KeepsAxioms vs (axiom_lists us) stale }
{}
