//! What a unit's plain verdict rests on: its closure, which is a set of units, and nothing of the
//! other units. Nothing runs: each function is a law.
#![tactic(auto)]

ghost use Rattle.std.specs.Prelude.{◌≡◌, ◌<◌, ◌≤◌, ℕ, Bool, true, List, length, Some, slice_get};
ghost use Rattle.lk_uses.specs.Closure.{IsClosure, IsInClosure, KeepsClosure, IsUnchanged, kept};
ghost use Rattle.lk_uses.specs.Closure.{renumbered};
ghost use Rattle.lk_uses.specs.Listed.{IsClosureList, is_listed, units_at};
ghost use Rattle.lk_reach.specs.Axioms.{IsAxiomOf};
ghost use Rattle.lk_rulebook.specs.Units.{Decl, of_decl, Library};
ghost use Rattle.lk_questions.specs.Table.{steps};
ghost use Rattle.lk_verdict.specs.GoodUnit.{IsClearLibrary};
ghost use Rattle.lk_verdict.specs.Verdict.{plain_verdict};

/// A unit has among the kept units the verdict that it has among all, under each budget, where the
/// kept units are closed for it; and so has each kept unit before it. Two libraries that keep the
/// same units give it one verdict.
pub fn verdict_rests_on_closure()
    ensures kept { (us : Library) (n : ℕ) (keep : ℕ → Bool) (budget : ℕ) → IsClearLibrary us
        → IsClosure us n keep → plain_verdict steps (kept 0 keep us) (renumbered 0 keep n) budget
        ≡ plain_verdict steps us n budget }
    ensures each { (us : Library) (n k : ℕ) (keep : ℕ → Bool) (budget : ℕ) → IsClearLibrary us
        → IsClosure us n keep → k ≤ n → keep k ≡ true
        → plain_verdict steps (kept 0 keep us) (renumbered 0 keep k) budget
        ≡ plain_verdict steps us k budget }
    ensures moved { (us vs : Library) (n m : ℕ) (keep other : ℕ → Bool) (budget : ℕ)
        → IsClearLibrary us → IsClearLibrary vs → IsClosure us n keep → IsClosure vs m other
        → kept 0 keep us ≡ kept 0 other vs → renumbered 0 keep n ≡ renumbered 0 other m
        → plain_verdict steps vs m budget ≡ plain_verdict steps us n budget }
{}

/// The first and the last of these, of a declaration, in every library, clear or not.
pub fn declaration_rests_on_closure()
    ensures kept { (us : Library) (n : ℕ) (d : Decl) (keep : ℕ → Bool) (budget : ℕ)
        → slice_get us n ≡ Some (of_decl d) → IsClosure us n keep
        → plain_verdict steps (kept 0 keep us) (renumbered 0 keep n) budget
        ≡ plain_verdict steps us n budget }
    ensures moved { (us vs : Library) (n m : ℕ) (d : Decl) (keep other : ℕ → Bool) (budget : ℕ)
        → slice_get us n ≡ Some (of_decl d) → slice_get vs m ≡ Some (of_decl d)
        → IsClosure us n keep → IsClosure vs m other
        → kept 0 keep us ≡ kept 0 other vs → renumbered 0 keep n ≡ renumbered 0 other m
        → plain_verdict steps vs m budget ≡ plain_verdict steps us n budget }
{}

/// The kept units of two libraries that state the same under each kept number are the same, so a
/// unit whose closure has not changed keeps its verdict.
pub fn unchanged_closure_keeps_verdict()
    ensures { (us vs : Library) (n : ℕ) (keep : ℕ → Bool) (budget : ℕ) → IsClearLibrary us
        → IsClearLibrary vs → IsClosure us n keep → IsClosure vs n keep
        → ((k : ℕ) → keep k ≡ true → slice_get us k ≡ slice_get vs k)
        → plain_verdict steps vs n budget ≡ plain_verdict steps us n budget }
{}

/// The axioms of a unit are the same among the kept units, renumbered; a kept unit stands there as
/// it did.
pub fn axioms_rest_on_closure()
    ensures stands { (us : Library) (n : ℕ) (keep : ℕ → Bool) → keep n ≡ true
        → slice_get (kept 0 keep us) (renumbered 0 keep n) ≡ slice_get us n }
    ensures there { (us : Library) (n k : ℕ) (keep : ℕ → Bool) → IsClosure us n keep
        → IsAxiomOf us n k → (keep k ≡ true)
        × IsAxiomOf (kept 0 keep us) (renumbered 0 keep n) (renumbered 0 keep k) }
    ensures back { (us : Library) (n j : ℕ) (keep : ℕ → Bool) → IsClosure us n keep
        → IsAxiomOf (kept 0 keep us) (renumbered 0 keep n) j
        → (k : ℕ) × (keep k ≡ true) × (j ≡ renumbered 0 keep k) × IsAxiomOf us n k }
{}

/// The closure is closed, lies in each closed set, and has no unit after its own.
pub fn closure_is_least()
    ensures closed { (us : Library) (n : ℕ) (keep : ℕ → Bool) → KeepsClosure us n keep
        → IsClosure us n keep }
    ensures least { (us : Library) (n k : ℕ) (keep : ℕ → Bool) → IsClosure us n keep
        → IsInClosure us n k → keep k ≡ true }
    ensures earlier { (us : Library) (n k : ℕ) → IsInClosure us n k → k ≤ n }
{}

/// The units of a closure, listed in the order of the units, have among themselves the verdicts
/// that they have among all, and the same axioms; the new number of a unit is its place in the
/// list.
pub fn listed_closure_keeps_verdicts()
    ensures keeps { (us : Library) (n : ℕ) (ks : List ℕ) → IsClosureList us n ks
        → KeepsClosure us n (is_listed ks) }
    ensures stands { (us : Library) (n p k : ℕ) (ks : List ℕ) → IsClosureList us n ks
        → n < length us → slice_get ks p ≡ Some k
        → slice_get (units_at us ks) p ≡ slice_get us k }
    ensures verdict { (us : Library) (n p k budget : ℕ) (ks : List ℕ) → IsClearLibrary us
        → IsClosureList us n ks → n < length us → slice_get ks p ≡ Some k
        → plain_verdict steps (units_at us ks) p budget ≡ plain_verdict steps us k budget }
    ensures there { (us : Library) (n p k m : ℕ) (ks : List ℕ) → IsClosureList us n ks
        → n < length us → slice_get ks p ≡ Some k → IsAxiomOf us k m
        → (q : ℕ) × (slice_get ks q ≡ Some m) × IsAxiomOf (units_at us ks) p q }
    ensures back { (us : Library) (n p k q : ℕ) (ks : List ℕ) → IsClosureList us n ks
        → n < length us → slice_get ks p ≡ Some k → IsAxiomOf (units_at us ks) p q
        → (m : ℕ) × (slice_get ks q ≡ Some m) × IsAxiomOf us k m }
{}

/// Where no unit of the closures of unit n in two libraries differs between them, the verdict is the
/// same, and what is in the closure in the one is in that in the other, and so with the axioms.
pub fn unchanged_units_keep_verdict()
    ensures closure { (us vs : Library) (n k : ℕ) → IsUnchanged us vs n → IsInClosure us n k
        → IsInClosure vs n k }
    ensures verdict { (us vs : Library) (n : ℕ) (keep : ℕ → Bool) (budget : ℕ)
        → IsClearLibrary us → IsClearLibrary vs → KeepsClosure us n keep → IsUnchanged us vs n
        → plain_verdict steps vs n budget ≡ plain_verdict steps us n budget }
    ensures axioms { (us vs : Library) (n k : ℕ) → IsUnchanged us vs n → IsAxiomOf us n k
        → IsAxiomOf vs n k }
{}
