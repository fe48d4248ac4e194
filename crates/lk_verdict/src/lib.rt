//! The plain verdict of a unit, what it is for a unit to be good, and laws of both. Also what is said of a unit, and who says it:
//! whoever keeps verdicts asks for those that are new through `Checks`, and needs no engine.
#![tactic(auto)]

mod checks;
mod verdict;

ghost use Rattle.std.specs.Prelude.{◌≡◌, ℕ, [], List, Some, take, slice_get, ◌≤◌, ◌<◌, ◌⊎◌, true};
ghost use Rattle.lk_inductive.specs.Block.{Shape};
ghost use Rattle.lk_inductive.specs.NestedRelation.{NestedDerived};
ghost use Rattle.lk_inductive.specs.Whole.{BlockDerived};
ghost use Rattle.lk_questions.specs.Answer.{answered};
ghost use Rattle.lk_questions.specs.Parts.{IsPartOf};
ghost use Rattle.lk_questions.specs.Program.{Table};
ghost use Rattle.lk_rulebook.specs.Derived.{DeclDerived};
ghost use Rattle.lk_rulebook.specs.Place.{Block, BlockType, BlockRecursor};
ghost use Rattle.lk_rulebook.specs.Scan.{IsScanned};
ghost use Rattle.lk_rulebook.specs.Spelled.{library_spelled};
ghost use Rattle.lk_rulebook.specs.Units.{Decl, place_of, of_block, Library};
ghost use Rattle.lk_questions.specs.Table.{steps};
ghost use Rattle.lk_verdict.specs.Attacks.{shadowed, doubled, undeclared, of_local, hidden};
ghost use Rattle.lk_verdict.specs.GoodUnit.{IsGoodUnit, IsClearLibrary};
ghost use Rattle.lk_verdict.specs.Later.{later_place};
ghost use Rattle.lk_verdict.specs.Verdict.{says_yes, says_steps, plain_verdict, IsYesFrom};

pub use checks::Checks;
pub use verdict::Verdict;

/// A yes comes exactly where the budget is at least its cost, and below it the verdict is steps. No verdict but steps changes
/// with a greater budget.
pub fn plain_verdict_is_steady()
    ensures yes { (table : Table) (us : Library) (n budget : ℕ) → plain_verdict table us n budget
        ≡ says_yes → (c : ℕ) × (c ≤ budget) × IsYesFrom (plain_verdict table us n) c }
    ensures settled { (table : Table) (us : Library) (n budget more : ℕ) → budget ≤ more
        → (plain_verdict table us n budget ≡ says_steps)
        ⊎ (plain_verdict table us n more ≡ plain_verdict table us n budget) }
{}

/// A unit that a part of a table answers yes is answered yes by the table.
pub fn parts_agree()
    ensures { (part table : Table) (us : Library) (n budget : ℕ) → IsPartOf part table
        → plain_verdict part us n budget ≡ says_yes → plain_verdict table us n budget ≡ says_yes }
{}

/// The verdict of a unit, and whether it is good, rest on the units up to it alone.
pub fn verdicts_rest_on_earlier_units()
    ensures verdict { (table : Table) (us vs : Library) (n budget : ℕ) → take n us ≡ take n vs
        → slice_get us n ≡ slice_get vs n → plain_verdict table us n budget
        ≡ plain_verdict table vs n budget }
    ensures good { (us vs : Library) (n : ℕ) → take n us ≡ take n vs → slice_get us n
        ≡ slice_get vs n → IsGoodUnit us n → IsGoodUnit vs n }
{}

/// What is derived of a unit stays derived at later places, where its own names are given too: of declarations, of blocks
/// without nested occurrences, and of blocks with them. In the third case auxiliary types stand for nested occurrences. They are
/// partial while the block is checked, and no unit of a clear library gives their names: so they stay partial at the later place,
/// where what units give goes before what is partial.
pub fn good_units_stay()
    ensures declarations { (us : Library) (n m : ℕ) (d : Decl) → n ≤ m
        → DeclDerived (place_of us n []) d → DeclDerived (place_of us m []) d }
    ensures blocks { (us : Library) (n m : ℕ) (b : Block) (rs : List BlockRecursor) (s : Shape)
        → n < m
        → slice_get us n ≡ Some (of_block b rs) → IsScanned us n (of_block b rs) →
        BlockDerived (place_of us n) b rs s → BlockDerived (λ h. place_of us m []) b rs s }
    ensures nested { (us : Library) (n m : ℕ) (b : Block) (rs : List BlockRecursor) (s : Shape)
        → n < m → IsClearLibrary us
        → slice_get us n ≡ Some (of_block b rs) → IsScanned us n (of_block b rs) →
        NestedDerived (place_of us n) b rs s → NestedDerived (later_place us m) b rs s }
{}

/// That a library is clear is met by each library none of whose members and constants has a name that holds LF.
pub fn spelled_library_is_clear()
    ensures { (us : Library) → library_spelled us ≡ true → IsClearLibrary us }
{}

/// Units from which falsehood follows where they are not scanned are not good: one gives a name that an earlier unit gives, one
/// gives a name twice, one has a level parameter that it does not declare, one holds a Local. Nor is one that has the name of
/// an auxiliary type.
pub fn known_attacks_are_refused()
    ensures shadowed { IsGoodUnit shadowed 1 → ⊥ }
    ensures doubled { (us : Library) (n : ℕ) → slice_get us n ≡ Some doubled → IsGoodUnit us n → ⊥ }
    ensures undeclared { (us : Library) (n : ℕ) → slice_get us n ≡ Some undeclared → IsGoodUnit us n
        → ⊥ }
    ensures local { (us : Library) (n : ℕ) → slice_get us n ≡ Some of_local → IsGoodUnit us n → ⊥ }
    ensures hidden { (us : Library) (n : ℕ) (ts : List BlockType) (rs : List BlockRecursor)
        → slice_get us n
        ≡ Some (hidden ts rs) → IsGoodUnit us n → ⊥ }
{}
