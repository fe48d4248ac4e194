// Names, levels and trees as plain definitions, with what binding does to them.
#![tactic(auto)]

ghost use Rattle.std.specs.Prelude.{◌≡◌, ◌≤◌, ◌<◌, ◌+◌, ◌^◌, ℕ, true, false, List, [], ◌∷◌, length, Some, None};
ghost use Rattle.std.specs.Int.{IsGcd};
ghost use Rattle.lk_tree.specs.Operations.{gcd, log2, number, op_value, IsLog};
ghost use Rattle.lk_tree.specs.Tree.{Name, Level, zero_level, Tree};
ghost use Rattle.lk_tree.specs.Level.{SameLevel, AtMost, is_zero_level};
ghost use Rattle.lk_tree.specs.LevelTest.{level_le, level_test, width};
ghost use Rattle.lk_tree.specs.Bind.{opened, open_at};
ghost use Rattle.lk_tree.specs.Loose.{loose};
ghost use Rattle.lk_tree.specs.Putting.{put_at};
ghost use Rattle.lk_tree.specs.WellFormed.{IsWellFormed, IsWellFormedUnder, IsStated};
ghost use Rattle.lk_tree.specs.Scan.{is_bound, is_narrow, NoneTwice, none_twice, TreeOver, tree_over};

pub mod rule;

/// The test of whether one level is at most another holds exactly where it is so under every assignment.
pub fn at_most_decides()
    ensures holds { (l m : Level) → level_le l m ≡ true → AtMost l m }
    ensures complete { (l m : Level) → AtMost l m → level_le l m ≡ true }
{}

/// The test of whether two levels are equal is right, and is made exactly where at most 20 different parameters stand inside
/// right sides of imax in the two together.
pub fn level_test_decides()
    ensures equal { (l m : Level) → level_test l m ≡ Some true → SameLevel l m }
    ensures equal_complete { (l m : Level) → width l m ≤ 20 → SameLevel l m → level_test l m
        ≡ Some true }
    ensures unequal { (l m : Level) → level_test l m ≡ Some false → SameLevel l m → ⊥ }
    ensures unequal_complete { (l m : Level) → width l m ≤ 20 → (SameLevel l m → ⊥) → level_test l m
        ≡ Some false }
    ensures wide { (l m : Level) → level_test l m ≡ None → 20 < width l m }
    ensures wide_complete { (l m : Level) → 20 < width l m → level_test l m ≡ None }
{}

/// The test of whether a level is 0 holds exactly where it is 0 under every assignment.
pub fn zero_test_decides()
    ensures holds { (l : Level) → is_zero_level l ≡ true → SameLevel l zero_level }
    ensures complete { (l : Level) → SameLevel l zero_level → is_zero_level l ≡ true }
{}

/// A body that is opened with a closed and well scoped tree is closed and well scoped.
#[tactic(auto, using(crate::proofs::Binding::open_fine))]
pub fn opened_is_fine()
    ensures { (b v : Tree) → IsWellFormedUnder 1 b → IsWellFormed v → IsWellFormed (opened b v) }
{}

/// Several values are put as a tree is opened with each in turn, the first for the outermost variable: past the variables that
/// are left for the others.
pub fn putting_opens_in_turn()
    ensures none { (d : ℕ) (b : Tree) → put_at [] d b ≡ b }
    ensures more { (v : Tree) (vs : List Tree) (d : ℕ) (b : Tree) → loose v ≡ 0
        → put_at (v ∷ vs) d b ≡ put_at vs d (open_at (d + length vs) v b) }
{}

/// The greatest common divisor and the binary logarithm, which are computed in a bounded number of rounds, are right for
/// numbers below 2 ^ 128.
pub fn bounded_rounds_are_enough()
    ensures divisor { (a b : ℕ) → b < 2 ^ 128 → (g : ℕ)
        × (op_value gcd (a ∷ b ∷ []) ≡ Some (number g)) × IsGcd a b g }
    ensures logarithm { (a : ℕ) → 0 < a → a < 2 ^ 128 → (l : ℕ)
        × (op_value log2 (a ∷ []) ≡ Some (number l)) × IsLog a l }
{}

/// The scans of a tree hold exactly where it is closed and holds no Local, and has no level parameter but those that are
/// declared, and the scan of names exactly where none stands twice.
pub fn scans_decide()
    ensures closed { (e : Tree) → is_bound 0 e ≡ true → is_narrow e ≡ true → IsStated e }
    ensures closed_complete { (e : Tree) → IsStated e → (is_bound 0 e ≡ true)
        × (is_narrow e ≡ true) }
    ensures declared { (ps : List Name) (e : Tree) → tree_over ps e ≡ true → TreeOver ps e }
    ensures declared_complete { (ps : List Name) (e : Tree) → TreeOver ps e → tree_over ps e
        ≡ true }
    ensures distinct { (ps : List Name) → none_twice ps ≡ true → NoneTwice ps }
    ensures distinct_complete { (ps : List Name) → NoneTwice ps → none_twice ps ≡ true }
{}
