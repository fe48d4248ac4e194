//! The check of a block of inductive types and its recursors, as a program, and what it is for a block to be derived.
#![tactic(auto)]

ghost use Rattle.std.specs.Prelude.{◌≡◌, ℕ, suc, None, ◌++◌, [], List, Some, take, slice_get};
ghost use Rattle.lk_inductive.specs.Block.{Shape};
ghost use Rattle.lk_inductive.specs.Grows.{IsWithin, Completes};
ghost use Rattle.lk_inductive.specs.NestedTask.{plain_whole};
ghost use Rattle.lk_inductive.specs.Recursors.{BlockRecursor};
ghost use Rattle.lk_inductive.specs.Whole.{partial_types, partial_members, BlockDerived};
ghost use Rattle.lk_questions.specs.Answer.{answered, IfAnswered};
ghost use Rattle.lk_questions.specs.Laws.{IsSteady};
ghost use Rattle.lk_questions.specs.Parts.{IsPartOf};
ghost use Rattle.lk_questions.specs.Program.{Table};
ghost use Rattle.lk_rulebook.specs.Place.{Place, Entry, Block, BlockRecursor};
ghost use Rattle.lk_rulebook.specs.Rules.{HasType, Reduces, IsDefEq};
ghost use Rattle.lk_rulebook.specs.Units.{LibraryUnit, members_of, flaw_of, given_by, first_giving, place_of};
ghost use Rattle.lk_tree.specs.Tree.{Name, Tree};

/// What is derived at a place is derived at each place that gives all that it gives, save that a recursor without rules may get
/// its rules.
pub fn derivations_stay()
    ensures types { (w w' : Place) (e A : Tree) → IsWithin w w' → HasType w e A → HasType w' e A }
    ensures reducts { (w w' : Place) (a b : Tree) → IsWithin w w' → Reduces w a b → Reduces w' a b }
    ensures equals { (w w' : Place) (a b : Tree) → IsWithin w w' → IsDefEq w a b → IsDefEq w' a b }
{}

/// A block that is derived at its unit's place, with its names partial, is derived at the next unit's, where they are given.
pub fn derived_block_stays()
    ensures { (us : List LibraryUnit) (n : ℕ) (u : LibraryUnit) (b : Block)
        (stated : List BlockRecursor)
        (s : Shape) → slice_get us n ≡ Some u → flaw_of u ≡ None
        → Completes (partial_types b ++ partial_members b stated) (members_of u) →
        ((c : Name) (e : Entry) → given_by (members_of u) c ≡ Some e → first_giving 0 (take n us) c
        ≡ None) → BlockDerived (place_of us n) b stated s
        → BlockDerived (λ h. place_of us (suc n) []) b stated s }
{}

/// What a part answers of a block its table answers too, at the same cost.
pub fn block_parts_agree()
    ensures { (part table : Table) (us : List LibraryUnit) (n : ℕ) (b : Block)
        (stated : List BlockRecursor)
        (budget : ℕ) → IsPartOf part table
        → IfAnswered (plain_whole part us n b stated budget)
        (λ v c t. plain_whole table us n b stated budget ≡ answered v c t) }
{}

/// The plain verdict of a block comes exactly where the budget is at least its cost, and is the same under each such budget.
pub fn plain_block_is_steady()
    ensures { (table : Table) (us : List LibraryUnit) (n : ℕ) (b : Block)
        (stated : List BlockRecursor)
        (budget : ℕ) → IfAnswered (plain_whole table us n b stated budget)
        (IsSteady (plain_whole table us n b stated) budget) }
{}
