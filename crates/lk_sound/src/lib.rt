//! Soundness of blocks and units: each unit that is answered yes is good.
#![tactic(auto)]

ghost use Rattle.std.specs.Prelude.{◌≡◌, ◌<◌, ℕ, [], List, length};
ghost use Rattle.lk_inductive.specs.Block.{Shape};
ghost use Rattle.lk_inductive.specs.NestedRelation.{ClearTypes, NestedDerived};
ghost use Rattle.lk_inductive.specs.NestedTask.{plain_whole};
ghost use Rattle.lk_inductive.specs.Whole.{BlockStated, BlockDerived};
ghost use Rattle.lk_questions.specs.Answer.{IfAnswered};
ghost use Rattle.lk_questions.specs.Program.{Table};
ghost use Rattle.lk_questions.specs.Sound.{WellStated, IsSoundPlace, IsSoundTable};
ghost use Rattle.lk_rulebook.specs.Place.{Place, Block, BlockRecursor};
ghost use Rattle.lk_rulebook.specs.Stated.{GivesNoLocal};
ghost use Rattle.lk_rulebook.specs.Scan.{AreNew};
ghost use Rattle.lk_rulebook.specs.Units.{Members, Library, of_block, members_of, place_of};
ghost use Rattle.lk_questions.specs.Table.{steps};
ghost use Rattle.lk_verdict.specs.GoodUnit.{IsGoodUnit, IsClearLibrary};
ghost use Rattle.lk_verdict.specs.Operations.{OperationsYes};
ghost use Rattle.lk_verdict.specs.Verdict.{says_yes, plain_verdict};

/// A block whose names are new and that is answered yes under any budget, by a table that is sound, is derived, one with nested
/// occurrences by a larger block, and its recursors too.
pub fn yes_block_is_derived()
    ensures each { (table : Table) (us : Library) (n : ℕ) (b : Block)
        (stated : List BlockRecursor)
        (budget : ℕ) → IsSoundTable table → IsSoundPlace (place_of us n []) → IsClearLibrary us
        → AreNew us n (members_of (of_block b stated)) → BlockStated b stated
        → ClearTypes b.types →
        IfAnswered (plain_whole table us n b stated budget)
        (λ v c t. NestedDerived (place_of us n) b stated v.0) }
    ensures whole { (us : Library) (n : ℕ) (b : Block) (stated : List BlockRecursor)
        (budget : ℕ) → IsSoundPlace (place_of us n []) → IsClearLibrary us
        → AreNew us n (members_of (of_block b stated)) → BlockStated b stated
        → ClearTypes b.types →
        IfAnswered (plain_whole steps us n b stated budget)
        (λ v c t. NestedDerived (place_of us n) b stated v.0) }
{}

/// Where no occurrence is nested, the block and its recursors are derived with no larger block.
pub fn nothing_nested()
    ensures { (places : Members → Place) (b : Block) (stated : List BlockRecursor) (s : Shape)
        → BlockStated b stated → (g : NestedDerived places b stated s) → g.larger.auxs ≡ []
        → BlockDerived places b stated s }
{}

/// What a library gives anywhere, without a flaw, is closed and holds no Local.
pub fn places_are_well_stated()
    ensures stated { (us : Library) (n : ℕ) → WellStated (place_of us n []) }
    ensures no_local { (us : Library) (n : ℕ) → GivesNoLocal (place_of us n []) }
{}

/// A unit that is answered yes under any budget, by a table that is sound, is good where the units before it that give
/// an operation on numbers with laws say yes too: its names are new, its scan holds, and it is derived from the units before it,
/// as the file states them. The whole table is such. Where each unit of a library says yes, each is good.
pub fn yes_unit_is_good()
    ensures each { (table : Table) (us : Library) (n budget : ℕ) → IsSoundTable table
        → IsClearLibrary us → OperationsYes table us n
        → plain_verdict table us n budget ≡ says_yes → IsGoodUnit us n }
    ensures whole { (us : Library) (n budget : ℕ) → IsClearLibrary us → OperationsYes steps us n
        → plain_verdict steps us n budget ≡ says_yes → IsGoodUnit us n }
    ensures library { (table : Table) (us : Library) → IsSoundTable table
        → IsClearLibrary us
        → ((n : ℕ) → n < length us → (b : ℕ) × (plain_verdict table us n b ≡ says_yes))
        → (n : ℕ) → n < length us → IsGoodUnit us n }
{}
