//! What the question table answers can be written: each declaration that is answered yes has a
//! section of lines that holds, and a unit with such a section is good. Nothing runs: each function
//! is a law.
#![tactic(auto)]

ghost use Rattle.std.specs.Prelude.{◌≡◌, ℕ, true, [], Some, slice_get};
ghost use Rattle.lk_answered.specs.Operations.{OperationsShown};
ghost use Rattle.lk_answered.specs.NewNames.{NamesAreNew};
ghost use Rattle.lk_rulebook.specs.Units.{Decl, of_decl, Library, place_of};
ghost use Rattle.lk_questions.specs.Table.{steps};
ghost use Rattle.lk_verdict.specs.GoodUnit.{IsGoodUnit, IsClearLibrary};
ghost use Rattle.lk_verdict.specs.Verdict.{says_yes, plain_verdict};
ghost use Rattle.lk_written.specs.Section.{Section, section_holds};
ghost use Rattle.lk_written.specs.Written.{KeepsNumerals};

/// A declaration that is answered yes, under any budget, has a section that holds, whether the
/// operations before it have their laws or not, where Nat.zero has no value at it.
pub fn yes_declaration_is_written()
    ensures { (us : Library) (n budget : ℕ) (d : Decl) → KeepsNumerals (place_of us n [])
        → slice_get us n ≡ Some (of_decl d) → plain_verdict steps us n budget ≡ says_yes
        → (s : Section) × (section_holds us n s ≡ true) }
{}

/// So it is at a unit where no name before it is given twice: then Nat.zero is the constructor of
/// the Nat that has its shape.
pub fn new_names_keep_numerals()
    ensures { (us : Library) (n : ℕ) → NamesAreNew us n → KeepsNumerals (place_of us n []) }
{}

/// A unit with a section that holds is good, where each unit before it that gives an operation on
/// numbers with laws has a section that holds too, or is answered yes.
pub fn written_unit_is_good()
    ensures { (us : Library) (n : ℕ) (s : Section) → IsClearLibrary us → OperationsShown us n
        → section_holds us n s ≡ true → IsGoodUnit us n }
{}
