//! What a yes is, and what a section with its parts is. Nothing runs: each function is a law.

ghost use Rattle.std.specs.Prelude.{◌≡◌, ℕ, true, [], Some, slice_get};
ghost use Rattle.lk_rulebook.specs.Units.{Decl, of_decl, Library, place_of};
ghost use Rattle.lk_questions.specs.Table.{steps};
ghost use Rattle.lk_verdict.specs.Verdict.{says_yes, plain_verdict};
ghost use Rattle.lk_written.specs.Section.{section_holds};
ghost use Rattle.lk_store.specs.Contents.{Contents};
ghost use Rattle.lk_trace.specs.declared.sections.Section.{Section};
ghost use Rattle.lk_trace.specs.Meaning.{section_of};
ghost use Rattle.lk_derive.specs.Units.{IsYes, IsUnitSection};

/// Of a declaration that is said yes to under a budget each part is answered yes, at no more than the budget.
pub fn yes_has_parts()
    ensures { (us : Library) (n budget : ℕ) (d : Decl) → slice_get us n ≡ Some (of_decl d)
        → plain_verdict steps us n budget ≡ says_yes → IsYes (place_of us n []) budget d }
{}

/// A section whose lines hold, and whose last line names the parts of a declaration that is said yes to, holds.
pub fn section_with_parts_holds()
    ensures { (us : Library) (n budget : ℕ) (d : Decl) (c : Contents) (number : ℕ) (s : Section)
        → slice_get us n ≡ Some (of_decl d) → plain_verdict steps us n budget ≡ says_yes
        → IsUnitSection (place_of us n []) c number d s
        → section_holds us n (section_of c s) ≡ true }
{}
