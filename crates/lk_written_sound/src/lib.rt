//! What a written derivation says: that lines and sections that hold are derived, and that what can be
//! derived by the tests of `lk_written` can be written. Nothing runs: each function is a law.
#![tactic(auto)]

ghost use Rattle.std.specs.Prelude.{◌≡◌, ℕ, true, List, [], Some, None, slice_get};
ghost use Rattle.lk_questions.specs.Sound.{IsSoundPlace};
ghost use Rattle.lk_rulebook.specs.Derived.{DeclDerived};
ghost use Rattle.lk_rulebook.specs.Place.{Place};
ghost use Rattle.lk_rulebook.specs.Scan.{IsScanned};
ghost use Rattle.lk_rulebook.specs.Units.{Decl, of_decl, Library, place_of};
ghost use Rattle.lk_claims.specs.Follows.{FollowsTypes, FollowsReductions, FollowsEqualities};
ghost use Rattle.lk_rulebook.specs.Claims.{Claim, Derived, AllDerived};
ghost use Rattle.lk_written.specs.Line.{Line, claim_of};
ghost use Rattle.lk_written.specs.Section.{Section, line_holds, claims_by, section_holds, section_at_fault};
ghost use Rattle.lk_written.specs.Outcomes.{FileSection, holds, section_of, section_for, outcome_of};
ghost use Rattle.lk_written.specs.Written.{CanWrite, CanDeclare, KeepsNumerals};

/// At a sound place, so where operations on numbers have their laws, what a line that holds states
/// is derived, where what it rests on is; so each line of a section that holds states what is
/// derived.
pub fn lines_are_derived()
    ensures line { (w : Place) → IsSoundPlace w → (ps : List Claim) → AllDerived w ps
        → (l : Line) → line_holds w ps l ≡ true → Derived w (claim_of l) }
    ensures lines { (w : Place) → IsSoundPlace w → (ls : List Line) (qs : List Claim)
        → claims_by w [] ls ≡ Some qs → AllDerived w qs }
{}

/// A section holds exactly where none of its lines is at fault.
pub fn section_is_at_fault_or_holds()
    ensures none { (us : Library) (n : ℕ) (s : Section) → section_holds us n s ≡ true
        → section_at_fault us n s ≡ None }
    ensures holds { (us : Library) (n : ℕ) (s : Section) → section_at_fault us n s ≡ None
        → section_holds us n s ≡ true }
{}

/// What comes of a unit of a file is that its section holds exactly where it has one, and that holds.
pub fn ok_is_said_of_sections_that_hold()
    ensures said { (us : Library) (ss : List FileSection) (n : ℕ) → outcome_of us ss n ≡ holds
        → (s : FileSection) × (section_for n ss ≡ Some s)
        × (section_holds us n (section_of s) ≡ true) }
    ensures held { (us : Library) (ss : List FileSection) (n : ℕ) (s : FileSection)
        → section_for n ss ≡ Some s → section_holds us n (section_of s) ≡ true
        → outcome_of us ss n ≡ holds }
{}

/// At a sound place a unit with a section that holds is a declaration whose names are new and whose
/// scan holds, and it is derived from the units before it, with the laws of the operation that it is
/// named as, where that has laws.
pub fn written_declaration_is_derived()
    ensures { (us : Library) (n : ℕ) (s : Section) → IsSoundPlace (place_of us n [])
        → section_holds us n s ≡ true → (d : Decl) × (slice_get us n ≡ Some (of_decl d))
        × IsScanned us n (of_decl d) × DeclDerived (place_of us n []) d }
{}

/// What can be written, by lines that hold after any others, follows each rule: where its premises
/// can be written, so can its conclusion. The laws of operations on numbers are not asked; that of
/// reduction holds where Nat.zero has no value, since a line of such an operation does not tell of
/// which of two equal arguments a reduction is.
pub fn rules_are_written()
    ensures typing { (w : Place) → FollowsTypes w (CanWrite w) }
    ensures reduction { (w : Place) → KeepsNumerals w → FollowsReductions w (CanWrite w) }
    ensures conversion { (w : Place) → FollowsEqualities w (CanWrite w) }
{}

/// A declaration whose scan holds, and whose parts can be written, has a section that holds.
pub fn declaration_is_written()
    ensures { (us : Library) (n : ℕ) (d : Decl) → slice_get us n ≡ Some (of_decl d)
        → IsScanned us n (of_decl d) → CanDeclare (place_of us n []) d
        → (s : Section) × (section_holds us n s ≡ true) }
{}
