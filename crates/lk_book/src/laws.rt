//! What each file states.
ghost use Rattle.std.specs.Prelude.{◌≡◌, ℕ, List, All, Ok, true};
ghost use Rattle.lk_rulebook.specs.Units.{Library};
ghost use Rattle.lk_rulebook.specs.Spelled.{library_spelled};
ghost use Rattle.lk_book.specs.File.{Export, export_of, rounds_of};
ghost use Rattle.lk_book.specs.Texts.{text_of, texts_of, IsFaultless};

/// No text of a name that a file states holds a line feed. So no name is one that only auxiliary
/// types have.
pub fn files_are_spelled()
    ensures { (bytes : List ℕ) (e : Export) → export_of bytes ≡ Ok e
        → library_spelled e.units ≡ true }
{}

/// The same of each part of a file.
pub fn rounds_are_spelled()
    ensures { (bytes : List ℕ) (parts : List Library) → rounds_of bytes ≡ Ok parts
        → All (λ us. library_spelled us ≡ true) parts }
{}

/// The same of a text that a caller gives.
pub fn texts_are_spelled()
    ensures { (text : List ℕ) (us : Library) → text_of text ≡ Ok us
        → library_spelled us ≡ true }
{}

/// No text of an input has a fault by itself.
pub fn texts_are_faultless()
    ensures { (bytes : List ℕ) (texts : List (List ℕ)) → texts_of bytes ≡ Ok texts
        → All IsFaultless texts }
{}
