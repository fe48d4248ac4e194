//! What a place is, in the words of the rule book.

ghost use Rattle.std.specs.Prelude.{◌≡◌, ℕ, true, [], Some, option_map, option_and_then, slice_get};
ghost use Rattle.lk_tree.specs.Tree.{Name};
ghost use Rattle.lk_rulebook.specs.Units.{Library, LibraryUnit, members_of, first_giving, place_of};
ghost use Rattle.lk_rulebook.specs.Scan.{are_new};
ghost use Rattle.lk_env.specs.Units.{library_of};
ghost use Rattle.lk_env.specs.Places.{position_in, found_at, partial_of, partial_at, place_at};
ghost use Rattle.lk_env.specs.StoredLibrary.{StoredLibrary};

use crate::entry::{Partial, Site};
use crate::unit::Unit;

/// A name is given exactly where it has a position, by the unit of that position and as that
/// member says.
pub fn places_are_given()
    ensures units { (us : Library) (c : Name)
        → option_map (λ f. f.unit) (first_giving 0 us c) ≡ option_map (λ p. p.0)
        (position_in 0 us c) }
    ensures entries { (us : Library) (c : Name) → first_giving 0 us c
        ≡ option_and_then (found_at us) (position_in 0 us c) }
{}

/// Where the names of a unit are new, all that is partial of it is seen; and where nothing is partial, the units before
/// are seen alone.
pub fn new_members_are_partial()
    ensures new { (us : Library) (s : Site) (u : LibraryUnit) → slice_get us s.unit ≡ Some u
        → are_new us s.unit (members_of u) ≡ true
        → partial_at us s ≡ partial_of u s.partial }
    ensures nothing { (l : StoredLibrary) (n : ℕ)
        → place_at l (record { unit = n; partial = Partial.Nothing })
        ≡ place_of (library_of l) n [] }
{}
