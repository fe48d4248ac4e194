//! Laws of policies.

ghost use Rattle.std.specs.Prelude.{◌≡◌, ◌≢◌, ℕ, ◌+◌, true, List, [], ◌∷◌, Some, All, length};
ghost use Rattle.std.specs.Prelude.{slice_get, option_map};
ghost use Rattle.std.specs.List.{Contains};
ghost use Rattle.lk_rulebook.specs.Units.{Library, LibraryUnit};
ghost use Rattle.lk_reach.specs.Computed.{axioms_of};
ghost use Rattle.lk_verdict.specs.Told.{Verdict, accepted};
ghost use Rattle.lk_text.specs.Text.{name_word};
ghost use Rattle.lk_text.specs.Policy.{Policy, every_axiom, listed, texts_of, policy_of, joined};
ghost use Rattle.lk_text.specs.Policy.{IsCommaFree, IsOnList, allows, under, all_under};

/// Texts that are joined by commas are split again, where none of them has a comma and they are not
/// the empty text alone: the empty list is the one that the empty text says. Whatever the text, its
/// parts are joined to it.
pub fn joined_texts_are_split_again()
    ensures split { (texts : List (List ℕ)) → All IsCommaFree texts → texts ≢ [] ∷ []
        → policy_of (Some (joined texts)) ≡ listed texts }
    ensures joined { (list : List ℕ) → joined (texts_of list) ≡ list }
{}

/// Under a policy each unit has a verdict: yes only where yes was said and each axiom of the unit is
/// allowed. Where every axiom is allowed all verdicts stay.
pub fn policies_only_refuse()
    ensures as_many { (p : Policy) (us : Library) (n : ℕ) (vs : List Verdict)
        → length (all_under p us n vs) ≡ length vs }
    ensures each { (p : Policy) (us : Library) (n m : ℕ) (vs : List Verdict)
        → slice_get (all_under p us n vs) m ≡ option_map (under p us (n + m)) (slice_get vs m) }
    ensures accepted { (p : Policy) (us : Library) (vs : List Verdict) (n : ℕ)
        → slice_get (all_under p us 0 vs) n ≡ Some accepted → slice_get vs n ≡ Some accepted }
    ensures allowed { (p : Policy) (us : Library) (vs : List Verdict) (n k : ℕ)
        → slice_get (all_under p us 0 vs) n ≡ Some accepted → Contains (axioms_of us n) k
        → allows p us k ≡ true }
    ensures every { (us : Library) (n : ℕ) (vs : List Verdict)
        → all_under every_axiom us n vs ≡ vs }
{}

/// An allowed axiom prints as one of the texts on the list: so does each axiom of a unit that says
/// yes under it.
pub fn allowed_axioms_are_listed()
    ensures axioms { (texts : List (List ℕ)) (us : Library) (k : ℕ) (u : LibraryUnit)
        → allows (listed texts) us k ≡ true → slice_get us k ≡ Some u
        → Contains texts (name_word u) }
    ensures units { (texts : List (List ℕ)) (us : Library) (vs : List Verdict) (n k : ℕ)
        → slice_get (all_under (listed texts) us 0 vs) n ≡ Some accepted
        → Contains (axioms_of us n) k → IsOnList texts us k }
{}
