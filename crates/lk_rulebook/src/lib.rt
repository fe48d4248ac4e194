// The rules of typing and conversion.
#![tactic(auto)]

ghost use Rattle.std.specs.Prelude.{◌≡◌, ℕ, None};
ghost use Rattle.lk_tree.specs.Tree.{Tree, lam, pi};
ghost use Rattle.lk_tree.specs.WellFormed.{IsWellFormed, LocalsWithin};
ghost use Rattle.lk_rulebook.specs.Place.{Place};
ghost use Rattle.lk_rulebook.specs.Binders.{IsLamType, IsPiType};
ghost use Rattle.lk_rulebook.specs.Formers.{GivesNoBlock, IsFormer, SameFormer};
ghost use Rattle.lk_rulebook.specs.HeadSteps.{RunsTo};
ghost use Rattle.lk_rulebook.specs.Stated.{GivesNoLocal};
ghost use Rattle.lk_rulebook.specs.Rules.{HasType, Reduces, IsDefEq};
ghost use Rattle.lk_rulebook.specs.Units.{Library, LibraryUnit};
ghost use Rattle.lk_rulebook.specs.Scan.{IsScanned, scan_of};

/// What the rules relate is closed and well scoped.
pub fn related_is_well_formed()
    ensures types { (w : Place) (e A : Tree) → HasType w e A → IsWellFormed e × IsWellFormed A }
    ensures reducts { (w : Place) (a b : Tree) → Reduces w a b → IsWellFormed a × IsWellFormed b }
    ensures equals { (w : Place) (a b : Tree) → IsDefEq w a b → IsWellFormed a × IsWellFormed b }
{}

/// Sorts that are equal have equal levels, Pis that are equal have equal parts, and no Sort equals
/// a Pi.
#[tactic(auto, using(crate::proofs::Sorts::same_former))]
pub fn formers_stay_apart()
    ensures { (w : Place) (a b : Tree) → IsDefEq w a b → IsFormer a → IsFormer b
        → SameFormer w a b }
{}

/// Trees that are equal and come to Sorts or Pis by steps of beta and zeta at the head come to
/// Sorts of equal levels, or to Pis of equal parts: what formers_stay_apart says of Sorts and Pis
/// holds of redexes too.
pub fn formers_stay_apart_behind_steps()
    ensures { (w : Place) (a b F G : Tree) → IsDefEq w a b → RunsTo a F → RunsTo b G → IsFormer F
        → IsFormer G → SameFormer w F G }
{}

/// Where no inductive type or constructor is given: if a == b and a comes to a Sort or a Pi by such
/// steps, b reduces to a Sort of equal level, or to a Pi of equal parts.
pub fn equal_trees_come_along()
    ensures { (w : Place) (a b F : Tree) → GivesNoBlock w → IsDefEq w a b → RunsTo a F → IsFormer F
        → (G : Tree) × Reduces w b G × IsFormer G × SameFormer w F G }
{}

/// The type of a lambda or a Pi comes from its parts under a Local that is fresh for the whole
/// conclusion, for the type too.
pub fn binders_are_fresh()
    ensures lambdas { (w : Place) (A b X : Tree) → HasType w (lam A b) X → IsLamType w A b X }
    ensures pis { (w : Place) (A B X : Tree) → HasType w (pi A B) X → IsPiType w A B X }
{}

/// The Locals of a type or a reduct are Locals of the tree.
pub fn no_new_local()
    ensures types { (w : Place) (e A : Tree) → GivesNoLocal w → HasType w e A → LocalsWithin e A }
    ensures reducts { (w : Place) (a b : Tree) → GivesNoLocal w → Reduces w a b → LocalsWithin a b }
{}

/// The scan of a unit gives no rule exactly where its names are new, its level parameters are
/// distinct and declared, and its trees are closed and without Locals.
pub fn scan_decides()
    ensures holds { (us : Library) (n : ℕ) (u : LibraryUnit) → scan_of us n u ≡ None
        → IsScanned us n u }
    ensures complete { (us : Library) (n : ℕ) (u : LibraryUnit) → IsScanned us n u → scan_of us n u
        ≡ None }
{}
