// The declarative rules of typing and conversion, beside the directed ones: what the directed rules
// derive the declarative ones derive too, and why the declarative ones alone say nothing; and the
// ideal rules, with typing premises also at projections, and what the same rests on there.
#![tactic(auto)]

ghost use Rattle.std.specs.Prelude.{ℕ, List, false};
ghost use Rattle.lk_tree.specs.Tree.{Name, Level, zero_level, Tree, sort};
ghost use Rattle.lk_tree.specs.WellFormed.{IsWellFormed};
ghost use Rattle.lk_rulebook.specs.Place.{Place, Ctor};
ghost use Rattle.lk_rulebook.specs.Rules.{HasType, HasSort, IsProposition, Reduces, IsDefEq};
ghost use Rattle.lk_rulebook.specs.Rules.{IsNotProposition, ProjectionsEqual};
ghost use Rattle.lk_rulebook.specs.Rules.{IsTypeAfterParameters, Field, IsFieldType};
ghost use Rattle.lk_declarative.specs.Declared.{IsDeclared, Converts, MayExpand, EachProjects};
ghost use Rattle.lk_declarative.specs.Declared.{AfterParameters, FieldDomain};
ghost use Rattle.lk_declarative.specs.Falsehood.{truth, simple_proof, falsehood};
ghost use Rattle.lk_declarative.specs.Guarded.{GuardedType, IdealType, IdealEquals};
ghost use Rattle.lk_declarative.specs.Expected.{Expected, LawfulLocals};
ghost use Rattle.lk_declarative.specs.Box.{HasBox, box_place};

/// What the declarative rules relate is closed and well scoped.
pub fn declared_is_well_formed()
    ensures types { (w : Place) (e A : Tree) → IsDeclared w e A → IsWellFormed e × IsWellFormed A }
    ensures conversions { (w : Place) (a b : Tree) → Converts w a b → IsWellFormed a
        × IsWellFormed b }
{}

/// Each derivation of the directed judgement gives one by the declarative rules, at every place.
///
/// Since the declarative conversion relates everything (`collapse`), it is less the statement than
/// the proof that says that nothing is lost: it takes each rule for a rule, or for a short chain of
/// rules, and never uses the collapse.
pub fn derivations_are_declared()
    ensures types { (w : Place) (e A : Tree) → HasType w e A → IsDeclared w e A }
    ensures sorts { (w : Place) (A : Tree) (l : Level) → HasSort w A l → IsDeclared w A (sort l) }
    ensures propositions { (w : Place) (A : Tree) → IsProposition w A
        → IsDeclared w A (sort zero_level) }
    ensures reducts { (w : Place) (a b : Tree) → Reduces w a b → Converts w a b }
    ensures equals { (w : Place) (a b : Tree) → IsDefEq w a b → Converts w a b }
    ensures no_propositions { (w : Place) (c : Ctor) (T : Tree) → IsNotProposition w T
        → MayExpand w c T }
    ensures projections { (w : Place) (J : Name) (a : Tree) (j : ℕ) (xs : List Tree)
        → ProjectionsEqual w J a j xs → EachProjects w J a j xs }
    ensures parameters { (w : Place) (T : Tree) (n : ℕ) (bs : List Tree) (r : Tree)
        → IsTypeAfterParameters w T n bs r → AfterParameters w T n bs r }
    ensures fields { (w : Place) (f : Field) (A : Tree) (j : ℕ) (r : Tree) → IsFieldType w f A j r
        → FieldDomain w f A j r }
{}

/// The declarative rules relate everything: any two closed, well scoped trees are convertible, a
/// tree that has a type has every such tree as a type, and one closed tree is a proof of
/// `(P : Prop) -> P`, without any constant.
///
/// Conversion that asks nothing of beta's argument, with symmetry and transitivity, meets
/// irrelevance of proofs under a binder: `a` is `(lambda (x : T), x) a`, which is
/// `(lambda (x : T), q) a` where `q` proves `T`, which is `q`. So that an answer has a derivation
/// by these rules says little, and answers are proved against the directed judgement, which never
/// expands, and whose Sorts and Pis stay apart (`formers_stay_apart` of lk_rulebook).
pub fn collapse()
    ensures conversions { (w : Place) (a b : Tree) → IsWellFormed a → IsWellFormed b
        → Converts w a b }
    ensures types { (w : Place) (e A B : Tree) → IsDeclared w e A → IsWellFormed B
        → IsDeclared w e B }
    ensures falsehood_is_a_proposition { (w : Place) → IsDeclared w falsehood (sort zero_level) }
    ensures falsehood_is_proved { (w : Place) → IsDeclared w simple_proof falsehood }
{}

/// Beta whose function and argument have their types is no repair while projections are equal and
/// reduce without a type: where a proposition has a constructor with a field that is no proof, as
/// `inductive Box : Prop | mk : Prop -> Box`, there is still a closed proof of `(P : Prop) -> P`.
///
/// `Box.mk p` and `Box.mk q` are equal by irrelevance, so are their projections, and these are `p`
/// and `q`. The directed judgement is not met by this: its equality is not composed, and a
/// projection out of a proposition has no type unless the field is a proof.
pub fn guarded_beta_is_not_enough()
    ensures falsehood_is_proved { (w : Place) → HasBox w
        → GuardedType false w simple_proof falsehood }
    ensures such_a_place { HasBox box_place }
{}

/// Where the ideal rules, which ask for types also at projections, are as expected (`Expected`:
/// unique typing, injectivity of Pi, substitution, and laws of what the units give, none of which
/// is proved), each directed derivation is ideal: of types for trees whose Locals have types with
/// sorts, of reducts and of equality for trees that have types.
///
/// Expectations are used thus. Each step in which a type is reduced rests on `sorted`. Beta rests
/// on `domains`, `one_type` and `bodies`; equality under a binder on `bodies`; delta, iota and
/// projections on `values`, `results`, `fields` and `replaced`; K and structure eta of a major
/// premise on `one_type` with `proofs` and `written_out`; structure eta of equality on `members`;
/// the type of a projection on `constructors`; literals and operations on `numbers`, `texts` and
/// `computed`; quotients on `lifted` and `induced`.
pub fn derivations_are_ideal_where_expected()
    ensures types { (w : Place) (e A : Tree) → Expected w → LawfulLocals w e → HasType w e A
        → IdealType w e A }
    ensures reducts { (w : Place) (a b A : Tree) → Expected w → IdealType w a A → Reduces w a b
        → IdealEquals w a b × IdealType w b A }
    ensures equals { (w : Place) (a b A B : Tree) → Expected w → IdealType w a A → IdealType w b B
        → IsDefEq w a b → IdealEquals w a b }
{}

/// The directed judgement takes neither collapse: at no place does the closed tree that the
/// declarative rules take for a proof of `(P : Prop) -> P` have a type that is equal to it.
pub fn falsehood_is_not_so_proved()
    ensures propositions { (w : Place) → IsDefEq w truth falsehood → ⊥ }
    ensures proofs { (w : Place) (A : Tree) → HasType w simple_proof A → IsDefEq w A falsehood → ⊥ }
{}
