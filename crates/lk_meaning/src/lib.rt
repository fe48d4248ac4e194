// What the rules rule out, at each place. The laws speak of inductive types whose stated type is, as spelled, Pis ending in a
// Sort, and of constructors whose stated type, as spelled, is Pis ending in such a type.
#![tactic(auto)]

ghost use Rattle.std.specs.Prelude.{ℕ, ◌≡◌, true};
ghost use Rattle.lk_tree.specs.Tree.{Name, Tree};
ghost use Rattle.lk_tree.specs.Operations.{Op, add};
ghost use Rattle.lk_rulebook.specs.NumberLaws.{has_laws};
ghost use Rattle.lk_rulebook.specs.Place.{Place, Hint};
ghost use Rattle.lk_rulebook.specs.Names.{named, nat_succ, op_name};
ghost use Rattle.lk_rulebook.specs.Units.{Decl, as_def};
ghost use Rattle.lk_rulebook.specs.Derived.{DeclDerived};
ghost use Rattle.lk_rulebook.specs.Formers.{IsFormer};
ghost use Rattle.lk_rulebook.specs.Rules.{HasType, IsDefEq};
ghost use Rattle.lk_meaning.specs.Rigid.{Heads, HeadsLocal, IsApplied, IsDataType, IsRigid, SameSpine};
ghost use Rattle.lk_meaning.specs.Families.{IsFamily, IsChoice};
ghost use Rattle.lk_rulebook.specs.HeadSteps.{RunsTo};
ghost use Rattle.lk_meaning.specs.TypeForms.{IsTypeForm, SameTypeForm};
ghost use Rattle.lk_meaning.specs.Falsehood.{falsehood};
ghost use Rattle.lk_meaning.specs.FakedAddition.{after_nat, always_one_as, faked_addition};
ghost use Rattle.lk_meaning.specs.Booleans.{yes_name, no_name, after_b, after_again};

/// Inductive types with arguments that are equal are one inductive type at equal levels, with arguments that are equal pair by
/// pair, and no such inductive type equals a Sort or a Pi. This is said of each inductive type whose stated type is, as spelled,
/// Pis ending in a Sort.
pub fn types_stay_apart()
    ensures one { (w : Place) (J K : Name) (a b : Tree) → IsFamily w J → IsFamily w K
        → IsDefEq w a b → IsApplied J a → IsApplied K b → (J ≡ K) × SameSpine w a b }
    ensures first { (w : Place) (J : Name) (a b : Tree) → IsFamily w J → IsDefEq w a b
        → IsApplied J a → IsFormer b → ⊥ }
    ensures second { (w : Place) (J : Name) (a b : Tree) → IsFamily w J → IsDefEq w a b → IsFormer a
        → IsApplied J b → ⊥ }
{}

/// Trees that are equal and come to Sorts, Pis or inductive types with arguments by steps of beta and zeta at the head come to
/// one of these with equal parts: the forms of types are injective and apart. The inductive types are those of types_stay_apart.
pub fn types_stay_apart_behind_steps()
    ensures { (w : Place) (a b F G : Tree) → IsDefEq w a b → RunsTo a F → RunsTo b G
        → IsTypeForm w F → IsTypeForm w G → SameTypeForm w F G }
{}

/// Two different constructors of inductive types above Prop that have more than one are never equal, whatever they are applied
/// to and whatever lambdas stand before them (a literal counts as its constructor), and applications of one but Nat.succ, which
/// is also an operation, that are equal have equal arguments. This is said of each constructor whose stated type is, as spelled,
/// Pis ending in a Sort or in an inductive type whose stated type is, as spelled, Pis ending in a Sort above Prop.
pub fn constructors_stay_apart()
    ensures one { (w : Place) (c d : Name) (a b : Tree) → IsChoice w c → IsChoice w d
        → IsDefEq w a b → Heads c a → Heads d b → c ≡ d }
    ensures parts { (w : Place) (c : Name) (a b : Tree) → IsChoice w c → (c ≡ nat_succ → ⊥)
        → IsDefEq w a b → IsApplied c a → IsApplied c b → SameSpine w a b }
{}

/// After `inductive B : Type | yes : B | no : B`, which is above Prop, the two constructors are not equal, nor are they where a
/// later unit, which is refused, gives B again with one constructor of a new name.
pub fn yes_is_not_no()
    ensures once { IsDefEq after_b (named yes_name) (named no_name) → ⊥ }
    ensures again { IsDefEq after_again (named yes_name) (named no_name) → ⊥ }
{}

/// No tree with an inductive type, with a constructor of an inductive type above Prop that has more than one, or with another
/// rigid constant at its head, and no Sort or Pi, is a proof of `(P : Prop) -> P`. The stated type of a rigid constant, an axiom
/// too, ends, as spelled, in a Sort or in a data type (IsDataName).
pub fn nothing_rigid_proves_falsehood()
    ensures families { (w : Place) (J : Name) → IsFamily w J → IsRigid w J }
    ensures choices { (w : Place) (c : Name) → IsChoice w c → IsRigid w c }
    ensures rigid { (w : Place) (c : Name) (e A : Tree) → IsRigid w c → Heads c e → HasType w e A
        → IsDefEq w A falsehood → ⊥ }
    ensures formers { (w : Place) (e A : Tree) → IsFormer e → HasType w e A → IsDefEq w A falsehood
        → ⊥ }
{}

/// Trees with different rigid constants at their heads are never equal, and none equals a Sort or a Pi: two inductive types, an
/// inductive type and an axiom whose stated type ends in a Sort or in a data type, two constructors of an inductive type above
/// Prop that is no structure, a literal and another constructor.
pub fn rigid_stays_apart()
    ensures heads { (w : Place) (c d : Name) (a b : Tree) → IsRigid w c → IsRigid w d
        → IsDefEq w a b → Heads c a → Heads d b → c ≡ d }
    ensures first { (w : Place) (d : Name) (a b : Tree) → IsRigid w d → IsDefEq w a b → IsFormer a
        → Heads d b → ⊥ }
    ensures second { (w : Place) (c : Name) (a b : Tree) → IsRigid w c → IsDefEq w a b → Heads c a
        → IsFormer b → ⊥ }
{}

/// Equal applications of one rigid constant but Nat.succ have equal levels and arguments that are equal pair by pair.
pub fn rigid_is_injective()
    ensures { (w : Place) (c : Name) (a b : Tree) → IsRigid w c → (c ≡ nat_succ → ⊥) → IsDefEq w a b
        → IsApplied c a → IsApplied c b → SameSpine w a b }
{}

/// No tree with a rigid constant at its head equals one with a Local at its head, whatever they are applied to and whatever
/// lambdas stand before them. Where the Local stands in the tree on the left, this is said of a Local whose type is, as spelled,
/// Pis ending in a Sort or in a data type.
pub fn rigid_is_no_local()
    ensures first { (w : Place) (c : Name) (k : ℕ) (T a b : Tree) → IsRigid w c → IsDefEq w a b
        → Heads c a → HeadsLocal k T b → ⊥ }
    ensures second { (w : Place) (c : Name) (k : ℕ) (T a b : Tree) → IsRigid w c → IsDataType w T
        → IsDefEq w a b → HeadsLocal k T a → Heads c b → ⊥ }
{}

/// No def named Nat.add is derived, at any place, whose value has a rigid constant at its head, under lambdas: by the first law the
/// value at a Local and zero would be that Local. So after `inductive Nat : Type | zero : Nat | succ : Nat -> Nat` the
/// declaration `def Nat.add : Nat -> Nat -> Nat := fun a b => Nat.succ Nat.zero` is not derived, whatever its hint, though it is
/// by each name but those of the six operations that have laws.
pub fn faked_addition_is_not_derived()
    ensures constant { (w : Place) (c : Name) (d : Decl) (h : Hint) (v : Tree) → IsRigid w c
        → Heads c v → d.name ≡ op_name add → d.body ≡ as_def h v → DeclDerived w d → ⊥ }
    ensures always_one { (h : Hint) → DeclDerived after_nat (faked_addition h) → ⊥ }
    ensures by_another_name { (c : Name) (h : Hint)
        → ((op : Op) → has_laws op ≡ true → op_name op ≡ c → ⊥)
        → DeclDerived after_nat (always_one_as c h) }
{}
