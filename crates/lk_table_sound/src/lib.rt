//! Soundness of the question table: each answer has a derivation in the rule book. Nothing runs:
//! each function is a law.
#![tactic(auto)]

ghost use Rattle.std.specs.Prelude.{ℕ};
ghost use Rattle.lk_questions.specs.Answer.{outcome_of, plain_answer, IfAnswered};
ghost use Rattle.lk_questions.specs.Program.{Table};
ghost use Rattle.lk_questions.specs.Query.{Query};
ghost use Rattle.lk_questions.specs.Sound.{IsAskable, IsJustified, IsSoundPlace, IsSoundTable};
ghost use Rattle.lk_rulebook.specs.Derived.{DeclWellFormed, DeclDerived};
ghost use Rattle.lk_rulebook.specs.Place.{Place};
ghost use Rattle.lk_rulebook.specs.Units.{Decl};
ghost use Rattle.lk_questions.specs.Declarations.{unit_steps};
ghost use Rattle.lk_questions.specs.Table.{steps};

/// The whole table is sound: where the answers to what a row asks are justified, its own answer is.
pub fn whole_table_is_sound()
    ensures { IsSoundTable steps }
{}

/// Each answer of a sound table is justified by a derivation, at a sound place; so is each answer
/// of the whole table.
pub fn plain_answer_is_sound()
    ensures each { (table : Table) (w : Place) (q : Query) (b : ℕ) → IsSoundTable table
        → IsSoundPlace w → IsAskable q → IfAnswered (plain_answer table w q b)
        (λ v c t. IsJustified w q v) }
    ensures whole { (w : Place) (q : Query) (b : ℕ) → IsSoundPlace w → IsAskable q
        → IfAnswered (plain_answer steps w q b) (λ v c t. IsJustified w q v) }
{}

/// A declaration that is answered yes under any budget is derived in the rule book.
pub fn yes_is_a_derivation()
    ensures each { (table : Table) (w : Place) (d : Decl) (b : ℕ) → IsSoundTable table
        → IsSoundPlace w → DeclWellFormed d
        → IfAnswered (outcome_of w (plain_answer table w) b (unit_steps d))
        (λ y c t. DeclDerived w d) }
    ensures whole { (w : Place) (d : Decl) (b : ℕ) → IsSoundPlace w → DeclWellFormed d
        → IfAnswered (outcome_of w (plain_answer steps w) b (unit_steps d))
        (λ y c t. DeclDerived w d) }
{}
