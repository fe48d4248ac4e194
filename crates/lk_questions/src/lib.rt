//! Programs that ask questions, the plain answer of a question (what a table answers at a place,
//! under a budget, without caches), and the question table, row by row: what the checker asks, and
//! in which order, also of each declaration. The laws of plain answers hold of every table.
#![tactic(auto)]

ghost use Rattle.std.specs.Prelude.{◌≡◌, ℕ, suc, None, true};
ghost use Rattle.lk_tree.specs.Tree.{Tree};
ghost use Rattle.lk_rulebook.specs.Place.{Place};
ghost use Rattle.lk_questions.specs.Answer.{answered, spent, after, outcome_of, plain_answer, IfAnswered};
ghost use Rattle.lk_questions.specs.Laws.{IsSteady, IsBelow, Keeps, GivesTheSame, SameOutcome, IsSettled};
ghost use Rattle.lk_questions.specs.Parts.{IsPartOf};
ghost use Rattle.lk_questions.specs.Program.{Table, done};
ghost use Rattle.lk_questions.specs.Query.{Query, same};
ghost use Rattle.lk_questions.specs.Sound.{IsSoundTable};
ghost use Rattle.lk_questions.specs.Steps.{is_same_tree};
ghost use Rattle.lk_questions.specs.Table.{steps};

/// With nothing left no question is answered. With one more than b left it is opened, and what it asks is answered with what is
/// left.
pub fn plain_answer_opens()
    ensures nothing_left { (table : Table) (w : Place) (q : Query) → plain_answer table w q 0
        ≡ spent }
    ensures opens { (table : Table) (w : Place) (q : Query) (b : ℕ) → plain_answer table w q (suc b)
        ≡ after 1 None (outcome_of w (plain_answer table w) b (table q)) }
{}

/// An answer comes exactly where the budget is at least its cost, and is the same under each such budget.
pub fn plain_answer_is_steady()
    ensures { (table : Table) (w : Place) (q : Query) (b : ℕ)
        → IfAnswered (plain_answer table w q b) (IsSteady (plain_answer table w q) b) }
{}

/// What is said under a budget, an answer or a refusal, is said under each greater one too.
pub fn plain_answer_is_settled()
    ensures { (table : Table) (w : Place) (q : Query) → IsSettled (plain_answer table w q) }
{}

/// Under each budget the outcome, an answer or a refusal or spent, rests on the contents of names alone, whichever units give
/// them.
pub fn plain_answer_rests_on_contents()
    ensures { (table : Table) (w other : Place) (q : Query) (b : ℕ) → GivesTheSame w other
        → SameOutcome (plain_answer table w q b) (plain_answer table other q b) }
{}

/// An answer rests on the names alone that units below n give.
pub fn plain_answers_agree()
    ensures { (table : Table) (n : ℕ) (w other : Place) (q : Query) (b : ℕ) → Keeps n w other
        → IfAnswered (plain_answer table w q b)
        (λ v c t. IsBelow t n → plain_answer table other q b ≡ answered v c t) }
{}

/// What a part answers its table answers too, at the same cost, and a part of a sound table is sound. A table is a part of
/// itself.
pub fn parts_are_sound()
    ensures sound { (part table : Table) → IsPartOf part table → IsSoundTable table
        → IsSoundTable part }
    ensures agree { (part table : Table) (w : Place) (q : Query) (b : ℕ) → IsPartOf part table
        → IfAnswered (plain_answer part w q b)
        (λ v c t. plain_answer table w q b ≡ answered v c t) }
    ensures itself { (table : Table) → IsPartOf table table }
{}

/// Equal trees are the same, and nothing is asked of them.
pub fn equal_trees_are_the_same()
    ensures { (a b : Tree) → is_same_tree a b ≡ true → steps (same a b) ≡ done true }
{}
