//! What answers come of. Nothing runs: each function is a law.

ghost use Rattle.std.specs.Prelude.{◌≡◌, ℕ, Option};
ghost use Rattle.lk_rulebook.specs.Place.{Place};
ghost use Rattle.lk_questions.specs.Answer.{answered, plain_answer};
ghost use Rattle.lk_questions.specs.Query.{Query, AnswerTo};
ghost use Rattle.lk_questions.specs.Table.{steps};
ghost use Rattle.lk_step.specs.Rows.{IsAnswered};
ghost use Rattle.lk_questions.specs.Sound.{IsAskable};
ghost use Rattle.lk_rulebook.specs.WellStated.{WellStated};
ghost use Rattle.lk_step.specs.Runs.{IsOpened, AreOne};
ghost use Rattle.lk_step.specs.Shaped.{IsShapedAnswer};

/// A question that is answered under one budget is answered so under each that is enough. Its row was
/// run then, for one less, and it has one answer at one cost.
pub fn answers_come_of_rows()
    ensures answered { (w : Place) (q : Query) (b : ℕ) (v : AnswerTo q) (c : ℕ) (t : Option ℕ)
        → plain_answer steps w q b ≡ answered v c t → IsAnswered w q v c }
    ensures opened { (w : Place) (q : Query) (v : AnswerTo q) (c : ℕ) → IsAnswered w q v c
        → IsOpened w q v c }
    ensures one { (w : Place) (q : Query) (v u : AnswerTo q) (c d : ℕ) → IsAnswered w q v c
        → IsAnswered w q u d → AreOne v u c d }
{}

/// Each answer of a question that may be asked has trees that are closed and well scoped, with no Local
/// that the question does not have; a Sort or a Pi reduces to itself alone.
pub fn answers_are_shaped()
    ensures { (w : Place) → WellStated w → (q : Query) (v : AnswerTo q) (c : ℕ) → IsAskable q
        → IsAnswered w q v c → IsShapedAnswer q v }
{}
