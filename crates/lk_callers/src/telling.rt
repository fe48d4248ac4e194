//! What is told of a list: each submission with its units and their verdicts.

ghost use Rattle.std.specs.Prelude.{◌≡◌, length, map, IfOk};
ghost use Rattle.lk_env.specs.Units.{library_of};
ghost use Rattle.lk_verdict.specs.Held.{verdict};
ghost use Rattle.lk_session.specs.Texts.{Says, marks_of, units_of};
ghost use Rattle.lk_session.specs.declared.view.Submission.{Submission as Call};
ghost use Rattle.lk_text.specs.Text.{session_text, told_of};
ghost use Rattle.lk_callers.specs.Told.{told_submissions, told_of_mark};
ghost use Rattle.std.specs.Prelude.{List, ℕ};

use lk_axioms::uses;
use lk_env::library::Library;
use lk_session::Mark;
use lk_store::memory::NoMemory;
use lk_text::{Submission, session_report};
use lk_verdict::Verdict;
use std::alloc::Global;

/// What is told of a submission, for the text.
fn submissions_of(alloc: Global, marks: &[Mark]) -> Result<Vec<Submission>, NoMemory>
    ensures { IfOk result (λ ss. ss.items ≡ map told_of_mark marks.now) }
{
    let mut submissions = Vec::new(alloc);
    for mark in marks {
        submissions.push(Submission {
            tag: mark.tag,
            units: mark.count,
        })?;
    }
    Ok(submissions)
}

/// The lines of a list's submissions, with these verdicts, and the last line.
pub(crate) fn tell(
    alloc: Global,
    library: &Library,
    marks: &[Mark],
    verdicts: &[Verdict],
) -> Result<Vec<u8>, NoMemory>
    ensures { IfOk result (λ text. (stated : Says) (list : List Call)
        → marks.now ≡ marks_of stated 0 list → library_of library.now ≡ units_of stated list
        → text.items ≡ session_text (told_submissions stated list) (map verdict verdicts.now)) }
{
    let axioms = uses(alloc, library)?;
    let submissions = submissions_of(alloc, marks)?;
    session_report(alloc, library, &axioms, &submissions, verdicts)
}
