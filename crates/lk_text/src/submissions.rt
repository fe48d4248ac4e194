//! The text of a session: the lines of its submissions, each with those of its units, which are
//! numbered over all submissions.

ghost use Rattle.std.specs.Prelude.{◌≡◌, ◌++◌, List, map, take, drop, IfOk, OnOk};
ghost use Rattle.lk_verdict.specs.Held.{verdict};
ghost use Rattle.lk_text.specs.Text.{Submitted, told_of, submitted_units, submission_line};
ghost use Rattle.lk_text.specs.Text.{submissions_text, session_text};
ghost use Rattle.lk_axioms.specs.Lists.{axiom_lists};
ghost use Rattle.lk_env.specs.Units.{library_of};

use crate::counts::{add_counted, add_summary};
use crate::texts::LINE;
use crate::units::{Writing, add_lines_from};
use lk_axioms::AxiomSets;
use lk_env::library::Library;
use lk_store::memory::NoMemory;
use lk_verdict::Verdict;
use std::alloc::Global;

/// A submission: its tag, and how many units it has.
#[derive(Clone, Copy)]
pub struct Submission {
    pub tag: u64,
    pub units: u32,
}

/// The first items, up to so many, and the items behind them.
#[tactic(auto, using(std::proofs::lemmas::List::take_min, std::proofs::lemmas::List::drop_min))]
fn cut<T>(items: &[T], count: u32) -> (&[T], &[T])
    ensures front { result.0.now ≡ take count items.now }
    ensures back { result.1.now ≡ drop count items.now }
{
    items.split_at((count as usize).min(items.len()))
}

/// Appends the line that begins a submission.
fn add_submission(out: &mut Vec<u8>, tag: u64) -> Result<(), NoMemory>
    ensures { OnOk result (out.new.items ≡ out.old.items ++ submission_line tag) }
{
    add_counted(out, b"submission ", tag)?;
    out.push(b'\n')?;
    Ok(())
}

/// Appends the lines of submissions, one after another, each with those of its units.
fn add_submissions(
    alloc: Global,
    out: &mut Vec<u8>,
    library: &Library,
    axioms: &AxiomSets,
    submissions: &[Submission],
    verdicts: &[Verdict],
) -> Result<(), NoMemory>
    requires { axioms.now ≡ axiom_lists (library_of library.now) }
    ensures { (ss : List Submitted) → submitted_units ss ≡ library_of library.now
        → submissions.now ≡ map told_of ss
        → OnOk result (out.new.items ≡ out.old.items
        ++ submissions_text (library_of library.now) 0 ss (map verdict verdicts.now)) }
{
    let mut writing = Writing::new(alloc);
    let mut left = library.units();
    let mut said = verdicts;
    let mut number = 0;
    let mut rest = submissions;
    while let Some((submission, others)) = rest.split_first() {
        let (own, later) = cut(left, submission.units);
        add_submission(out, submission.tag)?;
        add_lines_from(&mut writing, out, library, axioms, number, own, said)?;
        let (_, behind) = cut(said, submission.units);
        number += own.len() as u64;
        left = later;
        said = behind;
        rest = others;
    }
    Ok(())
}

/// The text of a session, whose submissions have the units of the library one after another: the
/// line of each submission, with those of its units and of the axioms that these rest on, and the
/// last line.
pub fn session_report(
    alloc: Global,
    library: &Library,
    axioms: &AxiomSets,
    submissions: &[Submission],
    verdicts: &[Verdict],
) -> Result<Vec<u8>, NoMemory>
    requires axioms { axioms.now ≡ axiom_lists (library_of library.now) }
    ensures { (ss : List Submitted) → submitted_units ss ≡ library_of library.now
        → submissions.now ≡ map told_of ss
        → IfOk result (λ v. v.items ≡ session_text ss (map verdict verdicts.now)) }
{
    let lines = verdicts.len().saturating_add(submissions.len());
    let mut out = Vec::with_capacity(alloc, lines.saturating_mul(LINE))?;
    add_submissions(alloc, &mut out, library, axioms, submissions, verdicts)?;
    add_summary(&mut out, verdicts)?;
    Ok(out)
}
