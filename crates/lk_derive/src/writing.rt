//! Steps that become lines.

ghost use Rattle.std.specs.Prelude.{◌≡◌, map, All, OnOk};
ghost use Rattle.lk_premises.specs.Claims.{claims_at};
ghost use Rattle.lk_step.specs.Steps.{claim_of, premises_of, StepHolds};
ghost use Rattle.lk_step.specs.Rows.{IsThere, AreSteps};
ghost use Rattle.lk_step.specs.Meaning.{step_at, IsStepIn};
ghost use Rattle.lk_derive.specs.Notes.{stated_at, IsNotes, Writes};
ghost use Rattle.lk_derive.specs.Writing.{WritesAll};

use crate::notes::{Notes, claim_with};
use crate::numbering::{is_there, numbers_of};
use crate::rows::Rows;
use lk_step::Step;
use lk_store::memory::NoMemory;
use lk_trace::Line;
use std::alloc::Global;

/// Writes the line of a step, unless its claim is stated by a line, or is of one tree. Behind an error nothing is said of the
/// notes.
pub fn write_step<R: Rows>(
    alloc: Global,
    notes: &mut Notes,
    rows: &R,
    step: &Step,
) -> Result<(), NoMemory>
    requires step_in { IsStepIn (R.contents rows.now) step.now }
    requires notes { IsNotes (R.place rows.now) (R.contents rows.now) notes.old }
    requires holds { StepHolds (R.place rows.now) (step_at (R.contents rows.now) step.now) }
    requires there { let c = R.contents rows.now in
        All (IsThere (stated_at c notes.old)) (premises_of (step_at c step.now)) }
    ensures { let c = R.contents rows.now in OnOk result (Writes (R.place rows.now) c
        notes.old notes.new (claim_of (step_at c step.now))) }
{
    let claim = claim_with(step.rule, step.left, step.right);
    if is_there(rows.store(), notes, claim) {
        return Ok(());
    }
    let premises = numbers_of(alloc, rows.store(), notes, &step.premises)?;
    notes.add(Line {
        rule: step.rule,
        left: step.left,
        right: step.right,
        premises,
    })
}

/// Writes the steps of a row, one after another, each over those before it. Behind an error nothing is said of the notes.
pub fn write_row<R: Rows>(
    alloc: Global,
    notes: &mut Notes,
    rows: &R,
    steps: &[Step],
) -> Result<(), NoMemory>
    requires steps_in { All (IsStepIn (R.contents rows.now)) steps.now }
    requires notes { IsNotes (R.place rows.now) (R.contents rows.now) notes.old }
    requires steps { let c = R.contents rows.now in
        AreSteps (R.place rows.now) (stated_at c notes.old) (map (step_at c) steps.now) }
    ensures { let c = R.contents rows.now in OnOk result (WritesAll (R.place rows.now) c
        notes.old notes.new (map (step_at c) steps.now)) }
{
    let mut rest = steps;
    'steps: while let Some((step, more)) = rest.split_first() {
        write_step(alloc, notes, rows, step)?;
        rest = more;
    }
    Ok(())
}
