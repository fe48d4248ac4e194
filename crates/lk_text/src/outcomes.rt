//! What is written of the sections of a file with derivations: a line for each unit, and the line that counts them.

ghost use Rattle.std.specs.Prelude.{◌≡◌, ◌++◌, map, IfOk, OnOk};
ghost use Rattle.lk_trace.specs.Outcomes.{outcome_at};
ghost use Rattle.lk_store.specs.Store.{contents_of};
ghost use Rattle.lk_env.specs.Units.{library_of, IsUnitIn};
ghost use Rattle.lk_text.specs.Names.{unit_text};
ghost use Rattle.lk_text.specs.Replayed.{outcome_line, outcome_lines, is_outcome, count_outcomes, outcome_summary, replay_text};

use crate::counts::add_counted;
use crate::units::{Writing, write_name};
use crate::verdicts::add_title;
use lk_env::library::Library;
use lk_env::unit::Unit;
use lk_store::memory::NoMemory;
use lk_trace::Outcome;
use std::alloc::Global;

/// What an outcome is counted as.
#[derive(Clone, Copy)]
pub enum OutcomeKind {
    Ok,
    Bad,
    None,
    Block,
}

/// Whether an outcome is of this kind.
fn is_outcome(kind: OutcomeKind, outcome: &Outcome) -> bool
    ensures { result ≡ is_outcome kind (outcome_at outcome.now) }
{
    match kind {
        OutcomeKind::Ok => match outcome {
            Outcome::Ok => true,
            Outcome::Bad { .. } => false,
            Outcome::None => false,
            Outcome::Block => false,
        },
        OutcomeKind::Bad => match outcome {
            Outcome::Ok => false,
            Outcome::Bad { .. } => true,
            Outcome::None => false,
            Outcome::Block => false,
        },
        OutcomeKind::None => match outcome {
            Outcome::Ok => false,
            Outcome::Bad { .. } => false,
            Outcome::None => true,
            Outcome::Block => false,
        },
        OutcomeKind::Block => match outcome {
            Outcome::Ok => false,
            Outcome::Bad { .. } => false,
            Outcome::None => false,
            Outcome::Block => true,
        },
    }
}

/// How many are of this kind.
pub fn count_outcomes(kind: OutcomeKind, outcomes: &[Outcome]) -> u64
    ensures { result ≡ count_outcomes kind (map outcome_at outcomes.now) }
{
    let mut n = 0;
    let mut rest = outcomes;
    while let [outcome, more @ ..] = rest {
        rest = more;
        if is_outcome(kind, outcome) {
            n += 1;
        }
    }
    n
}

/// Appends the line of a unit. Its name, as it is written, stands in room that is used for the end of the line.
fn add_outcome(
    out: &mut Vec<u8>,
    unit: u64,
    name: &mut Vec<u8>,
    outcome: Outcome,
) -> Result<(), NoMemory>
    ensures { OnOk result (out.new.items ≡ out.old.items
        ++ outcome_line unit name.old.items (outcome_at outcome)) }
{
    match outcome {
        Outcome::Ok => add_title(out, b"ok", unit, name),
        Outcome::Bad { line } => {
            add_counted(name, b" line ", line)?;
            add_title(out, b"bad", unit, name)
        }
        Outcome::None => add_title(out, b"none", unit, name),
        Outcome::Block => add_title(out, b"block", unit, name),
    }
}

/// Appends the line of a unit of the library.
fn add_line(
    writing: &mut Writing,
    out: &mut Vec<u8>,
    library: &Library,
    number: u64,
    unit: &Unit,
    outcome: Outcome,
) -> Result<(), NoMemory>
    requires { IsUnitIn (contents_of library.now.tables) unit.now }
    ensures { OnOk result (out.new.items ≡ out.old.items
        ++ outcome_line number (unit_text (contents_of library.now.tables) unit.now)
        (outcome_at outcome)) }
{
    write_name(writing, library, unit)?;
    add_outcome(out, number, &mut writing.name, outcome)
}

/// Appends the lines of the units.
fn add_outcome_lines(
    alloc: Global,
    out: &mut Vec<u8>,
    library: &Library,
    outcomes: &[Outcome],
) -> Result<(), NoMemory>
    ensures { OnOk result (out.new.items ≡ out.old.items
        ++ outcome_lines 0 (library_of library.now) (map outcome_at outcomes.now)) }
{
    let mut writing = Writing::new(alloc);
    let mut left = library.units();
    let mut rest = outcomes;
    let mut number = 0;
    while let Some((unit, more)) = left.split_first() {
        let Some((outcome, others)) = rest.split_first() else {
            return Ok(());
        };
        add_line(&mut writing, out, library, number, unit, *outcome)?;
        left = more;
        rest = others;
        number += 1;
    }
    Ok(())
}

/// Appends the last line.
fn add_outcome_summary(out: &mut Vec<u8>, outcomes: &[Outcome]) -> Result<(), NoMemory>
    ensures { OnOk result (out.new.items ≡ out.old.items
        ++ outcome_summary (map outcome_at outcomes.now)) }
{
    add_counted(out, b"units ", outcomes.len() as u64)?;
    add_counted(out, b" ok ", count_outcomes(OutcomeKind::Ok, outcomes))?;
    add_counted(out, b" bad ", count_outcomes(OutcomeKind::Bad, outcomes))?;
    add_counted(out, b" none ", count_outcomes(OutcomeKind::None, outcomes))?;
    add_counted(
        out,
        b" block ",
        count_outcomes(OutcomeKind::Block, outcomes),
    )?;
    out.push(b'\n')?;
    Ok(())
}

/// The lines of the units of a library, by what comes of their sections, and the last line.
pub fn replay_report(
    alloc: Global,
    library: &Library,
    outcomes: &[Outcome],
) -> Result<Vec<u8>, NoMemory>
    ensures { IfOk result (λ v. v.items ≡ replay_text (library_of library.now)
        (map outcome_at outcomes.now)) }
{
    let mut out = Vec::new(alloc);
    add_outcome_lines(alloc, &mut out, library, outcomes)?;
    add_outcome_summary(&mut out, outcomes)?;
    Ok(out)
}
