//! The loop that derives a question, by a stack of what is to be done.

ghost use Rattle.std.specs.Prelude.{◌≡◌, ◌++◌, ◌∷◌, [], length, map, true, All, OnOk};
ghost use Rattle.lk_store.specs.Contents.{tree_at};
ghost use Rattle.lk_ask.specs.Questions.{query_of, IsKnownQuery};
ghost use Rattle.lk_step.specs.Rows.{IsClaim};
ghost use Rattle.lk_step.specs.Meaning.{step_at, IsStepIn};
ghost use Rattle.lk_derive.specs.declared.task.Task.TheVariants as task;
ghost use Rattle.lk_derive.specs.Notes.{stated_at};
ghost use Rattle.lk_derive.specs.Derived.{is_marked, IsDerivation, Derives};
ghost use Rattle.lk_derive.specs.Tasks.{IsRowAbove};
ghost use Rattle.lk_derive.specs.Stages.{Stays, IsStage, GoesOn};

use crate::derivation::Derivation;
use crate::rows::Rows;
use crate::task::{Task, push, push_row};
use crate::writing::write_row;
use lk_ask::query::Query;
use lk_step::Step;
use lk_store::memory::NoMemory;
use std::alloc::Global;

/// Opens a question: nothing is left of one that is marked as derived, and else its row is put on the stack, with what that
/// asks above it.
fn open<R: Rows>(
    rows: &mut R,
    derivation: &Derivation,
    stack: &mut Vec<Task>,
    query: Query<u64>,
) -> Result<(), NoMemory>
    requires { IsStage (R.place rows.old) (R.most rows.old) (R.contents rows.old) derivation.now
        (stack.old.items ++ task.Open query ∷ []) }
    ensures stays { Stays R.contents R.place R.most rows.old rows.new }
    ensures rest { R.rest rows.new ≡ R.rest rows.old }
    ensures goes_on { OnOk result (GoesOn (R.place rows.old) (R.most rows.old)
        (R.contents rows.old) (R.contents rows.new) derivation.now derivation.now
        (stack.old.items ++ task.Open query ∷ []) stack.new.items) }
    ensures again { is_marked derivation.now query ≡ true → stack.new.items ≡ stack.old.items }
{
    if derivation.is_marked(query) {
        return Ok(());
    }
    let row = rows.row(query)?;
    push_row(stack, query, row)
}

/// Writes the steps of a question's row, and marks the question as derived.
#[tactic(auto, using(lk_memo::proofs::Keys::key_refl))]
fn write<R: Rows>(
    alloc: Global,
    rows: &R,
    derivation: &mut Derivation,
    query: Query<u64>,
    steps: &[Step],
) -> Result<(), NoMemory>
    requires derivation { IsDerivation (R.place rows.now) (R.contents rows.now) derivation.old }
    requires known { IsKnownQuery (length (R.contents rows.now).trees) query }
    requires steps_in { All (IsStepIn (R.contents rows.now)) steps.now }
    requires row { let c = R.contents rows.now in
        IsRowAbove (R.place rows.now) (stated_at c derivation.old.notes)
        (query_of (tree_at c) query) (map (step_at c) steps.now) [] }
    ensures derives { let c = R.contents rows.now in OnOk result (Derives (R.place rows.now) c c
        derivation.old derivation.new (query_of (tree_at c) query)) }
    ensures marked { OnOk result (is_marked derivation.new query ≡ true) }
{
    write_row(alloc, &mut derivation.notes, rows, steps)?;
    derivation.mark(query)
}

/// Does the task that was on top of the stack.
fn do_task<R: Rows>(
    alloc: Global,
    rows: &mut R,
    derivation: &mut Derivation,
    stack: &mut Vec<Task>,
    task: Task,
) -> Result<(), NoMemory>
    requires { IsStage (R.place rows.old) (R.most rows.old) (R.contents rows.old) derivation.old
        (stack.old.items ++ task ∷ []) }
    ensures stays { Stays R.contents R.place R.most rows.old rows.new }
    ensures rest { R.rest rows.new ≡ R.rest rows.old }
    ensures goes_on { OnOk result (GoesOn (R.place rows.old) (R.most rows.old)
        (R.contents rows.old) (R.contents rows.new) derivation.old derivation.new
        (stack.old.items ++ task ∷ []) stack.new.items) }
{
    match task {
        Task::Open(query) => open(rows, derivation, stack, query),
        Task::Write { query, steps } => write(alloc, rows, derivation, query, &steps),
    }
}

/// Derives a question that is answered and claims something: afterwards what its answer claims is stated by a line, or is of
/// one tree. Lines that stand there are used again. Behind an error nothing is said of the derivation.
pub fn derive<R: Rows>(
    alloc: Global,
    rows: &mut R,
    derivation: &mut Derivation,
    query: Query<u64>,
) -> Result<(), NoMemory>
    requires known { IsKnownQuery (length (R.contents rows.old).trees) query }
    requires answered { IsClaim (R.place rows.old) (query_of (tree_at (R.contents rows.old)) query)
        (R.most rows.old) }
    requires derivation { IsDerivation (R.place rows.old) (R.contents rows.old) derivation.old }
    ensures stays { Stays R.contents R.place R.most rows.old rows.new }
    ensures rest { R.rest rows.new ≡ R.rest rows.old }
    ensures derives { OnOk result (Derives (R.place rows.old) (R.contents rows.old)
        (R.contents rows.new) derivation.old derivation.new
        (query_of (tree_at (R.contents rows.old)) query)) }
{
    let mut stack: Vec<Task> = Vec::new(alloc);
    push(&mut stack, Task::Open(query))?;
    'tasks: while let Some(next) = stack.pop() {
        do_task(alloc, rows, derivation, &mut stack, next)?;
    }
    Ok(())
}
