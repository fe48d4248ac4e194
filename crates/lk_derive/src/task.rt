//! What waits on the stack of a derivation.

ghost use Rattle.std.specs.Prelude.{◌≡◌, ◌++◌, ◌∷◌, [], map, reverse, OnOk};
ghost use Rattle.lk_derive.specs.declared.task.Task.TheVariants as task;

use lk_ask::query::Query;
use lk_step::{Row, Step};
use lk_store::memory::NoMemory;

/// What is to be done once all is done that stands above it on the stack.
#[derive(Drop)]
pub(crate) enum Task {
    /// A question is to be derived.
    Open(Query<u64>),
    /// The steps of a question's row are to be written, by which it is derived.
    Write { query: Query<u64>, steps: Vec<Step> },
}

/// Puts a task on the stack.
pub(crate) fn push(stack: &mut Vec<Task>, task: Task) -> Result<(), NoMemory>
    ensures { OnOk result (stack.new.items ≡ stack.old.items ++ task ∷ []) }
{
    stack.push(task)?;
    Ok(())
}

/// Puts questions on the stack, the first of them on top.
fn push_each(stack: &mut Vec<Task>, mut queries: Vec<Query<u64>>) -> Result<(), NoMemory>
    ensures { OnOk result (stack.new.items
        ≡ stack.old.items ++ map task.Open (reverse queries.items)) }
{
    while let Some(query) = queries.pop() {
        push(stack, Task::Open(query))?;
    }
    Ok(())
}

/// Puts the row of a question on the stack, and above it what the row asks.
pub(crate) fn push_row(stack: &mut Vec<Task>, query: Query<u64>, row: Row) -> Result<(), NoMemory>
    ensures { OnOk result (stack.new.items ≡ stack.old.items
        ++ task.Write query row.steps ∷ map task.Open (reverse row.asks.items)) }
{
    let Row { asks, steps } = row;
    push(stack, Task::Write { query, steps })?;
    push_each(stack, asks)
}
