//! Questions that wait for themselves.

ghost use Rattle.std.specs.Prelude.{◌≡◌, ◌≤◌, true, false, length, OnOk, IfErr};
ghost use Rattle.std.specs.List.{list_any};
ghost use Rattle.lk_engine.specs.Waiting.{is_same, is_waiting, is_first_again, is_circle};

use crate::answering::Frame;
use lk_ask::query::Query;
use lk_ask::stop::Stop;

/// So many questions wait when it is first looked whether one waits for itself.
pub(crate) const FIRST: usize = 1024;

/// Whether one question is the other.
fn is_same(one: Query<u64>, other: Query<u64>) -> bool
    ensures { result ≡ is_same one other }
{
    match (one, other) {
        (Query::Core(a), Query::Core(b)) => a == b,
        (Query::Whnf(a), Query::Whnf(b)) => a == b,
        (Query::Infer(a), Query::Infer(b)) => a == b,
        (Query::Same(a, x), Query::Same(b, y)) => a == b && x == y,
        _ => false,
    }
}

/// Whether a question is among those that wait.
fn is_waiting(stack: &[Frame], asked: Query<u64>) -> bool
    ensures { result ≡ is_waiting stack.now asked }
{
    for frame in stack {
        if is_same(frame.asker, asked) {
            return true;
        }
    }
    false
}

/// Whether the first of these questions is asked again above it.
fn is_first_again(stack: &[Frame]) -> bool
    ensures { result ≡ is_first_again stack.now }
{
    match stack.split_first() {
        Some((first, above)) => is_waiting(above, first.asker),
        None => false,
    }
}

/// Looks, once so many questions wait, whether the one that is asked waits for itself, or the one in
/// the middle of those that wait: then there is no answer under any budget. How many are to wait when
/// it is looked next. That doubles, so that all looking takes no longer than the questions that came
/// to wait.
///
/// Where a circle has questions that are answered on the way the stack may come to its greatest
/// height only while one of them is asked, each time. The one in the middle is none of those once
/// the stack is high enough: it waits for ever, so it is on the circle.
pub(crate) fn look(stack: &[Frame], asked: Query<u64>, due: usize) -> Result<usize, Stop>
    ensures looked { OnOk result (due ≤ length stack.now → is_circle stack.now asked ≡ false) }
    ensures again { IfErr result (λ stop. (stop ≡ Stop.Spent)
        × (is_circle stack.now asked ≡ true)) }
{
    let waiting = stack.len();
    if waiting < due {
        return Ok(due);
    }
    let (_, upper) = stack.split_at(waiting / 2);
    if is_waiting(stack, asked) || is_first_again(upper) {
        return Err(Stop::Spent);
    }
    Ok(waiting.saturating_mul(2))
}
