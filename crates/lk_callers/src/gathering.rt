//! What all passes came to, put together.

ghost use Rattle.std.specs.Prelude.{◌≡◌, ◌+◌, ◌≤◌, ℕ, List, length, IfOk, OnOk};
ghost use Rattle.lk_session.specs.Texts.{Says};
ghost use Rattle.lk_callers.specs.Answered.{AreCalled, IsGathered};
ghost use Rattle.lk_callers.specs.declared.turns.Turns.{Turns as TurnsAre};

use crate::calling::Called;
use lk_session::{Reads, Room, Session};
use lk_store::memory::NoMemory;

/// One pass takes in all of another, of the number just below.
fn take_in<B: Room, T: Reads>(
    session: &Session<B, T>,
    all: &mut Called<B, T>,
    one: Called<B, T>,
) -> Result<(), NoMemory>
    ensures { OnOk result ((texts : List (List ℕ)) (t : TurnsAre) (budget low high : ℕ)
        → IsGathered T.stated texts t budget (low + 1) high all.old
        → IsGathered T.stated texts t budget low (low + 1) one
        → IsGathered T.stated texts t budget low high all.new) }
{
    let Called {
        number: _,
        pass,
        mut replies,
        full,
    } = one;
    all.replies.append(&mut replies)?;
    session.join(&mut all.pass, pass);
    all.full = all.full || full;
    Ok(())
}

/// What all passes came to, as one pass: there is at least one.
pub(crate) fn gather<B: Room, T: Reads>(
    session: &Session<B, T>,
    called: Vec<Result<Called<B, T>, NoMemory>>,
) -> Result<Called<B, T>, NoMemory>
    requires { 1 ≤ length called.items }
    ensures { IfOk result (λ all. (texts : List (List ℕ)) (t : TurnsAre) (budget : ℕ)
        → AreCalled T.stated texts t budget (length texts) called.items
        → IsGathered T.stated texts t budget 0 (length called.items) all) }
{
    let mut called = called;
    let Some(last) = called.pop() else {
        unreachable!();
    };
    let mut all = last?;
    while let Some(one) = called.pop() {
        take_in(session, &mut all, one?)?;
    }
    Ok(all)
}
