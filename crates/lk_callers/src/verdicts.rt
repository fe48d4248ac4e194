//! The verdicts of a list's units, in their order, by what callers were told.

ghost use Rattle.std.specs.Prelude.{◌≡◌, ◌+◌, ◌≤◌, ℕ, List, length, map, IfOk};
ghost use Rattle.lk_verdict.specs.Held.{verdict};
ghost use Rattle.lk_session.specs.Answers.{AreFrom};
ghost use Rattle.lk_session.specs.Texts.{Says, units_of};
ghost use Rattle.lk_session.specs.declared.view.Submission.{Submission};
ghost use Rattle.lk_callers.specs.Answered.{IsRight, AreRight, AreWithin};

use lk_session::Reply;
use lk_store::memory::NoMemory;
use lk_verdict::Verdict;
use std::alloc::Global;

/// Puts the verdicts of a reply at the places of their units.
fn fill(verdicts: &mut Vec<Verdict>, reply: &Reply)
    requires { reply.now.first + length reply.now.verdicts.items ≤ length verdicts.old.items }
    ensures count { length verdicts.new.items ≡ length verdicts.old.items }
    ensures each { (stated : Says) (budget : ℕ) (list : List Submission)
        → IsRight stated budget list reply.now
        → AreFrom (units_of stated list) budget 0 (map verdict verdicts.old.items)
        → AreFrom (units_of stated list) budget 0 (map verdict verdicts.new.items) }
{
    let first = reply.first as usize;
    for k in 0..reply.verdicts.len() {
        verdicts[first + k] = reply.verdicts[k];
    }
}

/// The verdicts of so many units by these replies; a unit of which none tells says memory.
pub(crate) fn verdicts_by(
    alloc: Global,
    count: usize,
    replies: &[Reply],
) -> Result<Vec<Verdict>, NoMemory>
    requires { AreWithin count replies.now }
    ensures count { IfOk result (λ vs. length vs.items ≡ count) }
    ensures each { IfOk result (λ vs. (stated : Says) (budget : ℕ) (list : List Submission)
        → AreRight stated budget list replies.now
        → AreFrom (units_of stated list) budget 0 (map verdict vs.items)) }
{
    let mut verdicts = Vec::new(alloc);
    verdicts.resize(count, Verdict::Memory)?;
    for reply in replies {
        fill(&mut verdicts, reply);
    }
    Ok(verdicts)
}
