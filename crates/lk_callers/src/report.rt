//! Texts that callers add to one list at one time, checked, and what is told of them.

ghost use Rattle.std.specs.Prelude.{◌≡◌, ◌<◌, ◌≤◌, ℕ, length, IfOk, OnOk, Err};
ghost use mathlib.Core.List.{IsPrefix};
ghost use Rattle.lk_session.specs.Rule.{times};
ghost use Rattle.lk_session.specs.Steps.{HasEach};
ghost use Rattle.lk_session.specs.Texts.{AreFaultless, marks_of, units_of};
ghost use Rattle.lk_book.specs.Texts.{text_of};
ghost use Rattle.lk_callers.specs.Owned.{all_units, bytes_in};
ghost use Rattle.lk_callers.specs.Answered.{AreRight, AreWithin};
ghost use Rattle.lk_callers.specs.Reports.{IsListReport, IsSessionReport};
ghost use Rattle.lk_callers.specs.declared.report.SessionError.TheVariants.{Full};

use crate::calling::Called;
use crate::counting::{MOST_UNITS, declaring_lines, have_room};
use crate::gathering::gather;
use crate::passes::{call_all, split_passes};
use crate::telling::tell;
use crate::text_reader::TextReader;
use crate::turns::Turns;
use crate::verdicts::verdicts_by;
use lk_port::Gate;
use lk_session::{History, Mark, Opened, Pass, Reads, Reply, Room, Session};
use lk_store::memory::NoMemory;
use lk_verdict::{Checks, Verdict};
use std::alloc::Global;
use std::marker::Brand;
use std::sync::Wait;
use std::thread::Threads;

/// What is told of the texts, and the verdicts of all their units, in the order of the list.
#[derive(Drop)]
pub struct SessionReport {
    pub text: Vec<u8>,
    pub verdicts: Vec<Verdict>,
}

/// Why nothing is told of the texts.
#[derive(Clone, Copy)]
pub enum SessionError {
    /// They state more than 65,536 units together.
    Full,
    /// Memory is wanting.
    NoMemory,
}

impl From<NoMemory> for SessionError {
    ghost use Rattle.std.specs.Prelude.{◌≡◌};
    ghost use Rattle.lk_callers.specs.declared.report.SessionError.TheVariants.{NoMemory};

    ghost from_gives = { λ _ e. e ≡ NoMemory };

    fn from(_: NoMemory) -> SessionError {
        SessionError::NoMemory
    }
}

/// What is told of each submission of the whole list, where all of them are this pass's own. That is
/// known where the pass came from all passes that were made, as it did where the session is its
/// caller's own and all passes came back. Were it not so, nothing could be told.
fn own_list<B: Room, T: Reads, R: Wait>(
    rt: &R,
    session: &Session<B, T>,
    pass: &mut Pass<B, T>,
    passes: u32,
) -> Result<Vec<Mark>, NoMemory>
    requires passes { pass.old.known.passes ≡ passes }
    requires own { (x : ℕ) → 0 < times x pass.old.known → x < length pass.old.known.seen }
    ensures order { OnOk result (IsPrefix pass.old.known.seen pass.new.known.seen) }
    ensures mine { OnOk result (pass.new.known.mine ≡ pass.old.known.mine) }
    ensures whole { OnOk result (HasEach pass.new.known (length pass.new.known.seen)) }
    ensures marks { IfOk result (λ ms. ms.items ≡ marks_of T.stated 0 pass.new.known.seen) }
    ensures read { OnOk result (length pass.new.known.seen ≤ pass.new.read) }
{
    let History { marks, read } = session.history(rt, pass)?;
    let made = session.passes_made(rt, pass);
    if made != u64::from(passes) || read < marks.len() {
        return Err(NoMemory);
    }
    Ok(marks)
}

/// What is told of the list that a pass has read, by these replies.
fn tell_own<B: Room, T: Reads>(
    alloc: Global,
    pass: &Pass<B, T>,
    marks: &[Mark],
    replies: &[Reply],
) -> Result<SessionReport, NoMemory>
    requires marks { marks.now ≡ marks_of T.stated 0 pass.now.known.seen }
    requires read { length pass.now.known.seen ≤ pass.now.read }
    requires fit { AreWithin (length (units_of T.stated pass.now.known.seen)) replies.now }
    ensures { IfOk result (λ r. (budget : ℕ)
        → AreRight T.stated budget pass.now.known.seen replies.now
        → IsListReport T.stated pass.now.known.seen budget r) }
{
    let library = pass.library();
    let verdicts = verdicts_by(alloc, library.units().len(), replies)?;
    let text = tell(alloc, library, marks, &verdicts)?;
    Ok(SessionReport { text, verdicts })
}

/// What is told of the texts, by callers of a new session.
fn check_by<B, T, C, G, R>(
    rt: &R,
    alloc: Global,
    opened: Opened,
    texts: &[Vec<u8>],
    callers: u32,
    checks: &C,
    gate: &G,
) -> Result<SessionReport, SessionError>
where
    B: Room + Send + Sync,
    T: Reads + Send + Sync,
    C: Checks + Sync,
    G: Gate,
    R: Threads + Wait + Sync,
    requires room { opened.table.shared.table_id ≡ B.table }
    requires callers { 1 ≤ callers }
    requires faultless { AreFaultless T.stated (bytes_in texts.now) }
    ensures ok { IfOk result (IsSessionReport T.stated (bytes_in texts.now) callers
        (C.budget_of checks.now)) }
    ensures few { OnOk result (length (all_units T.stated (bytes_in texts.now)) ≤ 65536) }
    ensures full { result ≡ Err Full → 65536 < length (all_units T.stated (bytes_in texts.now)) }
{
    let (session, first) = opened.named::<B, T>();
    let passes = split_passes(alloc, &session, first, callers)?;
    let turns = Turns {
        callers,
        passes: passes.len() as u32,
    };
    let called = call_all(rt, &session, passes, checks, gate, texts, turns)?;
    let Called {
        number: _,
        mut pass,
        replies,
        full,
    } = gather(&session, called)?;
    let marks = own_list(rt, &session, &mut pass, turns.passes)?;
    if full {
        return Err(SessionError::Full);
    }
    // The session sees to it that its list is no longer, which no call of it says.
    if pass.library().units().len() > MOST_UNITS {
        return Err(SessionError::Full);
    }
    let report = tell_own(alloc, &pass, &marks, &replies)?;
    Ok(report)
}

/// Has texts added to one list by so many callers at one time, each of which takes those whose turn
/// it is, in their order, and their units checked; and tells of them in the order of the list. The
/// gate is told how many lines declare units, and of each unit before it is checked.
///
/// Where these lines are more than a list has room for, the units are counted first, so that nothing
/// is checked where they are too many; where they are fewer, the units are too.
pub fn check_texts<C: Checks + Sync, G: Gate, R: Threads + Wait + Sync>(
    rt: &R,
    alloc: Global,
    texts: &[Vec<u8>],
    callers: u32,
    checks: &C,
    gate: &G,
) -> Result<SessionReport, SessionError>
    requires callers { 1 ≤ callers }
    requires faultless { AreFaultless text_of (bytes_in texts.now) }
    ensures ok { IfOk result (IsSessionReport text_of (bytes_in texts.now) callers
        (C.budget_of checks.now)) }
    ensures few { OnOk result (length (all_units text_of (bytes_in texts.now)) ≤ 65536) }
    ensures full { result ≡ Err Full → 65536 < length (all_units text_of (bytes_in texts.now)) }
{
    let lines = declaring_lines(texts);
    if lines > MOST_UNITS as u64 && !have_room::<TextReader>(alloc, texts)? {
        return Err(SessionError::Full);
    }
    gate.begins(lines);
    let opened = Opened::new(alloc)?;
    check_by::<Brand, TextReader, C, G, R>(rt, alloc, opened, texts, callers, checks, gate)
}
