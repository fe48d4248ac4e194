//! What one pass does: it adds the texts whose turn it is, one after another.

ghost use Rattle.std.specs.Prelude.{◌≡◌, ◌+◌, ◌<◌, ◌≤◌, ℕ, false, length, IfOk, OnOk};
ghost use Rattle.lk_lines.specs.declared.line.Fault.{Fault as LineFault};
ghost use Rattle.lk_session.specs.declared.error.SubmitError.TheVariants.{Fault, Full};
ghost use Rattle.lk_session.specs.Texts.{AreFaultless};
ghost use Rattle.lk_callers.specs.Turns.{AreTurns, pass_of};
ghost use Rattle.lk_callers.specs.Owned.{bytes_in};
ghost use Rattle.lk_callers.specs.Answered.{IsCalled};

use crate::turns::Turns;
use lk_port::Gate;
use lk_session::{Pass, Reads, Reply, Room, Session, SubmitError};
use lk_store::memory::NoMemory;
use lk_verdict::Checks;
use std::alloc::Global;
use std::sync::Wait;

/// What a pass came to: what it was told of its texts, and whether the list had no room left for
/// one of them, which ends it.
#[derive(Drop)]
pub(crate) struct Called<B: Room, T: Reads> {
    /// The number of the pass.
    pub(crate) number: u32,
    pub(crate) pass: Pass<B, T>,
    pub(crate) replies: Vec<Reply>,
    pub(crate) full: bool,
}

/// That the list was full, where a text that has no fault was refused for it.
fn expect_full(error: SubmitError) -> Result<(), NoMemory>
    requires { (f : LineFault) → error ≡ Fault f → ⊥ }
    ensures { OnOk result ((units : ℕ) × (error ≡ Full units)) }
{
    match error {
        SubmitError::Full { .. } => Ok(()),
        SubmitError::NoMemory => Err(NoMemory),
        SubmitError::Fault(_) => unreachable!(),
    }
}

impl<B: Room, T: Reads> Called<B, T> {
    /// Adds a text whose turn it is.
    fn submit<C: Checks, G: Gate, R: Wait>(
        &mut self,
        rt: &R,
        session: &Session<B, T>,
        checks: &C,
        gate: &G,
        texts: &[Vec<u8>],
        turns: Turns,
        text: usize,
    ) -> Result<(), NoMemory>
        requires turn { pass_of turns text ≡ self.old.number }
        requires within { text < length texts.now }
        requires faultless { AreFaultless T.stated (bytes_in texts.now) }
        requires not_full { self.old.full ≡ false }
        requires called { IsCalled T.stated (bytes_in texts.now) turns (C.budget_of checks.now)
            text self.old.number self.old }
        ensures { OnOk result (IsCalled T.stated (bytes_in texts.now) turns
            (C.budget_of checks.now) (text + 1) self.old.number self.new) }
    {
        self.replies.reserve(1)?;
        let reply = session.submit(
            rt,
            &mut self.pass,
            checks,
            gate,
            text as u64,
            texts[text].as_slice(),
        );
        match reply {
            Ok(reply) => {
                self.replies.push_reserved(reply);
                Ok(())
            }
            Err(error) => {
                expect_full(error)?;
                self.full = true;
                Ok(())
            }
        }
    }

    /// Lets a text have its turn, if it is one of this pass and the list was not full.
    fn take_turn<C: Checks, G: Gate, R: Wait>(
        &mut self,
        rt: &R,
        session: &Session<B, T>,
        checks: &C,
        gate: &G,
        texts: &[Vec<u8>],
        turns: Turns,
        text: usize,
    ) -> Result<(), NoMemory>
        requires turns { AreTurns turns }
        requires within { text < length texts.now }
        requires faultless { AreFaultless T.stated (bytes_in texts.now) }
        requires called { IsCalled T.stated (bytes_in texts.now) turns (C.budget_of checks.now)
            text self.old.number self.old }
        ensures { OnOk result (IsCalled T.stated (bytes_in texts.now) turns
            (C.budget_of checks.now) (text + 1) self.old.number self.new) }
    {
        if self.full || turns.pass_of(text) != self.number as usize {
            return Ok(());
        }
        self.submit(rt, session, checks, gate, texts, turns, text)
    }

    /// Lets all texts have their turn.
    pub(crate) fn submit_all<C: Checks, G: Gate, R: Wait>(
        mut self,
        rt: &R,
        session: &Session<B, T>,
        checks: &C,
        gate: &G,
        texts: &[Vec<u8>],
        turns: Turns,
    ) -> Result<Called<B, T>, NoMemory>
        requires turns { AreTurns turns }
        requires faultless { AreFaultless T.stated (bytes_in texts.now) }
        requires called { IsCalled T.stated (bytes_in texts.now) turns (C.budget_of checks.now)
            0 self.number self }
        ensures { IfOk result (λ c. IsCalled T.stated (bytes_in texts.now) turns
            (C.budget_of checks.now) (length texts.now) self.number c) }
    {
        for text in 0..texts.len() {
            self.take_turn(rt, session, checks, gate, texts, turns, text)?;
        }
        Ok(self)
    }
}
