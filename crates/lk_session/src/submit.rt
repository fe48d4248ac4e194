//! A caller adds a text to the list, and is told the verdicts of its units.

ghost use Rattle.std.specs.Prelude.{◌≡◌, IfOk, IfErr};
ghost use Rattle.lk_session.specs.Texts.{bytes_of};
ghost use Rattle.lk_session.specs.Answers.{offered, IsOffer, IsEntered, IsSubmitted, IsRefused};

use crate::book::MOST_UNITS;
use crate::checking::unanswered;
use crate::error::SubmitError;
use crate::found::{Entered, Offer};
use crate::pass::Pass;
use crate::reply::Reply;
use crate::room::Room;
use crate::session::Session;
use crate::texts::{Reads, share_text};
use lk_port::Gate;
use lk_verdict::Checks;
use std::sync::Wait;

impl<B: Room, T: Reads> Session<B, T> {
    /// The call's part under the lock.
    fn enter<R: Wait>(
        &self,
        rt: &R,
        pass: &mut Pass<B, T>,
        offer: Offer,
    ) -> Result<Entered, SubmitError>
        requires { IsOffer T.stated offer }
        ensures ok { IfOk result (IsEntered T.stated pass.old.read (offered offer) pass.old.known
            pass.new.known) }
        ensures err { IfErr result (IsRefused T.stated (bytes_of offer.text) pass.old.known
            pass.new.known) }
        ensures read { pass.new.read ≡ pass.old.read }
    {
        let mut book = self.book.lock(rt);
        let read = pass.reader.count;
        book.enter(
            self.alloc,
            &self.table.shared,
            &mut pass.caller,
            read,
            offer,
        )
    }

    /// Adds the text's units to the end of the list, together and in order, and checks them. The
    /// text is read alone before anything else, and its fault told. Want of memory is told only
    /// where nothing was done; later it is the verdict of the units that it concerns. The lock is
    /// free while texts are read and while units are checked.
    pub fn submit<C: Checks, G: Gate, R: Wait>(
        &self,
        rt: &R,
        pass: &mut Pass<B, T>,
        checks: &C,
        gate: &G,
        tag: u64,
        text: &[u8],
    ) -> Result<Reply, SubmitError>
        ensures ok { IfOk result (IsSubmitted T.stated (C.budget_of checks.now)
            (record { tag = tag; text = text.now }) pass.old.known pass.new.known) }
        ensures err { IfErr result (IsRefused T.stated text.now pass.old.known pass.new.known) }
    {
        let count = T::count(self.alloc, text)?;
        let mut verdicts = unanswered(self.alloc, count.min(MOST_UNITS))?;
        let shared = share_text(self.alloc, text)?;
        let offer = Offer {
            tag,
            text: shared,
            count,
        };
        let Entered { first, texts } = self.enter(rt, pass, offer)?;
        pass.answer(self.alloc, checks, gate, &texts, first, &mut verdicts);
        Ok(Reply { first, verdicts })
    }
}
