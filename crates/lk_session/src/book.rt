//! What lies under the lock.

ghost use Rattle.std.specs.Prelude.{◌≡◌, ◌+◌, ◌<◌, ◌≤◌, ◌++◌, ◌∷◌, [], length, IfOk, IfErr, OnOk, OnErr};
ghost use mathlib.Core.List.{IsPrefix};
ghost use Rattle.lk_session.specs.Rule.{times};
ghost use Rattle.lk_session.specs.Steps.{shown, added, AreOnce, HasEach};
ghost use Rattle.lk_session.specs.Texts.{bytes_of, units_of, marks_of};
ghost use Rattle.lk_session.specs.Reading.{AreBehind};
ghost use Rattle.lk_session.specs.Answers.{offered, IsOffer, IsEntered, IsRefused};

use crate::caller::Caller;
use crate::error::SubmitError;
use crate::found::{Entered, Found, Offer};
use crate::mark::Mark;
use crate::room::Room;
use crate::steps::{Shared, Token, count, meet, part, tell};
use crate::table::Call;
use crate::texts::{Reads, Text, share_again};
use lk_store::memory::NoMemory;
use std::alloc::Global;
use std::marker::{Brand, Model, PhantomData};
use std::sync::Arc;

/// A list has at most this many units.
pub(crate) const MOST_UNITS: usize = 65536;

/// The book's seat, with the list that it has seen: its texts, what is told of each, and how many
/// units there are. Contracts see it as the list of submissions.
#[derive(Drop)]
pub(crate) struct Book<B: Room, T: Reads> {
    pub(crate) seat: Token,
    pub(crate) texts: Vec<Text>,
    pub(crate) marks: Vec<Mark>,
    pub(crate) units: u32,
    pub(crate) room: PhantomData<B>,
    pub(crate) reads: PhantomData<T>,
}

impl<B: Room, T: Reads> Model for Book<B, T> {
    ghost use Rattle.std.specs.Prelude.{List};
    ghost use Rattle.lk_session.specs.declared.view.Submission.{Submission};
    ghost use Rattle.lk_session.specs.Seats.{IsBook, known};

    ghost Value = { List Submission };

    ghost view = { λ b. (known b.seat).seen };

    ghost invariant = { λ b. IsBook B.table T.stated b.seat b.texts.items b.marks.items b.units };
}

impl<B: Room, T: Reads> Book<B, T> {
    /// Meet and Part: the caller sees the list as it is.
    pub(crate) fn show(&mut self, shared: &Shared, caller: &mut Caller<B>)
        requires shared { (shared.now.table_id ≡ B.table) × (shared.now.table_id.words ≡ 2) }
        ensures same { self.new ≡ self.old }
        ensures shown { caller.new ≡ shown self.old caller.old }
        ensures order { IsPrefix caller.old.seen self.old }
        ensures places { AreOnce caller.new (length self.old) }
    {
        let seat = caller.seat.take().unwrap();
        meet(shared, &mut self.seat, seat);
        caller.seat = Some(part(shared, &mut self.seat));
    }

    /// Meet and Part, and between them a look at how many passes were made.
    pub(crate) fn tell(&mut self, shared: &Shared, caller: &mut Caller<B>) -> u64
        requires shared { (shared.now.table_id ≡ B.table) × (shared.now.table_id.words ≡ 2) }
        ensures same { self.new ≡ self.old }
        ensures shown { caller.new ≡ shown self.old caller.old }
        ensures order { IsPrefix caller.old.seen self.old }
        ensures most { caller.old.passes ≤ result }
        ensures whole { caller.old.passes ≡ result → HasEach caller.new (length self.old) }
    {
        let seat = caller.seat.take().unwrap();
        meet(shared, &mut self.seat, seat);
        let made = tell(shared, &mut self.seat);
        caller.seat = Some(part(shared, &mut self.seat));
        made
    }

    /// The texts behind the first ones, so many.
    fn texts_behind(&self, alloc: Global, read: usize) -> Result<Vec<Text>, NoMemory>
        ensures { IfOk result (λ ts. AreBehind T.stated read self.now ts.items) }
    {
        // Before the step it is not known that the caller has read no more than there is.
        let start = read.min(self.texts.len());
        let (_read, behind) = self.texts.as_slice().split_at(start);
        let texts = share_again(alloc, behind)?;
        Ok(texts)
    }

    /// Meet and Part, with what is told of each submission, and the texts that the caller has not
    /// read.
    pub(crate) fn find(
        &mut self,
        alloc: Global,
        shared: &Shared,
        caller: &mut Caller<B>,
        read: usize,
    ) -> Result<Found, NoMemory>
        requires shared { (shared.now.table_id ≡ B.table) × (shared.now.table_id.words ≡ 2) }
        requires read { read ≤ length caller.old.seen }
        ensures same { self.new ≡ self.old }
        ensures marks { IfOk result (λ f. f.marks.items ≡ marks_of T.stated 0 self.old) }
        ensures texts { IfOk result (λ f. AreBehind T.stated read self.old f.texts.items) }
        ensures shown { OnOk result (caller.new ≡ shown self.old caller.old) }
        ensures order { OnOk result (IsPrefix caller.old.seen self.old) }
        ensures places { OnOk result (AreOnce caller.new (length self.old)) }
        ensures err { OnErr result (caller.new ≡ caller.old) }
    {
        let texts = self.texts_behind(alloc, read)?;
        let mut marks = Vec::new(alloc);
        marks.extend_from_slice(self.marks.as_slice())?;
        self.show(shared, caller);
        Ok(Found { marks, texts })
    }

    /// Meet, Count and Part: the call is the list's last.
    pub(crate) fn add<N: Call>(
        &mut self,
        alloc: Global,
        shared: &Shared,
        caller: &mut Caller<B>,
        read: usize,
        offer: Offer,
    ) -> Result<Entered, NoMemory>
        requires shared { (shared.now.table_id ≡ B.table) × (shared.now.table_id.words ≡ 2) }
        requires call { N.call ≡ offered offer }
        requires offer { IsOffer T.stated offer }
        requires read { read ≤ length caller.old.seen }
        requires few { length (units_of T.stated self.old) + offer.count ≤ 65536 }
        ensures list { OnOk result (self.new ≡ self.old ++ N.call ∷ []) }
        ensures first { IfOk result (λ e. e.first ≡ length (units_of T.stated self.old)) }
        ensures texts { IfOk result (λ e.
            AreBehind T.stated read (self.old ++ N.call ∷ []) e.texts.items) }
        ensures added { OnOk result (caller.new ≡ added N.call self.old caller.old) }
        ensures order { OnOk result (IsPrefix caller.old.seen self.old) }
        ensures place { OnOk result (times (length self.old) caller.old ≡ 0) }
        ensures err { OnErr result ((self.new ≡ self.old) × (caller.new ≡ caller.old)) }
    {
        let first = self.units;
        let mut texts = self.texts_behind(alloc, read)?;
        texts.push(Arc::try_clone(&offer.text)?)?;
        self.texts.reserve(1)?;
        self.marks.reserve(1)?;
        let seat = caller.seat.take().unwrap();
        meet(shared, &mut self.seat, seat);
        let _place = count::<N>(shared, &mut self.seat);
        caller.seat = Some(part(shared, &mut self.seat));
        let Offer { tag, text, count } = offer;
        self.texts.push_reserved(text);
        self.marks.push_reserved(Mark {
            tag,
            first,
            count: count as u32,
        });
        self.units = first + count as u32;
        Ok(Entered { first, texts })
    }

    /// The call's part under the lock.
    pub(crate) fn enter(
        &mut self,
        alloc: Global,
        shared: &Shared,
        caller: &mut Caller<B>,
        read: usize,
        offer: Offer,
    ) -> Result<Entered, SubmitError>
        requires shared { (shared.now.table_id ≡ B.table) × (shared.now.table_id.words ≡ 2) }
        requires offer { IsOffer T.stated offer }
        requires read { read ≤ length caller.old.seen }
        ensures ok { IfOk result (IsEntered T.stated read (offered offer) caller.old caller.new) }
        ensures err { IfErr result (IsRefused T.stated (bytes_of offer.text) caller.old
            caller.new) }
    {
        if offer.count > MOST_UNITS - self.units as usize {
            self.show(shared, caller);
            return Err(SubmitError::Full { units: self.units });
        }
        let entered = self.add::<Brand>(alloc, shared, caller, read, offer)?;
        Ok(entered)
    }
}
