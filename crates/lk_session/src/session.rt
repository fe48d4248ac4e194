//! A session, and its calls but `submit`.

ghost use Rattle.std.specs.Prelude.{◌≡◌, ℕ, ◌++◌, ◌<◌, ◌≤◌, length, [], IfOk, IfSome, IfNone, IsNone, OnOk, OnErr};
ghost use mathlib.Core.List.{IsPrefix};
ghost use Rattle.lk_session.specs.Rule.{book_view, pass_view, times};
ghost use Rattle.lk_session.specs.Steps.{shown, both_views, AreOnce, HasEach};
ghost use Rattle.lk_session.specs.Texts.{marks_of};
ghost use Rattle.lk_session.specs.Reading.{AreBehind};

use crate::book::Book;
use crate::caller::Caller;
use crate::found::Found;
use crate::list_reader::ListReader;
use crate::pass::Pass;
use crate::reply::History;
use crate::room::Room;
use crate::steps::{Shared, Token, cut, merge, part};
use crate::table::InSession;
use crate::texts::Reads;
use crate::view::View;
use atomic_table::Table;
use lk_store::memory::NoMemory;
use std::alloc::Global;
use std::marker::PhantomData;
use std::sync::{Mutex, Wait};

/// A session that has no name yet.
#[derive(Drop)]
pub struct Opened {
    alloc: Global,
    pub(crate) table: Table<u8, View, u8, InSession, Global>,
    book: Token,
    caller: Token,
    ghost words: { table.shared.table_id.words ≡ 2 },
    ghost book_is: { (book.table_id ≡ table.shared.table_id) },
    ghost book_view_is: { (book.me ≡ (book_view [], [])) },
    ghost caller_is: { (caller.table_id ≡ table.shared.table_id) },
    ghost caller_view_is: { (caller.me ≡ (pass_view [], [])) },
}

/// What threads share: the table, and the list under its lock.
#[derive(Drop)]
pub struct Session<B: Room, T: Reads> {
    pub(crate) alloc: Global,
    pub(crate) table: Table<u8, View, u8, InSession, Global>,
    pub(crate) book: Mutex<Book<B, T>>,
    ghost words: { table.shared.table_id.words ≡ 2 },
    ghost table_is: { table.shared.table_id ≡ B.table },
}

/// A pass that has read nothing.
fn new_pass<B: Room, T: Reads>(alloc: Global, caller: Caller<B>) -> Pass<B, T>
    ensures known { result.known ≡ caller }
    ensures read { result.read ≡ 0 }
{
    Pass {
        caller,
        reader: ListReader::new(alloc),
        texts: PhantomData,
    }
}

impl Opened {
    /// The table, the empty list and both seats.
    pub fn new(alloc: Global) -> Result<Opened, NoMemory> {
        let (table, mut book) = Table::of_words(alloc, &[0, 1], &0)?;
        let caller = part(&table.shared, &mut book);
        Ok(Opened {
            alloc,
            table,
            book,
            caller,
        })
    }

    /// The session under a name, and its first pass. It takes no memory.
    pub fn named<B: Room, T: Reads>(self) -> (Session<B, T>, Pass<B, T>)
        requires { self.table.shared.table_id ≡ B.table }
        ensures known { result.1.known ≡ pass_view [] }
        ensures read { result.1.read ≡ 0 }
    {
        let Opened {
            alloc,
            table,
            book,
            caller,
        } = self;
        let book = Book {
            seat: book,
            texts: Vec::new(alloc),
            marks: Vec::new(alloc),
            units: 0,
            room: PhantomData,
            reads: PhantomData,
        };
        let session = Session {
            alloc,
            table,
            book: Mutex::new(book),
        };
        let caller = Caller {
            seat: Some(caller),
            refused: false,
            room: PhantomData,
        };
        (session, new_pass(alloc, caller))
    }
}

/// The second seat that has seen as much. `None` comes exactly where 65,536 passes were made, as
/// the step found or the seat had noted.
fn split_caller<B: Room>(shared: &Shared, caller: &mut Caller<B>) -> Option<Caller<B>>
    requires shared { (shared.now.table_id ≡ B.table) × (shared.now.table_id.words ≡ 2) }
    ensures some { IfSome result (λ p. (p ≡ pass_view caller.old.seen)
        × (caller.new ≡ caller.old) × (caller.old.refusals ≡ 0)) }
    ensures none { IfNone result ((0 < caller.new.refusals)
        × (caller.new ≡ record caller.old { refusals = caller.new.refusals })) }
    ensures noted { IfNone result (caller.old.refusals ≡ 0 → caller.new.refusals ≡ 1) }
    ensures refusals { 0 < caller.old.refusals → IsNone result × (caller.new ≡ caller.old) }
{
    if caller.refused {
        return None;
    }
    let mut seat = caller.seat.take().unwrap();
    let second = cut(shared, &mut seat);
    caller.seat = Some(seat);
    match second {
        None => {
            caller.refused = true;
            None
        }
        Some(seat) => Some(Caller {
            seat: Some(seat),
            refused: false,
            room: PhantomData,
        }),
    }
}

/// One seat takes in another.
fn join_callers<B: Room>(shared: &Shared, caller: &mut Caller<B>, other: Caller<B>)
    requires shared { (shared.now.table_id ≡ B.table) × (shared.now.table_id.words ≡ 2) }
    ensures order { IsPrefix caller.old.seen caller.new.seen × IsPrefix other.seen caller.new.seen }
    ensures places { (x : ℕ) → times x caller.new ≤ 1 }
    ensures both { caller.new ≡ both_views caller.old other }
{
    let Caller {
        seat: second,
        refused,
        room: _,
    } = other;
    let mut seat = caller.seat.take().unwrap();
    merge(shared, &mut seat, second.unwrap());
    caller.seat = Some(seat);
    caller.refused = caller.refused || refused;
}

impl<B: Room, T: Reads> Session<B, T> {
    /// The part of `history` under the lock.
    fn find<R: Wait>(&self, rt: &R, pass: &mut Pass<B, T>) -> Result<Found, NoMemory>
        ensures marks { IfOk result (λ f.
            f.marks.items ≡ marks_of T.stated 0 pass.new.known.seen) }
        ensures texts { IfOk result (λ f.
            AreBehind T.stated pass.new.read pass.new.known.seen f.texts.items) }
        ensures order { OnOk result (IsPrefix pass.old.known.seen pass.new.known.seen) }
        ensures rest { OnOk result (pass.new.known
            ≡ shown pass.new.known.seen pass.old.known) }
        ensures places { OnOk result (AreOnce pass.new.known (length pass.new.known.seen)) }
        ensures err { OnErr result (pass.new ≡ pass.old) }
    {
        let mut book = self.book.lock(rt);
        let read = pass.reader.count;
        book.find(self.alloc, &self.table.shared, &mut pass.caller, read)
    }

    /// What is told of the list's submissions, whose units the pass's library then has. Want of
    /// memory is told only where nothing was done.
    pub fn history<R: Wait>(&self, rt: &R, pass: &mut Pass<B, T>) -> Result<History, NoMemory>
        ensures marks { IfOk result (λ h.
            h.marks.items ≡ marks_of T.stated 0 pass.new.known.seen) }
        ensures read { IfOk result (λ h. h.read ≡ pass.new.read) }
        ensures order { OnOk result (IsPrefix pass.old.known.seen pass.new.known.seen) }
        ensures rest { OnOk result (pass.new.known
            ≡ shown pass.new.known.seen pass.old.known) }
        ensures places { OnOk result (AreOnce pass.new.known (length pass.new.known.seen)) }
        ensures err { OnErr result (pass.new ≡ pass.old) }
    {
        let Found { marks, texts } = self.find(rt, pass)?;
        let _read = pass.catch_up(self.alloc, &texts);
        Ok(History {
            marks,
            read: pass.read(),
        })
    }

    /// How many passes were made. Where this one came from them all, each submission of the list is
    /// its own.
    pub fn passes_made<R: Wait>(&self, rt: &R, pass: &mut Pass<B, T>) -> u64
        ensures order { IsPrefix pass.old.known.seen pass.new.known.seen }
        ensures rest { pass.new.known ≡ shown pass.new.known.seen pass.old.known }
        ensures read { pass.new.read ≡ pass.old.read }
        ensures most { pass.old.known.passes ≤ result }
        ensures whole { pass.old.known.passes ≡ result
            → HasEach pass.new.known (length pass.new.known.seen) }
    {
        let mut book = self.book.lock(rt);
        book.tell(&self.table.shared, &mut pass.caller)
    }

    /// A second pass that has seen as much, and has read nothing. `None` comes exactly where 65,536
    /// passes were made, as the step found or the pass had noted.
    pub fn split(&self, pass: &mut Pass<B, T>) -> Option<Pass<B, T>>
        ensures some { IfSome result (λ p. (p.known ≡ pass_view pass.old.known.seen)
            × (pass.new.known ≡ pass.old.known) × (pass.old.known.refusals ≡ 0)) }
        ensures none { IfNone result ((0 < pass.new.known.refusals)
            × (pass.new.known ≡ record pass.old.known { refusals = pass.new.known.refusals })) }
        ensures noted { IfNone result
            (pass.old.known.refusals ≡ 0 → pass.new.known.refusals ≡ 1) }
        ensures refusals { 0 < pass.old.known.refusals
            → IsNone result × (pass.new.known ≡ pass.old.known) }
        ensures read { pass.new.read ≡ pass.old.read }
    {
        let second = split_caller(&self.table.shared, &mut pass.caller)?;
        Some(new_pass(self.alloc, second))
    }

    /// One pass takes in all of another. It keeps the library of the one that has read more.
    pub fn join(&self, pass: &mut Pass<B, T>, other: Pass<B, T>)
        ensures order { IsPrefix pass.old.known.seen pass.new.known.seen
            × IsPrefix other.known.seen pass.new.known.seen }
        ensures mine { pass.new.known.mine ≡ pass.old.known.mine ++ other.known.mine }
        ensures places { (x : ℕ) → times x pass.new.known ≤ 1 }
        ensures both { pass.new.known ≡ both_views pass.old.known other.known }
        ensures read { (pass.old.read ≤ pass.new.read) × (other.read ≤ pass.new.read) }
    {
        let Pass {
            caller,
            reader,
            texts: _,
        } = other;
        join_callers(&self.table.shared, &mut pass.caller, caller);
        pass.reader.keep_longer(reader);
    }
}
