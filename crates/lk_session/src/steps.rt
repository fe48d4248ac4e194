//! The steps of a session's seats.

ghost use Rattle.std.specs.Prelude.{◌≡◌, ℕ, ◌+◌, ◌^◌, ◌<◌, ◌≤◌, true, false, [], length, IfSome, IfNone};
ghost use mathlib.Core.List.{IsPrefix};
ghost use Rattle.lk_session.specs.Rule.{book_view, pass_view, times};
ghost use Rattle.lk_session.specs.Seats.{known, IsCaller};
ghost use Rattle.lk_session.specs.Steps.{met, counted, parted, both_views, AreOnce, HasEach};

use crate::table::{Asks, Call, Counts, Cuts, InSession, Looks, Meets, Merges, Parts, Tells};
use crate::view::View;

/// What a thread steps with.
pub type Token = atomic_table::Seat<u8, View>;

/// What threads share.
pub type Shared = atomic_table::Shared<u8, View, u8, InSession>;

const MOST_PASSES: u64 = 65536;

/// Meet: the book's seat takes in a caller's, and sees that the caller's list begins its own.
pub fn meet(shared: &Shared, book: &mut Token, caller: Token)
    requires shared { shared.now.table_id.words ≡ 2 }
    requires book { (book.old.table_id ≡ shared.now.table_id) × ((known book.old).keeps ≡ true) }
    requires caller { IsCaller shared.now.table_id caller }
    ensures of { book.new.table_id ≡ book.old.table_id }
    ensures met { book.new.me ≡ (met (known book.old) (known caller), book.old.me.1) }
    ensures order { IsPrefix (known caller).seen (known book.old).seen }
    ensures places { AreOnce (known book.new) (length (known book.old).seen) }
{
    shared.join_seat::<Meets>(book, caller);
    let _calls = shared.load::<Looks>(book, 0);
}

/// How many passes were made. Where the pass in the book's seat came from them all, each submission
/// is its own.
pub fn tell(shared: &Shared, book: &mut Token) -> u64
    requires shared { shared.now.table_id.words ≡ 2 }
    requires book { (book.old.table_id ≡ shared.now.table_id) × ((known book.old).keeps ≡ true) }
    ensures same { (book.new.table_id ≡ book.old.table_id) × (book.new.me ≡ book.old.me) }
    ensures most { (known book.old).passes ≤ result }
    ensures whole { (known book.old).passes ≡ result
        → HasEach (known book.old) (length (known book.old).seen) }
{
    shared.load::<Tells>(book, 1)
}

/// Count: the call is the last of the list.
pub fn count<N: Call>(shared: &Shared, book: &mut Token) -> u64
    requires shared { shared.now.table_id.words ≡ 2 }
    requires book { (book.old.table_id ≡ shared.now.table_id) × ((known book.old).keeps ≡ true) }
    requires few { length (known book.old).seen + 1 < 2 ^ 64 }
    ensures of { book.new.table_id ≡ book.old.table_id }
    ensures counted { book.new.me ≡ (counted N.call result (known book.old), book.old.me.1) }
    ensures place { result ≡ length (known book.old).seen }
    ensures places { AreOnce (known book.old) result }
{
    shared.fetch_add::<Counts<N>>(book, 0, 1)
}

/// Part: the caller's seat comes out of the book's.
pub fn part(shared: &Shared, book: &mut Token) -> Token
    requires shared { shared.now.table_id.words ≡ 2 }
    requires book { (book.old.table_id ≡ shared.now.table_id) × ((known book.old).keeps ≡ true) }
    requires alive { 0 < (known book.old).passes }
    ensures of { (book.new.table_id ≡ book.old.table_id) × (result.table_id ≡ book.old.table_id) }
    ensures left { book.new.me ≡ (book_view (known book.old).seen, book.old.me.1) }
    ensures caller { result.me ≡ (parted (known book.old), []) }
{
    shared.split_seat::<Parts>(book)
}

/// Split: a second seat that has seen as much. `None` comes exactly where 65,536 passes were made.
pub fn cut(shared: &Shared, seat: &mut Token) -> Option<Token>
    requires shared { shared.now.table_id.words ≡ 2 }
    requires seat { IsCaller shared.now.table_id seat.old }
    requires clear { (known seat.old).refusals ≡ 0 }
    ensures of { (seat.new.table_id ≡ seat.old.table_id) × (seat.new.me.1 ≡ seat.old.me.1) }
    ensures some { IfSome result (λ s. (s.table_id ≡ seat.old.table_id)
        × (s.me ≡ (pass_view (known seat.old).seen, [])) × (known seat.new ≡ known seat.old)) }
    ensures none { IfNone result (known seat.new ≡ record (known seat.old) { refusals = 1 }) }
{
    let found = shared.fetch_add::<Asks>(seat, 1, 1);
    if found >= MOST_PASSES {
        return None;
    }
    Some(shared.split_seat::<Cuts>(seat))
}

/// Join: one seat takes in another, and sees that both their lists begin its own.
pub fn merge(shared: &Shared, seat: &mut Token, other: Token)
    requires shared { shared.now.table_id.words ≡ 2 }
    requires seat { IsCaller shared.now.table_id seat.old }
    requires other { IsCaller shared.now.table_id other }
    ensures of { seat.new.table_id ≡ seat.old.table_id }
    ensures both { seat.new.me ≡ (both_views (known seat.old) (known other), seat.old.me.1) }
    ensures order { IsPrefix (known seat.old).seen (known seat.new).seen
        × IsPrefix (known other).seen (known seat.new).seen }
    ensures places { (x : ℕ) → times x (known seat.new) ≤ 1 }
{
    shared.join_seat::<Merges>(seat, other);
    let _calls = shared.load::<Looks>(seat, 0);
}
