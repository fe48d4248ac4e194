//! The lines of a buffer.
ghost use Rattle.std.specs.Prelude.{◌≡◌, ◌+◌, ◌∷◌, ◌++◌, ℕ, List, length, MatchOption, IfOk, IfErr, OnOk};
ghost use Rattle.lk_store.specs.Contents.{Extends};
ghost use Rattle.lk_token.specs.Lines.{HasNoLineFeed};
ghost use Rattle.lk_book.specs.File.{lines_of};
ghost use Rattle.lk_book.specs.Courses.{over, IsCounted, Goes, Passes, Stops};

use crate::LineReader;
use bstr::ByteSlice;
use lk_lines::LineError;
use lk_store::terms::Terms;
use std::alloc::Global;

/// The first line of bytes, and what stands behind its line feed.
#[tactic(auto, using(crate::proofs::FirstLines::cut_lem, crate::proofs::FirstLines::none_lem))]
pub fn cut(bytes: &[u8]) -> Option<(&[u8], &[u8])>
    ensures { MatchOption result (HasNoLineFeed bytes.now)
        (λ r. HasNoLineFeed r.0.now × (bytes.now ≡ r.0.now ++ 10 ∷ r.1.now)) }
{
    let end = bytes.find_byte(b'\n')?;
    Some((&bytes[..end], &bytes[end + 1..]))
}

/// Takes each line of bytes that a line feed ends, and gives what is left behind the last of them.
#[tactic(auto, using(lk_units::proofs::Holding::unchanged))]
fn take_lines<'p, T: Terms, R: LineReader<T>>(
    alloc: Global,
    store: &mut T,
    reader: &mut R,
    bytes: &'p [u8],
) -> Result<&'p [u8], LineError>
    requires known { R.is_known reader.old (T.contents store.old) }
    requires counted { IsCounted (R.number reader.old) (R.before reader.old) }
    ensures keeps { Extends (T.contents store.old) (T.contents store.new) }
    ensures rest { T.rest store.new ≡ T.rest store.old }
    ensures known { OnOk result (R.is_known reader.new (T.contents store.new)) }
    ensures counted { OnOk result (IsCounted (R.number reader.new) (R.before reader.new)) }
    ensures unfinished { IfOk result (λ rest. HasNoLineFeed rest.now) }
    ensures length { IfOk result (λ rest. R.before reader.new + length rest.now
        ≡ R.before reader.old + length bytes.now) }
    ensures passes { (c : R.Course) → R.stands reader.old (T.contents store.old) c
        → IfOk result (λ rest. Passes R.step (R.stands reader.new (T.contents store.new)) c
        bytes.now rest.now) }
    ensures stops { (c : R.Course) → R.stands reader.old (T.contents store.old) c
        → IfErr result (λ e. Stops R.step e c bytes.now) }
{
    let mut rest = bytes;
    while let Some((line, more)) = cut(rest) {
        reader.take(alloc, store, true, line)?;
        rest = more;
    }
    Ok(rest)
}

/// Takes all lines of bytes, of which each but the last has a line feed.
pub(crate) fn read_bytes<T: Terms, R: LineReader<T>>(
    alloc: Global,
    store: &mut T,
    reader: &mut R,
    bytes: &[u8],
) -> Result<(), LineError>
    requires known { R.is_known reader.old (T.contents store.old) }
    requires counted { IsCounted (R.number reader.old) (R.before reader.old) }
    ensures keeps { Extends (T.contents store.old) (T.contents store.new) }
    ensures rest { T.rest store.new ≡ T.rest store.old }
    ensures known { OnOk result (R.is_known reader.new (T.contents store.new)) }
    ensures reads { (c : R.Course) → R.stands reader.old (T.contents store.old) c
        → Goes (R.stands reader.new (T.contents store.new)) result
        (over R.step c (lines_of bytes.now)) }
{
    let rest = take_lines(alloc, store, reader, bytes)?;
    reader.take(alloc, store, false, rest)
}

/// Keeps bytes of a line that is not ended.
fn hold(held: &mut Vec<u8>, bytes: &[u8]) -> Result<(), LineError>
    ensures ok { OnOk result (held.new.items ≡ held.old.items ++ bytes.now) }
    ensures err { IfErr result (λ e. e ≡ LineError.NoMemory) }
{
    match held.extend_from_slice(bytes) {
        Ok(()) => Ok(()),
        Err(_) => Err(LineError::NoMemory),
    }
}

/// Takes the line whose first bytes are held, which is ended by these bytes, and each line behind it that a line feed
/// ends; what is left is held.
#[tactic(auto, using(lk_units::proofs::Holding::unchanged))]
fn take_held<T: Terms, R: LineReader<T>>(
    alloc: Global,
    store: &mut T,
    reader: &mut R,
    held: &mut Vec<u8>,
    line: &[u8],
    more: &[u8],
) -> Result<(), LineError>
    requires known { R.is_known reader.old (T.contents store.old) }
    requires counted { IsCounted (R.number reader.old) (R.before reader.old) }
    requires held { HasNoLineFeed held.old.items }
    requires line { HasNoLineFeed line.now }
    ensures keeps { Extends (T.contents store.old) (T.contents store.new) }
    ensures rest { T.rest store.new ≡ T.rest store.old }
    ensures known { OnOk result (R.is_known reader.new (T.contents store.new)) }
    ensures counted { OnOk result (IsCounted (R.number reader.new) (R.before reader.new)) }
    ensures unfinished { OnOk result (HasNoLineFeed held.new.items) }
    ensures length { OnOk result (R.before reader.new + length held.new.items
        ≡ R.before reader.old + length held.old.items + length line.now + 1 + length more.now) }
    ensures passes { (c : R.Course) → R.stands reader.old (T.contents store.old) c
        → OnOk result (Passes R.step (R.stands reader.new (T.contents store.new)) c
        (held.old.items ++ line.now ++ 10 ∷ more.now) held.new.items) }
    ensures stops { (c : R.Course) → R.stands reader.old (T.contents store.old) c
        → IfErr result (λ e. Stops R.step e c (held.old.items ++ line.now ++ 10 ∷ more.now)) }
{
    hold(held, line)?;
    reader.take(alloc, store, true, held)?;
    held.clear();
    let rest = take_lines(alloc, store, reader, more)?;
    hold(held, rest)?;
    Ok(())
}

/// Takes each line that ends in a piece of the input, of which the last bytes before it are held; what is left is held.
#[tactic(auto, using(lk_units::proofs::Holding::unchanged))]
pub fn take_piece<T: Terms, R: LineReader<T>>(
    alloc: Global,
    store: &mut T,
    reader: &mut R,
    held: &mut Vec<u8>,
    piece: &[u8],
) -> Result<(), LineError>
    requires known { R.is_known reader.old (T.contents store.old) }
    requires counted { IsCounted (R.number reader.old) (R.before reader.old) }
    requires held { HasNoLineFeed held.old.items }
    ensures keeps { Extends (T.contents store.old) (T.contents store.new) }
    ensures rest { T.rest store.new ≡ T.rest store.old }
    ensures known { OnOk result (R.is_known reader.new (T.contents store.new)) }
    ensures counted { OnOk result (IsCounted (R.number reader.new) (R.before reader.new)) }
    ensures unfinished { OnOk result (HasNoLineFeed held.new.items) }
    ensures length { OnOk result (R.before reader.new + length held.new.items
        ≡ R.before reader.old + length held.old.items + length piece.now) }
    ensures passes { (c : R.Course) → R.stands reader.old (T.contents store.old) c
        → OnOk result (Passes R.step (R.stands reader.new (T.contents store.new)) c
        (held.old.items ++ piece.now) held.new.items) }
    ensures stops { (c : R.Course) → R.stands reader.old (T.contents store.old) c
        → IfErr result (λ e. Stops R.step e c (held.old.items ++ piece.now)) }
{
    match cut(piece) {
        None => hold(held, piece),
        Some((line, more)) => take_held(alloc, store, reader, held, line, more),
    }
}
