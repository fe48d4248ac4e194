//! Slots for rows. A row stands in the first slot that was free from the bucket of its hash on, so
//! whoever walks from there comes to it, or to a free slot where there is none.

ghost use Rattle.std.specs.Prelude.{◌≡◌, ◌<◌, ◌≤◌, ◌+◌, ◌^◌, ℕ, List, length, max, slice_index};
ghost use Rattle.std.specs.Prelude.{IfNone, IfSome};
ghost use Rattle.lk_rows.specs.Rows.{RowHas, NoRowHas};
ghost use Rattle.lk_rows.specs.Slots.{bucket, tag, taken, AreTaken, ComesTo};
ghost use Rattle.lk_rows.specs.Slots.{ArePlaced, AreRowsOf, HasPassedAhead, IsFilled, Misses, Walks};

use crate::row::Row;

/// The bucket of a hash among `n`.
#[inline(always)]
fn bucket_of(hash: u64, n: usize) -> usize
    requires { 0 < n }
    ensures value { result ≡ bucket hash n }
    ensures within { result < n }
{
    (hash & (n as u64 - 1)) as usize
}

/// The tag of a hash: other bits than those that tell its bucket. It is above 0, which is the tag
/// of a free slot.
#[inline(always)]
fn tag_of(hash: u64) -> u8
    ensures { result ≡ tag hash }
{
    (hash >> 57) as u8 + 1
}

/// What a walk over slots comes to.
enum Walk {
    /// The row that has the key.
    Row(u64),
    /// A free slot.
    Free,
    /// The last slot, which is taken.
    End,
}

/// Walks over the slots from one on, below another one. Only rows with the tag are compared.
#[inline(always)]
fn walk_on<R: Row>(
    rows: &[R],
    tags: &[u8],
    slots: &[u32],
    key: &R::Key,
    tag: u8,
    from: usize,
    to: usize,
) -> Walk
    requires slots { AreRowsOf tags.now slots.now (length rows.now) }
    requires within { to ≤ length tags.now }
    ensures { Walks R.key rows.now key.now tags.now slots.now tag from to result }
{
    for s in from..to {
        if tags[s] == 0 {
            return Walk::Free;
        }
        if tags[s] == tag {
            let i = slots[s];
            if rows[i as usize].has(key) {
                return Walk::Row(u64::from(i));
            }
        }
    }
    Walk::End
}

/// Where a walk that passes so many slots ends, if it does not go on at the first one.
#[inline(always)]
fn end_ahead(b: usize, most: usize, n: usize) -> usize
    requires { b < n }
    ensures within { result ≤ n }
    ensures all { (s : ℕ) → s < n → s ≤ b + most → s < result }
{
    if most < n - b {
        return b + most + 1;
    }
    n
}

/// Where such a walk ends that goes on at the first slot.
fn end_around(b: usize, most: usize, n: usize) -> usize
    requires { b < n }
    ensures within { result ≤ b }
    ensures all { (s : ℕ) → s < b → s + n ≤ b + most → s < result }
{
    if most < n - b {
        return 0;
    }
    b.min(most - (n - b) + 1)
}

/// The row that has the key, where a walk from this slot came to its end or to the last slot: there
/// it goes on at the first one.
#[cold]
#[inline(never)]
fn find_around<R: Row>(
    rows: &[R],
    tags: &[u8],
    slots: &[u32],
    key: &R::Key,
    tag: u8,
    b: usize,
    most: usize,
) -> Option<u64>
    requires slots { AreRowsOf tags.now slots.now (length rows.now) }
    requires bucket { b < length tags.now }
    requires taken { 0 < tag }
    requires passed { HasPassedAhead R.key rows.now key.now tags.now slots.now most tag b }
    ensures none { IfNone result (Misses R.key rows.now key.now tags.now slots.now most tag b) }
    ensures known { IfSome result (λ i. i < length rows.now) }
    ensures some { IfSome result (RowHas R.key rows.now key.now) }
{
    let end = end_around(b, most, tags.len());
    match walk_on(rows, tags, slots, key, tag, 0, end) {
        Walk::Row(i) => Some(i),
        Walk::Free => None,
        Walk::End => None,
    }
}

/// The row that has the key, if a walk that passes so many slots from this one on comes to it.
#[inline(always)]
fn find_from<R: Row>(
    rows: &[R],
    tags: &[u8],
    slots: &[u32],
    key: &R::Key,
    tag: u8,
    b: usize,
    most: usize,
) -> Option<u64>
    requires slots { AreRowsOf tags.now slots.now (length rows.now) }
    requires bucket { b < length tags.now }
    requires taken { 0 < tag }
    ensures none { IfNone result (Misses R.key rows.now key.now tags.now slots.now most tag b) }
    ensures known { IfSome result (λ i. i < length rows.now) }
    ensures some { IfSome result (RowHas R.key rows.now key.now) }
{
    let end = end_ahead(b, most, tags.len());
    match walk_on(rows, tags, slots, key, tag, b, end) {
        Walk::Row(i) => Some(i),
        Walk::Free => None,
        Walk::End => find_around(rows, tags, slots, key, tag, b, most),
    }
}

/// The row that has the key, whose hash is at hand, where no row is more slots than so many away
/// from its bucket.
#[inline(always)]
pub(crate) fn find_placed<R: Row>(
    rows: &[R],
    tags: &[u8],
    slots: &[u32],
    most: usize,
    seed: u64,
    key: &R::Key,
    hash: u64,
) -> Option<u64>
    requires some { 0 < length tags.now }
    requires filled { IsFilled R.key (R.hash seed) rows.now tags.now slots.now most }
    requires hash { hash ≡ R.hash seed key.now }
    ensures absent { IfNone result (NoRowHas R.key rows.now key.now) }
    ensures known { IfSome result (λ i. i < length rows.now) }
    ensures present { IfSome result (RowHas R.key rows.now key.now) }
{
    let b = bucket_of(hash, tags.len());
    find_from(rows, tags, slots, key, tag_of(hash), b, most)
}

/// The first free slot from one on, below another one.
#[inline(always)]
fn free_between(tags: &[u8], from: usize, to: usize) -> Option<usize>
    requires { to ≤ length tags.now }
    ensures none { IfNone result (AreTaken tags.now from to) }
    ensures after { IfSome result (λ s. from ≤ s) }
    ensures before { IfSome result (λ s. s < to) }
    ensures free { IfSome result (λ s. slice_index tags.now s ≡ 0) }
    ensures first { IfSome result (AreTaken tags.now from) }
{
    for s in from..to {
        if tags[s] == 0 {
            return Some(s);
        }
    }
    None
}

/// The free slot that a walk from this one comes to once it is at the first one.
#[cold]
#[inline(never)]
fn free_around(tags: &[u8], b: usize) -> usize
    requires bucket { b < length tags.now }
    requires taken { AreTaken tags.now b (length tags.now) }
    requires room { taken tags.now < length tags.now }
    ensures within { result < length tags.now }
    ensures free { slice_index tags.now result ≡ 0 }
    ensures found { ComesTo tags.now (length tags.now) b result }
{
    match free_between(tags, 0, b) {
        Some(s) => s,
        None => unreachable!(),
    }
}

/// The free slot that a walk from this one comes to.
#[inline(always)]
fn free_from(tags: &[u8], b: usize) -> usize
    requires bucket { b < length tags.now }
    requires room { taken tags.now < length tags.now }
    ensures within { result < length tags.now }
    ensures free { slice_index tags.now result ≡ 0 }
    ensures found { ComesTo tags.now (length tags.now) b result }
{
    match free_between(tags, b, tags.len()) {
        Some(s) => s,
        None => free_around(tags, b),
    }
}

/// How many slots a walk from one to another one passes.
#[inline]
fn distance(from: usize, to: usize, n: usize) -> usize
    requires from { from < n }
    requires to { to < n }
    ensures ahead { from ≤ to → to ≤ from + result }
    ensures around { to < from → to + n ≤ from + result }
{
    if from <= to {
        return to - from;
    }
    n - from + to
}

/// Puts the next row into a slot, which is so many slots away from its bucket.
#[inline]
pub(crate) fn place(tags: &mut [u8], slots: &mut [u32], hash: u64, i: u32) -> usize
    requires a_slot_each { length tags.old ≤ length slots.old }
    requires room { taken tags.old < length tags.old }
    ensures { (hashes : List ℕ) (most : ℕ) → slice_index hashes i ≡ hash
        → ArePlaced hashes tags.old slots.old most i
        → ArePlaced hashes tags.new slots.new (max most result) (i + 1) }
{
    let n = tags.len();
    let b = bucket_of(hash, n);
    let s = free_from(tags, b);
    tags[s] = tag_of(hash);
    slots[s] = i;
    distance(b, s, n)
}

/// Places all rows anew. The most slots that one is away from its bucket, where none is farther
/// away than so many. Else it ends with the first one that is, so that it never takes longer.
pub(crate) fn place_all<R: Row>(
    rows: &[R],
    tags: &mut [u8],
    slots: &mut [u32],
    seed: u64,
    farthest: usize,
) -> Option<usize>
    requires a_slot_each { length tags.old ≤ length slots.old }
    requires room { length rows.now ≤ length tags.old }
    requires few { length rows.now < 2 ^ 32 }
    ensures { IfSome result (IsFilled R.key (R.hash seed) rows.now tags.new slots.new) }
{
    tags.fill(0);
    let mut most = 0usize;
    for (i, row) in rows.iter().enumerate() {
        most = most.max(place(tags, slots, row.own_hash(seed), i as u32));
        if most > farthest {
            return None;
        }
    }
    Some(most)
}
