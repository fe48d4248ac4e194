//! Rows by number, each found by its key.

use crate::row::Row;
use crate::slots::{find_placed, place, place_all};
use std::alloc::{AllocError, Global};
use std::marker::Model;

/// Up to so many rows are looked through one after another.
const FEW: usize = 16;

/// A table that is made empty keeps its slots where they are at most so many.
const KEPT: usize = 512;

/// It keeps more where they are at most so many for each of the rows that it had. To free them takes
/// less time than to make them anew, and no more than the rows took, however large the table once
/// was.
const SLOTS_A_ROW: usize = 8;

/// Where a row is more slots than this away from its bucket, the table takes another seed and
/// places all rows anew. By chance the farthest of a million rows is some hundred and fifty slots
/// away. Each seed that was taken before lets so many more be.
const FARTHEST: usize = 256;

/// Rows by number, each found by its key. The numbers are kept in 32 bits. Keys that were made to
/// have one hash are parted by a seed, which is 0 until a row is far from its bucket.
#[derive(Drop)]
pub struct Table<R: Row + Drop> {
    rows: Vec<R>,
    /// The tag of the row that stands in each slot, or 0 where it is free. There are no slots while
    /// the rows are few.
    tags: Vec<u8>,
    /// The row that stands in each slot. Of a free one it says nothing.
    slots: Vec<u32>,
    /// No row is more slots than so many away from its bucket: a walk ends there, however many
    /// slots are taken in a row.
    most: usize,
    /// The seed of the hashes.
    seed: u64,
}

impl<R: Row + Drop> Model for Table<R> {
    ghost use Rattle.std.specs.Prelude.{List};
    ghost use Rattle.lk_rows.specs.Slots.{IsFilled, IsLast, IsTable};

    ghost Value = { List R };

    ghost view = { λ t. t.rows.items };

    ghost invariant = { λ t.
        IsTable R.key (R.hash t.seed) t.rows.items t.tags.items t.slots.items t.most };
}

ghost use Rattle.std.specs.Prelude.{◌≡◌, ◌<◌, ◌≤◌, ◌^◌, ◌⊎◌, [], ◌∷◌, ◌++◌, length, slice_index_or};
ghost use Rattle.std.specs.Prelude.{IfNone, IfSome, OnOk, OnErr};
ghost use Rattle.lk_rows.specs.Slots.{IsFilled, IsLast, IsTable};
ghost use Rattle.lk_rows.specs.Rows.{RowHas, NoRowHas};

/// The hash of a key under a seed, where the one under seed 0 is at hand.
#[inline(always)]
fn hash_under<R: Row>(seed: u64, key: &R::Key, hash: u64) -> u64
    requires { hash ≡ R.hash 0 key.now }
    ensures { result ≡ R.hash seed key.now }
{
    if seed == 0 {
        return hash;
    }
    hash_anew::<R>(seed, key)
}

/// The hash of a key under a seed.
#[cold]
fn hash_anew<R: Row>(seed: u64, key: &R::Key) -> u64
    ensures { result ≡ R.hash seed key.now }
{
    R::hash_of(seed, key)
}

/// The row that has the key, where the rows are looked through one after another.
#[inline(always)]
fn find_few<R: Row>(rows: &[R], key: &R::Key) -> Option<u64>
    ensures absent { IfNone result (NoRowHas R.key rows.now key.now) }
    ensures known { IfSome result (λ i. i < length rows.now) }
    ensures present { IfSome result (RowHas R.key rows.now key.now) }
{
    for (i, row) in rows.iter().enumerate() {
        if row.has(key) {
            return Some(i as u64);
        }
    }
    None
}

/// The row that has the key, whose hash is at hand.
#[inline(always)]
fn find_in<R: Row>(
    rows: &[R],
    tags: &[u8],
    slots: &[u32],
    most: usize,
    seed: u64,
    key: &R::Key,
    hash: u64,
) -> Option<u64>
    requires table { IsTable R.key (R.hash seed) rows.now tags.now slots.now most }
    requires hash { hash ≡ R.hash seed key.now }
    ensures absent { IfNone result (NoRowHas R.key rows.now key.now) }
    ensures known { IfSome result (λ i. i < length rows.now) }
    ensures present { IfSome result (RowHas R.key rows.now key.now) }
{
    if tags.is_empty() {
        return find_few(rows, key);
    }
    find_placed(rows, tags, slots, most, seed, key, hash)
}

/// Places the rows in slots of which none is taken, if they have room there.
fn fill<R: Row>(rows: &[R], tags: &mut Vec<u8>, slots: &mut Vec<u32>, most: &mut usize, seed: u64)
    requires few { length rows.now < 2 ^ 32 }
    requires a_slot_each { length tags.old.items ≤ length slots.old.items }
    requires room { length rows.now < length tags.old.items }
    ensures table { IsTable R.key (R.hash seed) rows.now tags.new.items slots.new.items most.new }
    ensures room { let n = length tags.new.items in (n ≡ 0) ⊎ (length rows.now < n) }
{
    match place_all(rows, tags, slots, seed, usize::MAX) {
        Some(found) => *most = found,
        // No row is so far away.
        None => tags.clear(),
    }
}

/// Places the rows in about twice as many slots as there are rows.
#[cold]
fn place_more<R: Row>(
    rows: &[R],
    tags: &mut Vec<u8>,
    slots: &mut Vec<u32>,
    most: &mut usize,
    seed: u64,
) -> Result<(), AllocError>
    requires table { IsTable R.key (R.hash seed) rows.now tags.old.items slots.old.items most.old }
    ensures table { IsTable R.key (R.hash seed) rows.now tags.new.items slots.new.items most.new }
    ensures room { let n = length tags.new.items in
        OnOk result ((n ≡ 0) ⊎ (length rows.now < n)) }
{
    let count = (2 * rows.len() + 1).next_power_of_two();
    slots.try_reserve(count.saturating_sub(slots.len()))?;
    tags.try_reserve(count.saturating_sub(tags.len()))?;
    // From here on there is room.
    tags.clear();
    slots.clear();
    slots.resize(count, 0)?;
    tags.resize(count, 0)?;
    fill(rows, tags, slots, most, seed);
    Ok(())
}

/// Makes room for one more row. Few rows need none; slots are made when there are more.
#[inline]
fn make_room<R: Row>(
    rows: &[R],
    tags: &mut Vec<u8>,
    slots: &mut Vec<u32>,
    most: &mut usize,
    seed: u64,
) -> Result<(), AllocError>
    requires { IsTable R.key (R.hash seed) rows.now tags.old.items slots.old.items most.old }
    ensures table { IsTable R.key (R.hash seed) rows.now tags.new.items slots.new.items most.new }
    ensures room { let n = length tags.new.items in
        OnOk result ((n ≡ 0) ⊎ (length rows.now < n)) }
{
    // At most five of eight slots are taken, so a walk passes few.
    if rows.len() < tags.len() / 8 * 5 {
        return Ok(());
    }
    if tags.is_empty() && rows.len() < FEW {
        return Ok(());
    }
    place_more(rows, tags, slots, most, seed)
}

/// How far rows may be from their buckets under a seed. The seeds are known to whoever makes the
/// keys, so with each seed that is taken rows are let be farther away: keys made for one seed after
/// another then have the rows placed anew about as often as the root of their number.
#[inline(always)]
fn farthest(seed: u64) -> usize {
    FARTHEST.saturating_mul((seed as usize).saturating_add(1))
}

/// Places all rows anew under a later seed, by which none is far from its bucket. A seed by which
/// one is far is passed over as soon as that is seen, so each takes no longer than one by which none
/// is; and each lets them be farther away, so one of the next few is taken, whatever the keys were
/// made for. Were there none, there would be no slots.
#[cold]
fn part<R: Row>(
    rows: &[R],
    tags: &mut Vec<u8>,
    slots: &mut Vec<u32>,
    most: &mut usize,
    seed: &mut u64,
)
    requires few { length rows.now < 2 ^ 32 }
    requires a_slot_each { length tags.old.items ≤ length slots.old.items }
    requires room { length rows.now ≤ length tags.old.items }
    ensures { IsTable R.key (R.hash seed.new) rows.now tags.new.items slots.new.items most.new }
{
    'seeds: for _ in rows {
        *seed = seed.saturating_add(1);
        if let Some(found) = place_all(rows, tags, slots, *seed, farthest(*seed)) {
            *most = found;
            return;
        }
    }
    tags.clear();
}

/// Places the last row, all others being placed. The hash of its key under seed 0 is at hand.
#[inline]
fn place_last<R: Row>(
    rows: &[R],
    tags: &mut [u8],
    slots: &mut [u32],
    most: usize,
    seed: u64,
    hash: u64,
) -> usize
    requires few { length rows.now < 2 ^ 32 }
    requires room { length rows.now ≤ length tags.old }
    requires last { IsLast R.key R.hash rows.now tags.old slots.old most seed hash }
    ensures { IsFilled R.key (R.hash seed) rows.now tags.new slots.new result }
{
    let i = rows.len() - 1;
    let hash = hash_of_row(seed, &rows[i], hash);
    most.max(place(tags, slots, hash, i as u32))
}

/// The hash of a row's key under a seed, where the one under seed 0 is at hand.
#[inline(always)]
fn hash_of_row<R: Row>(seed: u64, row: &R, hash: u64) -> u64
    requires { hash ≡ R.hash 0 (R.key row.now) }
    ensures { result ≡ R.hash seed (R.key row.now) }
{
    if seed == 0 {
        return hash;
    }
    row.own_hash(seed)
}

impl<R: Row + Drop> Table<R> {
    /// An empty table. It takes no memory.
    pub fn new(alloc: Global) -> Self
        ensures { result ≡ [] }
    {
        Table {
            rows: Vec::new(alloc),
            tags: Vec::new(alloc),
            slots: Vec::new(alloc),
            most: 0,
            seed: 0,
        }
    }

    /// How many rows there are, which is below 2^32.
    #[inline]
    pub fn len(&self) -> u64
        ensures len { result ≡ length self.now }
        ensures few { result < 2 ^ 32 }
    {
        let _tags = &self.tags;
        self.rows.len() as u64
    }

    /// The row of a number.
    #[inline]
    pub fn get(&self, i: u64) -> &R
        requires { i < length self.now }
        ensures { (d : R) → result.now ≡ slice_index_or self.now i d }
    {
        &self.rows[i as usize]
    }

    /// The number of the row that has the key, whose hash under seed 0 is at hand.
    #[inline(always)]
    pub fn find_hashed(&self, key: &R::Key, hash: u64) -> Option<u64>
        requires { hash ≡ R.hash 0 key.now }
        ensures few { IfSome result (λ i. i < 2 ^ 32) }
        ensures absent { IfNone result (NoRowHas R.key self.now key.now) }
        ensures known { IfSome result (λ i. i < length self.now) }
        ensures present { IfSome result (RowHas R.key self.now key.now) }
    {
        let hash = hash_under::<R>(self.seed, key, hash);
        find_in(
            &self.rows,
            &self.tags,
            &self.slots,
            self.most,
            self.seed,
            key,
            hash,
        )
    }

    /// The number of the row that has the key.
    pub fn find(&self, key: &R::Key) -> Option<u64>
        ensures few { IfSome result (λ i. i < 2 ^ 32) }
        ensures absent { IfNone result (NoRowHas R.key self.now key.now) }
        ensures known { IfSome result (λ i. i < length self.now) }
        ensures present { IfSome result (RowHas R.key self.now key.now) }
    {
        self.find_hashed(key, R::hash_of(0, key))
    }

    /// Gives back the room that no row takes.
    pub fn shrink(&mut self)
        ensures { self.new ≡ self.old }
    {
        self.rows.shrink_to_fit();
    }

    /// Makes the table empty, and keeps its rooms.
    pub fn clear(&mut self)
        ensures { self.new ≡ [] }
    {
        if self.rows.is_empty() {
            return;
        }
        let slots = self.tags.len();
        let too_many = slots > KEPT && slots / SLOTS_A_ROW > self.rows.len();
        self.rows.clear();
        self.most = 0;
        self.seed = 0;
        if too_many {
            self.tags.clear();
            self.slots.clear();
        }
        self.tags.fill(0);
    }

    /// Adds a row, whose number is the length before. A table holds fewer than 2^32; one more is
    /// want of memory, where all is as before.
    #[inline]
    pub fn push(&mut self, row: R) -> Result<(), AllocError>
        ensures ok { OnOk result (self.new ≡ self.old ++ row ∷ []) }
        ensures err { OnErr result (self.new ≡ self.old) }
    {
        let hash = row.own_hash(0);
        self.push_hashed(row, hash)
    }

    /// Adds a row, as `push` does, where the hash of its key under seed 0 is at hand.
    #[inline]
    pub fn push_hashed(&mut self, row: R, hash: u64) -> Result<(), AllocError>
        requires { hash ≡ R.hash 0 (R.key row) }
        ensures ok { OnOk result (self.new ≡ self.old ++ row ∷ []) }
        ensures err { OnErr result (self.new ≡ self.old) }
    {
        if self.rows.len() >= u32::MAX as usize {
            return Err(AllocError);
        }
        make_room(
            &self.rows,
            &mut self.tags,
            &mut self.slots,
            &mut self.most,
            self.seed,
        )?;
        self.rows.push(row)?;
        if self.tags.is_empty() {
            return Ok(());
        }
        self.most = place_last(
            &self.rows,
            &mut self.tags,
            &mut self.slots,
            self.most,
            self.seed,
            hash,
        );
        if self.most > farthest(self.seed) {
            part(
                &self.rows,
                &mut self.tags,
                &mut self.slots,
                &mut self.most,
                &mut self.seed,
            );
        }
        Ok(())
    }
}
