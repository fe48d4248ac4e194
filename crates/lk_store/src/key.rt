//! Rows in memory: nodes whose numbers take 32 bits, with what is kept beside them.

ghost use Rattle.std.specs.Prelude.{◌≡◌};
ghost use Rattle.lk_store.specs.Hashes.{hash_of_number};
ghost use Rattle.lk_store.specs.Keys.{hash_of_name, hash_of_level, hash_of_list, hash_of_tree};

use crate::hashing::{hash_pair, hash_words, mix};
use lk_rows::row::Row;

/// The hash of a number.
#[inline(always)]
fn hash_number(seed: u64, n: u128) -> u64
    ensures { result ≡ hash_of_number seed n }
{
    hash_pair(seed, (n & 0xFFFF_FFFF_FFFF_FFFF) as u64, (n >> 64) as u64)
}

/// A number that takes more than 31 bits.
#[derive(Clone, Copy, PartialEq)]
pub struct Number {
    pub value: u128,
}

impl Row for Number {
    type Key = Number;

    ghost key = { λ n. n };

    ghost use Rattle.lk_store.specs.Hashes.{hash_of_number};

    ghost hash = { λ seed n. hash_of_number seed n.value };

    #[inline(always)]
    fn hash_of(seed: u64, wanted: &Number) -> u64 {
        hash_number(seed, wanted.value)
    }

    #[inline(always)]
    fn own_hash(&self, seed: u64) -> u64 {
        hash_number(seed, self.value)
    }

    #[inline(always)]
    fn has(&self, wanted: &Number) -> bool {
        *self == *wanted
    }
}

/// A name: the anonymous one, or an earlier name with one more component.
#[derive(Clone, Copy, PartialEq)]
pub enum NameKey {
    Anonymous,
    Text(u32, u32),
    Number(u32, u64),
}

#[inline(always)]
fn hash_name(seed: u64, key: &NameKey) -> u64
    ensures { result ≡ hash_of_name seed key.now }
{
    match *key {
        NameKey::Anonymous => hash_words(seed, 0, 0, 0, 0),
        NameKey::Text(a, b) => hash_words(seed, 1, a, b, 0),
        NameKey::Number(a, n) => mix(hash_words(seed, 2, a, 0, 0), n),
    }
}

impl Row for NameKey {
    type Key = NameKey;

    ghost key = { λ k. k };

    ghost use Rattle.lk_store.specs.Keys.{hash_of_name};

    ghost hash = { hash_of_name };

    #[inline(always)]
    fn hash_of(seed: u64, wanted: &NameKey) -> u64 {
        hash_name(seed, wanted)
    }

    #[inline(always)]
    fn own_hash(&self, seed: u64) -> u64 {
        hash_name(seed, self)
    }

    #[inline(always)]
    fn has(&self, wanted: &NameKey) -> bool {
        *self == *wanted
    }
}

/// A level.
#[derive(Clone, Copy, PartialEq)]
pub enum LevelKey {
    Zero,
    Succ(u32),
    Max(u32, u32),
    IMax(u32, u32),
    Param(u32),
}

#[inline(always)]
fn hash_level(seed: u64, key: &LevelKey) -> u64
    ensures { result ≡ hash_of_level seed key.now }
{
    match *key {
        LevelKey::Zero => hash_words(seed, 0, 0, 0, 0),
        LevelKey::Succ(a) => hash_words(seed, 1, a, 0, 0),
        LevelKey::Max(a, b) => hash_words(seed, 2, a, b, 0),
        LevelKey::IMax(a, b) => hash_words(seed, 3, a, b, 0),
        LevelKey::Param(a) => hash_words(seed, 4, a, 0, 0),
    }
}

/// A level, and what is kept of it.
#[derive(Clone, Copy)]
pub struct LevelRow {
    pub key: LevelKey,
    /// Whether a parameter stands in it.
    pub params: bool,
    /// Whether it is 0 under every assignment.
    pub zero: bool,
}

impl Row for LevelRow {
    type Key = LevelKey;

    ghost key = { λ row. row.key };

    ghost use Rattle.lk_store.specs.Keys.{hash_of_level};

    ghost hash = { hash_of_level };

    #[inline(always)]
    fn hash_of(seed: u64, wanted: &LevelKey) -> u64 {
        hash_level(seed, wanted)
    }

    #[inline(always)]
    fn own_hash(&self, seed: u64) -> u64 {
        hash_level(seed, &self.key)
    }

    #[inline(always)]
    fn has(&self, wanted: &LevelKey) -> bool {
        self.key == *wanted
    }
}

/// A list of levels.
#[derive(Clone, Copy, PartialEq)]
pub enum ListKey {
    Empty,
    Cons(u32, u32),
}

#[inline(always)]
fn hash_list(seed: u64, key: &ListKey) -> u64
    ensures { result ≡ hash_of_list seed key.now }
{
    match *key {
        ListKey::Empty => hash_words(seed, 0, 0, 0, 0),
        ListKey::Cons(a, b) => hash_words(seed, 1, a, b, 0),
    }
}

/// A list of levels, and what is kept of it.
#[derive(Clone, Copy)]
pub struct ListRow {
    pub key: ListKey,
    /// Whether a parameter stands in it.
    pub params: bool,
}

impl Row for ListRow {
    type Key = ListKey;

    ghost key = { λ row. row.key };

    ghost use Rattle.lk_store.specs.Keys.{hash_of_list};

    ghost hash = { hash_of_list };

    #[inline(always)]
    fn hash_of(seed: u64, wanted: &ListKey) -> u64 {
        hash_list(seed, wanted)
    }

    #[inline(always)]
    fn own_hash(&self, seed: u64) -> u64 {
        hash_list(seed, &self.key)
    }

    #[inline(always)]
    fn has(&self, wanted: &ListKey) -> bool {
        self.key == *wanted
    }
}

/// A tree. The numbers of variables, fields, literals and Locals are codes.
#[derive(Clone, Copy)]
pub enum TreeKey {
    Var(u32),
    Sort(u32),
    Const(u32, u32),
    App(u32, u32),
    Lam(u32, u32),
    Pi(u32, u32),
    Let(u32, u32, u32),
    Proj(u32, u32, u32),
    Lit(u32),
    Wide,
    Str(u32),
    Local(u32, u32),
}

#[inline(always)]
pub(crate) fn hash_tree(seed: u64, key: &TreeKey) -> u64
    ensures { result ≡ hash_of_tree seed key.now }
{
    match *key {
        TreeKey::Var(a) => hash_words(seed, 0, a, 0, 0),
        TreeKey::Sort(a) => hash_words(seed, 1, a, 0, 0),
        TreeKey::Const(a, b) => hash_words(seed, 2, a, b, 0),
        TreeKey::App(a, b) => hash_words(seed, 3, a, b, 0),
        TreeKey::Lam(a, b) => hash_words(seed, 4, a, b, 0),
        TreeKey::Pi(a, b) => hash_words(seed, 5, a, b, 0),
        TreeKey::Let(a, b, c) => hash_words(seed, 6, a, b, c),
        TreeKey::Proj(a, b, c) => hash_words(seed, 7, a, b, c),
        TreeKey::Lit(a) => hash_words(seed, 8, a, 0, 0),
        TreeKey::Wide => hash_words(seed, 9, 0, 0, 0),
        TreeKey::Str(a) => hash_words(seed, 10, a, 0, 0),
        TreeKey::Local(a, b) => hash_words(seed, 11, a, b, 0),
    }
}

/// A tree, and what is kept of it.
#[derive(Clone, Copy)]
pub struct TreeRow {
    pub key: TreeKey,
    /// The code of the least number above its loose variables.
    pub loose: u32,
    /// The code of the least number above its Locals.
    pub local: u32,
    /// Whether a parameter stands in it.
    pub params: bool,
    /// Whether each literal in it is at most 2^128 - 1.
    pub narrow: bool,
}
