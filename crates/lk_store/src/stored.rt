//! The rows of trees as they stand in memory.

ghost use Rattle.std.specs.Prelude.{◌≡◌};
ghost use Rattle.lk_store.specs.Stored.{key_of};

use crate::hashing::hash_words;
use crate::key::{TreeKey, TreeRow, hash_tree};
use lk_rows::row::Row;
use std::marker::Model;

/// What kind of tree a row is of.
#[derive(Clone, Copy)]
pub enum TreeKind {
    Var,
    Sort,
    Const,
    App,
    Lam,
    Pi,
    Let,
    Proj,
    Lit,
    Wide,
    Str,
    Local,
}

/// The row of a tree as it stands in memory, in 24 bytes: its kind and what is kept of it share a
/// word, which they do not where the row is a key of one of twelve shapes with flags behind it. A
/// part that its kind does not have is not read.
#[derive(Drop)]
pub struct StoredTree {
    pub(crate) kind: TreeKind,
    params: bool,
    narrow: bool,
    pub(crate) first: u32,
    pub(crate) second: u32,
    pub(crate) third: u32,
    loose: u32,
    local: u32,
}

impl Model for StoredTree {
    ghost use Rattle.lk_store.specs.declared.key.TreeRow.{TreeRow};

    ghost Value = { TreeRow };

    ghost use Rattle.lk_store.specs.Stored.{key_of};

    ghost view = { λ s. record {
      key = key_of s.kind s.first s.second s.third;
      loose = s.loose;
      local = s.local;
      params = s.params;
      narrow = s.narrow;
    } };
}

/// The key of a kind and three parts, of which it has as many as it needs.
#[inline(always)]
fn key_of(kind: TreeKind, first: u32, second: u32, third: u32) -> TreeKey
    ensures { result ≡ key_of kind first second third }
{
    match kind {
        TreeKind::Var => TreeKey::Var(first),
        TreeKind::Sort => TreeKey::Sort(first),
        TreeKind::Const => TreeKey::Const(first, second),
        TreeKind::App => TreeKey::App(first, second),
        TreeKind::Lam => TreeKey::Lam(first, second),
        TreeKind::Pi => TreeKey::Pi(first, second),
        TreeKind::Let => TreeKey::Let(first, second, third),
        TreeKind::Proj => TreeKey::Proj(first, second, third),
        TreeKind::Lit => TreeKey::Lit(first),
        TreeKind::Wide => TreeKey::Wide,
        TreeKind::Str => TreeKey::Str(first),
        TreeKind::Local => TreeKey::Local(first, second),
    }
}

impl StoredTree {
    ghost use Rattle.std.specs.Prelude.{◌≡◌};

    /// The row as it stands in memory.
    #[inline(always)]
    pub fn new(row: TreeRow) -> StoredTree
        ensures { result ≡ row }
    {
        let (kind, first, second, third) = match row.key {
            TreeKey::Var(a) => (TreeKind::Var, a, 0, 0),
            TreeKey::Sort(a) => (TreeKind::Sort, a, 0, 0),
            TreeKey::Const(a, b) => (TreeKind::Const, a, b, 0),
            TreeKey::App(a, b) => (TreeKind::App, a, b, 0),
            TreeKey::Lam(a, b) => (TreeKind::Lam, a, b, 0),
            TreeKey::Pi(a, b) => (TreeKind::Pi, a, b, 0),
            TreeKey::Let(a, b, c) => (TreeKind::Let, a, b, c),
            TreeKey::Proj(a, b, c) => (TreeKind::Proj, a, b, c),
            TreeKey::Lit(a) => (TreeKind::Lit, a, 0, 0),
            TreeKey::Wide => (TreeKind::Wide, 0, 0, 0),
            TreeKey::Str(a) => (TreeKind::Str, a, 0, 0),
            TreeKey::Local(a, b) => (TreeKind::Local, a, b, 0),
        };
        StoredTree {
            kind,
            params: row.params,
            narrow: row.narrow,
            first,
            second,
            third,
            loose: row.loose,
            local: row.local,
        }
    }

    /// The row that stands there.
    #[inline(always)]
    pub fn row(&self) -> TreeRow
        ensures { result ≡ self.now }
    {
        TreeRow {
            key: key_of(self.kind, self.first, self.second, self.third),
            loose: self.loose,
            local: self.local,
            params: self.params,
            narrow: self.narrow,
        }
    }
}

impl Row for StoredTree {
    type Key = TreeKey;

    ghost key = { λ row. row.key };

    ghost use Rattle.lk_store.specs.Keys.{hash_of_tree};

    ghost hash = { hash_of_tree };

    #[inline(always)]
    fn hash_of(seed: u64, wanted: &TreeKey) -> u64 {
        hash_tree(seed, wanted)
    }

    #[inline(always)]
    fn own_hash(&self, seed: u64) -> u64 {
        let (a, b, c) = (self.first, self.second, self.third);
        match self.kind {
            TreeKind::Var => hash_words(seed, 0, a, 0, 0),
            TreeKind::Sort => hash_words(seed, 1, a, 0, 0),
            TreeKind::Const => hash_words(seed, 2, a, b, 0),
            TreeKind::App => hash_words(seed, 3, a, b, 0),
            TreeKind::Lam => hash_words(seed, 4, a, b, 0),
            TreeKind::Pi => hash_words(seed, 5, a, b, 0),
            TreeKind::Let => hash_words(seed, 6, a, b, c),
            TreeKind::Proj => hash_words(seed, 7, a, b, c),
            TreeKind::Lit => hash_words(seed, 8, a, 0, 0),
            TreeKind::Wide => hash_words(seed, 9, 0, 0, 0),
            TreeKind::Str => hash_words(seed, 10, a, 0, 0),
            TreeKind::Local => hash_words(seed, 11, a, b, 0),
        }
    }

    /// Where the kind of the wanted one is known, little is compared.
    #[inline(always)]
    fn has(&self, wanted: &TreeKey) -> bool {
        match *wanted {
            TreeKey::Var(a) => matches!(self.kind, TreeKind::Var) && self.first == a,
            TreeKey::Sort(a) => matches!(self.kind, TreeKind::Sort) && self.first == a,
            TreeKey::Const(a, b) => {
                matches!(self.kind, TreeKind::Const) && self.first == a && self.second == b
            }
            TreeKey::App(a, b) => {
                matches!(self.kind, TreeKind::App) && self.first == a && self.second == b
            }
            TreeKey::Lam(a, b) => {
                matches!(self.kind, TreeKind::Lam) && self.first == a && self.second == b
            }
            TreeKey::Pi(a, b) => {
                matches!(self.kind, TreeKind::Pi) && self.first == a && self.second == b
            }
            TreeKey::Let(a, b, c) => {
                matches!(self.kind, TreeKind::Let)
                    && self.first == a
                    && self.second == b
                    && self.third == c
            }
            TreeKey::Proj(a, b, c) => {
                matches!(self.kind, TreeKind::Proj)
                    && self.first == a
                    && self.second == b
                    && self.third == c
            }
            TreeKey::Lit(a) => matches!(self.kind, TreeKind::Lit) && self.first == a,
            TreeKey::Wide => matches!(self.kind, TreeKind::Wide),
            TreeKey::Str(a) => matches!(self.kind, TreeKind::Str) && self.first == a,
            TreeKey::Local(a, b) => {
                matches!(self.kind, TreeKind::Local) && self.first == a && self.second == b
            }
        }
    }
}
