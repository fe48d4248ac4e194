//! Which axioms a run allows.

ghost use Rattle.std.specs.Prelude.{◌≡◌, ◌↔◌, ◌==◌, map, option_map, IsTrue, IfOk};
ghost use Rattle.std.specs.HashSet.{IsFromIterResult};
ghost use Rattle.std.specs.List.{slice_split};
ghost use Rattle.std.specs.Str.{bytes_eq};
ghost use Rattle.lk_text.specs.Policy.{every_axiom, listed, texts_of, policy_of, allows_name};
ghost use Rattle.lk_text.specs.Table.{IsTableOf};

use lk_store::memory::NoMemory;
use std::alloc::{AllocError, Global};
use std::collections::HashSet;
use std::marker::Model;

/// Which axioms a run allows: all of them, or those whose names print as one of the texts on a
/// list.
#[derive(Drop)]
pub struct Policy<'a> {
    /// The list, its texts joined by commas. None where every axiom is allowed.
    list: Option<&'a str>,
    /// The texts on the list, by their bytes.
    texts: HashSet<&'a [u8]>,
}

impl<'a> Model for Policy<'a> {
    ghost use Rattle.std.specs.Prelude.{option_map};
    ghost use Rattle.lk_text.specs.Policy.{Policy as Allowed, policy_of};
    ghost use Rattle.lk_text.specs.Table.{IsTableOf};

    ghost Value = { Allowed };

    ghost view = { λ p. policy_of (option_map (λ s. s.now) p.list) };

    ghost invariant = { λ p. IsTableOf (policy_of (option_map (λ s. s.now) p.list)) p.texts };
}

/// The parts of a text, cut at each comma.
fn parts(alloc: Global, text: &[u8]) -> Result<Vec<&[u8]>, AllocError>
    ensures { IfOk result (λ v. map (λ t. t.now) v.items ≡ slice_split (λ b. b == 44) text.now) }
{
    text.split(|b| *b == b',').collect(alloc)
}

/// The texts on a list.
fn texts_of(alloc: Global, list: &str) -> Result<Vec<&[u8]>, AllocError>
    ensures { IfOk result (λ v. map (λ t. t.now) v.items ≡ texts_of list.now) }
{
    if list.is_empty() {
        return Ok(Vec::new(alloc));
    }
    parts(alloc, list.as_bytes())
}

/// A table of texts.
fn table_of<'a>(alloc: Global, texts: &[&'a [u8]]) -> Result<HashSet<&'a [u8]>, AllocError>
    ensures { IfOk result (IsFromIterResult (λ x y. bytes_eq x.now y.now) texts.now) }
{
    texts.iter().copied().collect(alloc)
}

/// A table of the texts on a list.
fn table_of_list<'a>(alloc: Global, list: &'a str) -> Result<HashSet<&'a [u8]>, AllocError>
    ensures { IfOk result (IsTableOf (listed (texts_of list.now))) }
{
    let texts = texts_of(alloc, list)?;
    table_of(alloc, &texts)
}

/// The same of the list of an option; without one the table is empty.
fn table_for<'a>(alloc: Global, list: Option<&'a str>) -> Result<HashSet<&'a [u8]>, AllocError>
    ensures { IfOk result (IsTableOf (policy_of (option_map (λ s. s.now) list.entry))) }
{
    match list {
        None => Ok(HashSet::new(alloc)),
        Some(text) => table_of_list(alloc, text),
    }
}

impl<'a> Policy<'a> {
    /// The policy that the text of an option says: the names of the allowed axioms, joined by
    /// single commas. The empty text allows none, and without a text every axiom is allowed.
    pub fn new(alloc: Global, list: Option<&'a str>) -> Result<Policy<'a>, NoMemory>
        ensures { IfOk result (λ p. p ≡ policy_of (option_map (λ s. s.now) list.entry)) }
    {
        let texts = table_for(alloc, list)?;
        Ok(Policy { list, texts })
    }

    /// Whether every axiom is allowed.
    pub(crate) fn allows_every(&self) -> bool
        ensures { IsTrue result ↔ (self.now ≡ every_axiom) }
    {
        self.list.is_none()
    }

    /// Whether an axiom whose name prints so is allowed.
    pub(crate) fn allows_name(&self, name: &[u8]) -> bool
        ensures { result ≡ allows_name self.now name.now }
    {
        self.list.is_none() || self.texts.contains(name)
    }
}
