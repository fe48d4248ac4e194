//! Lines that are open: what they name has no line, or does not name them.
ghost use Rattle.std.specs.Prelude.{◌≡◌, ℕ, nat_eq, ◌||◌, is_some, Some, None, IfOk, OnOk};
ghost use Rattle.std.specs.List.{list_any};
ghost use Rattle.std.specs.HashSet.{contains};
ghost use Rattle.lk_members.specs.declared.members.Key.{Key};
ghost use Rattle.lk_members.specs.Lines.{type_of, ctor_of};
ghost use Rattle.lk_members.specs.Faults.{is_block, is_open, first_open};
ghost use Rattle.lk_members.specs.Stored.{said_of, lines_of};
ghost use Rattle.lk_members.specs.Indices.{key_eq, IsIndexed};
ghost use Rattle.lk_members.specs.Finishing.{IsFaultless, Listed, is_listed_by, lacks_type, lacks_ctor};

use crate::line::{StoredLine, StoredMember};
use crate::members::{Key, Members};
use lk_store::memory::NoMemory;
use std::alloc::Global;
use std::collections::HashSet;

/// Adds the constructors of a type's list.
fn list_all(listed: &mut HashSet<Key>, under: u64, names: &[u64]) -> Result<(), NoMemory>
    ensures { OnOk result ((q : Key) → contains key_eq listed.new q
        ≡ (is_listed_by under names.now q || contains key_eq listed.old q)) }
{
    let mut rest = names;
    while let Some((name, more)) = rest.split_first() {
        let key = Key { under, name: *name };
        match listed.insert(key) {
            Ok(_) => {}
            Err(_) => return Err(NoMemory),
        }
        rest = more;
    }
    Ok(())
}

/// The constructors that the types of these lines list, each under the name of its type.
fn listed_in(alloc: Global, lines: &[StoredLine]) -> Result<HashSet<Key>, NoMemory>
    requires { IsFaultless (lines_of lines.now) }
    ensures { IfOk result (λ listed. Listed (lines_of lines.now) listed) }
{
    let mut listed = HashSet::new(alloc);
    let mut rest = lines;
    while let Some((line, more)) = rest.split_first() {
        if let StoredMember::Type { head, .. } = &line.said {
            list_all(&mut listed, head.name, &head.constructors)?;
        }
        rest = more;
    }
    Ok(listed)
}

impl Members {
    /// Whether a type has a line.
    fn has_type(&self, name: u64) -> bool
        requires { IsIndexed self.now }
        ensures { result ≡ is_some (type_of nat_eq (lines_of self.now.lines.items) name) }
    {
        self.types.contains_key(&name)
    }

    /// Whether a constructor has a line.
    fn has_constructor(&self, under: u64, name: u64) -> bool
        requires { IsIndexed self.now }
        ensures { result ≡ is_some (ctor_of nat_eq (lines_of self.now.lines.items) under name) }
    {
        let key = Key { under, name };
        self.constructors.contains_key(&key)
    }

    /// Whether one of these types has no line.
    fn lacks_type(&self, names: &[u64]) -> bool
        requires { IsIndexed self.now }
        ensures { result ≡ list_any (lacks_type (lines_of self.now.lines.items)) names.now }
    {
        for name in names {
            if !self.has_type(*name) {
                return true;
            }
        }
        false
    }

    /// Whether one of these constructors of a type has no line.
    fn lacks_constructor(&self, under: u64, names: &[u64]) -> bool
        requires { IsIndexed self.now }
        ensures { result ≡ list_any (lacks_ctor (lines_of self.now.lines.items) under) names.now }
    {
        for name in names {
            if !self.has_constructor(under, *name) {
                return true;
            }
        }
        false
    }

    /// Whether a block has just these types.
    fn is_block(&self, types: &[u64]) -> bool
        requires { IsIndexed self.now }
        ensures { result ≡ is_block nat_eq (lines_of self.now.lines.items) types.now }
    {
        let Some(first) = types.first() else {
            return false;
        };
        let Some(place) = self.blocks.get(first) else {
            return false;
        };
        match &self.lines[*place as usize].said {
            StoredMember::Type { types: own, .. } => own.as_slice() == types,
            _ => false,
        }
    }

    /// Whether a line is open, by the constructors that types list.
    fn is_open(&self, listed: &HashSet<Key>, said: &StoredMember) -> bool
        requires indexed { IsIndexed self.now }
        requires listed { Listed (lines_of self.now.lines.items) listed.now }
        ensures { result ≡ is_open nat_eq (lines_of self.now.lines.items) (said_of said.now) }
    {
        match said {
            StoredMember::Alone(_) => false,
            StoredMember::Type { head, types } => {
                self.lacks_type(types) || self.lacks_constructor(head.name, &head.constructors)
            }
            StoredMember::Constructor(k) => {
                let key = Key {
                    under: k.parent,
                    name: k.name,
                };
                !listed.contains(&key)
            }
            StoredMember::Recursor { types, .. } => !self.is_block(types),
        }
    }

    /// The number of the first line that is open.
    pub fn first_open(&self, alloc: Global) -> Result<Option<u64>, NoMemory>
        requires indexed { IsIndexed self.now }
        requires faultless { IsFaultless (lines_of self.now.lines.items) }
        ensures { IfOk result (λ r. r ≡ first_open nat_eq (lines_of self.now.lines.items)
            (lines_of self.now.lines.items)) }
    {
        let listed = listed_in(alloc, &self.lines)?;
        let mut rest = self.lines.as_slice();
        while let Some((line, more)) = rest.split_first() {
            if self.is_open(&listed, &line.said) {
                return Ok(Some(line.number));
            }
            rest = more;
        }
        Ok(None)
    }
}
