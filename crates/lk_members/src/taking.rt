//! Taking lines one after another.

ghost use Rattle.std.specs.Prelude.{◌≡◌, ◌<◌, ◌+◌, ◌^◌, ◌++◌, ◌∷◌, [], ℕ, nat_eq, length, slice_get, IfOk, OnOk, IfSome, true};
ghost use Rattle.lk_env.specs.declared.unit.Constructor.{Constructor as AConstructor};
ghost use Rattle.lk_env.specs.declared.unit.Recursor.{Recursor as ARecursor};
ghost use Rattle.lk_members.specs.declared.line.TypeHead.{TypeHead as AHead};
ghost use Rattle.lk_members.specs.Lines.{a_type, a_ctor, a_recursor, block_of};
ghost use Rattle.lk_members.specs.Faults.{is_other, crosses, bad_lists, fault_of};
ghost use Rattle.lk_members.specs.Stored.{said_of, lines_of};
ghost use Rattle.lk_members.specs.Indices.{IsIndexOf, IsIndexed};
ghost use Rattle.lk_members.specs.Taking.{Takes, list_at, with_line};

use crate::fault::{MemberError, MemberFault};
use crate::line::{StoredLine, StoredMember};
use crate::lists::{are_distinct, has_name};
use crate::members::{Key, Members};
use crate::names::Names;
use crate::places::{add_member, add_place, put_each, put_first, put_member};
use lk_store::memory::NoMemory;
use std::alloc::Global;

/// Puts the line behind the others.
fn push_line(lines: &mut Vec<StoredLine>, line: StoredLine) -> Result<(), NoMemory>
    ensures { OnOk result (lines.new.items ≡ lines.old.items ++ line ∷ []) }
{
    lines.push(line)?;
    Ok(())
}

impl Members {
    /// Whether the line at the place is a type's, with this list of the types of its block.
    fn has_list_at(&self, place: u32, types: &[u64]) -> bool
        ensures { result ≡ list_at (lines_of self.now.lines.items) place types.now }
    {
        match self.lines.get(place as usize) {
            Some(line) => line.has_list(types),
            None => false,
        }
    }

    /// Whether the name stands in the list of another block. A line whose list was found equal is not looked at again.
    fn is_elsewhere(&self, name: u64, types: &[u64], equal: &mut Option<u32>) -> bool
        requires indexed { IsIndexed self.now }
        requires equal { IfSome equal.old
            (λ i. list_at (lines_of self.now.lines.items) i types.now ≡ true) }
        ensures value { result ≡ is_other nat_eq
            (block_of nat_eq (lines_of self.now.lines.items) name) types.now }
        ensures equal { IfSome equal.new
            (λ i. list_at (lines_of self.now.lines.items) i types.now ≡ true) }
    {
        let Some(place) = self.blocks.get(&name) else {
            return false;
        };
        if *equal == Some(*place) {
            return false;
        }
        if !self.has_list_at(*place, types) {
            return true;
        }
        *equal = Some(*place);
        false
    }

    /// Whether a name of the list stands in the list of another block. All names of one block lead to one line, so that
    /// its list is compared once.
    fn crosses(&self, types: &[u64]) -> bool
        requires { IsIndexed self.now }
        ensures { result ≡ crosses nat_eq (lines_of self.now.lines.items) types.now }
    {
        let mut equal = None;
        for name in types {
            if self.is_elsewhere(*name, types, &mut equal) {
                return true;
            }
        }
        false
    }

    /// Whether the lists of a type lack its own name, share one with another block's, or hold one twice.
    fn has_bad_lists(
        &self,
        alloc: Global,
        name: u64,
        types: &[u64],
        constructors: &[u64],
    ) -> Result<bool, NoMemory>
        requires { IsIndexed self.now }
        ensures { IfOk result (λ r. r ≡ bad_lists nat_eq
            (lines_of self.now.lines.items) name types.now constructors.now) }
    {
        if !has_name(types, name) || self.crosses(types) {
            return Ok(true);
        }
        if !are_distinct(alloc, types)? {
            return Ok(true);
        }
        let distinct = are_distinct(alloc, constructors)?;
        Ok(!distinct)
    }

    /// Notes where a type stands, and where its block does.
    fn note_type(
        &mut self,
        alloc: Global,
        name: u64,
        types: &[u64],
        constructors: &[u64],
    ) -> Result<(), MemberError>
        requires indexed { IsIndexed self.old }
        requires room { length self.old.lines.items + 1 < 2 ^ 32 }
        ensures lines { OnOk result (self.new.lines ≡ self.old.lines) }
        ensures indexed { OnOk result ((number : ℕ) (t : AHead)
            → IsIndexOf self.new (with_line (lines_of self.old.lines.items) number
            (a_type name types.now constructors.now t))) }
        ensures fault { (t : AHead) → Takes result
            (fault_of nat_eq (lines_of self.old.lines.items)
            (a_type name types.now constructors.now t)) }
    {
        if self.has_bad_lists(alloc, name, types, constructors)? {
            return Err(MemberError::Fault(MemberFault::BadCount));
        }
        if self.types.contains_key(&name) {
            return Err(MemberError::Fault(MemberFault::RepeatedMember));
        }
        let place = self.lines.len() as u32;
        put_first(&mut self.types, name, place)?;
        put_each(&mut self.blocks, types, place)?;
        Ok(())
    }

    /// Notes where a constructor stands.
    fn note_constructor(&mut self, parent: u64, name: u64) -> Result<(), MemberError>
        requires indexed { IsIndexed self.old }
        requires room { length self.old.lines.items + 1 < 2 ^ 32 }
        ensures lines { OnOk result (self.new.lines ≡ self.old.lines) }
        ensures indexed { OnOk result ((number : ℕ) (k : AConstructor)
            → IsIndexOf self.new (with_line (lines_of self.old.lines.items) number
            (a_ctor parent name k))) }
        ensures fault { (k : AConstructor)
            → Takes result (fault_of nat_eq (lines_of self.old.lines.items)
            (a_ctor parent name k)) }
    {
        let member = Key {
            under: parent,
            name,
        };
        if self.constructors.contains_key(&member) {
            return Err(MemberError::Fault(MemberFault::RepeatedMember));
        }
        let place = self.lines.len() as u32;
        put_member(&mut self.constructors, member, place)?;
        Ok(())
    }

    /// The number of a list among those that recursors state. It is added where it is new.
    fn list_number(&mut self, alloc: Global, types: &[u64]) -> Result<u64, NoMemory>
        requires { IsIndexed self.old }
        ensures lines { OnOk result (self.new.lines ≡ self.old.lines) }
        ensures indexed { OnOk result (IsIndexed self.new) }
        ensures listed { IfOk result (λ k. slice_get self.new.lists k ≡ Some types.now) }
    {
        let names = Names::new(Vec::from_slice(alloc, types)?);
        if let Some(number) = self.lists.find(&names) {
            return Ok(number);
        }
        let number = self.lists.len();
        self.lists.push(names)?;
        self.recursors.push(Vec::new(alloc))?;
        Ok(number)
    }

    /// Notes where a recursor stands.
    fn note_recursor(&mut self, alloc: Global, types: &[u64], name: u64) -> Result<(), MemberError>
        requires indexed { IsIndexed self.old }
        requires room { length self.old.lines.items + 1 < 2 ^ 32 }
        ensures lines { OnOk result (self.new.lines ≡ self.old.lines) }
        ensures indexed { OnOk result ((number : ℕ) (r : ARecursor)
            → IsIndexOf self.new (with_line (lines_of self.old.lines.items) number
            (a_recursor types.now name r))) }
        ensures fault { (r : ARecursor) → Takes result
            (fault_of nat_eq (lines_of self.old.lines.items) (a_recursor types.now name r)) }
    {
        let list = self.list_number(alloc, types)?;
        let member = Key { under: list, name };
        if self.recursor_names.contains(&member) {
            return Err(MemberError::Fault(MemberFault::RepeatedMember));
        }
        let place = self.lines.len() as u32;
        add_member(&mut self.recursor_names, member)?;
        add_place(&mut self.recursors, list, place)?;
        Ok(())
    }

    /// Notes where the member of the next line stands.
    fn note(&mut self, alloc: Global, said: &StoredMember) -> Result<(), MemberError>
        requires indexed { IsIndexed self.old }
        requires room { length self.old.lines.items + 1 < 2 ^ 32 }
        ensures lines { OnOk result (self.new.lines ≡ self.old.lines) }
        ensures indexed { OnOk result ((number : ℕ)
            → IsIndexOf self.new (with_line (lines_of self.old.lines.items) number
            (said_of said.now))) }
        ensures fault { Takes result (fault_of nat_eq (lines_of self.old.lines.items)
            (said_of said.now)) }
    {
        match said {
            StoredMember::Alone(_) => Ok(()),
            StoredMember::Type { head, types } => {
                self.note_type(alloc, head.name, types, &head.constructors)
            }
            StoredMember::Constructor(constructor) => {
                self.note_constructor(constructor.parent, constructor.name)
            }
            StoredMember::Recursor { types, recursor } => self.note_recursor(
                alloc,
                types,
                recursor.name,
            ),
        }
    }

    /// Takes the next line. Bad lists come before a member that has a line already. Lines are fewer than 2^32, and more are
    /// want of memory. Behind an error nothing is said of the members.
    pub fn take(
        &mut self,
        alloc: Global,
        number: u64,
        said: StoredMember,
    ) -> Result<(), MemberError>
        requires indexed { IsIndexed self.old }
        ensures indexed { OnOk result (IsIndexed self.new) }
        ensures lines { OnOk result (self.new.lines.items ≡ self.old.lines.items
            ++ record { number = number; said = said } ∷ []) }
        ensures stated { OnOk result (lines_of self.new.lines.items
            ≡ with_line (lines_of self.old.lines.items) number (said_of said)) }
        ensures fault { Takes result (fault_of nat_eq (lines_of self.old.lines.items)
            (said_of said)) }
    {
        if self.lines.len() >= u32::MAX as usize {
            return Err(MemberError::NoMemory);
        }
        self.note(alloc, &said)?;
        push_line(&mut self.lines, StoredLine { number, said })?;
        Ok(())
    }
}
