//! Blocks made from lines: what lines state of the members of a block is copied.
ghost use Rattle.std.specs.Prelude.{◌≡◌, ℕ, nat_eq, [], ◌∷◌, ◌++◌, Some, None, IfOk, OnOk};
ghost use Rattle.std.specs.List.{flat_map};
ghost use Rattle.lk_members.specs.Lines.{type_of, ctor_of, recursor_here, recursors_of};
ghost use Rattle.lk_members.specs.Units.{if_any, ctors_listed, with_ctors, block_with};
ghost use Rattle.lk_members.specs.Stored.{said_of, lines_of, IsStoredMemberIn};
ghost use Rattle.lk_store.specs.Contents.{Contents};
ghost use Rattle.lk_members.specs.Indices.{recursor_at, IsIndexed};
ghost use Rattle.lk_members.specs.Finishing.{IsConstructorCopy, IsRecursorCopy, AreConstructorsMade, AreTypesMade, AreRecursorsMade, AreBlocksMade, IsTypeCopy, IsRecursorMade, types_listed};

use crate::line::{StoredMember, TypeHead};
use crate::members::{Key, Members};
use crate::names::Names;
use lk_env::unit::{Block, BlockType, Constructor, Recursor};
use lk_store::memory::NoMemory;
use std::alloc::Global;

/// Numbers in memory of their own.
fn copy_numbers(alloc: Global, numbers: &[u64]) -> Result<Vec<u64>, NoMemory>
    ensures { IfOk result (λ v. v.items ≡ numbers.now) }
{
    let copy = Vec::from_slice(alloc, numbers)?;
    Ok(copy)
}

/// A constructor in memory of its own.
fn copy_constructor(alloc: Global, k: &Constructor) -> Result<Constructor, NoMemory>
    ensures { IfOk result (λ copy. IsConstructorCopy k.now copy) }
{
    let levels = copy_numbers(alloc, &k.levels)?;
    Ok(Constructor {
        name: k.name,
        levels,
        ty: k.ty,
        parent: k.parent,
        place: k.place,
        parameters: k.parameters,
        fields: k.fields,
    })
}

/// A recursor in memory of its own.
fn copy_recursor(alloc: Global, r: &Recursor) -> Result<Recursor, NoMemory>
    ensures { IfOk result (λ copy. IsRecursorCopy r.now copy) }
{
    let levels = copy_numbers(alloc, &r.levels)?;
    let rules = Vec::from_slice(alloc, &r.rules)?;
    Ok(Recursor {
        name: r.name,
        levels,
        ty: r.ty,
        parameters: r.parameters,
        indices: r.indices,
        motives: r.motives,
        minors: r.minors,
        k: r.k,
        rules,
    })
}

/// A type in memory of its own, with these constructors.
fn copy_type(
    alloc: Global,
    head: &TypeHead,
    constructors: Vec<Constructor>,
) -> Result<BlockType, NoMemory>
    ensures { IfOk result (λ copy. IsTypeCopy head.now constructors.items copy) }
{
    let levels = copy_numbers(alloc, &head.levels)?;
    Ok(BlockType {
        name: head.name,
        levels,
        ty: head.ty,
        parameters: head.parameters,
        indices: head.indices,
        constructors,
    })
}

/// The recursor of a line, where it is one of the block with just these types.
fn recursor_made(
    alloc: Global,
    said: &StoredMember,
    types: &[u64],
) -> Result<Option<Recursor>, NoMemory>
    ensures { IfOk result (λ o. IsRecursorMade said.now
        (recursor_here nat_eq (said_of said.now) types.now) (if_any o)) }
{
    match said {
        StoredMember::Recursor {
            types: own,
            recursor,
        } => {
            if own.as_slice() == types {
                let copy = copy_recursor(alloc, recursor)?;
                return Ok(Some(copy));
            }
            Ok(None)
        }
        _ => Ok(None),
    }
}

/// Adds the item, where there is one.
pub(crate) fn push_any<T: Drop>(items: &mut Vec<T>, item: Option<T>) -> Result<(), NoMemory>
    ensures { OnOk result (items.new.items ≡ items.old.items ++ if_any item) }
{
    if let Some(item) = item {
        items.push(item)?;
    }
    Ok(())
}

impl Members {
    /// What the line of a constructor states.
    fn constructor_made(
        &self,
        alloc: Global,
        under: u64,
        name: u64,
    ) -> Result<Option<Constructor>, NoMemory>
        requires { IsIndexed self.now }
        ensures { IfOk result (λ o. AreConstructorsMade self.now.lines.items
            (if_any (ctor_of nat_eq (lines_of self.now.lines.items) under name)) (if_any o)) }
    {
        let key = Key { under, name };
        let Some(place) = self.constructors.get(&key) else {
            return Ok(None);
        };
        match &self.lines[*place as usize].said {
            StoredMember::Constructor(k) => {
                let copy = copy_constructor(alloc, k)?;
                Ok(Some(copy))
            }
            _ => Ok(None),
        }
    }

    /// What the lines of a type's constructors state.
    fn constructors_made(
        &self,
        alloc: Global,
        under: u64,
        names: &[u64],
    ) -> Result<Vec<Constructor>, NoMemory>
        requires { IsIndexed self.now }
        ensures { IfOk result (λ v. AreConstructorsMade self.now.lines.items
            (ctors_listed nat_eq (lines_of self.now.lines.items) under names.now) v.items) }
    {
        let mut made = Vec::new(alloc);
        let mut rest = names;
        while let Some((name, more)) = rest.split_first() {
            let next = self.constructor_made(alloc, under, *name)?;
            push_any(&mut made, next)?;
            rest = more;
        }
        Ok(made)
    }

    /// What the lines of a type and of its constructors state.
    fn type_made(&self, alloc: Global, name: u64) -> Result<Option<BlockType>, NoMemory>
        requires { IsIndexed self.now }
        ensures { IfOk result (λ o. AreTypesMade self.now.lines.items
            (with_ctors nat_eq (lines_of self.now.lines.items) name
            (type_of nat_eq (lines_of self.now.lines.items) name)) (if_any o)) }
    {
        let Some(place) = self.types.get(&name) else {
            return Ok(None);
        };
        match &self.lines[*place as usize].said {
            StoredMember::Type { head, .. } => {
                let made = self.constructors_made(alloc, name, &head.constructors)?;
                let copy = copy_type(alloc, head, made)?;
                Ok(Some(copy))
            }
            _ => Ok(None),
        }
    }

    /// What the lines of these types and of their constructors state.
    fn types_made(&self, alloc: Global, names: &[u64]) -> Result<Vec<BlockType>, NoMemory>
        requires { IsIndexed self.now }
        ensures { IfOk result (λ v. AreTypesMade self.now.lines.items
            (types_listed (lines_of self.now.lines.items) names.now) v.items) }
    {
        let mut made = Vec::new(alloc);
        let mut rest = names;
        while let Some((name, more)) = rest.split_first() {
            let next = self.type_made(alloc, *name)?;
            push_any(&mut made, next)?;
            rest = more;
        }
        Ok(made)
    }

    /// The recursor at a place, where it states these types.
    fn placed_made(
        &self,
        alloc: Global,
        types: &[u64],
        place: u32,
    ) -> Result<Option<Recursor>, NoMemory>
        ensures { IfOk result (λ o. AreRecursorsMade self.now.lines.items
            (recursor_at (lines_of self.now.lines.items) types.now place) (if_any o)) }
    {
        match self.lines.get(place as usize) {
            Some(line) => {
                let made = recursor_made(alloc, &line.said, types)?;
                Ok(made)
            }
            None => Ok(None),
        }
    }

    /// The recursors at these places that state these types.
    fn group_made(
        &self,
        alloc: Global,
        types: &[u64],
        places: &[u32],
    ) -> Result<Vec<Recursor>, NoMemory>
        ensures { IfOk result (λ v. AreRecursorsMade self.now.lines.items
            (flat_map (recursor_at (lines_of self.now.lines.items) types.now) places.now) v.items) }
    {
        let mut made = Vec::new(alloc);
        let mut rest = places;
        while let Some((place, more)) = rest.split_first() {
            let next = self.placed_made(alloc, types, *place)?;
            push_any(&mut made, next)?;
            rest = more;
        }
        Ok(made)
    }

    /// What the lines of the recursors of these types state.
    fn recursors_made(&self, alloc: Global, types: &[u64]) -> Result<Vec<Recursor>, NoMemory>
        requires { IsIndexed self.now }
        ensures { IfOk result (λ v. AreRecursorsMade self.now.lines.items
            (recursors_of nat_eq (lines_of self.now.lines.items) types.now) v.items) }
    {
        let wanted = Names::new(copy_numbers(alloc, types)?);
        let Some(number) = self.lists.find(&wanted) else {
            return Ok(Vec::new(alloc));
        };
        let made = self.group_made(alloc, types, &self.recursors[number as usize])?;
        Ok(made)
    }

    /// The block of these types.
    pub(crate) fn block_made(&self, alloc: Global, types: &[u64]) -> Result<Block, NoMemory>
        requires { IsIndexed self.now }
        ensures { IfOk result (λ b. AreBlocksMade self.now.lines.items
            (block_with nat_eq (lines_of self.now.lines.items) types.now ∷ []) (b ∷ [])) }
    {
        let made = self.types_made(alloc, types)?;
        let recursors = Box::new(alloc, self.recursors_made(alloc, types)?)?;
        Ok(Block {
            types: made,
            recursors,
        })
    }
}
