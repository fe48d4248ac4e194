//! The units of the lines.
ghost use Rattle.std.specs.Prelude.{◌≡◌, ℕ, nat_eq, ◌||◌, map, Some, None, IfOk, OnOk, option_copied};
ghost use Rattle.std.specs.HashSet.{contains};
ghost use Rattle.lk_store.specs.Contents.{Contents};
ghost use Rattle.lk_env.specs.Units.{library_at, AreUnitsIn};
ghost use Rattle.lk_members.specs.Faults.{first_open};
ghost use Rattle.lk_members.specs.Units.{if_any, block_at, units_of};
ghost use Rattle.lk_members.specs.Stored.{said_of, lines_of, unit_stated, AreLinesIn};
ghost use Rattle.lk_members.specs.Indices.{IsIndexed};
ghost use Rattle.lk_members.specs.Finishing.{IsFaultless, AreBlocksMade, AreEnded, AreUnitsMade, Finishes, begins_with, blocks_at, ended_unless, unit_here};

use crate::blocks::push_any;
use crate::ends::Ends;
use crate::line::{StoredLine, StoredMember};
use crate::members::Members;
use lk_env::unit::{Block, Unit};
use lk_store::memory::NoMemory;
use std::alloc::Global;
use std::collections::HashSet;

/// Why there are no units.
#[derive(Clone, Copy)]
pub enum FinishError {
    /// There is not enough memory for them.
    NoMemory,
    /// The line of this number is the first that is open: what it names has no line, or does not name it.
    Open(u64),
}

impl From<NoMemory> for FinishError {
    ghost use Rattle.std.specs.Prelude.{◌≡◌};
    ghost use Rattle.lk_members.specs.declared.finish.FinishError.TheVariants.{NoMemory};

    ghost from_gives = { λ _ e. e ≡ NoMemory };

    fn from(_e: NoMemory) -> FinishError {
        FinishError::NoMemory
    }
}

/// The unit that stands at a line, where a block is what ends there.
fn unit_here(said: StoredMember, block: Option<Block>) -> Option<Unit>
    ensures { result ≡ unit_here said block }
{
    match said {
        StoredMember::Alone(declaration) => Some(Unit::Declaration(declaration)),
        StoredMember::Type { .. } => block.map(Unit::Block),
        StoredMember::Constructor(_) => block.map(Unit::Block),
        StoredMember::Recursor { .. } => block.map(Unit::Block),
    }
}

/// Gives back the room of lines that were taken, once it is an eighth of all: so lines and the units made of them never
/// take the room of both in full.
fn give_back(lines: &mut Vec<StoredLine>)
    ensures { lines.new.items ≡ lines.old.items }
{
    if lines.len() < lines.capacity() / 8 * 7 {
        lines.shrink_to_fit();
    }
}

/// The units of the lines: the declarations alone, and the blocks that end at a line.
fn gather(alloc: Global, mut lines: Vec<StoredLine>, mut ends: Ends) -> Result<Vec<Unit>, NoMemory>
    requires { AreEnded lines.items (lines_of lines.items) (blocks_at ends) }
    ensures { IfOk result (λ us. AreUnitsMade lines.items
        (units_of nat_eq (lines_of lines.items)) us.items) }
{
    lines.reverse();
    let mut units = Vec::with_capacity(alloc, lines.len())?;
    while let Some(line) = lines.pop() {
        give_back(&mut lines);
        let block = ends.pop();
        let unit = unit_here(line.said, block);
        push_any(&mut units, unit)?;
    }
    Ok(units)
}

impl Members {
    /// The types of the block that a line of a type or a constructor is of.
    fn block_types<'a>(&'a self, said: &'a StoredMember) -> Option<&'a [u64]>
        requires { IsIndexed self.now }
        ensures { option_copied result ≡ block_at nat_eq (lines_of self.now.lines.items)
            (said_of said.now) }
    {
        match said {
            StoredMember::Type { types, .. } => Some(types.as_slice()),
            StoredMember::Constructor(k) => match self.blocks.get(&k.parent) {
                Some(place) => match &self.lines[*place as usize].said {
                    StoredMember::Type { types, .. } => Some(types.as_slice()),
                    _ => None,
                },
                None => None,
            },
            _ => None,
        }
    }

    /// The block of a line, unless one whose list begins alike was met.
    fn block_ended(
        &self,
        alloc: Global,
        met: &mut HashSet<u64>,
        said: &StoredMember,
    ) -> Result<Option<Block>, NoMemory>
        requires { IsIndexed self.now }
        ensures met { OnOk result ((q : ℕ) → contains nat_eq met.new q
            ≡ (begins_with q (block_at nat_eq (lines_of self.now.lines.items)
            (said_of said.now)) || contains nat_eq met.old q)) }
        ensures made { IfOk result (λ o. AreBlocksMade self.now.lines.items
            (ended_unless (contains nat_eq met.old) (lines_of self.now.lines.items)
            (block_at nat_eq (lines_of self.now.lines.items) (said_of said.now))) (if_any o)) }
    {
        let Some(types) = self.block_types(said) else {
            return Ok(None);
        };
        let Some(first) = types.first() else {
            return Ok(None);
        };
        if met.contains(first) {
            return Ok(None);
        }
        match met.insert(*first) {
            Ok(_) => {}
            Err(_) => return Err(NoMemory),
        }
        let block = self.block_made(alloc, types)?;
        Ok(Some(block))
    }

    /// For each line, from the last to the first, the block that ends there. The blocks that were met are known by the
    /// first names of their lists, since a name stands in the list of one block alone.
    pub(crate) fn blocks_ended(&self, alloc: Global) -> Result<Ends, NoMemory>
        requires indexed { IsIndexed self.now }
        requires faultless { IsFaultless (lines_of self.now.lines.items) }
        ensures { IfOk result (λ ends. AreEnded self.now.lines.items (lines_of self.now.lines.items)
            (blocks_at ends)) }
    {
        let mut met = HashSet::new(alloc);
        let mut ends = Ends::new(alloc);
        let mut rest = self.lines.as_slice();
        while let Some((line, more)) = rest.split_last() {
            let block = self.block_ended(alloc, &mut met, &line.said)?;
            ends.push(block)?;
            rest = more;
        }
        Ok(ends)
    }

    /// The units of the lines, or the first line that is open.
    pub fn finish(self, alloc: Global) -> Result<Vec<Unit>, FinishError>
        requires indexed { IsIndexed self }
        requires faultless { IsFaultless (lines_of self.lines.items) }
        ensures open { Finishes result (first_open nat_eq (lines_of self.lines.items)
            (lines_of self.lines.items)) }
        ensures units { IfOk result (λ us. (c : Contents) → library_at c us.items
            ≡ map (unit_stated c) (units_of nat_eq (lines_of self.lines.items))) }
        ensures known { IfOk result (λ us. (c : Contents) → AreLinesIn c self.lines.items
            → AreUnitsIn c us.items) }
    {
        let open = self.first_open(alloc)?;
        if let Some(number) = open {
            return Err(FinishError::Open(number));
        }
        let ends = self.blocks_ended(alloc)?;
        let units = gather(alloc, self.lines, ends)?;
        Ok(units)
    }
}
