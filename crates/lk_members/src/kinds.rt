//! Which units of the lines are declarations alone, before the units are made.
ghost use Rattle.std.specs.Prelude.{◌≡◌, ◌++◌, nat_eq, map, IfOk, OnOk};
ghost use Rattle.lk_members.specs.Units.{is_alone, units_of};
ghost use Rattle.lk_members.specs.Stored.{lines_of};
ghost use Rattle.lk_members.specs.Indices.{IsIndexed};
ghost use Rattle.lk_members.specs.Finishing.{IsFaultless, AreEnded, blocks_at, kind_at_end, kind_here};

use crate::ends::Ends;
use crate::line::{StoredLine, StoredMember};
use crate::members::Members;
use lk_store::memory::NoMemory;
use std::alloc::Global;

/// Adds the kind of a block, where one ends.
fn push_end(kinds: &mut Vec<bool>, ends: bool) -> Result<(), NoMemory>
    ensures { OnOk result (kinds.new.items ≡ kinds.old.items ++ kind_at_end ends) }
{
    if ends {
        kinds.push(false)?;
    }
    Ok(())
}

/// Adds the kind of the unit that stands at a line, where one does.
fn push_kind(kinds: &mut Vec<bool>, said: &StoredMember, ends: bool) -> Result<(), NoMemory>
    ensures { OnOk result (kinds.new.items ≡ kinds.old.items ++ kind_here said.now ends) }
{
    match said {
        StoredMember::Alone(_) => {
            kinds.push(true)?;
            Ok(())
        }
        StoredMember::Type { .. } => push_end(kinds, ends),
        StoredMember::Constructor(_) => push_end(kinds, ends),
        StoredMember::Recursor { .. } => push_end(kinds, ends),
    }
}

/// The kinds of the units that stand at the lines.
fn kinds_at(alloc: Global, lines: &[StoredLine], mut ends: Ends) -> Result<Vec<bool>, NoMemory>
    requires { AreEnded lines.now (lines_of lines.now) (blocks_at ends) }
    ensures { IfOk result (λ ks. ks.items ≡ map is_alone (units_of nat_eq (lines_of lines.now))) }
{
    let mut kinds = Vec::new(alloc);
    let mut rest = lines;
    while let Some((line, more)) = rest.split_first() {
        let block = ends.pop();
        push_kind(&mut kinds, &line.said, block.is_some())?;
        rest = more;
    }
    Ok(kinds)
}

impl Members {
    /// Which of the units are declarations alone, in their order.
    pub fn kinds(&self, alloc: Global) -> Result<Vec<bool>, NoMemory>
        requires indexed { IsIndexed self.now }
        requires faultless { IsFaultless (lines_of self.now.lines.items) }
        ensures { IfOk result (λ ks. ks.items
            ≡ map is_alone (units_of nat_eq (lines_of self.now.lines.items))) }
    {
        let ends = self.blocks_ended(alloc)?;
        kinds_at(alloc, &self.lines, ends)
    }
}
