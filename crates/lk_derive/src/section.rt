//! A section that is done.

ghost use Rattle.std.specs.Prelude.{◌≡◌, All, IfOk};
ghost use Rattle.lk_premises.specs.Claims.{claims_at, AreClaimsIn};
ghost use Rattle.lk_step.specs.Rows.{IsThere};
ghost use Rattle.lk_derive.specs.Notes.{stated_at, IsNotes};
ghost use Rattle.lk_derive.specs.Sections.{IsSectionOf};

use crate::notes::Notes;
use crate::numbering::numbers_of;
use crate::rows::Rows;
use lk_premises::Claim;
use lk_store::memory::NoMemory;
use lk_trace::Section;
use std::alloc::Global;
use std::mem::drop;

/// The section of a unit of this number, whose last line rests on these claims, once each of them is stated by a line, or is
/// of one tree.
pub fn section_of_parts<R: Rows>(
    alloc: Global,
    rows: &R,
    notes: Notes,
    unit: u32,
    parts: &[Claim],
) -> Result<Section, NoMemory>
    requires parts_in { AreClaimsIn (R.contents rows.now) parts.now }
    requires notes { IsNotes (R.place rows.now) (R.contents rows.now) notes }
    requires there { let c = R.contents rows.now in
        All (IsThere (stated_at c notes)) (claims_at c parts.now) }
    ensures { let c = R.contents rows.now in IfOk result (IsSectionOf (R.place rows.now) c unit
        (claims_at c parts.now)) }
{
    let numbers = numbers_of(alloc, rows.store(), &notes, parts)?;
    let Notes { lines, stated } = notes;
    drop(stated);
    Ok(Section {
        unit,
        lines,
        parts: numbers,
    })
}
