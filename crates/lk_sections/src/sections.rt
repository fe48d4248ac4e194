//! Sections.

ghost use Rattle.std.specs.Prelude.{OnOk};
ghost use Rattle.lk_store.specs.Contents.{Contents};
ghost use Rattle.lk_trace.specs.Meaning.{section_of, IsSectionIn};
ghost use Rattle.lk_trim.specs.Written.{line};
ghost use Rattle.lk_trim.specs.Stored.{AreNumbersIn, Writes};
ghost use Rattle.lk_sections.specs.Sections.{begin_text, parts_text, write_section};

use crate::lines::{add_premises, write_lines};
use lk_store::memory::NoMemory;
use lk_store::terms::Terms;
use lk_trace::Section;
use lk_trim::{Writer, add_row};
use std::alloc::Global;

/// Writes the line with which the section of a unit begins.
fn begin_section(writer: &mut Writer, unit: u32) -> Result<(), NoMemory>
    ensures { (c : Contents) → AreNumbersIn c writer.old.numbers
        → OnOk result (Writes c (line (begin_text unit)) writer.old writer.new) }
{
    add_row(&mut writer.out, b"#AT", &[u64::from(unit)])?;
    writer.out.push(b'\n')?;
    Ok(())
}

/// Writes the line with which a section ends: it names the lines of these places.
fn end_section(writer: &mut Writer, first: u64, parts: &[u32]) -> Result<(), NoMemory>
    ensures { (c : Contents) → AreNumbersIn c writer.old.numbers
        → OnOk result (Writes c (line (parts_text first parts.now)) writer.old writer.new) }
{
    writer.out.extend_from_slice(b"#OK")?;
    add_premises(&mut writer.out, first, parts)?;
    writer.out.push(b'\n')?;
    Ok(())
}

/// Writes the section of a unit, and within it the lines of the trees that have none yet. Its lines
/// have the numbers from `first` on; where one is above 2^64 - 1 that counts as want of memory.
pub fn write_section<T: Terms>(
    alloc: Global,
    store: &T,
    writer: &mut Writer,
    first: u64,
    section: &Section,
) -> Result<(), NoMemory>
    requires numbers { AreNumbersIn (T.contents store.now) writer.old.numbers }
    requires section_in { IsSectionIn (T.contents store.now) section.now }
    ensures { let c = T.contents store.now in
        OnOk result (Writes c (write_section section.now.unit first (section_of c section.now))
        writer.old writer.new) }
{
    begin_section(writer, section.unit)?;
    write_lines(alloc, store, writer, first, &section.lines)?;
    end_section(writer, first, &section.parts)
}
