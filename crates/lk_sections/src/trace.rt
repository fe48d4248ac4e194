//! The text of a library with sections, as far as it is written.

ghost use Rattle.std.specs.Prelude.{◌≡◌, ◌++◌, ℕ, List, [], ◌∷◌, IfOk, OnOk};
ghost use Rattle.lk_store.specs.Contents.{Contents};
ghost use Rattle.lk_store.specs.Store.{contents_of};
ghost use Rattle.lk_env.specs.Units.{library_of};
ghost use Rattle.lk_env.specs.Budgets.{budgets_of};
ghost use Rattle.lk_trace.specs.Meaning.{IsSectionIn};
ghost use Rattle.lk_trim.specs.Whole.{Kept, kept_of};
ghost use Rattle.lk_lines.specs.declared.tags.Tag.TheVariants as tag;
ghost use Rattle.lk_lines.specs.Tags.{tag_word};
ghost use Rattle.lk_trim.specs.Written.{line};
ghost use Rattle.lk_trim.specs.Stored.{AreNumbersIn, Writes};
ghost use Rattle.lk_sections.specs.Sections.{UnitSection, trace_text};
ghost use Rattle.lk_sections.specs.Stored.{unit_section_at, HasWritten};

use crate::sections::write_section;
use lk_env::library::Library;
use lk_store::memory::NoMemory;
use lk_store::terms::Terms;
use lk_trace::Section;
use lk_trim::{Writer, begin, text_of, write_all};
use std::alloc::Global;

/// What is written so far, and the number of the next line of a section.
#[derive(Drop)]
pub struct TraceWriter {
    pub writer: Writer,
    pub next: u64,
}

/// Writes the line behind which sections stand.
fn write_trace_line(writer: &mut Writer) -> Result<(), NoMemory>
    ensures { (c : Contents) → AreNumbersIn c writer.old.numbers
        → OnOk result (Writes c (line (λ w. tag_word tag.Trace)) writer.old writer.new) }
{
    writer.out.extend_from_slice(b"#TR")?;
    writer.out.push(b'\n')?;
    Ok(())
}

/// The canonical text of the units of these numbers, and the line behind which sections stand.
pub fn begin_trace(alloc: Global, library: &Library, units: &[u32]) -> Result<TraceWriter, NoMemory>
    ensures { IfOk result (HasWritten (contents_of library.now.tables)
        (kept_of (library_of library.now) (budgets_of library.now) units.now) []) }
{
    let mut writer = begin(alloc, library.base())?;
    write_all(alloc, library, &mut writer, units)?;
    write_trace_line(&mut writer)?;
    Ok(TraceWriter { writer, next: 0 })
}

/// Writes one more section. Each name in its trees is to stand in the canonical text: another one
/// would get its line here, where no reader takes it. More than 2^64 - 1 lines count as want of
/// memory, and after want of memory nothing is known of what is written.
pub fn add_section<T: Terms>(
    alloc: Global,
    store: &T,
    trace: &mut TraceWriter,
    section: &Section,
) -> Result<(), NoMemory>
    requires numbers { AreNumbersIn (T.contents store.now) trace.old.writer.numbers }
    requires section_in { IsSectionIn (T.contents store.now) section.now }
    ensures { let c = T.contents store.now in
        (ks : List Kept) (ss : List UnitSection) → HasWritten c ks ss trace.old
        → OnOk result (HasWritten c ks (ss ++ unit_section_at c section.now ∷ []) trace.new) }
{
    let first = trace.next;
    let Some(next) = first.checked_add(section.lines.len() as u64) else {
        return Err(NoMemory);
    };
    write_section(alloc, store, &mut trace.writer, first, section)?;
    trace.next = next;
    Ok(())
}

/// The text that is written.
pub fn text_of_trace(trace: TraceWriter) -> Vec<u8>
    ensures { (c : Contents) (ks : List Kept) (ss : List UnitSection) → HasWritten c ks ss trace
        → result.items ≡ trace_text ks ss }
{
    text_of(trace.writer)
}
