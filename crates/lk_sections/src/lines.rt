//! The lines of a section.

ghost use Rattle.std.specs.Prelude.{◌≡◌, ◌++◌, map, All, OnOk};
ghost use Rattle.lk_trace.specs.Meaning.{line_of, IsLineIn};
ghost use Rattle.lk_trim.specs.Written.{fields};
ghost use Rattle.lk_trim.specs.Stored.{written_at, AreNumbersIn, Writes};
ghost use Rattle.lk_sections.specs.Lines.{numbers_from, claim_fields, line_text, write_trees};
ghost use Rattle.lk_sections.specs.Lines.{write_line, write_lines};
ghost use Rattle.lk_sections.specs.Stored.{fields_at};

use crate::extra::{add_extra, extra_of, write_extra};
use crate::words::add_rule;
use lk_store::memory::NoMemory;
use lk_store::terms::Terms;
use lk_trace::Line;
use lk_trim::{Numbers, Writer, add_field, add_fields, add_number, tree_number, write_tree};
use std::alloc::Global;

/// Appends the numbers of the lines that have these places in a section whose first line has number
/// `first`. A number above 2^64 - 1 counts as want of memory.
pub(crate) fn add_premises(out: &mut Vec<u8>, first: u64, places: &[u32]) -> Result<(), NoMemory>
    ensures { OnOk result (out.new.items
        ≡ out.old.items ++ fields (numbers_from first places.now)) }
{
    let mut rest = places;
    while let Some((place, more)) = rest.split_first() {
        let Some(number) = first.checked_add(u64::from(*place)) else {
            return Err(NoMemory);
        };
        add_field(out, number)?;
        rest = more;
    }
    Ok(())
}

/// Appends what a line says behind its rule.
#[tactic(auto, unfolding(crate::specs::Lines::claim_fields))]
fn add_claim<T: Terms>(
    out: &mut Vec<u8>,
    store: &T,
    numbers: &Numbers,
    first: u64,
    line: &Line,
) -> Result<(), NoMemory>
    requires numbers { AreNumbersIn (T.contents store.now) numbers.now }
    requires line_in { IsLineIn (T.contents store.now) line.now }
    ensures { let c = T.contents store.now in
        OnOk result (out.new.items ≡ out.old.items
        ++ claim_fields first (fields_at c line.now) (written_at c numbers.now)) }
{
    let left = tree_number(store, numbers, line.left);
    add_fields(out, &[left, tree_number(store, numbers, line.right)])?;
    add_extra(out, store, numbers, extra_of(line.rule))?;
    add_premises(out, first, &line.premises)
}

/// Appends a line of this number, without its end.
fn add_line<T: Terms>(
    out: &mut Vec<u8>,
    store: &T,
    numbers: &Numbers,
    first: u64,
    number: u64,
    line: &Line,
) -> Result<(), NoMemory>
    requires numbers { AreNumbersIn (T.contents store.now) numbers.now }
    requires line_in { IsLineIn (T.contents store.now) line.now }
    ensures { let c = T.contents store.now in
        OnOk result (out.new.items ≡ out.old.items
        ++ line_text first number (fields_at c line.now) (written_at c numbers.now)) }
{
    add_number(out, number)?;
    add_rule(out, line.rule)?;
    add_claim(out, store, numbers, first, line)
}

/// Writes the lines of a line's trees that have none yet.
fn write_trees<T: Terms>(
    alloc: Global,
    store: &T,
    writer: &mut Writer,
    line: &Line,
) -> Result<(), NoMemory>
    requires numbers { AreNumbersIn (T.contents store.now) writer.old.numbers }
    requires line_in { IsLineIn (T.contents store.now) line.now }
    ensures { let c = T.contents store.now in
        OnOk result (Writes c (write_trees (fields_at c line.now)) writer.old writer.new) }
{
    write_extra(alloc, store, writer, extra_of(line.rule))?;
    write_tree(alloc, store, writer, line.left)?;
    write_tree(alloc, store, writer, line.right)
}

/// Writes a line of this number behind those of its trees. The first line of its section has number
/// `first`.
fn write_line<T: Terms>(
    alloc: Global,
    store: &T,
    writer: &mut Writer,
    first: u64,
    number: u64,
    line: &Line,
) -> Result<(), NoMemory>
    requires numbers { AreNumbersIn (T.contents store.now) writer.old.numbers }
    requires line_in { IsLineIn (T.contents store.now) line.now }
    ensures { let c = T.contents store.now in
        OnOk result (Writes c (write_line first number (line_of c line.now))
        writer.old writer.new) }
{
    write_trees(alloc, store, writer, line)?;
    add_line(&mut writer.out, store, &writer.numbers, first, number, line)?;
    writer.out.push(b'\n')?;
    Ok(())
}

/// Writes lines one after another, the first of them with number `first`.
pub(crate) fn write_lines<T: Terms>(
    alloc: Global,
    store: &T,
    writer: &mut Writer,
    first: u64,
    lines: &[Line],
) -> Result<(), NoMemory>
    requires numbers { AreNumbersIn (T.contents store.now) writer.old.numbers }
    requires lines_in { All (IsLineIn (T.contents store.now)) lines.now }
    ensures { let c = T.contents store.now in
        OnOk result (Writes c (write_lines first first (map (line_of c) lines.now))
        writer.old writer.new) }
{
    let mut number = first;
    let mut rest = lines;
    while let Some((line, more)) = rest.split_first() {
        write_line(alloc, store, writer, first, number, line)?;
        let Some(next) = number.checked_add(1) else {
            return Err(NoMemory);
        };
        number = next;
        rest = more;
    }
    Ok(())
}
