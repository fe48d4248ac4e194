//! The cases of the table, one after another.
use crate::items::write_items;
use crate::limits::write_limits;
use crate::reading::{AT_ONCE, answer_of, read_in_pieces, read_with_faults};
use crate::table::{Case, add_line, case_of};
use crate::texts::write_texts;
use crate::written::write_line;
use std::alloc::Global;
use std::io;

/// Where the table is read.
#[derive(Drop)]
pub struct Cases {
    /// What is done with the lines.
    pub case: Case,
    /// The file that the lines of this case are, so far.
    pub text: Vec<u8>,
    /// How many further readings of files are as they are to be.
    pub alike: u64,
}

/// Writes what a file states, or its first fault. It says how many further readings of it are as
/// they are to be.
fn write_file(rt: &impl Print, alloc: Global, file: &[u8]) -> io::Result<u64> {
    let found = answer_of(alloc, file, AT_ONCE, None);
    println!(rt; "{found}")?;
    let alike = read_in_pieces(rt, alloc, file, found)?;
    let told = read_with_faults(rt, alloc, file)?;
    Ok(alike.saturating_add(told))
}

/// Writes what a file states whose first line has so many more spaces in front, or its first fault.
/// It is read once, since a piece a byte would take long.
fn write_long_file(rt: &impl Print, alloc: Global, spaces: usize, file: &[u8]) -> io::Result<()> {
    let mut bytes = vec![in alloc; b' '; spaces]?;
    bytes.extend_from_slice(file)?;
    let found = answer_of(alloc, &bytes, AT_ONCE, None);
    println!(rt; "{found}")
}

/// Writes what a line of the table tells as a line of a file.
fn write_own(rt: &impl Print, alloc: Global, line: &[u8]) -> io::Result<()> {
    let mut own = Vec::new(alloc);
    add_line(&mut own, line)?;
    write_line(rt, alloc, &own)?;
    println!(rt; "")
}

impl Cases {
    /// Ends a case.
    pub fn end(&mut self, rt: &impl Print, alloc: Global) -> io::Result<()> {
        match self.case {
            Case::File => {
                let alike = write_file(rt, alloc, &self.text)?;
                self.alike = self.alike.saturating_add(alike);
                Ok(())
            }
            Case::Spaces(count) => write_long_file(rt, alloc, count, &self.text),
            Case::Texts => write_texts(rt, alloc, &self.text),
            _ => Ok(()),
        }
    }

    /// Takes a line of a case.
    fn take_line(&mut self, rt: &impl Print, alloc: Global, line: &str) -> io::Result<()> {
        match self.case {
            Case::Limits => write_limits(rt, line),
            Case::Items => match line.split_once(' ') {
                Some((items, behind)) => write_items(rt, alloc, items, behind.as_bytes()),
                None => println!(rt; "no number"),
            },
            Case::Lines => write_own(rt, alloc, line.as_bytes()),
            _ => {
                add_line(&mut self.text, line.as_bytes())?;
                Ok(())
            }
        }
    }

    /// Takes a line of the table.
    pub fn take(&mut self, rt: &impl Print, alloc: Global, line: &str) -> io::Result<()> {
        match line.strip_prefix("%%") {
            Some(head) => {
                self.end(rt, alloc)?;
                self.text.clear();
                self.case = case_of(head);
                Ok(())
            }
            None => self.take_line(rt, alloc, line),
        }
    }
}
