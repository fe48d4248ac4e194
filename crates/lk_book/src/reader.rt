//! Lines taken one after another.
ghost use Rattle.std.specs.Prelude.{◌≡◌, ◌≢◌, ◌+◌, ◌≤◌, ◌<◌, ◌^◌, ℕ, List, length, true, OnOk, IfNone};
ghost use Rattle.lk_store.specs.Contents.{Extends};
ghost use Rattle.lk_token.specs.Lines.{HasNoLineFeed};
ghost use Rattle.lk_lines.specs.Limits.{limits};
ghost use Rattle.lk_lines.specs.FileNumbers.{narrow};
ghost use Rattle.lk_lines.specs.Views.{says_of};
ghost use Rattle.lk_units.specs.Held.{IsKnown};
ghost use Rattle.lk_book.specs.Course.{Course, feed_count, taken, at_line, step};
ghost use Rattle.lk_book.specs.Courses.{IsCounted, Goes};
ghost use Rattle.lk_book.specs.Passing.{Stands, IsLibraryLine, line_error};

use crate::LineReader;
use lk_lines::{Dialect, Fault, LineError, Statement, limit_fault, read_line_in};
use lk_store::terms::Terms;
use lk_units::{Assembler, TakeError};
use std::alloc::Global;

/// What the lines so far came to.
#[derive(Drop)]
pub struct Reader {
    pub assembler: Assembler,
    /// Which tags the lines may have.
    pub dialect: Dialect,
    /// Whether they are all blank, so that the next one may be the version.
    pub first: bool,
    /// How many they are.
    pub number: u64,
    /// How many bytes they have, line feeds counted.
    pub before: u64,
}

/// The error of an item in a line.
pub fn at_line(number: u64, error: TakeError) -> LineError
    ensures { result ≡ line_error number error }
{
    match error {
        TakeError::NoMemory => LineError::NoMemory,
        TakeError::Fault(word) => LineError::Fault(Fault { line: number, word }),
    }
}

/// How many bytes end a line.
fn feed_count(feed: bool) -> u64
    ensures value { result ≡ feed_count feed }
    ensures small { result ≤ 1 }
{
    if feed { 1 } else { 0 }
}

impl Reader {
    /// Takes what the line says that was counted last, of this number.
    #[inline(always)]
    #[tactic(auto, using(crate::proofs::Steps::item_goes, crate::proofs::Steps::item_stops, lk_units::proofs::Holding::unchanged))]
    pub fn take_said<T: Terms>(
        &mut self,
        alloc: Global,
        store: &mut T,
        number: u64,
        statement: Statement<'_>,
    ) -> Result<(), LineError>
        requires known { IsKnown self.old.assembler (T.contents store.old) }
        requires number { number ≡ self.old.number }
        requires library { IsLibraryLine statement }
        ensures keeps { Extends (T.contents store.old) (T.contents store.new) }
        ensures rest { T.rest store.new ≡ T.rest store.old }
        ensures known { OnOk result (IsKnown self.new.assembler (T.contents store.new)) }
        ensures counts { (self.new.number ≡ self.old.number) × (self.new.before ≡ self.old.before) }
        ensures dialect { self.new.dialect ≡ self.old.dialect }
        ensures follows { (c : Course) → Stands self.old (T.contents store.old) c
            → Goes (Stands self.new (T.contents store.new)) result
            (at_line number (taken c (says_of narrow statement.entry))) }
    {
        match statement {
            Statement::Blank => Ok(()),
            Statement::Version => {
                self.first = false;
                Ok(())
            }
            Statement::Entry { own, entry } => {
                self.first = false;
                match self.assembler.take_entry(alloc, store, own, entry) {
                    Ok(()) => Ok(()),
                    Err(error) => Err(at_line(number, error)),
                }
            }
            Statement::Declaration(declaration) => {
                self.first = false;
                match self
                    .assembler
                    .take_declaration(alloc, store, number, declaration)
                {
                    Ok(()) => Ok(()),
                    Err(error) => Err(at_line(number, error)),
                }
            }
            Statement::Budget { name, steps } => {
                self.first = false;
                match self.assembler.take_budget(name, steps) {
                    Ok(()) => Ok(()),
                    Err(error) => Err(at_line(number, error)),
                }
            }
            Statement::Go => {
                self.first = false;
                match self.assembler.part(alloc) {
                    Ok(()) => Ok(()),
                    Err(error) => Err(at_line(number, error)),
                }
            }
            // No library has the tags of derivations.
            Statement::Trace => unreachable!(),
            Statement::Local { .. } => unreachable!(),
            Statement::Section { .. } => unreachable!(),
            Statement::Derivation { .. } => unreachable!(),
            Statement::Parts { .. } => unreachable!(),
        }
    }

    /// Takes the next line; `feed` says that a line feed ends it.
    #[tactic(auto, using(lk_units::proofs::Holding::unchanged, crate::proofs::LibraryLines::library_line), unfolding(crate::specs::Course::step))]
    pub fn take_line<T: Terms>(
        &mut self,
        alloc: Global,
        store: &mut T,
        feed: bool,
        line: &[u8],
    ) -> Result<(), LineError>
        requires known { IsKnown self.old.assembler (T.contents store.old) }
        requires counted { IsCounted self.old.number self.old.before }
        requires whole { HasNoLineFeed line.now }
        requires library { self.old.dialect ≢ Dialect.Trace }
        ensures keeps { Extends (T.contents store.old) (T.contents store.new) }
        ensures rest { T.rest store.new ≡ T.rest store.old }
        ensures known { OnOk result (IsKnown self.new.assembler (T.contents store.new)) }
        ensures counted { OnOk result (feed ≡ true → IsCounted self.new.number self.new.before) }
        ensures length { OnOk result (self.new.before
            ≡ self.old.before + length line.now + feed_count feed) }
        ensures dialect { self.new.dialect ≡ self.old.dialect }
        ensures step { (c : Course) → Stands self.old (T.contents store.old) c
            → Goes (Stands self.new (T.contents store.new)) result (step c feed line.now) }
    {
        let number = self.number + 1;
        let length = line.len() as u64;
        if let Some(word) = limit_fault(self.before, length, feed) {
            return Err(LineError::Fault(Fault { line: number, word }));
        }
        let line = read_line_in(alloc, self.dialect, number, self.first, line)?;
        self.number = number;
        self.before += length + feed_count(feed);
        self.take_said(alloc, store, number, line.statement)
    }
}

impl<T: Terms> LineReader<T> for Reader {
    ghost use Rattle.lk_book.specs.Course.{Course, step};
    ghost use Rattle.lk_book.specs.Passing.{Stands, IsReaderKnown};
    ghost use Rattle.lk_book.specs.Limited.{limited};

    ghost Course = { Course };

    ghost step = { step };

    ghost stands = { Stands };

    ghost is_known = { IsReaderKnown };

    ghost number = { λ r. r.number };

    ghost before = { λ r. r.before };

    ghost limited = { limited };

    #[inline(always)]
    fn lines_taken(&self) -> u64 {
        self.number
    }

    #[inline(always)]
    fn bytes_taken(&self) -> u64 {
        self.before
    }

    #[inline(always)]
    fn take(
        &mut self,
        alloc: Global,
        store: &mut T,
        feed: bool,
        line: &[u8],
    ) -> Result<(), LineError> {
        self.take_line(alloc, store, feed, line)
    }
}
