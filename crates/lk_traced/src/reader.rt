//! Whoever reads a file with derivations line by line.
ghost use Rattle.std.specs.Prelude.{◌≡◌, ◌+◌, ◌<◌, ◌≤◌, ◌^◌, true, IfOk, IfErr, OnOk, Ok, Some, None};
ghost use Rattle.lk_lines.specs.Limits.{limits};
ghost use Rattle.lk_lines.specs.declared.words.Word.{Word as LineWord};
ghost use Rattle.lk_book.specs.Courses.{IsCounted, Goes};
ghost use Rattle.lk_store.specs.Contents.{Extends};
ghost use Rattle.lk_token.specs.Lines.{HasNoLineFeed};
ghost use Rattle.lk_units.specs.Held.{IsKnown};
ghost use Rattle.lk_book.specs.Course.{Course, feed_count};
ghost use Rattle.lk_book.specs.File.{export_stated};
ghost use Rattle.lk_book.specs.Passing.{Stands};
ghost use Rattle.lk_traced.specs.Begun.{HoldsSections, AreSectionsKnown};
ghost use Rattle.lk_traced.specs.Course.{TraceCourse, begin_trace, taken_line};
ghost use Rattle.lk_traced.specs.Placed.{Behind};
ghost use Rattle.lk_traced.specs.Standing.{StandsTrace, IsTraceKnown, GoesBehind};

use crate::before::before_line;
use crate::behind::take_behind;
use crate::sections::Sections;
use lk_book::{LineReader, Reader, at_line};
use lk_lines::{Dialect, Fault, LineError, limit_fault, read_line_below};
use lk_store::terms::Terms;
use lk_units::{Assembler, TakeError};
use std::alloc::Global;

/// What the lines so far came to.
#[derive(Drop)]
pub struct TraceReader {
    /// The lines as those of a library, and what the numbers of levels and expressions behind `#TR` have in the store.
    pub reader: Reader,
    /// What stands behind `#TR`, where the lines reach beyond it.
    pub behind: Option<Sections>,
}

/// How many bytes end a line.
fn feed_count(feed: bool) -> u64
    ensures value { result ≡ feed_count feed }
    ensures small { result ≤ 1 }
{
    if feed { 1 } else { 0 }
}

/// Passes the next line, of so many bytes, and gives its number; or tells that it is too long.
fn pass(reader: &mut Reader, feed: bool, length: u64) -> Result<u64, LineError>
    requires counted { IsCounted reader.old.number reader.old.before }
    requires room { length + 2 ^ 41 < 2 ^ 64 }
    ensures number { IfOk result (λ n. n ≡ reader.old.number + 1) }
    ensures passes { OnOk result (reader.new ≡ record reader.old {
      number = reader.old.number + 1;
      before = reader.old.before + (length + feed_count feed);
    }) }
    ensures within { OnOk result (limits reader.old.before length feed ≡ None) }
    ensures counted { OnOk result (feed ≡ true → IsCounted reader.new.number reader.new.before) }
    ensures tells { IfErr result (λ e. (w : LineWord)
        × (limits reader.old.before length feed ≡ Some w)
        × (e ≡ LineError.Fault (record { line = reader.old.number + 1; word = w }))) }
{
    let number = reader.number + 1;
    if let Some(word) = limit_fault(reader.before, length, feed) {
        return Err(LineError::Fault(Fault { line: number, word }));
    }
    reader.number = number;
    reader.before += length + feed_count(feed);
    Ok(number)
}

/// Takes line `number`, which is passed and stands behind `#TR`.
#[tactic(auto, using(lk_units::proofs::Holding::unchanged))]
fn behind_line<T: Terms>(
    alloc: Global,
    store: &mut T,
    reader: &mut Reader,
    sections: &mut Sections,
    number: u64,
    line: &[u8],
) -> Result<(), LineError>
    requires known { IsKnown reader.old.assembler (T.contents store.old) }
    requires sections { AreSectionsKnown sections.old (T.contents store.old) }
    requires number { number ≡ reader.old.number }
    requires whole { HasNoLineFeed line.now }
    ensures keeps { Extends (T.contents store.old) (T.contents store.new) }
    ensures rest { T.rest store.new ≡ T.rest store.old }
    ensures known { OnOk result (IsKnown reader.new.assembler (T.contents store.new)) }
    ensures sections { OnOk result (AreSectionsKnown sections.new (T.contents store.new)) }
    ensures counts { (reader.new.number ≡ reader.old.number)
        × (reader.new.before ≡ reader.old.before) }
    ensures step { (c : Course) (b : Behind) → Stands reader.old (T.contents store.old) c
        → HoldsSections sections.old (T.contents store.old) b → export_stated c.state ≡ Ok b.export
        → GoesBehind reader.new sections.new (T.contents store.new) result
        (taken_line c (Some b) line.now) }
{
    let line = match read_line_below::<u64>(alloc, Dialect::Trace, number, false, line) {
        Ok(line) => line,
        Err(error) => return Err(error),
    };
    let assembler = &mut reader.assembler;
    match take_behind(alloc, store, assembler, sections, number, line.statement) {
        Ok(()) => Ok(()),
        Err(error) => Err(at_line(number, error)),
    }
}

impl TraceReader {
    /// A reader that took no line.
    pub fn new<T: Terms>(alloc: Global, store: &mut T) -> Result<Self, TakeError>
        ensures keeps { Extends (T.contents store.old) (T.contents store.new) }
        ensures rest { T.rest store.new ≡ T.rest store.old }
        ensures known { IfOk result (λ r. IsTraceKnown r (T.contents store.new)) }
        ensures counts { IfOk result (λ r. (r.reader.number ≡ 0) × (r.reader.before ≡ 0)) }
        ensures stands { IfOk result (λ r. StandsTrace r (T.contents store.new) begin_trace) }
    {
        let assembler = Assembler::new(alloc, store)?;
        Ok(TraceReader {
            reader: Reader {
                assembler,
                dialect: Dialect::Trace,
                first: true,
                number: 0,
                before: 0,
            },
            behind: None,
        })
    }

    /// Takes line `number`, which is passed.
    #[tactic(auto, using(lk_units::proofs::Holding::unchanged))]
    fn take_passed<T: Terms>(
        &mut self,
        alloc: Global,
        store: &mut T,
        number: u64,
        line: &[u8],
    ) -> Result<(), LineError>
        requires known { IsTraceKnown self.old (T.contents store.old) }
        requires number { number ≡ self.old.reader.number }
        requires whole { HasNoLineFeed line.now }
        ensures keeps { Extends (T.contents store.old) (T.contents store.new) }
        ensures rest { T.rest store.new ≡ T.rest store.old }
        ensures known { OnOk result (IsTraceKnown self.new (T.contents store.new)) }
        ensures counts { (self.new.reader.number ≡ self.old.reader.number)
            × (self.new.reader.before ≡ self.old.reader.before) }
        ensures step { (t : TraceCourse) → StandsTrace self.old (T.contents store.old) t
            → Goes (StandsTrace self.new (T.contents store.new)) result
            (taken_line t.course t.behind line.now) }
    {
        match &mut self.behind {
            Some(sections) => {
                behind_line(alloc, store, &mut self.reader, sections, number, line)
            }
            None => match before_line(alloc, store, &mut self.reader, number, line) {
                Ok(begun) => {
                    self.behind = begun;
                    Ok(())
                }
                Err(error) => Err(error),
            },
        }
    }
}

impl<T: Terms> LineReader<T> for TraceReader {
    ghost use Rattle.lk_traced.specs.Course.{TraceCourse, trace_step};
    ghost use Rattle.lk_traced.specs.Standing.{StandsTrace, IsTraceKnown};
    ghost use Rattle.lk_traced.specs.Limited.{trace_limited};

    ghost Course = { TraceCourse };

    ghost step = { trace_step };

    ghost stands = { StandsTrace };

    ghost is_known = { IsTraceKnown };

    ghost number = { λ r. r.reader.number };

    ghost before = { λ r. r.reader.before };

    ghost limited = { trace_limited };

    #[inline(always)]
    fn lines_taken(&self) -> u64 {
        self.reader.number
    }

    #[inline(always)]
    fn bytes_taken(&self) -> u64 {
        self.reader.before
    }

    #[tactic(auto, using(lk_units::proofs::Holding::unchanged))]
    fn take(
        &mut self,
        alloc: Global,
        store: &mut T,
        feed: bool,
        line: &[u8],
    ) -> Result<(), LineError> {
        let number = match pass(&mut self.reader, feed, line.len() as u64) {
            Ok(number) => number,
            Err(error) => return Err(error),
        };
        self.take_passed(alloc, store, number, line)
    }
}
