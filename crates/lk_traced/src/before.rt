//! Lines before `#TR`.
ghost use Rattle.std.specs.Prelude.{◌≡◌, IfOk, OnOk, None};
ghost use Rattle.lk_store.specs.Contents.{Extends};
ghost use Rattle.lk_token.specs.Lines.{HasNoLineFeed};
ghost use Rattle.lk_lines.specs.FileNumbers.{narrow};
ghost use Rattle.lk_lines.specs.Views.{says_of};
ghost use Rattle.lk_units.specs.Held.{IsKnown};
ghost use Rattle.lk_book.specs.Course.{Course};
ghost use Rattle.lk_book.specs.Passing.{Stands, IsLibraryLine};
ghost use Rattle.lk_traced.specs.Course.{taken_before, taken_line};
ghost use Rattle.lk_traced.specs.Standing.{IsBehindKnown, GoesBefore};

use crate::misplaced::{misplaced_derivation, misplaced_local, misplaced_parts};
use crate::opening::begin_behind;
use crate::sections::Sections;
use lk_book::{Reader, at_line};
use lk_lines::{Dialect, LineError, Statement, Word, read_line_in};
use lk_store::terms::Terms;
use lk_units::TakeError;
use std::alloc::Global;

/// Takes what a line says that a library may have.
#[inline(never)]
fn take_library<T: Terms>(
    alloc: Global,
    store: &mut T,
    reader: &mut Reader,
    number: u64,
    statement: Statement<'_>,
) -> Result<Option<Sections>, LineError>
    requires known { IsKnown reader.old.assembler (T.contents store.old) }
    requires number { number ≡ reader.old.number }
    requires library { IsLibraryLine statement }
    ensures keeps { Extends (T.contents store.old) (T.contents store.new) }
    ensures rest { T.rest store.new ≡ T.rest store.old }
    ensures known { OnOk result (IsKnown reader.new.assembler (T.contents store.new)) }
    ensures behind { IfOk result (λ x. IsBehindKnown x (T.contents store.new)) }
    ensures counts { (reader.new.number ≡ reader.old.number)
        × (reader.new.before ≡ reader.old.before) }
    ensures follows { (c : Course) → Stands reader.old (T.contents store.old) c
        → GoesBefore reader.new (T.contents store.new) result
        (taken_before c (says_of narrow statement.entry)) }
{
    match reader.take_said(alloc, store, number, statement) {
        Ok(()) => Ok(None),
        Err(error) => Err(error),
    }
}

/// Takes what line `number` says, which stands before `#TR` or is that line. It answers what stands behind `#TR`.
#[tactic(auto, using(lk_units::proofs::Holding::unchanged))]
fn take_before<T: Terms>(
    alloc: Global,
    store: &mut T,
    reader: &mut Reader,
    number: u64,
    statement: Statement<'_>,
) -> Result<Option<Sections>, LineError>
    requires known { IsKnown reader.old.assembler (T.contents store.old) }
    requires number { number ≡ reader.old.number }
    ensures keeps { Extends (T.contents store.old) (T.contents store.new) }
    ensures rest { T.rest store.new ≡ T.rest store.old }
    ensures known { OnOk result (IsKnown reader.new.assembler (T.contents store.new)) }
    ensures behind { IfOk result (λ x. IsBehindKnown x (T.contents store.new)) }
    ensures counts { (reader.new.number ≡ reader.old.number)
        × (reader.new.before ≡ reader.old.before) }
    ensures follows { (c : Course) → Stands reader.old (T.contents store.old) c
        → GoesBefore reader.new (T.contents store.new) result
        (taken_before c (says_of narrow statement.entry)) }
{
    match statement {
        Statement::Blank => take_library(alloc, store, reader, number, Statement::Blank),
        Statement::Version => take_library(alloc, store, reader, number, Statement::Version),
        Statement::Entry { own, entry } => {
            let statement = Statement::Entry { own, entry };
            take_library(alloc, store, reader, number, statement)
        }
        Statement::Declaration(declaration) => {
            let statement = Statement::Declaration(declaration);
            take_library(alloc, store, reader, number, statement)
        }
        Statement::Budget { name, steps } => {
            let statement = Statement::Budget { name, steps };
            take_library(alloc, store, reader, number, statement)
        }
        Statement::Go => take_library(alloc, store, reader, number, Statement::Go),
        Statement::Trace => begin_behind(alloc, store, reader),
        Statement::Local {
            own,
            number: of,
            declared_type,
        } => {
            let assembler = &mut reader.assembler;
            Err(at_line(
                number,
                misplaced_local(assembler, store, own, of, declared_type),
            ))
        }
        Statement::Section { .. } => Err(at_line(number, TakeError::Fault(Word::TraceOrder))),
        Statement::Derivation { line, .. } => {
            Err(at_line(
                number,
                misplaced_derivation(alloc, &reader.assembler, &line),
            ))
        }
        Statement::Parts { premises } => Err(at_line(number, misplaced_parts(&premises))),
    }
}

/// Takes line `number`, which is passed and stands before `#TR` or is that line. It answers what stands behind `#TR`.
#[tactic(auto, using(lk_units::proofs::Holding::unchanged))]
pub(crate) fn before_line<T: Terms>(
    alloc: Global,
    store: &mut T,
    reader: &mut Reader,
    number: u64,
    line: &[u8],
) -> Result<Option<Sections>, LineError>
    requires known { IsKnown reader.old.assembler (T.contents store.old) }
    requires number { number ≡ reader.old.number }
    requires whole { HasNoLineFeed line.now }
    ensures keeps { Extends (T.contents store.old) (T.contents store.new) }
    ensures rest { T.rest store.new ≡ T.rest store.old }
    ensures known { OnOk result (IsKnown reader.new.assembler (T.contents store.new)) }
    ensures behind { IfOk result (λ x. IsBehindKnown x (T.contents store.new)) }
    ensures counts { (reader.new.number ≡ reader.old.number)
        × (reader.new.before ≡ reader.old.before) }
    ensures step { (c : Course) → Stands reader.old (T.contents store.old) c
        → GoesBefore reader.new (T.contents store.new) result (taken_line c None line.now) }
{
    match read_line_in(alloc, Dialect::Trace, number, reader.first, line) {
        Ok(line) => take_before(alloc, store, reader, number, line.statement),
        Err(error) => Err(error),
    }
}
