//! A text that a caller gives, in memory: a whole export without budgets, read behind the units of
//! a library.
ghost use Rattle.std.specs.Prelude.{◌≡◌, ◌≤◌, ◌^◌, ◌++◌, ℕ, List, [], IfOk, IfErr, OnOk, OnErr, Ok};
ghost use Rattle.lk_store.specs.Contents.{Extends};
ghost use Rattle.lk_store.specs.Store.{contents_of};
ghost use Rattle.lk_env.specs.Units.{library_at, library_of, AreUnitsIn};
ghost use Rattle.lk_members.specs.Stored.{lines_of, AreLinesIn};
ghost use Rattle.lk_members.specs.Finishing.{IsFaultless};
ghost use Rattle.lk_members.specs.Indices.{IsIndexed};
ghost use Rattle.lk_members.specs.Plain.{lines_at};
ghost use Rattle.lk_units.specs.Held.{IsKnown};
ghost use Rattle.lk_book.specs.Courses.{Fails};
ghost use Rattle.lk_book.specs.File.{units_stated};
ghost use Rattle.lk_book.specs.Reading.{HoldsLines};
ghost use Rattle.lk_book.specs.Texts.{text_course, text_of, AddsText};

use crate::Reader;
use crate::file::{assembler_of, lines_and_budgets};
use crate::lines::read_bytes;
use lk_env::library::Library;
use lk_env::unit::Unit;
use lk_lines::{Dialect, Fault, LineError, Word};
use lk_members::Members;
use lk_members::finish::FinishError;
use lk_store::terms::Terms;
use lk_units::Assembler;
use std::alloc::Global;

/// What the lines of a text declare, taken into a store; or the fault of the first faulty line. So
/// many bytes of the input stand before the text.
pub(crate) fn text_lines<T: Terms>(
    alloc: Global,
    store: &mut T,
    before: u64,
    text: &[u8],
) -> Result<Assembler, LineError>
    requires { before ≤ 2 ^ 40 }
    ensures keeps { Extends (T.contents store.old) (T.contents store.new) }
    ensures rest { T.rest store.new ≡ T.rest store.old }
    ensures known { IfOk result (λ a. IsKnown a (T.contents store.new)) }
    ensures reads { HoldsLines (T.contents store.new) (text_course before text.now) result }
{
    let assembler = match Assembler::new(alloc, store) {
        Ok(assembler) => assembler,
        Err(_) => return Err(LineError::NoMemory),
    };
    let mut reader = Reader {
        assembler,
        dialect: Dialect::Text,
        first: true,
        number: 0,
        before,
    };
    read_bytes(alloc, store, &mut reader, text)?;
    Ok(assembler_of(reader))
}

/// The units of lines, or the first line of a block that is open.
pub(crate) fn closed_units<T: Terms>(
    alloc: Global,
    store: &T,
    members: Members,
) -> Result<Vec<Unit>, LineError>
    requires lines { AreLinesIn (T.contents store.now) members.lines.items }
    requires indexed { IsIndexed members }
    requires faultless { IsFaultless (lines_of members.lines.items) }
    ensures known { IfOk result (λ us. AreUnitsIn (T.contents store.now) us.items) }
    ensures units { IfOk result (λ us. units_stated
        (lines_at (T.contents store.now) members.lines.items)
        ≡ Ok (library_at (T.contents store.now) us.items)) }
    ensures fault { IfErr result (λ e. Fails e
        (units_stated (lines_at (T.contents store.now) members.lines.items))) }
{
    // The names of the store are apart, so that their numbers tell.
    let _names = store.count_names();
    match members.finish(alloc) {
        Ok(units) => Ok(units),
        Err(FinishError::NoMemory) => Err(LineError::NoMemory),
        Err(FinishError::Open(line)) => Err(LineError::Fault(Fault {
            line,
            word: Word::BlockOpen,
        })),
    }
}

/// The units that a text states, taken into a store; or the text's fault.
pub(crate) fn text_units<T: Terms>(
    alloc: Global,
    store: &mut T,
    text: &[u8],
) -> Result<Vec<Unit>, LineError>
    ensures keeps { Extends (T.contents store.old) (T.contents store.new) }
    ensures rest { T.rest store.new ≡ T.rest store.old }
    ensures known { IfOk result (λ us. AreUnitsIn (T.contents store.new) us.items) }
    ensures units { IfOk result (λ us. text_of text.now
        ≡ Ok (library_at (T.contents store.new) us.items)) }
    ensures fault { IfErr result (λ e. Fails e (text_of text.now)) }
{
    let assembler = match text_lines(alloc, store, 0, text) {
        Ok(assembler) => assembler,
        Err(error) => return Err(error),
    };
    let (members, _budgets) = lines_and_budgets(assembler);
    closed_units(alloc, store, members)
}

/// Reads a text behind the units of a library, in place: the units that it states come behind the
/// library's own. Its numbers are its own; a name, a level or a tree that is in the library's store
/// has the number that it has there. It takes no more time than the text asks, however large the
/// library is.
///
/// Where the text has a fault, or memory is wanting, the library has the units that it had; its
/// store may have more names, levels and trees.
pub fn add_text(alloc: Global, library: &mut Library, text: &[u8]) -> Result<(), LineError>
    requires { library.old.budgets ≡ [] }
    ensures keeps { Extends (contents_of library.old.tables) (contents_of library.new.tables) }
    ensures budgets { library.new.budgets ≡ [] }
    ensures ok { OnOk result (AddsText library.old library.new text.now) }
    ensures fault { IfErr result (λ e. Fails e (text_of text.now)) }
    ensures units_stay { OnErr result (library.new.units ≡ library.old.units) }
    ensures library_stays { OnErr result (library_of library.new ≡ library_of library.old) }
{
    // Its units are in its store.
    let _units = library.units();
    let units = text_units(alloc, library, text)?;
    match library.add_units(alloc, units) {
        Ok(()) => Ok(()),
        Err(_) => Err(LineError::NoMemory),
    }
}

/// The library that a text states; or the text's fault.
pub fn read_text(alloc: Global, text: &[u8]) -> Result<Library, LineError>
    ensures ok { IfOk result (λ l. text_of text.now ≡ Ok (library_of l)) }
    ensures budgets { IfOk result (λ l. l.budgets ≡ []) }
    ensures fault { IfErr result (λ e. Fails e (text_of text.now)) }
{
    let mut library = Library::empty(alloc);
    match add_text(alloc, &mut library, text) {
        Ok(()) => Ok(library),
        Err(error) => Err(error),
    }
}
