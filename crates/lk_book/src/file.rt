//! A file as a whole, read from a source in pieces.
ghost use Rattle.std.specs.Prelude.{◌≡◌, ◌≢◌, ◌+◌, ◌≤◌, ◌<◌, ◌^◌, ℕ, List, length, true, false, IfOk, IfErr, OnOk, Some, Ok, Err};
ghost use Rattle.std.specs.declared.option.Option.{Option};
ghost use Rattle.std.specs.Io.KnownBytes.{IsAtEnd};
ghost use Rattle.lk_store.specs.Contents.{Extends};
ghost use Rattle.lk_store.specs.Store.{contents_of};
ghost use Rattle.lk_port.specs.Bytes.{Rose};
ghost use Rattle.lk_token.specs.Lines.{HasNoLineFeed};
ghost use Rattle.lk_units.specs.State.{State};
ghost use Rattle.lk_units.specs.Held.{IsKnown, Holds};
ghost use Rattle.lk_env.specs.Units.{library_at, AreUnitsIn};
ghost use Rattle.lk_members.specs.Stored.{lines_of, AreLinesIn};
ghost use Rattle.lk_members.specs.Finishing.{IsFaultless};
ghost use Rattle.lk_members.specs.Indices.{IsIndexed};
ghost use Rattle.lk_members.specs.Plain.{lines_at};
ghost use Rattle.lk_book.specs.File.{lines_of as file_lines, course_in, units_stated, export_stated, export_of};
ghost use Rattle.lk_book.specs.Courses.{over, IsCounted, Remains, TellsFault, ReadsLines, ReadsSome};
ghost use Rattle.lk_book.specs.Reading.{HoldsSome, ConsumesSome, TellsOpen, Reads, ReadsLibrary};

use crate::lines::take_piece;
use crate::long::long_line;
use crate::text::closed_units;
use crate::{LineReader, MAX_LINE, PIECE, ReadError, Reader};
use lk_env::budget::Budget;
use lk_env::library::Library;
use lk_env::unit::Unit;
use lk_lines::{Dialect, Fault};
use lk_members::Members;
use lk_port::Source;
use lk_store::base_store::BaseStore;
use lk_store::terms::Terms;
use lk_units::Assembler;
use std::alloc::{AllocError, Global};

/// Room for a piece, on the heap: the stack may be small.
fn room_for_piece(alloc: Global) -> Result<Vec<u8>, AllocError>
    ensures { IfOk result (λ piece. length piece.items ≡ 2 ^ 16) }
{
    let mut piece = Vec::new(alloc);
    piece.resize(PIECE, 0)?;
    Ok(piece)
}

/// Reads a piece of the source and takes the lines that end in it. The first bytes of a line that goes on are held.
/// It answers whether the source goes on.
#[tactic(auto, using(lk_units::proofs::Holding::unchanged))]
fn read_piece<T: Terms, S: Source, R: LineReader<T>>(
    alloc: Global,
    store: &mut T,
    source: &mut S,
    reader: &mut R,
    held: &mut Vec<u8>,
    piece: &mut [u8],
) -> Result<bool, ReadError>
    requires piece { length piece.old ≡ 2 ^ 16 }
    requires known { R.is_known reader.old (T.contents store.old) }
    requires counted { IsCounted (R.number reader.old) (R.before reader.old) }
    requires unfinished { HasNoLineFeed held.old.items }
    requires short { length held.old.items ≤ 2 ^ 24 }
    ensures keeps { Extends (T.contents store.old) (T.contents store.new) }
    ensures rest { T.rest store.new ≡ T.rest store.old }
    ensures known { OnOk result (R.is_known reader.new (T.contents store.new)) }
    ensures counted { OnOk result (IsCounted (R.number reader.new) (R.before reader.new)) }
    ensures unfinished { OnOk result (HasNoLineFeed held.new.items) }
    ensures short { OnOk result (length held.new.items ≤ 2 ^ 24) }
    ensures progress { IfOk result (λ more. more ≡ true
        → R.before reader.old + length held.old.items
        < R.before reader.new + length held.new.items) }

    ensures remains { (c : R.Course) (old : Option (List ℕ))
        → Remains R.step (R.stands reader.old (T.contents store.old)) c held.old.items old
        (S.left source.old)
        → OnOk result (Remains R.step (R.stands reader.new (T.contents store.new)) c
        held.new.items old (S.left source.new)) }
    ensures tells { (c : R.Course) (old : Option (List ℕ))
        → Remains R.step (R.stands reader.old (T.contents store.old)) c held.old.items old
        (S.left source.old)
        → IfErr result (λ e. TellsFault R.step c e old) }

    ensures front { ConsumesSome (S.left source.old) (S.left source.new) }
    ensures end { IfOk result (λ more. more ≡ false → IsAtEnd (S.left source.new)) }
    ensures fault { result ≡ Err ReadError.ReadFault
        → Rose (S.faults source.old) (S.faults source.new) }
    ensures no_fault { result ≢ Err ReadError.ReadFault → S.faults source.new
        ≡ S.faults source.old }
{
    let read = source.read(piece)?;
    if read == 0 {
        return Ok(false);
    }
    take_piece(alloc, store, reader, held, &piece[..read])?;
    if held.len() > MAX_LINE {
        let word = long_line(source, piece, reader.bytes_taken(), held.len() as u64)?;
        return Err(ReadError::Fault(Fault {
            line: reader.lines_taken() + 1,
            word,
        }));
    }
    Ok(true)
}

/// Reads the source to its end and takes all lines but the last, whose bytes are held.
#[tactic(auto, using(lk_units::proofs::Holding::unchanged))]
fn read_pieces<T: Terms, S: Source, R: LineReader<T>>(
    alloc: Global,
    store: &mut T,
    source: &mut S,
    reader: &mut R,
    held: &mut Vec<u8>,
) -> Result<(), ReadError>
    requires known { R.is_known reader.old (T.contents store.old) }
    requires counted { IsCounted (R.number reader.old) (R.before reader.old) }
    requires unfinished { HasNoLineFeed held.old.items }
    requires short { length held.old.items ≤ 2 ^ 24 }
    ensures keeps { Extends (T.contents store.old) (T.contents store.new) }
    ensures rest { T.rest store.new ≡ T.rest store.old }
    ensures known { OnOk result (R.is_known reader.new (T.contents store.new)) }
    ensures counted { OnOk result (IsCounted (R.number reader.new) (R.before reader.new)) }
    ensures unfinished { OnOk result (HasNoLineFeed held.new.items) }

    ensures remains { (c : R.Course) (old : Option (List ℕ))
        → Remains R.step (R.stands reader.old (T.contents store.old)) c held.old.items old
        (S.left source.old)
        → OnOk result (Remains R.step (R.stands reader.new (T.contents store.new)) c
        held.new.items old (S.left source.new)) }
    ensures tells { (c : R.Course) (old : Option (List ℕ))
        → Remains R.step (R.stands reader.old (T.contents store.old)) c held.old.items old
        (S.left source.old)
        → IfErr result (λ e. TellsFault R.step c e old) }

    ensures front { ConsumesSome (S.left source.old) (S.left source.new) }
    ensures end { OnOk result (IsAtEnd (S.left source.new)) }
    ensures fault { result ≡ Err ReadError.ReadFault
        → Rose (S.faults source.old) (S.faults source.new) }
    ensures no_fault { result ≢ Err ReadError.ReadFault → S.faults source.new
        ≡ S.faults source.old }
{
    let Ok(mut piece) = room_for_piece(alloc) else {
        return Err(ReadError::NoMemory);
    };
    'pieces: loop {
        let more = read_piece(alloc, store, source, reader, held, &mut piece)?;
        if !more {
            return Ok(());
        }
    }
}

/// Reads the lines of a source to its end, and has them taken one after another; or tells the fault of the first faulty
/// line.
pub fn read_lines<T: Terms, S: Source, R: LineReader<T>>(
    alloc: Global,
    store: &mut T,
    source: &mut S,
    reader: &mut R,
) -> Result<(), ReadError>
    requires known { R.is_known reader.old (T.contents store.old) }
    requires counted { IsCounted (R.number reader.old) (R.before reader.old) }
    ensures keeps { Extends (T.contents store.old) (T.contents store.new) }
    ensures rest { T.rest store.new ≡ T.rest store.old }
    ensures known { OnOk result (R.is_known reader.new (T.contents store.new)) }

    // Where the source tells its bytes, the answer is what their lines come to.
    ensures reads { (c : R.Course) (bytes : List ℕ) → R.stands reader.old (T.contents store.old) c
        → S.left source.old ≡ Some bytes → ReadsLines (R.stands reader.new (T.contents store.new))
        (over R.step c (file_lines bytes)) result }

    // Also where it does not, it is what the lines of some file come to.
    ensures some { (c : R.Course) → R.stands reader.old (T.contents store.old) c
        → OnOk result (ReadsSome R.step (R.stands reader.new (T.contents store.new)) c) }

    ensures front { ConsumesSome (S.left source.old) (S.left source.new) }
    ensures end { OnOk result (IsAtEnd (S.left source.new)) }
    ensures fault { result ≡ Err ReadError.ReadFault
        → Rose (S.faults source.old) (S.faults source.new) }
    ensures no_fault { result ≢ Err ReadError.ReadFault → S.faults source.new
        ≡ S.faults source.old }
{
    let mut held = Vec::new(alloc);
    read_pieces(alloc, store, source, reader, &mut held)?;
    reader.take(alloc, store, false, &held)?;
    Ok(())
}

/// What a reader gathered.
pub(crate) fn assembler_of(reader: Reader) -> Assembler
    ensures { result ≡ reader.assembler }
{
    reader.assembler
}

/// Reads the lines of a file, from a source and into a store; or tells the fault of the first faulty line.
pub(crate) fn read_all_lines<T: Terms, S: Source>(
    alloc: Global,
    dialect: Dialect,
    store: &mut T,
    source: &mut S,
) -> Result<Assembler, ReadError>
    requires library { dialect ≢ Dialect.Trace }
    ensures keeps { Extends (T.contents store.old) (T.contents store.new) }
    ensures rest { T.rest store.new ≡ T.rest store.old }
    ensures known { IfOk result (λ a. IsKnown a (T.contents store.new)) }

    // Where the source tells its bytes, the answer is what they state.
    ensures reads { (bytes : List ℕ) → S.left source.old ≡ Some bytes
        → Reads (T.contents store.new) (course_in dialect bytes) result }

    // Also where it does not, they are what some file states.
    ensures some { IfOk result (HoldsSome dialect (T.contents store.new)) }

    ensures front { ConsumesSome (S.left source.old) (S.left source.new) }
    ensures end { OnOk result (IsAtEnd (S.left source.new)) }
    ensures fault { result ≡ Err ReadError.ReadFault
        → Rose (S.faults source.old) (S.faults source.new) }
    ensures no_fault { result ≢ Err ReadError.ReadFault → S.faults source.new
        ≡ S.faults source.old }
{
    let assembler = match Assembler::new(alloc, store) {
        Ok(assembler) => assembler,
        Err(_) => return Err(ReadError::NoMemory),
    };
    let mut reader = Reader {
        assembler,
        dialect,
        first: true,
        number: 0,
        before: 0,
    };
    read_lines(alloc, store, source, &mut reader)?;
    Ok(assembler_of(reader))
}

/// The units of the lines that were read, or the first line of a block that is open.
pub(crate) fn units_of(
    alloc: Global,
    store: &BaseStore,
    members: Members,
) -> Result<Vec<Unit>, ReadError>
    requires lines { AreLinesIn (contents_of store.now) members.lines.items }
    requires indexed { IsIndexed members }
    requires faultless { IsFaultless (lines_of members.lines.items) }
    ensures known { IfOk result (λ us. AreUnitsIn (contents_of store.now) us.items) }
    ensures units { IfOk result (λ us. units_stated
        (lines_at (contents_of store.now) members.lines.items)
        ≡ Ok (library_at (contents_of store.now) us.items)) }
    ensures fault { IfErr result (λ e. TellsOpen e
        (units_stated (lines_at (contents_of store.now) members.lines.items))) }
{
    match closed_units(alloc, store, members) {
        Ok(units) => Ok(units),
        Err(error) => Err(ReadError::from(error)),
    }
}

/// What was gathered of units and of their budgets. The numberings are needed no more.
pub(crate) fn lines_and_budgets(assembler: Assembler) -> (Members, Vec<Budget>)
    ensures members { result.0 ≡ assembler.members }
    ensures budgets { result.1 ≡ assembler.budgets }
{
    (assembler.members, assembler.budgets)
}

/// The library of the lines that were read.
pub fn library_of(
    alloc: Global,
    mut store: BaseStore,
    assembler: Assembler,
) -> Result<Library, ReadError>
    requires { IsKnown assembler (contents_of store) }
    ensures library { (s : State) → Holds assembler (contents_of store) s
        → ReadsLibrary (export_stated s) result }
    ensures tables { IfOk result (λ l. l.tables ≡ store) }
    ensures read { result ≢ Err ReadError.ReadFault }
{
    store.freeze();
    let (members, budgets) = lines_and_budgets(assembler);
    let units = match units_of(alloc, &store, members) {
        Ok(units) => units,
        Err(error) => return Err(error),
    };
    match Library::new(alloc, store, units, budgets) {
        Ok(library) => Ok(library),
        Err(_) => Err(ReadError::NoMemory),
    }
}

/// Reads the library that a file states, from a source: a library whole, or the file's fault, which is that of its first
/// faulty line, and of that line's faults the first.
///
/// Of the file no more is held at a time than a piece and the first bytes of a line. A failed read and want of memory
/// end it at once. Behind any error the source has lost some bytes from its front.
pub fn read_library<S: Source>(alloc: Global, source: &mut S) -> Result<Library, ReadError>
    // Where the source tells its bytes, the answer is what they state.
    ensures reads { (bytes : List ℕ) → S.left source.old ≡ Some bytes
        → ReadsLibrary (export_of bytes) result }

    ensures front { ConsumesSome (S.left source.old) (S.left source.new) }
    ensures end { OnOk result (IsAtEnd (S.left source.new)) }
    ensures fault { result ≡ Err ReadError.ReadFault
        → Rose (S.faults source.old) (S.faults source.new) }
    ensures no_fault { result ≢ Err ReadError.ReadFault → S.faults source.new
        ≡ S.faults source.old }
{
    let mut store = BaseStore::new(alloc);
    match read_all_lines(alloc, Dialect::Export, &mut store, source) {
        Ok(assembler) => library_of(alloc, store, assembler),
        Err(error) => Err(error),
    }
}
