//! A file with derivations as a whole, read from a source.
ghost use Rattle.std.specs.Prelude.{◌≡◌, ◌≢◌, ℕ, List, IfOk, OnOk, Some, Ok, Err};
ghost use Rattle.std.specs.Io.KnownBytes.{IsAtEnd};
ghost use Rattle.lk_store.specs.Contents.{Contents};
ghost use Rattle.lk_store.specs.Store.{contents_of};
ghost use Rattle.lk_port.specs.Bytes.{Rose};
ghost use Rattle.lk_book.specs.File.{Export, export_stated};
ghost use Rattle.lk_book.specs.Reading.{ConsumesSome};
ghost use Rattle.lk_traced.specs.Begun.{AreSectionsKnown};
ghost use Rattle.lk_traced.specs.Course.{TraceCourse};
ghost use Rattle.lk_trace.specs.Files.{AreSectionsIn, AreRising};
ghost use Rattle.lk_traced.specs.Held.{AreOfDeclarations, ReadsTrace};
ghost use Rattle.lk_traced.specs.Placed.{Behind};
ghost use Rattle.lk_traced.specs.Standing.{StandsTrace, IsTraceKnown, HoldsBehind, IsBehindKnown, sections_stated, TellsEnded, AreEndedIn, AreEndedOf};
ghost use Rattle.lk_units.specs.State.{State};
ghost use Rattle.std.specs.declared.option.Option.{Option};
ghost use Rattle.lk_traced.specs.Trace.{trace_of, trace_stated};

use crate::reader::TraceReader;
use crate::sections::{BegunSection, Sections};
use lk_book::{ReadError, library_of, read_lines};
use lk_lines::{Fault, Word};
use lk_port::Source;
use lk_store::base_store::BaseStore;
use lk_trace::{FileSection, Traced};
use lk_units::Assembler;
use std::alloc::Global;

/// What was gathered of the library, and what stands behind `#TR`.
fn gathered(reader: TraceReader) -> (Assembler, Option<Sections>)
    ensures assembler { result.0 ≡ reader.reader.assembler }
    ensures behind { result.1 ≡ reader.behind }
{
    (reader.reader.assembler, reader.behind)
}

/// The section that is begun, and those that are ended.
fn begun_and_ended(sections: Sections) -> (Option<BegunSection>, Vec<FileSection>)
    ensures begun { result.0 ≡ sections.begun }
    ensures ended { result.1 ≡ sections.ended }
{
    (sections.begun, sections.ended)
}

/// The sections behind `#TR`, all of which are to be ended.
fn closed(sections: Sections) -> Result<Vec<FileSection>, ReadError>
    ensures ended { (c : Contents) (s : State) (b : Option Behind)
        → HoldsBehind (Some sections) c s b → TellsEnded c result (sections_stated b) }
    ensures known { (c : Contents) → AreSectionsKnown sections c → IfOk result (AreEndedIn c) }
    ensures rising { (c : Contents) → AreSectionsKnown sections c
        → IfOk result (λ ss. AreRising ss.items) }
    ensures declared { (c : Contents) (s : State) (b : Option Behind) (e : Export)
        → AreSectionsKnown sections c → HoldsBehind (Some sections) c s b
        → export_stated s ≡ Ok e → IfOk result (λ ss. AreEndedOf e.units ss) }
    ensures read { result ≢ Err ReadError.ReadFault }
{
    let (begun, ended) = begun_and_ended(sections);
    match begun {
        Some(begun) => Err(ReadError::Fault(Fault {
            line: begun.number,
            word: Word::TraceOrder,
        })),
        None => Ok(ended),
    }
}

/// The sections of a file, all of which are to be ended. A file without `#TR` has none.
fn ended_sections(alloc: Global, behind: Option<Sections>) -> Result<Vec<FileSection>, ReadError>
    ensures ended { (c : Contents) (s : State) (b : Option Behind) → HoldsBehind behind c s b
        → TellsEnded c result (sections_stated b) }
    ensures known { (c : Contents) → IsBehindKnown behind c → IfOk result (AreEndedIn c) }
    ensures rising { (c : Contents) → IsBehindKnown behind c
        → IfOk result (λ ss. AreRising ss.items) }
    ensures declared { (c : Contents) (s : State) (b : Option Behind) (e : Export)
        → IsBehindKnown behind c → HoldsBehind behind c s b → export_stated s ≡ Ok e
        → IfOk result (λ ss. AreEndedOf e.units ss) }
    ensures read { result ≢ Err ReadError.ReadFault }
{
    match behind {
        Some(sections) => closed(sections),
        None => Ok(Vec::new(alloc)),
    }
}

/// What the lines that were read come to at the end of the file.
fn finished(alloc: Global, store: BaseStore, reader: TraceReader) -> Result<Traced, ReadError>
    requires { IsTraceKnown reader (contents_of store) }
    ensures trace { (t : TraceCourse) → StandsTrace reader (contents_of store) t
        → ReadsTrace (trace_stated t t.behind) result }
    ensures sections { IfOk result AreSectionsIn }
    ensures rising { IfOk result (λ t. AreRising t.sections.items) }
    ensures declared { (t : TraceCourse) → StandsTrace reader (contents_of store) t
        → IfOk result AreOfDeclarations }
    ensures read { result ≢ Err ReadError.ReadFault }
{
    let (assembler, behind) = gathered(reader);
    let sections = match ended_sections(alloc, behind) {
        Ok(sections) => sections,
        Err(error) => return Err(error),
    };
    match library_of(alloc, store, assembler) {
        Ok(library) => Ok(Traced { library, sections }),
        Err(error) => Err(error),
    }
}

/// Reads what a file with derivations states, from a source: the library and all sections whole, or the file's fault, which
/// is that of its first faulty line, and of that line's faults the first.
///
/// Of the file no more is held at a time than a piece and the first bytes of a line. A failed read and want of memory
/// end it at once. Behind any error the source has lost some bytes from its front.
pub fn read_trace<S: Source>(alloc: Global, source: &mut S) -> Result<Traced, ReadError>
    // Where the source tells its bytes, the answer is what they state.
    ensures reads { (bytes : List ℕ) → S.left source.old ≡ Some bytes
        → ReadsTrace (trace_of bytes) result }

    // The trees of lines are trees of the library's store.
    ensures sections { IfOk result AreSectionsIn }

    // The units of sections rise, and each is a unit of the library that is a declaration alone.
    ensures rising { IfOk result (λ t. AreRising t.sections.items) }
    ensures declared { IfOk result AreOfDeclarations }

    ensures front { ConsumesSome (S.left source.old) (S.left source.new) }
    ensures end { OnOk result (IsAtEnd (S.left source.new)) }
    ensures fault { result ≡ Err ReadError.ReadFault
        → Rose (S.faults source.old) (S.faults source.new) }
    ensures no_fault { result ≢ Err ReadError.ReadFault → S.faults source.new
        ≡ S.faults source.old }
{
    let mut store = BaseStore::new(alloc);
    let mut reader = match TraceReader::new(alloc, &mut store) {
        Ok(reader) => reader,
        Err(_) => return Err(ReadError::NoMemory),
    };
    match read_lines(alloc, &mut store, source, &mut reader) {
        Ok(()) => finished(alloc, store, reader),
        Err(error) => Err(error),
    }
}
