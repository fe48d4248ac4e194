//! A library and changes of it, read from a source as one file.
ghost use Rattle.std.specs.Prelude.{◌≡◌, ◌≢◌, ◌++◌, ◌∷◌, [], ℕ, List, map, All, IfOk, IfErr, OnOk, Some, Ok, Err};
ghost use Rattle.std.specs.Io.KnownBytes.{IsAtEnd};
ghost use Rattle.lk_store.specs.Store.{contents_of};
ghost use Rattle.lk_port.specs.Bytes.{Rose};
ghost use Rattle.lk_env.specs.Units.{library_at, AreUnitsIn};
ghost use Rattle.lk_members.specs.Plain.{lines_at};
ghost use Rattle.lk_units.specs.State.{State};
ghost use Rattle.lk_units.specs.Held.{IsKnown, IsPartIn, Holds};
ghost use Rattle.lk_book.specs.File.{parts_stated, rounds_stated, rounds_of};
ghost use Rattle.lk_book.specs.Reading.{ArePartsIn, AreStated, ConsumesSome, ReadsRounds, TellsOpen};

use crate::ReadError;
use crate::file::{read_all_lines, units_of};
use lk_env::unit::Unit;
use lk_lines::Dialect;
use lk_members::Members;
use lk_port::Source;
use lk_store::base_store::BaseStore;
use lk_units::Assembler;
use std::alloc::Global;

/// The units of each part of a file, in the order of the parts, and the store of them all. Equal
/// names, levels and trees have one number in it, in whichever parts they stand.
#[derive(Drop)]
pub struct Rounds {
    pub base: BaseStore,
    pub parts: Vec<Vec<Unit>>,
}

/// What was gathered of each part, the last one too.
fn gathered(assembler: Assembler) -> Result<Vec<Members>, ReadError>
    ensures parts { IfOk result (λ parts. parts.items
        ≡ assembler.parts.items ++ assembler.members ∷ []) }
    ensures err { IfErr result (λ e. e ≡ ReadError.NoMemory) }
{
    let mut parts = assembler.parts;
    match parts.push(assembler.members) {
        Ok(()) => Ok(parts),
        Err(_) => Err(ReadError::NoMemory),
    }
}

/// The units of each part, or the first line of a block that is open in its part.
fn units_of_parts(
    alloc: Global,
    store: &BaseStore,
    mut parts: Vec<Members>,
) -> Result<Vec<Vec<Unit>>, ReadError>
    requires { All (IsPartIn (contents_of store.now)) parts.items }
    ensures known { IfOk result (λ uss.
        All (λ us. AreUnitsIn (contents_of store.now) us.items) uss.items) }
    ensures units { IfOk result (λ uss. parts_stated
        (map (λ m. lines_at (contents_of store.now) m.lines.items) parts.items)
        ≡ Ok (map (λ us. library_at (contents_of store.now) us.items) uss.items)) }
    ensures fault { IfErr result (λ e. TellsOpen e (parts_stated
        (map (λ m. lines_at (contents_of store.now) m.lines.items) parts.items))) }
{
    parts.reverse();
    let mut units = Vec::new(alloc);
    while let Some(members) = parts.pop() {
        let part = units_of(alloc, store, members)?;
        match units.push(part) {
            Ok(()) => {}
            Err(_) => return Err(ReadError::NoMemory),
        }
    }
    Ok(units)
}

/// The parts of the lines that were read.
fn rounds_in(alloc: Global, mut store: BaseStore, assembler: Assembler) -> Result<Rounds, ReadError>
    requires { IsKnown assembler (contents_of store) }
    ensures rounds { (s : State) → Holds assembler (contents_of store) s
        → ReadsRounds (rounds_stated s) result }
    ensures known { IfOk result ArePartsIn }
    ensures read { result ≢ Err ReadError.ReadFault }
{
    store.freeze();
    let parts = match gathered(assembler) {
        Ok(parts) => parts,
        Err(error) => return Err(error),
    };
    match units_of_parts(alloc, &store, parts) {
        Ok(parts) => Ok(Rounds { base: store, parts }),
        Err(error) => Err(error),
    }
}

/// Reads the parts that a file states, from a source: all parts whole, or the file's fault, which is
/// that of its first faulty line, and of that line's faults the first. Lines `#GO` part the file;
/// its numbers go on from part to part, and a block stands whole in one part.
///
/// Of the file no more is held at a time than a piece and the first bytes of a line. A failed read
/// and want of memory end it at once. Behind any error the source has lost some bytes from its
/// front.
pub fn read_rounds<S: Source>(alloc: Global, source: &mut S) -> Result<Rounds, ReadError>
    // Where the source tells its bytes, the answer is what they state.
    ensures reads { (bytes : List ℕ) → S.left source.old ≡ Some bytes
        → ReadsRounds (rounds_of bytes) result }

    ensures known { IfOk result ArePartsIn }

    // Also where the source does not tell its bytes, some file states these parts.
    ensures stated { IfOk result AreStated }

    ensures front { ConsumesSome (S.left source.old) (S.left source.new) }
    ensures end { OnOk result (IsAtEnd (S.left source.new)) }
    ensures fault { result ≡ Err ReadError.ReadFault
        → Rose (S.faults source.old) (S.faults source.new) }
    ensures no_fault { result ≢ Err ReadError.ReadFault → S.faults source.new
        ≡ S.faults source.old }
{
    let mut store = BaseStore::new(alloc);
    match read_all_lines(alloc, Dialect::Rounds, &mut store, source) {
        Ok(assembler) => rounds_in(alloc, store, assembler),
        Err(error) => Err(error),
    }
}
