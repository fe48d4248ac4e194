//! The lines of units, each by its kind, its number, and the name of its first member.

ghost use Rattle.std.specs.Prelude.{◌≡◌, ◌<◌, ◌≤◌, ◌+◌, ◌^◌, ◌++◌, length, map, slice_get, OnOk};
ghost use Rattle.lk_verdict.specs.Held.{verdict};
ghost use Rattle.lk_text.specs.Text.{axiom_at, axioms_text, body_word, kind_word, lines_text};
ghost use Rattle.lk_text.specs.Names.{first_number, first_of_block, unit_lines, unit_text};
ghost use Rattle.lk_axioms.specs.Lists.{axiom_lists};
ghost use Rattle.lk_store.specs.Store.{contents_of};
ghost use Rattle.lk_store.specs.Contents.{Contents};
ghost use Rattle.lk_env.specs.Units.{body_at, unit_at, library_at, library_of, IsUnitIn};
ghost use Rattle.lk_env.specs.Units.{AreUnitsIn};

use crate::names::{Component, add_name};
use crate::verdicts::{add_axiom, add_verdict};
use lk_axioms::AxiomSets;
use lk_env::library::Library;
use lk_env::unit::{BlockType, Body, Recursor, Unit};
use lk_store::memory::NoMemory;
use lk_verdict::Verdict;
use std::alloc::Global;

/// The word of a declaration, by its body.
fn body_word(body: Body) -> &'static [u8]
    ensures { (c : Contents) → result.now ≡ body_word (body_at c body) }
{
    match body {
        Body::Axiom => b"axiom",
        Body::Definition { .. } => b"def",
        Body::Theorem { .. } => b"thm",
        Body::Opaque { .. } => b"opaque",
        Body::Quotient => b"quot",
    }
}

/// The word of what a unit is.
fn kind_word(unit: &Unit) -> &'static [u8]
    ensures { (c : Contents) → result.now ≡ kind_word (unit_at c unit.now) }
{
    match unit {
        Unit::Declaration(declaration) => body_word(declaration.body),
        Unit::Block(_) => b"block",
    }
}

/// The number of the name that a unit goes by, which is that of its first member.
fn first_number(unit: &Unit) -> Option<u64>
    ensures { result ≡ first_number unit.now }
{
    match unit {
        Unit::Declaration(declaration) => Some(u64::from(declaration.name)),
        Unit::Block(block) => first_of_block(&block.types, &block.recursors),
    }
}

/// The same of a block.
fn first_of_block(types: &[BlockType], recursors: &[Recursor]) -> Option<u64>
    ensures { result ≡ first_of_block types.now recursors.now }
{
    if let [first, ..] = types {
        return Some(first.name);
    }
    match recursors {
        [first, ..] => Some(first.name),
        [] => None,
    }
}

/// Room in which a name is written, used again for the next one.
#[derive(Drop)]
pub(crate) struct Writing {
    pub parts: Vec<Component>,
    pub name: Vec<u8>,
}

impl Writing {
    /// Nothing is written yet.
    pub(crate) fn new(alloc: Global) -> Writing {
        Writing {
            parts: Vec::new(alloc),
            name: Vec::new(alloc),
        }
    }
}

/// Writes the name that a unit goes by. What was written there before is gone.
#[tactic(auto, using(crate::proofs::Naming::named, crate::proofs::Naming::unnamed))]
pub(crate) fn write_name(
    writing: &mut Writing,
    library: &Library,
    unit: &Unit,
) -> Result<(), NoMemory>
    requires { IsUnitIn (contents_of library.now.tables) unit.now }
    ensures { OnOk result (writing.new.name.items
        ≡ unit_text (contents_of library.now.tables) unit.now) }
{
    writing.name.clear();
    match first_number(unit) {
        Some(first) => add_name(&mut writing.parts, &mut writing.name, library.base(), first)?,
        None => writing.name.extend_from_slice(b"[anonymous]")?,
    }
    Ok(())
}

/// Appends the line of an axiom, by its number.
fn add_axiom_at(
    writing: &mut Writing,
    out: &mut Vec<u8>,
    library: &Library,
    number: u32,
) -> Result<(), NoMemory>
    ensures { OnOk result (out.new.items ≡ out.old.items
        ++ axiom_at (slice_get (library_of library.now) number)) }
{
    let Some(unit) = library.units().get(number as usize) else {
        return Ok(());
    };
    write_name(writing, library, unit)?;
    add_axiom(out, &writing.name)
}

/// Appends the lines of axioms, by their numbers.
fn add_axioms(
    writing: &mut Writing,
    out: &mut Vec<u8>,
    library: &Library,
    axioms: &[u32],
) -> Result<(), NoMemory>
    ensures { OnOk result (out.new.items ≡ out.old.items
        ++ axioms_text (library_of library.now) axioms.now) }
{
    let mut rest = axioms;
    while let Some((number, more)) = rest.split_first() {
        add_axiom_at(writing, out, library, *number)?;
        rest = more;
    }
    Ok(())
}

/// Appends the lines of a unit: its verdict, and the axioms that it rests on.
fn add_unit(
    writing: &mut Writing,
    out: &mut Vec<u8>,
    library: &Library,
    axioms: &[u32],
    number: u64,
    unit: &Unit,
    said: Verdict,
) -> Result<(), NoMemory>
    requires { IsUnitIn (contents_of library.now.tables) unit.now }
    ensures { OnOk result (out.new.items ≡ out.old.items
        ++ (unit_lines (contents_of library.now.tables) number unit.now (verdict said)
        ++ axioms_text (library_of library.now) axioms.now)) }
{
    write_name(writing, library, unit)?;
    add_verdict(out, kind_word(unit), number, &writing.name, said)?;
    add_axioms(writing, out, library, axioms)
}

/// Appends the lines of some units of the library; the first of them is the unit of this number.
pub(crate) fn add_lines_from(
    writing: &mut Writing,
    out: &mut Vec<u8>,
    library: &Library,
    axioms: &AxiomSets,
    first: u64,
    units: &[Unit],
    verdicts: &[Verdict],
) -> Result<(), NoMemory>
    requires axioms { axioms.now ≡ axiom_lists (library_of library.now) }
    requires known { AreUnitsIn (contents_of library.now.tables) units.now }
    requires few { first + length units.now ≤ length library.now.units }
    requires fits { first + length units.now < 2 ^ 64 }
    ensures { OnOk result (out.new.items ≡ out.old.items
        ++ lines_text (library_of library.now) first
        (library_at (contents_of library.now.tables) units.now) (map verdict verdicts.now)) }
{
    let mut left = units;
    let mut said = verdicts;
    let mut number = first;
    while let Some((unit, more)) = left.split_first() {
        let Some((v, others)) = said.split_first() else {
            return Ok(());
        };
        add_unit(
            writing,
            out,
            library,
            axioms.of(number as usize),
            number,
            unit,
            *v,
        )?;
        left = more;
        said = others;
        number += 1;
    }
    Ok(())
}

/// Appends the lines of the units.
pub fn add_lines(
    alloc: Global,
    out: &mut Vec<u8>,
    library: &Library,
    axioms: &AxiomSets,
    verdicts: &[Verdict],
) -> Result<(), NoMemory>
    requires { axioms.now ≡ axiom_lists (library_of library.now) }
    ensures { OnOk result (out.new.items ≡ out.old.items
        ++ lines_text (library_of library.now) 0 (library_of library.now)
        (map verdict verdicts.now)) }
{
    let mut writing = Writing::new(alloc);
    add_lines_from(
        &mut writing,
        out,
        library,
        axioms,
        0,
        library.units(),
        verdicts,
    )
}
