//! The verdict of a unit, from the first question to the last.
//!
//! `check_unit` starts the engine at the unit, with its budget. Then, in order: its names are new
//! (`judge`); nothing is wrong with it by its own lines (`judge_new`, by `scan`); what a block or a
//! declaration of its kind is asked (`judge_scanned`). The first answer that is not yes is the verdict.

ghost use Rattle.std.specs.Prelude.{◌≡◌, ◌≢◌, ◌↔◌, ◌<◌, [], true, length, IsTrue};
ghost use Rattle.lk_rulebook.specs.Scan.{are_new};
ghost use Rattle.lk_rulebook.specs.Units.{members_of, place_of, Members};
ghost use Rattle.lk_questions.specs.Table.{steps as table};
ghost use Rattle.lk_store.specs.Contents.{Extends};
ghost use Rattle.lk_store.specs.Store.{contents_of};
ghost use Rattle.lk_store.specs.Layers.{layers_contents};
ghost use Rattle.lk_engine.specs.Lookouts.{standing_of, places_at};
ghost use Rattle.lk_env.specs.declared.entry.Partial.{Partial as GivenMembers};
ghost use Rattle.lk_env.specs.Places.{partial_beside};
ghost use Rattle.lk_env.specs.Units.{declared_levels, declaration_at, unit_at, library_of};
ghost use Rattle.lk_env.specs.Units.{IsStatedIn, IsBodyIn, IsUnitIn};
ghost use Rattle.leancheck.specs.Rows.{questions_of, asked_of, scanned_of, row_verdict};
ghost use Rattle.leancheck.specs.Standing.{StandsAt};
ghost use Rattle.leancheck.specs.Drawn.{IsPlainUnder};
ghost use Rattle.leancheck.specs.Held.{result_verdict, scan_verdict, IsPlain};

use crate::blocks::check_block;
use crate::quotients::check_quotient;
use lk_ask::stop::Stop;
use lk_declaration::{check_axiom, check_opaque, check_theorem};
use lk_engine::{Engine, Knows};
use lk_env::entry::Partial;
use lk_env::library::Library;
use lk_env::unit::{Body, Declaration, Unit};
use lk_laws::{Laws, check_definition};
use lk_quot::Quotients;
use lk_scan::names::are_new;
use lk_scan::scan::{ScanError, scan};
use lk_store::base_store::BaseStore;
use lk_tree::rule::Rule;
use lk_verdict::Verdict;
use std::alloc::Global;

/// The verdict of a unit, whose questions may take so many steps. Where memory is wanting, what
/// units made goes before the next one, which then finds its room.
pub(crate) fn check_unit<K: Knows>(
    alloc: Global,
    library: &Library,
    engine: &mut Engine<'_, K>,
    number: u32,
    steps: u128,
) -> Verdict
    requires library { engine.old.scope.library ≡ library.now }
    requires number { number < length library.now.units }
    ensures library { engine.new.scope.library ≡ engine.old.scope.library }
    ensures right { IsPlainUnder library.now steps number result }
{
    let verdict = begin_and_judge(alloc, library, engine, number, steps);
    if matches!(verdict, Verdict::Memory) {
        engine.let_go();
    }
    verdict
}

/// The verdict of a unit, whose questions may take so many steps. The engine is started anew for it:
/// what it still has of the work of earlier ones changes no answer and no cost.
fn begin_and_judge<K: Knows>(
    alloc: Global,
    library: &Library,
    engine: &mut Engine<'_, K>,
    number: u32,
    steps: u128,
) -> Verdict
    requires library { engine.old.scope.library ≡ library.now }
    requires number { number < length library.now.units }
    ensures library { engine.new.scope.library ≡ engine.old.scope.library }
    ensures right { IsPlainUnder library.now steps number result }
{
    let unit = &library.units()[number as usize];
    engine.start(number, steps);
    judge(alloc, library, engine, number, unit)
}

/// The verdict of a unit, over what its library has, at its place and with what is left of a budget.
fn judge<K: Knows>(
    alloc: Global,
    library: &Library,
    asks: &mut Engine<'_, K>,
    number: u32,
    unit: &Unit,
) -> Verdict
    requires over { Extends (contents_of library.now.tables) (layers_contents asks.old.terms) }
    requires place { StandsAt places_at (standing_of asks.old) Partial.Nothing [] }
    requires places { are_new (library_of library.now) number
        (members_of (unit_at (contents_of library.now.tables) unit.now)) ≡ true → (p : GivenMembers)
        (aux : Members) → places_at (standing_of asks.old).basis p aux
        ≡ place_of (library_of library.now) number
        (partial_beside (unit_at (contents_of library.now.tables) unit.now) p aux) }
    requires known { IsUnitIn (contents_of library.now.tables) unit.now }
    ensures basis { (standing_of asks.new).basis ≡ (standing_of asks.old).basis }
    ensures verdict { IsPlain (row_verdict (library_of library.now) (asks.old.meter.left) number
        (unit_at (contents_of library.now.tables) unit.now)) result }
{
    match are_new(alloc, library, number, unit) {
        Ok(true) => judge_new(alloc, library.base(), asks, unit),
        Ok(false) => Verdict::No(Rule::DuplicateName),
        Err(_) => Verdict::Memory,
    }
}

/// The verdict of a unit whose names are new. Its scan reads the library's own store, its questions
/// one over it.
fn judge_new<K: Knows>(
    alloc: Global,
    base: &BaseStore,
    asks: &mut Engine<'_, K>,
    unit: &Unit,
) -> Verdict
    requires over { Extends (contents_of base.now) (layers_contents asks.old.terms) }
    requires place { StandsAt places_at (standing_of asks.old) Partial.Nothing [] }
    requires known { IsUnitIn (contents_of base.now) unit.now }
    ensures basis { (standing_of asks.new).basis ≡ (standing_of asks.old).basis }
    ensures verdict { IsPlain (scanned_of (places_at (standing_of asks.old).basis)
        (asks.old.meter.left) (unit_at (contents_of base.now) unit.now)) result }
{
    match scan(alloc, base, unit) {
        Ok(()) => judge_scanned(alloc, asks, unit),
        Err(error) => refused(error),
    }
}

/// The verdict of a unit with which nothing is wrong in itself. Nothing of it is partial yet.
fn judge_scanned<K: Knows>(alloc: Global, asks: &mut Engine<'_, K>, unit: &Unit) -> Verdict
    requires place { StandsAt places_at (standing_of asks.old) Partial.Nothing [] }
    requires known { IsUnitIn (layers_contents asks.old.terms) unit.now }
    ensures basis { (standing_of asks.new).basis ≡ (standing_of asks.old).basis }
    ensures verdict { IsPlain (asked_of (places_at (standing_of asks.old).basis)
        (asks.old.meter.left) (unit_at (layers_contents asks.old.terms) unit.now)) result }
{
    match unit {
        Unit::Declaration(declaration) => judge_declaration(alloc, asks, declaration),
        Unit::Block(block) => verdict_of(check_block(alloc, asks, block)),
    }
}

/// The verdict of a declaration's questions. The engine is handed on to functions of one bound each:
/// what a call owes of a concrete engine is too much to check at once with two.
fn judge_declaration<K: Knows>(
    alloc: Global,
    asks: &mut Engine<'_, K>,
    declaration: &Declaration,
) -> Verdict
    requires stated_in { IsStatedIn (layers_contents asks.old.terms)
        declaration.now.name (declared_levels declaration.now) declaration.now.ty }
    requires body_in { IsBodyIn (layers_contents asks.old.terms)
        declaration.now.body }
    ensures basis { (standing_of asks.new).basis ≡ (standing_of asks.old).basis }
    ensures verdict { IsPlain (questions_of (standing_of asks.old).place
        (asks.old.meter.left)
        (declaration_at (layers_contents asks.old.terms) declaration.now)) result }
{
    if is_quotient(declaration.body) {
        ask_quotient(asks, declaration)
    } else {
        ask(alloc, asks, declaration)
    }
}

/// The verdict of the questions of any other declaration.
fn ask<Q: Laws>(alloc: Global, asks: &mut Q, declaration: &Declaration) -> Verdict
    requires table { (Q.standing asks.old).table ≡ table }
    requires stated_in { IsStatedIn (Q.contents asks.old) declaration.now.name
        (declared_levels declaration.now) declaration.now.ty }
    requires body_in { IsBodyIn (Q.contents asks.old) declaration.now.body }
    requires other { declaration.now.body ≢ Body.Quotient }
    ensures basis { (Q.standing asks.new).basis ≡ (Q.standing asks.old).basis }
    ensures verdict { IsPlain (questions_of (Q.standing asks.old).place (Q.left asks.old)
        (declaration_at (Q.contents asks.old) declaration.now)) result }
{
    let name = u64::from(declaration.name);
    let ty = u64::from(declaration.ty);
    match declaration.body {
        Body::Axiom => verdict_of(check_axiom(asks, ty)),
        Body::Definition { value, .. } => verdict_of(check_definition(
            alloc,
            asks,
            name,
            &declaration.levels,
            ty,
            u64::from(value),
        )),
        Body::Theorem { proof } => verdict_of(check_theorem(asks, ty, u64::from(proof))),
        Body::Opaque { value } => verdict_of(check_opaque(asks, ty, u64::from(value))),
        Body::Quotient => unreachable!(),
    }
}

/// The verdict of the questions of a constant of quotient types.
fn ask_quotient<Q: Quotients>(asks: &mut Q, declaration: &Declaration) -> Verdict
    requires table { (Q.standing asks.old).table ≡ table }
    requires stated_in { IsStatedIn (Q.contents asks.old) declaration.now.name
        (declared_levels declaration.now) declaration.now.ty }
    requires quotient { declaration.now.body ≡ Body.Quotient }
    ensures basis { (Q.standing asks.new).basis ≡ (Q.standing asks.old).basis }
    ensures verdict { IsPlain (questions_of (Q.standing asks.old).place (Q.left asks.old)
        (declaration_at (Q.contents asks.old) declaration.now)) result }
{
    let name = u64::from(declaration.name);
    let ty = u64::from(declaration.ty);
    verdict_of(check_quotient(asks, name, &declaration.levels, ty))
}

/// Whether a declaration gives a constant of quotient types.
fn is_quotient(body: Body) -> bool
    ensures { IsTrue result ↔ (body ≡ Body.Quotient) }
{
    match body {
        Body::Quotient => true,
        Body::Axiom => false,
        Body::Definition { .. } => false,
        Body::Theorem { .. } => false,
        Body::Opaque { .. } => false,
    }
}

/// The verdict of a unit that breaks a rule by its own lines.
fn refused(error: ScanError) -> Verdict
    ensures { result ≡ scan_verdict error }
{
    match error {
        ScanError::No(rule) => Verdict::No(rule),
        ScanError::NoMemory => Verdict::Memory,
    }
}

/// The verdict that the outcome of a unit's questions gives.
fn verdict_of(outcome: Result<(), Stop>) -> Verdict
    ensures { result ≡ result_verdict outcome }
{
    match outcome {
        Ok(()) => Verdict::Yes,
        Err(stop) => match stop {
            Stop::No(rule) => Verdict::No(rule),
            Stop::Spent => Verdict::Steps,
            Stop::NoMemory => Verdict::Memory,
        },
    }
}
