//! Answers over terms that an earlier unit made.

use lk_ask::asks::Asks;
use lk_ask::query::Query;
use lk_engine::{Alone, Engine, Knowledge, Knows};
use lk_env::library::Library;
use lk_memo::PrivateMemo;
use lk_store::base_store::BaseStore;
use lk_store::memory::NoMemory;
use lk_store::node::{LevelNode, Node};
use std::alloc::Global;
use std::test::Fail;

/// Asks for the type of a function of two arguments, which the store makes unless it is there.
fn has_type<A: Asks>(asks: &mut A) -> Result<bool, NoMemory> {
    let zero = asks.make_level(LevelNode::Zero)?;
    let sort = asks.make(Node::Sort(zero))?;
    let argument = asks.make(Node::Var(0))?;
    let inner = asks.make(Node::Lam(sort, argument))?;
    let outer = asks.make(Node::Lam(sort, inner))?;
    Ok(asks.ask(Query::Infer(outer)).is_ok())
}

/// How many turns it takes at a unit, and none where there is no answer.
fn turns_at<K: Knows>(engine: &mut Engine<'_, K>, unit: u32) -> Result<u64, NoMemory> {
    engine.start(unit, 100);
    let answered = has_type(engine)?;
    Ok(if answered { engine.turns() } else { 0 })
}

/// The first unit makes the terms, the second one keeps an answer over them, the third one finds it.
fn is_found_by_the_third_unit(alloc: Global) -> Result<bool, NoMemory> {
    let library = Library::new(
        alloc,
        BaseStore::new(alloc),
        Vec::new(alloc),
        Vec::new(alloc),
    )?;
    let memo = PrivateMemo::new(alloc, 65_536)?;
    let mut knowledge = Knowledge::new(alloc, memo, Alone);
    let mut engine = Engine::new(alloc, &library, &mut knowledge);
    let made = turns_at(&mut engine, 0)?;
    let kept = turns_at(&mut engine, 1)?;
    let found = turns_at(&mut engine, 2)?;
    Ok(made > 1 && kept == made && found == 1)
}

#[test]
fn an_answer_over_terms_of_an_earlier_unit(rt: HostRuntime) -> Result<(), Fail> {
    assert!(rt; is_found_by_the_third_unit(rt.alloc())?);
    Ok(())
}
