//! Two engines that share answers at a desk.

use lk_ask::asks::Asks;
use lk_ask::query::{Answer, Query};
use lk_ask::stop::Stop;
use lk_engine::{AnswerDesk, Engine, Knowledge, Knows, Share};
use lk_env::library::Library;
use lk_memo::PrivateMemo;
use lk_store::base_store::BaseStore;
use lk_store::memory::NoMemory;
use lk_store::node::{LevelNode, Node};
use lk_store::terms::Terms;
use std::alloc::Global;
use std::test::Fail;

/// A question, just what it costs, and which sort answers it: that of propositions, or the one that
/// the type has which is that, doubled so many times.
#[derive(Clone, Copy)]
struct Case {
    query: Query<u64>,
    cost: u128,
    doubled: Option<u32>,
}

/// A type of functions from one type to it.
fn from_itself<T: Terms>(terms: &mut T, ty: u64) -> Result<u64, NoMemory> {
    if ty < terms.len() {
        terms.make(Node::Pi(ty, ty))
    } else {
        Err(NoMemory)
    }
}

/// The sort of propositions, doubled so many times: the type of each is a sort of a level of its
/// own.
fn doubled<T: Terms>(terms: &mut T, times: u32) -> Result<u64, NoMemory> {
    let zero = terms.make_level(LevelNode::Zero)?;
    let mut ty = terms.make(Node::Sort(zero))?;
    for _ in 0..times {
        ty = from_itself(terms, ty)?;
    }
    Ok(ty)
}

/// The identity at the sort of propositions, applied to a term.
fn same_as<T: Terms>(terms: &mut T, sort: u64, e: u64) -> Result<u64, NoMemory> {
    let variable = terms.make(Node::Var(0))?;
    let n = terms.len();
    if sort < n && e < n && variable < n {
        let identity = terms.make(Node::Lam(sort, variable))?;
        terms.make(Node::App(identity, e))
    } else {
        Err(NoMemory)
    }
}

/// The sort of propositions, behind so many identities: its weak head form is a term of the
/// library.
fn behind<T: Terms>(terms: &mut T, times: u32) -> Result<u64, NoMemory> {
    let zero = terms.make_level(LevelNode::Zero)?;
    let sort = terms.make(Node::Sort(zero))?;
    let mut e = sort;
    for _ in 0..times {
        e = same_as(terms, sort, e)?;
    }
    Ok(e)
}

/// The sort of functions from a type of this sort to itself.
fn doubled_sort<T: Terms>(terms: &mut T, sort: u64) -> Result<u64, NoMemory> {
    if sort >= terms.len() {
        return Err(NoMemory);
    }
    match terms.view(sort) {
        Node::Sort(l) => {
            let level = terms.make_level(LevelNode::IMax(l, l))?;
            terms.make(Node::Sort(level))
        }
        _ => Err(NoMemory),
    }
}

/// The sort that answers a question.
fn wanted<T: Terms>(terms: &mut T, doubled: Option<u32>) -> Result<u64, NoMemory> {
    let zero = terms.make_level(LevelNode::Zero)?;
    let Some(times) = doubled else {
        return terms.make(Node::Sort(zero));
    };
    let one = terms.make_level(LevelNode::Succ(zero))?;
    let mut sort = terms.make(Node::Sort(one))?;
    for _ in 0..times {
        sort = doubled_sort(terms, sort)?;
    }
    Ok(sort)
}

/// What a question of terms that are there comes to.
fn asked<A: Asks>(asks: &mut A, query: Query<u64>) -> Result<Answer<u64>, Stop> {
    let n = asks.len();
    let is_there = match query {
        Query::Whnf(e) | Query::Infer(e) => e < n,
        Query::Core(_) | Query::Same(_, _) => false,
    };
    if is_there {
        asks.ask(query)
    } else {
        Err(Stop::NoMemory)
    }
}

/// Whether the question is answered by its sort.
fn is_answered<A: Asks>(asks: &mut A, case: Case) -> Result<bool, NoMemory> {
    let sort = wanted(asks, case.doubled)?;
    Ok(matches!(asked(asks, case.query), Ok(Answer::Term(e)) if e == sort))
}

/// How many turns the question takes of an engine: none where it is not answered by its sort at
/// just its cost.
fn turns_for<K: Knows>(engine: &mut Engine<'_, K>, case: Case) -> Result<u64, NoMemory> {
    engine.start(0, case.cost.saturating_sub(1));
    if !matches!(asked(engine, case.query), Err(Stop::Spent)) {
        return Ok(0);
    }
    engine.start(0, case.cost);
    let answered = is_answered(engine, case)?;
    Ok(if answered { engine.turns() } else { 0 })
}

/// Whether what one engine answers takes one turn of the other one.
fn is_found(alloc: Global, library: &Library, case: Case) -> Result<bool, NoMemory> {
    let (answers, mut first) = AnswerDesk::new(alloc, library)?;
    let Some(second) = answers.desk.split(&mut first) else {
        return Ok(false);
    };
    let memo = PrivateMemo::new(alloc, 64)?;
    let mut knowledge = Knowledge::new(alloc, memo, Share::new(&answers, first));
    let memo = PrivateMemo::new(alloc, 64)?;
    let mut other_knowledge = Knowledge::new(alloc, memo, Share::new(&answers, second));
    let mut one = Engine::new(alloc, library, &mut knowledge);
    let mut other = Engine::new(alloc, library, &mut other_knowledge);
    let worked_out = turns_for(&mut one, case)?;
    Ok(worked_out > 1 && turns_for(&mut other, case)? == 1)
}

fn finds_a_term_of_the_library(alloc: Global) -> Result<bool, NoMemory> {
    let mut base = BaseStore::new(alloc);
    let query = Query::Whnf(behind(&mut base, 400)?);
    let library = Library::new(alloc, base, Vec::new(alloc), Vec::new(alloc))?;
    let cost = 402;
    let doubled = None;
    is_found(
        alloc,
        &library,
        Case {
            query,
            cost,
            doubled,
        },
    )
}

fn finds_a_sort_that_was_made(alloc: Global) -> Result<bool, NoMemory> {
    let mut base = BaseStore::new(alloc);
    let query = Query::Infer(doubled(&mut base, 60)?);
    let library = Library::new(alloc, base, Vec::new(alloc), Vec::new(alloc))?;
    let cost = (6 << 60) - 5;
    let doubled = Some(60);
    is_found(
        alloc,
        &library,
        Case {
            query,
            cost,
            doubled,
        },
    )
}

#[test]
fn a_term_of_the_library_is_shared(rt: HostRuntime) -> Result<(), Fail> {
    assert!(rt; finds_a_term_of_the_library(rt.alloc())?);
    Ok(())
}

#[test]
fn a_sort_of_many_levels_is_shared(rt: HostRuntime) -> Result<(), Fail> {
    assert!(rt; finds_a_sort_that_was_made(rt.alloc())?);
    Ok(())
}
