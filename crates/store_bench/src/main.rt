//! Makes and opens terms, to see how fast that is: `store_bench WORK N`.
//!
//! WORK is `make` (N terms, no two equal), `repeat` (the same, and then once more), `overlays` (the same, and then N
//! overlays of them, in each of which a few terms are made), `binders` or `applications` (a term of N nested ones,
//! opened and closed), or any other word (N doublings: a variable applied to itself, that to itself, and so on, opened). The number of
//! the last term is printed.
#![tactic(auto)]

mod list_store;
#[cfg(test)]
mod tests;

use lk_store::base_store::BaseStore;
use lk_store::memory::NoMemory;
use lk_store::node::{LevelNode, Node};
use lk_store::overlay::Overlay;
use lk_store::terms::Terms;
use lk_subst::closing::close;
use lk_subst::opening::open_with;
use std::alloc::Global;
use std::{env, io};

/// A node, where its children are there.
fn put<T: Terms>(terms: &mut T, node: Node) -> Result<u64, NoMemory> {
    let n = terms.len();
    match node {
        Node::Var(i) => terms.make(Node::Var(i)),
        Node::App(f, a) => {
            if f < n && a < n {
                terms.make(Node::App(f, a))
            } else {
                Err(NoMemory)
            }
        }
        Node::Lam(t, b) => {
            if t < n && b < n {
                terms.make(Node::Lam(t, b))
            } else {
                Err(NoMemory)
            }
        }
        Node::Local(k, t) => {
            if t < n {
                terms.make(Node::Local(k, t))
            } else {
                Err(NoMemory)
            }
        }
        _ => Err(NoMemory),
    }
}

fn prop<T: Terms>(terms: &mut T) -> Result<u64, NoMemory> {
    let zero = terms.make_level(LevelNode::Zero)?;
    terms.make(Node::Sort(zero))
}

/// `count` applications, of which no two are equal. The last one's number.
fn distinct<T: Terms>(terms: &mut T, count: u64) -> Result<u64, NoMemory> {
    let mut last = prop(terms)?;
    for i in 0..count {
        last = put(terms, Node::App(last, i / 2))?;
    }
    Ok(last)
}

/// A body under `depth` binders whose outermost variable stands inside them all.
fn binders<T: Terms>(terms: &mut T, depth: u64) -> Result<u64, NoMemory> {
    let sort = prop(terms)?;
    let mut body = put(terms, Node::Var(depth))?;
    for _ in 0..depth {
        body = put(terms, Node::Lam(sort, body))?;
    }
    Ok(body)
}

/// A variable applied so many times to a sort.
fn applications<T: Terms>(terms: &mut T, count: u64) -> Result<u64, NoMemory> {
    let sort = prop(terms)?;
    let mut body = put(terms, Node::Var(0))?;
    for _ in 0..count {
        body = put(terms, Node::App(body, sort))?;
    }
    Ok(body)
}

/// A variable applied to itself, that to itself, and so on.
fn doublings<T: Terms>(terms: &mut T, times: u64) -> Result<u64, NoMemory> {
    let mut body = put(terms, Node::Var(0))?;
    for _ in 0..times {
        body = put(terms, Node::App(body, body))?;
    }
    Ok(body)
}

/// The body opened with a Local.
fn opened<T: Terms>(alloc: Global, terms: &mut T, body: u64) -> Result<u64, NoMemory> {
    let sort = prop(terms)?;
    let local = put(terms, Node::Local(0, sort))?;
    let n = terms.len();
    if body < n && local < n {
        open_with(alloc, terms, body, local)
    } else {
        Err(NoMemory)
    }
}

/// The body opened with a Local and closed again.
fn opened_and_closed<T: Terms>(alloc: Global, terms: &mut T, body: u64) -> Result<u64, NoMemory> {
    let inside = opened(alloc, terms, body)?;
    if inside < terms.len() {
        close(alloc, terms, inside, 0)
    } else {
        Err(NoMemory)
    }
}

/// `units` times an overlay in which a few terms are made.
fn overlays(alloc: Global, base: &BaseStore, units: u64) -> Result<u64, NoMemory> {
    let mut overlay = Overlay::new(alloc, base);
    let mut sum: u64 = 0;
    for i in 0..units {
        overlay.clear();
        let last = put(&mut overlay, Node::Var(i))?;
        let e = put(&mut overlay, Node::App(last, last))?;
        sum = sum.wrapping_add(e);
    }
    Ok(sum)
}

/// What is done.
#[derive(Clone, Copy)]
enum Work {
    Make,
    Repeat,
    Overlays,
    Binders,
    Applications,
    Doublings,
}

fn make(alloc: Global, n: u64) -> Result<u64, NoMemory> {
    let mut store = BaseStore::new(alloc);
    distinct(&mut store, n)
}

fn repeat(alloc: Global, n: u64) -> Result<u64, NoMemory> {
    let mut store = BaseStore::new(alloc);
    distinct(&mut store, n)?;
    distinct(&mut store, n)
}

fn over(alloc: Global, n: u64) -> Result<u64, NoMemory> {
    let mut store = BaseStore::new(alloc);
    distinct(&mut store, n)?;
    overlays(alloc, &store, n)
}

fn open_binders(alloc: Global, n: u64) -> Result<u64, NoMemory> {
    let mut store = BaseStore::new(alloc);
    let body = binders(&mut store, n)?;
    opened_and_closed(alloc, &mut store, body)
}

fn open_applications(alloc: Global, n: u64) -> Result<u64, NoMemory> {
    let mut store = BaseStore::new(alloc);
    let body = applications(&mut store, n)?;
    opened_and_closed(alloc, &mut store, body)
}

fn open_doublings(alloc: Global, n: u64) -> Result<u64, NoMemory> {
    let mut store = BaseStore::new(alloc);
    let body = doublings(&mut store, n)?;
    opened(alloc, &mut store, body)
}

fn run(alloc: Global, work: Work, n: u64) -> Result<u64, NoMemory> {
    match work {
        Work::Make => make(alloc, n),
        Work::Repeat => repeat(alloc, n),
        Work::Overlays => over(alloc, n),
        Work::Binders => open_binders(alloc, n),
        Work::Applications => open_applications(alloc, n),
        Work::Doublings => open_doublings(alloc, n),
    }
}

fn work_of(name: &str) -> Work {
    match name {
        "make" => Work::Make,
        "repeat" => Work::Repeat,
        "overlays" => Work::Overlays,
        "binders" => Work::Binders,
        "applications" => Work::Applications,
        _ => Work::Doublings,
    }
}

fn report(rt: &(impl Print + AllocGlobal), work: Work, n: u64) -> io::Result<()> {
    match run(rt.alloc(), work, n) {
        Ok(e) => println!(rt; "{e}"),
        Err(_) => println!(rt; "no memory"),
    }
}

fn main(rt: HostRuntime) -> io::Result<()> {
    let mut words = env::args(&rt)?;
    let _program = words.next();
    let Some(name) = words.next() else {
        return Ok(());
    };
    let Some(count) = words.next() else {
        return Ok(());
    };
    report(
        &rt,
        work_of(name.as_str()),
        count.as_str().parse::<u64>().unwrap_or(0),
    )
}
