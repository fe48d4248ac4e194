//! Callers of a session, over texts of a small language and with checks that answer want of memory.

ghost use Rattle.std.specs.Prelude.{◌≡◌, ◌<◌, ◌++◌, ◌∷◌, [], All, length, map, replicate, IfOk, OnOk, OnErr};
ghost use Rattle.lk_env.specs.Units.{library_of};
ghost use Rattle.lk_verdict.specs.Held.{verdict};
ghost use Rattle.lk_verdict.specs.Checked.{AreChecked};
ghost use Rattle.lk_session.specs.Sample.{empty_block, first_error, is_faulty, sample_stated, IsEmptyBlock};

use crate::checking::unanswered;
use crate::error::{SubmitError, TextError};
use crate::pass::Pass;
use crate::reply::Reply;
use crate::room::Room;
use crate::session::{Opened, Session};
use crate::texts::Reads;
use lk_env::library::Library;
use lk_env::unit::{Block, Unit};
use lk_lines::{Fault, Word};
use lk_port::{Gate, OpenGate, PairGate};
use lk_store::memory::NoMemory;
use lk_verdict::{Checks, Verdict};
use std::alloc::Global;
use std::marker::Brand;
use std::process::Abort;
use std::sync::Wait;
use std::test::*;
use std::thread::{Threads, join};

/// Whether the text has a fault. None where it has no bytes.
fn is_faulty(text: &[u8]) -> Option<bool>
    ensures { result ≡ is_faulty text.now }
{
    match text.split_first() {
        None => None,
        Some((first, _)) => Some(*first == b'#'),
    }
}

fn fault() -> TextError
    ensures { result ≡ first_error }
{
    TextError::Fault(Fault {
        line: 1,
        word: Word::UnknownTag,
    })
}

/// A block without types.
fn empty_block(alloc: Global) -> Result<Unit, NoMemory>
    ensures { IfOk result IsEmptyBlock }
{
    let recursors = Box::new(alloc, Vec::new(alloc))?;
    Ok(Unit::Block(Block {
        types: Vec::new(alloc),
        recursors,
    }))
}

/// Puts a block without types behind the units of the library.
fn add_block(alloc: Global, library: &mut Library) -> Result<(), NoMemory>
    requires { library.old.budgets ≡ [] }
    ensures budgets { library.new.budgets ≡ [] }
    ensures ok { OnOk result (library_of library.new
        ≡ library_of library.old ++ empty_block ∷ []) }
    ensures err { OnErr result (library_of library.new ≡ library_of library.old) }
{
    let block = empty_block(alloc)?;
    let mut units = Vec::new(alloc);
    units.push(block)?;
    library.add_units(alloc, units)
}

/// Reads texts of which at most the first byte tells something.
struct Sample;

impl Reads for Sample {
    ghost stated = { sample_stated };

    fn count(_: Global, text: &[u8]) -> Result<usize, TextError> {
        match is_faulty(text) {
            None => Ok(0),
            Some(true) => Err(fault()),
            Some(false) => Ok(1),
        }
    }

    fn add_text(alloc: Global, library: &mut Library, text: &[u8]) -> Result<(), TextError> {
        match is_faulty(text) {
            None => Ok(()),
            Some(true) => Err(fault()),
            Some(false) => match add_block(alloc, library) {
                Ok(()) => Ok(()),
                Err(_) => Err(TextError::NoMemory),
            },
        }
    }
}

/// Finds memory wanting for each unit.
#[derive(Clone, Copy)]
struct NoRoom;

impl Checks for NoRoom {
    ghost use Rattle.lk_env.specs.StoredLibrary.{StoredLibrary};
    ghost use Rattle.lk_verdict.specs.Checked.{Answer};

    ghost budget_of = { λ c. 0 };

    ghost may_answer = { λ c library units answer. Unit {0} };

    fn budget(&self) -> u128 {
        0
    }

    fn check_some(
        &self,
        alloc: Global,
        _library: &Library,
        units: &[u32],
    ) -> Result<Vec<Verdict>, NoMemory> {
        let verdicts = unanswered(alloc, units.len())?;
        Ok(verdicts)
    }
}

/// A caller's thread: a text is submitted, and the pass comes back.
fn submit_as<B: Room, T: Reads, C: Checks, G: Gate>(
    rt: &impl Wait,
    session: &Session<B, T>,
    mut pass: Pass<B, T>,
    checks: &C,
    gate: &G,
    tag: u64,
    text: &[u8],
) -> (Pass<B, T>, Result<Reply, SubmitError>) {
    let reply = session.submit(rt, &mut pass, checks, gate, tag, text);
    (pass, reply)
}

/// Each call of a session once, by one caller.
fn one_caller<B: Room, T: Reads, R: Wait + Abort>(rt: &R, opened: Opened) -> Result<(), Fail>
    requires { opened.table.shared.table_id ≡ B.table }
{
    let (session, mut pass) = opened.named::<B, T>();
    let first = session.submit(rt, &mut pass, &NoRoom, &OpenGate, 7, b"a");
    assert!(rt; matches!(first, Ok(Reply { first: 0, .. })));
    let faulty = session.submit(rt, &mut pass, &NoRoom, &OpenGate, 8, b"#");
    assert!(rt; matches!(faulty, Err(SubmitError::Fault(_))));
    let empty = session.submit(rt, &mut pass, &NoRoom, &OpenGate, 9, b"");
    assert!(rt; matches!(empty, Ok(Reply { first: 1, .. })));
    let mut other = session.split(&mut pass).ok_or("a second pass")?;
    let last = session.submit(rt, &mut other, &NoRoom, &OpenGate, 10, b"b");
    assert!(rt; matches!(last, Ok(Reply { first: 1, .. })));
    session.join(&mut pass, other);
    assert_eq!(rt; session.passes_made(rt, &mut pass), 2);
    let history = session.history(rt, &mut pass).ok().ok_or("the list")?;
    assert_eq!(rt; history.marks.len(), 3);
    assert_eq!(rt; history.read, 3);
    assert_eq!(rt; pass.library().units().len(), 2);
    Ok(())
}

#[test]
fn calls_of_a_session(rt: HostRuntime) -> Result<(), Fail> {
    let opened = Opened::new(rt.alloc()).ok().ok_or("a session")?;
    one_caller::<Brand, Sample, _>(&rt, opened)
}

/// Two callers check at one time, which they could not if the lock were held.
fn both<B: Room + Send + Sync, T: Reads + Send + Sync, R: Threads + Wait + Abort + Sync>(
    rt: &R,
    opened: Opened,
) -> Result<(), Fail>
    requires { opened.table.shared.table_id ≡ B.table }
{
    let (session, mut pass) = opened.named::<B, T>();
    let other = session.split(&mut pass).ok_or("a second pass")?;
    let gate = PairGate::new(1_000_000_000);
    let ((mut one, first), (two, second)) = join(
        rt,
        || submit_as(rt, &session, pass, &NoRoom, &gate, 7, b"a"),
        || submit_as(rt, &session, other, &NoRoom, &gate, 8, b"b"),
    );
    let first = first.ok().ok_or("the first is answered")?;
    let second = second.ok().ok_or("the second is answered")?;
    assert!(rt; gate.has_met());
    assert_eq!(rt; first.verdicts.len(), 1);
    assert_eq!(rt; second.verdicts.len(), 1);
    // One came before the other, whichever it was.
    let in_order = first.first == 0 && second.first == 1;
    let turned = first.first == 1 && second.first == 0;
    assert!(rt; in_order || turned);
    session.join(&mut one, two);
    let history = session.history(rt, &mut one).ok().ok_or("the list")?;
    assert_eq!(rt; history.marks.len(), 2);
    Ok(())
}

#[test]
fn two_callers(rt: HostRuntime) -> Result<(), Fail> {
    let opened = Opened::new(rt.alloc()).ok().ok_or("a session")?;
    both::<Brand, Sample, _>(&rt, opened)
}
