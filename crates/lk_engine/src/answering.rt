//! The loop that answers a question, by a stack of what waits for answers.

ghost use Rattle.std.specs.Prelude.{◌≡◌, ◌≤◌, ◌-◌, None, length, Err, IfSome};
ghost use Rattle.lk_ask.specs.Questions.{IsKnownQuery};
ghost use Rattle.lk_memo.specs.Entries.{kept_of};
ghost use Rattle.lk_engine.specs.Entries.{IsTrueAt, Keeps};
ghost use Rattle.lk_engine.specs.Lookouts.{place_of, AreTrueAt, Repeats, Opens, Answers, AnswersKept};

use crate::circles::{FIRST, look};
use crate::deep::{pay_if_deep, trial};
use crate::instant::at_once;
use crate::paying::{last, left, note_before, pay};
use crate::sheet::AnySheet;
use crate::steps::{AnyNext, resume, start};
use lk_ask::kept::Kept;
use lk_ask::lookout::Lookout;
use lk_ask::next::Next;
use lk_ask::query::{Answer, Query};
use lk_ask::stop::Stop;
use lk_chain::pace::Pace;
use lk_memo::PrivateMemo;
use lk_store::node::{ListNode, Node};
use lk_store::terms::Terms;
use std::alloc::Global;

/// A question that waits: what was asked under which budget, its sheet, and the last unit that was
/// looked at for it so far.
#[derive(Drop)]
pub struct Frame {
    pub asker: Query<u64>,
    pub budget: u128,
    pub sheet: AnySheet,
    pub last: Option<u32>,
}

/// The questions that wait, the last one at the end, which is room that is used again; and how many
/// arguments may be put at once.
#[derive(Drop)]
pub struct Stack {
    frames: Vec<Frame>,
    pace: Pace,
}

impl Stack {
    pub fn new(alloc: Global) -> Self {
        Stack {
            frames: Vec::new(alloc),
            pace: Pace::new(),
        }
    }
}

/// The first step of a question, which costs one step. It is a turn.
#[inline(always)]
fn first_step<T: Terms>(
    lookout: &mut Lookout<'_, T>,
    query: Query<u64>,
    deep: bool,
) -> Result<AnyNext, Stop>
    requires query_in { IsKnownQuery (length (T.contents lookout.old.terms).trees) query }
    ensures opens { Opens T.contents T.rest lookout.old lookout.new result query }
    ensures nothing_left { lookout.old.meter.left ≡ 0 → result ≡ Err Stop.Spent }
{
    pay(lookout, 1, None)?;
    Ok(start(lookout, query, deep)?)
}

/// An answer that is known. It costs what it costs without it, and is one turn.
#[inline(always)]
pub(crate) fn repeat<T: Terms>(
    lookout: &mut Lookout<'_, T>,
    kept: Kept,
) -> Result<Answer<u64>, Stop>
    ensures { Repeats lookout.old lookout.new result kept }
{
    pay(lookout, kept.cost, kept.top)?;
    Ok(kept.answer)
}

/// The answer of a question, where it is at hand or the memo has it.
#[inline(always)]
pub(crate) fn known<T: Terms>(
    lookout: &Lookout<'_, T>,
    memo: &mut PrivateMemo,
    query: Query<u64>,
) -> Option<Kept>
    requires query_in { IsKnownQuery (length (T.contents lookout.now.terms).trees) query }
    requires entries { AreTrueAt lookout.now (T.contents lookout.now.terms) memo.old }
    ensures kept { IfSome result (IsTrueAt (place_of lookout.now) (T.contents lookout.now.terms)
        query) }
    ensures none { result ≡ None → kept_of memo.old query ≡ None }
    ensures entries { AreTrueAt lookout.now (T.contents lookout.now.terms) memo.new }
{
    match at_once(lookout, query) {
        Some(kept) => Some(kept),
        None => memo.find(query),
    }
}

/// An answer that costs fewer steps is found anew as fast as it is looked for.
const WORTH: u128 = 3;

/// Keeps an answer, where it costs so many steps. Where there is no room the memo stays as it is.
fn keep<T: Terms>(
    memo: &mut PrivateMemo,
    lookout: &Lookout<'_, T>,
    query: Query<u64>,
    budget: u128,
    answer: Answer<u64>,
    least: u128,
)
    requires { lookout.now.meter.left ≤ budget }
    ensures { Keeps memo.old memo.new query (record {
      answer = answer;
      cost = budget - lookout.now.meter.left;
      top = lookout.now.meter.last;
    }) }
{
    let cost = budget - left(lookout);
    let top = last(lookout);
    if cost >= least {
        let _kept = memo.keep(query, Kept { answer, cost, top });
    }
}

/// Whether a question is for the type of a constant at levels: it costs one step, but the levels are
/// put into the whole type.
fn is_at_levels<T: Terms>(lookout: &Lookout<'_, T>, query: Query<u64>) -> bool
    requires query_in { IsKnownQuery (length (T.contents lookout.now.terms).trees) query }
{
    match query {
        Query::Infer(e) => match lookout.terms.view(e) {
            Node::Const(_, levels) => match lookout.terms.levels(levels) {
                ListNode::Empty => false,
                ListNode::Cons(_, _) => true,
            },
            _ => false,
        },
        _ => false,
    }
}

/// The first step of a question. The type of a constant at levels is kept at once, so that it is made
/// once for many uses.
#[inline(always)]
fn first_kept<T: Terms>(
    lookout: &mut Lookout<'_, T>,
    memo: &mut PrivateMemo,
    pace: &mut Pace,
    query: Query<u64>,
    trial: u64,
) -> Result<AnyNext, Stop>
    requires query_in { IsKnownQuery (length (T.contents lookout.old.terms).trees) query }
    requires entries { AreTrueAt lookout.old (T.contents lookout.old.terms) memo.old }
    ensures opens { Opens T.contents T.rest lookout.old lookout.new result query }
    ensures entries { AreTrueAt lookout.old (T.contents lookout.new.terms) memo.new }
{
    let budget = left(lookout);
    let deep = pay_if_deep(lookout, memo, pace, query, trial);
    let next = first_step(lookout, query, deep)?;
    if let Next::Done(answer) = &next {
        if is_at_levels(lookout, query) {
            keep(memo, lookout, query, budget, *answer, 1);
        }
    }
    Ok(next)
}

/// The first step of a question, or its answer, where that is known.
#[inline(always)]
fn open<T: Terms>(
    lookout: &mut Lookout<'_, T>,
    memo: &mut PrivateMemo,
    pace: &mut Pace,
    query: Query<u64>,
    trial: u64,
) -> Result<AnyNext, Stop>
    requires query_in { IsKnownQuery (length (T.contents lookout.old.terms).trees) query }
    requires entries { AreTrueAt lookout.old (T.contents lookout.old.terms) memo.old }
    ensures opens { Opens T.contents T.rest lookout.old lookout.new result query }
    ensures entries { AreTrueAt lookout.old (T.contents lookout.new.terms) memo.new }
{
    match known(lookout, memo, query) {
        Some(kept) => Ok(Next::Done(repeat(lookout, kept)?)),
        None => first_kept(lookout, memo, pace, query, trial),
    }
}

/// The answer of a question that is not kept. The stack is emptied, and its room is used again.
fn work<T: Terms>(
    lookout: &mut Lookout<'_, T>,
    memo: &mut PrivateMemo,
    stack: &mut Stack,
    query: Query<u64>,
) -> Result<Answer<u64>, Stop>
    requires query_in { IsKnownQuery (length (T.contents lookout.old.terms).trees) query }
    requires entries { AreTrueAt lookout.old (T.contents lookout.old.terms) memo.old }
    ensures { Answers T.contents T.rest lookout.old lookout.new memo.new result query }
{
    stack.frames.clear();
    stack.pace.start(lookout.terms.len());
    let mut asked = query;
    let mut budget = left(lookout);
    let mut next = first_step(lookout, query, false)?;
    let mut due = FIRST;
    let mut tried = 0;
    'work: loop {
        match next {
            Next::Ask(other, sheet) => {
                let last = last(lookout);
                let before = left(lookout);
                match open(lookout, memo, &mut stack.pace, other, tried)? {
                    Next::Ask(deeper, inner) => {
                        let frame = Frame {
                            asker: asked,
                            budget,
                            sheet,
                            last,
                        };
                        if stack.frames.push(frame).is_err() {
                            return Err(Stop::NoMemory);
                        }
                        asked = other;
                        budget = before;
                        next = Next::Ask(deeper, inner);
                        due = look(&stack.frames, asked, due)?;
                        tried = trial(&stack.frames);
                    }
                    // Answered at once: nothing has to wait, and nothing is kept of it.
                    Next::Done(answer) => {
                        tried = 0;
                        note_before(lookout, last);
                        next = resume(lookout, sheet, answer)?;
                    }
                    Next::No(rule) => return Err(Stop::No(rule)),
                }
            }
            Next::Done(answer) => {
                keep(memo, lookout, asked, budget, answer, WORTH);
                match stack.frames.pop() {
                    None => {
                        stack.pace.note(lookout.terms.len());
                        return Ok(answer);
                    }
                    Some(frame) => {
                        tried = 0;
                        asked = frame.asker;
                        budget = frame.budget;
                        note_before(lookout, frame.last);
                        next = resume(lookout, frame.sheet, answer)?;
                    }
                }
            }
            Next::No(rule) => return Err(Stop::No(rule)),
        }
    }
}

/// The plain answer of a question at a site, with what is left of a budget. What is left afterwards
/// is left, and the meter has the last unit that was looked at for this question. What the memo
/// keeps of earlier questions costs the same as without it. Each question that is opened on the way
/// takes a turn: a question that is kept takes one, and no memory. Where nothing is left, none is
/// taken either. The stack is room that is used again.
pub fn answer<T: Terms>(
    lookout: &mut Lookout<'_, T>,
    memo: &mut PrivateMemo,
    stack: &mut Stack,
    query: Query<u64>,
) -> Result<Answer<u64>, Stop>
    requires query_in { IsKnownQuery (length (T.contents lookout.old.terms).trees) query }
    requires entries { AreTrueAt lookout.old (T.contents lookout.old.terms) memo.old }
    ensures answers { Answers T.contents T.rest lookout.old lookout.new memo.new result query }
    ensures kept { AnswersKept lookout.old lookout.new memo.old result query }
{
    match known(lookout, memo, query) {
        Some(kept) => repeat(lookout, kept),
        None => work(lookout, memo, stack, query),
    }
}
