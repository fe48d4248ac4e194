//! Functions of applications that are asked for one inside the other.

ghost use Rattle.std.specs.Prelude.{◌<◌, length, IfSome};
ghost use Rattle.lk_ask.specs.Questions.{IsKnownQuery};
ghost use Rattle.lk_engine.specs.Deep.{IsFunction};
ghost use Rattle.lk_engine.specs.Lookouts.{AreTrueAt};

use crate::answering::{Frame, known};
use crate::sheet::TermSheet;
use lk_ask::lookout::Lookout;
use lk_ask::query::Query;
use lk_ask::sheet::Sheet;
use lk_chain::pace::Pace;
use lk_chain::{long_spine, steps_of};
use lk_memo::PrivateMemo;
use lk_store::node::Node;
use lk_store::terms::Terms;
use lk_type::sheet::TypeTermSheet;

/// So many of them wait before the arguments of the next one are put at once. What differs in the
/// last arguments alone shares what is kept of the others. Where it is not paid it is tried again
/// behind so many times as many.
const DEEP: usize = 8;

/// Whether the type of an application's function is waited for.
fn is_function(frame: &Frame) -> bool {
    match &frame.sheet {
        Sheet::Term(TermSheet::Type(TypeTermSheet::Function { argument: _ })) => true,
        _ => false,
    }
}

/// How many of those that wait last wait for the type of a function. No more than so many are
/// counted.
fn functions(frames: &[Frame], most: usize) -> usize {
    let mut left = frames;
    for count in 0..most {
        match left.split_last() {
            Some((frame, others)) => {
                if !is_function(frame) {
                    return count;
                }
                left = others;
            }
            None => return count,
        }
    }
    most
}

/// Whether so many functions wait at the end, one inside the other, and not twice as many. As they
/// come to wait it is so once, however many they are, and costs little: it is looked at only where
/// as many questions wait, some times.
fn has_functions(frames: &[Frame], many: usize) -> bool
    requires { 0 < many }
{
    if frames.len() % many != 0 {
        return false;
    }
    let most = many.saturating_mul(2);
    let count = functions(frames, most);
    many <= count && count < most
}

/// The how many-th trial it is, for as many functions wait as there is one for, or 0.
#[inline(never)]
fn trial_of_many(frames: &[Frame]) -> u64 {
    if has_functions(frames, DEEP) {
        1
    } else if has_functions(frames, DEEP * DEEP) {
        2
    } else if has_functions(frames, DEEP * DEEP * DEEP) {
        3
    } else if has_functions(frames, DEEP * DEEP * DEEP * DEEP) {
        4
    } else {
        0
    }
}

/// The how many-th trial it is to put the arguments of the next function at once, as so many wait one
/// inside the other: 0 where it is none.
#[inline(always)]
pub(crate) fn trial(frames: &[Frame]) -> u64 {
    if frames.len() % DEEP == 0 {
        trial_of_many(frames)
    } else {
        0
    }
}

/// The function of an application.
fn function_of<T: Terms>(terms: &T, e: u64) -> Option<u64>
    requires { e < length (T.contents terms.now).trees }
    ensures { IfSome result (IsFunction (T.contents terms.now) e) }
{
    match terms.view(e) {
        Node::App(function, _) => Some(function),
        _ => None,
    }
}

/// Whether the memo has the type of a function, which is looked up where the count is a power of 2:
/// it has those inside it too, mostly.
fn has_type_of<T: Terms>(
    lookout: &Lookout<'_, T>,
    memo: &mut PrivateMemo,
    function: u64,
    count: u64,
) -> bool
    requires function_in { function < length (T.contents lookout.now.terms).trees }
    requires entries { AreTrueAt lookout.now (T.contents lookout.now.terms) memo.old }
    ensures { AreTrueAt lookout.now (T.contents lookout.now.terms) memo.new }
{
    count & count.saturating_sub(1) == 0 && known(lookout, memo, Query::Infer(function)).is_some()
}

/// What stands at the head of a spine, and how many arguments it is given. There is nothing where
/// the memo has one of the functions that the first half of the arguments are given to, counted
/// from the end, which are asked for one inside the other. One that it has ends the way inwards,
/// and then it takes longer to put all arguments at once.
fn unknown_spine<T: Terms>(
    lookout: &Lookout<'_, T>,
    memo: &mut PrivateMemo,
    e: u64,
) -> Option<(u64, u64)>
    requires e_in { e < length (T.contents lookout.now.terms).trees }
    requires entries { AreTrueAt lookout.now (T.contents lookout.now.terms) memo.old }
    ensures head { IfSome result (λ p. p.0 < length (T.contents lookout.now.terms).trees) }
    ensures entries { AreTrueAt lookout.now (T.contents lookout.now.terms) memo.new }
{
    let mut function = e;
    let mut ahead = e;
    let mut count: u64 = 0;
    'functions: while let Some(inside) = function_of(&lookout.terms, ahead) {
        match (
            function_of(&lookout.terms, function),
            function_of(&lookout.terms, inside),
        ) {
            (Some(next), Some(further)) => {
                count = count.saturating_add(1);
                if has_type_of(lookout, memo, next, count) {
                    return None;
                }
                function = next;
                ahead = further;
            }
            _ => return Some((inside, count.saturating_mul(2))),
        }
    }
    Some((ahead, count.saturating_mul(2)))
}

/// Each argument that is put takes so many steps.
const ARGUMENT: u64 = 8;

/// Whether the arguments of a term are to be put at once, which the pace has to allow. If so, what
/// that takes is spent.
#[inline(never)]
fn pay_for_spine<T: Terms>(
    lookout: &Lookout<'_, T>,
    memo: &mut PrivateMemo,
    pace: &mut Pace,
    e: u64,
    trial: u64,
) -> bool
    requires e_in { e < length (T.contents lookout.now.terms).trees }
    requires entries { AreTrueAt lookout.now (T.contents lookout.now.terms) memo.old }
    ensures { AreTrueAt lookout.now (T.contents lookout.now.terms) memo.new }
{
    pace.note(lookout.terms.len());
    let most = pace.most(trial);
    if most == 0 || !long_spine(lookout, e) {
        return false;
    }
    let Some((function, arguments)) = unknown_spine(lookout, memo, e) else {
        return false;
    };
    let Some(steps) = steps_of(lookout, function, most) else {
        return false;
    };
    if steps >= most {
        pace.spend_on_look(steps);
        return false;
    }
    pace.spend(arguments.saturating_mul(ARGUMENT).saturating_add(steps));
    true
}

/// Whether the arguments of a term are to be put at once: it is asked for deep inside applications,
/// the memo has none of what is asked for next, and the pace allows it, which then has spent it.
#[inline(always)]
pub(crate) fn pay_if_deep<T: Terms>(
    lookout: &Lookout<'_, T>,
    memo: &mut PrivateMemo,
    pace: &mut Pace,
    query: Query<u64>,
    trial: u64,
) -> bool
    requires query_in { IsKnownQuery (length (T.contents lookout.now.terms).trees) query }
    requires entries { AreTrueAt lookout.now (T.contents lookout.now.terms) memo.old }
    ensures { AreTrueAt lookout.now (T.contents lookout.now.terms) memo.new }
{
    if trial == 0 {
        return false;
    }
    match query {
        Query::Infer(e) => pay_for_spine(lookout, memo, pace, e, trial),
        _ => false,
    }
}
