//! The type of lambdas that were opened at once: Pis over their own domains, over the type of what
//! stands inside. That is closed with the Locals whose numbers go up by one together, so that it is
//! walked once for them.

ghost use Rattle.std.specs.Prelude.{◌≡◌, ◌<◌, [], length, map, All, IfOk, MatchOption};
ghost use Rattle.lk_store.specs.Contents.{tree_at};
ghost use Rattle.lk_subst.specs.Runs.{close_run_at};
ghost use Rattle.lk_ask.specs.Looks.{MakesTree};
ghost use Rattle.lk_type.specs.Telescopes.{number_in, closed_with, lambdas_type};
ghost use Rattle.lk_type.specs.Lambdas.{AreGathered, EndsIn};

use crate::binding::parts_of;
use crate::sheet::Binders;
use lk_ask::looks::Looks;
use lk_chain::pis;
use lk_store::memory::NoMemory;
use lk_store::node::Node;
use lk_subst::runs::{Run, Runs, close_runs};

/// The number of a Local.
fn number_of<L: Looks>(looks: &L, x: u64) -> u64
    requires { x < length (L.contents looks.now).trees }
    ensures { result ≡ number_in (tree_at (L.contents looks.now) x) }
{
    match looks.view(x) {
        Node::Local(number, _) => number,
        _ => 0,
    }
}

/// The domains of the lambdas that were opened, and the numbers of their Locals, the outermost first.
/// A lambda that stands inside them is no application, so it is not taken for one of them.
fn gathered<L: Looks>(looks: &L, e: u64, locals: u64) -> Result<(Vec<u64>, Vec<u64>), NoMemory>
    requires e_in { e < length (L.contents looks.now).trees }
    requires locals_in { locals < length (L.contents looks.now).trees }
    ensures { IfOk result
        (λ p. AreGathered (L.contents looks.now) e locals p.0.items p.1.items) }
{
    let mut domains = Vec::new(looks.alloc());
    let mut numbers = Vec::new(looks.alloc());
    let mut inside = e;
    let mut left = locals;
    'lambdas: while let Some((domain, body)) = parts_of(looks, Binders::Lambdas, inside) {
        match looks.view(left) {
            Node::App(x, others) => {
                domains.push(domain)?;
                numbers.push(number_of(looks, x))?;
                inside = body;
                left = others;
            }
            _ => return Ok((domains, numbers)),
        }
    }
    Ok((domains, numbers))
}

/// The run of numbers at the end, as long as it is, and the numbers before it.
fn last_run(numbers: &[u64]) -> Option<(Run, &[u64])>
    ensures { MatchOption result (numbers.now ≡ [])
        (λ p. EndsIn numbers.now p.0 p.1.now) }
{
    let (number, before) = numbers.split_last()?;
    let mut first = *number;
    let mut count: u64 = 1;
    let mut left = before;
    'numbers: while let Some((number, others)) = left.split_last() {
        let before = *number;
        if before >= first || first - before != 1 || count == u64::MAX {
            return Some((Run { first, count }, left));
        }
        first = before;
        count += 1;
        left = others;
    }
    Some((Run { first, count }, left))
}

/// A type, closed with the Locals of a run under so many binders.
fn close_under<L: Looks>(looks: &mut L, outer: Run, count: u64, ty: u64) -> Result<u64, NoMemory>
    requires { ty < length (L.contents looks.old).trees }
    ensures { MakesTree L.contents L.rest looks.old looks.new result
        (λ t. close_run_at count outer.first outer.count (t ty)) }
{
    let bound = looks.local_bound(ty);
    if bound <= u128::from(outer.first) {
        return Ok(ty);
    }
    // The type has no Local of an inner run that begins there, which so moves the variables alone.
    // No Local in memory has so great a number that this fails.
    let Ok(first) = u64::try_from(bound) else {
        return Err(NoMemory);
    };
    let inner = Run { first, count };
    close_runs(looks.alloc(), looks, Runs { outer, inner }, ty)
}

/// A type, closed with the Locals of these numbers, from the innermost on.
fn close_all<L: Looks>(looks: &mut L, numbers: &[u64], ty: u64) -> Result<u64, NoMemory>
    requires { ty < length (L.contents looks.old).trees }
    ensures { MakesTree L.contents L.rest looks.old looks.new result
        (λ t. closed_with numbers.now (t ty)) }
{
    let mut left = numbers;
    let mut made = ty;
    'runs: while let Some((run, others)) = last_run(left) {
        let count = (numbers.len() - left.len()) as u64;
        made = close_under(looks, run, count, made)?;
        left = others;
    }
    Ok(made)
}

/// The type of a lambda that was opened with those inside it, after the type of what stands inside:
/// the lambda is applied to its Locals.
pub(crate) fn lambdas_type<L: Looks>(looks: &mut L, opened: u64, ty: u64) -> Result<u64, NoMemory>
    requires opened_in { opened < length (L.contents looks.old).trees }
    requires ty_in { ty < length (L.contents looks.old).trees }
    ensures { MakesTree L.contents L.rest looks.old looks.new result
        (λ t. lambdas_type (t opened) (t ty)) }
{
    match looks.view(opened) {
        Node::App(e, locals) => {
            let (domains, numbers) = gathered(looks, e, locals)?;
            let closed = close_all(looks, &numbers, ty)?;
            pis(looks, &domains, closed)
        }
        _ => Ok(ty),
    }
}
