//! Locals of runs of numbers, closed all at once.

ghost use Rattle.std.specs.Prelude.{◌≡◌, ◌<◌, length, IfOk, MatchOption};
ghost use Rattle.lk_tree.specs.Tree.{Tree, var};
ghost use Rattle.lk_store.specs.Contents.{tree_at, Extends, IsTree};
ghost use Rattle.lk_subst.specs.Runs.{run_var, runs_var, close_in, close_run_at};

use crate::walk::{Rewrite, rewritten};
use lk_store::memory::NoMemory;
use lk_store::node::Node;
use lk_store::terms::Terms;
use std::alloc::Global;

/// So many Locals, numbered from a number on.
#[derive(Clone, Copy)]
pub struct Run {
    pub first: u64,
    pub count: u64,
}

/// Puts the outermost variables in place of the Locals of two runs. The innermost is for the last Local of the inner run, and
/// those for the outer run stand around those for the inner one.
#[derive(Clone, Copy)]
pub struct Runs {
    pub outer: Run,
    pub inner: Run,
}

/// A run with nothing around it.
pub fn alone(run: Run) -> Runs
    ensures outer_first { result.outer.first ≡ run.first }
    ensures outer_count { result.outer.count ≡ 0 }
    ensures inner { result.inner ≡ run }
{
    let outer = Run {
        first: run.first,
        count: 0,
    };
    Runs { outer, inner: run }
}

/// The variable for the Local of a number under binders, if it is one of the run.
fn variable_for(run: Run, depth: u64, number: u64) -> Result<Option<u64>, NoMemory>
    ensures { IfOk result (λ r. (e : Tree)
        → MatchOption r (run_var depth run.first run.count number e ≡ e)
        (λ i. run_var depth run.first run.count number e ≡ var i)) }
{
    if number < run.first {
        return Ok(None);
    }
    let place = number - run.first;
    if place >= run.count {
        return Ok(None);
    }
    // No term in memory is so deep that this fails.
    match depth.checked_add(run.count - 1 - place) {
        Some(i) => Ok(Some(i)),
        None => Err(NoMemory),
    }
}

/// The variable for the Local of a number under binders, if it is one of the two runs.
fn variable_in(runs: Runs, depth: u64, number: u64) -> Result<Option<u64>, NoMemory>
    ensures { IfOk result (λ r. (e : Tree)
        → MatchOption r (runs_var depth runs number e ≡ e)
        (λ i. runs_var depth runs number e ≡ var i)) }
{
    if let Some(i) = variable_for(runs.inner, depth, number)? {
        return Ok(Some(i));
    }
    // No term in memory is so deep that this fails.
    match depth.checked_add(runs.inner.count) {
        Some(around) => variable_for(runs.outer, around, number),
        None => Err(NoMemory),
    }
}

impl<T: Terms> Rewrite<T> for Runs {
    ghost use Rattle.std.specs.Prelude.{refl};
    ghost use Rattle.lk_subst.specs.Runs.{close_in};

    ghost change = { λ s c d t. close_in d s t };

    ghost is_known = { λ s c. Unit {0} };

    ghost more = { λ s c d x h. tt };

    ghost steady = { λ s c d x h. refl };

    #[tactic(auto, using(crate::proofs::Closed::leaves_runs), unfolding(crate::specs::Runs::close_runs_at))]
    #[inline(always)]
    fn step(&self, terms: &mut T, e: u64, depth: u64) -> Result<Option<u64>, NoMemory> {
        let bound = terms.local_bound(e);
        if bound <= u128::from(self.inner.first) && bound <= u128::from(self.outer.first) {
            return Ok(Some(e));
        }
        match terms.view(e) {
            Node::App(_, _)
            | Node::Lam(_, _)
            | Node::Pi(_, _)
            | Node::Let(_, _, _)
            | Node::Proj(_, _, _) => Ok(None),
            Node::Var(_)
            | Node::Sort(_)
            | Node::Const(_, _)
            | Node::Lit(_)
            | Node::Wide
            | Node::Str(_) => Ok(Some(e)),
            Node::Local(number, _) => match variable_in(*self, depth, number)? {
                Some(i) => {
                    let r = terms.make(Node::Var(i))?;
                    Ok(Some(r))
                }
                None => Ok(Some(e)),
            },
        }
    }
}

/// The tree with its outermost variables in place of the Locals of two runs.
pub fn close_runs<T: Terms>(
    alloc: Global,
    terms: &mut T,
    runs: Runs,
    e: u64,
) -> Result<u64, NoMemory>
    requires { e < length (T.contents terms.old).trees }
    ensures keeps { Extends (T.contents terms.old) (T.contents terms.new) }
    ensures rest { T.rest terms.new ≡ T.rest terms.old }
    ensures ok { IfOk result (λ r. IsTree (T.contents terms.new) r
        (close_in 0 runs (tree_at (T.contents terms.old) e))) }
{
    rewritten(alloc, terms, &runs, e)
}

/// The tree with its outermost variables in place of the Locals of a run.
pub fn close_run<T: Terms>(alloc: Global, terms: &mut T, run: Run, e: u64) -> Result<u64, NoMemory>
    requires { e < length (T.contents terms.old).trees }
    ensures keeps { Extends (T.contents terms.old) (T.contents terms.new) }
    ensures rest { T.rest terms.new ≡ T.rest terms.old }
    ensures ok { IfOk result (λ r. IsTree (T.contents terms.new) r
        (close_run_at 0 run.first run.count (tree_at (T.contents terms.old) e))) }
{
    close_runs(alloc, terms, alone(run), e)
}
