//! Binders whose domains are closed once, to be put over many terms.

ghost use Rattle.std.specs.Prelude.{◌≡◌, ◌<◌, ◌++◌, ◌∷◌, [], true, List, length, map, All, IfOk, OnOk, IfSome};
ghost use Rattle.lk_tree.specs.Tree.{Tree};
ghost use Rattle.lk_store.specs.Contents.{Contents, tree_at, Extends, IsTree};
ghost use Rattle.lk_recursor.specs.Telescopes.{IsTelescope, over_telescope};

use crate::binders::{Binder, over_domains, parts_of};
use lk_lists::numbers::number_after;
use lk_store::memory::NoMemory;
use lk_store::terms::Terms;
use lk_subst::runs::{Run, Runs, alone, close_runs};
use std::alloc::Global;

/// Binders for the Locals of two runs, the first outermost.
#[derive(Drop)]
pub struct Telescope {
    /// The Locals that become variables under the binders.
    pub runs: Runs,
    /// The domain of each binder, in which the Locals of the binders around it are closed.
    pub domains: Vec<u64>,
}

/// No binder. Those for a run from a number on may follow.
fn empty_telescope(alloc: Global, first: u64) -> Telescope
    ensures outer { result.runs.outer.count ≡ 0 }
    ensures is { (c : Contents) → IsTelescope c [] result }
{
    Telescope {
        runs: alone(Run { first, count: 0 }),
        domains: Vec::new(alloc),
    }
}

/// The number of the first Local, if there is one.
fn first_number<T: Terms>(terms: &T, locals: &[u64]) -> u64
    requires { All (λ x. x < length (T.contents terms.now).trees) locals.now }
{
    match locals.first() {
        Some(local) => parts_of(terms, *local).0,
        None => 0,
    }
}

/// Begins a run inside the one that there is.
fn begin_inner(telescope: &mut Telescope, first: u64)
    requires { telescope.old.runs.outer.count ≡ 0 }
    ensures { (c : Contents) (xs : List Tree) → IsTelescope c xs telescope.old
        → IsTelescope c xs telescope.new }
{
    telescope.runs = Runs {
        outer: telescope.runs.inner,
        inner: Run { first, count: 0 },
    };
}

/// Adds the innermost binder, for a Local, if its number is the next one of the inner run.
fn add_local<T: Terms>(
    alloc: Global,
    terms: &mut T,
    telescope: &mut Telescope,
    local: u64,
) -> Result<bool, NoMemory>
    requires { local < length (T.contents terms.old).trees }
    ensures keeps { Extends (T.contents terms.old) (T.contents terms.new) }
    ensures rest { T.rest terms.new ≡ T.rest terms.old }
    ensures outer { OnOk result (telescope.new.runs.outer ≡ telescope.old.runs.outer) }
    ensures ok { IfOk result (λ added. added ≡ true → (xs : List Tree)
        → IsTelescope (T.contents terms.old) xs telescope.old → IsTelescope (T.contents terms.new)
        (xs ++ tree_at (T.contents terms.old) local ∷ []) telescope.new) }
{
    let (number, domain) = parts_of(terms, local);
    let inner = telescope.runs.inner;
    if number < inner.first || number - inner.first != inner.count {
        return Ok(false);
    }
    let count = number_after(inner.count)?;
    let closed = close_runs(alloc, terms, telescope.runs, domain)?;
    telescope.domains.push(closed)?;
    telescope.runs.inner.count = count;
    Ok(true)
}

/// Adds binders for Locals, if their numbers go on the inner run.
fn add_locals<T: Terms>(
    alloc: Global,
    terms: &mut T,
    telescope: &mut Telescope,
    locals: &[u64],
) -> Result<bool, NoMemory>
    requires { All (λ x. x < length (T.contents terms.old).trees) locals.now }
    ensures keeps { Extends (T.contents terms.old) (T.contents terms.new) }
    ensures rest { T.rest terms.new ≡ T.rest terms.old }
    ensures outer { OnOk result (telescope.new.runs.outer ≡ telescope.old.runs.outer) }
    ensures ok { IfOk result (λ added. added ≡ true → (xs : List Tree)
        → IsTelescope (T.contents terms.old) xs telescope.old → IsTelescope (T.contents terms.new)
        (xs ++ map (tree_at (T.contents terms.old)) locals.now) telescope.new) }
{
    let mut left = locals;
    'locals: while let Some((local, others)) = left.split_first() {
        if !add_local(alloc, terms, telescope, *local)? {
            return Ok(false);
        }
        left = others;
    }
    Ok(true)
}

/// Adds binders for the Locals of one run, and inside them for those of another one, which are given in two parts.
fn add_runs<T: Terms>(
    alloc: Global,
    terms: &mut T,
    telescope: &mut Telescope,
    outer: &[u64],
    inner: &[u64],
    innermost: &[u64],
) -> Result<bool, NoMemory>
    requires outer_in { All (λ x. x < length (T.contents terms.old).trees) outer.now }
    requires inner_in { All (λ x. x < length (T.contents terms.old).trees) inner.now }
    requires innermost_in { All (λ x. x < length (T.contents terms.old).trees) innermost.now }
    requires alone { telescope.old.runs.outer.count ≡ 0 }
    requires empty { IsTelescope (T.contents terms.old) [] telescope.old }
    ensures keeps { Extends (T.contents terms.old) (T.contents terms.new) }
    ensures rest { T.rest terms.new ≡ T.rest terms.old }
    ensures ok { IfOk result (λ added. added ≡ true → IsTelescope (T.contents terms.new)
        (map (tree_at (T.contents terms.old)) outer.now
        ++ (map (tree_at (T.contents terms.old)) inner.now
        ++ map (tree_at (T.contents terms.old)) innermost.now)) telescope.new) }
{
    if !add_locals(alloc, terms, telescope, outer)? {
        return Ok(false);
    }
    begin_inner(telescope, first_number(terms, inner));
    if !add_locals(alloc, terms, telescope, inner)? {
        return Ok(false);
    }
    let added = add_locals(alloc, terms, telescope, innermost)?;
    Ok(added)
}

/// The binders for the Locals of two runs, the inner one given in two parts; `None` where the numbers of either do not go
/// up by one.
pub(crate) fn telescope_of<T: Terms>(
    alloc: Global,
    terms: &mut T,
    outer: &[u64],
    inner: &[u64],
    innermost: &[u64],
) -> Result<Option<Telescope>, NoMemory>
    requires outer_in { All (λ x. x < length (T.contents terms.old).trees) outer.now }
    requires inner_in { All (λ x. x < length (T.contents terms.old).trees) inner.now }
    requires innermost_in { All (λ x. x < length (T.contents terms.old).trees) innermost.now }
    ensures keeps { Extends (T.contents terms.old) (T.contents terms.new) }
    ensures rest { T.rest terms.new ≡ T.rest terms.old }
    ensures ok { IfOk result (λ made. IfSome made (IsTelescope (T.contents terms.new)
        (map (tree_at (T.contents terms.old)) outer.now
        ++ (map (tree_at (T.contents terms.old)) inner.now
        ++ map (tree_at (T.contents terms.old)) innermost.now)))) }
{
    let mut telescope = empty_telescope(alloc, first_number(terms, outer));
    if add_runs(alloc, terms, &mut telescope, outer, inner, innermost)? {
        Ok(Some(telescope))
    } else {
        Ok(None)
    }
}

/// The binders over a term.
pub(crate) fn over_telescope<T: Terms>(
    alloc: Global,
    terms: &mut T,
    binder: Binder,
    telescope: &Telescope,
    e: u64,
) -> Result<u64, NoMemory>
    requires domains_in { All (λ x. x < length (T.contents terms.old).trees)
        telescope.now.domains.items }
    requires e_in { e < length (T.contents terms.old).trees }
    ensures keeps { Extends (T.contents terms.old) (T.contents terms.new) }
    ensures rest { T.rest terms.new ≡ T.rest terms.old }
    ensures ok { IfOk result (λ r. IsTree (T.contents terms.new) r
        (over_telescope (T.contents terms.old) telescope.now binder
        (tree_at (T.contents terms.old) e))) }
{
    let body = close_runs(alloc, terms, telescope.runs, e)?;
    let made = over_domains(terms, binder, &telescope.domains, body)?;
    Ok(made)
}
