//! Pis and lambdas over Locals, arrows, and Locals for types.

ghost use Rattle.std.specs.Prelude.{◌≡◌, ◌<◌, true, length, map, All, IfOk};
ghost use Rattle.lk_tree.specs.Tree.{local};
ghost use Rattle.lk_tree.specs.Bind.{close as closed};
ghost use Rattle.lk_store.specs.Contents.{Contents, tree_at, tree_of, IsIn, Extends, IsTree};
ghost use Rattle.lk_spine.specs.Reading.{AreTrees};
ghost use Rattle.lk_inductive.specs.Block.{domain};
ghost use Rattle.lk_inductive.specs.Recursors.{number, arrows, locals_from};
ghost use Rattle.lk_recursor.specs.Binders.{bind, bound_by, over_domains, AreRun};
ghost use Rattle.lk_subst.specs.Runs.{close_run_at};

use lk_lists::numbers::number_after;
use lk_store::memory::NoMemory;
use lk_store::node::Node;
use lk_store::terms::Terms;
use lk_subst::closing::close;
use lk_subst::runs::{Run, close_run};
use std::alloc::Global;

/// What binds a variable.
#[derive(Clone, Copy)]
pub enum Binder {
    Pi,
    Lam,
}

/// The node of a binder over a body.
fn node_of(binder: Binder, domain: u64, body: u64) -> Node
    ensures known { (c : Contents) → domain < length c.trees → body < length c.trees
        → IsIn c result }
    ensures tree { (c : Contents) → tree_of c result
        ≡ bind binder (tree_at c domain) (tree_at c body) }
{
    match binder {
        Binder::Pi => Node::Pi(domain, body),
        Binder::Lam => Node::Lam(domain, body),
    }
}

/// The number of a Local, and its type.
pub(crate) fn parts_of<T: Terms>(terms: &T, e: u64) -> (u64, u64)
    requires { e < length (T.contents terms.now).trees }
    ensures number { result.0 ≡ number (tree_at (T.contents terms.now) e) }
    ensures domain { IsTree (T.contents terms.now) result.1
        (domain (tree_at (T.contents terms.now) e)) }
{
    match terms.view(e) {
        Node::Local(number, domain) => (number, domain),
        _ => (0, e),
    }
}

/// A binder over a tree, whose variable stands in place of a Local.
pub(crate) fn over_local<T: Terms>(
    alloc: Global,
    terms: &mut T,
    binder: Binder,
    local: u64,
    e: u64,
) -> Result<u64, NoMemory>
    requires local_in { local < length (T.contents terms.old).trees }
    requires e_in { e < length (T.contents terms.old).trees }
    ensures keeps { Extends (T.contents terms.old) (T.contents terms.new) }
    ensures rest { T.rest terms.new ≡ T.rest terms.old }
    ensures ok { IfOk result (λ r. IsTree (T.contents terms.new) r
        (bind binder (domain (tree_at (T.contents terms.old) local))
        (closed (number (tree_at (T.contents terms.old) local))
        (tree_at (T.contents terms.old) e)))) }
{
    let parts = parts_of(terms, local);
    let body = close(alloc, terms, e, parts.0)?;
    let made = terms.make(node_of(binder, parts.1, body))?;
    Ok(made)
}

/// Binders over a tree, one for each Local, the first outermost. The Locals are closed one after another.
fn over_each<T: Terms>(
    alloc: Global,
    terms: &mut T,
    binder: Binder,
    locals: &[u64],
    e: u64,
) -> Result<u64, NoMemory>
    requires locals_in { All (λ x. x < length (T.contents terms.old).trees) locals.now }
    requires e_in { e < length (T.contents terms.old).trees }
    ensures keeps { Extends (T.contents terms.old) (T.contents terms.new) }
    ensures rest { T.rest terms.new ≡ T.rest terms.old }
    ensures ok { IfOk result (λ r. IsTree (T.contents terms.new) r
        (bound_by binder (map (tree_at (T.contents terms.old)) locals.now)
        (tree_at (T.contents terms.old) e))) }
{
    let mut left = locals;
    let mut made = e;
    'locals: while let Some((local, others)) = left.split_last() {
        made = over_local(alloc, terms, binder, *local, made)?;
        left = others;
    }
    Ok(made)
}

/// Whether Locals have the numbers from a number on.
fn is_run<T: Terms>(terms: &T, first: u64, locals: &[u64]) -> bool
    requires { All (λ x. x < length (T.contents terms.now).trees) locals.now }
    ensures { result ≡ true → AreRun first (map (tree_at (T.contents terms.now)) locals.now) }
{
    let mut left = locals;
    'locals: while let Some((local, others)) = left.split_last() {
        let place = others.len() as u64;
        let number = parts_of(terms, *local).0;
        if number < first || number - first != place {
            return false;
        }
        left = others;
    }
    true
}

/// The binder for the Local after so many of a run, over a tree in which all of these and this one are closed.
fn over_last<T: Terms>(
    alloc: Global,
    terms: &mut T,
    binder: Binder,
    run: Run,
    local: u64,
    e: u64,
) -> Result<u64, NoMemory>
    requires local_in { local < length (T.contents terms.old).trees }
    requires e_in { e < length (T.contents terms.old).trees }
    ensures keeps { Extends (T.contents terms.old) (T.contents terms.new) }
    ensures rest { T.rest terms.new ≡ T.rest terms.old }
    ensures ok { IfOk result (λ r. IsTree (T.contents terms.new) r
        (bind binder (close_run_at 0 run.first run.count
        (domain (tree_at (T.contents terms.old) local))) (tree_at (T.contents terms.old) e))) }
{
    let parts = parts_of(terms, local);
    let domain = close_run(alloc, terms, run, parts.1)?;
    let made = terms.make(node_of(binder, domain, e))?;
    Ok(made)
}

/// Binders over a tree, one for each Local of a run, the first outermost. Each part is looked through once.
fn over_run<T: Terms>(
    alloc: Global,
    terms: &mut T,
    binder: Binder,
    first: u64,
    locals: &[u64],
    e: u64,
) -> Result<u64, NoMemory>
    requires locals_in { All (λ x. x < length (T.contents terms.old).trees) locals.now }
    requires run { AreRun first (map (tree_at (T.contents terms.old)) locals.now) }
    requires e_in { e < length (T.contents terms.old).trees }
    ensures keeps { Extends (T.contents terms.old) (T.contents terms.new) }
    ensures rest { T.rest terms.new ≡ T.rest terms.old }
    ensures ok { IfOk result (λ r. IsTree (T.contents terms.new) r
        (bound_by binder (map (tree_at (T.contents terms.old)) locals.now)
        (tree_at (T.contents terms.old) e))) }
{
    let whole = Run {
        first,
        count: locals.len() as u64,
    };
    let mut left = locals;
    let mut made = close_run(alloc, terms, whole, e)?;
    'locals: while let Some((local, others)) = left.split_last() {
        let run = Run {
            first,
            count: others.len() as u64,
        };
        made = over_last(alloc, terms, binder, run, *local, made)?;
        left = others;
    }
    Ok(made)
}

/// Binders over a tree, one for each Local, the first outermost. Where the Locals' numbers go up by one, as they do in
/// shapes, each part is looked through once.
pub fn over_locals<T: Terms>(
    alloc: Global,
    terms: &mut T,
    binder: Binder,
    locals: &[u64],
    e: u64,
) -> Result<u64, NoMemory>
    requires locals_in { All (λ x. x < length (T.contents terms.old).trees) locals.now }
    requires e_in { e < length (T.contents terms.old).trees }
    ensures keeps { Extends (T.contents terms.old) (T.contents terms.new) }
    ensures rest { T.rest terms.new ≡ T.rest terms.old }
    ensures ok { IfOk result (λ r. IsTree (T.contents terms.new) r
        (bound_by binder (map (tree_at (T.contents terms.old)) locals.now)
        (tree_at (T.contents terms.old) e))) }
{
    let first = match locals.first() {
        Some(local) => parts_of(terms, *local).0,
        None => return Ok(e),
    };
    if is_run(terms, first, locals) {
        over_run(alloc, terms, binder, first, locals, e)
    } else {
        over_each(alloc, terms, binder, locals, e)
    }
}

/// Binders over a tree, one for each domain, the first outermost.
pub(crate) fn over_domains<T: Terms>(
    terms: &mut T,
    binder: Binder,
    domains: &[u64],
    e: u64,
) -> Result<u64, NoMemory>
    requires domains_in { All (λ x. x < length (T.contents terms.old).trees) domains.now }
    requires e_in { e < length (T.contents terms.old).trees }
    ensures keeps { Extends (T.contents terms.old) (T.contents terms.new) }
    ensures rest { T.rest terms.new ≡ T.rest terms.old }
    ensures ok { IfOk result (λ r. IsTree (T.contents terms.new) r
        (over_domains binder (map (tree_at (T.contents terms.old)) domains.now)
        (tree_at (T.contents terms.old) e))) }
{
    let mut left = domains;
    let mut made = e;
    'domains: while let Some((domain, others)) = left.split_last() {
        made = terms.make(node_of(binder, *domain, made))?;
        left = others;
    }
    Ok(made)
}

/// Arrows from types to a type, the first outermost.
pub fn arrows_to<T: Terms>(terms: &mut T, domains: &[u64], e: u64) -> Result<u64, NoMemory>
    requires domains_in { All (λ x. x < length (T.contents terms.old).trees) domains.now }
    requires e_in { e < length (T.contents terms.old).trees }
    ensures keeps { Extends (T.contents terms.old) (T.contents terms.new) }
    ensures rest { T.rest terms.new ≡ T.rest terms.old }
    ensures ok { IfOk result (λ r. IsTree (T.contents terms.new) r
        (arrows (map (tree_at (T.contents terms.old)) domains.now)
        (tree_at (T.contents terms.old) e))) }
{
    over_domains(terms, Binder::Pi, domains, e)
}

/// Locals for types, numbered from a number on.
pub fn locals_of<T: Terms>(
    alloc: Global,
    terms: &mut T,
    first: u64,
    domains: &[u64],
) -> Result<Vec<u64>, NoMemory>
    requires { All (λ x. x < length (T.contents terms.old).trees) domains.now }
    ensures keeps { Extends (T.contents terms.old) (T.contents terms.new) }
    ensures rest { T.rest terms.new ≡ T.rest terms.old }
    ensures ok { IfOk result (λ xs. AreTrees (T.contents terms.new) xs.items
        (locals_from first (map (tree_at (T.contents terms.old)) domains.now))) }
{
    let mut locals = Vec::new(alloc);
    let mut left = domains;
    let mut number = first;
    'domains: while let Some((domain, others)) = left.split_first() {
        let local = terms.make(Node::Local(number, *domain))?;
        locals.push(local)?;
        number = number_after(number)?;
        left = others;
    }
    Ok(locals)
}
