//! What is under a binder, opened with a fresh Local.

ghost use Rattle.std.specs.Prelude.{◌≡◌, ◌<◌, IfOk, length};
ghost use Rattle.lk_tree.specs.Tree.{lam, pi, local as tree_local};
ghost use Rattle.lk_tree.specs.Bind.{opened, bound};
ghost use Rattle.lk_store.specs.Contents.{tree_at, Extends, IsTree};

use lk_ask::looks::Looks;
use lk_store::memory::NoMemory;
use lk_store::node::Node;
use lk_subst::opening::open_with;

/// A Local, by its number and its tree, and a body that was opened with it.
#[derive(Clone, Copy)]
pub struct Inside {
    pub number: u64,
    pub local: u64,
    pub body: u64,
}

/// The number of a Local that is fresh for a term under a binder.
#[tactic(auto, unfolding(lk_tree::specs::Bind::bound))]
fn fresh_number<L: Looks>(looks: &L, domain: u64, body: u64) -> Result<u64, NoMemory>
    requires domain_in { domain < length (L.contents looks.now).trees }
    requires body_in { body < length (L.contents looks.now).trees }
    ensures lam { let t = tree_at (L.contents looks.now) in
        IfOk result (λ k. k ≡ bound (lam (t domain) (t body))) }
    ensures pi { let t = tree_at (L.contents looks.now) in
        IfOk result (λ k. k ≡ bound (pi (t domain) (t body))) }
{
    let number = looks.local_bound(domain).max(looks.local_bound(body));
    // No Local in memory has so great a number.
    match u64::try_from(number) {
        Ok(number) => Ok(number),
        Err(_) => Err(NoMemory),
    }
}

/// The body of a binder, opened with a Local.
pub(crate) fn open_fresh<L: Looks>(
    looks: &mut L,
    domain: u64,
    body: u64,
) -> Result<Inside, NoMemory>
    requires domain_in { domain < length (L.contents looks.old).trees }
    requires body_in { body < length (L.contents looks.old).trees }
    ensures keeps { Extends (L.contents looks.old) (L.contents looks.new) }
    ensures stays { L.rest looks.new ≡ L.rest looks.old }
    ensures lam { let t = tree_at (L.contents looks.old) in
        IfOk result (λ i. i.number ≡ bound (lam (t domain) (t body))) }
    ensures pi { let t = tree_at (L.contents looks.old) in
        IfOk result (λ i. i.number ≡ bound (pi (t domain) (t body))) }
    ensures local { let t = tree_at (L.contents looks.old) in
        IfOk result (λ i. IsTree (L.contents looks.new) i.local (tree_local i.number (t domain))) }
    ensures body { let t = tree_at (L.contents looks.old) in IfOk result (λ i.
        IsTree (L.contents looks.new) i.body (opened (t body) (tree_local i.number (t domain)))) }
{
    let number = fresh_number(looks, domain, body)?;
    let local = looks.make(Node::Local(number, domain))?;
    let inner = open_with(looks.alloc(), looks, body, local)?;
    Ok(Inside {
        number,
        local,
        body: inner,
    })
}
