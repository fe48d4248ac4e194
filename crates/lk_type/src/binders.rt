//! Lambdas and Pis.

ghost use Rattle.std.specs.Prelude.{◌≡◌, ◌<◌, IfOk, length};
ghost use Rattle.lk_tree.specs.Tree.{lam, pi, local};
ghost use Rattle.lk_tree.specs.Bind.{opened, close as closed, bound};
ghost use Rattle.lk_questions.specs.Program.{done};
ghost use Rattle.lk_store.specs.Contents.{tree_at};
ghost use Rattle.lk_ask.specs.Looks.{MakesTree};
ghost use Rattle.lk_type.specs.Types.{level_in, lam_rest, lam_sorted, pi_rest, pi_sorted, Infers};

use crate::infer::TypeNext;
use crate::sheet::TypeTermSheet;
use lk_ask::looks::Looks;
use lk_ask::next::Next;
use lk_ask::query::{Answer, Query};
use lk_ask::sheet::Sheet;
use lk_store::memory::NoMemory;
use lk_store::node::Node;
use lk_subst::closing::close;
use lk_subst::opening::open_with;
use lk_tree::rule::Rule;

/// The number of a Local that is fresh for a term under a binder.
#[tactic(auto, unfolding(lk_tree::specs::Bind::bound))]
fn fresh_number<L: Looks>(looks: &L, domain: u64, body: u64) -> Result<u64, NoMemory>
    requires domain_in { domain < length (L.contents looks.now).trees }
    requires body_in { body < length (L.contents looks.now).trees }
    ensures lam { let t = tree_at (L.contents looks.now) in
        IfOk result (λ k. k ≡ bound (lam (t domain) (t body))) }
    ensures pi { let t = tree_at (L.contents looks.now) in
        IfOk result (λ k. k ≡ bound (pi (t domain) (t body))) }
{
    let number = looks.local_bound(domain).max(looks.local_bound(body));
    // No Local in memory has so great a number.
    match u64::try_from(number) {
        Ok(number) => Ok(number),
        Err(_) => Err(NoMemory),
    }
}

/// The body of a binder, opened with a Local.
fn open_fresh<L: Looks>(looks: &mut L, domain: u64, body: u64, number: u64) -> Result<u64, NoMemory>
    requires domain_in { domain < length (L.contents looks.old).trees }
    requires body_in { body < length (L.contents looks.old).trees }
    ensures { MakesTree L.contents L.rest looks.old looks.new result
        (λ t. opened (t body) (local number (t domain))) }
{
    let fresh = looks.make(Node::Local(number, domain))?;
    open_with(looks.alloc(), looks, body, fresh)
}

/// Goes on with a lambda whose domain has a sort.
fn lam_body<L: Looks>(looks: &mut L, domain: u64, body: u64) -> Result<TypeNext, NoMemory>
    requires domain_in { domain < length (L.contents looks.old).trees }
    requires body_in { body < length (L.contents looks.old).trees }
    ensures { Infers L.contents L.rest L.sight looks.old looks.new result
        (λ t. lam_rest (t domain) (t body)) }
{
    let number = fresh_number(looks, domain, body)?;
    let e = open_fresh(looks, domain, body, number)?;
    Ok(Next::Ask(
        Query::Infer(e),
        Sheet::Term(TypeTermSheet::LamBody { domain, number }),
    ))
}

/// Goes on with the sort of a lambda's domain.
pub(crate) fn lam_domain_sort<L: Looks>(
    looks: &mut L,
    domain: u64,
    body: u64,
    e: u64,
) -> Result<TypeNext, NoMemory>
    requires domain_in { domain < length (L.contents looks.old).trees }
    requires body_in { body < length (L.contents looks.old).trees }
    requires e_in { e < length (L.contents looks.old).trees }
    ensures { Infers L.contents L.rest L.sight looks.old looks.new result
        (λ t. lam_sorted (t domain) (t body) (t e)) }
{
    match looks.view(e) {
        Node::Sort(_) => lam_body(looks, domain, body),
        _ => Ok(Next::No(Rule::NotASort)),
    }
}

/// Goes on with the type of a lambda's body.
pub(crate) fn lam_end<L: Looks>(
    looks: &mut L,
    domain: u64,
    number: u64,
    e: u64,
) -> Result<TypeNext, NoMemory>
    requires domain_in { domain < length (L.contents looks.old).trees }
    requires e_in { e < length (L.contents looks.old).trees }
    ensures { Infers L.contents L.rest L.sight looks.old looks.new result
        (λ t. done (pi (t domain) (closed number (t e)))) }
{
    let body = close(looks.alloc(), looks, e, number)?;
    let e = looks.make(Node::Pi(domain, body))?;
    Ok(Next::Done(Answer::Term(e)))
}

/// Goes on with a Pi whose domain has a sort.
fn pi_body<L: Looks>(looks: &mut L, domain: u64, body: u64, sort: u64) -> Result<TypeNext, NoMemory>
    requires domain_in { domain < length (L.contents looks.old).trees }
    requires body_in { body < length (L.contents looks.old).trees }
    requires sort_in { sort < length (L.contents looks.old).trees }
    ensures { Infers L.contents L.rest L.sight looks.old looks.new result
        (λ t. pi_rest (t domain) (t body) (level_in (t sort))) }
{
    let number = fresh_number(looks, domain, body)?;
    let e = open_fresh(looks, domain, body, number)?;
    Ok(Next::Ask(Query::Infer(e), Sheet::Term(TypeTermSheet::PiBody { sort })))
}

/// Goes on with the sort of a Pi's domain.
pub(crate) fn pi_domain_sort<L: Looks>(
    looks: &mut L,
    domain: u64,
    body: u64,
    e: u64,
) -> Result<TypeNext, NoMemory>
    requires domain_in { domain < length (L.contents looks.old).trees }
    requires body_in { body < length (L.contents looks.old).trees }
    requires e_in { e < length (L.contents looks.old).trees }
    ensures { Infers L.contents L.rest L.sight looks.old looks.new result
        (λ t. pi_sorted (t domain) (t body) (t e)) }
{
    match looks.view(e) {
        Node::Sort(_) => pi_body(looks, domain, body, e),
        _ => Ok(Next::No(Rule::NotASort)),
    }
}
