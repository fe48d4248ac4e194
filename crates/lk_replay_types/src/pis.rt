//! Function types.

ghost use Rattle.std.specs.Prelude.{◌≡◌, ◌<◌, length, option_map, IfSome};
ghost use Rattle.lk_tree.specs.Tree.{pi, sort, imax_level, local as a_local};
ghost use Rattle.lk_tree.specs.Bind.{opened};
ghost use Rattle.lk_written.specs.Typing.{type_pi, comes_to as comes};
ghost use Rattle.lk_store.specs.Contents.{level_at, tree_at};
ghost use Rattle.lk_premises.specs.Claims.{claims_at, AreClaimsIn};
ghost use Rattle.lk_premises.specs.Testing.{Tests};
ghost use Rattle.lk_replay_types.specs.Parts.{sorts_read};
ghost use Rattle.lk_replay_types.specs.Pis.{sorts_at, pi_opened};

use lk_premises::{Claim, comes_to, fresh_local, sorted};
use lk_store::memory::NoMemory;
use lk_store::node::{LevelNode, Node};
use lk_store::terms::Terms;
use lk_subst::opening::open_with;
use std::alloc::Global;

/// The levels of the sorts of a domain and a codomain, and the premises after them.
#[derive(Clone, Copy)]
pub struct Sorts<'a> {
    pub domain: u64,
    pub codomain: u64,
    pub after: &'a [u32],
}

/// The sorts of a domain and of an opened codomain.
#[tactic(auto, unfolding(crate::specs::Parts::sorts_read))]
fn read_sorts<'a, T: Terms>(
    terms: &T,
    claims: &[Claim],
    left: &'a [u32],
    domain: u64,
    codomain: u64,
) -> Option<Sorts<'a>>
    requires claims_in { AreClaimsIn (T.contents terms.now) claims.now }
    requires domain_in { domain < length (T.contents terms.now).trees }
    requires codomain_in { codomain < length (T.contents terms.now).trees }
    ensures read { let c = T.contents terms.now in
        sorts_read (claims_at c claims.now) left.now (tree_at c domain) (tree_at c codomain)
        ≡ option_map (sorts_at c) result }
    ensures known { IfSome result (λ s. (s.domain < length (T.contents terms.now).levels)
        × (s.codomain < length (T.contents terms.now).levels)) }
{
    let first = sorted(terms, claims, left, domain)?;
    let second = sorted(terms, claims, first.after, codomain)?;
    Some(Sorts {
        domain: first.level,
        codomain: second.level,
        after: second.after,
    })
}

/// Whether a tree is the sort of functions between these sorts.
fn is_function_sort<T: Terms>(terms: &mut T, sorts: Sorts<'_>, ty: u64) -> Result<bool, NoMemory>
    requires domain_in { sorts.domain < length (T.contents terms.old).levels }
    requires codomain_in { sorts.codomain < length (T.contents terms.old).levels }
    requires ty_in { ty < length (T.contents terms.old).trees }
    ensures { let c = T.contents terms.old in
        Tests T.contents T.rest terms.old terms.new result (comes (tree_at c ty)
        (sort (imax_level (level_at c sorts.entry.domain)
        (level_at c sorts.entry.codomain))) sorts.entry.after.now) }
{
    let level = terms.make_level(LevelNode::IMax(sorts.domain, sorts.codomain))?;
    let sort = terms.make(Node::Sort(level))?;
    Ok(comes_to(terms, ty, sort, sorts.after))
}

/// Whether a tree is the sort of a function type, whose codomain is opened.
#[tactic(auto, using(lk_premises::proofs::Staying::claims_known, lk_premises::proofs::Staying::claims_same))]
fn opened_pi<T: Terms>(
    alloc: Global,
    terms: &mut T,
    claims: &[Claim],
    left: &[u32],
    local: u64,
    domain: u64,
    body: u64,
    ty: u64,
) -> Result<bool, NoMemory>
    requires claims_in { AreClaimsIn (T.contents terms.old) claims.now }
    requires local_in { local < length (T.contents terms.old).trees }
    requires domain_in { domain < length (T.contents terms.old).trees }
    requires body_in { body < length (T.contents terms.old).trees }
    requires ty_in { ty < length (T.contents terms.old).trees }
    ensures { let c = T.contents terms.old in
        Tests T.contents T.rest terms.old terms.new result
        (pi_opened (claims_at c claims.now) left.now (tree_at c domain)
        (opened (tree_at c body) (tree_at c local)) (tree_at c ty)) }
{
    let codomain = open_with(alloc, terms, body, local)?;
    match read_sorts(terms, claims, left, domain, codomain) {
        Some(sorts) => is_function_sort(terms, sorts, ty),
        None => Ok(false),
    }
}

/// A line of a function type, whose variable is this Local.
#[tactic(auto, unfolding(crate::specs::Parts::sorts_read))]
pub fn test_pi<T: Terms>(
    alloc: Global,
    terms: &mut T,
    claims: &[Claim],
    left: &[u32],
    local: u64,
    e: u64,
    ty: u64,
) -> Result<bool, NoMemory>
    requires claims_in { AreClaimsIn (T.contents terms.old) claims.now }
    requires local_in { local < length (T.contents terms.old).trees }
    requires e_in { e < length (T.contents terms.old).trees }
    requires ty_in { ty < length (T.contents terms.old).trees }
    ensures { let c = T.contents terms.old in
        Tests T.contents T.rest terms.old terms.new result
        (type_pi (claims_at c claims.now) left.now (tree_at c local) (tree_at c e)
        (tree_at c ty)) }
{
    match terms.view(e) {
        Node::Pi(domain, body) => match fresh_local(terms, domain, &[e], local) {
            Some(_) => opened_pi(alloc, terms, claims, left, local, domain, body, ty),
            None => Ok(false),
        },
        _ => Ok(false),
    }
}
