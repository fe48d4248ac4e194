//! Two binders, whose bodies are opened with one Local.

ghost use Rattle.std.specs.Prelude.{◌≡◌, ◌<◌, max, [], ◌∷◌, length, IfOk};
ghost use Rattle.lk_tree.specs.Bind.{bound};
ghost use Rattle.lk_rulebook.specs.Claims.{equals};
ghost use Rattle.lk_questions.specs.Query.{same};
ghost use Rattle.lk_store.specs.Contents.{tree_at, Extends};
ghost use Rattle.lk_trace.specs.Meaning.{conversion_rule_of, IsConversionRuleIn};
ghost use Rattle.lk_step.specs.Steps.{equality as equality_step};
ghost use Rattle.lk_step.specs.Meaning.{IsRowIn};
ghost use Rattle.lk_derive_equal.specs.Binders.{IsBinderIn, AreBodiesIn, AreOpened};
ghost use Rattle.lk_step.specs.Makes.{IsMade};

use lk_ask::looks::Looks;
use lk_ask::query::Query;
use lk_step::Row;
use lk_step::making::{converted, equality};
use lk_store::memory::NoMemory;
use lk_store::node::Node;
use lk_store::terms::Terms;
use lk_subst::opening::open_with;
use lk_trace::ConversionRule;

/// A domain, and a body under its binder.
#[derive(Clone, Copy)]
pub(crate) struct Binder {
    pub domain: u64,
    pub body: u64,
}

/// The Local that two bodies are opened with, and what comes of them.
#[derive(Clone, Copy)]
pub(crate) struct Bodies {
    pub local: u64,
    pub left: u64,
    pub right: u64,
}

/// A number above those of all Locals in two terms.
fn fresh_number<T: Terms>(terms: &T, a: u64, b: u64) -> Result<u64, NoMemory>
    requires a_in { a < length (T.contents terms.now).trees }
    requires b_in { b < length (T.contents terms.now).trees }
    ensures { let t = tree_at (T.contents terms.now) in
        IfOk result (λ k. k ≡ max (bound (t a)) (bound (t b))) }
{
    let number = terms.local_bound(a).max(terms.local_bound(b));
    // No Local in memory has so great a number.
    match u64::try_from(number) {
        Ok(number) => Ok(number),
        Err(_) => Err(NoMemory),
    }
}

/// The bodies of two binders, `a` and `b`, opened with one Local of the first one's domain.
pub(crate) fn open_both<L: Looks>(
    looks: &mut L,
    a: u64,
    b: u64,
    first: Binder,
    second: Binder,
) -> Result<Bodies, NoMemory>
    requires a_in { a < length (L.contents looks.old).trees }
    requires b_in { b < length (L.contents looks.old).trees }
    requires first_in { IsBinderIn (L.contents looks.old) first }
    requires second_in { IsBinderIn (L.contents looks.old) second }
    ensures keeps { Extends (L.contents looks.old) (L.contents looks.new) }
    ensures rest { L.rest looks.new ≡ L.rest looks.old }
    ensures opened { let t = tree_at (L.contents looks.old) in
        IfOk result (AreOpened (t a) (t b) (t first.domain) (t first.body) (t second.body)
        (L.contents looks.new)) }
{
    let number = fresh_number(looks, a, b)?;
    let local = looks.make(Node::Local(number, first.domain))?;
    let alloc = looks.alloc();
    let left = open_with(alloc, looks, first.body, local)?;
    let right = open_with(alloc, looks, second.body, local)?;
    Ok(Bodies { local, left, right })
}

/// The row of two binders, by the rule of their kind.
pub(crate) fn bodies_row<L: Looks>(
    looks: &L,
    rule: ConversionRule,
    a: u64,
    b: u64,
    domain: u64,
    other: u64,
    bodies: Bodies,
) -> Result<Row, NoMemory>
    requires rule_in { IsConversionRuleIn (L.contents looks.now) rule }
    requires a_in { a < length (L.contents looks.now).trees }
    requires b_in { b < length (L.contents looks.now).trees }
    requires domain_in { domain < length (L.contents looks.now).trees }
    requires other_in { other < length (L.contents looks.now).trees }
    requires bodies_in { AreBodiesIn (L.contents looks.now) bodies }
    ensures known { IfOk result (IsRowIn (L.contents looks.now)) }
    ensures row { let c = L.contents looks.now in let t = tree_at c in IfOk result (IsMade c
        (same (t domain) (t other) ∷ same (t bodies.left) (t bodies.right) ∷ [])
        (equality_step (conversion_rule_of c rule) (t a) (t b) (equals (t domain) (t other)
        ∷ equals (t bodies.left) (t bodies.right) ∷ []) ∷ [])) }
{
    let alloc = looks.alloc();
    let asks = vec![in alloc;
        Query::Same(domain, other),
        Query::Same(bodies.left, bodies.right),
    ]?;
    let premises = vec![in alloc;
        equality(domain, other),
        equality(bodies.left, bodies.right),
    ]?;
    converted(looks, rule, a, b, asks, premises)
}
