//! Weak head forms of the kinds that the checks of a block ask for.

ghost use Rattle.std.specs.Prelude.{◌≡◌, ◌<◌, length, IfOk};
ghost use Rattle.lk_tree.specs.declared.rule.Rule.TheVariants.{BlockShape};
ghost use Rattle.lk_store.specs.Contents.{level_at, tree_at, Extends};
ghost use Rattle.lk_questions.specs.Steps.{as_pi};
ghost use Rattle.lk_inductive.specs.BlockSteps.{as_level};
ghost use Rattle.lk_declaration.specs.Courses.{ComesTo, Settles};
ghost use Rattle.lk_block.specs.Forms.{pi_form, level_form};

use lk_ask::asks::Asks;
use lk_ask::stop::Stop;
use lk_declaration::asking::form_of;
use lk_store::node::Node;
use lk_store::terms::Terms;
use lk_tree::rule::Rule;

/// The domain and the body of a weak head form, which is to be a Pi (`BlockShape`).
fn pi_in<T: Terms>(terms: &T, form: u64) -> Result<(u64, u64), Stop>
    requires { form < length (T.contents terms.now).trees }
    ensures known { IfOk result (λ p. (p.0 < length (T.contents terms.now).trees)
        × (p.1 < length (T.contents terms.now).trees)) }
    ensures pi { Settles (as_pi BlockShape (tree_at (T.contents terms.now) form))
        (λ p. (tree_at (T.contents terms.now) p.0, tree_at (T.contents terms.now) p.1)) result }
{
    match terms.view(form) {
        Node::Pi(domain, body) => Ok((domain, body)),
        _ => Err(Stop::No(Rule::BlockShape)),
    }
}

/// The domain and the body of a term's weak head form, which is to be a Pi.
pub(crate) fn pi_of<A: Asks>(asks: &mut A, e: u64) -> Result<(u64, u64), Stop>
    requires { e < length (A.contents asks.old).trees }
    ensures keeps { Extends (A.contents asks.old) (A.contents asks.new) }
    ensures stays { A.standing asks.new ≡ A.standing asks.old }
    ensures known { IfOk result (λ p. (p.0 < length (A.contents asks.new).trees)
        × (p.1 < length (A.contents asks.new).trees)) }
    ensures outcome { ComesTo (A.standing asks.old)
        (pi_form (tree_at (A.contents asks.old) e)) (A.left asks.old)
        (λ p. (tree_at (A.contents asks.new) p.0, tree_at (A.contents asks.new) p.1))
        (A.left asks.new) result }
{
    let form = form_of(asks, e)?;
    pi_in(asks, form)
}

/// The level of a weak head form, which is to be a sort since a type of a block ends in it (`BlockShape`).
fn level_in<T: Terms>(terms: &T, form: u64) -> Result<u64, Stop>
    requires { form < length (T.contents terms.now).trees }
    ensures known { IfOk result (λ l. l < length (T.contents terms.now).levels) }
    ensures level { Settles (as_level (tree_at (T.contents terms.now) form))
        (level_at (T.contents terms.now)) result }
{
    match terms.view(form) {
        Node::Sort(level) => Ok(level),
        _ => Err(Stop::No(Rule::BlockShape)),
    }
}

/// The level of the sort that the end of a type of a block is to be (`BlockShape`).
pub(crate) fn level_of<A: Asks>(asks: &mut A, e: u64) -> Result<u64, Stop>
    requires { e < length (A.contents asks.old).trees }
    ensures keeps { Extends (A.contents asks.old) (A.contents asks.new) }
    ensures stays { A.standing asks.new ≡ A.standing asks.old }
    ensures known { IfOk result (λ l. l < length (A.contents asks.new).levels) }
    ensures outcome { ComesTo (A.standing asks.old)
        (level_form (tree_at (A.contents asks.old) e)) (A.left asks.old)
        (level_at (A.contents asks.new)) (A.left asks.new) result }
{
    let form = form_of(asks, e)?;
    level_in(asks, form)
}
