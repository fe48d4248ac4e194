//! The two constants that eliminate elements of quotients.

ghost use Rattle.std.specs.Prelude.{◌≡◌, ◌<◌, length, IfOk};
ghost use Rattle.lk_rulebook.specs.Names.{quot_lift};
ghost use Rattle.lk_tree.specs.Mentions.{same_name as are_same};
ghost use Rattle.lk_store.specs.Contents.{Contents, name_at, Extends};
ghost use Rattle.lk_trace.specs.Meaning.{reduction_rule_of};
ghost use Rattle.lk_derive_quot.specs.Eliminators.{eliminator_if, reach, eliminator_rule};

use lk_premises::{dotted, same_name};
use lk_store::memory::NoMemory;
use lk_store::terms::Terms;
use lk_trace::ReductionRule;
use std::alloc::Global;

/// The two constants.
#[derive(Clone, Copy)]
pub enum Eliminator {
    Lift,
    Induction,
}

/// How many arguments it takes, up to its major premise.
pub(crate) fn reach_of(eliminator: Eliminator) -> usize
    ensures { result ≡ reach eliminator }
{
    match eliminator {
        Eliminator::Lift => 6,
        Eliminator::Induction => 5,
    }
}

/// The rule of its steps.
pub(crate) fn rule_of(eliminator: Eliminator) -> ReductionRule
    ensures { reduction_rule_of result ≡ eliminator_rule eliminator }
{
    match eliminator {
        Eliminator::Lift => ReductionRule::Lift,
        Eliminator::Induction => ReductionRule::Induction,
    }
}

/// Which of the two has this name, where one of them has it.
pub(crate) fn eliminator_of<T: Terms>(
    alloc: Global,
    terms: &mut T,
    name: u64,
) -> Result<Eliminator, NoMemory>
    requires { name < length (T.contents terms.old).names }
    ensures keeps { Extends (T.contents terms.old) (T.contents terms.new) }
    ensures rest { T.rest terms.new ≡ T.rest terms.old }
    ensures is { IfOk result (λ x.
        x ≡ eliminator_if (are_same (name_at (T.contents terms.old) name) quot_lift)) }
{
    let lift = dotted(alloc, terms, b"Quot", b"lift")?;
    if same_name(terms, name, lift) {
        return Ok(Eliminator::Lift);
    }
    Ok(Eliminator::Induction)
}
