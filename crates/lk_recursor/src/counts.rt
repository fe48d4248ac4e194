//! The counts of a stated recursor against those of the block's own.

ghost use Rattle.std.specs.Prelude.{◌≡◌, ◌&&◌, nat_eq, length, map, All};
ghost use Rattle.lk_tree.specs.Mentions.{same_name};
ghost use Rattle.lk_store.specs.Contents.{name_at, tree_at};
ghost use Rattle.lk_env.specs.Units.{rule_at, IsRuleIn};
ghost use Rattle.lk_inductive.specs.Block.{Shape as PlainShape};
ghost use Rattle.lk_inductive.specs.Recursors.{rules_of};
ghost use Rattle.lk_inductive.specs.Compare.{same_rules, same_counts};
ghost use Rattle.lk_block.specs.Shapes.{constructor_shape_at, IsConstructorShapeIn};
ghost use Rattle.lk_restore.specs.Originals.{read_name, restoring_at, AreOriginalsIn};
ghost use Rattle.lk_recursor.specs.Comparisons.{stated_of, own_of, IsComparison};

use crate::own::Comparison;
use lk_block::shape::ConstructorShape;
use lk_env::unit::RecursorRule;
use lk_lists::names::names_equal;
use lk_restore::Original;
use lk_restore::originals::original_name;
use lk_store::terms::Terms;

/// Whether a rule is for this constructor, read back, with as many fields.
fn rule_agrees<T: Terms>(
    terms: &T,
    originals: &[Original],
    rule: &RecursorRule,
    constructor: &ConstructorShape,
) -> bool
    requires originals_in { AreOriginalsIn (T.contents terms.now) originals.now }
    requires rule_in { IsRuleIn (T.contents terms.now) rule.now }
    requires constructor_in { IsConstructorShapeIn (T.contents terms.now) constructor.now }
    ensures { result ≡ (same_name (name_at (T.contents terms.now) rule.now.constructor)
        (read_name (T.contents terms.now) originals.now
        (name_at (T.contents terms.now) constructor.now.name)) && nat_eq rule.now.fields
        (length constructor.now.fields.items)) }
{
    let name = original_name(terms, originals, constructor.name);
    names_equal(terms, rule.constructor, name) && rule.fields == constructor.fields.len() as u64
}

/// Whether the rules are for these constructors, read back, in their order, with as many fields. Each constructor has a minor premise.
fn rules_agree<T: Terms>(
    terms: &T,
    originals: &[Original],
    rules: &[RecursorRule],
    minors: &[u64],
    constructors: &[ConstructorShape],
) -> bool
    requires originals_in { AreOriginalsIn (T.contents terms.now) originals.now }
    requires rules_in { All (IsRuleIn (T.contents terms.now)) rules.now }
    requires constructors_in { All (IsConstructorShapeIn (T.contents terms.now)) constructors.now }
    ensures { (s : PlainShape) → result ≡ same_rules
        (map (rule_at (T.contents terms.now)) rules.now)
        (rules_of (restoring_at (T.contents terms.now) originals.now s) s
        (map (tree_at (T.contents terms.now)) minors.now)
        (map (constructor_shape_at (T.contents terms.now)) constructors.now)) }
{
    let mut left = rules;
    let mut premises = minors;
    let mut rest = constructors;
    'constructors: while let Some((constructor, others)) = rest.split_first() {
        match premises.split_first() {
            None => return left.is_empty(),
            Some((_, more_premises)) => match left.split_first() {
                None => return false,
                Some((rule, more)) => {
                    if !rule_agrees(terms, originals, rule, constructor) {
                        return false;
                    }
                    left = more;
                    premises = more_premises;
                    rest = others;
                }
            },
        }
    }
    left.is_empty()
}

/// Whether the rules of a stated recursor are for the constructors of the block's own, in their order, with as many fields.
fn own_rules_agree<T: Terms>(terms: &T, pair: &Comparison) -> bool
    requires { IsComparison (T.contents terms.now) pair.now }
    ensures { result ≡ same_rules
        (map (rule_at (T.contents terms.now)) pair.now.stated.now.rules.items)
        (own_of (T.contents terms.now) pair.now).recursor.rules }
{
    let own = pair.own;
    let originals = pair.shared.front.originals;
    rules_agree(
        terms,
        originals,
        &pair.stated.rules,
        own.minors,
        &own.of.constructors,
    )
}

/// Whether a stated recursor has the counts, the K and the rules, except their values, of the block's own.
#[tactic(auto, using(crate::proofs::Agreeing::counts_are))]
pub fn counts_agree<T: Terms>(terms: &T, pair: &Comparison) -> bool
    requires { IsComparison (T.contents terms.now) pair.now }
    ensures { result ≡ same_counts (stated_of (T.contents terms.now) pair.now)
        (own_of (T.contents terms.now) pair.now) }
{
    let stated = pair.stated;
    let shape = pair.shared.shape;
    let front = pair.shared.front;
    (stated.parameters == shape.parameters.len() as u64
        && stated.indices == pair.own.of.indices.len() as u64)
        && ((stated.motives == shape.types.len() as u64
            && stated.minors == front.minors.len() as u64)
            && ((stated.k == pair.shared.k && stated.levels.len() == front.names.len())
                && own_rules_agree(terms, pair)))
}
