//! The rules of a recursor.

ghost use Rattle.std.specs.Prelude.{◌≡◌, ◌<◌, ◌+◌, ◌&&◌, nat_eq, [], Some, IfSome, length};
ghost use Rattle.std.specs.Prelude.{map, option_map, slice_get, All};
ghost use Rattle.lk_tree.specs.Mentions.{same_name};
ghost use Rattle.lk_rulebook.specs.Place.{Entry as PlainEntry, Recursor as PlainRecursor, a_rec};
ghost use Rattle.lk_questions.specs.Iota.{fitting_rule as plain_fitting};
ghost use Rattle.lk_store.specs.Contents.{name_at};
ghost use Rattle.lk_env.specs.Only.{IsOnly};
ghost use Rattle.lk_env.specs.Units.{rule_at, IsRuleIn};
ghost use Rattle.lk_ask.specs.Looks.{entry_at};
ghost use Rattle.lk_constructor.specs.Applied.{IsKnownConstructor, IsAppliedIf};
ghost use Rattle.lk_derive_iota.specs.Only.{only_at};

use lk_ask::looks::Looks;
use lk_constructor::{AppliedConstructor, constructor_at};
use lk_env::entry::Entry;
use lk_env::lent::recursor_of;
use lk_env::only::only;
use lk_env::unit::RecursorRule;
use lk_store::terms::Terms;

/// A rule, and its place in the list of its recursor.
#[derive(Clone, Copy)]
pub(crate) struct Placed {
    pub place: usize,
    pub rule: RecursorRule,
}

/// Whether so many arguments are the parameters and the fields.
fn makes(parameters: u64, fields: u64, count: usize) -> bool
    ensures { result ≡ nat_eq count (parameters + fields) }
{
    u128::from(parameters) + u128::from(fields) == count as u128
}

/// Whether a rule is for this constructor, applied to so many arguments.
fn fits<T: Terms>(
    terms: &T,
    rule: RecursorRule,
    constructor: AppliedConstructor,
    count: usize,
) -> bool
    requires rule_in { rule.constructor < length (T.contents terms.now).names }
    requires constructor_in { IsKnownConstructor (T.contents terms.now) constructor }
    ensures { result ≡ (same_name (name_at (T.contents terms.now) rule.constructor)
        (name_at (T.contents terms.now) constructor.name)
        && nat_eq count (constructor.parameters + rule.fields)) }
{
    terms.same_name(rule.constructor, constructor.name)
        && makes(constructor.parameters, rule.fields, count)
}

/// The first rule for this constructor, applied to so many arguments.
pub(crate) fn placed_rule<T: Terms>(
    terms: &T,
    rules: &[RecursorRule],
    constructor: AppliedConstructor,
    count: usize,
) -> Option<Placed>
    requires rules_in { All (IsRuleIn (T.contents terms.now)) rules.now }
    requires constructor_in { IsKnownConstructor (T.contents terms.now) constructor }
    ensures known { IfSome result (λ r. IsRuleIn (T.contents terms.now) r.rule) }
    ensures many { IfSome result (λ r. count ≡ constructor.parameters + r.rule.fields) }
    ensures place { IfSome result (λ r. slice_get rules.now r.place ≡ Some r.rule) }
    ensures is { option_map (λ r. rule_at (T.contents terms.now) r.rule) result
        ≡ plain_fitting (map (rule_at (T.contents terms.now)) rules.now)
        (name_at (T.contents terms.now) constructor.name) constructor.parameters count }
{
    let mut rest = rules;
    let mut place = 0;
    'rules: while let Some((rule, more)) = rest.split_first() {
        if fits(terms, *rule, constructor, count) {
            return Some(Placed { place, rule: *rule });
        }
        rest = more;
        place += 1;
    }
    None
}

/// The rules that are given of an entry, where it is a recursor.
pub(crate) fn rules_of<L: Looks>(looks: &L, entry: Entry) -> &[RecursorRule]
    ensures known { All (IsRuleIn (L.contents looks.now)) result.now }
    ensures value { (g : PlainEntry) (r : PlainRecursor)
        → entry_at (L.sight (L.rest looks.now)).basis entry ≡ Some g → g.kind ≡ a_rec r
        → r.rules ≡ map (rule_at (L.contents looks.now)) result.now }
{
    match recursor_of(looks.scope(), entry) {
        Some((_, rules)) => rules,
        None => &[],
    }
}

/// The only rule, where there is exactly one.
fn only_rule(rules: &[RecursorRule]) -> Option<RecursorRule>
    ensures { IsOnly rules.now result }
{
    match only(rules) {
        Some(rule) => Some(*rule),
        None => None,
    }
}

/// The constructor of the only rule of a recursor.
pub(crate) fn only_constructor<L: Looks>(looks: &L, entry: Entry) -> Option<AppliedConstructor>
    ensures known { IfSome result (IsKnownConstructor (L.contents looks.now)) }
    ensures is { (g : PlainEntry) (r : PlainRecursor)
        → entry_at (L.sight (L.rest looks.now)).basis entry ≡ Some g → g.kind ≡ a_rec r
        → IsAppliedIf (L.contents looks.now) (L.sight (L.rest looks.now)).basis.library [] result
        (only_at (L.sight (L.rest looks.now)).basis.place r.rules) }
{
    match only_rule(rules_of(looks, entry)) {
        Some(rule) => constructor_at(looks, rule.constructor),
        None => None,
    }
}
