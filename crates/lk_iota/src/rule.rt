//! The rule of a recursor that fits a constructor, and its right side, applied.

ghost use Rattle.std.specs.Prelude.{◌≡◌, ◌<◌, ◌+◌, ◌&&◌, nat_eq, suc, Some, IfSome, length};
ghost use Rattle.std.specs.Prelude.{map, take, drop, option_map, All};
ghost use Rattle.lk_tree.specs.Mentions.{same_name};
ghost use Rattle.lk_tree.specs.Spine.{apply as apply_to, args as args_of};
ghost use Rattle.lk_rulebook.specs.Place.{Entry as PlainEntry, Recursor as PlainRecursor, a_rec};
ghost use Rattle.lk_questions.specs.Iota.{CtorApp, fitting_rule as plain_fitting};
ghost use Rattle.lk_store.specs.Contents.{name_at, list_at, tree_at};
ghost use Rattle.lk_env.specs.Units.{rule_at, IsRuleIn};
ghost use Rattle.lk_ask.specs.Looks.{entry_at, MakesTree};
ghost use Rattle.lk_constructor.specs.Applied.{IsKnownConstructor, IsApplied};
ghost use Rattle.lk_iota.specs.Redexes.{PlainRedex, IsKnownRedex, StandsFor};
ghost use Rattle.lk_iota.specs.RightSides.{right_side};
ghost use Rattle.lk_iota.specs.Expansions.{at_ctor};
ghost use Rattle.lk_iota.specs.Iotas.{Reduces};

use crate::iota::IotaNext;
use crate::major::Redex;
use crate::sheet::IotaTermSheet;
use lk_ask::looks::Looks;
use lk_ask::next::Next;
use lk_ask::query::{Answer, Query};
use lk_ask::sheet::Sheet;
use lk_constructor::AppliedConstructor;
use lk_env::entry::Entry;
use lk_env::lent::recursor_of;
use lk_env::unit::RecursorRule;
use lk_spine::{apply, args};
use lk_store::memory::NoMemory;
use lk_store::terms::Terms;
use lk_tree::rule::Rule;

/// Whether so many arguments are the parameters and the fields.
fn makes(parameters: u64, fields: u64, count: usize) -> bool
    ensures { result ≡ nat_eq count (parameters + fields) }
{
    u128::from(parameters) + u128::from(fields) == count as u128
}

/// Whether a rule is for this constructor, applied to so many arguments.
fn fits<T: Terms>(
    terms: &T,
    rule: RecursorRule,
    constructor: AppliedConstructor,
    count: usize,
) -> bool
    requires rule_in { rule.constructor < length (T.contents terms.now).names }
    requires constructor_in { IsKnownConstructor (T.contents terms.now) constructor }
    ensures { result ≡ (same_name (name_at (T.contents terms.now) rule.constructor)
        (name_at (T.contents terms.now) constructor.name)
        && nat_eq count (constructor.parameters + rule.fields)) }
{
    terms.same_name(rule.constructor, constructor.name)
        && makes(constructor.parameters, rule.fields, count)
}

/// The first rule for this constructor, applied to so many arguments.
fn fitting_rule<T: Terms>(
    terms: &T,
    rules: &[RecursorRule],
    constructor: AppliedConstructor,
    count: usize,
) -> Option<RecursorRule>
    requires rules_in { All (IsRuleIn (T.contents terms.now)) rules.now }
    requires constructor_in { IsKnownConstructor (T.contents terms.now) constructor }
    ensures known { IfSome result (IsRuleIn (T.contents terms.now)) }
    ensures many { IfSome result (λ r. count ≡ constructor.parameters + r.fields) }
    ensures is { option_map (rule_at (T.contents terms.now)) result
        ≡ plain_fitting (map (rule_at (T.contents terms.now)) rules.now)
        (name_at (T.contents terms.now) constructor.name) constructor.parameters count }
{
    let mut rest = rules;
    'rules: while let Some((rule, more)) = rest.split_first() {
        if fits(terms, *rule, constructor, count) {
            return Some(*rule);
        }
        rest = more;
    }
    None
}

/// The rules that are given of an entry, where it is a recursor.
pub(crate) fn rules_of<L: Looks>(looks: &L, entry: Entry) -> &[RecursorRule]
    ensures known { All (IsRuleIn (L.contents looks.now)) result.now }
    ensures value { (g : PlainEntry) (r : PlainRecursor)
        → entry_at (L.sight (L.rest looks.now)).basis entry ≡ Some g → g.kind ≡ a_rec r
        → r.rules ≡ map (rule_at (L.contents looks.now)) result.now }
{
    match recursor_of(looks.scope(), entry) {
        Some((_, rules)) => rules,
        None => &[],
    }
}

/// A head applied to three lists of arguments, one after another.
fn apply_thrice<T: Terms>(
    terms: &mut T,
    front: u64,
    shared: &[u64],
    fields: &[u64],
    others: &[u64],
) -> Result<u64, NoMemory>
    requires front_in { front < length (T.contents terms.old).trees }
    requires shared_in { All (λ e. e < length (T.contents terms.old).trees) shared.now }
    requires fields_in { All (λ e. e < length (T.contents terms.old).trees) fields.now }
    requires others_in { All (λ e. e < length (T.contents terms.old).trees) others.now }
    ensures { MakesTree T.contents T.rest terms.old terms.new result
        (λ t. apply_to (apply_to (apply_to (t front) (map t shared.now)) (map t fields.now))
        (map t others.now)) }
{
    let first = apply(terms, front, shared)?;
    let second = apply(terms, first, fields)?;
    apply(terms, second, others)
}

/// The right side of a rule, applied to what the rules share, to the fields, and to what came
/// behind the major premise.
fn by_rule<L: Looks>(
    looks: &mut L,
    redex: &Redex,
    value: u64,
    fields: &[u64],
) -> Result<IotaNext, NoMemory>
    requires redex_in { IsKnownRedex (L.contents looks.old) redex.now }
    requires value_in { value < length (L.contents looks.old).trees }
    requires fields_in { All (λ e. e < length (L.contents looks.old).trees) fields.now }
    ensures { (g : PlainEntry)
        → entry_at (L.sight (L.rest looks.old)).basis redex.now.entry ≡ Some g
        → Reduces L.contents L.rest L.sight looks.old looks.new result
        (λ t. right_side g (list_at (L.contents looks.old) redex.now.levels) (t value)
        (map t (take redex.now.shared redex.now.arguments.items)) (map t fields.now)
        (map t (drop (suc redex.now.before) redex.now.arguments.items))) }
{
    let front = match looks.at_levels(redex.entry, redex.levels, value)? {
        Some(front) => front,
        None => return Ok(Next::No(Rule::LevelCount)),
    };
    let shared = &redex.arguments[..redex.shared];
    let (_, others) = redex.arguments.split_at(redex.before + 1);
    let next = apply_thrice(looks, front, shared, fields, others)?;
    Ok(Next::Ask(Query::Core(next), Sheet::Term(IotaTermSheet::Passed)))
}

/// A recursor whose major premise is a constructor applied to these: by the rule that fits.
pub(crate) fn by_arguments<L: Looks>(
    looks: &mut L,
    redex: &Redex,
    constructor: AppliedConstructor,
    e: u64,
    arguments: &[u64],
) -> Result<IotaNext, NoMemory>
    requires redex_in { IsKnownRedex (L.contents looks.old) redex.now }
    requires constructor_in { IsKnownConstructor (L.contents looks.old) constructor }
    requires e_in { e < length (L.contents looks.old).trees }
    requires arguments_in { All (λ x. x < length (L.contents looks.old).trees) arguments.now }
    ensures { (p : PlainRedex) (b : CtorApp)
        → StandsFor L.contents L.rest L.sight looks.old redex.now p
        → IsApplied (L.contents looks.old) (L.sight (L.rest looks.old)).basis.library
        (map (tree_at (L.contents looks.old)) arguments.now) constructor b
        → Reduces L.contents L.rest L.sight looks.old looks.new result
        (λ t. at_ctor (t e) p (Some b)) }
{
    let rules = rules_of(looks, redex.entry);
    match fitting_rule(looks, rules, constructor, arguments.len()) {
        Some(rule) => {
            let (_, fields) = arguments.split_at(constructor.parameters as usize);
            by_rule(looks, redex, rule.value, fields)
        }
        None => Ok(Next::Done(Answer::Term(e))),
    }
}

/// A recursor whose major premise is a constructor applied, `m`.
pub(crate) fn at_constructor<L: Looks>(
    looks: &mut L,
    redex: &Redex,
    constructor: AppliedConstructor,
    e: u64,
    m: u64,
) -> Result<IotaNext, NoMemory>
    requires redex_in { IsKnownRedex (L.contents looks.old) redex.now }
    requires constructor_in { IsKnownConstructor (L.contents looks.old) constructor }
    requires e_in { e < length (L.contents looks.old).trees }
    requires m_in { m < length (L.contents looks.old).trees }
    ensures { (p : PlainRedex) (b : CtorApp)
        → StandsFor L.contents L.rest L.sight looks.old redex.now p
        → IsApplied (L.contents looks.old) (L.sight (L.rest looks.old)).basis.library
        (args_of (tree_at (L.contents looks.old) m)) constructor b
        → Reduces L.contents L.rest L.sight looks.old looks.new result
        (λ t. at_ctor (t e) p (Some b)) }
{
    let arguments = args(looks.alloc(), looks, m)?;
    by_arguments(looks, redex, constructor, e, &arguments)
}
