//! The constructor of the only rule of a recursor.

ghost use Rattle.std.specs.Prelude.{◌≡◌, [], Some, IfOk, IfSome};
ghost use Rattle.lk_rulebook.specs.Place.{Entry as PlainEntry, Recursor as PlainRecursor, a_rec};
ghost use Rattle.lk_questions.specs.Iota.{only_ctor};
ghost use Rattle.lk_env.specs.Only.{IsOnly};
ghost use Rattle.lk_ask.specs.Looks.{entry_at};
ghost use Rattle.lk_constructor.specs.Applied.{IsKnownConstructor, IsAppliedIf};
ghost use Rattle.lk_constructor.specs.Looking.{LooksUp};
ghost use Rattle.lk_iota.specs.OnlyRule.{only_at};

use crate::rule::rules_of;
use lk_ask::looks::Looks;
use lk_constructor::{AppliedConstructor, constructor_at, look_constructor};
use lk_env::entry::Entry;
use lk_env::only::only;
use lk_env::unit::RecursorRule;
use lk_tree::rule::Rule;

/// The only rule, where there is exactly one.
fn only_rule(rules: &[RecursorRule]) -> Option<RecursorRule>
    ensures { IsOnly rules.now result }
{
    match only(rules) {
        Some(rule) => Some(*rule),
        None => None,
    }
}

/// Looks up the constructor of the only rule of a recursor, where there is exactly one. That its
/// unit was looked at is noted.
pub(crate) fn look_only<L: Looks>(
    looks: &mut L,
    entry: Entry,
) -> Result<Option<AppliedConstructor>, Rule>
    ensures contents { L.contents looks.new ≡ L.contents looks.old }
    ensures stays { (L.sight (L.rest looks.new)).basis ≡ (L.sight (L.rest looks.old)).basis }
    ensures known { IfOk result (λ u. IfSome u (IsKnownConstructor (L.contents looks.old))) }
    ensures finds { (g : PlainEntry) (r : PlainRecursor)
        → entry_at (L.sight (L.rest looks.old)).basis entry ≡ Some g → g.kind ≡ a_rec r
        → LooksUp L.contents L.rest L.sight looks.old looks.new result []
        (only_at (L.sight (L.rest looks.old)).basis.place r.rules) (only_ctor r.rules) }
{
    match only_rule(rules_of(looks, entry)) {
        Some(rule) => look_constructor(looks, rule.constructor),
        None => Ok(None),
    }
}

/// The constructor of the only rule of a recursor, which was looked up before.
pub(crate) fn only_constructor<L: Looks>(looks: &L, entry: Entry) -> Option<AppliedConstructor>
    ensures known { IfSome result (IsKnownConstructor (L.contents looks.now)) }
    ensures is { (g : PlainEntry) (r : PlainRecursor)
        → entry_at (L.sight (L.rest looks.now)).basis entry ≡ Some g → g.kind ≡ a_rec r
        → IsAppliedIf (L.contents looks.now) (L.sight (L.rest looks.now)).basis.library [] result
        (only_at (L.sight (L.rest looks.now)).basis.place r.rules) }
{
    match only_rule(rules_of(looks, entry)) {
        Some(rule) => constructor_at(looks, rule.constructor),
        None => None,
    }
}
