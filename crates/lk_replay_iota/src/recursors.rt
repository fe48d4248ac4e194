//! Recursors, and their rules.

ghost use Rattle.std.specs.Prelude.{◌≡◌, ◌+◌, Some, IfSome, List, option_map};
ghost use Rattle.lk_rulebook.specs.Place.{Entry as PlainEntry};
ghost use Rattle.lk_rulebook.specs.Structures.{before_major};
ghost use Rattle.lk_store.specs.Contents.{Contents};
ghost use Rattle.lk_store.specs.Store.{contents_of};
ghost use Rattle.lk_env.specs.declared.unit.RecursorRule.{RecursorRule as StoredRule};
ghost use Rattle.lk_env.specs.Units.{rule_at};
ghost use Rattle.lk_env.specs.Entries.{library_entry};
ghost use Rattle.lk_env.specs.Lent.{recursor_in, given_recursor};
ghost use Rattle.lk_ask.specs.Looks.{entry_at};
ghost use Rattle.lk_replay_iota.specs.Recursors.{ruled_by, ruled_at, ruled_in, nth_ruled};
ghost use Rattle.lk_replay_iota.specs.Recursors.{only_ruled, IsRuledIn};

use lk_ask::looks::Looks;
use lk_env::entry::Entry;
use lk_env::lends::Lends;
use lk_env::lent::recursor_of;
use lk_env::only::only;
use lk_env::unit::{Recursor, RecursorRule};

/// What is asked of a recursor, and one of its rules. Counts have 64 bits, so that a sum may be above 2^64.
#[derive(Clone, Copy)]
pub struct Ruled {
    /// How many arguments stand before the major premise.
    pub before: u128,
    /// How many of them come in front of the fields of a rule: the parameters, the motives and the minor premises.
    pub shared: u128,
    pub k: bool,
    pub rule: RecursorRule,
}

/// How many arguments each rule shares, and how many stand before the major premise.
fn counts(parameters: u64, motives: u64, minors: u64, indices: u64) -> (u128, u128)
    ensures shared { result.0 ≡ parameters + motives + minors }
    ensures before { result.1 ≡ parameters + motives + minors + indices }
{
    let shared = u128::from(parameters) + u128::from(motives) + u128::from(minors);
    (shared, shared + u128::from(indices))
}

/// How many arguments a recursor has before its major premise.
fn count_before(recursor: &Recursor) -> u128
    ensures { (c : Contents) (rules : List StoredRule)
        → result ≡ before_major (given_recursor c recursor.now rules) }
{
    let (_, before) = counts(
        recursor.parameters,
        recursor.motives,
        recursor.minors,
        recursor.indices,
    );
    before
}

fn with_one(recursor: &Recursor, rule: RecursorRule) -> Ruled
    ensures is { (c : Contents) (rules : List StoredRule) → ruled_at c result
        ≡ ruled_by (given_recursor c recursor.now rules) (rule_at c rule) }
    ensures rule { result.rule ≡ rule }
{
    let (shared, before) = counts(
        recursor.parameters,
        recursor.motives,
        recursor.minors,
        recursor.indices,
    );
    Ruled {
        before,
        shared,
        k: recursor.k,
        rule,
    }
}

/// The rule at a place of the list of a recursor, where an entry is one that has it.
fn nth_of<L: Lends>(library: &L, entry: Entry, place: u64) -> Option<Ruled>
    ensures known { IfSome result (IsRuledIn (contents_of (L.lent library.now).tables)) }
    ensures is { (g : PlainEntry) → library_entry (L.lent library.now) entry ≡ Some g
        → ruled_in (nth_ruled place) g.kind
        ≡ option_map (ruled_at (contents_of (L.lent library.now).tables)) result }
{
    match recursor_of(library, entry) {
        Some((recursor, rules)) => match rules.get(place as usize) {
            Some(rule) => Some(with_one(recursor, *rule)),
            None => None,
        },
        None => None,
    }
}

/// The only rule of a recursor, where an entry is one that has exactly one.
fn only_of<L: Lends>(library: &L, entry: Entry) -> Option<Ruled>
    ensures known { IfSome result (IsRuledIn (contents_of (L.lent library.now).tables)) }
    ensures is { (g : PlainEntry) → library_entry (L.lent library.now) entry ≡ Some g
        → ruled_in only_ruled g.kind
        ≡ option_map (ruled_at (contents_of (L.lent library.now).tables)) result }
{
    match recursor_of(library, entry) {
        Some((recursor, rules)) => match only(rules) {
            Some(rule) => Some(with_one(recursor, *rule)),
            None => None,
        },
        None => None,
    }
}

/// The rule at a place of the list of a recursor, where an entry is one that has it.
pub(crate) fn nth_rule<L: Looks>(looks: &L, entry: Entry, place: u64) -> Option<Ruled>
    ensures known { IfSome result (IsRuledIn (L.contents looks.now)) }
    ensures is { (g : PlainEntry) → entry_at (L.sight (L.rest looks.now)).basis entry ≡ Some g
        → ruled_in (nth_ruled place) g.kind ≡ option_map (ruled_at (L.contents looks.now)) result }
{
    nth_of(looks.scope(), entry, place)
}

/// The only rule of a recursor, where an entry is one that has exactly one.
pub(crate) fn only_rule<L: Looks>(looks: &L, entry: Entry) -> Option<Ruled>
    ensures known { IfSome result (IsRuledIn (L.contents looks.now)) }
    ensures is { (g : PlainEntry) → entry_at (L.sight (L.rest looks.now)).basis entry ≡ Some g
        → ruled_in only_ruled g.kind ≡ option_map (ruled_at (L.contents looks.now)) result }
{
    only_of(looks.scope(), entry)
}

/// How many arguments stand before the major premise, where an entry is a recursor.
pub(crate) fn before_of<L: Looks>(looks: &L, entry: Entry) -> Option<u128>
    ensures { (g : PlainEntry) → entry_at (L.sight (L.rest looks.now)).basis entry ≡ Some g
        → option_map before_major (recursor_in g.kind) ≡ result }
{
    match recursor_of(looks.scope(), entry) {
        Some((recursor, _)) => Some(count_before(recursor)),
        None => None,
    }
}
