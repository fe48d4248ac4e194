//! The rules of recursors.

ghost use Rattle.std.specs.Prelude.{◌≡◌, ◌<◌, Some, IfOk, length, take, drop};
ghost use Rattle.lk_tree.specs.Tree.{app};
ghost use Rattle.lk_tree.specs.Spine.{apply, args as args_of};
ghost use Rattle.lk_rulebook.specs.Place.{Entry as PlainEntry};
ghost use Rattle.lk_questions.specs.Iota.{CtorApp};
ghost use Rattle.lk_questions.specs.Steps.{is_same_tree};
ghost use Rattle.lk_questions.specs.Tests.{passes};
ghost use Rattle.lk_written.specs.Reducing.{red_iota};
ghost use Rattle.lk_store.specs.Contents.{list_at, tree_at};
ghost use Rattle.lk_ask.specs.Looks.{entry_at};
ghost use Rattle.lk_constructor.specs.Applied.{IsKnownConstructor, IsApplied};
ghost use Rattle.lk_premises.specs.Testing.{Tests};
ghost use Rattle.lk_replay_iota.specs.Recursors.{ruled_at, IsRuledIn};
ghost use Rattle.lk_replay_iota.specs.Rules.{right_side, value_read, constructor_read, rule_read};
ghost use Rattle.lk_replay_iota.specs.Rules.{major_read, entry_read};

use crate::fronts::{first_arguments, front_of, is_applied_to, other_arguments};
use crate::recursors::{Ruled, nth_rule};
use lk_ask::looks::Looks;
use lk_constructor::{AppliedConstructor, head_constructor};
use lk_env::entry::Entry;
use lk_eta::arguments::has_arguments;
use lk_premises::{ended, head_meaning, same_name};
use lk_spine::args;
use lk_store::memory::NoMemory;
use lk_store::node::Node;

/// Whether a tree is a value, applied to the first arguments of a recursor and then to the fields of a constructor, which
/// stand behind its parameters.
fn is_made<L: Looks>(
    looks: &L,
    value: u64,
    shared: u128,
    f: u64,
    parameters: u64,
    e: u64,
    b: u64,
) -> Result<bool, NoMemory>
    requires value_in { value < length (L.contents looks.now).trees }
    requires f_in { f < length (L.contents looks.now).trees }
    requires e_in { e < length (L.contents looks.now).trees }
    requires b_in { b < length (L.contents looks.now).trees }
    ensures { let t = tree_at (L.contents looks.now) in IfOk result (λ r. r
        ≡ is_same_tree (t b) (apply (apply (t value) (take shared (args_of (t f))))
        (drop parameters (args_of (t e))))) }
{
    let front = args(looks.alloc(), looks, f)?;
    let values = args(looks.alloc(), looks, e)?;
    match front_of(looks, other_arguments(&values, parameters), b) {
        Some(rest) => Ok(is_applied_to(looks, value, first_arguments(&front, shared), rest)),
        None => Ok(false),
    }
}

/// The same, and no premise is left.
fn is_right_side<L: Looks>(
    looks: &L,
    left: &[u32],
    value: u64,
    shared: u128,
    f: u64,
    parameters: u64,
    e: u64,
    b: u64,
) -> Result<bool, NoMemory>
    requires value_in { value < length (L.contents looks.now).trees }
    requires f_in { f < length (L.contents looks.now).trees }
    requires e_in { e < length (L.contents looks.now).trees }
    requires b_in { b < length (L.contents looks.now).trees }
    ensures { let t = tree_at (L.contents looks.now) in IfOk result (λ r. r ≡ passes
        (right_side left.now (t value) shared (t f) parameters (t e) (t b))) }
{
    if !ended(left) {
        return Ok(false);
    }
    is_made(looks, value, shared, f, parameters, e, b)
}

/// The same of a rule's value at the recursor's levels.
fn with_value<L: Looks>(
    looks: &mut L,
    left: &[u32],
    ruled: Ruled,
    entry: Entry,
    levels: u64,
    f: u64,
    parameters: u64,
    e: u64,
    b: u64,
) -> Result<bool, NoMemory>
    requires ruled_in { IsRuledIn (L.contents looks.old) ruled }
    requires levels_in { levels < length (L.contents looks.old).lists }
    requires f_in { f < length (L.contents looks.old).trees }
    requires e_in { e < length (L.contents looks.old).trees }
    requires b_in { b < length (L.contents looks.old).trees }
    ensures { let c = L.contents looks.old in (g : PlainEntry)
        → entry_at (L.sight (L.rest looks.old)).basis entry ≡ Some g
        → Tests L.contents L.rest looks.old looks.new result
        (value_read left.now (list_at c levels) g.levels (ruled_at c ruled) (tree_at c f) parameters
        (tree_at c e) (tree_at c b)) }
{
    match looks.at_levels(entry, levels, ruled.rule.value)? {
        Some(value) => is_right_side(looks, left, value, ruled.shared, f, parameters, e, b),
        None => Ok(false),
    }
}

/// The same, where the rule is to be for this constructor, with as many fields.
fn with_constructor<L: Looks>(
    looks: &mut L,
    left: &[u32],
    ruled: Ruled,
    found: AppliedConstructor,
    entry: Entry,
    levels: u64,
    f: u64,
    e: u64,
    b: u64,
) -> Result<bool, NoMemory>
    requires ruled_in { IsRuledIn (L.contents looks.old) ruled }
    requires found_in { IsKnownConstructor (L.contents looks.old) found }
    requires levels_in { levels < length (L.contents looks.old).lists }
    requires f_in { f < length (L.contents looks.old).trees }
    requires e_in { e < length (L.contents looks.old).trees }
    requires b_in { b < length (L.contents looks.old).trees }
    ensures { let c = L.contents looks.old in (g : PlainEntry) (k : CtorApp)
        → entry_at (L.sight (L.rest looks.old)).basis entry ≡ Some g
        → IsApplied c (L.sight (L.rest looks.old)).basis.library (args_of (tree_at c e)) found k
        → Tests L.contents L.rest looks.old looks.new result
        (constructor_read left.now (list_at c levels) g.levels (ruled_at c ruled) (tree_at c f)
        (tree_at c e) (tree_at c b) k) }
{
    let count = u128::from(found.parameters) + u128::from(ruled.rule.fields);
    if !same_name(looks, ruled.rule.constructor, found.name) || !has_arguments(looks, e, count) {
        return Ok(false);
    }
    with_value(looks, left, ruled, entry, levels, f, found.parameters, e, b)
}

/// The same of the constructor at the head of the major premise.
fn with_major<L: Looks>(
    looks: &mut L,
    left: &[u32],
    ruled: Ruled,
    entry: Entry,
    levels: u64,
    f: u64,
    e: u64,
    b: u64,
) -> Result<bool, NoMemory>
    requires ruled_in { IsRuledIn (L.contents looks.old) ruled }
    requires levels_in { levels < length (L.contents looks.old).lists }
    requires f_in { f < length (L.contents looks.old).trees }
    requires e_in { e < length (L.contents looks.old).trees }
    requires b_in { b < length (L.contents looks.old).trees }
    ensures { let c = L.contents looks.old in (g : PlainEntry)
        → entry_at (L.sight (L.rest looks.old)).basis entry ≡ Some g
        → Tests L.contents L.rest looks.old looks.new result
        (major_read (L.sight (L.rest looks.old)).basis.place left.now (list_at c levels) g.levels
        (tree_at c f) (tree_at c e) (tree_at c b) (ruled_at c ruled)) }
{
    match head_constructor(looks, e) {
        Some(found) => with_constructor(looks, left, ruled, found, entry, levels, f, e, b),
        None => Ok(false),
    }
}

/// The same, where the recursor has just the arguments before its major premise.
fn with_rule<L: Looks>(
    looks: &mut L,
    left: &[u32],
    ruled: Ruled,
    entry: Entry,
    levels: u64,
    f: u64,
    e: u64,
    b: u64,
) -> Result<bool, NoMemory>
    requires ruled_in { IsRuledIn (L.contents looks.old) ruled }
    requires levels_in { levels < length (L.contents looks.old).lists }
    requires f_in { f < length (L.contents looks.old).trees }
    requires e_in { e < length (L.contents looks.old).trees }
    requires b_in { b < length (L.contents looks.old).trees }
    ensures { let c = L.contents looks.old in (g : PlainEntry)
        → entry_at (L.sight (L.rest looks.old)).basis entry ≡ Some g
        → Tests L.contents L.rest looks.old looks.new result
        (rule_read (L.sight (L.rest looks.old)).basis.place left.now (list_at c levels) g.levels
        (tree_at c f) (tree_at c e) (tree_at c b) (ruled_at c ruled)) }
{
    if !has_arguments(looks, f, ruled.before) {
        return Ok(false);
    }
    with_major(looks, left, ruled, entry, levels, f, e, b)
}

/// The same of the rule at this place of the recursor's list.
fn with_entry<L: Looks>(
    looks: &mut L,
    left: &[u32],
    place: u64,
    entry: Entry,
    levels: u64,
    f: u64,
    e: u64,
    b: u64,
) -> Result<bool, NoMemory>
    requires levels_in { levels < length (L.contents looks.old).lists }
    requires f_in { f < length (L.contents looks.old).trees }
    requires e_in { e < length (L.contents looks.old).trees }
    requires b_in { b < length (L.contents looks.old).trees }
    ensures { let c = L.contents looks.old in (g : PlainEntry)
        → entry_at (L.sight (L.rest looks.old)).basis entry ≡ Some g
        → Tests L.contents L.rest looks.old looks.new result
        (entry_read (L.sight (L.rest looks.old)).basis.place place left.now (list_at c levels) g
        (tree_at c f) (tree_at c e) (tree_at c b)) }
{
    match nth_rule(looks, entry, place) {
        Some(ruled) => with_rule(looks, left, ruled, entry, levels, f, e, b),
        None => Ok(false),
    }
}

/// A line of this application by a rule of the recursor at its head.
fn by_rule<L: Looks>(
    looks: &mut L,
    left: &[u32],
    place: u64,
    f: u64,
    e: u64,
    b: u64,
) -> Result<bool, NoMemory>
    requires f_in { f < length (L.contents looks.old).trees }
    requires e_in { e < length (L.contents looks.old).trees }
    requires b_in { b < length (L.contents looks.old).trees }
    ensures { let t = tree_at (L.contents looks.old) in
        Tests L.contents L.rest looks.old looks.new result
        (red_iota (L.sight (L.rest looks.old)).basis.place place left.now (app (t f) (t e)) (t b)) }
{
    match head_meaning(looks, f) {
        Some(front) => with_entry(looks, left, place, front.entry, front.levels, f, e, b),
        None => Ok(false),
    }
}

/// A line of a recursor on a constructor, by the rule at this place of its list.
pub fn test_iota<L: Looks>(
    looks: &mut L,
    left: &[u32],
    place: u64,
    a: u64,
    b: u64,
) -> Result<bool, NoMemory>
    requires a_in { a < length (L.contents looks.old).trees }
    requires b_in { b < length (L.contents looks.old).trees }
    ensures { let t = tree_at (L.contents looks.old) in
        Tests L.contents L.rest looks.old looks.new result
        (red_iota (L.sight (L.rest looks.old)).basis.place place left.now (t a) (t b)) }
{
    match looks.view(a) {
        Node::App(f, e) => by_rule(looks, left, place, f, e, b),
        _ => Ok(false),
    }
}
