//! Whether `Nat` and `String` have their shapes.

ghost use Rattle.std.specs.Prelude.{◌≡◌, ◌<◌, ℕ, true, Option, Some, IfSome, length, map, option_map, All};
ghost use Rattle.lk_tree.specs.Tree.{zero_level, succ_level};
ghost use Rattle.lk_tree.specs.LevelTest.{level_test};
ghost use Rattle.lk_tree.specs.declared.rule.Rule.TheVariants.{BuiltinShape};
ghost use Rattle.lk_rulebook.specs.Place.{Place, Entry as PlainEntry};
ghost use Rattle.lk_questions.specs.Program.{done};
ghost use Rattle.lk_questions.specs.Settled.{settle};
ghost use Rattle.lk_questions.specs.Levels.{tested};
ghost use Rattle.lk_questions.specs.Steps.{given};
ghost use Rattle.lk_questions.specs.Shapes.{is_sort_one, are_nat_ctors, nat_shape_by, nat_shape};
ghost use Rattle.lk_questions.specs.Shapes.{has_string_shape, string_shape};
ghost use Rattle.lk_store.specs.Contents.{level_at, tree_at, Extends};
ghost use Rattle.lk_store.specs.Store.{contents_of};
ghost use Rattle.lk_env.specs.Entries.{IsEntryIn};
ghost use Rattle.lk_env.specs.Units.{block_at, type_at, constructor_at, IsConstructorIn};
ghost use Rattle.lk_env.specs.Lent.{type_in, IsBlockTypeIn};
ghost use Rattle.lk_ask.specs.Looks.{entry_at, IsOver};
ghost use Rattle.lk_ask.specs.Settles.{settled_as, Settles};
ghost use Rattle.lk_lit.specs.Shapes.{is_alone, has_nat_counts, AreTwo, has_nat_ctors, string_shape_by};

use crate::builtin::{Builtin, is_builtin};
use crate::constant::{is_named, is_nat_to_nat};
use crate::given::look_builtin;
use lk_ask::looks::Looks;
use lk_env::entry::Entry;
use lk_env::lent::{levels_of, type_of};
use lk_env::unit::{Block, BlockType, Constructor};
use lk_level_order::compared::{LevelError, equal};
use lk_store::memory::NoMemory;
use lk_store::node::{LevelNode, Node};
use lk_store::terms::Terms;
use lk_tree::rule::Rule;

/// Whether a level is spelled as the successor of 0.
fn is_spelled_one<T: Terms>(terms: &T, level: u64) -> bool
    requires { level < length (T.contents terms.now).levels }
    ensures { result ≡ true → level_at (T.contents terms.now) level ≡ succ_level zero_level }
{
    match terms.level(level) {
        LevelNode::Succ(below) => match terms.level(below) {
            LevelNode::Zero => true,
            _ => false,
        },
        _ => false,
    }
}

/// Whether a level is 1, by value.
fn is_one<L: Looks>(looks: &mut L, level: u64) -> Result<Result<bool, Rule>, NoMemory>
    requires { level < length (L.contents looks.old).levels }
    ensures { Settles L.contents L.rest L.sight looks.old looks.new result (λ _ b. b)
        (λ c. tested (level_test (level_at c level) (succ_level zero_level))) }
{
    if is_spelled_one(looks, level) {
        return Ok(Ok(true));
    }
    let zero = looks.make_level(LevelNode::Zero)?;
    let one = looks.make_level(LevelNode::Succ(zero))?;
    match equal(looks.alloc(), looks, level, one) {
        Ok(equal) => Ok(Ok(equal)),
        Err(LevelError::Width) => Ok(Err(Rule::LevelWidth)),
        Err(LevelError::NoMemory) => Err(NoMemory),
    }
}

/// Whether a term is `Sort 1`, by value.
fn is_sort_one<L: Looks>(looks: &mut L, e: u64) -> Result<Result<bool, Rule>, NoMemory>
    requires { e < length (L.contents looks.old).trees }
    ensures { Settles L.contents L.rest L.sight looks.old looks.new result (λ _ b. b)
        (λ c. is_sort_one (tree_at c e)) }
{
    match looks.view(e) {
        Node::Sort(level) => is_one(looks, level),
        _ => Ok(Ok(false)),
    }
}

/// The type of a block that an entry is, with its block, where it is one.
pub(crate) fn inductive<L: Looks>(looks: &L, entry: Entry) -> Option<(&Block, &BlockType)>
    ensures value { let b = contents_of (L.sight (L.rest looks.now)).basis.library.tables in
        (g : PlainEntry) → entry_at (L.sight (L.rest looks.now)).basis entry ≡ Some g
        → type_in g.kind ≡ option_map (λ p. (block_at b p.0.now, type_at b p.1.now)) result }
    ensures known { let b = contents_of (L.sight (L.rest looks.now)).basis.library.tables in
        IfSome result (λ p. IsBlockTypeIn b p.0.now p.1.now) }
    ensures over { IsOver L.contents L.rest L.sight looks.now }
{
    type_of(looks.scope(), entry)
}

/// How many level parameters an entry has.
fn count_levels<L: Looks>(looks: &L, entry: Entry) -> usize
    ensures { (g : PlainEntry) → entry_at (L.sight (L.rest looks.now)).basis entry ≡ Some g
        → result ≡ length g.levels }
{
    levels_of(looks.scope(), entry).len()
}

/// Whether an entry is a type that stands alone in its block, and has no level parameters.
fn is_alone<L: Looks>(looks: &L, entry: Entry) -> bool
    ensures { (g : PlainEntry) → entry_at (L.sight (L.rest looks.now)).basis entry ≡ Some g
        → result ≡ is_alone (length g.levels) (type_in g.kind) }
{
    match inductive(looks, entry) {
        Some((block, _)) => block.types.len() == 1 && count_levels(looks, entry) == 0,
        None => false,
    }
}

/// The same, and it has no parameters and no indices.
fn has_nat_counts<L: Looks>(looks: &L, entry: Entry) -> bool
    ensures { (g : PlainEntry) → entry_at (L.sight (L.rest looks.now)).basis entry ≡ Some g
        → result ≡ has_nat_counts (length g.levels) (type_in g.kind) }
{
    match inductive(looks, entry) {
        Some((_, ty)) => is_alone(looks, entry) && ty.parameters == 0 && ty.indices == 0,
        None => false,
    }
}

/// The constructors, where they are two.
fn two(constructors: &[Constructor]) -> Option<(&Constructor, &Constructor)>
    ensures { AreTwo constructors.now (option_map (λ p. (p.0.now, p.1.now)) result) }
{
    match constructors {
        [first, second] => Some((first, second)),
        _ => None,
    }
}

/// Whether the constructors are `Nat.zero : Nat` and `Nat.succ : Nat -> Nat`.
fn are_nat_ctors<L: Looks>(looks: &L, constructors: &[Constructor]) -> bool
    requires over { IsOver L.contents L.rest L.sight looks.now }
    requires known { let b = contents_of (L.sight (L.rest looks.now)).basis.library.tables in
        All (IsConstructorIn b) constructors.now }
    ensures { let b = contents_of (L.sight (L.rest looks.now)).basis.library.tables in
        result ≡ are_nat_ctors (map (constructor_at b) constructors.now) }
{
    match two(constructors) {
        Some((zero, succ)) => {
            (is_builtin(looks, zero.name, Builtin::NatZero)
                && is_named(looks, zero.ty, Builtin::Nat))
                && (is_builtin(looks, succ.name, Builtin::NatSucc) && is_nat_to_nat(looks, succ.ty))
        }
        None => false,
    }
}

/// Whether an entry is a type with these constructors.
fn has_nat_ctors<L: Looks>(looks: &L, entry: Entry) -> bool
    ensures { (g : PlainEntry) → entry_at (L.sight (L.rest looks.now)).basis entry ≡ Some g
        → result ≡ has_nat_ctors (type_in g.kind) }
{
    match inductive(looks, entry) {
        Some((_, ty)) => are_nat_ctors(looks, &ty.constructors),
        None => false,
    }
}

/// A shape is refused where this does not hold.
fn required(holds: bool) -> Result<(), Rule>
    ensures { (w : Place) (last : Option ℕ)
        → settle w last (given holds BuiltinShape (done (tt {0})))
        ≡ settled_as (λ _. tt {0}) last result }
{
    if holds {
        Ok(())
    } else {
        Err(Rule::BuiltinShape)
    }
}

/// Whether the entry of `Nat` has its shape.
fn nat_shape_by<L: Looks>(looks: &mut L, entry: Entry) -> Result<Result<(), Rule>, NoMemory>
    requires over { IsOver L.contents L.rest L.sight looks.old }
    requires known { let b = contents_of (L.sight (L.rest looks.old)).basis.library.tables in
        IsEntryIn b entry }
    ensures { (g : PlainEntry) → entry_at (L.sight (L.rest looks.old)).basis entry ≡ Some g
        → Settles L.contents L.rest L.sight looks.old looks.new result (λ _ _. tt)
        (λ _. nat_shape_by g g.kind) }
{
    if !has_nat_counts(looks, entry) {
        return Ok(Err(Rule::BuiltinShape));
    }
    let has_ctors = has_nat_ctors(looks, entry);
    match is_sort_one(looks, entry.stated)? {
        Ok(one) => {
            let fits = one && has_ctors;
            Ok(required(fits))
        }
        Err(rule) => Ok(Err(rule)),
    }
}

/// `Nat` must have its shape.
pub fn nat_shape<L: Looks>(looks: &mut L) -> Result<Result<(), Rule>, NoMemory>
    ensures { Settles L.contents L.rest L.sight looks.old looks.new result (λ _ _. tt)
        (λ _. nat_shape) }
{
    match look_builtin(looks, Builtin::Nat)? {
        Ok(nat) => nat_shape_by(looks, nat.entry),
        Err(rule) => Ok(Err(rule)),
    }
}

/// Whether an entry has the shape of `String`.
pub(crate) fn has_string_shape<L: Looks>(
    looks: &mut L,
    entry: Entry,
) -> Result<Result<bool, Rule>, NoMemory>
    requires over { IsOver L.contents L.rest L.sight looks.old }
    requires known { let b = contents_of (L.sight (L.rest looks.old)).basis.library.tables in
        IsEntryIn b entry }
    ensures keeps { Extends (L.contents looks.old) (L.contents looks.new) }
    ensures settles { (g : PlainEntry)
        → entry_at (L.sight (L.rest looks.old)).basis entry ≡ Some g
        → Settles L.contents L.rest L.sight looks.old looks.new result (λ _ b. b)
        (λ _. has_string_shape g g.kind) }
{
    if is_alone(looks, entry) {
        is_sort_one(looks, entry.stated)
    } else {
        Ok(Ok(false))
    }
}

/// Whether the entry of `String` has its shape.
fn string_shape_by<L: Looks>(looks: &mut L, entry: Entry) -> Result<Result<(), Rule>, NoMemory>
    requires over { IsOver L.contents L.rest L.sight looks.old }
    requires known { let b = contents_of (L.sight (L.rest looks.old)).basis.library.tables in
        IsEntryIn b entry }
    ensures { (g : PlainEntry) → entry_at (L.sight (L.rest looks.old)).basis entry ≡ Some g
        → Settles L.contents L.rest L.sight looks.old looks.new result (λ _ _. tt)
        (λ _. string_shape_by g) }
{
    match has_string_shape(looks, entry)? {
        Ok(has) => Ok(required(has)),
        Err(rule) => Ok(Err(rule)),
    }
}

/// `String` must have its shape.
pub fn string_shape<L: Looks>(looks: &mut L) -> Result<Result<(), Rule>, NoMemory>
    ensures { Settles L.contents L.rest L.sight looks.old looks.new result (λ _ _. tt)
        (λ _. string_shape) }
{
    match look_builtin(looks, Builtin::String)? {
        Ok(string) => string_shape_by(looks, string.entry),
        Err(rule) => Ok(Err(rule)),
    }
}
