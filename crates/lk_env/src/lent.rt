//! What an entry has, lent by who lends its unit.

ghost use Rattle.std.specs.Prelude.{◌≡◌, ◌<◌, length, map, All, IfSome, Some, option_map};
ghost use Rattle.lk_tree.specs.Tree.{Tree};
ghost use Rattle.lk_rulebook.specs.Place.{Entry as PlainEntry};
ghost use Rattle.lk_store.specs.Contents.{Contents, name_at};
ghost use Rattle.lk_store.specs.Store.{contents_of};
ghost use Rattle.lk_env.specs.Units.{type_at, block_at, constructor_at};
ghost use Rattle.lk_env.specs.Units.{IsUnitIn, AreUnitsIn, IsTypeIn, IsConstructorIn, IsRecursorIn, IsRuleIn};
ghost use Rattle.lk_env.specs.Entries.{library_entry};
ghost use Rattle.lk_env.specs.Lent.{recursor_in, constructor_in, member_in, type_in, parameters_in};
ghost use Rattle.lk_env.specs.Lent.{given_recursor, member_at, HasRecursor, HasMember, HasType, IsMemberIn, IsBlockTypeIn};

use crate::entry::{Entry, Kind};
use crate::lends::Lends;
use crate::parameters::parameters_in;
use crate::unit::{Block, BlockType, Constructor, Recursor, RecursorRule, Unit};

fn block_recursor(block: &Block, kind: Kind) -> Option<(&Recursor, &[RecursorRule])>
    ensures value { (c : Contents) (T : Tree)
        → HasRecursor c (Unit.Block block.now) kind T
        (option_map (λ p. given_recursor c p.0.now p.1.now) result) }
    ensures known { (c : Contents) → IsUnitIn c (Unit.Block block.now)
        → IfSome result (λ p. IsRecursorIn c p.0.now × All (IsRuleIn c) p.1.now) }
{
    match kind {
        Kind::Recursor(i) => match block.recursors.get(i) {
            Some(r) => Some((r, r.rules.as_slice())),
            None => None,
        },
        Kind::BareRecursor(i) => match block.recursors.get(i) {
            Some(r) => Some((r, &[])),
            None => None,
        },
        Kind::Declared(_) | Kind::Type(_) | Kind::Constructor { .. } => None,
    }
}

fn unit_recursor(unit: &Unit, kind: Kind) -> Option<(&Recursor, &[RecursorRule])>
    ensures value { (c : Contents) (T : Tree)
        → HasRecursor c unit.now kind T (option_map
        (λ p. given_recursor c p.0.now p.1.now) result) }
    ensures known { (c : Contents) → IsUnitIn c unit.now
        → IfSome result (λ p. IsRecursorIn c p.0.now × All (IsRuleIn c) p.1.now) }
{
    match unit {
        Unit::Declaration(_) => None,
        Unit::Block(block) => block_recursor(block, kind),
    }
}

/// The recursor of an entry, where it is one, with the rules that are given: none while it is partial. It takes no memory.
pub fn recursor_of<L: Lends>(library: &L, entry: Entry) -> Option<(&Recursor, &[RecursorRule])>
    ensures value { (g : PlainEntry) → library_entry (L.lent library.now) entry ≡ Some g
        → recursor_in g.kind ≡ option_map
        (λ p. given_recursor (contents_of (L.lent library.now).tables) p.0.now p.1.now) result }
    ensures known { IfSome result (λ p. IsRecursorIn (contents_of
        (L.lent library.now).tables) p.0.now
        × All (IsRuleIn (contents_of (L.lent library.now).tables)) p.1.now) }
{
    match library.unit(entry.unit) {
        Some(unit) => unit_recursor(unit, entry.kind),
        None => None,
    }
}

fn block_member(block: &Block, kind: Kind) -> Option<(&Block, &BlockType, &Constructor)>
    ensures value { (c : Contents) (T : Tree)
        → HasMember c (Unit.Block block.now) kind T
        (option_map (λ p. member_at c p.0.now p.1.now p.2.now) result) }
    ensures known { (c : Contents) → IsUnitIn c (Unit.Block block.now)
        → IfSome result (λ p. IsMemberIn c p.0.now p.1.now p.2.now) }
{
    match kind {
        Kind::Constructor { parent, number } => match block.types.get(parent) {
            Some(t) => match t.constructors.get(number) {
                Some(k) => Some((block, t, k)),
                None => None,
            },
            None => None,
        },
        Kind::Declared(_) | Kind::Type(_) | Kind::Recursor(_) | Kind::BareRecursor(_) => None,
    }
}

fn unit_member(unit: &Unit, kind: Kind) -> Option<(&Block, &BlockType, &Constructor)>
    ensures value { (c : Contents) (T : Tree) → HasMember c unit.now kind T
        (option_map (λ p. member_at c p.0.now p.1.now p.2.now) result) }
    ensures known { (c : Contents) → IsUnitIn c unit.now
        → IfSome result (λ p. IsMemberIn c p.0.now p.1.now p.2.now) }
{
    match unit {
        Unit::Declaration(_) => None,
        Unit::Block(block) => block_member(block, kind),
    }
}

/// The constructor of an entry, with its block and its type, where it is one. It takes no memory.
pub fn member_of<L: Lends>(library: &L, entry: Entry) -> Option<(&Block, &BlockType, &Constructor)>
    ensures value { (g : PlainEntry) → library_entry (L.lent library.now) entry ≡ Some g
        → member_in g.kind ≡ option_map
        (λ p. member_at (contents_of (L.lent library.now).tables) p.0.now p.1.now p.2.now) result }
    ensures known { IfSome result
        (λ p. IsMemberIn (contents_of (L.lent library.now).tables) p.0.now p.1.now p.2.now) }
{
    match library.unit(entry.unit) {
        Some(unit) => unit_member(unit, entry.kind),
        None => None,
    }
}

/// The constructor of an entry, with its type, where it is one. It takes no memory.
pub fn constructor_of<L: Lends>(library: &L, entry: Entry) -> Option<(&BlockType, &Constructor)>
    ensures value { (g : PlainEntry) → library_entry (L.lent library.now) entry ≡ Some g
        → constructor_in g.kind ≡ option_map
        (λ p. (
          type_at (contents_of (L.lent library.now).tables) p.0.now,
          constructor_at
              (contents_of (L.lent library.now).tables) p.1.now,
        )) result }
    ensures known { IfSome result (λ p. IsTypeIn (contents_of (L.lent library.now).tables) p.0.now
        × IsConstructorIn (contents_of (L.lent library.now).tables) p.1.now) }
{
    match member_of(library, entry) {
        Some((_, ty, constructor)) => Some((ty, constructor)),
        None => None,
    }
}

fn block_type(block: &Block, kind: Kind) -> Option<(&Block, &BlockType)>
    ensures value { (c : Contents) (T : Tree) → HasType c (Unit.Block block.now) kind T
        (option_map (λ p. (block_at c p.0.now, type_at c p.1.now)) result) }
    ensures known { (c : Contents) → IsUnitIn c (Unit.Block block.now)
        → IfSome result (λ p. IsBlockTypeIn c p.0.now p.1.now) }
{
    match kind {
        Kind::Type(i) => match block.types.get(i) {
            Some(t) => Some((block, t)),
            None => None,
        },
        Kind::Declared(_) | Kind::Constructor { .. } | Kind::Recursor(_) | Kind::BareRecursor(_) =>
            None,
    }
}

fn unit_type(unit: &Unit, kind: Kind) -> Option<(&Block, &BlockType)>
    ensures value { (c : Contents) (T : Tree) → HasType c unit.now kind T
        (option_map (λ p. (block_at c p.0.now, type_at c p.1.now)) result) }
    ensures known { (c : Contents) → IsUnitIn c unit.now
        → IfSome result (λ p. IsBlockTypeIn c p.0.now p.1.now) }
{
    match unit {
        Unit::Declaration(_) => None,
        Unit::Block(block) => block_type(block, kind),
    }
}

/// The type of a block that an entry is, with its block, where it is one. It takes no memory.
pub fn type_of<L: Lends>(library: &L, entry: Entry) -> Option<(&Block, &BlockType)>
    ensures value { (g : PlainEntry) → library_entry (L.lent library.now) entry ≡ Some g
        → type_in g.kind ≡ option_map (λ p. (
          block_at (contents_of (L.lent library.now).tables) p.0.now,
          type_at (contents_of (L.lent library.now).tables) p.1.now,
        )) result }
    ensures known { IfSome result
        (λ p. IsBlockTypeIn (contents_of (L.lent library.now).tables) p.0.now p.1.now) }
{
    match library.unit(entry.unit) {
        Some(unit) => unit_type(unit, entry.kind),
        None => None,
    }
}

/// The number of parameters of an entry that is a type of a block. It takes no memory.
pub fn parameter_count<L: Lends>(library: &L, entry: Entry) -> Option<u64>
    ensures { (g : PlainEntry) → library_entry (L.lent library.now) entry ≡ Some g
        → result ≡ parameters_in g.kind }
{
    match type_of(library, entry) {
        Some((_, ty)) => Some(ty.parameters),
        None => None,
    }
}

/// The level parameters of an entry, by the numbers of their names. It takes no memory.
pub fn levels_of<L: Lends>(library: &L, entry: Entry) -> &[u64]
    ensures value { (g : PlainEntry) → library_entry (L.lent library.now) entry ≡ Some g
        → g.levels ≡ map (name_at (contents_of (L.lent library.now).tables)) result.now }
    ensures known { All (λ n. n < length (contents_of
        (L.lent library.now).tables).names) result.now }
{
    match library.unit(entry.unit) {
        Some(unit) => parameters_in(unit, entry.kind),
        None => &[],
    }
}
