//! The level parameters of a unit's member.

ghost use Rattle.std.specs.Prelude.{ℕ, ◌<◌, length, All};
ghost use Rattle.lk_tree.specs.Tree.{Tree};
ghost use Rattle.lk_store.specs.Contents.{Contents};
ghost use Rattle.lk_env.specs.Units.{IsUnitIn};
ghost use Rattle.lk_env.specs.Entries.{HasLevels};

use crate::entry::Kind;
use crate::unit::{Block, Unit};

fn block_parameters(block: &Block, kind: Kind) -> &[u64]
    ensures levels { (c : Contents) (T : Tree)
        → HasLevels c (Unit.Block block.now) kind T result.now }
    ensures known { (c : Contents) → IsUnitIn c (Unit.Block block.now)
        → All (λ n. n < length c.names) result.now }
{
    match kind {
        Kind::Declared(_) => &[],
        Kind::Type(i) => match block.types.get(i) {
            Some(t) => &t.levels,
            None => &[],
        },
        Kind::Constructor { parent, number } => match block.types.get(parent) {
            Some(t) => match t.constructors.get(number) {
                Some(k) => &k.levels,
                None => &[],
            },
            None => &[],
        },
        Kind::Recursor(i) | Kind::BareRecursor(i) => match block.recursors.get(i) {
            Some(r) => &r.levels,
            None => &[],
        },
    }
}

/// The level parameters of the member that a kind says of a unit.
pub(crate) fn parameters_in(unit: &Unit, kind: Kind) -> &[u64]
    ensures levels { (c : Contents) (T : Tree) → HasLevels c unit.now kind T result.now }
    ensures known { (c : Contents) → IsUnitIn c unit.now
        → All (λ n. n < length c.names) result.now }
{
    match unit {
        Unit::Declaration(declaration) => &declaration.levels,
        Unit::Block(block) => block_parameters(block, kind),
    }
}
