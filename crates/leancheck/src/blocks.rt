//! The whole check of a block of inductive types, stage by stage, while its own members come to be given.

ghost use Rattle.std.specs.Prelude.{◌≡◌, ◌<◌, ℕ, suc, [], map, All};
ghost use Rattle.lk_env.specs.Units.{block_at, type_at, recursor_at, IsTypeIn, IsRecursorIn};
ghost use Rattle.lk_inductive.specs.Block.{parameters_of as stated_parameters, AreLocals};
ghost use Rattle.lk_store.specs.Contents.{Contents, tree_at};
ghost use Rattle.lk_block.specs.Parts.{parts_at, ArePartsIn};
ghost use Rattle.lk_declaration.specs.Checked.{IsCheckOutcome};
ghost use Rattle.leancheck.specs.Standing.{StandsAt};
ghost use Rattle.lk_block.specs.Stages.{sorts_stage, types_stage, block_stages};

use crate::larger::check_from_larger;
use lk_ask::stop::Stop;
use lk_block::counts::counts_agree;
use lk_block::sorts::check_sorts;
use lk_block::types::{TypeParts, check_types};
use lk_env::entry::Partial;
use lk_env::unit::{Block, BlockType};
use lk_family::Families;
use lk_tree::rule::Rule;
use std::alloc::Global;

/// The sorts of the constructors' types, and then what follows. The types are given.
fn check_from_sorts<A: Families>(
    alloc: Global,
    asks: &mut A,
    block: &Block,
    parts: TypeParts,
) -> Result<(), Stop>
    requires types_in { All (IsTypeIn (A.contents asks.old)) block.now.types.items }
    requires stated_in { All (IsRecursorIn (A.contents asks.old)) block.now.recursors.value.items }
    requires parts_in { ArePartsIn (A.contents asks.old) parts }
    requires locals { AreLocals (map (tree_at (A.contents asks.old)) parts.parameters.items) }
    requires place { StandsAt A.places (A.standing asks.old) Partial.Types [] }
    ensures basis { (A.standing asks.new).basis ≡ (A.standing asks.old).basis }
    ensures outcome { (fuel : ℕ) → A.left asks.old < fuel
        → IsCheckOutcome (sorts_stage
        (A.standing asks.old).table (A.places (A.standing asks.old).basis) fuel
        (block_at (A.contents asks.old) block.now)
        (map (recursor_at (A.contents asks.old)) block.now.recursors.value.items)
        (parts_at (A.contents asks.old) parts) (A.left asks.old)) result }
{
    check_sorts(asks, &block.types)?;
    check_from_larger(alloc, asks, block, parts)
}

/// Gives the types, and then makes all the checks that follow theirs.
fn give_types<A: Families>(
    alloc: Global,
    asks: &mut A,
    block: &Block,
    parts: TypeParts,
) -> Result<(), Stop>
    requires types_in { All (IsTypeIn (A.contents asks.old)) block.now.types.items }
    requires stated_in { All (IsRecursorIn (A.contents asks.old)) block.now.recursors.value.items }
    requires parts_in { ArePartsIn (A.contents asks.old) parts }
    requires locals { AreLocals (map (tree_at (A.contents asks.old)) parts.parameters.items) }
    ensures basis { (A.standing asks.new).basis ≡ (A.standing asks.old).basis }
    ensures outcome { (fuel : ℕ) → A.left asks.old < fuel
        → IsCheckOutcome (sorts_stage
        (A.standing asks.old).table (A.places (A.standing asks.old).basis) fuel
        (block_at (A.contents asks.old) block.now)
        (map (recursor_at (A.contents asks.old)) block.now.recursors.value.items)
        (parts_at (A.contents asks.old) parts) (A.left asks.old)) result }
{
    asks.give(Partial::Types);
    check_from_sorts(alloc, asks, block, parts)
}

/// The number of parameters that the first type of a block states.
fn stated_parameters(types: &[BlockType]) -> u64
    ensures { (c : Contents) → result ≡ stated_parameters
        (record { types = map (type_at c) types.now }) }
{
    match types.first() {
        Some(first) => first.parameters,
        None => 0,
    }
}

/// The types, and then all that follows.
fn check_from_types<A: Families>(alloc: Global, asks: &mut A, block: &Block) -> Result<(), Stop>
    requires types_in { All (IsTypeIn (A.contents asks.old)) block.now.types.items }
    requires stated_in { All (IsRecursorIn (A.contents asks.old)) block.now.recursors.value.items }
    requires place { StandsAt A.places (A.standing asks.old) Partial.Nothing [] }
    ensures basis { (A.standing asks.new).basis ≡ (A.standing asks.old).basis }
    ensures outcome { (fuel : ℕ) → A.left asks.old < fuel
        → IsCheckOutcome (types_stage
        (A.standing asks.old).table (A.places (A.standing asks.old).basis) fuel
        (block_at (A.contents asks.old) block.now)
        (map (recursor_at (A.contents asks.old)) block.now.recursors.value.items)
        (A.left asks.old)) result }
{
    let parameters = stated_parameters(&block.types);
    let parts = check_types(alloc, asks, parameters, &block.types)?;
    give_types(alloc, asks, block, parts)
}

/// The whole check of a block of inductive types, under what is left. In its order: the counts that its members state; the
/// types; from then on they are given; the sorts of the constructors' types; the larger block, in which auxiliary types stand for
/// nested occurrences, and from then on these are given beside; its constructors and large elimination; from then on all members
/// are given; the stated recursors against those of the larger block, read back.
pub fn check_block<A: Families>(alloc: Global, asks: &mut A, block: &Block) -> Result<(), Stop>
    requires types_in { All (IsTypeIn (A.contents asks.old)) block.now.types.items }
    requires stated_in { All (IsRecursorIn (A.contents asks.old)) block.now.recursors.value.items }
    requires place { StandsAt A.places (A.standing asks.old) Partial.Nothing [] }
    ensures basis { (A.standing asks.new).basis ≡ (A.standing asks.old).basis }
    ensures outcome { IsCheckOutcome (block_stages
        (A.standing asks.old).table (A.places (A.standing asks.old).basis)
        (suc (A.left asks.old)) (block_at (A.contents asks.old) block.now)
        (map (recursor_at (A.contents asks.old)) block.now.recursors.value.items)
        (A.left asks.old)) result }
{
    if counts_agree(asks, block) {
        check_from_types(alloc, asks, block)
    } else {
        Err(Stop::No(Rule::BlockShape))
    }
}
