//! The stages of the check of a block from the larger block on, in which auxiliary types stand for nested occurrences.

ghost use Rattle.std.specs.Prelude.{◌≡◌, ◌<◌, ◌++◌, ℕ, [], length, map, All, IfOk, IfSome};
ghost use Rattle.lk_tree.specs.Tree.{param};
ghost use Rattle.lk_rulebook.specs.Place.{Block as PlainBlock};
ghost use Rattle.lk_store.specs.Contents.{Contents, name_at, tree_at, Extends, IsList, IsName};
ghost use Rattle.lk_env.specs.Scopes.{alone_members};
ghost use Rattle.lk_env.specs.Units.{block_at, type_at, recursor_at, IsTypeIn, IsRecursorIn};
ghost use Rattle.lk_inductive.specs.Block.{levels_of, AreLocals};
ghost use Rattle.lk_inductive.specs.BlockSteps.{TypeParts as PlainParts};
ghost use Rattle.lk_inductive.specs.Enlarged.{Larger as PlainLarger, setting_of, larger_block};
ghost use Rattle.lk_inductive.specs.Nested.{enlarge as enlarged, aux_indices};
ghost use Rattle.lk_inductive.proofs.NothingNested.{nothing_added};
ghost use Rattle.lk_mentions.specs.Names.{names_at};
ghost use Rattle.lk_declaration.specs.Courses.{ComesTo};
ghost use Rattle.lk_declaration.specs.Checked.{IsCheckOutcome};
ghost use Rattle.lk_auxiliary.specs.Auxiliaries.{auxs_at, IsAuxiliaryIn};
ghost use Rattle.lk_enlarge.specs.Larger.{larger_at, larger_or, IsLargerIn};
ghost use Rattle.lk_block.specs.Parts.{parts_at, lists_at, ArePartsIn, AreListsIn};
ghost use Rattle.lk_block.specs.Shapes.{shape_at, IsShapeIn};
ghost use Rattle.lk_block.specs.Stages.{shape_stage, auxiliary_stage, larger_stage};
ghost use Rattle.lk_block.specs.Wholes.{block_of};
ghost use Rattle.lk_inductive.specs.Restore.{first_name as plain_first, all_stand};
ghost use Rattle.lk_auxiliary.specs.Settings.{setting_at, IsSettingIn};
ghost use Rattle.lk_restore.specs.Originals.{originals_at, AreOriginals, AreOriginalsIn, AreStanding};
ghost use Rattle.leancheck.specs.Larger.{read_stage, IsEnlargedTo, AreReadAt};
ghost use Rattle.leancheck.specs.Standing.{StandsAt};

use lk_ask::asks::Asks;
use lk_ask::stop::Stop;
use lk_auxiliary::auxiliary::Auxiliary;
use lk_auxiliary::setting::Setting;
use lk_block::block::{level_names, own_levels};
use lk_block::check_shape;
use lk_block::shape::Shape;
use lk_block::types::TypeParts;
use lk_enlarge::larger::{Larger, enlarge};
use lk_enlarge::originals::originals_of;
use lk_enlarge::sorts::check_sorts;
use lk_env::entry::Partial;
use lk_env::unit::{Block, BlockType, Recursor};
use lk_family::Families;
use lk_mentions::names::{Names, names_of};
use lk_recursor::comparing::compare;
use lk_restore::Original;
use lk_store::memory::NoMemory;
use lk_store::node::NameNode;
use lk_store::terms::Terms;
use std::alloc::Global;

/// The stated recursors, where all members are given, and auxiliary types beside.
fn check_recursors<A: Asks>(
    alloc: Global,
    asks: &mut A,
    aux: &[BlockType],
    originals: &[Original],
    shape: &Shape,
    stated: &[Recursor],
) -> Result<(), Stop>
    requires aux_in { All (IsTypeIn (A.contents asks.old)) aux.now }
    requires shape_in { IsShapeIn (A.contents asks.old) shape.now }
    requires originals_are { AreOriginals (A.contents asks.old)
        (shape_at (A.contents asks.old) shape.now) originals.now }
    requires stated_in { All (IsRecursorIn (A.contents asks.old)) stated.now }
    ensures basis { (A.standing asks.new).basis ≡ (A.standing asks.old).basis }
    ensures outcome { IsCheckOutcome (read_stage (A.contents asks.old)
        (A.standing asks.old).table (A.places (A.standing asks.old).basis) aux.now originals.now
        shape.now stated.now (A.left asks.old)) result }
{
    asks.give_beside(Partial::Members, aux)?;
    compare(alloc, asks, originals, shape, stated)
}

/// The constructors of all types and large elimination, and then the recursors. The types are given, and auxiliary types beside.
fn check_from_shape<A: Asks>(
    alloc: Global,
    asks: &mut A,
    types: &[BlockType],
    parts: TypeParts,
    aux: &[BlockType],
    originals: &[Original],
    stated: &[Recursor],
) -> Result<(), Stop>
    requires types_in { All (IsTypeIn (A.contents asks.old)) types.now }
    requires parts_in { ArePartsIn (A.contents asks.old) parts }
    requires aux_in { All (IsTypeIn (A.contents asks.old)) aux.now }
    requires originals_are { AreReadAt (A.contents asks.old) types.now parts.parameters.items
        originals.now }
    requires stated_in { All (IsRecursorIn (A.contents asks.old)) stated.now }
    requires place { StandsAt A.places (A.standing asks.old) Partial.Types
        (alone_members (map (type_at (A.contents asks.old)) aux.now)) }
    ensures basis { (A.standing asks.new).basis ≡ (A.standing asks.old).basis }
    ensures outcome { (fuel : ℕ) (b : PlainBlock) (ts : PlainParts) (lg : PlainLarger)
        → A.left asks.old < fuel
        → IsEnlargedTo (A.contents asks.old) b ts lg types.now parts aux.now originals.now
        → IsCheckOutcome (shape_stage
        (A.standing asks.old).table (A.places (A.standing asks.old).basis) fuel b
        (map (recursor_at (A.contents asks.old)) stated.now) ts lg (A.left asks.old)) result }
{
    let shape = check_shape(alloc, asks, types, parts)?;
    check_recursors(alloc, asks, aux, originals, &shape, stated)
}

/// The stages behind the larger block, where no occurrence is nested: the block is itself the larger one.
fn check_itself<A: Asks>(
    alloc: Global,
    asks: &mut A,
    block: &Block,
    parts: TypeParts,
) -> Result<(), Stop>
    requires types_in { All (IsTypeIn (A.contents asks.old)) block.now.types.items }
    requires stated_in { All (IsRecursorIn (A.contents asks.old)) block.now.recursors.value.items }
    requires parts_in { ArePartsIn (A.contents asks.old) parts }
    requires place { StandsAt A.places (A.standing asks.old) Partial.Types [] }
    ensures basis { (A.standing asks.new).basis ≡ (A.standing asks.old).basis }
    ensures outcome { (fuel : ℕ) → A.left asks.old < fuel
        → IsCheckOutcome (auxiliary_stage
        (A.standing asks.old).table (A.places (A.standing asks.old).basis) fuel
        (block_at (A.contents asks.old) block.now)
        (map (recursor_at (A.contents asks.old)) block.now.recursors.value.items)
        (parts_at (A.contents asks.old) parts)
        (nothing_added (map (type_at (A.contents asks.old)) block.now.types.items))
        (A.left asks.old)) result }
{
    check_from_shape(alloc, asks, &block.types, parts, &[], &[], &block.recursors)
}

/// What is known of the types of the larger block: the indices of the auxiliary types come behind those of the block's own.
fn larger_parts(alloc: Global, parts: TypeParts, stand: &[Auxiliary]) -> Result<TypeParts, NoMemory>
    ensures parameters { IfOk result (λ p. p.parameters.items ≡ parts.parameters.items) }
    ensures value { IfOk result (λ p. (c : Contents) → parts_at c p
        ≡ record (parts_at c parts) {
          indices = (parts_at c parts).indices ++ aux_indices (auxs_at c stand.now);
        }) }
    ensures known { IfOk result (λ p. (c : Contents) → ArePartsIn c parts
        → All (IsAuxiliaryIn c) stand.now → ArePartsIn c p) }
{
    let TypeParts {
        parameters,
        sort,
        mut indices,
    } = parts;
    let mut rest = stand;
    'stand: while let Some((first, more)) = rest.split_first() {
        indices.push(Vec::from_slice(alloc, &first.indices)?)?;
        rest = more;
    }
    Ok(TypeParts {
        parameters,
        sort,
        indices,
    })
}

/// The own types and the auxiliary ones behind them.
fn all_types(own: Vec<BlockType>, auxiliary: Vec<BlockType>) -> Result<Vec<BlockType>, NoMemory>
    ensures { IfOk result (λ v. v.items ≡ own.items ++ auxiliary.items) }
{
    let mut types = own;
    let mut behind = auxiliary;
    types.append(&mut behind)?;
    Ok(types)
}

/// The stages behind the sorts of the auxiliary types: these are given beside the block's own types from now on.
fn check_beside<A: Asks>(
    alloc: Global,
    asks: &mut A,
    types: &[BlockType],
    parts: TypeParts,
    aux: &[BlockType],
    originals: &[Original],
    stated: &[Recursor],
) -> Result<(), Stop>
    requires types_in { All (IsTypeIn (A.contents asks.old)) types.now }
    requires parts_in { ArePartsIn (A.contents asks.old) parts }
    requires aux_in { All (IsTypeIn (A.contents asks.old)) aux.now }
    requires originals_are { AreReadAt (A.contents asks.old) types.now parts.parameters.items
        originals.now }
    requires stated_in { All (IsRecursorIn (A.contents asks.old)) stated.now }
    ensures basis { (A.standing asks.new).basis ≡ (A.standing asks.old).basis }
    ensures outcome { (fuel : ℕ) (b : PlainBlock) (ts : PlainParts) (lg : PlainLarger)
        → A.left asks.old < fuel
        → IsEnlargedTo (A.contents asks.old) b ts lg types.now parts aux.now originals.now
        → IsCheckOutcome (shape_stage
        (A.standing asks.old).table (A.places (A.standing asks.old).basis) fuel b
        (map (recursor_at (A.contents asks.old)) stated.now) ts lg (A.left asks.old)) result }
{
    asks.give_beside(Partial::Types, aux)?;
    check_from_shape(alloc, asks, types, parts, aux, originals, stated)
}

/// What the walk for nested occurrences knows of a block.
fn setting_with<'a>(
    names: &'a Names,
    own_levels: u64,
    block: &'a Block,
    parameters: &'a [u64],
) -> Setting<'a>
    ensures names { result.names.now ≡ names.now }
    ensures own_levels { result.own_levels ≡ own_levels }
    ensures parameters { result.parameters.now ≡ parameters.now }
    ensures levels { (c : Contents) → map (name_at c) result.levels.now
        ≡ levels_of (block_at c block.now) }
    ensures known { (c : Contents) → All (IsTypeIn c) block.now.types.items
        → All (λ n. n < length c.names) result.levels.now }
{
    Setting {
        names,
        levels: level_names(&block.types),
        own_levels,
        parameters,
    }
}

/// The name of the first type of a block, after which its recursors are named.
fn first_name<T: Terms>(terms: &mut T, types: &[BlockType]) -> Result<u64, NoMemory>
    requires { All (IsTypeIn (T.contents terms.old)) types.now }
    ensures keeps { Extends (T.contents terms.old) (T.contents terms.new) }
    ensures rest { T.rest terms.new ≡ T.rest terms.old }
    ensures ok { IfOk result (λ n. IsName (T.contents terms.new) n
        (plain_first (map (type_at (T.contents terms.old)) types.now))) }
{
    match types.first() {
        Some(first) => Ok(first.name),
        None => terms.make_name(NameNode::Anonymous),
    }
}

/// What constants of the larger block stand for, made between questions.
fn originals_between<A: Asks>(
    alloc: Global,
    asks: &mut A,
    block: &Block,
    setting: &Setting<'_>,
    stand: &[Auxiliary],
) -> Result<Vec<Original>, NoMemory>
    requires types_in { All (IsTypeIn (A.contents asks.old)) block.now.types.items }
    requires setting_in { IsSettingIn (A.contents asks.old) setting.now }
    requires stand_in { All (IsAuxiliaryIn (A.contents asks.old)) stand.now }
    ensures keeps { Extends (A.contents asks.old) (A.contents asks.new) }
    ensures stays { A.standing asks.new ≡ A.standing asks.old }
    ensures left { A.left asks.new ≡ A.left asks.old }
    ensures known { IfOk result (λ os. AreOriginalsIn (A.contents asks.new) os.items) }
    ensures are { IfOk result (λ os. originals_at (A.contents asks.new) os.items
        ≡ all_stand (plain_first (block_at (A.contents asks.old) block.now).types) 0
        (auxs_at (A.contents asks.old) stand.now)) }
    ensures standing { IfOk result (λ os. AreStanding (A.contents asks.new)
        (setting_at (A.contents asks.old) setting.now) os.items) }
{
    let first = first_name(asks, &block.types)?;
    originals_of(alloc, asks, setting, first, stand)
}

/// The stages behind the sorts of the auxiliary types, where there is a larger block.
fn check_with<A: Asks>(
    alloc: Global,
    asks: &mut A,
    block: &Block,
    parts: TypeParts,
    larger: Larger,
    originals: &[Original],
) -> Result<(), Stop>
    requires types_in { All (IsTypeIn (A.contents asks.old)) block.now.types.items }
    requires stated_in { All (IsRecursorIn (A.contents asks.old)) block.now.recursors.value.items }
    requires parts_in { ArePartsIn (A.contents asks.old) parts }
    requires locals { AreLocals (map (tree_at (A.contents asks.old)) parts.parameters.items) }
    requires larger_in { IsLargerIn (A.contents asks.old) larger }
    requires originals_in { AreOriginalsIn (A.contents asks.old) originals.now }
    requires standing { AreStanding (A.contents asks.old)
        (setting_of (block_at (A.contents asks.old) block.now)
        (map (tree_at (A.contents asks.old)) parts.parameters.items)) originals.now }
    requires levels { levels_of (larger_block (larger_at (A.contents asks.old) larger))
        ≡ levels_of (block_at (A.contents asks.old) block.now) }
    requires originals_are { originals_at (A.contents asks.old) originals.now
        ≡ all_stand (plain_first (block_at (A.contents asks.old) block.now).types) 0
        (auxs_at (A.contents asks.old) larger.stand.items) }
    ensures basis { (A.standing asks.new).basis ≡ (A.standing asks.old).basis }
    ensures outcome { (fuel : ℕ) → A.left asks.old < fuel
        → IsCheckOutcome (shape_stage
        (A.standing asks.old).table (A.places (A.standing asks.old).basis) fuel
        (block_at (A.contents asks.old) block.now)
        (map (recursor_at (A.contents asks.old)) block.now.recursors.value.items)
        (parts_at (A.contents asks.old) parts) (larger_at (A.contents asks.old) larger)
        (A.left asks.old)) result }
{
    let Larger {
        own,
        auxiliary,
        stand,
    } = larger;
    let parts = larger_parts(alloc, parts, &stand)?;
    let count = own.len();
    let types = all_types(own, auxiliary)?;
    let (_, aux) = types.split_at(count);
    check_beside(alloc, asks, &types, parts, aux, originals, &block.recursors)
}

/// The sorts of the auxiliary types, and then what follows.
fn check_enlarged<A: Asks>(
    alloc: Global,
    asks: &mut A,
    block: &Block,
    parts: TypeParts,
    names: &Names,
    own_levels: u64,
    larger: Larger,
) -> Result<(), Stop>
    requires types_in { All (IsTypeIn (A.contents asks.old)) block.now.types.items }
    requires stated_in { All (IsRecursorIn (A.contents asks.old)) block.now.recursors.value.items }
    requires parts_in { ArePartsIn (A.contents asks.old) parts }
    requires locals { AreLocals (map (tree_at (A.contents asks.old)) parts.parameters.items) }
    requires names_in { All (λ n. n < length (A.contents asks.old).names) names.now }
    requires own_levels_are { IsList (A.contents asks.old) own_levels
        (map param (levels_of (block_at (A.contents asks.old) block.now))) }
    requires larger_in { IsLargerIn (A.contents asks.old) larger }
    requires levels { levels_of (larger_block (larger_at (A.contents asks.old) larger))
        ≡ levels_of (block_at (A.contents asks.old) block.now) }
    requires place { StandsAt A.places (A.standing asks.old) Partial.Types [] }
    ensures basis { (A.standing asks.new).basis ≡ (A.standing asks.old).basis }
    ensures outcome { (fuel : ℕ) → A.left asks.old < fuel
        → IsCheckOutcome (auxiliary_stage
        (A.standing asks.old).table (A.places (A.standing asks.old).basis) fuel
        (block_at (A.contents asks.old) block.now)
        (map (recursor_at (A.contents asks.old)) block.now.recursors.value.items)
        (parts_at (A.contents asks.old) parts) (larger_at (A.contents asks.old) larger)
        (A.left asks.old)) result }
{
    check_sorts(alloc, asks, parts.sort, &larger.stand)?;
    let setting = setting_with(names, own_levels, block, &parts.parameters);
    let originals = originals_between(alloc, asks, block, &setting, &larger.stand)?;
    check_with(alloc, asks, block, parts, larger, &originals)
}

/// The larger block; none where no occurrence is nested.
fn find_larger<F: Families>(
    alloc: Global,
    asks: &mut F,
    block: &Block,
    parameters: &[u64],
    names: &Names,
    own_levels: u64,
) -> Result<Option<Larger>, Stop>
    requires types_in { All (IsTypeIn (F.contents asks.old)) block.now.types.items }
    requires parameters_in { All (λ x. x < length (F.contents asks.old).trees) parameters.now }
    requires names_are { names.now ≡ map (λ t. t.name) block.now.types.items }
    requires own_levels_are { IsList (F.contents asks.old) own_levels
        (map param (levels_of (block_at (F.contents asks.old) block.now))) }
    ensures keeps { Extends (F.contents asks.old) (F.contents asks.new) }
    ensures stays { F.standing asks.new ≡ F.standing asks.old }
    ensures left { F.left asks.new ≡ F.left asks.old }
    ensures known { IfOk result (λ o. IfSome o (IsLargerIn (F.contents asks.new))) }
    ensures levels { IfOk result (λ o. IfSome o
        (λ l. levels_of (larger_block (larger_at (F.contents asks.new) l))
        ≡ levels_of (block_at (F.contents asks.old) block.now))) }
    ensures outcome { ComesTo (F.standing asks.old)
        (enlarged (setting_of (block_at (F.contents asks.old) block.now)
        (map (tree_at (F.contents asks.old)) parameters.now))
        (map (type_at (F.contents asks.old)) block.now.types.items)) (F.left asks.old)
        (larger_or (F.contents asks.new)
        (map (type_at (F.contents asks.old)) block.now.types.items)) (F.left asks.old) result }
{
    let setting = setting_with(names, own_levels, block, parameters);
    enlarge(alloc, asks, &setting, &block.types)
}

/// The larger block, and then what follows. The types are given.
fn check_with_levels<F: Families>(
    alloc: Global,
    asks: &mut F,
    block: &Block,
    parts: TypeParts,
    names: &Names,
    own_levels: u64,
) -> Result<(), Stop>
    requires types_in { All (IsTypeIn (F.contents asks.old)) block.now.types.items }
    requires stated_in { All (IsRecursorIn (F.contents asks.old)) block.now.recursors.value.items }
    requires parts_in { ArePartsIn (F.contents asks.old) parts }
    requires locals { AreLocals (map (tree_at (F.contents asks.old)) parts.parameters.items) }
    requires names_are { names.now ≡ map (λ t. t.name) block.now.types.items }
    requires own_levels_are { IsList (F.contents asks.old) own_levels
        (map param (levels_of (block_at (F.contents asks.old) block.now))) }
    requires place { StandsAt F.places (F.standing asks.old) Partial.Types [] }
    ensures basis { (F.standing asks.new).basis ≡ (F.standing asks.old).basis }
    ensures outcome { (fuel : ℕ) → F.left asks.old < fuel
        → IsCheckOutcome (larger_stage
        (F.standing asks.old).table (F.places (F.standing asks.old).basis) fuel
        (block_at (F.contents asks.old) block.now)
        (map (recursor_at (F.contents asks.old)) block.now.recursors.value.items)
        (parts_at (F.contents asks.old) parts) (F.left asks.old)) result }
{
    match find_larger(alloc, asks, block, &parts.parameters, names, own_levels)? {
        None => check_itself(alloc, asks, block, parts),
        Some(larger) => check_enlarged(alloc, asks, block, parts, names, own_levels, larger),
    }
}

/// The larger block, and then its constructors and all that follows. The types are given.
pub fn check_from_larger<F: Families>(
    alloc: Global,
    asks: &mut F,
    block: &Block,
    parts: TypeParts,
) -> Result<(), Stop>
    requires types_in { All (IsTypeIn (F.contents asks.old)) block.now.types.items }
    requires stated_in { All (IsRecursorIn (F.contents asks.old)) block.now.recursors.value.items }
    requires parts_in { ArePartsIn (F.contents asks.old) parts }
    requires locals { AreLocals (map (tree_at (F.contents asks.old)) parts.parameters.items) }
    requires place { StandsAt F.places (F.standing asks.old) Partial.Types [] }
    ensures basis { (F.standing asks.new).basis ≡ (F.standing asks.old).basis }
    ensures outcome { (fuel : ℕ) → F.left asks.old < fuel
        → IsCheckOutcome (larger_stage
        (F.standing asks.old).table (F.places (F.standing asks.old).basis) fuel
        (block_at (F.contents asks.old) block.now)
        (map (recursor_at (F.contents asks.old)) block.now.recursors.value.items)
        (parts_at (F.contents asks.old) parts) (F.left asks.old)) result }
{
    let names = names_of(alloc, &block.types)?;
    let levels = own_levels(asks, &block.types)?;
    check_with_levels(alloc, asks, block, parts, &names, levels)
}
