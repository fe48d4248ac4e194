//! What is made of a block's recursors between questions. That costs nothing of the budget.

ghost use Rattle.std.specs.Prelude.{◌≡◌, ◌<◌, length, map, All, IfOk};
ghost use Rattle.lk_tree.specs.Tree.{param};
ghost use Rattle.lk_store.specs.Contents.{name_at, level_at, Extends, IsTree};
ghost use Rattle.lk_block.specs.Shapes.{shape_at, IsShapeIn, IsConstructorShapeIn};
ghost use Rattle.lk_restore.specs.Originals.{AreOriginals};
ghost use Rattle.lk_recursor.specs.Fronts.{IsFront, read_by};
ghost use Rattle.lk_recursor.specs.Comparisons.{AreNames, renamed_type, renamed_value, IsComparison};

use crate::front::{Front, front_of};
use crate::own::{Comparison, names_of};
use crate::renaming::{levels_of, renamed_rule, renamed_type};
use lk_ask::asks::Asks;
use lk_block::shape::{ConstructorShape, Shape};
use lk_restore::Original;
use lk_store::memory::NoMemory;
use std::alloc::Global;

/// What all recursors of a block share, made between questions.
pub(crate) fn front_between<'a, A: Asks>(
    alloc: Global,
    asks: &mut A,
    shape: &Shape,
    originals: &'a [Original],
) -> Result<Front<'a>, NoMemory>
    requires shape_in { IsShapeIn (A.contents asks.old) shape.now }
    requires originals_are { AreOriginals (A.contents asks.old)
        (shape_at (A.contents asks.old) shape.now) originals.now }
    ensures keeps { Extends (A.contents asks.old) (A.contents asks.new) }
    ensures stays { A.standing asks.new ≡ A.standing asks.old }
    ensures left { A.left asks.new ≡ A.left asks.old }
    ensures originals { IfOk result (λ f. f.originals.now ≡ originals.now) }
    ensures ok { IfOk result (IsFront (A.contents asks.new) shape.now) }
{
    front_of(alloc, asks, shape, originals)
}

/// The names of the recursors of a block's types, read back, made between questions.
pub(crate) fn names_between<A: Asks>(
    alloc: Global,
    asks: &mut A,
    shape: &Shape,
    front: &Front,
) -> Result<Vec<u64>, NoMemory>
    requires shape_in { IsShapeIn (A.contents asks.old) shape.now }
    requires front_is { IsFront (A.contents asks.old) shape.now front.now }
    ensures keeps { Extends (A.contents asks.old) (A.contents asks.new) }
    ensures stays { A.standing asks.new ≡ A.standing asks.old }
    ensures left { A.left asks.new ≡ A.left asks.old }
    ensures ok { IfOk result (λ ns. AreNames (A.contents asks.new)
        (read_by (A.contents asks.new) shape.now front.now) ns.items shape.now.types.items) }
{
    names_of(alloc, asks, shape, front)
}

/// The parameters of these names, as levels, made between questions.
pub(crate) fn levels_between<A: Asks>(
    alloc: Global,
    asks: &mut A,
    names: &[u64],
) -> Result<Vec<u64>, NoMemory>
    requires { All (λ n. n < length (A.contents asks.old).names) names.now }
    ensures keeps { Extends (A.contents asks.old) (A.contents asks.new) }
    ensures stays { A.standing asks.new ≡ A.standing asks.old }
    ensures left { A.left asks.new ≡ A.left asks.old }
    ensures known { IfOk result (λ ls. All
        (λ l. l < length (A.contents asks.new).levels) ls.items) }
    ensures ok { IfOk result (λ ls. map (level_at (A.contents asks.new)) ls.items
        ≡ map param (map (name_at (A.contents asks.old)) names.now)) }
{
    levels_of(alloc, asks, names)
}

/// The type of the block's own recursor, renamed, made between questions.
pub(crate) fn type_between<A: Asks>(
    alloc: Global,
    asks: &mut A,
    pair: &Comparison,
) -> Result<u64, NoMemory>
    requires { IsComparison (A.contents asks.old) pair.now }
    ensures keeps { Extends (A.contents asks.old) (A.contents asks.new) }
    ensures stays { A.standing asks.new ≡ A.standing asks.old }
    ensures left { A.left asks.new ≡ A.left asks.old }
    ensures ok { IfOk result (λ e. IsTree (A.contents asks.new) e
        (renamed_type (A.contents asks.old) pair.now)) }
{
    renamed_type(alloc, asks, pair)
}

/// The value of the rule for a constructor, whose minor premise is given, renamed, made between questions.
pub(crate) fn rule_between<A: Asks>(
    alloc: Global,
    asks: &mut A,
    pair: &Comparison,
    minor: u64,
    constructor: &ConstructorShape,
) -> Result<u64, NoMemory>
    requires pair_is { IsComparison (A.contents asks.old) pair.now }
    requires minor_in { minor < length (A.contents asks.old).trees }
    requires constructor_in { IsConstructorShapeIn (A.contents asks.old) constructor.now }
    ensures keeps { Extends (A.contents asks.old) (A.contents asks.new) }
    ensures stays { A.standing asks.new ≡ A.standing asks.old }
    ensures left { A.left asks.new ≡ A.left asks.old }
    ensures ok { IfOk result (λ e. IsTree (A.contents asks.new) e
        (renamed_value (A.contents asks.old) pair.now minor constructor.now)) }
{
    renamed_rule(alloc, asks, pair, minor, constructor)
}
