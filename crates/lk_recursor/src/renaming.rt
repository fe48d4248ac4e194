//! The types and the values of a block's own recursors, with the stated level parameters in place of their own.

ghost use Rattle.std.specs.Prelude.{◌≡◌, ◌<◌, length, map, All, IfOk};
ghost use Rattle.lk_tree.specs.Tree.{param};
ghost use Rattle.lk_store.specs.Contents.{name_at, level_at, tree_at, Extends, IsTree};
ghost use Rattle.lk_inductive.specs.Compare.{renamed};
ghost use Rattle.lk_block.specs.Shapes.{IsConstructorShapeIn};
ghost use Rattle.lk_recursor.specs.Comparisons.{stated_of, own_of, renamed_type, renamed_value, IsComparison};

use crate::own::Comparison;
use crate::recursor::recursor_type;
use crate::rules::rule_value;
use lk_block::shape::ConstructorShape;
use lk_store::memory::NoMemory;
use lk_store::node::LevelNode;
use lk_store::terms::Terms;
use lk_subst::levels::put_levels_in;
use std::alloc::Global;

/// The parameters of these names, as levels.
pub fn levels_of<T: Terms>(
    alloc: Global,
    terms: &mut T,
    names: &[u64],
) -> Result<Vec<u64>, NoMemory>
    requires { All (λ n. n < length (T.contents terms.old).names) names.now }
    ensures keeps { Extends (T.contents terms.old) (T.contents terms.new) }
    ensures rest { T.rest terms.new ≡ T.rest terms.old }
    ensures known { IfOk result (λ ls. All
        (λ l. l < length (T.contents terms.new).levels) ls.items) }
    ensures ok { IfOk result (λ ls. map (level_at (T.contents terms.new)) ls.items
        ≡ map param (map (name_at (T.contents terms.old)) names.now)) }
{
    let mut levels: Vec<u64> = Vec::new(alloc);
    let mut rest = names;
    'names: while let Some((name, more)) = rest.split_first() {
        let level = terms.make_level(LevelNode::Param(*name))?;
        levels.push(level)?;
        rest = more;
    }
    Ok(levels)
}

/// A tree with the stated level parameters in place of the block's own, position by position.
fn renamed<T: Terms>(
    alloc: Global,
    terms: &mut T,
    pair: &Comparison,
    e: u64,
) -> Result<u64, NoMemory>
    requires pair_is { IsComparison (T.contents terms.old) pair.now }
    requires e_in { e < length (T.contents terms.old).trees }
    ensures keeps { Extends (T.contents terms.old) (T.contents terms.new) }
    ensures rest { T.rest terms.new ≡ T.rest terms.old }
    ensures ok { IfOk result (λ r. IsTree (T.contents terms.new) r
        (renamed (stated_of (T.contents terms.old) pair.now)
        (own_of (T.contents terms.old) pair.now) (tree_at (T.contents terms.old) e))) }
{
    put_levels_in(alloc, terms, &pair.shared.front.names, pair.levels, e)
}

/// The type of the block's own recursor, renamed.
pub fn renamed_type<T: Terms>(
    alloc: Global,
    terms: &mut T,
    pair: &Comparison,
) -> Result<u64, NoMemory>
    requires { IsComparison (T.contents terms.old) pair.now }
    ensures keeps { Extends (T.contents terms.old) (T.contents terms.new) }
    ensures rest { T.rest terms.new ≡ T.rest terms.old }
    ensures ok { IfOk result (λ e. IsTree (T.contents terms.new) e
        (renamed_type (T.contents terms.old) pair.now)) }
{
    let made = recursor_type(
        alloc,
        terms,
        pair.shared.shape,
        pair.shared.front,
        pair.own.of,
    )?;
    renamed(alloc, terms, pair, made)
}

/// The value of the rule for a constructor, whose minor premise is given, renamed.
pub fn renamed_rule<T: Terms>(
    alloc: Global,
    terms: &mut T,
    pair: &Comparison,
    minor: u64,
    constructor: &ConstructorShape,
) -> Result<u64, NoMemory>
    requires pair_is { IsComparison (T.contents terms.old) pair.now }
    requires minor_in { minor < length (T.contents terms.old).trees }
    requires constructor_in { IsConstructorShapeIn (T.contents terms.old) constructor.now }
    ensures keeps { Extends (T.contents terms.old) (T.contents terms.new) }
    ensures rest { T.rest terms.new ≡ T.rest terms.old }
    ensures ok { IfOk result (λ e. IsTree (T.contents terms.new) e
        (renamed_value (T.contents terms.old) pair.now minor constructor.now)) }
{
    let made = rule_value(
        alloc,
        terms,
        pair.shared.shape,
        pair.shared.front,
        minor,
        constructor,
    )?;
    renamed(alloc, terms, pair, made)
}
