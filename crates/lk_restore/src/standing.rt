//! What a constant of the larger block stands for, made.

ghost use Rattle.std.specs.Prelude.{◌≡◌, ◌<◌, length, map, All, IfOk};
ghost use Rattle.lk_tree.specs.Tree.{param, const};
ghost use Rattle.lk_tree.specs.Spine as spine;
ghost use Rattle.lk_store.specs.Contents.{name_at, list_at, tree_at, Extends, IsTree};
ghost use Rattle.lk_inductive.specs.Enlarged.{Setting};
ghost use Rattle.lk_inductive.specs.Restore.{applied_to};
ghost use Rattle.lk_restore.specs.Originals.{original_at, IsOriginalIn, IsStanding};

use crate::originals::Original;
use lk_spine::apply;
use lk_store::memory::NoMemory;
use lk_store::node::Node;
use lk_store::terms::Terms;

/// A constant at levels, applied to terms.
fn constant_applied<T: Terms>(
    terms: &mut T,
    name: u64,
    levels: u64,
    arguments: &[u64],
) -> Result<u64, NoMemory>
    requires name_in { name < length (T.contents terms.old).names }
    requires levels_in { levels < length (T.contents terms.old).lists }
    requires arguments_in { All (λ x. x < length (T.contents terms.old).trees) arguments.now }
    ensures keeps { Extends (T.contents terms.old) (T.contents terms.new) }
    ensures rest { T.rest terms.new ≡ T.rest terms.old }
    ensures ok { IfOk result (λ r. IsTree (T.contents terms.new) r
        (spine.apply (const (name_at (T.contents terms.old) name)
        (list_at (T.contents terms.old) levels))
        (map (tree_at (T.contents terms.old)) arguments.now))) }
{
    let head = terms.make(Node::Const(name, levels))?;
    let made = apply(terms, head, arguments)?;
    Ok(made)
}

/// What the constant of this name stands for, at the block's levels and applied to the parameters: another constant at levels,
/// applied to terms.
pub fn stand<T: Terms>(
    terms: &mut T,
    own_levels: u64,
    parameters: &[u64],
    name: u64,
    original: u64,
    levels: u64,
    arguments: &[u64],
) -> Result<Original, NoMemory>
    requires own_levels_in { own_levels < length (T.contents terms.old).lists }
    requires parameters_in { All (λ x. x < length (T.contents terms.old).trees) parameters.now }
    requires name_in { name < length (T.contents terms.old).names }
    requires original_in { original < length (T.contents terms.old).names }
    requires levels_in { levels < length (T.contents terms.old).lists }
    requires arguments_in { All (λ x. x < length (T.contents terms.old).trees) arguments.now }
    ensures keeps { Extends (T.contents terms.old) (T.contents terms.new) }
    ensures rest { T.rest terms.new ≡ T.rest terms.old }
    ensures known { IfOk result (IsOriginalIn (T.contents terms.new)) }
    ensures is { IfOk result (λ o. original_at (T.contents terms.new) o
        ≡ (
          name_at (T.contents terms.old) name,
          applied_to
              (name_at (T.contents terms.old) original) (list_at (T.contents terms.old) levels)
              (map (tree_at (T.contents terms.old)) arguments.now),
        )) }
    ensures standing { (s : Setting) → list_at (T.contents terms.old) own_levels
        ≡ map param s.levels → map (tree_at (T.contents terms.old)) parameters.now ≡ s.params
        → IfOk result (IsStanding (T.contents terms.new) s) }
{
    let from = constant_applied(terms, name, own_levels, parameters)?;
    let to = constant_applied(terms, original, levels, arguments)?;
    Ok(Original::Applied {
        name,
        original,
        from,
        to,
    })
}
