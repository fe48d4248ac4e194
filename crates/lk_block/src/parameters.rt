//! Level parameters as levels.

ghost use Rattle.std.specs.Prelude.{◌≡◌, ◌<◌, ◌∷◌, length, map, All, IfOk};
ghost use Rattle.lk_tree.specs.Tree.{param};
ghost use Rattle.lk_store.specs.Contents.{name_at, list_at, Extends, IsList};

use lk_store::memory::NoMemory;
use lk_store::node::{LevelNode, ListNode};
use lk_store::terms::Terms;

/// A list of levels with the parameter of a name in front.
fn with_parameter<T: Terms>(terms: &mut T, name: u64, list: u64) -> Result<u64, NoMemory>
    requires name_in { name < length (T.contents terms.old).names }
    requires list_in { list < length (T.contents terms.old).lists }
    ensures keeps { Extends (T.contents terms.old) (T.contents terms.new) }
    ensures rest { T.rest terms.new ≡ T.rest terms.old }
    ensures ok { IfOk result (λ ls. IsList (T.contents terms.new) ls
        (param (name_at (T.contents terms.old) name) ∷ list_at (T.contents terms.old) list)) }
{
    let level = terms.make_level(LevelNode::Param(name))?;
    let made = terms.make_levels(ListNode::Cons(level, list))?;
    Ok(made)
}

/// The list of the level parameters of these names, as levels.
pub fn parameter_levels<T: Terms>(terms: &mut T, names: &[u64]) -> Result<u64, NoMemory>
    requires { All (λ n. n < length (T.contents terms.old).names) names.now }
    ensures keeps { Extends (T.contents terms.old) (T.contents terms.new) }
    ensures rest { T.rest terms.new ≡ T.rest terms.old }
    ensures ok { IfOk result (λ ls. IsList (T.contents terms.new) ls
        (map param (map (name_at (T.contents terms.old)) names.now))) }
{
    let mut left = names;
    let mut list = terms.make_levels(ListNode::Empty)?;
    'names: while let Some((name, others)) = left.split_last() {
        list = with_parameter(terms, *name, list)?;
        left = others;
    }
    Ok(list)
}
