//! Sorts and Locals.

ghost use Rattle.std.specs.Prelude.{◌≡◌, ◌<◌, length};
ghost use Rattle.lk_questions.specs.Tests.{passes};
ghost use Rattle.lk_tree.specs.Tree.{sort, succ_level};
ghost use Rattle.lk_written.specs.Typing.{type_sort, type_local, comes_to as comes};
ghost use Rattle.lk_store.specs.Contents.{level_at, tree_at};
ghost use Rattle.lk_premises.specs.Testing.{Tests};

use lk_premises::comes_to;
use lk_store::memory::NoMemory;
use lk_store::node::{LevelNode, Node};
use lk_store::terms::Terms;

/// The sort of a level is of the sort of the next level.
fn next_sort<T: Terms>(terms: &mut T, left: &[u32], level: u64, ty: u64) -> Result<bool, NoMemory>
    requires level_in { level < length (T.contents terms.old).levels }
    requires ty_in { ty < length (T.contents terms.old).trees }
    ensures { Tests T.contents T.rest terms.old terms.new result
        (comes (tree_at (T.contents terms.old) ty)
        (sort (succ_level (level_at (T.contents terms.old) level))) left.now) }
{
    let next = terms.make_level(LevelNode::Succ(level))?;
    let sort = terms.make(Node::Sort(next))?;
    Ok(comes_to(terms, ty, sort, left))
}

/// A line of a sort.
pub fn test_sort<T: Terms>(terms: &mut T, left: &[u32], e: u64, ty: u64) -> Result<bool, NoMemory>
    requires e_in { e < length (T.contents terms.old).trees }
    requires ty_in { ty < length (T.contents terms.old).trees }
    ensures { Tests T.contents T.rest terms.old terms.new result
        (type_sort left.now (tree_at (T.contents terms.old) e)
        (tree_at (T.contents terms.old) ty)) }
{
    match terms.view(e) {
        Node::Sort(level) => next_sort(terms, left, level, ty),
        _ => Ok(false),
    }
}

/// A line of a Local, whose type it carries.
pub fn test_local<T: Terms>(terms: &T, left: &[u32], e: u64, ty: u64) -> bool
    requires e_in { e < length (T.contents terms.now).trees }
    requires ty_in { ty < length (T.contents terms.now).trees }
    ensures { result ≡ passes (type_local left.now (tree_at (T.contents terms.now) e)
        (tree_at (T.contents terms.now) ty)) }
{
    match terms.view(e) {
        Node::Local(_, own) => comes_to(terms, ty, own, left),
        _ => false,
    }
}
