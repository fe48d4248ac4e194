//! Whether the outermost variable of a body occurs.

ghost use Rattle.std.specs.Prelude.{◌≡◌, ◌<◌, length, IfOk};
ghost use Rattle.lk_tree.specs.Bind.{has_var};
ghost use Rattle.lk_store.specs.Contents.{tree_at};
ghost use Rattle.lk_ask.specs.Looks.{Made};

use lk_ask::looks::Looks;
use lk_store::memory::NoMemory;
use lk_store::node::Node;
use lk_subst::opening::open_with;

/// The same by two different values for the variable: where it occurs, two different terms come of
/// them.
fn occurs_by_opening<L: Looks>(looks: &mut L, body: u64) -> Result<bool, NoMemory>
    requires { body < length (L.contents looks.old).trees }
    ensures made { Made L.contents L.rest looks.old looks.new }
    ensures ok { IfOk result (λ r. r ≡ has_var 0 (tree_at (L.contents looks.old) body)) }
{
    let zero = looks.make(Node::Lit(0))?;
    let one = looks.make(Node::Lit(1))?;
    let with_zero = open_with(looks.alloc(), looks, body, zero)?;
    let with_one = open_with(looks.alloc(), looks, body, one)?;
    Ok(!looks.same(with_zero, with_one))
}

/// Whether the outermost variable of a body occurs. In a body under one binder of a closed term no
/// other variable is loose, and the bound of loose variables decides it.
pub fn occurs<L: Looks>(looks: &mut L, body: u64) -> Result<bool, NoMemory>
    requires { body < length (L.contents looks.old).trees }
    ensures made { Made L.contents L.rest looks.old looks.new }
    ensures ok { IfOk result (λ r. r ≡ has_var 0 (tree_at (L.contents looks.old) body)) }
{
    let bound = looks.loose_bound(body);
    if bound > 1 {
        return occurs_by_opening(looks, body);
    }
    Ok(bound == 1)
}
