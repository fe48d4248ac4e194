//! Lines of Locals.
ghost use Rattle.std.specs.Prelude.{◌≡◌, ◌<◌, length, IfOk, OnOk, Ok};
ghost use Rattle.lk_tree.specs.Tree.{local};
ghost use Rattle.lk_store.specs.Contents.{tree_at, Extends};
ghost use Rattle.lk_units.specs.State.{State, with_tree};
ghost use Rattle.lk_units.specs.Held.{Numbered, Below, IsKnown, Holds, Makes, Follows};
ghost use Rattle.lk_traced.specs.Placed.{local_tree};

use lk_lines::FileNumber;
use lk_store::node::Node;
use lk_store::terms::Terms;
use lk_units::{Assembler, Numbering, TakeError};

/// A Local of this number, whose type is a number of the store.
fn make_local<T: Terms>(store: &mut T, number: u64, ty: u64) -> Result<u64, TakeError>
    requires { ty < length (T.contents store.old).trees }
    ensures keeps { Extends (T.contents store.old) (T.contents store.new) }
    ensures rest { T.rest store.new ≡ T.rest store.old }
    ensures known { IfOk result (λ e. e < length (T.contents store.new).trees) }
    ensures made { Makes (tree_at (T.contents store.new)) result
        (Ok (local number (tree_at (T.contents store.old) ty))) }
{
    match store.make(Node::Local(number, ty)) {
        Ok(e) => Ok(e),
        Err(_) => Err(TakeError::NoMemory),
    }
}

/// A Local of this number and type.
#[tactic(auto, using(lk_units::proofs::Lines::looked_up, lk_units::proofs::Holding::unchanged))]
fn known_local<T: Terms, N: FileNumber>(
    trees: &Numbering,
    store: &mut T,
    number: u64,
    ty: N,
) -> Result<u64, TakeError>
    requires { Below trees.now (length (T.contents store.old).trees) }
    ensures keeps { Extends (T.contents store.old) (T.contents store.new) }
    ensures rest { T.rest store.new ≡ T.rest store.old }
    ensures known { IfOk result (λ e. e < length (T.contents store.new).trees) }
    ensures made { (s : State) → Numbered trees.now (tree_at (T.contents store.old)) s.trees
        → Makes (tree_at (T.contents store.new)) result (local_tree s number (N.view.value ty)) }
{
    let ty = trees.known(ty)?;
    make_local(store, number, ty)
}

/// A line of a Local.
#[tactic(auto, using(lk_units::proofs::Putting::tree_known, lk_units::proofs::Putting::tree_follows))]
pub(crate) fn local_line<T: Terms, N: FileNumber>(
    assembler: &mut Assembler,
    store: &mut T,
    own: N,
    number: N,
    ty: N,
) -> Result<(), TakeError>
    requires { IsKnown assembler.old (T.contents store.old) }
    ensures keeps { Extends (T.contents store.old) (T.contents store.new) }
    ensures rest { T.rest store.new ≡ T.rest store.old }
    ensures known { OnOk result (IsKnown assembler.new (T.contents store.new)) }
    ensures follows { (s : State) → Holds assembler.old (T.contents store.old) s
        → Follows assembler.new (T.contents store.new) result (with_tree s (N.view.value own)
        (local_tree s (N.view.value number) (N.view.value ty))) }
{
    let made = known_local(&assembler.by_tree, store, number.widened(), ty);
    assembler.by_tree.put_new(own.widened(), made)
}
