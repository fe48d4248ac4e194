//! `Quot.lift` or `Quot.ind` that is applied to its major premise.

ghost use Rattle.std.specs.Prelude.{◌≡◌, ◌<◌, ℕ, Some, None, IfOk, IfSome, length, map, All};
ghost use Rattle.std.specs.Prelude.{option_map};
ghost use Rattle.lk_tree.specs.Tree.{Tree};
ghost use Rattle.lk_tree.specs.Spine.{args as args_of};
ghost use Rattle.lk_store.specs.Contents.{name_at, tree_at};
ghost use Rattle.lk_quot.specs.Redexes.{lift_redex, ind_redex, redex_of, redex_in as plain_in};
ghost use Rattle.lk_quot.specs.Redexes.{plain_redex, IsKnownRedex};

use crate::names::is_dotted;
use lk_ask::looks::Looks;
use lk_spine::{args, head};
use lk_store::memory::NoMemory;
use lk_store::node::Node;

/// `Quot.lift` or `Quot.ind` that is applied to its major premise.
#[derive(Drop)]
pub(crate) struct Redex {
    /// What the element of the major premise goes to.
    pub function: u64,
    pub major: u64,
    /// All its arguments.
    pub arguments: Vec<u64>,
    /// How many of them stand before the major premise.
    pub before: usize,
}

/// These arguments, split at the major premise, before which so many stand, the function as the
/// fourth. There is none where they are too few.
fn split(arguments: Vec<u64>, before: usize) -> Option<Redex>
    requires { 3 < before }
    ensures known { (n : ℕ) → All (λ x. x < n) arguments.items → IfSome result (IsKnownRedex n) }
    ensures lift { (t : ℕ → Tree) → before ≡ 5
        → option_map (plain_redex t) result ≡ lift_redex (map t arguments.items) }
    ensures ind { (t : ℕ → Tree) → before ≡ 4
        → option_map (plain_redex t) result ≡ ind_redex (map t arguments.items) }
{
    if arguments.len() <= before {
        return None;
    }
    let function = arguments[3];
    let major = arguments[before];
    Some(Redex {
        function,
        major,
        arguments,
        before,
    })
}

/// What a term is whose head is a constant of this name: `Quot.lift` or `Quot.ind` that is applied
/// to its major premise, or none.
pub(crate) fn redex_by<L: Looks>(looks: &L, name: u64, e: u64) -> Result<Option<Redex>, NoMemory>
    requires name_in { name < length (L.contents looks.now).names }
    requires e_in { e < length (L.contents looks.now).trees }
    ensures known { IfOk result
        (λ u. IfSome u (IsKnownRedex (length (L.contents looks.now).trees))) }
    ensures is { let t = tree_at (L.contents looks.now) in IfOk result (λ u.
        option_map (plain_redex t) u
        ≡ redex_of (name_at (L.contents looks.now) name) (args_of (t e))) }
{
    let before = if is_dotted(looks, name, b"Quot", b"lift") {
        5
    } else if is_dotted(looks, name, b"Quot", b"ind") {
        4
    } else {
        return Ok(None);
    };
    let arguments = args(looks.alloc(), looks, e)?;
    Ok(split(arguments, before))
}

/// What a term is: `Quot.lift` or `Quot.ind` that is applied to its major premise, or none.
pub(crate) fn redex_in<L: Looks>(looks: &L, e: u64) -> Result<Option<Redex>, NoMemory>
    requires { e < length (L.contents looks.now).trees }
    ensures known { IfOk result
        (λ u. IfSome u (IsKnownRedex (length (L.contents looks.now).trees))) }
    ensures is { let t = tree_at (L.contents looks.now) in
        IfOk result (λ u. option_map (plain_redex t) u ≡ plain_in (t e)) }
{
    let front = head(looks, e);
    match looks.view(front) {
        Node::Const(name, _) => redex_by(looks, name, e),
        _ => Ok(None),
    }
}
