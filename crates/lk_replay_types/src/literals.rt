//! Literals.

ghost use Rattle.std.specs.Prelude.{◌<◌, length};
ghost use Rattle.lk_tree.specs.Tree.{lit, str};
ghost use Rattle.lk_written.specs.Typing.{type_lit, type_str};
ghost use Rattle.lk_store.specs.Contents.{tree_at};
ghost use Rattle.lk_premises.specs.Testing.{Tests};
ghost use Rattle.lk_replay_types.specs.Literals.{lit_by, str_by};

use crate::shapes::{has_nat_shape, has_string_shape};
use lk_ask::looks::Looks;
use lk_lit::{nat, string};
use lk_premises::comes_to;
use lk_store::memory::NoMemory;
use lk_store::node::Node;

/// Whether a tree is `Nat`, which has its shape.
fn is_nat<L: Looks>(looks: &mut L, left: &[u32], ty: u64) -> Result<bool, NoMemory>
    requires { ty < length (L.contents looks.old).trees }
    ensures { Tests L.contents (λ s. (L.sight (L.rest s)).basis) looks.old looks.new result
        (lit_by (L.sight (L.rest looks.old)).basis.place left.now
        (tree_at (L.contents looks.old) ty)) }
{
    if !has_nat_shape(looks)? {
        return Ok(false);
    }
    let expected = nat(looks)?;
    Ok(comes_to(looks, ty, expected, left))
}

/// Whether a tree is `String`, which has its shape.
fn is_string<L: Looks>(looks: &mut L, left: &[u32], ty: u64) -> Result<bool, NoMemory>
    requires { ty < length (L.contents looks.old).trees }
    ensures { Tests L.contents (λ s. (L.sight (L.rest s)).basis) looks.old looks.new result
        (str_by (L.sight (L.rest looks.old)).basis.place left.now
        (tree_at (L.contents looks.old) ty)) }
{
    if !has_string_shape(looks)? {
        return Ok(false);
    }
    let expected = string(looks)?;
    Ok(comes_to(looks, ty, expected, left))
}

/// A line of a number.
pub fn test_number<L: Looks>(looks: &mut L, left: &[u32], e: u64, ty: u64) -> Result<bool, NoMemory>
    requires e_in { e < length (L.contents looks.old).trees }
    requires ty_in { ty < length (L.contents looks.old).trees }
    ensures { Tests L.contents (λ s. (L.sight (L.rest s)).basis) looks.old looks.new result
        (type_lit (L.sight (L.rest looks.old)).basis.place left.now
        (tree_at (L.contents looks.old) e) (tree_at (L.contents looks.old) ty)) }
{
    match looks.view(e) {
        Node::Lit(_) => is_nat(looks, left, ty),
        _ => Ok(false),
    }
}

/// A line of a text.
pub fn test_text<L: Looks>(looks: &mut L, left: &[u32], e: u64, ty: u64) -> Result<bool, NoMemory>
    requires e_in { e < length (L.contents looks.old).trees }
    requires ty_in { ty < length (L.contents looks.old).trees }
    ensures { Tests L.contents (λ s. (L.sight (L.rest s)).basis) looks.old looks.new result
        (type_str (L.sight (L.rest looks.old)).basis.place left.now
        (tree_at (L.contents looks.old) e) (tree_at (L.contents looks.old) ty)) }
{
    match looks.view(e) {
        Node::Str(_) => is_string(looks, left, ty),
        _ => Ok(false),
    }
}
