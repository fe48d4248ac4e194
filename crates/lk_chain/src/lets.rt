//! Lets one inside the other, each with the values of those around it.

ghost use Rattle.std.specs.Prelude.{◌≡◌, ◌<◌, true, length, map, All, IfSome};
ghost use Rattle.lk_tree.specs.Loose.{loose};
ghost use Rattle.lk_store.specs.Contents.{tree_at};
ghost use Rattle.lk_ask.specs.Looks.{MakesTree};
ghost use Rattle.lk_chain.specs.Alike.{Replaces};
ghost use Rattle.lk_chain.specs.Lets.{IsLet, let_over, lets_over};

use lk_ask::looks::Looks;
use lk_store::memory::NoMemory;
use lk_store::node::Node;
use lk_subst::putting::put;

/// So many lets are pushed at once. Fewer are opened as fast one after the other.
const LONG: u64 = 8;

/// The type, the value and the body of a let.
fn let_of<L: Looks>(looks: &L, e: u64) -> Option<(u64, u64, u64)>
    requires { e < length (L.contents looks.now).trees }
    ensures { IfSome result (IsLet (L.contents looks.now) e) }
{
    match looks.view(e) {
        Node::Let(ty, value, body) => Some((ty, value, body)),
        _ => None,
    }
}

/// Whether it is a let with so many lets inside it, each of which has variables of those around it, and nothing is loose in all
/// of it.
#[inline(always)]
pub fn long_lets<L: Looks>(looks: &L, e: u64) -> bool
    requires { e < length (L.contents looks.now).trees }
    ensures { result ≡ true → loose (tree_at (L.contents looks.now) e) ≡ 0 }
{
    match looks.view(e) {
        Node::Let(_, _, body) => looks.loose_bound(e) == 0 && has_lets(looks, body),
        _ => false,
    }
}

/// Whether so many lets follow, each of them not closed.
fn has_lets<L: Looks>(looks: &L, e: u64) -> bool
    requires { e < length (L.contents looks.now).trees }
{
    let mut inside = e;
    for _i in 0..LONG {
        if looks.loose_bound(inside) == 0 {
            return false;
        }
        match let_of(looks, inside) {
            None => return false,
            Some((_ty, _value, body)) => inside = body,
        }
    }
    true
}

/// A let of this type and value, which is a type applied to a value, over what stands inside it.
fn one_let<L: Looks>(looks: &mut L, head: u64, e: u64) -> Result<u64, NoMemory>
    requires head_in { head < length (L.contents looks.old).trees }
    requires e_in { e < length (L.contents looks.old).trees }
    ensures { MakesTree L.contents L.rest looks.old looks.new result
        (λ t. let_over (t head) (t e)) }
{
    match looks.view(head) {
        Node::App(ty, value) => looks.make(Node::Let(ty, value, e)),
        _ => Ok(e),
    }
}

/// Lets of these types and values, each of which is a type applied to a value, over what stands inside them.
fn all_lets<L: Looks>(looks: &mut L, heads: &[u64], e: u64) -> Result<u64, NoMemory>
    requires heads_in { All (λ x. x < length (L.contents looks.old).trees) heads.now }
    requires e_in { e < length (L.contents looks.old).trees }
    ensures { MakesTree L.contents L.rest looks.old looks.new result
        (λ t. lets_over (map t heads.now) (t e)) }
{
    let mut left = heads;
    let mut made = e;
    'heads: while let Some((head, others)) = left.split_last() {
        made = one_let(looks, *head, made)?;
        left = others;
    }
    Ok(made)
}

/// Lets one inside the other, each type and value and the innermost body with the values of the lets around it.
#[inline(never)]
pub fn pushed_lets<L: Looks>(looks: &mut L, e: u64) -> Result<u64, NoMemory>
    requires e_in { e < length (L.contents looks.old).trees }
    requires closed { loose (tree_at (L.contents looks.old) e) ≡ 0 }
    ensures { Replaces L.contents L.rest looks.old looks.new result e }
{
    let mut heads = Vec::new(looks.alloc());
    let mut values = Vec::new(looks.alloc());
    let mut inside = e;
    'lets: while let Some((ty, value, body)) = let_of(looks, inside) {
        let ty = put(looks.alloc(), looks, ty, &values)?;
        let value = put(looks.alloc(), looks, value, &values)?;
        heads.push(looks.make(Node::App(ty, value))?)?;
        values.push(value)?;
        inside = body;
    }
    let end = put(looks.alloc(), looks, inside, &values)?;
    all_lets(looks, &heads, end)
}
