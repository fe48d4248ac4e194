//! Two terms whose heads are one constant.

ghost use Rattle.std.specs.Prelude.{◌≡◌, ◌<◌, true, false, length, IfOk};
ghost use Rattle.lk_store.specs.Contents.{tree_at};
ghost use Rattle.lk_questions.specs.Tests.{is_true};
ghost use Rattle.lk_derive_lazy.specs.Alike.{AreOneConstant, AreOther, AreAlikeIf};

use lk_lazy::levels::levels_equal;
use lk_lazy::spines::{Paired, pair_up};
use lk_premises::same_name;
use lk_store::memory::NoMemory;
use lk_store::node::Node;
use lk_store::terms::Terms;
use std::alloc::Global;

/// Whether a test of levels says yes.
fn is_yes(answer: Option<bool>) -> bool
    ensures { result ≡ is_true answer }
{
    match answer {
        Some(equal) => equal,
        None => false,
    }
}

/// Whether two trees are one constant at equal levels.
fn are_one<T: Terms>(alloc: Global, terms: &T, f: u64, g: u64) -> Result<bool, NoMemory>
    requires f_in { f < length (T.contents terms.now).trees }
    requires g_in { g < length (T.contents terms.now).trees }
    ensures one { let t = tree_at (T.contents terms.now) in
        IfOk result (λ y. y ≡ true → AreOneConstant (t f) (t g)) }
    ensures other { let t = tree_at (T.contents terms.now) in
        IfOk result (λ y. y ≡ false → AreOther (t f) (t g)) }
{
    match terms.view(f) {
        Node::Const(name, levels) => match terms.view(g) {
            Node::Const(other, more) => {
                if !same_name(terms, name, other) {
                    return Ok(false);
                }
                let equal = levels_equal(alloc, terms, levels, more)?;
                Ok(is_yes(equal))
            }
            _ => Ok(false),
        },
        _ => Ok(false),
    }
}

/// The pairs of arguments of two terms, where these are as many and their heads are one constant at equal levels.
pub(crate) fn alike<T: Terms>(
    alloc: Global,
    terms: &T,
    a: u64,
    b: u64,
) -> Result<Option<Paired>, NoMemory>
    requires a_in { a < length (T.contents terms.now).trees }
    requires b_in { b < length (T.contents terms.now).trees }
    ensures { IfOk result (AreAlikeIf (T.contents terms.now) a b) }
{
    let paired = pair_up(alloc, terms, a, b)?;
    match paired {
        Some(found) => {
            if !are_one(alloc, terms, found.left, found.right)? {
                return Ok(None);
            }
            Ok(Some(found))
        }
        None => Ok(None),
    }
}
