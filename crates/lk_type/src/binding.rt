//! Binders, which are Pis or lambdas.

ghost use Rattle.std.specs.Prelude.{◌<◌, length, MatchOption};
ghost use Rattle.lk_store.specs.Contents.{tree_at};
ghost use Rattle.lk_type.specs.Openings.{IsBinder, IsNoBinder};

use crate::sheet::Binders;
use lk_ask::looks::Looks;
use lk_store::node::Node;

/// The domain and the body of a binder.
#[inline(always)]
pub(crate) fn parts_of<L: Looks>(looks: &L, binders: Binders, e: u64) -> Option<(u64, u64)>
    requires { e < length (L.contents looks.now).trees }
    ensures { MatchOption result (IsNoBinder binders (tree_at (L.contents looks.now) e))
        (IsBinder (L.contents looks.now) binders e) }
{
    match binders {
        Binders::Pis => match looks.view(e) {
            Node::Pi(domain, body) => Some((domain, body)),
            _ => None,
        },
        Binders::Lambdas => match looks.view(e) {
            Node::Lam(domain, body) => Some((domain, body)),
            _ => None,
        },
    }
}
