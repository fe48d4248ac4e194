//! The parts of a projection.

ghost use Rattle.std.specs.Prelude.{◌≡◌, ◌<◌, ℕ, length, IfSome, IfNone};
ghost use Rattle.lk_tree.specs.Tree.{Name, Tree};
ghost use Rattle.lk_tree.specs.declared.rule.Rule.TheVariants.{BadProjection};
ghost use Rattle.lk_questions.specs.Program.{Program, refuse};
ghost use Rattle.lk_store.specs.Contents.{tree_at};
ghost use Rattle.lk_proj.specs.Nodes.{of_proj, IsProjection};

use lk_store::node::Node;
use lk_store::terms::Terms;

/// A projection and its parts: the name of the structure, the number of the field, and the subject.
#[derive(Clone, Copy)]
pub struct Projection {
    pub whole: u64,
    pub structure: u64,
    pub field: u64,
    pub subject: u64,
}

/// The parts of a term, where it is a projection.
pub(crate) fn projection_of<T: Terms>(terms: &T, e: u64) -> Option<Projection>
    requires { e < length (T.contents terms.now).trees }
    ensures whole { IfSome result (λ p. p.whole ≡ e) }
    ensures is { IfSome result (IsProjection (T.contents terms.now)) }
    ensures none { IfNone result ((k : Name → ℕ → Tree → Program Tree)
        → of_proj (tree_at (T.contents terms.now) e) k ≡ refuse BadProjection) }
{
    match terms.view(e) {
        Node::Proj(structure, field, subject) => Some(Projection {
            whole: e,
            structure,
            field,
            subject,
        }),
        _ => None,
    }
}
