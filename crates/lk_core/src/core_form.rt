//! `Core`: the weak head form without unfolding.

ghost use Rattle.std.specs.Prelude.{◌<◌, length};
ghost use Rattle.lk_tree.specs.Spine.{head as head_of, args as args_of};
ghost use Rattle.lk_questions.specs.Program.{asked};
ghost use Rattle.lk_questions.specs.Query.{core};
ghost use Rattle.lk_questions.specs.Core.{beta as beta_of, lambdas, core_applied, core_steps};
ghost use Rattle.lk_store.specs.Contents.{tree_at};
ghost use Rattle.lk_core.specs.Forms.{headed_rest, Begins, Reduces};

use crate::beta::beta;
use crate::sheet::CoreSheet;
use lk_ask::looks::Looks;
use lk_ask::next::Next;
use lk_ask::query::{Answer, Query};
use lk_ask::unfolding::with_head;
use lk_spine::{args, head};
use lk_store::memory::NoMemory;
use lk_store::node::Node;
use lk_subst::opening::open_with;

/// What `Core` or `Whnf` does next.
pub type CoreNext = Next<u64, CoreSheet<u64>>;

/// The first step of `Core`.
pub enum CoreStep {
    /// What comes next.
    Goes(CoreNext),
    /// A constant of this name and these levels is applied: what it means decides.
    Constant { name: u64, levels: u64 },
    /// It is a projection of this subject.
    Projection { subject: u64 },
}

/// `Core` of an application whose head is a lambda.
fn lambda_applied<L: Looks>(looks: &mut L, e: u64, lambda: u64) -> Result<CoreNext, NoMemory>
    requires e_in { e < length (L.contents looks.old).trees }
    requires lambda_in { lambda < length (L.contents looks.old).trees }
    ensures { Reduces L.contents L.rest L.sight looks.old looks.new result
        (λ t. asked (core (beta_of (lambdas (t lambda)) (t lambda) (args_of (t e))))) }
{
    let values = args(looks.alloc(), looks, e)?;
    let next = beta(looks, lambda, &values)?;
    Ok(Next::Ask(Query::Core(next), CoreSheet::Passed))
}

/// `Core` of an application, by its head.
fn applied<L: Looks>(looks: &mut L, e: u64) -> Result<CoreStep, NoMemory>
    requires { e < length (L.contents looks.old).trees }
    ensures { let t = tree_at (L.contents looks.old) e in
        Begins L.contents L.rest L.sight looks.old looks.new result e
        (core_applied t (head_of t) (args_of t)) }
{
    let front = head(looks, e);
    match looks.view(front) {
        Node::Let(_, _, _) | Node::Proj(_, _, _) => Ok(CoreStep::Goes(Next::Ask(
            Query::Core(front),
            CoreSheet::Head { application: e },
        ))),
        Node::Const(name, levels) => Ok(CoreStep::Constant { name, levels }),
        Node::Lam(_, _) => Ok(CoreStep::Goes(lambda_applied(looks, e, front)?)),
        _ => Ok(CoreStep::Goes(Next::Done(Answer::Term(e)))),
    }
}

/// Goes on with `Core` of an application, once that of its head is there.
pub(crate) fn after_head<L: Looks>(
    looks: &mut L,
    application: u64,
    form: u64,
) -> Result<CoreNext, NoMemory>
    requires application_in { application < length (L.contents looks.old).trees }
    requires form_in { form < length (L.contents looks.old).trees }
    ensures { Reduces L.contents L.rest L.sight looks.old looks.new result
        (λ t. headed_rest (t application) (t form)) }
{
    let front = head(looks, application);
    if looks.same(form, front) {
        return Ok(Next::Done(Answer::Term(application)));
    }
    let next = with_head(looks.alloc(), looks, application, form)?;
    Ok(Next::Ask(Query::Core(next), CoreSheet::Passed))
}

/// The first step of `Core` of a term.
pub fn begin<L: Looks>(looks: &mut L, e: u64) -> Result<CoreStep, NoMemory>
    requires { e < length (L.contents looks.old).trees }
    ensures { Begins L.contents L.rest L.sight looks.old looks.new result e
        (core_steps (tree_at (L.contents looks.old) e)) }
{
    match looks.view(e) {
        Node::App(_, _) => applied(looks, e),
        Node::Let(_, value, body) => {
            let next = open_with(looks.alloc(), looks, body, value)?;
            Ok(CoreStep::Goes(Next::Ask(Query::Core(next), CoreSheet::Passed)))
        }
        Node::Proj(_, _, subject) => Ok(CoreStep::Projection { subject }),
        _ => Ok(CoreStep::Goes(Next::Done(Answer::Term(e)))),
    }
}
