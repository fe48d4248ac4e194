//! Two terms that `Core` leaves as they are, part by part.

ghost use Rattle.std.specs.Prelude.{◌<◌, length, IfOk, IfSome};
ghost use Rattle.lk_rulebook.specs.Claims.{equals};
ghost use Rattle.lk_questions.specs.Same.{by_parts};
ghost use Rattle.lk_store.specs.Contents.{tree_at};
ghost use Rattle.lk_step.specs.Meaning.{IsRowIn};
ghost use Rattle.lk_step.specs.Told.{Leaves};
ghost use Rattle.lk_derive_equal.specs.Constants.{IsConstant};
ghost use Rattle.lk_step.specs.Tests.{IsRun, AreReduced};
ghost use Rattle.lk_derive_equal.specs.Subjects.{IsProjection};
ghost use Rattle.lk_step.specs.Tells.{Tells};

use crate::constants::{Constant, by_constants};
use crate::spines::by_spines;
use crate::subjects::{Projection, by_subjects};
use crate::tests::Test;
use lk_ask::looks::Looks;
use lk_step::{Derives, Row};
use lk_store::memory::NoMemory;
use lk_store::node::Node;

/// A constant and another term.
fn constant_and<L: Looks>(
    looks: &L,
    left: Constant,
    a: u64,
    b: u64,
) -> Result<Option<Row>, NoMemory>
    requires a_in { a < length (L.contents looks.now).trees }
    requires b_in { b < length (L.contents looks.now).trees }
    requires left_is { IsConstant (L.contents looks.now) a left }
    ensures known { IfOk result (λ r. IfSome r (IsRowIn (L.contents looks.now))) }
    ensures tells { let t = tree_at (L.contents looks.now) in
        IfOk result (Tells (L.sight (L.rest looks.now)).basis.place (L.contents looks.now)
        (by_parts (t a) (t b)) (equals (t a) (t b))) }
{
    match looks.view(b) {
        Node::Const(name, levels) => by_constants(looks, a, b, left, Constant { name, levels }),
        _ => Ok(None),
    }
}

/// A projection and another term.
fn projection_and<D: Derives>(
    derives: &mut D,
    left: Projection,
    a: u64,
    b: u64,
    enough: u128,
) -> Result<Option<Row>, NoMemory>
    requires a_in { a < length (D.contents derives.old).trees }
    requires b_in { b < length (D.contents derives.old).trees }
    requires left_is { IsProjection (D.contents derives.old) a left }
    requires pair { AreReduced (D.sight (D.rest derives.old)).basis.place
        (tree_at (D.contents derives.old) a) (tree_at (D.contents derives.old) b) }
    requires run { IsRun (D.sight (D.rest derives.old)).basis.place (by_parts
        (tree_at (D.contents derives.old) a) (tree_at (D.contents derives.old) b)) enough }
    ensures leaves { Leaves D.contents D.rest D.sight derives.old derives.new }
    ensures known { IfOk result (λ r. IfSome r (IsRowIn (D.contents derives.new))) }
    ensures tells { let t = tree_at (D.contents derives.old) in
        IfOk result (Tells (D.sight (D.rest derives.old)).basis.place (D.contents derives.new)
        (by_parts (t a) (t b)) (equals (t a) (t b))) }
{
    match derives.view(b) {
        Node::Proj(name, field, subject) => {
            let right = Projection {
                name,
                field,
                subject,
            };
            by_subjects(derives, a, b, left, right, enough)
        }
        _ => Ok(None),
    }
}

/// The test of constants, projections and applications by their parts. No value of it is needed.
pub struct Congruence;

impl<D: Derives> Test<D> for Congruence {
    ghost use Rattle.lk_questions.specs.Same.{by_parts};

    ghost line = { by_parts };

    fn tell(derives: &mut D, a: u64, b: u64, enough: u128) -> Result<Option<Row>, NoMemory> {
        match derives.view(a) {
            Node::Const(name, levels) => constant_and(derives, Constant { name, levels }, a, b),
            Node::Proj(name, field, subject) => {
                let left = Projection {
                    name,
                    field,
                    subject,
                };
                projection_and(derives, left, a, b, enough)
            }
            Node::App(_, _) => by_spines(derives, a, b, enough),
            _ => Ok(None),
        }
    }
}
