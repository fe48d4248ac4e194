//! Parts that several rows have: a sort, and a function type.

ghost use Rattle.std.specs.Prelude.{◌<◌, length, IfOk};
ghost use Rattle.lk_store.specs.Contents.{tree_at};
ghost use Rattle.lk_step.specs.Told.{Leaves};
ghost use Rattle.lk_derive_types.specs.Parts.{IsSortedWithin, IsSortRead, IsPiWithin, IsPiRead};

use lk_step::Derives;
use lk_step::derives::{form_of, type_of};
use lk_store::memory::NoMemory;
use lk_store::node::Node;

/// The type of a term, its weak head form, which is a sort, and the level of that.
#[derive(Clone, Copy)]
pub struct Sorted {
    pub ty: u64,
    pub sort: u64,
    pub level: u64,
}

/// A function type, with its parts.
#[derive(Clone, Copy)]
pub struct Function {
    pub pi: u64,
    pub domain: u64,
    pub body: u64,
}

/// The sort of a type.
pub(crate) fn sort_of<D: Derives>(derives: &mut D, e: u64, enough: u128) -> Result<Sorted, NoMemory>
    requires e_in { e < length (D.contents derives.old).trees }
    requires sorted { IsSortedWithin (D.sight (D.rest derives.old)).basis.place
        (tree_at (D.contents derives.old) e) enough }
    ensures leaves { Leaves D.contents D.rest D.sight derives.old derives.new }
    ensures sorted { IfOk result (IsSortRead (D.sight (D.rest derives.old)).basis.place
        (D.contents derives.new) (tree_at (D.contents derives.old) e)) }
{
    let ty = type_of(derives, e, enough)?;
    let sort = form_of(derives, ty, enough)?;
    match derives.view(sort) {
        Node::Sort(level) => Ok(Sorted { ty, sort, level }),
        _ => unreachable!(),
    }
}

/// The function type that a type reduces to.
pub(crate) fn pi_of<D: Derives>(derives: &mut D, e: u64, enough: u128) -> Result<Function, NoMemory>
    requires e_in { e < length (D.contents derives.old).trees }
    requires function { IsPiWithin (D.sight (D.rest derives.old)).basis.place
        (tree_at (D.contents derives.old) e) enough }
    ensures leaves { Leaves D.contents D.rest D.sight derives.old derives.new }
    ensures function { IfOk result (IsPiRead (D.sight (D.rest derives.old)).basis.place
        (D.contents derives.new) (tree_at (D.contents derives.old) e)) }
{
    let pi = form_of(derives, e, enough)?;
    match derives.view(pi) {
        Node::Pi(domain, body) => Ok(Function { pi, domain, body }),
        _ => unreachable!(),
    }
}
