//! Types and their weak head forms.

ghost use Rattle.std.specs.Prelude.{◌<◌, length, IfOk};
ghost use Rattle.lk_store.specs.Contents.{tree_at};
ghost use Rattle.lk_step.specs.Told.{Leaves};
ghost use Rattle.lk_derive_iota.specs.Taken.{HasForm, IsTypedWithin, AsksTyped};

use lk_step::derives::{form_of, type_of};
use lk_step::under_way::{ask_form, ask_type};
use lk_step::{Derives, Row};
use lk_store::memory::NoMemory;

/// A type, and its weak head form.
#[derive(Clone, Copy)]
pub(crate) struct Typed {
    pub ty: u64,
    pub form: u64,
}

/// The weak head form of the type of a term.
pub(crate) fn typed_form<D: Derives>(derives: &mut D, e: u64, enough: u128) -> Result<u64, NoMemory>
    requires e_in { e < length (D.contents derives.old).trees }
    requires typed { IsTypedWithin (D.sight (D.rest derives.old)).basis.place
        (tree_at (D.contents derives.old) e) enough }
    ensures leaves { Leaves D.contents D.rest D.sight derives.old derives.new }
    ensures known { IfOk result (λ v. v < length (D.contents derives.new).trees) }
    ensures told { IfOk result (λ v. HasForm (D.sight (D.rest derives.old)).basis.place
        (tree_at (D.contents derives.old) e) (tree_at (D.contents derives.new) v)) }
{
    let ty = type_of(derives, e, enough)?;
    let form = form_of(derives, ty, enough)?;
    Ok(form)
}

/// Asks for the type of a term and for its weak head form, and says that they are that.
pub(crate) fn ask_typed<D: Derives>(
    derives: &mut D,
    row: &mut Row,
    e: u64,
    enough: u128,
) -> Result<Typed, NoMemory>
    requires e_in { e < length (D.contents derives.old).trees }
    requires typed { IsTypedWithin (D.sight (D.rest derives.old)).basis.place
        (tree_at (D.contents derives.old) e) enough }
    ensures leaves { Leaves D.contents D.rest D.sight derives.old derives.new }
    ensures ty_in { IfOk result (λ r. r.ty < length (D.contents derives.new).trees) }
    ensures form_in { IfOk result (λ r. r.form < length (D.contents derives.new).trees) }
    ensures asks { let t = tree_at (D.contents derives.new) in IfOk result (λ r. AsksTyped
        (D.sight (D.rest derives.old)).basis.place (D.contents derives.old)
        (D.contents derives.new) row.old row.new (tree_at (D.contents derives.old) e) (t r.ty)
        (t r.form)) }
{
    let ty = ask_type(derives, row, e, enough)?;
    let form = ask_form(derives, row, ty, enough)?;
    Ok(Typed { ty, form })
}
