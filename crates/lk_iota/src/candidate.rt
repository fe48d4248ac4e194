//! A major premise that is taken for a constructor because of its type, where the recursor has K.

ghost use Rattle.std.specs.Prelude.{◌<◌, Some, List, length};
ghost use Rattle.lk_tree.specs.Tree.{Tree};
ghost use Rattle.lk_questions.specs.Iota.{CtorApp};
ghost use Rattle.lk_store.specs.Contents.{list_at};
ghost use Rattle.lk_constructor.specs.Applied.{IsKnownConstructor};
ghost use Rattle.lk_iota.specs.Redexes.{PlainRedex, IsKnownRedex, StandsFor, IsAt};
ghost use Rattle.lk_iota.specs.OnlyRule.{only_at, IsOnlyOf};
ghost use Rattle.lk_iota.specs.Iotas.{at_levels, by_type as plain_type, by_type_if, compared_rest};
ghost use Rattle.lk_iota.specs.Iotas.{Reduces};

use crate::iota::IotaNext;
use crate::major::Redex;
use crate::only::only_constructor;
use crate::sheet::IotaTermSheet;
use crate::subject::{ask_major, by_subject};
use lk_ask::looks::Looks;
use lk_ask::next::Next;
use lk_ask::query::Query;
use lk_ask::sheet::Sheet;
use lk_constructor::{AppliedConstructor, levels_of_type};
use lk_spine::{apply, args};
use lk_store::memory::NoMemory;
use lk_store::node::Node;

/// The candidate: the only constructor at these levels and at the parameters of the major premise's
/// type. Its type is asked for, where that type has so many arguments.
fn at_parameters<L: Looks>(
    looks: &mut L,
    redex: &Redex,
    constructor: AppliedConstructor,
    levels: u64,
    e: u64,
    ty: u64,
) -> Result<IotaNext, NoMemory>
    requires redex_in { IsKnownRedex (L.contents looks.old) redex.now }
    requires constructor_in { IsKnownConstructor (L.contents looks.old) constructor }
    requires levels_in { levels < length (L.contents looks.old).lists }
    requires e_in { e < length (L.contents looks.old).trees }
    requires ty_in { ty < length (L.contents looks.old).trees }
    ensures { (p : PlainRedex) (b : CtorApp)
        → IsAt L.contents L.rest L.sight looks.old e p
        → StandsFor L.contents L.rest L.sight looks.old redex.now p
        → IsOnlyOf L.contents L.rest L.sight looks.old constructor p b
        → Reduces L.contents L.rest L.sight looks.old looks.new result
        (λ t. at_levels (t e) p b (t ty) (Some (list_at (L.contents looks.old) levels))) }
{
    let arguments = args(looks.alloc(), looks, ty)?;
    if u128::from(constructor.parameters) > arguments.len() as u128 {
        return Ok(ask_major(redex, e));
    }
    let front = looks.make(Node::Const(constructor.name, levels))?;
    let parameters = &arguments[..constructor.parameters as usize];
    let candidate = apply(looks, front, parameters)?;
    Ok(Next::Ask(
        Query::Infer(candidate),
        Sheet::Term(IotaTermSheet::Candidate {
            application: e,
            ty,
            candidate,
        }),
    ))
}

/// Goes on with the weak head form of the major premise's type, where the only constructor is this
/// one.
fn by_type<L: Looks>(
    looks: &mut L,
    redex: &Redex,
    constructor: AppliedConstructor,
    e: u64,
    ty: u64,
) -> Result<IotaNext, NoMemory>
    requires redex_in { IsKnownRedex (L.contents looks.old) redex.now }
    requires constructor_in { IsKnownConstructor (L.contents looks.old) constructor }
    requires e_in { e < length (L.contents looks.old).trees }
    requires ty_in { ty < length (L.contents looks.old).trees }
    ensures { (p : PlainRedex) (b : CtorApp)
        → IsAt L.contents L.rest L.sight looks.old e p
        → StandsFor L.contents L.rest L.sight looks.old redex.now p
        → IsOnlyOf L.contents L.rest L.sight looks.old constructor p b
        → Reduces L.contents L.rest L.sight looks.old looks.new result
        (λ t. plain_type (t e) p b (t ty)) }
{
    match levels_of_type(looks, constructor.inductive, ty) {
        Some(levels) => at_parameters(looks, redex, constructor, levels, e, ty),
        None => Ok(ask_major(redex, e)),
    }
}

/// Goes on with the weak head form of the major premise's type.
pub(crate) fn after_type<L: Looks>(
    looks: &mut L,
    redex: &Redex,
    e: u64,
    ty: u64,
) -> Result<IotaNext, NoMemory>
    requires redex_in { IsKnownRedex (L.contents looks.old) redex.now }
    requires e_in { e < length (L.contents looks.old).trees }
    requires ty_in { ty < length (L.contents looks.old).trees }
    ensures { (p : PlainRedex) → IsAt L.contents L.rest L.sight looks.old e p
        → StandsFor L.contents L.rest L.sight looks.old redex.now p
        → Reduces L.contents L.rest L.sight looks.old looks.new result
        (λ t. by_type_if (t e) p (t ty)
        (only_at (L.sight (L.rest looks.old)).basis.place p.recursor.rules)) }
{
    match only_constructor(looks, redex.entry) {
        Some(constructor) => by_type(looks, redex, constructor, e, ty),
        None => Ok(ask_major(redex, e)),
    }
}

/// A candidate whose type was compared with that of the major premise: it stands for it where they
/// are the same.
pub(crate) fn by_candidate<L: Looks>(
    looks: &mut L,
    redex: &Redex,
    e: u64,
    candidate: u64,
    equal: bool,
) -> Result<IotaNext, NoMemory>
    requires redex_in { IsKnownRedex (L.contents looks.old) redex.now }
    requires e_in { e < length (L.contents looks.old).trees }
    requires candidate_in { candidate < length (L.contents looks.old).trees }
    ensures { (p : PlainRedex) → IsAt L.contents L.rest L.sight looks.old e p
        → StandsFor L.contents L.rest L.sight looks.old redex.now p
        → Reduces L.contents L.rest L.sight looks.old looks.new result
        (λ t. compared_rest (t e) (Some p) (t candidate) equal) }
{
    if equal {
        by_subject(looks, redex, e, candidate)
    } else {
        Ok(ask_major(redex, e))
    }
}
