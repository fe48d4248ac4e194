//! A major premise that is no constructor, in the type of a structure: it is taken for the
//! constructor of its projections, unless it is a proof.

ghost use Rattle.std.specs.Prelude.{◌≡◌, ◌<◌, List, Some, length};
ghost use Rattle.lk_tree.specs.Tree.{Level};
ghost use Rattle.lk_tree.specs.Spine.{head as head_of};
ghost use Rattle.lk_questions.specs.Iota.{CtorApp, levels_at};
ghost use Rattle.lk_store.specs.Contents.{level_at, tree_at};
ghost use Rattle.lk_constructor.specs.Applied.{IsKnownConstructor};
ghost use Rattle.lk_iota.specs.Redexes.{PlainRedex, IsKnownRedex, StandsFor, IsAt};
ghost use Rattle.lk_iota.specs.OnlyRule.{only_at, IsOnlyOf};
ghost use Rattle.lk_iota.specs.Expansions.{at_ctor, by_only as plain_only, expansion, at_level};
ghost use Rattle.lk_iota.specs.Expansions.{by_structure as plain_structure, by_structure_if};
ghost use Rattle.lk_iota.specs.Expansions.{by_sort as plain_sort, by_sort_if};
ghost use Rattle.lk_iota.specs.Iotas.{Reduces};

use crate::iota::IotaNext;
use crate::major::Redex;
use crate::only::only_constructor;
use crate::rule::by_arguments;
use crate::sheet::IotaTermSheet;
use lk_ask::looks::Looks;
use lk_ask::next::Next;
use lk_ask::query::{Answer, Query};
use lk_ask::sheet::Sheet;
use lk_constructor::{AppliedConstructor, levels_of_type};
use lk_mentions::structures::{projections_of, structure_of};
use lk_spine::args;
use lk_store::memory::NoMemory;
use lk_store::node::Node;
use lk_tree::rule::Rule;

/// A recursor whose only rule is for this constructor, where `m` stands for the major premise and is
/// none: where the constructor is that of a structure, the type of `m` is asked for.
pub(crate) fn by_only<L: Looks>(
    looks: &L,
    constructor: AppliedConstructor,
    e: u64,
    m: u64,
) -> Result<IotaNext, NoMemory>
    requires e_in { e < length (L.contents looks.now).trees }
    requires m_in { m < length (L.contents looks.now).trees }
    ensures { (p : PlainRedex) (k : CtorApp) → IsAt L.contents L.rest L.sight looks.now e p
        → IsOnlyOf L.contents L.rest L.sight looks.now constructor p k
        → Reduces L.contents L.rest L.sight looks.now looks.now result
        (λ t. plain_only (t e) p (t m) (Some k)) }
{
    match structure_of(looks.alloc(), looks.scope(), looks, constructor.entry)? {
        Some(_) => Ok(Next::Ask(
            Query::Infer(m),
            Sheet::Term(IotaTermSheet::StructureType {
                application: e,
                subject: m,
            }),
        )),
        None => Ok(Next::Done(Answer::Term(e))),
    }
}

/// The type of `m` is that of the constructor, at some levels: where it has as many arguments as the
/// constructor has parameters, its sort is asked for.
fn ask_sort<L: Looks>(
    looks: &L,
    constructor: AppliedConstructor,
    e: u64,
    m: u64,
    ty: u64,
) -> Result<IotaNext, NoMemory>
    requires e_in { e < length (L.contents looks.now).trees }
    requires m_in { m < length (L.contents looks.now).trees }
    requires ty_in { ty < length (L.contents looks.now).trees }
    ensures { (p : PlainRedex) (k : CtorApp) (ls : List Level)
        → IsAt L.contents L.rest L.sight looks.now e p
        → IsOnlyOf L.contents L.rest L.sight looks.now constructor p k
        → levels_at k.ind.name (head_of (tree_at (L.contents looks.now) ty)) ≡ Some ls
        → Reduces L.contents L.rest L.sight looks.now looks.now result
        (λ t. plain_structure (t e) p (t m) k (t ty)) }
{
    let arguments = args(looks.alloc(), looks, ty)?;
    if arguments.len() as u64 != constructor.parameters {
        return Ok(Next::Done(Answer::Term(e)));
    }
    Ok(Next::Ask(
        Query::Infer(ty),
        Sheet::Term(IotaTermSheet::StructureSort {
            application: e,
            subject: m,
            ty,
        }),
    ))
}

/// `m` stands for the major premise, and its type in weak head form is there.
fn by_structure<L: Looks>(
    looks: &L,
    constructor: AppliedConstructor,
    e: u64,
    m: u64,
    ty: u64,
) -> Result<IotaNext, NoMemory>
    requires constructor_in { IsKnownConstructor (L.contents looks.now) constructor }
    requires e_in { e < length (L.contents looks.now).trees }
    requires m_in { m < length (L.contents looks.now).trees }
    requires ty_in { ty < length (L.contents looks.now).trees }
    ensures { (p : PlainRedex) (k : CtorApp) → IsAt L.contents L.rest L.sight looks.now e p
        → IsOnlyOf L.contents L.rest L.sight looks.now constructor p k
        → Reduces L.contents L.rest L.sight looks.now looks.now result
        (λ t. plain_structure (t e) p (t m) k (t ty)) }
{
    match levels_of_type(looks, constructor.inductive, ty) {
        Some(_) => ask_sort(looks, constructor, e, m, ty),
        None => Ok(Next::Done(Answer::Term(e))),
    }
}

/// Goes on with the weak head form of the subject's type.
pub(crate) fn after_structure<L: Looks>(
    looks: &L,
    redex: &Redex,
    e: u64,
    m: u64,
    ty: u64,
) -> Result<IotaNext, NoMemory>
    requires e_in { e < length (L.contents looks.now).trees }
    requires m_in { m < length (L.contents looks.now).trees }
    requires ty_in { ty < length (L.contents looks.now).trees }
    ensures { (p : PlainRedex) → IsAt L.contents L.rest L.sight looks.now e p
        → StandsFor L.contents L.rest L.sight looks.now redex.now p
        → Reduces L.contents L.rest L.sight looks.now looks.now result
        (λ t. by_structure_if (t e) p (t m) (t ty)
        (only_at (L.sight (L.rest looks.now)).basis.place p.recursor.rules)) }
{
    match only_constructor(looks, redex.entry) {
        Some(constructor) => by_structure(looks, constructor, e, m, ty),
        None => Ok(Next::Done(Answer::Term(e))),
    }
}

/// The constructor is applied to the arguments of the type and to the projections of `m`.
fn expand<L: Looks>(
    looks: &mut L,
    redex: &Redex,
    constructor: AppliedConstructor,
    e: u64,
    m: u64,
    ty: u64,
) -> Result<IotaNext, NoMemory>
    requires redex_in { IsKnownRedex (L.contents looks.old) redex.now }
    requires constructor_in { IsKnownConstructor (L.contents looks.old) constructor }
    requires e_in { e < length (L.contents looks.old).trees }
    requires m_in { m < length (L.contents looks.old).trees }
    requires ty_in { ty < length (L.contents looks.old).trees }
    ensures { (p : PlainRedex) (k : CtorApp)
        → StandsFor L.contents L.rest L.sight looks.old redex.now p
        → IsOnlyOf L.contents L.rest L.sight looks.old constructor p k
        → Reduces L.contents L.rest L.sight looks.old looks.new result
        (λ t. at_ctor (t e) p (Some (expansion (t m) k (t ty)))) }
{
    let mut subject = args(looks.alloc(), looks, ty)?;
    let projections = projections_of(
        looks.alloc(),
        looks,
        constructor.inductive,
        m,
        constructor.fields,
    )?;
    subject.extend_from_slice(&projections)?;
    by_arguments(looks, redex, constructor, e, &subject)
}

/// The type of `m` has a sort of this level.
fn by_level<L: Looks>(
    looks: &mut L,
    redex: &Redex,
    constructor: AppliedConstructor,
    e: u64,
    m: u64,
    ty: u64,
    level: u64,
) -> Result<IotaNext, NoMemory>
    requires redex_in { IsKnownRedex (L.contents looks.old) redex.now }
    requires constructor_in { IsKnownConstructor (L.contents looks.old) constructor }
    requires e_in { e < length (L.contents looks.old).trees }
    requires m_in { m < length (L.contents looks.old).trees }
    requires ty_in { ty < length (L.contents looks.old).trees }
    requires level_in { level < length (L.contents looks.old).levels }
    ensures { (p : PlainRedex) (k : CtorApp)
        → StandsFor L.contents L.rest L.sight looks.old redex.now p
        → IsOnlyOf L.contents L.rest L.sight looks.old constructor p k
        → Reduces L.contents L.rest L.sight looks.old looks.new result
        (λ t. at_level (t e) p (t m) k (t ty) (level_at (L.contents looks.old) level)) }
{
    if looks.level_is_zero(level) {
        Ok(Next::Done(Answer::Term(e)))
    } else {
        expand(looks, redex, constructor, e, m, ty)
    }
}

/// `m` stands for the major premise, and the sort of its type is there in weak head form.
fn by_sort<L: Looks>(
    looks: &mut L,
    redex: &Redex,
    constructor: AppliedConstructor,
    e: u64,
    m: u64,
    ty: u64,
    sort: u64,
) -> Result<IotaNext, NoMemory>
    requires redex_in { IsKnownRedex (L.contents looks.old) redex.now }
    requires constructor_in { IsKnownConstructor (L.contents looks.old) constructor }
    requires e_in { e < length (L.contents looks.old).trees }
    requires m_in { m < length (L.contents looks.old).trees }
    requires ty_in { ty < length (L.contents looks.old).trees }
    requires sort_in { sort < length (L.contents looks.old).trees }
    ensures { (p : PlainRedex) (k : CtorApp)
        → StandsFor L.contents L.rest L.sight looks.old redex.now p
        → IsOnlyOf L.contents L.rest L.sight looks.old constructor p k
        → Reduces L.contents L.rest L.sight looks.old looks.new result
        (λ t. plain_sort (t e) p (t m) k (t ty) (t sort)) }
{
    match looks.view(sort) {
        Node::Sort(level) => by_level(looks, redex, constructor, e, m, ty, level),
        _ => Ok(Next::No(Rule::NotASort)),
    }
}

/// Goes on with the sort of the subject's type in weak head form.
pub(crate) fn after_sort<L: Looks>(
    looks: &mut L,
    redex: &Redex,
    e: u64,
    m: u64,
    ty: u64,
    sort: u64,
) -> Result<IotaNext, NoMemory>
    requires redex_in { IsKnownRedex (L.contents looks.old) redex.now }
    requires e_in { e < length (L.contents looks.old).trees }
    requires m_in { m < length (L.contents looks.old).trees }
    requires ty_in { ty < length (L.contents looks.old).trees }
    requires sort_in { sort < length (L.contents looks.old).trees }
    ensures { (p : PlainRedex) → StandsFor L.contents L.rest L.sight looks.old redex.now p
        → Reduces L.contents L.rest L.sight looks.old looks.new result
        (λ t. by_sort_if (t e) p (t m) (t ty) (t sort)
        (only_at (L.sight (L.rest looks.old)).basis.place p.recursor.rules)) }
{
    match only_constructor(looks, redex.entry) {
        Some(constructor) => by_sort(looks, redex, constructor, e, m, ty, sort),
        None => Ok(Next::Done(Answer::Term(e))),
    }
}
