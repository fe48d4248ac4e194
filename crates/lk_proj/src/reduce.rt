//! `Core` of a projection: its first step, and how it goes on.

ghost use Rattle.std.specs.Prelude.{◌≡◌, ◌<◌, ◌+◌, ℕ, Ok, Option, IfOk, IfSome, length};
ghost use Rattle.std.specs.Prelude.{option_map, slice_get};
ghost use Rattle.lk_tree.specs.Tree.{Name, Tree, proj};
ghost use Rattle.lk_tree.specs.Spine.{args as args_of};
ghost use Rattle.lk_rulebook.specs.Place.{Place};
ghost use Rattle.lk_questions.specs.Erased.{a_tree, erased};
ghost use Rattle.lk_questions.specs.Iota.{CtorApp, core_field, picked};
ghost use Rattle.lk_questions.specs.Core.{core_steps};
ghost use Rattle.lk_store.specs.Contents.{name_at, tree_at};
ghost use Rattle.lk_ask.specs.Nexts.{IsKnownNext};
ghost use Rattle.lk_constructor.specs.Applied.{IsKnownConstructor, IsAppliedIf};
ghost use Rattle.lk_proj.specs.Nodes.{IsProjection};
ghost use Rattle.lk_proj.specs.Sheets.{IsKnownCore};
ghost use Rattle.lk_proj.specs.Reductions.{subject_rest, head_rest, core_next};
ghost use Rattle.lk_proj.specs.Reductions.{Reduces, Resumes};

use crate::node::{Projection, projection_of};
use crate::sheet::CoreSheet;
use lk_ask::looks::Looks;
use lk_ask::next::Next;
use lk_ask::query::{Answer, Query};
use lk_constructor::{AppliedConstructor, look_head};
use lk_lit::text_to_ctor;
use lk_spine::args;
use lk_store::memory::NoMemory;
use lk_tree::rule::Rule;

/// What `Core` of a projection does next.
pub type CoreNext = Next<u64, CoreSheet<u64>>;

/// The first step of `Core` of a projection of this subject.
pub fn begin<L: Looks>(looks: &L, e: u64, subject: u64) -> CoreNext
    requires e_in { e < length (L.contents looks.now).trees }
    requires subject_in { subject < length (L.contents looks.now).trees }
    ensures { (S : Name) (i : ℕ)
        → tree_at (L.contents looks.now) e ≡ proj S i (tree_at (L.contents looks.now) subject)
        → Reduces L.contents L.rest L.sight looks.now looks.now (Ok result)
        (λ t. core_steps (t e)) }
{
    Next::Ask(Query::Whnf(subject), CoreSheet::Subject { projection: e })
}

/// The argument of a constructor that is a field of this number, behind so many parameters. Counts
/// have 64 bits, and no term has an argument whose number is above that.
fn field_of<L: Looks>(
    looks: &L,
    e: u64,
    parameters: u64,
    field: u64,
) -> Result<Option<u64>, NoMemory>
    requires { e < length (L.contents looks.now).trees }
    ensures known { IfOk result (λ x. IfSome x (λ a. a < length (L.contents looks.now).trees)) }
    ensures is { IfOk result (λ x. option_map (tree_at (L.contents looks.now)) x
        ≡ slice_get (args_of (tree_at (L.contents looks.now) e)) (parameters + field)) }
{
    let arguments = args(looks.alloc(), looks, e)?;
    match parameters.checked_add(field) {
        Some(place) => Ok(arguments.get(place as usize).copied()),
        None => Ok(None),
    }
}

/// Goes on with the field that is picked, where it is there.
fn pick(whole: u64, field: Option<u64>) -> CoreNext
    ensures known { (n : ℕ) → whole < n → IfSome field (λ x. x < n)
        → IsKnownNext IsKnownCore n result }
    ensures steps { (w : Place) (t : ℕ → Tree) (last : Option ℕ) → core_next w t last result
        ≡ erased w a_tree last (picked (t whole) (option_map t field)) }
{
    match field {
        Some(x) => Next::Ask(Query::Core(x), CoreSheet::Passed),
        None => Next::Done(Answer::Term(whole)),
    }
}

/// Goes on with the constructor that the subject is, applied, if it is one.
fn by_constructor<L: Looks>(
    looks: &L,
    p: Projection,
    e: u64,
    found: Option<AppliedConstructor>,
) -> Result<CoreNext, NoMemory>
    requires p_in { IsProjection (L.contents looks.now) p }
    requires e_in { e < length (L.contents looks.now).trees }
    requires found_in { IfSome found (IsKnownConstructor (L.contents looks.now)) }
    ensures { (b : Option CtorApp) → IsAppliedIf (L.contents looks.now)
        (L.sight (L.rest looks.now)).basis.library (args_of (tree_at (L.contents looks.now) e))
        found b
        → Reduces L.contents L.rest L.sight looks.now looks.now result
        (λ t. core_field (t p.whole) (name_at (L.contents looks.now) p.structure) p.field b) }
{
    match found {
        Some(constructor) => {
            if !looks.same_name(constructor.inductive, p.structure) {
                return Ok(Next::Done(Answer::Term(p.whole)));
            }
            let field = field_of(looks, e, constructor.parameters, p.field)?;
            Ok(pick(p.whole, field))
        }
        None => Ok(Next::Done(Answer::Term(p.whole))),
    }
}

/// Goes on with the subject, whose head is looked up.
fn by_head<L: Looks>(looks: &mut L, p: Projection, e: u64) -> Result<CoreNext, NoMemory>
    requires p_in { IsProjection (L.contents looks.old) p }
    requires e_in { e < length (L.contents looks.old).trees }
    ensures { Reduces L.contents L.rest L.sight looks.old looks.new result
        (λ t. head_rest (t p.whole) (name_at (L.contents looks.old) p.structure) p.field (t e)) }
{
    match look_head(looks, e) {
        Ok(found) => by_constructor(looks, p, e, found),
        Err(rule) => Ok(Next::No(rule)),
    }
}

/// Goes on with the subject in weak head form: a text that expands is expanded.
fn by_form<L: Looks>(looks: &mut L, p: Projection, form: u64) -> Result<CoreNext, NoMemory>
    requires p_in { IsProjection (L.contents looks.old) p }
    requires form_in { form < length (L.contents looks.old).trees }
    ensures { Reduces L.contents L.rest L.sight looks.old looks.new result
        (λ t. subject_rest (t p.whole) (t form)) }
{
    match text_to_ctor(looks, form)? {
        Ok(e) => by_head(looks, p, e),
        Err(rule) => Ok(Next::No(rule)),
    }
}

/// The same of a projection by its number.
fn subject_form<L: Looks>(looks: &mut L, e: u64, form: u64) -> Result<CoreNext, NoMemory>
    requires e_in { e < length (L.contents looks.old).trees }
    requires form_in { form < length (L.contents looks.old).trees }
    ensures { Reduces L.contents L.rest L.sight looks.old looks.new result
        (λ t. subject_rest (t e) (t form)) }
{
    match projection_of(looks, e) {
        Some(p) => by_form(looks, p, form),
        None => Ok(Next::No(Rule::BadProjection)),
    }
}

/// Goes on with `Core` of a projection once the term is there that its sheet waits for.
pub fn resume_term<L: Looks>(
    looks: &mut L,
    sheet: CoreSheet<u64>,
    e: u64,
) -> Result<CoreNext, NoMemory>
    requires sheet_in { IsKnownCore (length (L.contents looks.old).trees) sheet }
    requires e_in { e < length (L.contents looks.old).trees }
    ensures { Resumes L.contents L.rest L.sight looks.old looks.new result sheet e }
{
    match sheet {
        CoreSheet::Subject { projection } => subject_form(looks, projection, e),
        CoreSheet::Passed => Ok(Next::Done(Answer::Term(e))),
    }
}
