//! `Whnf`: the weak head form.

ghost use Rattle.std.specs.Prelude.{◌≡◌, ◌<◌, ℕ, Option, Some, List, IfSome, length, option_map};
ghost use Rattle.lk_tree.specs.Tree.{Name, Tree, const};
ghost use Rattle.lk_tree.specs.Spine.{head as head_of};
ghost use Rattle.lk_rulebook.specs.Place.{Place, Entry as PlainEntry};
ghost use Rattle.lk_questions.specs.Erased.{a_tree, erased};
ghost use Rattle.lk_questions.specs.Core.{unfolded, whnf_headed, whnf_steps};
ghost use Rattle.lk_questions.specs.Steps.{value_of as plain_value};
ghost use Rattle.lk_store.specs.Contents.{Contents, name_at, list_at, tree_at};
ghost use Rattle.lk_env.specs.declared.unit.Unit.{Unit as StoredUnit};
ghost use Rattle.lk_env.specs.Entries.{plain_entry, IsEntryIn};
ghost use Rattle.lk_store.specs.Store.{contents_of};
ghost use Rattle.lk_ask.specs.Looks.{entry_at, IsOver};
ghost use Rattle.lk_ask.specs.Nexts.{IsKnownNext};
ghost use Rattle.lk_lit.specs.Steps.{IsKnownPart, lit_steps};
ghost use Rattle.lk_core.specs.Sheets.{IsKnownCore};
ghost use Rattle.lk_core.specs.Forms.{unfolded_at, after_literal, core_next, Reduces, Resumes};
ghost use Rattle.lk_core.specs.Forms.{Continues};

use crate::core_form::{CoreNext, after_head};
use crate::sheet::CoreSheet;
use lk_ask::looks::Looks;
use lk_ask::next::Next;
use lk_ask::query::{Answer, Query};
use lk_ask::unfolding::unfold;
use lk_env::entry::{Entry, Kind};
use lk_env::unit::Body;
use lk_lit::step::LitPart;
use lk_spine::head;
use lk_store::memory::NoMemory;
use lk_store::node::Node;
use lk_tree::rule::Rule;

/// The first step of `Whnf` of a term.
pub fn begin(e: u64) -> CoreNext
    ensures known { (n : ℕ) → e < n → IsKnownNext IsKnownCore n result }
    ensures steps { (w : Place) (t : ℕ → Tree) (last : Option ℕ)
        → core_next w t last result ≡ erased w a_tree last (whnf_steps (t e)) }
{
    Next::Ask(Query::Core(e), CoreSheet::WhnfCore)
}

/// The value that a constant is unfolded by.
fn value_of(entry: Entry) -> Option<u64>
    ensures known { (c : Contents) → IsEntryIn c entry → IfSome result (λ v. v < length c.trees) }
    ensures value { (c : Contents) (us : List StoredUnit) (g : PlainEntry)
        → plain_entry c us entry ≡ Some g → plain_value g.kind ≡ option_map (tree_at c) result }
{
    match entry.kind {
        Kind::Declared(body) => match body {
            Body::Definition { value, .. } => Some(u64::from(value)),
            Body::Theorem { proof } => Some(u64::from(proof)),
            Body::Axiom | Body::Opaque { .. } | Body::Quotient => None,
        },
        Kind::Type(_) | Kind::Constructor { .. } | Kind::Recursor(_) | Kind::BareRecursor(_) =>
            None,
    }
}

/// Unfolds the head of a term, a constant of these levels, by its value.
fn by_value<L: Looks>(
    looks: &mut L,
    entry: Entry,
    levels: u64,
    value: u64,
    e: u64,
) -> Result<CoreNext, NoMemory>
    requires levels_in { levels < length (L.contents looks.old).lists }
    requires value_in { value < length (L.contents looks.old).trees }
    requires e_in { e < length (L.contents looks.old).trees }
    ensures { (f : Name) (g : PlainEntry)
        → entry_at (L.sight (L.rest looks.old)).basis entry ≡ Some g
        → let h = const f (list_at (L.contents looks.old) levels) in
        Reduces L.contents L.rest L.sight looks.old looks.new result
        (λ t. unfolded g h (t e) (Some (t value))) }
{
    match unfold(looks, entry, levels, value, e)? {
        Some(next) => Ok(Next::Ask(Query::Whnf(next), CoreSheet::Passed)),
        None => Ok(Next::No(Rule::LevelCount)),
    }
}

/// A term whose head is a constant of this entry and these levels, unfolded by its value, where it
/// has one.
fn by_entry<L: Looks>(
    looks: &mut L,
    entry: Entry,
    levels: u64,
    e: u64,
) -> Result<CoreNext, NoMemory>
    requires over { IsOver L.contents L.rest L.sight looks.old }
    requires known { IsEntryIn
        (contents_of (L.sight (L.rest looks.old)).basis.library.tables) entry }
    requires levels_in { levels < length (L.contents looks.old).lists }
    requires e_in { e < length (L.contents looks.old).trees }
    ensures { (f : Name) (g : PlainEntry)
        → entry_at (L.sight (L.rest looks.old)).basis entry ≡ Some g
        → let h = const f (list_at (L.contents looks.old) levels) in
        Reduces L.contents L.rest L.sight looks.old looks.new result
        (λ t. unfolded g h (t e) (plain_value g.kind)) }
{
    match value_of(entry) {
        Some(value) => by_value(looks, entry, levels, value, e),
        None => Ok(Next::Done(Answer::Term(e))),
    }
}

/// A term whose head was looked up, unfolded, where that is a constant with a value.
fn unfolded_again<L: Looks>(looks: &mut L, e: u64) -> Result<CoreNext, NoMemory>
    requires { e < length (L.contents looks.old).trees }
    ensures { let w = (L.sight (L.rest looks.old)).basis.place in
        Reduces L.contents L.rest L.sight looks.old looks.new result
        (λ t. unfolded_at w (t e) (head_of (t e))) }
{
    let front = head(looks, e);
    match looks.view(front) {
        Node::Const(name, levels) => match looks.means(name) {
            Ok(entry) => by_entry(looks, entry, levels, e),
            Err(_) => Ok(Next::Done(Answer::Term(e))),
        },
        _ => Ok(Next::Done(Answer::Term(e))),
    }
}

/// Goes on with the literal step: where nothing is computed the term is unfolded.
fn of_literal<L: Looks>(looks: &mut L, part: LitPart) -> Result<CoreNext, NoMemory>
    requires { IsKnownPart (length (L.contents looks.old).trees) part }
    ensures { Continues L.contents L.rest L.sight looks.old looks.new result
        (λ w t last. lit_steps (after_literal w) w t last part) }
{
    match part {
        LitPart::Goes(next) => match next {
            Next::Ask(asked, sheet) => Ok(Next::Ask(asked, CoreSheet::Literal(sheet))),
            Next::Done(answer) => Ok(Next::Done(answer)),
            Next::No(rule) => Ok(Next::No(rule)),
        },
        LitPart::Comes { term, value } => match value {
            Some(e) => Ok(Next::Done(Answer::Term(e))),
            None => unfolded_again(looks, term),
        },
    }
}

/// The end of `Whnf` of a term whose head is a constant.
fn constant_end<L: Looks>(
    looks: &mut L,
    e: u64,
    name: u64,
    levels: u64,
) -> Result<CoreNext, NoMemory>
    requires e_in { e < length (L.contents looks.old).trees }
    requires name_in { name < length (L.contents looks.old).names }
    requires levels_in { levels < length (L.contents looks.old).lists }
    requires head_is { const (name_at (L.contents looks.old) name)
        (list_at (L.contents looks.old) levels) ≡ head_of (tree_at (L.contents looks.old) e) }
    ensures { let h = const (name_at (L.contents looks.old) name)
        (list_at (L.contents looks.old) levels) in
        Reduces L.contents L.rest L.sight looks.old looks.new result (λ t. whnf_headed (t e) h) }
{
    let entry = match looks.look(name, Rule::UnknownConstant) {
        Ok(entry) => entry,
        Err(rule) => return Ok(Next::No(rule)),
    };
    let part = lk_lit::step::begin(looks, entry, name, levels, e)?;
    of_literal(looks, part)
}

/// The end of `Whnf`, once its `Core` is there.
fn end<L: Looks>(looks: &mut L, e: u64) -> Result<CoreNext, NoMemory>
    requires { e < length (L.contents looks.old).trees }
    ensures { Reduces L.contents L.rest L.sight looks.old looks.new result
        (λ t. whnf_headed (t e) (head_of (t e))) }
{
    let front = head(looks, e);
    match looks.view(front) {
        Node::Const(name, levels) => constant_end(looks, e, name, levels),
        _ => Ok(Next::Done(Answer::Term(e))),
    }
}

/// Goes on once the term is there that a sheet waits for.
pub fn resume<L: Looks>(looks: &mut L, sheet: CoreSheet<u64>, e: u64) -> Result<CoreNext, NoMemory>
    requires sheet_in { IsKnownCore (length (L.contents looks.old).trees) sheet }
    requires e_in { e < length (L.contents looks.old).trees }
    ensures { Resumes L.contents L.rest L.sight looks.old looks.new result sheet e }
{
    match sheet {
        CoreSheet::Passed => Ok(Next::Done(Answer::Term(e))),
        CoreSheet::Head { application } => after_head(looks, application, e),
        CoreSheet::WhnfCore => end(looks, e),
        CoreSheet::Literal(kept) => {
            let part = lk_lit::step::resume(looks, kept, e)?;
            of_literal(looks, part)
        }
    }
}
