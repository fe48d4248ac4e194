//! The literal step: an operation on numbers is computed (`reduce_nat`).

ghost use Rattle.std.specs.Prelude.{◌≡◌, ◌<◌, Option, Some, length, option_map};
ghost use Rattle.lk_tree.specs.Tree.{const};
ghost use Rattle.lk_tree.specs.Spine.{head as head_of, args};
ghost use Rattle.lk_tree.specs.Operations.{Value as PlainValue};
ghost use Rattle.lk_rulebook.specs.Place.{Entry as PlainEntry};
ghost use Rattle.lk_questions.specs.Literals.{literal_step};
ghost use Rattle.lk_store.specs.Contents.{Contents, name_at, list_at, tree_at};
ghost use Rattle.lk_ask.specs.Looks.{entry_at};
ghost use Rattle.lk_op.specs.Ops.{value_at, fitting};
ghost use Rattle.lk_lit.specs.Operations.{operation_at, AreArguments};
ghost use Rattle.lk_lit.specs.Sheets.{IsKnownLit};
ghost use Rattle.lk_lit.specs.Steps.{applied_step, first_step, second_step, op_at};
ghost use Rattle.lk_lit.specs.Steps.{IsPart, GivesPart, ResumesPart};
ghost use Rattle.lk_lit.specs.Values.{value_program};

use crate::numeral::numeral_of;
use crate::op::{Applied, Operation, operation_at_head, operation_named, with_arguments};
use crate::sheet::LitSheet;
use crate::value::computed_term;
use lk_ask::looks::Looks;
use lk_ask::next::Next;
use lk_ask::query::Query;
use lk_env::entry::Entry;
use lk_op::{Value, binary_value, unary_value};
use lk_spine::head;
use lk_store::memory::NoMemory;
use lk_store::node::Node;
use lk_store::terms::Terms;

/// What the literal step of a term does next: it goes on, or it comes to a value, or to none where nothing is computed.
#[derive(Drop)]
pub enum LitPart {
    Goes(Next<u64, LitSheet<u64>>),
    Comes { term: u64, value: Option<u64> },
}

/// The value of an operation whose arguments are numerals.
fn compute<L: Looks>(looks: &mut L, e: u64, value: Option<Value>) -> Result<LitPart, NoMemory>
    requires e_in { e < length (L.contents looks.old).trees }
    ensures { (o : Option PlainValue) → option_map value_at value ≡ fitting o
        → GivesPart L.contents L.rest L.sight looks.old looks.new result e
        (λ _. value_program o) }
{
    match computed_term(looks, value)? {
        Ok(value) => Ok(LitPart::Comes { term: e, value }),
        Err(rule) => Ok(LitPart::Goes(Next::No(rule))),
    }
}

/// Asks for the first argument as a numeral.
fn ask_first(applied: Applied, e: u64) -> LitPart
    ensures { (c : Contents) (operation : Operation) → e < length c.trees
        → op_at (head_of (tree_at c e)) ≡ Some (operation_at operation)
        → AreArguments c operation (args (tree_at c e)) (Some applied)
        → IsPart c result e (applied_step (Some (operation_at operation)) (args (tree_at c e))) }
{
    let first = match applied {
        Applied::Unary(_, first) => first,
        Applied::Binary(_, first, _) => first,
    };
    LitPart::Goes(Next::Ask(Query::Whnf(first), LitSheet::First { term: e }))
}

/// An operation that a term begins with, where it has as many arguments as it takes.
fn begin_applied<T: Terms>(terms: &T, operation: Operation, e: u64) -> LitPart
    requires { e < length (T.contents terms.now).trees }
    ensures { let t = tree_at (T.contents terms.now) in
        op_at (head_of (t e)) ≡ Some (operation_at operation)
        → IsPart (T.contents terms.now) result e
        (applied_step (Some (operation_at operation)) (args (t e))) }
{
    match with_arguments(terms, operation, e) {
        Some(applied) => ask_first(applied, e),
        None => LitPart::Comes {
            term: e,
            value: None,
        },
    }
}

/// The literal step of a term whose head is a constant of this entry, name and levels.
pub fn begin<L: Looks>(
    looks: &mut L,
    entry: Entry,
    name: u64,
    levels: u64,
    e: u64,
) -> Result<LitPart, NoMemory>
    requires name_in { name < length (L.contents looks.old).names }
    requires levels_in { levels < length (L.contents looks.old).lists }
    requires e_in { e < length (L.contents looks.old).trees }
    ensures { (g : PlainEntry) → entry_at (L.sight (L.rest looks.old)).basis entry ≡ Some g
        → const (name_at (L.contents looks.old) name) (list_at (L.contents looks.old) levels)
        ≡ head_of (tree_at (L.contents looks.old) e)
        → GivesPart L.contents L.rest L.sight looks.old looks.new result e
        (λ t. literal_step (t e) (name_at (L.contents looks.old) name)
        (list_at (L.contents looks.old) levels) g) }
{
    match operation_at_head(looks, entry.kind, name, levels, e) {
        Some(operation) => Ok(begin_applied(looks, operation, e)),
        None => Ok(LitPart::Comes {
            term: e,
            value: None,
        }),
    }
}

/// The operation that a term begins with, by the name of its head.
fn operation_again<T: Terms>(terms: &T, e: u64) -> Option<Operation>
    requires { e < length (T.contents terms.now).trees }
    ensures { option_map operation_at result ≡ op_at (head_of (tree_at (T.contents terms.now) e)) }
{
    let front = head(terms, e);
    match terms.view(front) {
        Node::Const(name, _) => operation_named(terms, name),
        _ => None,
    }
}

/// Goes on with an operation and its arguments, of which the first one is this number.
fn by_first<L: Looks>(
    looks: &mut L,
    applied: Applied,
    e: u64,
    first: u128,
) -> Result<LitPart, NoMemory>
    requires e_in { e < length (L.contents looks.old).trees }
    ensures { (operation : Operation)
        → op_at (head_of (tree_at (L.contents looks.old) e)) ≡ Some (operation_at operation)
        → AreArguments (L.contents looks.old) operation (args (tree_at (L.contents looks.old) e))
        (Some applied)
        → GivesPart L.contents L.rest L.sight looks.old looks.new result e
        (λ t. first_step (Some (operation_at operation)) (args (t e)) (Some first)) }
{
    match applied {
        Applied::Unary(op, _) => compute(looks, e, unary_value(op, first)),
        Applied::Binary(_, _, second) => Ok(LitPart::Goes(Next::Ask(
            Query::Whnf(second),
            LitSheet::Second { term: e, first },
        ))),
    }
}

/// Goes on with the number of the first argument.
fn first_number<L: Looks>(looks: &mut L, e: u64, first: u128) -> Result<LitPart, NoMemory>
    requires e_in { e < length (L.contents looks.old).trees }
    ensures { GivesPart L.contents L.rest L.sight looks.old looks.new result e
        (λ t. first_step (op_at (head_of (t e))) (args (t e)) (Some first)) }
{
    match operation_again(looks, e) {
        Some(operation) => match with_arguments(looks, operation, e) {
            Some(applied) => by_first(looks, applied, e, first),
            None => Ok(LitPart::Comes {
                term: e,
                value: None,
            }),
        },
        None => Ok(LitPart::Comes {
            term: e,
            value: None,
        }),
    }
}

/// Goes on with the numbers of both arguments.
fn second_number<L: Looks>(
    looks: &mut L,
    e: u64,
    first: u128,
    second: u128,
) -> Result<LitPart, NoMemory>
    requires e_in { e < length (L.contents looks.old).trees }
    ensures { GivesPart L.contents L.rest L.sight looks.old looks.new result e
        (λ t. second_step (op_at (head_of (t e))) first (Some second)) }
{
    match operation_again(looks, e) {
        Some(operation) => match operation {
            Operation::Binary(op) => compute(looks, e, binary_value(op, first, second)),
            Operation::Unary(_) => Ok(LitPart::Comes {
                term: e,
                value: None,
            }),
        },
        None => Ok(LitPart::Comes {
            term: e,
            value: None,
        }),
    }
}

/// Goes on with the weak head form of the first argument.
fn after_first<L: Looks>(looks: &mut L, term: u64, e: u64) -> Result<LitPart, NoMemory>
    requires term_in { term < length (L.contents looks.old).trees }
    requires e_in { e < length (L.contents looks.old).trees }
    ensures { ResumesPart L.contents L.rest L.sight looks.old looks.new result
        (LitSheet.First term) e }
{
    match numeral_of(looks, e) {
        Some(first) => first_number(looks, term, first),
        None => Ok(LitPart::Comes { term, value: None }),
    }
}

/// Goes on with the weak head form of the second argument.
fn after_second<L: Looks>(
    looks: &mut L,
    term: u64,
    first: u128,
    e: u64,
) -> Result<LitPart, NoMemory>
    requires term_in { term < length (L.contents looks.old).trees }
    requires e_in { e < length (L.contents looks.old).trees }
    ensures { ResumesPart L.contents L.rest L.sight looks.old looks.new result
        (LitSheet.Second term first) e }
{
    match numeral_of(looks, e) {
        Some(second) => second_number(looks, term, first, second),
        None => Ok(LitPart::Comes { term, value: None }),
    }
}

/// Goes on once the term is there that a sheet waits for.
pub fn resume<L: Looks>(looks: &mut L, sheet: LitSheet<u64>, e: u64) -> Result<LitPart, NoMemory>
    requires sheet_in { IsKnownLit (length (L.contents looks.old).trees) sheet }
    requires e_in { e < length (L.contents looks.old).trees }
    ensures { ResumesPart L.contents L.rest L.sight looks.old looks.new result sheet e }
{
    match sheet {
        LitSheet::First { term } => after_first(looks, term, e),
        LitSheet::Second { term, first } => after_second(looks, term, first, e),
    }
}
