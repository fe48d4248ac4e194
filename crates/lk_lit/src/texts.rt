//! Two terms by texts: a text beside an application of `String.mk` is compared as its expansion.

ghost use Rattle.std.specs.Prelude.{◌≡◌, ◌<◌, length};
ghost use Rattle.lk_tree.specs.Spine.{head as head_of, args as args_of};
ghost use Rattle.lk_questions.specs.LiteralLines.{same_first, same_second, text_second, by_string};
ghost use Rattle.lk_questions.specs.LiteralLines.{is_made as plain_made};
ghost use Rattle.lk_store.specs.Contents.{text_at, tree_at};
ghost use Rattle.lk_lit.specs.Answers.{ComparesTexts};
ghost use Rattle.lk_lit.specs.Texts.{first_expanded, second_expanded};
ghost use Rattle.lk_lit.specs.Texts.{then_second, texts_then};

use crate::answer::AnswerSheet;
use crate::builtin::{Builtin, is_builtin};
use crate::expansion::expansion_of;
use lk_ask::looks::Looks;
use lk_ask::next::{Line, Next};
use lk_ask::query::Query;
use lk_spine::head;
use lk_store::memory::NoMemory;
use lk_store::node::Node;
use lk_store::terms::Terms;

/// What two terms do next by texts.
pub type TextsLine = Line<u64, AnswerSheet>;

/// Whether a term is an application of `String.mk`.
fn is_made<T: Terms>(terms: &T, e: u64) -> bool
    requires { e < length (T.contents terms.now).trees }
    ensures { let t = tree_at (T.contents terms.now) e in
        result ≡ plain_made (head_of t) (args_of t) }
{
    match terms.view(e) {
        Node::App(_, _) => {
            let front = head(terms, e);
            match terms.view(front) {
                Node::Const(name, _) => is_builtin(terms, name, Builtin::StringMk),
                _ => false,
            }
        }
        _ => false,
    }
}

/// The left term beside the expansion of the right one, which is this text, where it expands.
fn expanded_second<L: Looks>(
    looks: &mut L,
    text: u64,
    a: u64,
    b: u64,
) -> Result<TextsLine, NoMemory>
    requires text_in { text < length (L.contents looks.old).texts }
    requires a_in { a < length (L.contents looks.old).trees }
    requires b_in { b < length (L.contents looks.old).trees }
    ensures { let s = text_at (L.contents looks.old) text in
        ComparesTexts L.contents L.rest L.sight looks.old looks.new result
        (λ p t. second_expanded p s (t a) (t b)) }
{
    match expansion_of(looks, text)? {
        Ok(Some(e)) => Ok(Line::Goes(Next::Ask(Query::Same(a, e), AnswerSheet::Passed))),
        Ok(None) => Ok(Line::Behind { left: a, right: b }),
        Err(rule) => Ok(Line::Goes(Next::No(rule))),
    }
}

/// Two terms, of which the right one may be a text, and the left one an application of `String.mk`.
fn second<L: Looks>(looks: &mut L, a: u64, b: u64) -> Result<TextsLine, NoMemory>
    requires a_in { a < length (L.contents looks.old).trees }
    requires b_in { b < length (L.contents looks.old).trees }
    ensures { ComparesTexts L.contents L.rest L.sight looks.old looks.new result
        (λ p t. then_second p (t a) (t b)) }
{
    match looks.view(b) {
        Node::Str(text) => {
            if is_made(looks, a) {
                expanded_second(looks, text, a, b)
            } else {
                Ok(Line::Behind { left: a, right: b })
            }
        }
        _ => Ok(Line::Behind { left: a, right: b }),
    }
}

/// The expansion of the left term, which is this text, beside the right one, where it expands.
fn expanded_first<L: Looks>(looks: &mut L, text: u64, a: u64, b: u64) -> Result<TextsLine, NoMemory>
    requires text_in { text < length (L.contents looks.old).texts }
    requires a_in { a < length (L.contents looks.old).trees }
    requires b_in { b < length (L.contents looks.old).trees }
    ensures { let s = text_at (L.contents looks.old) text in
        ComparesTexts L.contents L.rest L.sight looks.old looks.new result
        (λ p t. first_expanded p s (t a) (t b)) }
{
    match expansion_of(looks, text)? {
        Ok(Some(e)) => Ok(Line::Goes(Next::Ask(Query::Same(e, b), AnswerSheet::Passed))),
        Ok(None) => second(looks, a, b),
        Err(rule) => Ok(Line::Goes(Next::No(rule))),
    }
}

/// Two terms by texts.
pub fn begin<L: Looks>(looks: &mut L, a: u64, b: u64) -> Result<TextsLine, NoMemory>
    requires a_in { a < length (L.contents looks.old).trees }
    requires b_in { b < length (L.contents looks.old).trees }
    ensures { ComparesTexts L.contents L.rest L.sight looks.old looks.new result
        (λ p t. texts_then p (t a) (t b)) }
{
    match looks.view(a) {
        Node::Str(text) => {
            if is_made(looks, b) {
                expanded_first(looks, text, a, b)
            } else {
                second(looks, a, b)
            }
        }
        _ => second(looks, a, b),
    }
}
