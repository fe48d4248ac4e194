//! Two terms, of which one is a text, and the other an application of `String.mk`.

ghost use Rattle.std.specs.Prelude.{◌≡◌, ◌<◌, [], ◌∷◌, length, option_map, IfOk, IfSome};
ghost use Rattle.lk_rulebook.specs.Claims.{equals};
ghost use Rattle.lk_questions.specs.Query.{same};
ghost use Rattle.lk_store.specs.Contents.{Contents, tree_at};
ghost use Rattle.lk_ask.specs.Sheets.{map_pair, IsKnownPair};
ghost use Rattle.lk_trace.specs.Meaning.{conversion_rule_of, IsConversionRuleIn};
ghost use Rattle.lk_step.specs.Steps.{equality as equality_step};
ghost use Rattle.lk_step.specs.Meaning.{IsRowIn};
ghost use Rattle.lk_step.specs.Told.{Leaves};
ghost use Rattle.lk_step.specs.Makes.{IsMade};
ghost use Rattle.lk_step.specs.Tests.{IsYes, AreReduced};
ghost use Rattle.lk_step.specs.Tells.{Rests};
ghost use Rattle.lk_derive_eta.specs.Texts.{texts_alone, texts_pair, text_rule};
ghost use Rattle.lk_derive_eta.specs.Texts.{numbers_in, numbers_asked};

use lk_ask::looks::Looks;
use lk_ask::next::{Line, Next};
use lk_ask::query::Query;
use lk_ask::sheet::Pair;
use lk_lit::answer::AnswerSheet;
use lk_lit::texts::{TextsLine, begin};
use lk_step::making::{converted, equality};
use lk_step::{Derives, Row};
use lk_store::memory::NoMemory;
use lk_store::node::Node;
use lk_store::terms::Terms;
use lk_trace::ConversionRule;

/// The two terms that are asked for next, whether they are the same.
fn pair_of_next(next: Next<u64, AnswerSheet>) -> Option<Pair<u64>>
    ensures { result ≡ numbers_in next }
{
    match next {
        Next::Ask(query, _) => match query {
            Query::Same(left, right) => Some(Pair { left, right }),
            Query::Core(_) => None,
            Query::Whnf(_) => None,
            Query::Infer(_) => None,
        },
        Next::Done(_) => None,
        Next::No(_) => None,
    }
}

/// The same, where the line does not leave the two to what comes behind it.
fn pair_of_line(line: TextsLine) -> Option<Pair<u64>>
    ensures { result ≡ numbers_asked line }
{
    match line {
        Line::Goes(next) => pair_of_next(next),
        Line::Behind { .. } => None,
    }
}

/// The two terms that are compared in place of two by texts: one is an expansion.
fn expanded_pair<D: Derives>(derives: &mut D, a: u64, b: u64) -> Result<Option<Pair<u64>>, NoMemory>
    requires a_in { a < length (D.contents derives.old).trees }
    requires b_in { b < length (D.contents derives.old).trees }
    ensures leaves { Leaves D.contents D.rest D.sight derives.old derives.new }
    ensures known { IfOk result (λ r. IfSome r
        (IsKnownPair (length (D.contents derives.new).trees))) }
    ensures is { let t = tree_at (D.contents derives.old) in let s = D.sight (D.rest derives.old) in
        IfOk result (λ r. option_map (map_pair (tree_at (D.contents derives.new))) r
        ≡ texts_pair s.basis.place s.last (t a) (t b)) }
{
    let line = begin(derives, a, b)?;
    Ok(pair_of_line(line))
}

/// The rule of a term beside another one.
fn text_rule<T: Terms>(terms: &T, a: u64) -> ConversionRule
    requires { a < length (T.contents terms.now).trees }
    ensures known { (c : Contents) → IsConversionRuleIn c result }
    ensures is { (c : Contents)
        → conversion_rule_of c result ≡ text_rule (tree_at (T.contents terms.now) a) }
{
    match terms.view(a) {
        Node::Str(_) => ConversionRule::TextLeft,
        _ => ConversionRule::TextRight,
    }
}

/// The row of two terms, in place of which these were compared.
fn text_row<L: Looks>(looks: &L, a: u64, b: u64, pair: Pair<u64>) -> Result<Row, NoMemory>
    requires a_in { a < length (L.contents looks.now).trees }
    requires b_in { b < length (L.contents looks.now).trees }
    requires pair_in { IsKnownPair (length (L.contents looks.now).trees) pair }
    ensures known { IfOk result (IsRowIn (L.contents looks.now)) }
    ensures row { let c = L.contents looks.now in let t = tree_at c in IfOk result (IsMade c
        (same (t pair.left) (t pair.right) ∷ []) (equality_step (text_rule (t a)) (t a) (t b)
        (equals (t pair.left) (t pair.right) ∷ []) ∷ [])) }
{
    let alloc = looks.alloc();
    let rule = text_rule(looks, a);
    let asks = vec![in alloc; Query::Same(pair.left, pair.right)]?;
    let premises = vec![in alloc; equality(pair.left, pair.right)]?;
    converted(looks, rule, a, b, asks, premises)
}

/// The row of two terms by texts.
pub(crate) fn by_texts<D: Derives>(
    derives: &mut D,
    a: u64,
    b: u64,
    enough: u128,
) -> Result<Row, NoMemory>
    requires a_in { a < length (D.contents derives.old).trees }
    requires b_in { b < length (D.contents derives.old).trees }
    requires pair { AreReduced (D.sight (D.rest derives.old)).basis.place
        (tree_at (D.contents derives.old) a) (tree_at (D.contents derives.old) b) }
    requires says { IsYes (D.sight (D.rest derives.old)).basis.place (texts_alone
        (tree_at (D.contents derives.old) a) (tree_at (D.contents derives.old) b)) enough }
    ensures leaves { Leaves D.contents D.rest D.sight derives.old derives.new }
    ensures known { IfOk result (IsRowIn (D.contents derives.new)) }
    ensures rests { let t = tree_at (D.contents derives.old) in
        IfOk result (Rests (D.sight (D.rest derives.old)).basis.place (D.contents derives.new)
        (texts_alone (t a) (t b)) (equals (t a) (t b))) }
{
    let found = expanded_pair(derives, a, b)?;
    match found {
        Some(pair) => {
            let row = text_row(derives, a, b, pair)?;
            Ok(row)
        }
        None => unreachable!(),
    }
}
