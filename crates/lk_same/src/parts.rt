//! Two terms compared part by part, and the pairs of parts that are still to be compared.

ghost use Rattle.std.specs.Prelude.{◌≡◌, ◌<◌, ℕ, Bool, true, Ok, IfSome, Option, length, map, All};
ghost use Rattle.lk_tree.specs.Tree.{Tree, const, proj};
ghost use Rattle.lk_rulebook.specs.Place.{Place};
ghost use Rattle.lk_questions.specs.Program.{Program};
ghost use Rattle.lk_questions.specs.Erased.{truth, erased};
ghost use Rattle.lk_questions.specs.Levels.{tested as plain_answer};
ghost use Rattle.lk_questions.specs.Pairs.{answers_yes};
ghost use Rattle.lk_questions.specs.Same.{by_parts};
ghost use Rattle.lk_store.specs.Contents.{name_at, list_at, tree_at};
ghost use Rattle.lk_ask.specs.Nexts.{IsKnownNext};
ghost use Rattle.lk_ask.specs.Sheets.{map_pair, IsKnownPair};
ghost use Rattle.lk_same.specs.Sames.{parts_rest, subjects_rest, same_next};
ghost use Rattle.lk_same.specs.Sames.{Compares, GoesLine, ComparesParts};
ghost use Rattle.lk_same.specs.Sheets.{IsKnownSameSheet};
ghost use Rattle.lk_same.specs.Spines.{by_spines};

use crate::lines::eta;
use crate::same::SameNext;
use crate::sheet::SameTruthSheet;
use lk_ask::looks::Looks;
use lk_ask::next::Next;
use lk_ask::query::{Answer, Query};
use lk_ask::sheet::{Pair, Sheet};
use lk_ask::stack::Stack;
use lk_lazy::levels::levels_equal;
use lk_lazy::spines::pair_up;
use lk_store::memory::NoMemory;
use lk_store::node::Node;
use lk_tree::rule::Rule;

/// What a test of levels answers.
pub(crate) fn tested(answer: Option<bool>) -> SameNext
    ensures known { (n : ℕ) → IsKnownNext IsKnownSameSheet n result }
    ensures steps { (w : Place) (t : ℕ → Tree) (last : Option ℕ)
        → same_next w t last result ≡ erased w truth last (plain_answer answer) }
{
    match answer {
        Some(equal) => Next::Done(Answer::Truth(equal)),
        None => Next::No(Rule::LevelWidth),
    }
}

/// What a test of levels answers, where no is no answer.
fn tested_yes(answer: Option<bool>) -> Option<SameNext>
    ensures known { (n : ℕ) → IfSome result (IsKnownNext IsKnownSameSheet n) }
    ensures goes { (w : Place) (t : ℕ → Tree) (last : Option ℕ) (p : Program Bool)
        → GoesLine w t last (answers_yes (plain_answer answer)) p result }
{
    match answer {
        Some(true) => Some(Next::Done(Answer::Truth(true))),
        Some(false) => None,
        None => Some(Next::No(Rule::LevelWidth)),
    }
}

/// Two constants: their names, then their levels.
fn constants<L: Looks>(
    looks: &L,
    left: u64,
    left_levels: u64,
    right: u64,
    right_levels: u64,
) -> Result<Option<SameNext>, NoMemory>
    requires left_in { left < length (L.contents looks.now).names }
    requires right_in { right < length (L.contents looks.now).names }
    requires left_levels_in { left_levels < length (L.contents looks.now).lists }
    requires right_levels_in { right_levels < length (L.contents looks.now).lists }
    ensures { let c = L.contents looks.now in (a b : ℕ) → ComparesParts c a b result
        (by_parts (const (name_at c left) (list_at c left_levels))
        (const (name_at c right) (list_at c right_levels))) }
{
    if !looks.same_name(left, right) {
        return Ok(None);
    }
    let equal = levels_equal(looks.alloc(), looks, left_levels, right_levels)?;
    Ok(tested_yes(equal))
}

/// A constant and another term.
fn constant_and<L: Looks>(
    looks: &L,
    name: u64,
    levels: u64,
    b: u64,
) -> Result<Option<SameNext>, NoMemory>
    requires name_in { name < length (L.contents looks.now).names }
    requires levels_in { levels < length (L.contents looks.now).lists }
    requires b_in { b < length (L.contents looks.now).trees }
    ensures { let c = L.contents looks.now in (a : ℕ) → ComparesParts c a b result
        (by_parts (const (name_at c name) (list_at c levels)) (tree_at c b)) }
{
    match looks.view(b) {
        Node::Const(other, other_levels) => constants(looks, name, levels, other, other_levels),
        _ => Ok(None),
    }
}

/// Two spines: their heads are asked for, and the pairs of arguments are kept.
fn spines<L: Looks>(looks: &L, a: u64, b: u64) -> Result<Option<SameNext>, NoMemory>
    requires a_in { a < length (L.contents looks.now).trees }
    requires b_in { b < length (L.contents looks.now).trees }
    ensures { let c = L.contents looks.now in
        ComparesParts c a b result (by_spines (tree_at c a) (tree_at c b)) }
{
    match pair_up(looks.alloc(), looks, a, b)? {
        Some(found) => Ok(Some(Next::Ask(
            Query::Same(found.left, found.right),
            Sheet::Truth(SameTruthSheet::Parts {
                left: a,
                right: b,
                others: Stack { items: found.pairs },
            }),
        ))),
        None => Ok(None),
    }
}

/// A projection, `a`, and another term.
fn projection_and<L: Looks>(
    looks: &L,
    name: u64,
    field: u64,
    subject: u64,
    a: u64,
    b: u64,
) -> Option<SameNext>
    requires name_in { name < length (L.contents looks.now).names }
    requires subject_in { subject < length (L.contents looks.now).trees }
    requires a_in { a < length (L.contents looks.now).trees }
    requires b_in { b < length (L.contents looks.now).trees }
    ensures { let c = L.contents looks.now in ComparesParts c a b (Ok result)
        (by_parts (proj (name_at c name) field (tree_at c subject)) (tree_at c b)) }
{
    match looks.view(b) {
        Node::Proj(other_name, other_field, other) => {
            if looks.same_name(name, other_name) && field == other_field {
                Some(Next::Ask(
                    Query::Same(subject, other),
                    Sheet::Truth(SameTruthSheet::Subjects { left: a, right: b }),
                ))
            } else {
                None
            }
        }
        _ => None,
    }
}

/// Two terms that `Core` leaves as they are, part by part. That parts differ is no answer.
pub(crate) fn parts<L: Looks>(looks: &L, a: u64, b: u64) -> Result<Option<SameNext>, NoMemory>
    requires a_in { a < length (L.contents looks.now).trees }
    requires b_in { b < length (L.contents looks.now).trees }
    ensures { let c = L.contents looks.now in
        ComparesParts c a b result (by_parts (tree_at c a) (tree_at c b)) }
{
    match looks.view(a) {
        Node::Const(name, levels) => constant_and(looks, name, levels, b),
        Node::App(_, _) => spines(looks, a, b),
        Node::Proj(name, field, subject) => {
            Ok(projection_and(looks, name, field, subject, a, b))
        }
        _ => Ok(None),
    }
}

/// Goes on with the pairs of two terms that are left.
fn next_pair(left: u64, right: u64, others: Stack<Pair<u64>>) -> SameNext
    ensures known { (n : ℕ) → left < n → right < n → All (IsKnownPair n) others
        → IsKnownNext IsKnownSameSheet n result }
    ensures steps { (w : Place) (t : ℕ → Tree) (last : Option ℕ) → same_next w t last result
        ≡ erased w truth last (parts_rest (t left) (t right) (map (map_pair t) others) true) }
{
    let mut items = others.items;
    match items.pop() {
        None => Next::Done(Answer::Truth(true)),
        Some(pair) => Next::Ask(
            Query::Same(pair.left, pair.right),
            Sheet::Truth(SameTruthSheet::Parts {
                left,
                right,
                others: Stack { items },
            }),
        ),
    }
}

/// Goes on with the pairs of two terms that are left, once the one before them was compared.
pub(crate) fn after_pair<L: Looks>(
    looks: &mut L,
    left: u64,
    right: u64,
    others: Stack<Pair<u64>>,
    equal: bool,
) -> Result<SameNext, NoMemory>
    requires left_in { left < length (L.contents looks.old).trees }
    requires right_in { right < length (L.contents looks.old).trees }
    requires others_in { All (IsKnownPair (length (L.contents looks.old).trees)) others }
    ensures { Compares L.contents L.rest L.sight looks.old looks.new result
        (λ t. parts_rest (t left) (t right) (map (map_pair t) others) equal) }
{
    if equal {
        Ok(next_pair(left, right, others))
    } else {
        eta(looks, left, right)
    }
}

/// Goes on with two projections, once their subjects were compared.
pub(crate) fn after_subjects<L: Looks>(
    looks: &mut L,
    left: u64,
    right: u64,
    equal: bool,
) -> Result<SameNext, NoMemory>
    requires left_in { left < length (L.contents looks.old).trees }
    requires right_in { right < length (L.contents looks.old).trees }
    ensures { Compares L.contents L.rest L.sight looks.old looks.new result
        (λ t. subjects_rest (t left) (t right) equal) }
{
    if equal {
        Ok(Next::Done(Answer::Truth(true)))
    } else {
        eta(looks, left, right)
    }
}
