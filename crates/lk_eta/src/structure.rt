//! Structure eta: its first step, and how it goes on.

ghost use Rattle.std.specs.Prelude.{◌≡◌, ◌<◌, ℕ, List, Option, Some, length, map, All};
ghost use Rattle.lk_tree.specs.Tree.{Name, Level, Tree};
ghost use Rattle.lk_tree.specs.Spine.{head as head_of, args};
ghost use Rattle.lk_rulebook.specs.Place.{Place, Entry as PlainEntry, BlockType, Ctor};
ghost use Rattle.lk_questions.specs.Erased.{truth, erased};
ghost use Rattle.lk_questions.specs.Iota.{ctor_app_by};
ghost use Rattle.lk_questions.specs.Pairs.{answers_yes, ◌or_else◌};
ghost use Rattle.lk_questions.specs.Eta.{eta_struct, by_structure_eta};
ghost use Rattle.lk_store.specs.Contents.{tree_at};
ghost use Rattle.lk_env.specs.Lent.{constructor_in};
ghost use Rattle.lk_ask.specs.Lines.{Rest, IsKnownLine};
ghost use Rattle.lk_ask.specs.Looks.{entry_at};
ghost use Rattle.lk_ask.specs.Sheets.{map_pair, IsKnownPair};
ghost use Rattle.lk_mentions.specs.Structures.{IsStructure};
ghost use Rattle.lk_eta.specs.Sheets.{map_structure_term, IsKnownStructureTerm, IsKnownStructureTruth};
ghost use Rattle.lk_eta.specs.Sheets.{IsKnownStructureSheet};
ghost use Rattle.lk_eta.specs.Structures.{constructor_at, fields_line, types_line, others_same};
ghost use Rattle.lk_eta.specs.Structures.{others_line, structure_term_rest, structure_line};
ghost use Rattle.lk_eta.specs.Structures.{BuildsUp, ResumesStructure};

use crate::constructor::{constructor_again, is_full};
use crate::fields::pairs_of;
use crate::sheet::{StructureTermSheet, StructureTruthSheet};
use lk_ask::looks::Looks;
use lk_ask::next::{Line, Next};
use lk_ask::query::{Answer, Query};
use lk_ask::sheet::{Pair, Sheet};
use lk_ask::stack::Stack;
use lk_env::entry::Entry;
use lk_mentions::structures::Structure;
use lk_spine::head;
use lk_store::memory::NoMemory;
use lk_store::node::Node;
use lk_tree::rule::Rule;

/// What structure eta does next.
pub(crate) type StructureLine = Line<u64, Sheet<StructureTermSheet<u64>, StructureTruthSheet<u64>>>;

/// Two terms, where the head of the second one is the constant of this entry.
fn by_entry<L: Looks>(looks: &L, entry: Entry, a: u64, b: u64) -> Result<StructureLine, NoMemory>
    requires a_in { a < length (L.contents looks.now).trees }
    requires b_in { b < length (L.contents looks.now).trees }
    ensures { (g : PlainEntry) (x : Name) (ks : List Level)
        → entry_at (L.sight (L.rest looks.now)).basis entry ≡ Some g
        → constructor_at (L.sight (L.rest looks.now)).basis.place
        (head_of (tree_at (L.contents looks.now) b)) ≡ constructor_in g.kind
        → BuildsUp L.contents L.rest L.sight looks.now looks.now result
        (λ p t. eta_struct (t a) (t b) (ctor_app_by x ks (args (t b)) g g.kind)
        or_else p (t a) (t b)) }
{
    if is_full(looks, entry, b)? {
        Ok(Line::Goes(Next::Ask(
            Query::Infer(a),
            Sheet::Term(StructureTermSheet::Left { left: a, right: b }),
        )))
    } else {
        Ok(Line::Behind { left: a, right: b })
    }
}

/// Two terms by structure eta (`try_eta_struct`), where the second one may be a structure's constructor, applied.
pub(crate) fn begin<L: Looks>(looks: &mut L, a: u64, b: u64) -> Result<StructureLine, NoMemory>
    requires a_in { a < length (L.contents looks.old).trees }
    requires b_in { b < length (L.contents looks.old).trees }
    ensures { BuildsUp L.contents L.rest L.sight looks.old looks.new result
        (λ p t. by_structure_eta (t a) (t b) or_else p (t a) (t b)) }
{
    let front = head(looks, b);
    match looks.view(front) {
        Node::Const(name, _) => match looks.look(name, Rule::UnknownConstant) {
            Ok(entry) => by_entry(looks, entry, a, b),
            Err(rule) => Ok(Line::Goes(Next::No(rule))),
        },
        _ => Ok(Line::Behind { left: a, right: b }),
    }
}

/// Goes on with the pairs that are left.
fn next_pair(left: u64, right: u64, others: Stack<Pair<u64>>) -> StructureLine
    ensures known { (n : ℕ) → left < n → right < n → All (IsKnownPair n) others
        → IsKnownLine IsKnownStructureSheet n result }
    ensures steps { (p : Rest) (w : Place) (t : ℕ → Tree) (last : Option ℕ)
        → structure_line p w t last result ≡ erased w truth last
        (answers_yes (others_same (map (map_pair t) others)) or_else p (t left) (t right)) }
{
    let mut items = others.items;
    match items.pop() {
        None => Line::Goes(Next::Done(Answer::Truth(true))),
        Some(pair) => Line::Goes(Next::Ask(
            Query::Same(pair.left, pair.right),
            Sheet::Truth(StructureTruthSheet::Fields {
                left,
                right,
                others: Stack { items },
            }),
        )),
    }
}

/// Goes on with the pairs that are left, once the one before them was compared.
fn after_pair(left: u64, right: u64, others: Stack<Pair<u64>>, equal: bool) -> StructureLine
    ensures known { (n : ℕ) → left < n → right < n → All (IsKnownPair n) others
        → IsKnownLine IsKnownStructureSheet n result }
    ensures steps { (p : Rest) (w : Place) (t : ℕ → Tree) (last : Option ℕ)
        → structure_line p w t last result ≡ erased w truth last
        (others_line (map (map_pair t) others) equal or_else p (t left) (t right)) }
{
    if equal {
        next_pair(left, right, others)
    } else {
        Line::Behind { left, right }
    }
}

/// The projections of a term are compared with the fields of a constructor that is applied.
fn compare_fields<L: Looks>(
    looks: &mut L,
    found: Structure,
    a: u64,
    b: u64,
) -> Result<StructureLine, NoMemory>
    requires found_in { found.inductive < length (L.contents looks.old).names }
    requires a_in { a < length (L.contents looks.old).trees }
    requires b_in { b < length (L.contents looks.old).trees }
    ensures { (s : BlockType × Ctor) → IsStructure (L.contents looks.old) found s
        → BuildsUp L.contents L.rest L.sight looks.old looks.new result
        (λ p t. fields_line (t a) (t b) (Some s) or_else p (t a) (t b)) }
{
    let pairs = pairs_of(
        looks.alloc(),
        looks,
        found.inductive,
        found.parameters,
        a,
        b,
    )?;
    Ok(next_pair(a, b, pairs))
}

/// Goes on with the fields, where the types are the same.
fn by_fields<L: Looks>(looks: &mut L, a: u64, b: u64) -> Result<StructureLine, NoMemory>
    requires a_in { a < length (L.contents looks.old).trees }
    requires b_in { b < length (L.contents looks.old).trees }
    ensures { BuildsUp L.contents L.rest L.sight looks.old looks.new result
        (λ p t. fields_line (t a) (t b)
        (constructor_at (L.sight (L.rest looks.old)).basis.place (head_of (t b)))
        or_else p (t a) (t b)) }
{
    match constructor_again(looks, b) {
        Some(found) => compare_fields(looks, found, a, b),
        None => Ok(Line::Behind { left: a, right: b }),
    }
}

/// Goes on once the two types were compared.
fn after_types<L: Looks>(
    looks: &mut L,
    a: u64,
    b: u64,
    equal: bool,
) -> Result<StructureLine, NoMemory>
    requires a_in { a < length (L.contents looks.old).trees }
    requires b_in { b < length (L.contents looks.old).trees }
    ensures { BuildsUp L.contents L.rest L.sight looks.old looks.new result
        (λ p t. types_line (t a) (t b)
        (constructor_at (L.sight (L.rest looks.old)).basis.place (head_of (t b))) equal
        or_else p (t a) (t b)) }
{
    if equal {
        by_fields(looks, a, b)
    } else {
        Ok(Line::Behind { left: a, right: b })
    }
}

/// Goes on once the term is there that a sheet waits for.
pub(crate) fn resume_term(sheet: StructureTermSheet<u64>, e: u64) -> StructureLine
    ensures known { (n : ℕ) → IsKnownStructureTerm n sheet → e < n
        → IsKnownLine IsKnownStructureSheet n result }
    ensures steps { (p : Rest) (w : Place) (t : ℕ → Tree) (last : Option ℕ)
        → structure_line p w t last result
        ≡ structure_term_rest p w last (map_structure_term t sheet) (t e) }
{
    match sheet {
        StructureTermSheet::Left { left, right } => Line::Goes(Next::Ask(
            Query::Infer(right),
            Sheet::Term(StructureTermSheet::Right { left, right, ty: e }),
        )),
        StructureTermSheet::Right { left, right, ty } => Line::Goes(Next::Ask(
            Query::Same(ty, e),
            Sheet::Truth(StructureTruthSheet::Types { left, right }),
        )),
    }
}

/// Goes on once yes or no is there, which a sheet waits for.
pub(crate) fn resume_truth<L: Looks>(
    looks: &mut L,
    sheet: StructureTruthSheet<u64>,
    equal: bool,
) -> Result<StructureLine, NoMemory>
    requires sheet_in { IsKnownStructureTruth (length (L.contents looks.old).trees) sheet }
    ensures { ResumesStructure L.contents L.rest L.sight looks.old looks.new result sheet equal }
{
    match sheet {
        StructureTruthSheet::Types { left, right } => after_types(looks, left, right, equal),
        StructureTruthSheet::Fields {
            left,
            right,
            others,
        } => Ok(after_pair(left, right, others, equal)),
    }
}
