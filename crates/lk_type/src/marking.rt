//! In which bodies of a telescope the variables of its binders occur, as far as a short walk tells.

ghost use Rattle.std.specs.Prelude.{◌≡◌, ◌<◌, ◌++◌, ◌∷◌, [], ℕ, suc, true, length, Some};
ghost use Rattle.std.specs.Prelude.{slice_index_or, IfOk, OnOk, IfSome};
ghost use Rattle.lk_store.specs.Contents.{tree_at};
ghost use Rattle.lk_type.specs.Marks.{IsMentioned, AreMarks, AreAll, AreFound, IsMarked, Raises};
ghost use Rattle.lk_type.specs.Marks.{IsSubterm, AreSubterms, IsOutermost, Leaves};

use crate::binding::parts_of;
use crate::sheet::Binders;
use lk_ask::looks::Looks;
use lk_store::memory::NoMemory;
use lk_store::node::Node;

/// So many subterms are looked at for each binder. What stands further away is not found.
const SHORT: u64 = 8;

/// A subterm of a telescope under so many binders, of which the first `count` are the telescope's.
#[derive(Clone, Copy)]
pub struct Subterm {
    pub e: u64,
    pub depth: u64,
    pub count: u64,
}

/// The mark of a binder: so many binders of the telescope stand around where its variable occurs,
/// as far as that was found. None is 0.
pub(crate) fn mark_of(marks: &[u64], n: u64) -> u64
    ensures { result ≡ slice_index_or marks.now n 0 }
{
    if n < marks.len() as u64 {
        return marks[n as usize];
    }
    0
}

/// The binder of the outermost variable that is loose in a subterm, if it is one of the telescope.
fn outermost<L: Looks>(looks: &L, binders: Binders, e: u64, subterm: Subterm) -> Option<u64>
    requires { IsSubterm (L.contents looks.now) binders (tree_at (L.contents looks.now) e) subterm }
    ensures mentioned { IfSome result (λ n. IsMentioned binders
        (tree_at (L.contents looks.now) e) n subterm.count) }
    ensures is { (n : ℕ) → IsOutermost (L.contents looks.now) n subterm → result ≡ Some n }
{
    let _of = (binders, e);
    let loose = looks.loose_bound(subterm.e);
    let depth = u128::from(subterm.depth);
    if loose == 0 {
        return None;
    }
    if loose > depth {
        return None;
    }
    if depth >= loose + u128::from(subterm.count) {
        return None;
    }
    match u64::try_from(depth - loose) {
        Ok(n) => Some(n),
        Err(_) => None,
    }
}

/// Raises a mark to a count, if it is lower.
fn raise(marks: &mut Vec<u64>, n: u64, count: u64)
    ensures { Raises n count marks.old.items marks.new.items }
{
    if n >= marks.len() as u64 {
        return;
    }
    if marks[n as usize] >= count {
        return;
    }
    marks[n as usize] = count;
}

/// Marks the binder of the outermost variable that is loose in a subterm.
fn mark<L: Looks>(looks: &L, binders: Binders, e: u64, subterm: Subterm, marks: &mut Vec<u64>)
    requires subterm { IsSubterm (L.contents looks.now) binders
        (tree_at (L.contents looks.now) e) subterm }
    requires marks { AreMarks binders (tree_at (L.contents looks.now) e) marks.old.items }
    ensures { IsMarked (L.contents looks.now) binders (tree_at (L.contents looks.now) e) subterm
        marks.old.items marks.new.items }
{
    match outermost(looks, binders, e, subterm) {
        None => return,
        Some(n) => raise(marks, n, subterm.count),
    }
}

/// Adds a subterm under as many binders as another one.
fn add_subterm(subterms: &mut Vec<Subterm>, subterm: Subterm, e: u64) -> Result<(), NoMemory>
    ensures { OnOk result (subterms.new.items ≡ subterms.old.items ++ record {
      e = e;
      depth = subterm.depth;
      count = subterm.count;
    } ∷ []) }
{
    let depth = subterm.depth;
    let count = subterm.count;
    subterms.push(Subterm { e, depth, count })?;
    Ok(())
}

/// Adds a subterm under one binder more.
fn add_body(subterms: &mut Vec<Subterm>, subterm: Subterm, e: u64) -> Result<(), NoMemory>
    ensures { OnOk result (subterms.new.items ≡ subterms.old.items ++ record {
      e = e;
      depth = suc subterm.depth;
      count = subterm.count;
    } ∷ []) }
{
    // No term in memory is so deep that this fails.
    let depth = subterm.depth.checked_add(1).ok_or(NoMemory)?;
    add_subterm(subterms, Subterm { depth, ..subterm }, e)
}

/// Adds the subterms of a subterm.
fn add_subterms<L: Looks>(
    looks: &L,
    binders: Binders,
    e: u64,
    subterm: Subterm,
    subterms: &mut Vec<Subterm>,
) -> Result<(), NoMemory>
    requires subterm { IsSubterm (L.contents looks.now) binders
        (tree_at (L.contents looks.now) e) subterm }
    requires subterms { AreSubterms (L.contents looks.now) binders
        (tree_at (L.contents looks.now) e) subterms.old.items }
    ensures subterms { OnOk result (AreSubterms (L.contents looks.now) binders
        (tree_at (L.contents looks.now) e) subterms.new.items) }
    ensures left { OnOk result (Leaves (L.contents looks.now) subterm subterms.old.items
        subterms.new.items) }
{
    let _of = (binders, e);
    if looks.loose_bound(subterm.e) == 0 {
        return Ok(());
    }
    match looks.view(subterm.e) {
        Node::App(f, a) => {
            add_subterm(subterms, subterm, f)?;
            add_subterm(subterms, subterm, a)
        }
        Node::Lam(domain, body) => {
            add_subterm(subterms, subterm, domain)?;
            add_body(subterms, subterm, body)
        }
        Node::Pi(domain, body) => {
            add_subterm(subterms, subterm, domain)?;
            add_body(subterms, subterm, body)
        }
        Node::Let(ty, value, body) => {
            add_subterm(subterms, subterm, ty)?;
            add_subterm(subterms, subterm, value)?;
            add_body(subterms, subterm, body)
        }
        Node::Proj(_, _, subject) => add_subterm(subterms, subterm, subject),
        _ => Ok(()),
    }
}

/// Looks at so many subterms.
fn walk<L: Looks>(
    looks: &L,
    binders: Binders,
    e: u64,
    subterms: &mut Vec<Subterm>,
    marks: &mut Vec<u64>,
    steps: u64,
) -> Result<bool, NoMemory>
    requires subterms { AreSubterms (L.contents looks.now) binders
        (tree_at (L.contents looks.now) e) subterms.old.items }
    requires marks { AreMarks binders (tree_at (L.contents looks.now) e) marks.old.items }
    requires found { AreFound (L.contents looks.now) binders (tree_at (L.contents looks.now) e)
        marks.old.items subterms.old.items }
    ensures marks { AreMarks binders (tree_at (L.contents looks.now) e) marks.new.items }
    ensures all { IfOk result (λ all. all ≡ true
        → AreAll binders (tree_at (L.contents looks.now) e) marks.new.items) }
{
    let mut left = steps;
    'subterms: while left > 0 {
        match subterms.pop() {
            None => return Ok(true),
            Some(subterm) => {
                mark(looks, binders, e, subterm, marks);
                add_subterms(looks, binders, e, subterm, subterms)?;
                left -= 1;
            }
        }
    }
    Ok(false)
}

/// The subterms of a telescope, its domains and what stands inside, and no mark for each binder.
fn begin<L: Looks>(
    looks: &L,
    binders: Binders,
    e: u64,
    subterms: &mut Vec<Subterm>,
    marks: &mut Vec<u64>,
) -> Result<(), NoMemory>
    requires e_in { e < length (L.contents looks.now).trees }
    requires no_subterm { subterms.old.items ≡ [] }
    requires no_mark { marks.old.items ≡ [] }
    ensures subterms { OnOk result (AreSubterms (L.contents looks.now) binders
        (tree_at (L.contents looks.now) e) subterms.new.items) }
    ensures marks { AreMarks binders (tree_at (L.contents looks.now) e) marks.new.items }
    ensures found { OnOk result (AreFound (L.contents looks.now) binders
        (tree_at (L.contents looks.now) e) marks.new.items subterms.new.items) }
{
    let mut inside = e;
    let mut count: u64 = 0;
    'binders: while let Some((domain, body)) = parts_of(looks, binders, inside) {
        let e = domain;
        let depth = count;
        subterms.push(Subterm { e, depth, count })?;
        marks.push(0)?;
        inside = body;
        // No term in memory has so many binders that this fails.
        count = count.checked_add(1).ok_or(NoMemory)?;
    }
    let e = inside;
    let depth = count;
    subterms.push(Subterm { e, depth, count })?;
    Ok(())
}

/// Marks the binders of a telescope. Whether all were found whose variables occur.
pub(crate) fn marks_of<L: Looks>(
    looks: &L,
    binders: Binders,
    e: u64,
    marks: &mut Vec<u64>,
) -> Result<bool, NoMemory>
    requires e_in { e < length (L.contents looks.now).trees }
    requires no_mark { marks.old.items ≡ [] }
    ensures marks { AreMarks binders (tree_at (L.contents looks.now) e) marks.new.items }
    ensures all { IfOk result (λ all. all ≡ true
        → AreAll binders (tree_at (L.contents looks.now) e) marks.new.items) }
{
    let mut subterms = Vec::new(looks.alloc());
    begin(looks, binders, e, &mut subterms, marks)?;
    let steps = (marks.len() as u64).saturating_mul(SHORT);
    walk(looks, binders, e, &mut subterms, marks, steps)
}
