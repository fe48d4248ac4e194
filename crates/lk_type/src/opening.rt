//! Telescopes whose binders are opened at once, each domain and the innermost body with the Locals
//! of the binders around it.

ghost use Rattle.std.specs.Prelude.{◌≡◌, ◌≢◌, ◌<◌, ◌≤◌, ◌∷◌, ◌++◌, [], true, Ok, length, map, All, IfOk, IfSome};
ghost use Rattle.lk_tree.specs.Tree.{local};
ghost use Rattle.lk_tree.specs.Loose.{loose};
ghost use Rattle.lk_tree.specs.Putting.{put as put_values};
ghost use Rattle.lk_questions.specs.Infer.{infer_steps};
ghost use Rattle.lk_store.specs.Contents.{tree_at, Extends};
ghost use Rattle.lk_ask.specs.Looks.{MakesTree};
ghost use Rattle.lk_type.specs.Sheets.{map_telescope, IsKnownTelescope};
ghost use Rattle.lk_type.specs.Telescopes.{ahead, started, asked_for, telescope_domain};
ghost use Rattle.lk_type.specs.Openings.{IsBinder, IsFollowing, AreClosed, OpensAll, IsAskedFor, RunsAs};
ghost use Rattle.lk_type.specs.Marks.{body_at, AreMarks, AreAll, Follows};
ghost use Rattle.lk_type.specs.Types.{Infers};

use crate::binding::parts_of;
use crate::infer::TypeNext;
use crate::marking::{mark_of, marks_of};
use crate::sheet::{Binders, Telescope, TypeTermSheet};
use lk_ask::looks::Looks;
use lk_ask::next::Next;
use lk_ask::query::Query;
use lk_ask::sheet::Sheet;
use lk_store::memory::NoMemory;
use lk_store::node::Node;
use lk_subst::putting::put;

/// So many binders are opened at once. Fewer are opened as fast one after the other.
const LONG: u64 = 8;

/// The number of the next Local, where it is plain, and the binder of the Local that it follows: the
/// last one, or where that does not occur the greatest before it. There is none in a closed body.
fn next_number<L: Looks>(
    looks: &L,
    body: u64,
    number: u64,
    count: u64,
    marks: &[u64],
    all: bool,
    top: Option<u64>,
) -> Option<(u64, u64)>
    requires body_in { body < length (L.contents looks.now).trees }
    requires some { 0 < count }
    ensures follows { IfSome result (Follows number count marks.now all top) }
    ensures closed { IfSome result
        (λ p. loose (tree_at (L.contents looks.now) body) ≤ count) }
{
    // A closed body is opened for nothing, and its type, as a question of its own, is kept. The
    // domains of a term with loose variables, which no check asks for, are not those of its type.
    let loose = looks.loose_bound(body);
    if loose == 0 || loose > u128::from(count) {
        return None;
    }
    let mark = mark_of(marks, count - 1);
    if mark >= count {
        let next = number.checked_add(1)?;
        return Some((next, count - 1));
    }
    if let Some(j) = top {
        if all && mark == 0 && count <= marks.len() as u64 && mark_of(marks, j) >= count {
            return Some((number, j));
        }
    }
    None
}

/// Adds the Local of a binder, whose domain is opened with the Locals around it.
fn add_local<L: Looks>(
    looks: &mut L,
    domain: u64,
    number: u64,
    locals: &mut Vec<u64>,
) -> Result<u64, NoMemory>
    requires domain_in { domain < length (L.contents looks.old).trees }
    requires locals_in { All (λ x. x < length (L.contents looks.old).trees) locals.old.items }
    ensures makes { MakesTree L.contents L.rest looks.old looks.new result
        (λ t. local number (put_values (map t locals.old.items) (t domain))) }
    ensures pushed { IfOk result (λ x. locals.new.items ≡ locals.old.items ++ x ∷ []) }
{
    let opened = put(looks.alloc(), looks, domain, locals)?;
    let x = looks.make(Node::Local(number, opened))?;
    locals.push(x)?;
    Ok(x)
}

/// Opens the binders of the body of a binder, as long as it is plain which number the next Local
/// has. What stands inside them.
fn open_binders<L: Looks>(
    looks: &mut L,
    binders: Binders,
    e: u64,
    body: u64,
    following: Option<(u64, u64)>,
    marks: &[u64],
    all: bool,
    locals: &mut Vec<u64>,
) -> Result<u64, NoMemory>
    requires body_in { body < length (L.contents looks.old).trees }
    requires body_is { tree_at (L.contents looks.old) body
        ≡ body_at binders 1 (tree_at (L.contents looks.old) e) }
    requires marks { AreMarks binders (tree_at (L.contents looks.old) e) marks.now }
    requires locals_in { AreClosed (L.contents looks.old) locals.old.items }
    requires all { all ≡ true
        → AreAll binders (tree_at (L.contents looks.old) e) marks.now }
    requires one { length locals.old.items ≡ 1 }
    requires following { IfSome following
        (IsFollowing (L.contents looks.old) locals.old.items body) }
    ensures { OpensAll L.contents L.rest looks.old looks.new result binders body locals.old.items
        locals.new.items }
{
    let _e = e;
    let mut inside = body;
    let mut following = following;
    let mut count: u64 = 1;
    'binders: while let Some((number, top)) = following {
        match parts_of(looks, binders, inside) {
            None => return put(looks.alloc(), looks, inside, locals),
            Some((domain, body)) => {
                add_local(looks, domain, number, locals)?;
                inside = body;
                // No term in memory has so many binders that this fails.
                count = count.checked_add(1).ok_or(NoMemory)?;
                following = next_number(looks, inside, number, count, marks, all, Some(top));
            }
        }
    }
    put(looks.alloc(), looks, inside, locals)
}

/// Each Local applied to what follows it, the last one to `e`.
fn all_ahead<L: Looks>(looks: &mut L, locals: &[u64], e: u64) -> Result<u64, NoMemory>
    requires locals_in { All (λ x. x < length (L.contents looks.old).trees) locals.now }
    requires e_in { e < length (L.contents looks.old).trees }
    ensures { MakesTree L.contents L.rest looks.old looks.new result
        (λ t. ahead (map t locals.now) (t e)) }
{
    let mut left = locals;
    let mut made = e;
    'locals: while let Some((x, others)) = left.split_last() {
        made = looks.make(Node::App(*x, made))?;
        left = others;
    }
    Ok(made)
}

/// What is gathered at first, where this is the outermost binder and its Local, and the others are
/// applied to what follows them.
fn gathered_first<L: Looks>(
    looks: &mut L,
    binders: Binders,
    e: u64,
    first: u64,
    opened: u64,
) -> Result<u64, NoMemory>
    requires e_in { e < length (L.contents looks.old).trees }
    requires first_in { first < length (L.contents looks.old).trees }
    requires opened_in { opened < length (L.contents looks.old).trees }
    ensures { MakesTree L.contents L.rest looks.old looks.new result
        (λ t. started binders (t e) (t first) (t opened)) }
{
    match binders {
        Binders::Pis => Ok(first),
        Binders::Lambdas => {
            let locals = looks.make(Node::App(first, opened))?;
            looks.make(Node::App(e, locals))
        }
    }
}

/// Asks for the first domain of a telescope.
fn ask_domain<L: Looks>(looks: &L, domain: u64, telescope: Telescope<u64>) -> TypeNext
    requires domain_in { domain < length (L.contents looks.now).trees }
    requires telescope_in { IsKnownTelescope (length (L.contents looks.now).trees) telescope }
    ensures { Infers L.contents L.rest L.sight looks.now looks.now (Ok result)
        (λ t. telescope_domain (map_telescope t telescope) (t domain)) }
{
    let _looks = looks;
    Next::Ask(
        Query::Infer(domain),
        Sheet::Term(TypeTermSheet::TelescopeDomain { telescope }),
    )
}

/// The same, where these are its Locals, and this stands inside them.
fn first_domain<L: Looks>(
    looks: &mut L,
    binders: Binders,
    e: u64,
    domain: u64,
    locals: &[u64],
    inside: u64,
) -> Result<TypeNext, NoMemory>
    requires e_in { e < length (L.contents looks.old).trees }
    requires domain_in { domain < length (L.contents looks.old).trees }
    requires locals_in { All (λ x. x < length (L.contents looks.old).trees) locals.now }
    requires inside_in { inside < length (L.contents looks.old).trees }
    requires some { locals.now ≢ [] }
    ensures { IsAskedFor L.contents L.rest L.sight looks.old looks.new result binders e domain
        locals.now inside }
{
    match locals.split_first() {
        None => unreachable!(),
        Some((first, others)) => {
            let opened = all_ahead(looks, others, inside)?;
            let gathered = gathered_first(looks, binders, e, *first, opened)?;
            let telescope = Telescope {
                binders,
                count: others.len() as u64,
                opened,
                gathered,
            };
            Ok(ask_domain(looks, domain, telescope))
        }
    }
}

/// Begins `Infer` of a binder with those inside it.
#[inline(never)]
pub fn begin_binders<L: Looks>(
    looks: &mut L,
    binders: Binders,
    e: u64,
    domain: u64,
    body: u64,
) -> Result<TypeNext, NoMemory>
    requires e_in { e < length (L.contents looks.old).trees }
    requires binder { IsBinder (L.contents looks.old) binders e (domain, body) }
    ensures { RunsAs L.contents L.rest L.sight looks.old looks.new result
        (λ t. infer_steps (t e)) }
{
    let number = match u64::try_from(looks.local_bound(e)) {
        Ok(number) => number,
        // No Local in memory has so great a number.
        Err(_) => return Err(NoMemory),
    };
    let mut locals = Vec::new(looks.alloc());
    let _first = add_local(looks, domain, number, &mut locals)?;
    let mut marks = Vec::new(looks.alloc());
    let all = marks_of(looks, binders, e, &mut marks)?;
    let next = next_number(looks, body, number, 1, &marks, all, None);
    let inside = open_binders(looks, binders, e, body, next, &marks, all, &mut locals)?;
    first_domain(looks, binders, e, domain, &locals, inside)
}

/// Whether so many binders follow, each in a body that is not closed.
fn has_binders<L: Looks>(looks: &L, binders: Binders, e: u64) -> bool
    requires { e < length (L.contents looks.now).trees }
{
    let mut inside = e;
    for _i in 0..LONG {
        if looks.loose_bound(inside) == 0 {
            return false;
        }
        match parts_of(looks, binders, inside) {
            None => return false,
            Some((_domain, body)) => inside = body,
        }
    }
    true
}

/// The binders of a long telescope, with the domain and the body of the first one.
#[inline(always)]
pub fn long_telescope<L: Looks>(looks: &L, e: u64) -> Option<(Binders, u64, u64)>
    requires { e < length (L.contents looks.now).trees }
    ensures { IfSome result (λ p. IsBinder (L.contents looks.now) p.0 e (p.1, p.2)) }
{
    let (binders, domain, body) = match looks.view(e) {
        Node::Pi(domain, body) => (Binders::Pis, domain, body),
        Node::Lam(domain, body) => (Binders::Lambdas, domain, body),
        _ => return None,
    };
    if has_binders(looks, binders, body) {
        return Some((binders, domain, body));
    }
    None
}
