//! Long spines: the arguments of a dependent function, put into its type all at once.

ghost use Rattle.std.specs.Prelude.{◌≡◌, ◌<◌, true, length, map, All, IfOk, IfSome};
ghost use Rattle.lk_tree.specs.Loose.{loose};
ghost use Rattle.lk_tree.specs.Putting.{put as put_values};
ghost use Rattle.lk_questions.specs.Answer.{later};
ghost use Rattle.lk_store.specs.Contents.{tree_at};
ghost use Rattle.lk_ask.specs.Looks.{MakesTree};
ghost use Rattle.lk_chain.specs.Lets.{AreClosed};
ghost use Rattle.lk_chain.specs.Pis.{pis_over};
ghost use Rattle.lk_chain.specs.Spines.{IsPi, unit_of, IsMeant, GivesType, PushesType, RunsAlike};

use crate::domains::pis;
use lk_ask::looks::Looks;
use lk_spine::{apply, args, head};
use lk_store::memory::NoMemory;
use lk_store::node::Node;
use lk_subst::putting::put;
use lk_tree::rule::Rule;

/// More arguments than so many are put at once. Fewer are put as fast one after the other.
pub const LONG: u64 = 8;

/// The domain and the body of a Pi.
fn pi_of<L: Looks>(looks: &L, e: u64) -> Option<(u64, u64)>
    requires { e < length (L.contents looks.now).trees }
    ensures { IfSome result (IsPi (L.contents looks.now) e) }
{
    match looks.view(e) {
        Node::Pi(domain, body) => Some((domain, body)),
        _ => None,
    }
}

/// Whether it is a term applied to so many arguments, and nothing is loose in all of it.
#[inline(always)]
pub fn long_spine<L: Looks>(looks: &L, e: u64) -> bool
    requires { e < length (L.contents looks.now).trees }
    ensures { result ≡ true → loose (tree_at (L.contents looks.now) e) ≡ 0 }
{
    match looks.view(e) {
        Node::App(function, _) => has_arguments(looks, function) && looks.loose_bound(e) == 0,
        _ => false,
    }
}

/// Whether it is a term applied to so many arguments.
fn has_arguments<L: Looks>(looks: &L, e: u64) -> bool
    requires { e < length (L.contents looks.now).trees }
{
    let mut inside = e;
    for _i in 0..LONG {
        match looks.view(inside) {
            Node::App(function, _) => inside = function,
            _ => return false,
        }
    }
    true
}

/// Whether it is a closed type of so many Pis, the body of each with variables of those around it.
fn is_dependent<L: Looks>(looks: &L, ty: u64) -> bool
    requires { ty < length (L.contents looks.now).trees }
    ensures { result ≡ true → loose (tree_at (L.contents looks.now) ty) ≡ 0 }
{
    looks.loose_bound(ty) == 0 && has_pis(looks, ty)
}

/// Whether so many Pis follow, with variables of those around it in the body of each.
fn has_pis<L: Looks>(looks: &L, ty: u64) -> bool
    requires { ty < length (L.contents looks.now).trees }
{
    let mut inside = ty;
    for _i in 0..LONG {
        match pi_of(looks, inside) {
            None => return false,
            Some((_domain, body)) => inside = body,
        }
        if looks.loose_bound(inside) == 0 {
            return false;
        }
    }
    true
}

/// The stated type of a Local or of a constant. Nothing is noted.
fn stated_type<L: Looks>(looks: &L, e: u64) -> Option<u64>
    requires { e < length (L.contents looks.now).trees }
    ensures { IfSome result (λ t. t < length (L.contents looks.now).trees) }
{
    match looks.view(e) {
        Node::Local(_, ty) => Some(ty),
        Node::Const(name, _) => match looks.means(name) {
            Ok(entry) => Some(entry.stated),
            Err(_) => None,
        },
        _ => None,
    }
}

/// Has a part wait, if there are loose variables in it.
fn add_part<L: Looks>(looks: &L, waiting: &mut Vec<u64>, part: u64) -> Result<(), NoMemory>
    requires part_in { part < length (L.contents looks.now).trees }
    requires waiting_in { All (λ x. x < length (L.contents looks.now).trees) waiting.old.items }
    ensures { All (λ x. x < length (L.contents looks.now).trees) waiting.new.items }
{
    if looks.loose_bound(part) > 0 {
        waiting.push(part)?;
    }
    Ok(())
}

/// Has the parts of a term wait in which there are loose variables.
fn add_parts<L: Looks>(looks: &L, waiting: &mut Vec<u64>, e: u64) -> Result<(), NoMemory>
    requires e_in { e < length (L.contents looks.now).trees }
    requires waiting_in { All (λ x. x < length (L.contents looks.now).trees) waiting.old.items }
    ensures { All (λ x. x < length (L.contents looks.now).trees) waiting.new.items }
{
    match looks.view(e) {
        Node::App(a, b) | Node::Lam(a, b) | Node::Pi(a, b) => {
            add_part(looks, waiting, a)?;
            add_part(looks, waiting, b)
        }
        Node::Let(ty, value, body) => {
            add_part(looks, waiting, ty)?;
            add_part(looks, waiting, value)?;
            add_part(looks, waiting, body)
        }
        Node::Proj(_, _, subject) => add_part(looks, waiting, subject),
        _ => Ok(()),
    }
}

/// How many parts of a term have loose variables, each as often as it stands there, and itself. No
/// more than so many are counted.
fn weight<L: Looks>(looks: &L, e: u64, most: u64) -> Result<u64, NoMemory>
    requires { e < length (L.contents looks.now).trees }
{
    let mut waiting = Vec::new(looks.alloc());
    waiting.push(e)?;
    for count in 0..most {
        match waiting.pop() {
            None => return Ok(count),
            Some(part) => add_parts(looks, &mut waiting, part)?,
        }
    }
    Ok(most)
}

/// How many steps it takes to put arguments into the type of this function, beside what each of
/// them takes: one for each part in which something is put. No more than so many are counted. There
/// are none where the type is not at hand, or has too few Pis that depend on each other.
pub fn steps_of<L: Looks>(looks: &L, function: u64, most: u64) -> Option<u64>
    requires { function < length (L.contents looks.now).trees }
{
    let ty = stated_type(looks, function)?;
    if !is_dependent(looks, ty) {
        return None;
    }
    match weight(looks, ty, most) {
        Ok(steps) => Some(steps),
        Err(_) => None,
    }
}

/// The type of a Local, or of a constant at its levels with the constant's name. Nothing is noted.
fn type_of<L: Looks>(looks: &mut L, e: u64) -> Result<Option<(u64, Option<u64>)>, NoMemory>
    requires e_in { e < length (L.contents looks.old).trees }
    ensures { GivesType L.contents L.rest L.sight looks.old looks.new result e }
{
    match looks.view(e) {
        Node::Local(_, ty) => Ok(Some((ty, None))),
        Node::Const(name, levels) => match looks.means(name) {
            Ok(entry) => match looks.at_levels(entry, levels, entry.stated)? {
                Some(ty) => Ok(Some((ty, Some(name)))),
                None => Ok(None),
            },
            Err(_) => Ok(None),
        },
        _ => Ok(None),
    }
}

/// Looks a name up that means something, if there is one. That its unit was looked at is noted.
fn note<L: Looks>(looks: &mut L, constant: Option<u64>)
    requires meant { IsMeant (L.sight (L.rest looks.old)).basis.place (L.contents looks.old)
        constant }
    ensures contents { L.contents looks.new ≡ L.contents looks.old }
    ensures stays { (L.sight (L.rest looks.new)).basis ≡ (L.sight (L.rest looks.old)).basis }
    ensures last { (L.sight (L.rest looks.new)).last ≡ later (L.sight (L.rest looks.old)).last
        (unit_of (L.sight (L.rest looks.old)).basis.place (L.contents looks.old) constant) }
{
    if let Some(name) = constant {
        match looks.look(name, Rule::UnknownConstant) {
            Ok(_) => {}
            Err(_) => unreachable!(),
        }
    }
}

/// Pis with these domains over what stands inside them, which gets values for its variables.
fn end_pis<L: Looks>(
    looks: &mut L,
    inside: u64,
    domains: &[u64],
    values: &[u64],
) -> Result<u64, NoMemory>
    requires inside_in { inside < length (L.contents looks.old).trees }
    requires domains_in { All (λ x. x < length (L.contents looks.old).trees) domains.now }
    requires values_in { All (λ x. x < length (L.contents looks.old).trees) values.now }
    ensures { MakesTree L.contents L.rest looks.old looks.new result
        (λ t. pis_over (map t domains.now) (put_values (map t values.now) (t inside))) }
{
    let end = put(looks.alloc(), looks, inside, values)?;
    pis(looks, domains, end)
}

/// A type whose Pis are given these arguments, as far as there are both: each domain and what is
/// inside has the arguments already, so that no body has a variable.
fn pushed_type<L: Looks>(looks: &mut L, ty: u64, arguments: &[u64]) -> Result<u64, NoMemory>
    requires ty_in { ty < length (L.contents looks.old).trees }
    requires arguments_in { AreClosed (L.contents looks.old) arguments.now }
    ensures { PushesType L.contents L.rest looks.old looks.new result ty arguments.now }
{
    let mut domains = Vec::new(looks.alloc());
    let mut values = Vec::new(looks.alloc());
    let mut left = arguments;
    let mut inside = ty;
    'arguments: while let Some((argument, others)) = left.split_first() {
        match pi_of(looks, inside) {
            None => return end_pis(looks, inside, &domains, &values),
            Some((domain, body)) => {
                domains.push(put(looks.alloc(), looks, domain, &values)?)?;
                values.push(*argument)?;
                left = others;
                inside = body;
            }
        }
    }
    end_pis(looks, inside, &domains, &values)
}

/// A Local applied to the arguments of a term, whose type has them already. There is none where the
/// type of what they are given to is not at hand, or has too few Pis that depend on each other.
#[inline(never)]
pub fn pushed_spine<L: Looks>(looks: &mut L, e: u64) -> Result<Option<u64>, NoMemory>
    requires e_in { e < length (L.contents looks.old).trees }
    requires closed { loose (tree_at (L.contents looks.old) e) ≡ 0 }
    ensures { RunsAlike L.contents L.rest L.sight looks.old looks.new result e }
{
    let function = head(looks, e);
    let (ty, constant) = match type_of(looks, function)? {
        Some(found) => found,
        None => return Ok(None),
    };
    if !is_dependent(looks, ty) {
        return Ok(None);
    }
    let arguments = args(looks.alloc(), looks, e)?;
    let pushed = pushed_type(looks, ty, &arguments)?;
    let local = looks.make(Node::Local(0, pushed))?;
    let spine = apply(looks, local, &arguments)?;
    note(looks, constant);
    Ok(Some(spine))
}
