//! The fields of a constructor: each fits in the universe of the block, and is positive.

ghost use Rattle.std.specs.Prelude.{◌≡◌, ◌<◌, ℕ, length, map, All, IfOk};
ghost use Rattle.lk_store.specs.Contents.{level_at, tree_at, Extends};
ghost use Rattle.lk_inductive.specs.BlockSteps.{fits, fits_in, fields_steps};
ghost use Rattle.lk_declaration.specs.Courses.{ComesTo};
ghost use Rattle.lk_block.specs.Frames.{frame_at, IsFrameIn};
ghost use Rattle.lk_block.specs.Shapes.{kind_at, field_at, IsKindIn, IsFieldIn};
ghost use Rattle.lk_block.specs.Fields.{kind_form, field_form, next_field};

use crate::asking::pi_of;
use crate::frame::Frame;
use crate::positive::walk;
use crate::shape::{Field, FieldKind};
use crate::telescope::open_local;
use lk_ask::asks::Asks;
use lk_ask::stop::Stop;
use lk_declaration::asking::{is_at_most, sort_of};
use lk_lists::numbers::{keep, number_after};
use lk_tree::rule::Rule;
use std::alloc::Global;

/// Whether the level of a type's sort is at most this one.
fn fits<A: Asks>(alloc: Global, asks: &mut A, level: u64, domain: u64) -> Result<bool, Stop>
    requires level_in { level < length (A.contents asks.old).levels }
    requires domain_in { domain < length (A.contents asks.old).trees }
    ensures keeps { Extends (A.contents asks.old) (A.contents asks.new) }
    ensures stays { A.standing asks.new ≡ A.standing asks.old }
    ensures outcome { ComesTo (A.standing asks.old)
        (fits (level_at (A.contents asks.old) level) (tree_at (A.contents asks.old) domain))
        (A.left asks.old) (λ r. r) (A.left asks.new) result }
{
    let own = sort_of(asks, domain)?;
    is_at_most(alloc, asks, own, level)
}

/// Whether a type may be that of a field where the block's types have a sort at this level: each may, where that is 0.
fn fits_in<A: Asks>(alloc: Global, asks: &mut A, level: u64, domain: u64) -> Result<bool, Stop>
    requires level_in { level < length (A.contents asks.old).levels }
    requires domain_in { domain < length (A.contents asks.old).trees }
    ensures keeps { Extends (A.contents asks.old) (A.contents asks.new) }
    ensures stays { A.standing asks.new ≡ A.standing asks.old }
    ensures outcome { ComesTo (A.standing asks.old)
        (fits_in (level_at (A.contents asks.old) level) (tree_at (A.contents asks.old) domain))
        (A.left asks.old) (λ r. r) (A.left asks.new) result }
{
    if asks.level_is_zero(level) {
        Ok(true)
    } else {
        fits(alloc, asks, level, domain)
    }
}

/// The kind of a field by its type, which is to fit in the universe of the block. Locals get numbers from this one on.
fn kind_of_field<A: Asks>(
    alloc: Global,
    asks: &mut A,
    frame: &Frame,
    number: u64,
    domain: u64,
) -> Result<FieldKind, Stop>
    requires frame_in { IsFrameIn (A.contents asks.old) frame.now }
    requires domain_in { domain < length (A.contents asks.old).trees }
    ensures keeps { Extends (A.contents asks.old) (A.contents asks.new) }
    ensures stays { A.standing asks.new ≡ A.standing asks.old }
    ensures known { IfOk result (IsKindIn (A.contents asks.new)) }
    ensures outcome { (fuel : ℕ) → A.left asks.old < fuel
        → ComesTo (A.standing asks.old)
        (kind_form fuel (frame_at (A.contents asks.old) frame.now) number
        (tree_at (A.contents asks.old) domain)) (A.left asks.old) (kind_at (A.contents asks.new))
        (A.left asks.new) result }
{
    if fits_in(alloc, asks, frame.sort, domain)? {
        walk(alloc, asks, frame, number, domain)
    } else {
        Err(Stop::No(Rule::FieldUniverse))
    }
}

/// The field that the Local of a number stands for, with its type.
fn field_of<A: Asks>(
    alloc: Global,
    asks: &mut A,
    frame: &Frame,
    number: u64,
    domain: u64,
    variable: u64,
) -> Result<Field, Stop>
    requires frame_in { IsFrameIn (A.contents asks.old) frame.now }
    requires domain_in { domain < length (A.contents asks.old).trees }
    requires variable_in { variable < length (A.contents asks.old).trees }
    ensures keeps { Extends (A.contents asks.old) (A.contents asks.new) }
    ensures stays { A.standing asks.new ≡ A.standing asks.old }
    ensures known { IfOk result (IsFieldIn (A.contents asks.new)) }
    ensures outcome { (fuel : ℕ) → A.left asks.old < fuel
        → ComesTo (A.standing asks.old)
        (field_form fuel (frame_at (A.contents asks.old) frame.now) number
        (tree_at (A.contents asks.old) domain) (tree_at (A.contents asks.old) variable))
        (A.left asks.old) (field_at (A.contents asks.new)) (A.left asks.new) result }
{
    let next = number_after(number)?;
    let kind = kind_of_field(alloc, asks, frame, next, domain)?;
    Ok(Field { variable, kind })
}

/// The field of the Pi that a term's weak head form is to be, and what is left, opened with the Local of a number.
fn next_field<A: Asks>(
    alloc: Global,
    asks: &mut A,
    frame: &Frame,
    number: u64,
    e: u64,
) -> Result<(Field, u64), Stop>
    requires frame_in { IsFrameIn (A.contents asks.old) frame.now }
    requires e_in { e < length (A.contents asks.old).trees }
    ensures keeps { Extends (A.contents asks.old) (A.contents asks.new) }
    ensures stays { A.standing asks.new ≡ A.standing asks.old }
    ensures field_known { IfOk result (λ p. IsFieldIn (A.contents asks.new) p.0) }
    ensures rest_known { IfOk result (λ p. p.1 < length (A.contents asks.new).trees) }
    ensures outcome { (fuel : ℕ) → A.left asks.old < fuel
        → ComesTo (A.standing asks.old)
        (next_field fuel (frame_at (A.contents asks.old) frame.now) number
        (tree_at (A.contents asks.old) e)) (A.left asks.old)
        (λ p. (field_at (A.contents asks.new) p.0, tree_at (A.contents asks.new) p.1))
        (A.left asks.new) result }
{
    let parts = pi_of(asks, e)?;
    let opened = open_local(alloc, asks, number, parts.0, parts.1)?;
    let field = field_of(alloc, asks, frame, number, parts.0, opened.0)?;
    Ok((field, opened.1))
}

/// So many fields of a term, with Locals from a number on, and what is left.
pub fn fields<A: Asks>(
    alloc: Global,
    asks: &mut A,
    frame: &Frame,
    first: u64,
    count: u64,
    e: u64,
) -> Result<(Vec<Field>, u64), Stop>
    requires frame_in { IsFrameIn (A.contents asks.old) frame.now }
    requires e_in { e < length (A.contents asks.old).trees }
    ensures keeps { Extends (A.contents asks.old) (A.contents asks.new) }
    ensures stays { A.standing asks.new ≡ A.standing asks.old }
    ensures fields_known { IfOk result (λ t. All (IsFieldIn (A.contents asks.new)) t.0.items) }
    ensures rest_known { IfOk result (λ t. t.1 < length (A.contents asks.new).trees) }
    ensures outcome { (fuel : ℕ) → A.left asks.old < fuel
        → ComesTo (A.standing asks.old)
        (fields_steps fuel (frame_at (A.contents asks.old) frame.now) first count
        (tree_at (A.contents asks.old) e)) (A.left asks.old)
        (λ t. (map (field_at (A.contents asks.new)) t.0.items, tree_at (A.contents asks.new) t.1))
        (A.left asks.new) result }
{
    let mut found: Vec<Field> = Vec::new(alloc);
    let mut number = first;
    let mut left = count;
    let mut rest = e;
    'fields: while left > 0 {
        let next = next_field(alloc, asks, frame, number, rest)?;
        number = keep(&mut found, next.0, number)?;
        rest = next.1;
        left -= 1;
    }
    Ok((found, rest))
}
