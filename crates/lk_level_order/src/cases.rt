//! The cases of two levels: which of the parameters inside right sides are above 0.

ghost use Rattle.std.specs.Prelude.{◌≡◌, ◌≢◌, ◌<◌, ◌≤◌, ◌^◌, ℕ, true, false, length, slice_index, slice_set, IfOk, OnOk};
ghost use Rattle.lk_store.specs.Contents.{Contents, level_at};
ghost use Rattle.lk_level_order.specs.Placing.{IsOrder};
ghost use Rattle.lk_level_order.specs.Values.{OverOrders, digits};
ghost use Rattle.lk_level_order.specs.Cases.{asked_where, IsTestedOf, IsRefutedOf};
ghost use Rattle.lk_level_order.specs.Covers.{IsAmong};

use crate::listing::{Cases, Chosen};
use crate::placing::PlacedLevel;
use crate::relation::{Relation, relates};
use crate::values::{Pair, above, pair_values};
use lk_rows::table::Table;
use lk_store::memory::NoMemory;
use std::alloc::Global;

/// What is asked of the levels at two places of an order.
#[derive(Clone, Copy)]
pub struct Question {
    pub relation: Relation,
    pub places: Pair,
}

/// Whether the relation holds where one parameter has another value.
fn far_relates(
    question: Question,
    parts: &Table<PlacedLevel>,
    assignment: &mut [u64],
    values: &mut Vec<u64>,
    p: usize,
    far: u64,
) -> Result<bool, NoMemory>
    requires { p < length assignment.old }
    ensures keeps { OnOk result (assignment.new ≡ assignment.old) }
    ensures related { IfOk result (λ r. OverOrders parts.now assignment.old
        (λ d. r ≡ asked_where d question (slice_set assignment.old p far))) }
{
    let least = assignment[p];
    assignment[p] = far;
    let found = pair_values(parts, assignment, values, question.places)?;
    assignment[p] = least;
    Ok(relates(question.relation, found.left, found.right))
}

/// The same, for each parameter but those of the first that are 0 in this case.
fn far_holds(
    question: Question,
    parts: &Table<PlacedLevel>,
    rights: usize,
    assignment: &mut [u64],
    values: &mut Vec<u64>,
    p: usize,
    far: u64,
) -> Result<bool, NoMemory>
    requires { p < length assignment.old }
    ensures keeps { OnOk result (assignment.new ≡ assignment.old) }
    ensures yes { IfOk result (λ r. r ≡ true → (p < rights → slice_index assignment.old p ≢ 0)
        → OverOrders parts.now assignment.old
        (λ d. asked_where d question (slice_set assignment.old p far) ≡ true)) }
    ensures no { IfOk result (λ r. r ≡ false
        → OverOrders parts.now assignment.old
        (λ d. asked_where d question (slice_set assignment.old p far) ≡ false)) }
{
    if p < rights && assignment[p] == 0 {
        return Ok(true);
    }
    far_relates(question, parts, assignment, values, p, far)
}

/// Whether the relation holds in a case: at its least values, and where one parameter is far above all else.
fn case_holds(
    question: Question,
    parts: &Table<PlacedLevel>,
    rights: usize,
    assignment: &mut [u64],
    values: &mut Vec<u64>,
) -> Result<bool, NoMemory>
    ensures yes { IfOk result (λ r. r ≡ true
        → OverOrders parts.now assignment.old (λ d. IsTestedOf d question rights assignment.old)) }
    ensures no { IfOk result (λ r. r ≡ false
        → OverOrders parts.now assignment.old (λ d. IsRefutedOf d question)) }
{
    let least = pair_values(parts, assignment, values, question.places)?;
    let related = relates(question.relation, least.left, least.right);
    if !related {
        return Ok(false);
    }
    let far = above(least.right)?;
    for p in 0..assignment.len() {
        let holds = far_holds(question, parts, rights, assignment, values, p, far)?;
        if !holds {
            return Ok(false);
        }
    }
    Ok(true)
}

/// Sets the least values of a case: the digits of its number.
fn set_case(assignment: &mut Vec<u64>, case: u64, count: u64) -> Result<(), NoMemory>
    ensures { OnOk result (assignment.new.items ≡ digits count case) }
{
    assignment.clear();
    let mut rest = case;
    for at in 0..count {
        assignment.push(rest % 2)?;
        rest /= 2;
    }
    Ok(())
}

/// Whether the relation holds in the case of this number.
pub fn number_holds(
    question: Question,
    parts: &Table<PlacedLevel>,
    rights: u64,
    count: u64,
    case: u64,
    assignment: &mut Vec<u64>,
    values: &mut Vec<u64>,
) -> Result<bool, NoMemory>
    ensures yes { IfOk result (λ r. r ≡ true → (d : Contents) → IsOrder d parts.now → count
        ≡ length d.names → IsTestedOf d question rights (digits count case)) }
    ensures no { IfOk result (λ r. r ≡ false → (d : Contents) → IsOrder d parts.now → count
        ≡ length d.names → IsRefutedOf d question) }
{
    set_case(assignment, case, count)?;
    case_holds(question, parts, rights as usize, assignment, values)
}

/// Whether the relation holds in all cases of the first so many parameters.
pub fn cases_hold(
    alloc: Global,
    question: Question,
    parts: &Table<PlacedLevel>,
    rights: u64,
    count: u64,
) -> Result<bool, NoMemory>
    requires { rights ≤ 20 }
    ensures yes { IfOk result (λ r. r ≡ true → (d : Contents) → IsOrder d parts.now → count
        ≡ length d.names → (case : ℕ) → case < 2 ^ rights
        → IsTestedOf d question rights (digits count case)) }
    ensures no { IfOk result (λ r. r ≡ false → (d : Contents) → IsOrder d parts.now → count
        ≡ length d.names → IsRefutedOf d question) }
{
    let mut assignment: Vec<u64> = Vec::new(alloc);
    let mut values: Vec<u64> = Vec::new(alloc);
    for case in 0..1u64 << rights {
        let holds = number_holds(
            question,
            parts,
            rights,
            count,
            case,
            &mut assignment,
            &mut values,
        )?;
        if !holds {
            return Ok(false);
        }
    }
    Ok(true)
}

/// Whether the relation holds in all cases of a list.
pub fn listed_hold(
    alloc: Global,
    question: Question,
    parts: &Table<PlacedLevel>,
    rows: &Table<Chosen>,
    cases: Cases,
    rights: u64,
    count: u64,
) -> Result<bool, NoMemory>
    requires { cases.end ≤ length rows.now }
    ensures yes { IfOk result (λ r. r ≡ true → (d : Contents) → IsOrder d parts.now → count
        ≡ length d.names → (case : ℕ) → IsAmong rows.now cases case
        → IsTestedOf d question rights (digits count case)) }
    ensures no { IfOk result (λ r. r ≡ false → (d : Contents) → IsOrder d parts.now → count
        ≡ length d.names → IsRefutedOf d question) }
{
    let mut assignment: Vec<u64> = Vec::new(alloc);
    let mut values: Vec<u64> = Vec::new(alloc);
    for i in cases.first..cases.end {
        let case = rows.get(i).case;
        let holds = number_holds(
            question,
            parts,
            rights,
            count,
            case,
            &mut assignment,
            &mut values,
        )?;
        if !holds {
            return Ok(false);
        }
    }
    Ok(true)
}
