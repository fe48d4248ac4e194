//! Two levels of an order compared, by as few cases as are known to be enough.

ghost use Rattle.std.specs.Prelude.{◌≡◌, ◌≤◌, Some, length, IfOk};
ghost use Rattle.lk_store.specs.Contents.{Contents, level_at};
ghost use Rattle.lk_level_order.specs.Placing.{IsOrder};
ghost use Rattle.lk_level_order.specs.Compared.{compared_by, HasParameters};

use crate::cases::{Question, cases_hold, listed_hold};
use crate::listing::{Chosen, Cover, list_cases};
use crate::placing::PlacedLevel;
use lk_rows::table::Table;
use lk_store::memory::NoMemory;
use std::alloc::Global;

/// With up to so many parameters inside right sides all cases are gone through: to list fewer of them takes longer.
const FEW: u64 = 4;

/// Whether the relation holds of the levels at two places. Where the list of cases would be too long, all are gone
/// through, which takes no memory.
pub fn holds(
    alloc: Global,
    question: Question,
    parts: &Table<PlacedLevel>,
    rights: u64,
    count: u64,
) -> Result<bool, NoMemory>
    requires { rights ≤ 20 }
    ensures { IfOk result (λ r. (d : Contents) → IsOrder d parts.now → count ≡ length d.names
        → HasParameters d.names rights (level_at d question.places.left)
        (level_at d question.places.right)
        → compared_by question.relation (level_at d question.places.left)
        (level_at d question.places.right) ≡ Some r) }
{
    if rights <= FEW {
        return cases_hold(alloc, question, parts, rights, count);
    }
    let mut rows: Table<Chosen> = Table::new(alloc);
    let mut covers: Vec<Cover> = Vec::new(alloc);
    match list_cases(
        &mut rows,
        &mut covers,
        parts,
        question.places,
        rights,
        count,
    ) {
        Ok(cases) => listed_hold(alloc, question, parts, &rows, cases, rights, count),
        Err(_) => cases_hold(alloc, question, parts, rights, count),
    }
}
