//! The cases that are enough for a level, listed part by part.
//!
//! Each assignment has one below it whose case is listed for the level, and under which the level is no less. So a level
//! that is at most another in the listed cases is so always. Of a parameter they are the case without it and the case
//! with it; of a greatest they are those of both sides; of an `imax` those of its right side, and those of its left side
//! each with one parameter by which the right side is above 0.

ghost use Rattle.std.specs.Prelude.{◌≡◌, ◌<◌, ◌≤◌, ℕ, true, length, slice_index_or, take, IfOk, OnOk};
ghost use Rattle.lk_store.specs.Contents.{level_at, level_of};
ghost use Rattle.lk_store.specs.declared.node.LevelNode.TheVariants.{Param as param_node};
ghost use Rattle.lk_level_order.specs.Digits.{has_one, with_one};
ghost use Rattle.lk_level_order.specs.Placing.{IsOrder};
ghost use Rattle.lk_level_order.specs.Covers.{IsListed, IsAmong, IsJoined, IsOfNone, Grows, IsCover};
ghost use Rattle.lk_level_order.specs.Covers.{AreInRows, AreCovers, AreEnoughWithin, OverNames};

use crate::placing::PlacedLevel;
use crate::support::{NEVER, SURELY, Support, either, is_by, is_met, put_digit};
use crate::values::Pair;
use lk_rows::row::Row;
use lk_rows::table::Table;
use lk_store::hashing::hash_pair;
use lk_store::memory::NoMemory;
use lk_store::node::LevelNode;

/// So many cases are listed at most.
const MOST_LISTED: u64 = 1 << 18;

/// A case in a list, which is known by the row at which it begins.
#[derive(Clone, Copy, PartialEq, Eq)]
pub struct Chosen {
    pub list: u64,
    pub case: u64,
}

impl Row for Chosen {
    type Key = Chosen;

    ghost key = { λ c. c };

    ghost use Rattle.lk_level_order.specs.Covers.{hash_of_chosen};

    ghost hash = { hash_of_chosen };

    fn hash_of(seed: u64, wanted: &Chosen) -> u64 {
        hash_pair(seed, wanted.list, wanted.case)
    }

    fn own_hash(&self, seed: u64) -> u64 {
        hash_pair(seed, self.list, self.case)
    }

    fn has(&self, wanted: &Chosen) -> bool {
        self == wanted
    }
}

/// Where a list of cases stands.
#[derive(Clone, Copy)]
pub struct Cases {
    pub first: u64,
    pub end: u64,
}

/// The cases that are enough for a level, and when it is above 0.
#[derive(Clone, Copy)]
pub struct Cover {
    pub cases: Cases,
    pub support: Support,
}

/// Whether a list has the case.
fn has_case(rows: &Table<Chosen>, cases: Cases, case: u64) -> bool
    ensures { result ≡ true → IsAmong rows.now cases case }
{
    let wanted = Chosen {
        list: cases.first,
        case,
    };
    match rows.find(&wanted) {
        Some(i) => cases.first <= i && i < cases.end,
        None => false,
    }
}

/// Whether a list has all cases of another one.
fn has_all(rows: &Table<Chosen>, cases: Cases, other: Cases) -> bool
    requires { other.end ≤ length rows.now }
    ensures { result ≡ true → (case : ℕ) → IsAmong rows.now other case
        → IsAmong rows.now cases case }
{
    for i in other.first..other.end {
        let case = rows.get(i).case;
        if !has_case(rows, cases, case) {
            return false;
        }
    }
    true
}

/// Adds a case to the last list, where it is not there yet.
fn add(rows: &mut Table<Chosen>, list: u64, case: u64) -> Result<(), NoMemory>
    requires { list ≤ length rows.old }
    ensures grows { OnOk result (Grows rows.old rows.new) }
    ensures listed { OnOk result (IsListed rows.new list (length rows.new) case) }
{
    let cases = Cases {
        first: list,
        end: rows.len(),
    };
    if has_case(rows, cases, case) {
        return Ok(());
    }
    if rows.len() >= MOST_LISTED {
        return Err(NoMemory);
    }
    rows.push(Chosen { list, case })?;
    Ok(())
}

/// Adds a case with each parameter by which a level is above 0.
fn add_each(
    rows: &mut Table<Chosen>,
    list: u64,
    case: u64,
    support: Support,
    rights: u64,
) -> Result<(), NoMemory>
    requires few { rights ≤ 20 }
    requires list_in { list ≤ length rows.old }
    ensures grows { OnOk result (Grows rows.old rows.new) }
    ensures listed { OnOk result ((n : ℕ) → n < rights → has_one support.by n ≡ true
        → IsListed rows.new list (length rows.new) (with_one case n)) }
{
    for n in 0..rights {
        if is_by(support, n) {
            add(rows, list, put_digit(case, n))?;
        }
    }
    Ok(())
}

/// Adds a case where a level is above 0 in it, and else the case with each parameter by which the level is.
fn add_joined(
    rows: &mut Table<Chosen>,
    list: u64,
    case: u64,
    support: Support,
    rights: u64,
) -> Result<(), NoMemory>
    requires few { rights ≤ 20 }
    requires list_in { list ≤ length rows.old }
    ensures grows { OnOk result (Grows rows.old rows.new) }
    ensures joined { OnOk result
        (IsJoined rights support (IsListed rows.new list (length rows.new)) case) }
{
    if is_met(support, case, rights) {
        return add(rows, list, case);
    }
    add_each(rows, list, case, support, rights)
}

/// Adds the cases of another list, each in which a level is above 0, or with a parameter by which it is.
fn join(
    rows: &mut Table<Chosen>,
    list: u64,
    from: Cases,
    support: Support,
    rights: u64,
) -> Result<(), NoMemory>
    requires few { rights ≤ 20 }
    requires list_in { list ≤ length rows.old }
    requires from_in { from.end ≤ length rows.old }
    ensures grows { OnOk result (Grows rows.old rows.new) }
    ensures joined { OnOk result ((case : ℕ) → IsAmong rows.old from case
        → IsJoined rights support (IsListed rows.new list (length rows.new)) case) }
{
    for i in from.first..from.end {
        let case = rows.get(i).case;
        add_joined(rows, list, case, support, rights)?;
    }
    Ok(())
}

/// A list of the cases of two lists: those of the first one in which a level is above 0, or with a parameter by which
/// it is. Where all are taken and one of the two has them, it is that one.
fn both(
    rows: &mut Table<Chosen>,
    joined: Cases,
    support: Support,
    own: Cases,
    rights: u64,
) -> Result<Cases, NoMemory>
    requires few { rights ≤ 20 }
    requires joined_in { joined.end ≤ length rows.old }
    requires own_in { own.end ≤ length rows.old }
    ensures grows { OnOk result (Grows rows.old rows.new) }
    ensures in_rows { IfOk result (λ c. c.end ≤ length rows.new) }
    ensures joined { IfOk result (λ c. (case : ℕ) → IsAmong rows.old joined case
        → IsJoined rights support (IsAmong rows.new c) case) }
    ensures own { IfOk result (λ c. (case : ℕ) → IsAmong rows.old own case
        → IsAmong rows.new c case) }
{
    if support.surely && has_all(rows, joined, own) {
        return Ok(joined);
    }
    if support.surely && has_all(rows, own, joined) {
        return Ok(own);
    }
    let first = rows.len();
    join(rows, first, joined, support, rights)?;
    join(rows, first, own, SURELY, rights)?;
    Ok(Cases {
        first,
        end: rows.len(),
    })
}

/// The cover of the level at a place. The parts of a level come before it.
fn cover_at(covers: &[Cover], place: u64) -> Result<Cover, NoMemory>
    ensures { IfOk result (λ c. (place < length covers.now)
        × ((d : Cover) → c ≡ slice_index_or covers.now place d)) }
{
    match covers.get(place as usize) {
        Some(cover) => Ok(*cover),
        None => Err(NoMemory),
    }
}

/// The cover of a level that is 0 in all cases, or whose parameter is in none.
fn one_case(rows: &mut Table<Chosen>) -> Result<Cover, NoMemory>
    ensures grows { OnOk result (Grows rows.old rows.new) }
    ensures in_rows { IfOk result (λ c. c.cases.end ≤ length rows.new) }
    ensures cover { IfOk result (λ c. IsOfNone rows.new c) }
{
    let first = rows.len();
    add(rows, first, 0)?;
    Ok(Cover {
        cases: Cases {
            first,
            end: rows.len(),
        },
        support: NEVER,
    })
}

/// The cover of a parameter.
fn param_cover(rows: &mut Table<Chosen>, n: u64, rights: u64, count: u64) -> Result<Cover, NoMemory>
    requires { rights ≤ 20 }
    ensures grows { OnOk result (Grows rows.old rows.new) }
    ensures in_rows { IfOk result (λ c. c.cases.end ≤ length rows.new) }
    ensures cover { IfOk result (λ c. OverNames rights count
        (λ d. IsCover (take rights d.names) rows.new c (level_of d (param_node n)))) }
{
    if n >= count {
        return Err(NoMemory);
    }
    if n >= rights {
        return one_case(rows);
    }
    let first = rows.len();
    let with = put_digit(0, n);
    add(rows, first, 0)?;
    add(rows, first, with)?;
    Ok(Cover {
        cases: Cases {
            first,
            end: rows.len(),
        },
        support: Support {
            surely: false,
            by: with,
        },
    })
}

/// The cover of a level whose parts have theirs.
fn node_cover(
    rows: &mut Table<Chosen>,
    covers: &[Cover],
    node: LevelNode,
    rights: u64,
    count: u64,
) -> Result<Cover, NoMemory>
    requires few { rights ≤ 20 }
    requires known { AreInRows rows.old covers.now }
    ensures grows { OnOk result (Grows rows.old rows.new) }
    ensures in_rows { IfOk result (λ c. c.cases.end ≤ length rows.new) }
    ensures cover { IfOk result (λ c. OverNames rights count
        (λ d. AreCovers d rights rows.old covers.now
        → IsCover (take rights d.names) rows.new c (level_of d node))) }
{
    match node {
        LevelNode::Zero => one_case(rows),
        LevelNode::Succ(a) => {
            let below = cover_at(covers, a)?;
            Ok(Cover {
                cases: below.cases,
                support: SURELY,
            })
        }
        LevelNode::Max(a, b) => {
            let left = cover_at(covers, a)?;
            let right = cover_at(covers, b)?;
            let cases = both(rows, left.cases, SURELY, right.cases, rights)?;
            let support = either(left.support, right.support);
            Ok(Cover { cases, support })
        }
        LevelNode::IMax(a, b) => {
            let left = cover_at(covers, a)?;
            let right = cover_at(covers, b)?;
            let cases = both(rows, left.cases, right.support, right.cases, rights)?;
            Ok(Cover {
                cases,
                support: right.support,
            })
        }
        LevelNode::Param(n) => param_cover(rows, n, rights, count),
    }
}

/// Lists the cases that are enough for each level of an order, one after another.
fn list_all(
    rows: &mut Table<Chosen>,
    covers: &mut Vec<Cover>,
    parts: &Table<PlacedLevel>,
    rights: u64,
    count: u64,
) -> Result<(), NoMemory>
    requires { rights ≤ 20 }
    ensures in_rows { OnOk result (AreInRows rows.new covers.new.items) }
    ensures covers { OnOk result (OverNames rights count
        (λ d. IsOrder d parts.now → AreCovers d rights rows.new covers.new.items)) }
{
    covers.clear();
    for place in 0..parts.len() {
        let node = parts.get(place).node;
        let cover = node_cover(rows, covers, node, rights, count)?;
        covers.push(cover)?;
    }
    Ok(())
}

/// Lists the cases that are enough for both of two levels of an order.
pub fn list_cases(
    rows: &mut Table<Chosen>,
    covers: &mut Vec<Cover>,
    parts: &Table<PlacedLevel>,
    places: Pair,
    rights: u64,
    count: u64,
) -> Result<Cases, NoMemory>
    requires { rights ≤ 20 }
    ensures in_rows { IfOk result (λ c. c.end ≤ length rows.new) }
    ensures left { IfOk result (λ c. OverNames rights count (λ d. IsOrder d parts.now
        → AreEnoughWithin (take rights d.names) (IsAmong rows.new c) (level_at d places.left))) }
    ensures right { IfOk result (λ c. OverNames rights count (λ d. IsOrder d parts.now
        → AreEnoughWithin (take rights d.names) (IsAmong rows.new c) (level_at d places.right))) }
{
    list_all(rows, covers, parts, rights, count)?;
    let left = cover_at(covers, places.left)?;
    let right = cover_at(covers, places.right)?;
    both(rows, left.cases, SURELY, right.cases, rights)
}
