//! Two levels compared.

ghost use Rattle.std.specs.Prelude.{◌≡◌, ◌<◌, ◌≤◌, [], Some, None, length, IfOk, IfErr};
ghost use Rattle.lk_tree.specs.LevelTest.{level_test, level_le_test};
ghost use Rattle.lk_store.specs.Contents.{level_at};
ghost use Rattle.lk_level_order.specs.Parameters.{names_of};
ghost use Rattle.lk_level_order.specs.Compared.{compared_by, HasParameters, OnWidth};

use crate::cases::Question;
use crate::enough::holds;
use crate::gathering::{Side, gather};
use crate::parameters::Parameter;
use crate::placing::{PlacedLevel, place, place_of};
use crate::relation::Relation;
use crate::values::Pair;
use lk_rows::table::Table;
use lk_store::memory::NoMemory;
use lk_store::terms::Terms;
use std::alloc::Global;

/// So many different parameters may stand inside right sides of `imax`.
const MOST: u64 = 20;

/// Why two levels are not compared.
#[derive(Clone, Copy)]
pub enum LevelError {
    /// More than 20 different parameters stand inside right sides of `imax` in the two together.
    Width,
    NoMemory,
}

impl From<NoMemory> for LevelError {
    ghost use Rattle.std.specs.Prelude.{◌≡◌};
    ghost use Rattle.lk_level_order.specs.declared.compared.LevelError.TheVariants.{NoMemory};

    ghost from_gives = { λ _ e. e ≡ NoMemory };

    fn from(_e: NoMemory) -> LevelError {
        LevelError::NoMemory
    }
}

/// The parameters of two levels, of which one has some, first those inside right sides: how many these are.
fn gather_some<T: Terms>(
    alloc: Global,
    terms: &T,
    names: &mut Table<Parameter>,
    a: u64,
    b: u64,
) -> Result<u64, NoMemory>
    requires a_in { a < length (T.contents terms.now).levels }
    requires b_in { b < length (T.contents terms.now).levels }
    requires none { names.old ≡ [] }
    ensures { IfOk result (λ k. HasParameters (names_of (T.contents terms.now) names.new) k
        (level_at (T.contents terms.now) a) (level_at (T.contents terms.now) b)) }
{
    gather(
        alloc,
        terms,
        names,
        Side {
            level: a,
            inside: false,
        },
    )?;
    gather(
        alloc,
        terms,
        names,
        Side {
            level: b,
            inside: false,
        },
    )?;
    let rights = names.len();
    gather(
        alloc,
        terms,
        names,
        Side {
            level: a,
            inside: true,
        },
    )?;
    gather(
        alloc,
        terms,
        names,
        Side {
            level: b,
            inside: true,
        },
    )?;
    Ok(rights)
}

/// The parameters of two levels, first those inside right sides: how many these are. Most levels have none.
fn gather_both<T: Terms>(
    alloc: Global,
    terms: &T,
    names: &mut Table<Parameter>,
    a: u64,
    b: u64,
) -> Result<u64, NoMemory>
    requires a_in { a < length (T.contents terms.now).levels }
    requires b_in { b < length (T.contents terms.now).levels }
    requires none { names.old ≡ [] }
    ensures { IfOk result (λ k. HasParameters (names_of (T.contents terms.now) names.new) k
        (level_at (T.contents terms.now) a) (level_at (T.contents terms.now) b)) }
{
    if terms.level_has_params(a) || terms.level_has_params(b) {
        return gather_some(alloc, terms, names, a, b);
    }
    Ok(0)
}

/// Whether the relation holds of two levels, by cases of the first so many parameters.
fn related<T: Terms>(
    alloc: Global,
    terms: &T,
    relation: Relation,
    names: &Table<Parameter>,
    rights: u64,
    a: u64,
    b: u64,
) -> Result<bool, NoMemory>
    requires a_in { a < length (T.contents terms.now).levels }
    requires b_in { b < length (T.contents terms.now).levels }
    requires gathered { HasParameters (names_of (T.contents terms.now) names.now) rights
        (level_at (T.contents terms.now) a) (level_at (T.contents terms.now) b) }
    requires few { rights ≤ 20 }
    ensures { IfOk result (λ r. compared_by relation (level_at (T.contents terms.now) a)
        (level_at (T.contents terms.now) b) ≡ Some r) }
{
    let mut parts: Table<PlacedLevel> = Table::new(alloc);
    place(alloc, terms, names, &mut parts, a)?;
    place(alloc, terms, names, &mut parts, b)?;
    let left = place_of(&parts, a)?;
    let right = place_of(&parts, b)?;
    let question = Question {
        relation,
        places: Pair { left, right },
    };
    holds(alloc, question, &parts, rights, names.len())
}

/// Whether the relation holds of two levels under every assignment.
fn compared<T: Terms>(
    alloc: Global,
    terms: &T,
    relation: Relation,
    a: u64,
    b: u64,
) -> Result<bool, LevelError>
    requires a_in { a < length (T.contents terms.now).levels }
    requires b_in { b < length (T.contents terms.now).levels }
    ensures ok { IfOk result (λ r. compared_by relation (level_at (T.contents terms.now) a)
        (level_at (T.contents terms.now) b) ≡ Some r) }
    ensures width { IfErr result (λ e. OnWidth e
        (compared_by relation (level_at (T.contents terms.now) a)
        (level_at (T.contents terms.now) b) ≡ None)) }
{
    let mut names: Table<Parameter> = Table::new(alloc);
    let rights = gather_both(alloc, terms, &mut names, a, b)?;
    if rights > MOST {
        return Err(LevelError::Width);
    }
    if a == b {
        return Ok(true);
    }
    let related = related(alloc, terms, relation, &names, rights, a, b)?;
    Ok(related)
}

/// Whether two levels are equal under every assignment.
pub fn equal<T: Terms>(alloc: Global, terms: &T, a: u64, b: u64) -> Result<bool, LevelError>
    requires a_in { a < length (T.contents terms.now).levels }
    requires b_in { b < length (T.contents terms.now).levels }
    ensures ok { IfOk result (λ r. level_test (level_at (T.contents terms.now) a)
        (level_at (T.contents terms.now) b) ≡ Some r) }
    ensures width { IfErr result (λ e. OnWidth e
        (level_test (level_at (T.contents terms.now) a) (level_at (T.contents terms.now) b)
        ≡ None)) }
{
    compared(alloc, terms, Relation::Equal, a, b)
}

/// Whether the left level is at most the right one under every assignment.
pub fn leq<T: Terms>(alloc: Global, terms: &T, a: u64, b: u64) -> Result<bool, LevelError>
    requires a_in { a < length (T.contents terms.now).levels }
    requires b_in { b < length (T.contents terms.now).levels }
    ensures ok { IfOk result (λ r. level_le_test (level_at (T.contents terms.now) a)
        (level_at (T.contents terms.now) b) ≡ Some r) }
    ensures width { IfErr result (λ e. OnWidth e
        (level_le_test (level_at (T.contents terms.now) a) (level_at (T.contents terms.now) b)
        ≡ None)) }
{
    compared(alloc, terms, Relation::AtMost, a, b)
}
