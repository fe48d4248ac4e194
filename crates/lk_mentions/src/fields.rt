//! Whether the fields of a constructor are plain.

ghost use Rattle.std.specs.Prelude.{◌≡◌, ◌<◌, ℕ, List, All, length, IfOk, IfSome};
ghost use Rattle.lk_tree.specs.Tree.{Name};
ghost use Rattle.lk_rulebook.specs.Structures.{has_plain_fields, has_plain_fields_after};
ghost use Rattle.lk_store.specs.Contents.{tree_at};
ghost use Rattle.lk_mentions.specs.Names.{names_at};
ghost use Rattle.lk_mentions.specs.Fields.{plain_rest};

use crate::names::Names;
use crate::part::Met;
use crate::pis::head_pi;
use crate::walk::is_clear;
use lk_rows::table::Table;
use lk_store::memory::NoMemory;
use lk_store::terms::Terms;
use std::alloc::Global;

/// The term behind so many Pis, if they all stand at the head. It ends with the term, however great the count is.
fn behind_pis<T: Terms>(terms: &T, count: u64, e: u64) -> Option<u64>
    requires { e < length (T.contents terms.now).trees }
    ensures known { IfSome result (λ r. r < length (T.contents terms.now).trees) }
    ensures rest { (ns : List Name) → (n : ℕ)
        → has_plain_fields_after ns count n (tree_at (T.contents terms.now) e)
        ≡ plain_rest (T.contents terms.now) ns n result }
{
    let mut rest = e;
    let mut left = count;
    'pis: while left > 0 {
        match head_pi(terms, rest) {
            None => return None,
            Some(pi) => {
                rest = pi.body;
                left -= 1;
            }
        }
    }
    Some(rest)
}

/// Whether so many Pis stand at the head whose domains mention none of the names. Parts that several domains share are
/// looked at once.
fn has_plain_head<T: Terms>(
    alloc: Global,
    terms: &T,
    names: &Names,
    count: u64,
    e: u64,
) -> Result<bool, NoMemory>
    requires names_in { All (λ n. n < length (T.contents terms.now).names) names.now }
    requires tree_in { e < length (T.contents terms.now).trees }
    ensures { IfOk result (λ r. r ≡ has_plain_fields
        (names_at (T.contents terms.now) names.now) count (tree_at (T.contents terms.now) e)) }
{
    let mut met: Table<Met> = Table::new(alloc);
    let mut rest = e;
    let mut left = count;
    'fields: while left > 0 {
        match head_pi(terms, rest) {
            None => return Ok(false),
            Some(pi) => {
                if !is_clear(alloc, terms, names, &mut met, pi.domain)? {
                    return Ok(false);
                }
                rest = pi.body;
                left -= 1;
            }
        }
    }
    Ok(true)
}

/// Whether so many Pis stand at the head of a constructor's type, those of its parameters, and then so many of its
/// fields, whose domains mention none of the names. The counts may be any numbers: the walk ends with the term.
pub fn has_plain_fields<T: Terms>(
    alloc: Global,
    terms: &T,
    names: &Names,
    parameters: u64,
    fields: u64,
    e: u64,
) -> Result<bool, NoMemory>
    requires names_in { All (λ n. n < length (T.contents terms.now).names) names.now }
    requires tree_in { e < length (T.contents terms.now).trees }
    ensures { IfOk result (λ r. r ≡ has_plain_fields_after
        (names_at (T.contents terms.now) names.now) parameters fields
        (tree_at (T.contents terms.now) e)) }
{
    match behind_pis(terms, parameters, e) {
        None => Ok(false),
        Some(rest) => has_plain_head(alloc, terms, names, fields, rest),
    }
}
