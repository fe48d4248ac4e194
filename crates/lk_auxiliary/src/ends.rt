//! The end of an auxiliary type: its indices, and the level of its sort.

ghost use Rattle.std.specs.Prelude.{◌≡◌, ◌<◌, length, map, All, IfOk};
ghost use Rattle.lk_store.specs.Contents.{level_at, tree_at, Extends};
ghost use Rattle.lk_inductive.specs.BlockSteps.{as_level};
ghost use Rattle.lk_declaration.specs.Courses.{Settles};
ghost use Rattle.lk_auxiliary.specs.Ends.{end_form};

use crate::past::stated_pis;
use lk_ask::stop::Stop;
use lk_store::node::Node;
use lk_store::terms::Terms;
use lk_tree::rule::Rule;
use std::alloc::Global;

/// The level of a sort (`BlockShape`).
fn level_of<T: Terms>(terms: &T, e: u64) -> Result<u64, Stop>
    requires { e < length (T.contents terms.now).trees }
    ensures known { IfOk result (λ l. l < length (T.contents terms.now).levels) }
    ensures level { Settles (as_level (tree_at (T.contents terms.now) e))
        (level_at (T.contents terms.now)) result }
{
    match terms.view(e) {
        Node::Sort(level) => Ok(level),
        _ => Err(Stop::No(Rule::BlockShape)),
    }
}

/// So many indices of a type, Locals from a number on, and the level of the sort that stands past them.
pub fn end_of<T: Terms>(
    alloc: Global,
    terms: &mut T,
    first: u64,
    count: u64,
    e: u64,
) -> Result<(Vec<u64>, u64), Stop>
    requires { e < length (T.contents terms.old).trees }
    ensures keeps { Extends (T.contents terms.old) (T.contents terms.new) }
    ensures rest { T.rest terms.new ≡ T.rest terms.old }
    ensures indices_known { IfOk result (λ t. All
        (λ x. x < length (T.contents terms.new).trees) t.0.items) }
    ensures level_known { IfOk result (λ t. t.1 < length (T.contents terms.new).levels) }
    ensures end { Settles (end_form first count (tree_at (T.contents terms.old) e))
        (λ t. (
          map (tree_at (T.contents terms.new)) t.0.items,
          level_at (T.contents terms.new) t.1,
        ))
        result }
{
    let opened = stated_pis(alloc, terms, first, count, e)?;
    let level = level_of(terms, opened.1)?;
    Ok((opened.0, level))
}
