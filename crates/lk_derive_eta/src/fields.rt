//! The projections of a term beside the fields of a constructor that is applied.

ghost use Rattle.std.specs.Prelude.{◌≡◌, ◌<◌, length, map, drop, All, IfOk};
ghost use Rattle.lk_tree.specs.Spine.{args as args_of};
ghost use Rattle.lk_store.specs.Contents.{name_at, tree_at, Extends};
ghost use Rattle.lk_eta.specs.Fields.{ArePairs};

use lk_ask::sheet::Pair;
use lk_eta::fields::behind_parameters;
use lk_spine::args;
use lk_store::memory::NoMemory;
use lk_store::node::Node;
use lk_store::terms::Terms;
use std::alloc::Global;

/// Each field with the projection of its number, the first one on top.
fn pair_up<T: Terms>(
    alloc: Global,
    terms: &mut T,
    inductive: u64,
    a: u64,
    fields: &[u64],
) -> Result<Vec<Pair<u64>>, NoMemory>
    requires inductive_in { inductive < length (T.contents terms.old).names }
    requires a_in { a < length (T.contents terms.old).trees }
    requires fields_in { All (λ e. e < length (T.contents terms.old).trees) fields.now }
    ensures keeps { Extends (T.contents terms.old) (T.contents terms.new) }
    ensures rest { T.rest terms.new ≡ T.rest terms.old }
    ensures ok { IfOk result (λ pairs. ArePairs (T.contents terms.new)
        (name_at (T.contents terms.old) inductive) (tree_at (T.contents terms.old) a)
        (map (tree_at (T.contents terms.old)) fields.now) pairs.items) }
{
    let mut left = fields;
    let mut items: Vec<Pair<u64>> = Vec::new(alloc);
    'fields: while let Some((field, others)) = left.split_last() {
        let projection = terms.make(Node::Proj(inductive, others.len() as u64, a))?;
        items.push(Pair {
            left: projection,
            right: *field,
        })?;
        left = others;
    }
    Ok(items)
}

/// The projections of a term beside the fields of a constructor that is applied, which has so many parameters.
pub(crate) fn pairs_of<T: Terms>(
    alloc: Global,
    terms: &mut T,
    inductive: u64,
    parameters: u64,
    a: u64,
    b: u64,
) -> Result<Vec<Pair<u64>>, NoMemory>
    requires inductive_in { inductive < length (T.contents terms.old).names }
    requires a_in { a < length (T.contents terms.old).trees }
    requires b_in { b < length (T.contents terms.old).trees }
    ensures keeps { Extends (T.contents terms.old) (T.contents terms.new) }
    ensures rest { T.rest terms.new ≡ T.rest terms.old }
    ensures ok { IfOk result (λ pairs. ArePairs (T.contents terms.new)
        (name_at (T.contents terms.old) inductive) (tree_at (T.contents terms.old) a)
        (drop parameters (args_of (tree_at (T.contents terms.old) b))) pairs.items) }
{
    let values = args(alloc, terms, b)?;
    pair_up(
        alloc,
        terms,
        inductive,
        a,
        behind_parameters(&values, parameters),
    )
}
