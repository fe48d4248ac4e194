//! What the constants of a term mean in a library.

ghost use Rattle.std.specs.Prelude.{◌≡◌, ◌<◌, length, IfOk, IfErr, IfSome, Some, All};
ghost use Rattle.lk_tree.specs.Tree.{Name};
ghost use Rattle.lk_rulebook.specs.Place.{Place, Entry as PlainEntry};
ghost use Rattle.lk_store.specs.Contents.{name_at, list_at, tree_at, Extends};
ghost use Rattle.lk_store.specs.Store.{contents_of};
ghost use Rattle.lk_env.specs.Entries.{IsEntryIn, library_entry};
ghost use Rattle.lk_env.specs.Scopes.{place_in};
ghost use Rattle.lk_env.specs.Entries.{MeansNothing};
ghost use Rattle.lk_env.specs.StoredScope.{lent_by};
ghost use Rattle.lk_ask.specs.Constants.{IsFound, IsRefusedBy, IsAtLevels, IsLevels};
ghost use Rattle.lk_ask.specs.Instances.{AreInstances, PutsAtLevels};

use crate::instances::{Instances, TreeAt};
use lk_env::entry::{Entry, Site};
use lk_env::lends::Lends;
use lk_env::lent::levels_of as parameters_of;
use lk_env::scope::Scope;
use lk_meter::Meter;
use lk_store::memory::NoMemory;
use lk_store::node::ListNode;
use lk_store::terms::Terms;
use lk_subst::levels::put_levels_in;
use lk_tree::rule::Rule;
use std::alloc::Global;

/// The rule by which a look-up is refused: `rule` is why the name means nothing, and `missing` the rule where nothing gives
/// it.
fn refusal(missing: Rule, rule: Rule) -> Rule
    ensures { (w : Place) (x : Name) → MeansNothing w x rule → IsRefusedBy missing w x result }
{
    match rule {
        Rule::UnknownConstant => missing,
        _ => match missing {
            Rule::QuotShape => Rule::QuotShape,
            _ => rule,
        },
    }
}

/// Looks a constant up: what its name means at the site. That its unit was looked at is noted. Where nothing gives the name
/// it is refused by the rule `missing`.
pub(crate) fn look_up<T: Terms>(
    scope: &Scope<'_>,
    site: &Site,
    terms: &T,
    name: u64,
    missing: Rule,
    meter: &mut Meter,
) -> Result<Entry, Rule>
    requires over { Extends (contents_of scope.now.tables) (T.contents terms.now) }
    requires name_in { name < length (T.contents terms.now).names }
    ensures known { IfOk result (IsEntryIn (contents_of scope.now.tables)) }
    ensures left { meter.new.left ≡ meter.old.left }
    ensures found { IfOk result (λ e. IsFound (lent_by scope.now) (place_in scope.now site.now)
        (name_at (T.contents terms.now) name) meter.old.last e meter.new.last) }
    ensures refused { IfErr result (IsRefusedBy missing (place_in scope.now site.now)
        (name_at (T.contents terms.now) name)) }
{
    match scope.means(site, terms, name) {
        Ok(entry) => {
            meter.note(entry.origin);
            Ok(entry)
        }
        Err(rule) => Err(refusal(missing, rule)),
    }
}

/// The levels of a list, in order.
fn levels_of<T: Terms>(alloc: Global, terms: &T, levels: u64) -> Result<Vec<u64>, NoMemory>
    requires { levels < length (T.contents terms.now).lists }
    ensures { IfOk result (λ found. IsLevels (T.contents terms.now) found.items
        (list_at (T.contents terms.now) levels)) }
{
    let mut found = Vec::new(alloc);
    let mut rest = levels;
    'list: while let ListNode::Cons(first, others) = terms.levels(rest) {
        found.push(first)?;
        rest = others;
    }
    Ok(found)
}

/// A tree with levels in place of parameters. There is none where they are not as many.
fn put_in<T: Terms>(
    alloc: Global,
    terms: &mut T,
    params: &[u64],
    tree: TreeAt,
) -> Result<Option<u64>, NoMemory>
    requires params_in { All (λ p. p < length (T.contents terms.old).names) params.now }
    requires levels_in { tree.levels < length (T.contents terms.old).lists }
    requires e_in { tree.e < length (T.contents terms.old).trees }
    ensures { PutsAtLevels T.contents T.rest terms.old terms.new params.now tree result }
{
    let values = levels_of(alloc, terms, tree.levels)?;
    if values.len() != params.len() {
        return Ok(None);
    }
    let r = put_levels_in(alloc, terms, params, &values, tree.e)?;
    Ok(Some(r))
}

/// The same, where what was made before is not made again.
fn find_or_put<T: Terms>(
    alloc: Global,
    terms: &mut T,
    instances: &mut Instances,
    params: &[u64],
    tree: TreeAt,
) -> Result<Option<u64>, NoMemory>
    requires params_in { All (λ p. p < length (T.contents terms.old).names) params.now }
    requires levels_in { tree.levels < length (T.contents terms.old).lists }
    requires e_in { tree.e < length (T.contents terms.old).trees }
    requires instances { AreInstances (T.contents terms.old) instances.old.table }
    ensures puts { PutsAtLevels T.contents T.rest terms.old terms.new params.now tree result }
    ensures instances { AreInstances (T.contents terms.new) instances.new.table }
{
    if !terms.has_params(tree.e) {
        return put_in(alloc, terms, params, tree);
    }
    if let Some(made) = instances.find(params, tree) {
        return Ok(Some(made));
    }
    let put = put_in(alloc, terms, params, tree)?;
    if let Some(made) = put {
        instances.keep(alloc, params, tree, made);
    }
    Ok(put)
}

/// A tree of a constant's unit at the levels that the constant has. There is none where they are not as many as the
/// unit has level parameters.
pub(crate) fn at_levels<L: Lends, T: Terms>(
    alloc: Global,
    library: &L,
    terms: &mut T,
    instances: &mut Instances,
    entry: Entry,
    tree: TreeAt,
) -> Result<Option<u64>, NoMemory>
    requires over { Extends (contents_of (L.lent library.now).tables) (T.contents terms.old) }
    requires levels_in { tree.levels < length (T.contents terms.old).lists }
    requires e_in { tree.e < length (T.contents terms.old).trees }
    requires instances { AreInstances (T.contents terms.old) instances.old.table }
    ensures keeps { Extends (T.contents terms.old) (T.contents terms.new) }
    ensures rest { T.rest terms.new ≡ T.rest terms.old }
    ensures known { IfOk result (λ r. IfSome r (λ t. t < length (T.contents terms.new).trees)) }
    ensures ok { IfOk result (λ r. (g : PlainEntry)
        → library_entry (L.lent library.now) entry ≡ Some g
        → IsAtLevels (T.contents terms.new) g.levels (list_at (T.contents terms.old) tree.levels)
        (tree_at (T.contents terms.old) tree.e) r) }
    ensures instances { AreInstances (T.contents terms.new) instances.new.table }
{
    let params = parameters_of(library, entry);
    find_or_put(alloc, terms, instances, params, tree)
}
