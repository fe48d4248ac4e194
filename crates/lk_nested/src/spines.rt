//! Heads and numbers of arguments, kept by term: those of an application are known from those of its function.

ghost use Rattle.std.specs.Prelude.{◌≡◌, ◌<◌, ◌+◌, length, Some, IfOk, OnOk, IfSome};
ghost use Rattle.lk_store.specs.Contents.{tree_at};
ghost use Rattle.lk_nested.specs.Nestings.{function_of, function_at, function_in, IsSpine, AreSpines};

use lk_rows::row::Row;
use lk_rows::table::Table;
use lk_store::hashing::hash_pair;
use lk_store::memory::NoMemory;
use lk_store::node::Node;
use lk_store::terms::Terms;

/// A term, what stands at its head, and how many arguments that has.
#[derive(Clone, Copy)]
pub struct Spine {
    pub tree: u64,
    pub head: u64,
    pub count: u64,
}

impl Row for Spine {
    type Key = u64;

    ghost key = { λ s. s.tree };

    ghost use Rattle.lk_mentions.specs.Parts.{hash_of_tree};

    ghost hash = { hash_of_tree };

    fn hash_of(seed: u64, wanted: &u64) -> u64 {
        hash_pair(seed, *wanted, 0)
    }

    fn own_hash(&self, seed: u64) -> u64 {
        hash_pair(seed, self.tree, 0)
    }

    fn has(&self, wanted: &u64) -> bool {
        self.tree == *wanted
    }
}

/// The function of a node that is an application.
fn function_in(node: Node) -> Option<u64>
    ensures { result ≡ function_in node }
{
    match node {
        Node::App(f, _) => Some(f),
        _ => None,
    }
}

/// The function of a term that is an application.
pub fn function_of<T: Terms>(terms: &T, e: u64) -> Option<u64>
    requires { e < length (T.contents terms.now).trees }
    ensures known { IfSome result (λ f. f < length (T.contents terms.now).trees) }
    ensures function { function_at (T.contents terms.now) result
        ≡ function_of (tree_at (T.contents terms.now) e) }
{
    function_in(terms.view(e))
}

/// A sum of counts. No term in memory has more arguments than a number of 64 bits tells.
fn sum(a: u64, b: u64) -> Result<u64, NoMemory>
    ensures { IfOk result (λ n. n ≡ a + b) }
{
    match a.checked_add(b) {
        Some(n) => Ok(n),
        None => Err(NoMemory),
    }
}

/// The head of a term and the number of its arguments: the walk down ends where a term is known.
pub fn spine_of<T: Terms>(terms: &T, spines: &Table<Spine>, e: u64) -> Result<Spine, NoMemory>
    requires tree_in { e < length (T.contents terms.now).trees }
    requires spines { AreSpines (T.contents terms.now) spines.now }
    ensures tree { IfOk result (λ s. s.tree ≡ e) }
    ensures spine { IfOk result (IsSpine (T.contents terms.now) e) }
{
    let mut at = e;
    let mut count: u64 = 0;
    'down: while let Some(f) = function_of(terms, at) {
        if let Some(i) = spines.find(&at) {
            let known = *spines.get(i);
            return Ok(Spine {
                tree: e,
                head: known.head,
                count: sum(count, known.count)?,
            });
        }
        count = sum(count, 1)?;
        at = f;
    }
    Ok(Spine {
        tree: e,
        head: at,
        count,
    })
}

/// Keeps the head of the function of an application, which has one argument less.
pub fn keep_function<T: Terms>(
    terms: &T,
    spines: &mut Table<Spine>,
    spine: Spine,
    f: u64,
) -> Result<(), NoMemory>
    requires spine { IsSpine (T.contents terms.now) spine.tree spine }
    requires function { function_of (tree_at (T.contents terms.now) spine.tree)
        ≡ Some (tree_at (T.contents terms.now) f) }
    requires spines { AreSpines (T.contents terms.now) spines.old }
    ensures spines { OnOk result (AreSpines (T.contents terms.now) spines.new) }
{
    let _terms = terms;
    if let Some(_) = spines.find(&f) {
        return Ok(());
    }
    spines.push(Spine {
        tree: f,
        head: spine.head,
        count: spine.count - 1,
    })?;
    Ok(())
}
