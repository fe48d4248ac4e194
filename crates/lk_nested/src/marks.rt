//! Whether terms mention one of a block's names, kept of each part, so that what terms share is looked through once.

ghost use Rattle.std.specs.Prelude.{◌≡◌, ◌<◌, ◌||◌, length, All, IfOk, OnOk};
ghost use Rattle.lk_tree.specs.Mentions.{mentions};
ghost use Rattle.lk_store.specs.Contents.{tree_at, tree_of, IsIn};
ghost use Rattle.lk_mentions.specs.Names.{names_at};
ghost use Rattle.lk_nested.specs.Marks.{AreMarked};

use lk_mentions::names::{Names, is_one_of};
use lk_mentions::walk::mentions;
use lk_rows::row::Row;
use lk_rows::table::Table;
use lk_seek::Seek;
use lk_seek::tree::{is_leaf, open};
use lk_seek::visit::Visit;
use lk_seek::walk::seek;
use lk_store::hashing::hash_pair;
use lk_store::memory::NoMemory;
use lk_store::node::Node;
use lk_store::terms::Terms;
use std::alloc::Global;

/// A term that was looked through, and whether it mentions one of the names.
#[derive(Clone, Copy)]
pub struct Mark {
    pub tree: u64,
    pub mentions: bool,
}

impl Row for Mark {
    type Key = u64;

    ghost key = { λ m. m.tree };

    ghost use Rattle.lk_mentions.specs.Parts.{hash_of_tree};

    ghost hash = { hash_of_tree };

    fn hash_of(seed: u64, wanted: &u64) -> u64 {
        hash_pair(seed, *wanted, 0)
    }

    fn own_hash(&self, seed: u64) -> u64 {
        hash_pair(seed, self.tree, 0)
    }

    fn has(&self, wanted: &u64) -> bool {
        self.tree == *wanted
    }
}

/// Whether a term mentions one of the names. One that was marked is not looked through.
pub fn is_mentioning<T: Terms>(
    alloc: Global,
    terms: &T,
    names: &Names,
    marks: &Table<Mark>,
    e: u64,
) -> Result<bool, NoMemory>
    requires names_in { All (λ n. n < length (T.contents terms.now).names) names.now }
    requires tree_in { e < length (T.contents terms.now).trees }
    requires marks { AreMarked (T.contents terms.now)
        (names_at (T.contents terms.now) names.now) marks.now }
    ensures { IfOk result (λ r. r ≡ mentions (names_at (T.contents terms.now) names.now)
        (tree_at (T.contents terms.now) e)) }
{
    match marks.find(&e) {
        Some(i) => Ok(marks.get(i).mentions),
        None => mentions(alloc, terms, names, e),
    }
}

/// Whether one of two terms mentions one of the names.
fn is_either_mentioning<T: Terms>(
    alloc: Global,
    terms: &T,
    names: &Names,
    marks: &Table<Mark>,
    a: u64,
    b: u64,
) -> Result<bool, NoMemory>
    requires names_in { All (λ n. n < length (T.contents terms.now).names) names.now }
    requires a_in { a < length (T.contents terms.now).trees }
    requires b_in { b < length (T.contents terms.now).trees }
    requires marks { AreMarked (T.contents terms.now)
        (names_at (T.contents terms.now) names.now) marks.now }
    ensures { IfOk result (λ r. r ≡ (mentions (names_at (T.contents terms.now) names.now)
        (tree_at (T.contents terms.now) a) || mentions
        (names_at (T.contents terms.now) names.now) (tree_at (T.contents terms.now) b))) }
{
    if is_mentioning(alloc, terms, names, marks, a)? {
        return Ok(true);
    }
    is_mentioning(alloc, terms, names, marks, b)
}

/// Whether a node mentions one of the names, in itself or in one of its parts.
fn is_node_mentioning<T: Terms>(
    alloc: Global,
    terms: &T,
    names: &Names,
    marks: &Table<Mark>,
    node: Node,
) -> Result<bool, NoMemory>
    requires names_in { All (λ n. n < length (T.contents terms.now).names) names.now }
    requires node_in { IsIn (T.contents terms.now) node }
    requires marks { AreMarked (T.contents terms.now)
        (names_at (T.contents terms.now) names.now) marks.now }
    ensures { IfOk result (λ r. r ≡ mentions (names_at (T.contents terms.now) names.now)
        (tree_of (T.contents terms.now) node)) }
{
    match node {
        Node::Const(name, _) => Ok(is_one_of(terms, names, name)),
        Node::App(f, a) => is_either_mentioning(alloc, terms, names, marks, f, a),
        Node::Lam(ty, body) => is_either_mentioning(alloc, terms, names, marks, ty, body),
        Node::Pi(ty, body) => is_either_mentioning(alloc, terms, names, marks, ty, body),
        Node::Let(ty, value, body) => {
            if is_mentioning(alloc, terms, names, marks, ty)? {
                return Ok(true);
            }
            is_either_mentioning(alloc, terms, names, marks, value, body)
        }
        Node::Proj(name, _, subject) => {
            if is_one_of(terms, names, name) {
                return Ok(true);
            }
            is_mentioning(alloc, terms, names, marks, subject)
        }
        Node::Var(_) | Node::Sort(_) | Node::Lit(_) => Ok(false),
        Node::Wide | Node::Str(_) | Node::Local(_, _) => Ok(false),
    }
}

/// Looks for nothing, and marks each part that it leaves.
#[derive(Drop)]
struct Marking<'a, T: Terms> {
    pub alloc: Global,
    pub terms: &'a T,
    pub names: &'a Names,
    ghost names_in: { All (λ n. n < length (T.contents terms.now).names) names.now },
}

impl<'a, T: Terms> Seek for Marking<'a, T> {
    type Part = u64;

    type Kept = Table<Mark>;

    type Stop = NoMemory;

    ghost use Rattle.lk_seek.proofs.Truths.{truth_laws};
    ghost use Rattle.lk_mentions.specs.Names.{names_at};
    ghost use Rattle.lk_nested.specs.Marks.{all_parts, AreMarked};

    ghost sought = { λ s. all_parts (T.contents s.terms.now) };

    ghost are_kept = { λ s marks. AreMarked (T.contents s.terms.now)
        (names_at (T.contents s.terms.now) s.names.now) marks };

    ghost laws = { λ s. truth_laws };

    fn look(
        &self,
        marks: &mut Table<Mark>,
        stack: &mut Vec<Visit<u64>>,
        e: u64,
    ) -> Result<bool, NoMemory> {
        let node = self.terms.view(e);
        if is_leaf(node) {
            return Ok(false);
        }
        if let Some(_) = marks.find(&e) {
            return Ok(false);
        }
        open(stack, e, node)?;
        Ok(false)
    }

    fn keep(&self, marks: &mut Table<Mark>, e: u64) -> Result<(), NoMemory> {
        // What stands beyond the terms of today may become any term.
        if e >= self.terms.len() {
            return Ok(());
        }
        let node = self.terms.view(e);
        let mentions = is_node_mentioning(self.alloc, self.terms, self.names, marks, node)?;
        marks.push(Mark { tree: e, mentions })?;
        Ok(())
    }
}

/// Marks a term and its parts.
pub fn mark_parts<T: Terms>(
    alloc: Global,
    terms: &T,
    names: &Names,
    marks: &mut Table<Mark>,
    e: u64,
) -> Result<(), NoMemory>
    requires names_in { All (λ n. n < length (T.contents terms.now).names) names.now }
    requires tree_in { e < length (T.contents terms.now).trees }
    requires marks { AreMarked (T.contents terms.now)
        (names_at (T.contents terms.now) names.now) marks.old }
    ensures { OnOk result (AreMarked (T.contents terms.now)
        (names_at (T.contents terms.now) names.now) marks.new) }
{
    let seeker = Marking {
        alloc,
        terms,
        names,
    };
    let _found = seek(alloc, &seeker, marks, e)?;
    Ok(())
}
