//! Whether a type of a block occurs nested in the types of its constructors: among the arguments of
//! another type, which has just these arguments as its parameters.

ghost use Rattle.std.specs.Prelude.{◌≡◌, ◌<◌, Some, true, false, List, length, All, IfOk, IfSome};
ghost use Rattle.lk_tree.specs.Tree.{Name};
ghost use Rattle.lk_tree.specs.Mentions.{is_one_of, mentions};
ghost use Rattle.lk_tree.specs.Spine.{head, args};
ghost use Rattle.lk_store.specs.Contents.{name_at, tree_at};
ghost use Rattle.lk_mentions.specs.Names.{names_at};
ghost use Rattle.lk_nested.specs.Findings.{Finds};
ghost use Rattle.lk_nested.specs.Marks.{AreMarked};
ghost use Rattle.lk_lists.specs.Names.{named_at};
ghost use Rattle.lk_nested.specs.Nestings.{constant_in, constant_name, nested_in, AreWalked};
ghost use Rattle.lk_nested.specs.Nestings.{IsSpine, IsHeadTest, IsTreeTest, AreSpines};

use crate::marks::{Mark, is_mentioning, mark_parts};
use crate::spines::{Spine, function_of, keep_function, spine_of};
use lk_ask::asks::Asks;
use lk_ask::stop::Stop;
use lk_mentions::names::{Names, is_one_of};
use lk_mentions::part::Met;
use lk_rows::table::Table;
use lk_seek::Seek;
use lk_seek::tree::{is_leaf, open};
use lk_seek::visit::Visit;
use lk_seek::walk::seek;
use lk_store::node::Node;
use lk_store::terms::Terms;
use std::alloc::Global;

/// What is kept of the terms that were walked, so that a part which terms share is walked once.
#[derive(Drop)]
pub struct Walked {
    /// Those that hold no nested occurrence.
    pub flat: Table<Met>,
    /// The heads of applications.
    pub spines: Table<Spine>,
}

/// The name of a node that is a constant.
fn constant_in(node: Node) -> Option<u64>
    ensures { result ≡ constant_in node }
{
    match node {
        Node::Const(name, _) => Some(name),
        _ => None,
    }
}

/// The name of a term that is a constant.
pub fn constant_name<T: Terms>(terms: &T, e: u64) -> Option<u64>
    requires { e < length (T.contents terms.now).trees }
    ensures known { IfSome result (λ n. n < length (T.contents terms.now).names) }
    ensures name { named_at (T.contents terms.now) result
        ≡ constant_name (tree_at (T.contents terms.now) e) }
{
    constant_in(terms.view(e))
}

/// Whether a constant that is no type of the block, applied to arguments one of which mentions a type of the block, is a
/// nested occurrence: the constant is a type with this number of parameters.
fn is_nested_type<A: Asks>(asks: &A, name: u64, spine: Spine) -> Result<bool, Stop>
    requires name_in { name < length (A.contents asks.now).names }
    requires spine { IsSpine (A.contents asks.now) spine.tree spine }
    ensures { (ns : List Name) → constant_name (head (tree_at (A.contents asks.now) spine.tree))
        ≡ Some (name_at (A.contents asks.now) name)
        → is_one_of ns (name_at (A.contents asks.now) name) ≡ false
        → mentions ns (tree_at (A.contents asks.now) spine.tree) ≡ true
        → IsHeadTest (A.standing asks.now).place ns
        (head (tree_at (A.contents asks.now) spine.tree))
        (args (tree_at (A.contents asks.now) spine.tree)) result }
{
    match asks.parameter_count(name) {
        Ok(None) => Ok(false),
        Ok(Some(parameters)) => {
            if parameters != spine.count {
                return Ok(false);
            }
            Ok(true)
        }
        Err(rule) => Err(Stop::No(rule)),
    }
}

/// Whether an application that mentions a type of the block is a nested occurrence itself.
pub fn is_nested_application<A: Asks>(asks: &A, names: &Names, spine: Spine) -> Result<bool, Stop>
    requires names_in { All (λ n. n < length (A.contents asks.now).names) names.now }
    requires tree_in { spine.tree < length (A.contents asks.now).trees }
    requires spine { IsSpine (A.contents asks.now) spine.tree spine }
    requires mentioning { mentions (names_at (A.contents asks.now) names.now)
        (tree_at (A.contents asks.now) spine.tree) ≡ true }
    ensures { IsHeadTest (A.standing asks.now).place (names_at (A.contents asks.now) names.now)
        (head (tree_at (A.contents asks.now) spine.tree))
        (args (tree_at (A.contents asks.now) spine.tree)) result }
{
    match constant_name(asks, spine.head) {
        None => Ok(false),
        Some(name) => {
            if is_one_of(asks, names, name) {
                return Ok(false);
            }
            is_nested_type(asks, name, spine)
        }
    }
}

/// Whether a term that mentions a type of the block is a nested occurrence itself. What is at its head is kept for its
/// function.
fn is_nested<A: Asks>(
    asks: &A,
    names: &Names,
    spines: &mut Table<Spine>,
    e: u64,
) -> Result<bool, Stop>
    requires names_in { All (λ n. n < length (A.contents asks.now).names) names.now }
    requires tree_in { e < length (A.contents asks.now).trees }
    requires spines { AreSpines (A.contents asks.now) spines.old }
    requires mentioning { mentions (names_at (A.contents asks.now) names.now)
        (tree_at (A.contents asks.now) e) ≡ true }
    ensures spines { IfOk result (λ r. AreSpines (A.contents asks.now) spines.new) }
    ensures test { IsTreeTest (A.standing asks.now).place (names_at (A.contents asks.now) names.now)
        (tree_at (A.contents asks.now) e) result }
{
    match function_of(asks, e) {
        None => Ok(false),
        Some(f) => {
            let spine = spine_of(asks, spines, e)?;
            keep_function(asks, spines, spine, f)?;
            is_nested_application(asks, names, spine)
        }
    }
}

/// A nested occurrence of one of the names.
#[derive(Drop)]
struct Nested<'a, A: Asks> {
    pub alloc: Global,
    pub asks: &'a A,
    pub names: &'a Names,
    pub marks: &'a Table<Mark>,
    ghost names_in: { All (λ n. n < length (A.contents asks.now).names) names.now },
    ghost marks_are: { AreMarked (A.contents asks.now)
        (names_at (A.contents asks.now) names.now) marks.now },
}

impl<'a, A: Asks> Seek for Nested<'a, A> {
    type Part = u64;

    type Kept = Walked;

    type Stop = Stop;

    ghost use Rattle.lk_mentions.specs.Names.{names_at};
    ghost use Rattle.lk_nested.specs.Nestings.{nested, AreWalked};
    ghost use Rattle.lk_nested.specs.Held.{nestings_laws};

    ghost sought = { λ s. let c = A.contents s.asks.now in
        nested (A.standing s.asks.now).place (names_at c s.names.now) c };

    ghost are_kept = { λ s walked. AreWalked (A.standing s.asks.now).place
        (A.contents s.asks.now) s.names.now walked };

    ghost laws = { λ s. nestings_laws };

    fn look(&self, walked: &mut Walked, stack: &mut Vec<Visit<u64>>, e: u64) -> Result<bool, Stop> {
        let node = self.asks.view(e);
        if is_leaf(node) {
            return Ok(false);
        }
        if let Some(_) = walked.flat.find(&e) {
            return Ok(false);
        }
        if !is_mentioning(self.alloc, self.asks, self.names, self.marks, e)? {
            return Ok(false);
        }
        if is_nested(self.asks, self.names, &mut walked.spines, e)? {
            return Ok(true);
        }
        open(stack, e, node)?;
        Ok(false)
    }

    fn keep(&self, walked: &mut Walked, e: u64) -> Result<(), Stop> {
        walked.flat.push(Met { tree: e })?;
        Ok(())
    }
}

/// Whether a term of which all parts are marked holds a nested occurrence. The walk takes the outermost first.
fn seek_nested<A: Asks>(
    alloc: Global,
    asks: &A,
    names: &Names,
    marks: &Table<Mark>,
    walked: &mut Walked,
    e: u64,
) -> Result<bool, Stop>
    requires names_in { All (λ n. n < length (A.contents asks.now).names) names.now }
    requires tree_in { e < length (A.contents asks.now).trees }
    requires marks { AreMarked (A.contents asks.now)
        (names_at (A.contents asks.now) names.now) marks.now }
    requires walked { AreWalked (A.standing asks.now).place
        (A.contents asks.now) names.now walked.old }
    ensures walked { IfOk result (λ r. AreWalked (A.standing asks.now).place
        (A.contents asks.now) names.now walked.new) }
    ensures found { Finds (nested_in (A.standing asks.now).place
        (names_at (A.contents asks.now) names.now)
        (tree_at (A.contents asks.now) e)) (λ r. r) result }
{
    let seeker = Nested {
        alloc,
        asks,
        names,
        marks,
    };
    seek(alloc, &seeker, walked, e)
}

/// Whether a term holds a nested occurrence. Its parts are marked first.
pub fn holds_nested<A: Asks>(
    alloc: Global,
    asks: &A,
    names: &Names,
    marks: &mut Table<Mark>,
    walked: &mut Walked,
    e: u64,
) -> Result<bool, Stop>
    requires names_in { All (λ n. n < length (A.contents asks.now).names) names.now }
    requires tree_in { e < length (A.contents asks.now).trees }
    requires marks { AreMarked (A.contents asks.now)
        (names_at (A.contents asks.now) names.now) marks.old }
    requires walked { AreWalked (A.standing asks.now).place
        (A.contents asks.now) names.now walked.old }
    ensures marks { IfOk result (λ r. AreMarked (A.contents asks.now)
        (names_at (A.contents asks.now) names.now) marks.new) }
    ensures walked { IfOk result (λ r. AreWalked (A.standing asks.now).place
        (A.contents asks.now) names.now walked.new) }
    ensures found { Finds (nested_in (A.standing asks.now).place
        (names_at (A.contents asks.now) names.now)
        (tree_at (A.contents asks.now) e)) (λ r. r) result }
{
    mark_parts(alloc, asks, names, marks, e)?;
    seek_nested(alloc, asks, names, marks, walked, e)
}
