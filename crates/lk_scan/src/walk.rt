//! Whether each level parameter of a tree is declared: a walk over its parts, each once.

ghost use Rattle.std.specs.Prelude.{◌≡◌, ◌<◌, List, length, IfOk, OnOk, true, false, Ok};
ghost use Rattle.std.proofs.Props.{props};
ghost use Rattle.lk_tree.specs.Tree.{Name};
ghost use Rattle.lk_tree.specs.Scan.{tree_over};
ghost use Rattle.lk_store.specs.Contents.{tree_at};
ghost use Rattle.lk_store.specs.Store.{contents_of};
ghost use Rattle.lk_seek.specs.Visits.{IsLooked, IsOpened};
ghost use Rattle.lk_scan.specs.Parts.{IsPartIn, part_over, part_has_params};
ghost use Rattle.lk_scan.specs.Walks.{IsDeclared, names_of, AreOver, AreWithin, undeclared};

use crate::declared::{Declared, is_declared};
use crate::part::{Met, TermPart, push_level_parts, push_list_parts, push_parts};
use lk_rows::table::Table;
use lk_seek::Seek;
use lk_seek::visit::{Visit, push};
use lk_seek::walk::seek;
use lk_store::base_store::BaseStore;
use lk_store::memory::NoMemory;
use lk_store::node::LevelNode;
use lk_store::terms::Terms;
use std::alloc::Global;

/// Opens a tree.
fn open_tree(base: &BaseStore, stack: &mut Vec<Visit<TermPart>>, e: u64) -> Result<(), NoMemory>
    requires { e < length (contents_of base.now).trees }
    ensures { OnOk result ((ps : List Name) → IsOpened (undeclared (contents_of base.now) ps)
        (TermPart.Tree e) stack.old.items stack.new.items) }
{
    push(stack, Visit::Leave(TermPart::Tree(e)))?;
    push_parts(stack, base.view(e))?;
    Ok(())
}

/// Opens a list of levels.
fn open_levels(base: &BaseStore, stack: &mut Vec<Visit<TermPart>>, ls: u64) -> Result<(), NoMemory>
    requires { ls < length (contents_of base.now).lists }
    ensures { OnOk result ((ps : List Name) → IsOpened (undeclared (contents_of base.now) ps)
        (TermPart.Levels ls) stack.old.items stack.new.items) }
{
    push(stack, Visit::Leave(TermPart::Levels(ls)))?;
    push_list_parts(stack, base.levels(ls))?;
    Ok(())
}

/// Opens a level, unless it is a level parameter that is not declared.
fn open_level(
    base: &BaseStore,
    declared: &Declared,
    stack: &mut Vec<Visit<TermPart>>,
    l: u64,
) -> Result<bool, NoMemory>
    requires declared { IsDeclared (contents_of base.now) declared.now }
    requires level_in { l < length (contents_of base.now).levels }
    ensures { IsLooked (undeclared (contents_of base.now)
        (names_of (contents_of base.now) declared.now)) (TermPart.Level l)
        stack.old.items stack.new.items result }
{
    let node = base.level(l);
    if let LevelNode::Param(n) = node {
        if !is_declared(base, declared, n) {
            return Ok(true);
        }
    }
    push(stack, Visit::Leave(TermPart::Level(l)))?;
    push_level_parts(stack, node)?;
    Ok(false)
}

/// Opens a part, unless it is a level parameter that is not declared.
fn open(
    base: &BaseStore,
    declared: &Declared,
    stack: &mut Vec<Visit<TermPart>>,
    part: TermPart,
) -> Result<bool, NoMemory>
    requires declared { IsDeclared (contents_of base.now) declared.now }
    requires part_in { IsPartIn (contents_of base.now) part }
    ensures { IsLooked (undeclared (contents_of base.now)
        (names_of (contents_of base.now) declared.now)) part
        stack.old.items stack.new.items result }
{
    match part {
        TermPart::Tree(e) => {
            open_tree(base, stack, e)?;
            Ok(false)
        }
        TermPart::Level(l) => open_level(base, declared, stack, l),
        TermPart::Levels(ls) => {
            open_levels(base, stack, ls)?;
            Ok(false)
        }
    }
}

/// Whether a level parameter stands in a part.
fn has_params(base: &BaseStore, part: TermPart) -> bool
    requires { IsPartIn (contents_of base.now) part }
    ensures { result ≡ part_has_params (contents_of base.now) part }
{
    match part {
        TermPart::Tree(e) => base.has_params(e),
        TermPart::Level(l) => base.level_has_params(l),
        TermPart::Levels(ls) => base.levels_have_params(ls),
    }
}

/// Whether a part has to be looked through: a level parameter stands in it, and it was not met.
fn is_open(base: &BaseStore, met: &Table<Met>, part: TermPart) -> bool
    requires { IsPartIn (contents_of base.now) part }
    ensures { (ps : List Name) → AreOver (contents_of base.now) ps met.now → result ≡ false
        → part_over (contents_of base.now) ps part ≡ true }
{
    has_params(base, part) && met.find(&part).is_none()
}

/// A level parameter that is not declared, in the trees of a library's store.
#[derive(Drop)]
struct Undeclared<'a> {
    pub base: &'a BaseStore,
    pub declared: &'a Declared,
    ghost are: { IsDeclared (contents_of base.now) declared.now } by { Prim.hlevel props },
}

impl<'a> Seek for Undeclared<'a> {
    type Part = TermPart;

    type Kept = Table<Met>;

    type Stop = NoMemory;

    ghost use Rattle.lk_store.specs.Store.{contents_of};
    ghost use Rattle.lk_seek.proofs.Truths.{truth_laws};
    ghost use Rattle.lk_scan.specs.Walks.{AreWithin, names_of, undeclared};

    ghost sought = { λ s. let c = contents_of s.base.now in undeclared c
        (names_of c s.declared.now) };

    ghost are_kept = { λ s met. AreWithin (contents_of s.base.now) s.declared.now met };

    ghost laws = { λ s. truth_laws };

    fn look(
        &self,
        met: &mut Table<Met>,
        stack: &mut Vec<Visit<TermPart>>,
        part: TermPart,
    ) -> Result<bool, NoMemory> {
        if !is_open(self.base, met, part) {
            return Ok(false);
        }
        open(self.base, self.declared, stack, part)
    }

    fn keep(&self, met: &mut Table<Met>, part: TermPart) -> Result<(), NoMemory> {
        met.push(Met { part })?;
        Ok(())
    }
}

/// Whether each level parameter of a tree is declared. What was met under the same level parameters
/// is not walked again.
pub fn is_over(
    alloc: Global,
    base: &BaseStore,
    declared: &Declared,
    met: &mut Table<Met>,
    tree: u64,
) -> Result<bool, NoMemory>
    requires declared { IsDeclared (contents_of base.now) declared.now }
    requires met { AreWithin (contents_of base.now) declared.now met.old }
    requires tree_in { tree < length (contents_of base.now).trees }
    ensures over { IfOk result (λ r. r ≡ tree_over (names_of (contents_of base.now) declared.now)
        (tree_at (contents_of base.now) tree)) }
    ensures met { IfOk result (λ r. AreWithin (contents_of base.now) declared.now met.new) }
{
    let seeker = Undeclared { base, declared };
    let found = seek(alloc, &seeker, met, TermPart::Tree(tree))?;
    Ok(!found)
}
