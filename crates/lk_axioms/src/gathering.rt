//! The walk that gathers axioms, tree by tree.

ghost use Rattle.std.specs.Prelude.{◌≡◌, ◌<◌, ◌+◌, List, length, IfOk, OnOk};
ghost use Rattle.lk_rulebook.specs.Units.{LibraryUnit};
ghost use Rattle.lk_store.specs.Contents.{Contents, name_at, tree_at, tree_of, IsIn};
ghost use Rattle.lk_store.specs.Store.{contents_of};
ghost use Rattle.lk_seek.specs.Trees.{parts_back};
ghost use Rattle.lk_env.specs.Units.{library_of};
ghost use Rattle.lk_axioms.specs.Lists.{HasEmptySet};
ghost use Rattle.lk_axioms.specs.Gives.{NameGives, TreeGives, IsFinding, cell_at, AreKnown};
ghost use Rattle.lk_axioms.specs.Gathered.{IsRight, IsRightFor, IsUnitNumber, IsMade};
ghost use Rattle.lk_axioms.specs.Gathered.{AreJoined, IsLeft};
ghost use Rattle.lk_axioms.specs.Walks.{IsNodeOf, IsEntered};

use crate::finding::{Finding, NOTHING, NOWHERE, join};
use crate::sets::Sets;
use crate::visit::{Visit, open};
use lk_env::library::Library;
use lk_store::base_store::BaseStore;
use lk_store::memory::NoMemory;
use lk_store::node::Node;
use std::alloc::Global;

/// What is known while the units are gone through in their order.
#[derive(Drop)]
pub(crate) struct Gathering {
    pub sets: Sets,
    /// What was found in each tree of the store.
    pub cells: Vec<Finding>,
    /// The number of each unit's set, of the units that are done.
    pub units: Vec<u32>,
}

impl Gathering {
    /// Begins with these sets. Nothing is known yet of so many trees, and none of so many units is
    /// done.
    pub(crate) fn new(
        alloc: Global,
        sets: Sets,
        trees: u64,
        units: usize,
    ) -> Result<Gathering, NoMemory>
        requires { HasEmptySet sets }
        ensures sets { IfOk result (λ g. g.sets ≡ sets) }
        ensures right { IfOk result (λ g. (c : Contents) (us : List LibraryUnit)
            → length c.trees ≡ trees → IsRight c us 0 g) }
    {
        let mut cells = Vec::new(alloc);
        cells.resize(trees as usize, NOWHERE)?;
        Ok(Gathering {
            sets,
            cells,
            units: Vec::with_capacity(alloc, units)?,
        })
    }
}

/// The axioms of the first unit that gives the name, if it is a unit before this one.
fn named(library: &Library, gathering: &Gathering, unit: u32, name: u64) -> Finding
    requires right { IsRightFor library.now unit gathering.now }
    requires name_in { name < length (contents_of library.now.tables).names }
    requires few { IsUnitNumber unit }
    ensures finding { IsFinding (NameGives (library_of library.now)
        (name_at (contents_of library.now.tables) name)) unit gathering.now.sets result }
    ensures known { unit < result.below }
{
    match library.position_of(name) {
        None => NOTHING,
        Some(p) if p.unit < unit => Finding {
            set: gathering.units[p.unit as usize],
            below: u32::MAX,
        },
        Some(p) => Finding {
            set: 0,
            below: p.unit.saturating_add(1),
        },
    }
}

/// A finding and that of a tree together.
fn join_with(
    alloc: Global,
    gathering: &mut Gathering,
    a: Finding,
    e: u64,
) -> Result<Finding, NoMemory>
    requires a_in { a.set < length gathering.old.sets }
    requires e_in { e < length gathering.old.cells.items }
    requires cell_in { (cell_at gathering.old.cells.items e).set < length gathering.old.sets }
    ensures { IfOk result (AreJoined gathering.old gathering.new a
        (cell_at gathering.old.cells.items e)) }
{
    join(alloc, &mut gathering.sets, a, gathering.cells[e as usize])
}

/// What was found in two trees together.
fn join_parts(alloc: Global, gathering: &mut Gathering, a: u64, b: u64) -> Result<Finding, NoMemory>
    requires a_in { a < length gathering.old.cells.items }
    requires a_cell_in { (cell_at gathering.old.cells.items a).set < length gathering.old.sets }
    requires b_in { b < length gathering.old.cells.items }
    requires b_cell_in { (cell_at gathering.old.cells.items b).set < length gathering.old.sets }
    ensures { IfOk result (AreJoined gathering.old gathering.new
        (cell_at gathering.old.cells.items a) (cell_at gathering.old.cells.items b)) }
{
    let first = gathering.cells[a as usize];
    join_with(alloc, gathering, first, b)
}

/// What is found in the tree of a node whose parts are known.
fn find_in_node(
    alloc: Global,
    library: &Library,
    gathering: &mut Gathering,
    unit: u32,
    node: Node,
) -> Result<Finding, NoMemory>
    requires right { IsRightFor library.now unit gathering.old }
    requires few { IsUnitNumber unit }
    requires node_in { IsIn (contents_of library.now.tables) node }
    requires parts { AreKnown unit gathering.old.cells.items (parts_back node) }
    ensures { IfOk result (IsMade (TreeGives (library_of library.now)
        (tree_of (contents_of library.now.tables) node)) unit gathering.old gathering.new) }
{
    match node {
        Node::Var(_) | Node::Sort(_) | Node::Lit(_) | Node::Wide | Node::Str(_) => Ok(NOTHING),
        Node::Local(_, _) => Ok(NOTHING),
        Node::Const(name, _) => Ok(named(library, gathering, unit, name)),
        Node::Proj(name, _, e) => {
            let own = named(library, gathering, unit, name);
            join_with(alloc, gathering, own, e)
        }
        Node::App(a, b) => join_parts(alloc, gathering, a, b),
        Node::Lam(a, b) => join_parts(alloc, gathering, a, b),
        Node::Pi(a, b) => join_parts(alloc, gathering, a, b),
        Node::Let(a, b, c) => {
            let two = join_parts(alloc, gathering, a, b)?;
            join_with(alloc, gathering, two, c)
        }
    }
}

/// Keeps what is found in a tree whose parts are known.
fn leave(
    alloc: Global,
    library: &Library,
    gathering: &mut Gathering,
    unit: u32,
    e: u64,
    node: Node,
) -> Result<(), NoMemory>
    requires right { IsRightFor library.now unit gathering.old }
    requires few { IsUnitNumber unit }
    requires is_node { IsNodeOf (contents_of library.now.tables) e node }
    requires parts { AreKnown unit gathering.old.cells.items (parts_back node) }
    ensures { OnOk result (IsLeft (contents_of library.now.tables) (library_of library.now) unit e
        gathering.old gathering.new) }
{
    let finding = find_in_node(alloc, library, gathering, unit, node)?;
    gathering.cells[e as usize] = finding;
    Ok(())
}

/// Opens a tree, unless what was found in it is known.
fn enter(
    base: &BaseStore,
    gathering: &Gathering,
    stack: &mut Vec<Visit>,
    unit: u32,
    e: u64,
) -> Result<(), NoMemory>
    requires one_each { length gathering.now.cells.items ≡ length (contents_of base.now).trees }
    requires tree_in { e < length (contents_of base.now).trees }
    ensures { OnOk result (IsEntered (contents_of base.now) unit gathering.now.cells.items e
        stack.old.items stack.new.items) }
{
    if unit < gathering.cells[e as usize].below {
        return Ok(());
    }
    open(base, stack, e)
}

/// Gathers what a tree leads to: a walk over its parts, which opens those where it is not known. The
/// stack is emptied first; its room is used again.
pub(crate) fn gather(
    alloc: Global,
    library: &Library,
    gathering: &mut Gathering,
    stack: &mut Vec<Visit>,
    unit: u32,
    tree: u64,
) -> Result<(), NoMemory>
    requires right { IsRightFor library.now unit gathering.old }
    requires few { IsUnitNumber unit }
    requires tree_in { tree < length (contents_of library.now.tables).trees }
    ensures { OnOk result (IsLeft (contents_of library.now.tables)
        (library_of library.now) unit tree
        gathering.old gathering.new) }
{
    stack.clear();
    stack.push(Visit::Enter(tree))?;
    'walk: while let Some(visit) = stack.pop() {
        match visit {
            Visit::Enter(e) => {
                enter(library.base(), gathering, stack, unit, e)?;
            }
            Visit::Leave(e, node) => {
                leave(alloc, library, gathering, unit, e, node)?;
            }
        }
    }
    Ok(())
}
