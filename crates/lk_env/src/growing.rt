//! A library that grows in place: new names, levels and trees in its store, and new units.

ghost use Rattle.std.specs.Prelude.{◌≡◌, ◌+◌, ◌≤◌, ◌<◌, ◌^◌, ◌++◌, ℕ, length, OnOk, OnErr};
ghost use Rattle.lk_env.specs.Index.{cell_at};

use crate::index::{names_of_all, note_units};
use crate::library::Library;
use crate::position::Position;
use crate::scan::flaws_of;
use crate::unit::Unit;
use lk_store::base_store::BaseStore;
use lk_store::memory::NoMemory;
use lk_store::node::{LevelNode, ListNode, NameNode, Node};
use lk_store::room::Room;
use lk_store::terms::Terms;
use lk_store::text::Text;
use lk_tree::rule::Rule;
use std::alloc::Global;

/// Makes so many cells of them; those that come have no position.
fn grow_cells(cells: &mut Vec<Option<Position>>, n: usize) -> Result<(), NoMemory>
    requires { length cells.old.items ≤ n }
    ensures one_each { OnOk result (length cells.new.items ≡ n) }
    ensures same { (k : ℕ) → cell_at cells.new.items k ≡ cell_at cells.old.items k }
    ensures err { OnErr result (cells.new.items ≡ cells.old.items) }
{
    cells.resize(n, None)?;
    Ok(())
}

/// Puts units and their flaws behind those that are there. Units are fewer than 2^32; more are want
/// of memory.
fn extend(
    units: &mut Vec<Unit>,
    flaws: &mut Vec<Option<Rule>>,
    mut more: Vec<Unit>,
    mut flaws_of_more: Vec<Option<Rule>>,
) -> Result<(), NoMemory>
    ensures units { OnOk result (units.new.items ≡ units.old.items ++ more.items) }
    ensures flaws { OnOk result (flaws.new.items ≡ flaws.old.items ++ flaws_of_more.items) }
    ensures few { OnOk result (length units.new.items < 2 ^ 32) }
    ensures units_stay { OnErr result (units.new.items ≡ units.old.items) }
    ensures flaws_stay { OnErr result (flaws.new.items ≡ flaws.old.items) }
{
    if more.len() > u32::MAX as usize || units.len() > u32::MAX as usize - more.len() {
        return Err(NoMemory);
    }
    units.reserve(more.len())?;
    flaws.append(&mut flaws_of_more)?;
    // From here on there is room.
    if units.append(&mut more).is_err() {
        unreachable!();
    }
    Ok(())
}

impl Library {
    ghost use Rattle.std.specs.Prelude.{[]};
    ghost use Rattle.lk_store.specs.Store.{no_tables, contents_of};
    ghost use Rattle.lk_env.specs.Units.{AreUnitsIn};

    /// A library without units, over an empty store. It takes no memory.
    pub fn empty(alloc: Global) -> Library
        ensures { result ≡ record { tables = no_tables; units = []; budgets = [] } }
    {
        Library {
            base: BaseStore::new(alloc),
            units: Vec::new(alloc),
            cells: Vec::new(alloc),
            flaws: Vec::new(alloc),
            budgets: Vec::new(alloc),
            limits: Vec::new(alloc),
        }
    }

    /// Puts units behind the library's own, where no line states a budget. It takes no more time
    /// than these units ask, and where memory is wanting the library stays as it was. Units are
    /// fewer than 2^32; more are want of memory.
    pub fn add_units(&mut self, alloc: Global, units: Vec<Unit>) -> Result<(), NoMemory>
        requires units { AreUnitsIn (contents_of self.old.tables) units.items }
        requires budgets { self.old.budgets ≡ [] }
        ensures ok { OnOk result (self.new
            ≡ record self.old { units = self.old.units ++ units.items }) }
        ensures err { OnErr result (self.new ≡ self.old) }
    {
        let names = names_of_all(alloc, &units)?;
        let flaws = flaws_of(alloc, &self.base, &units)?;
        let count = self.base.count_names() as usize;
        grow_cells(&mut self.cells, count)?;
        let first = self.units.len();
        extend(&mut self.units, &mut self.flaws, units, flaws)?;
        note_units(&self.base, &self.units, first, &names, &mut self.cells);
        Ok(())
    }
}

/// The store's names, levels and trees. New ones give no unit anything else to state.
impl Terms for Library {
    ghost use Rattle.lk_store.specs.Store.{no_tables, contents_of};

    /// The library, but for the store.
    type Rest = Library;

    ghost rest = { λ l. record l { tables = no_tables } };

    ghost contents = { λ l. contents_of l.tables };

    fn len(&self) -> u64 {
        self.base.len()
    }

    fn view(&self, e: u64) -> Node {
        self.base.view(e)
    }

    fn make(&mut self, node: Node) -> Result<u64, NoMemory> {
        let made = self.base.make(node);
        let _names = self.base.count_names();
        made
    }

    fn same(&self, a: u64, b: u64) -> bool {
        self.base.same(a, b)
    }

    fn loose_bound(&self, e: u64) -> u128 {
        self.base.loose_bound(e)
    }

    fn local_bound(&self, e: u64) -> u128 {
        self.base.local_bound(e)
    }

    fn has_params(&self, e: u64) -> bool {
        self.base.has_params(e)
    }

    fn is_narrow(&self, e: u64) -> bool {
        self.base.is_narrow(e)
    }

    fn level(&self, l: u64) -> LevelNode {
        self.base.level(l)
    }

    fn make_level(&mut self, node: LevelNode) -> Result<u64, NoMemory> {
        let made = self.base.make_level(node);
        let _names = self.base.count_names();
        made
    }

    fn level_has_params(&self, l: u64) -> bool {
        self.base.level_has_params(l)
    }

    fn level_is_zero(&self, l: u64) -> bool {
        self.base.level_is_zero(l)
    }

    fn levels(&self, ls: u64) -> ListNode {
        self.base.levels(ls)
    }

    fn make_levels(&mut self, node: ListNode) -> Result<u64, NoMemory> {
        let made = self.base.make_levels(node);
        let _names = self.base.count_names();
        made
    }

    fn levels_have_params(&self, ls: u64) -> bool {
        self.base.levels_have_params(ls)
    }

    fn count_names(&self) -> u64 {
        self.base.count_names()
    }

    fn name(&self, n: u64) -> NameNode {
        self.base.name(n)
    }

    fn make_name(&mut self, node: NameNode) -> Result<u64, NoMemory> {
        let made = self.base.make_name(node);
        let _names = self.base.count_names();
        made
    }

    fn same_name(&self, m: u64, n: u64) -> bool {
        self.base.same_name(m, n)
    }

    fn lend_room(&mut self, alloc: Global) -> Room {
        self.base.lend_room(alloc)
    }

    fn keep_room(&mut self, room: Room) {
        self.base.keep_room(room)
    }

    fn text(&self, s: u64) -> &Text {
        self.base.text(s)
    }

    fn make_text(&mut self, text: Text) -> Result<u64, NoMemory> {
        let made = self.base.make_text(text);
        let _names = self.base.count_names();
        made
    }
}
