//! A library: a store, units whose names and trees are numbers of it, and an index over their
//! names.

use crate::budget::{Budget, limits_of};
use crate::entry::{Entry, Site};
use crate::index::index_of;
use crate::member::{member_entry, partial_entry};
use crate::position::Position;
use crate::scan::flaws_of;
use crate::unit::Unit;
use lk_store::base_store::BaseStore;
use lk_store::memory::NoMemory;
use lk_store::node::NameNode;
use lk_store::terms::Terms;
use lk_tree::rule::Rule;
use std::alloc::Global;
use std::marker::Model;
use std::mem::drop;

/// A library, with an index over the names of its units.
pub struct Library {
    pub(crate) base: BaseStore,
    pub(crate) units: Vec<Unit>,
    /// For each name of the store the position at which it is given. Names that came into the store
    /// behind the units may have none yet.
    pub(crate) cells: Vec<Option<Position>>,
    /// For each unit why look-ups of its members are refused, if they are.
    pub(crate) flaws: Vec<Option<Rule>>,
    /// What lines state of the units' budgets.
    pub(crate) budgets: Vec<Budget>,
    /// For each unit the least number that is stated of it; empty where nothing is stated.
    pub(crate) limits: Vec<Option<u64>>,
}

impl Model for Library {
    ghost use Rattle.lk_env.specs.StoredLibrary.{StoredLibrary};

    ghost Value = { StoredLibrary };

    ghost use Rattle.lk_store.specs.Store.{contents_of};
    ghost use Rattle.lk_env.specs.Units.{AreUnitsIn};
    ghost use Rattle.lk_env.specs.Index.{AreCells};
    ghost use Rattle.lk_env.specs.Scan.{AreFlaws};
    ghost use Rattle.lk_env.specs.Budgets.{AreBudgetsIn, AreLimits};

    ghost view = { λ l. record {
      tables = l.base;
      units = l.units.items;
      budgets = l.budgets.items;
    } };

    ghost invariant = { λ l. AreUnitsIn (contents_of l.base) l.units.items
        × AreCells (contents_of l.base) l.units.items l.cells.items
        × AreFlaws (contents_of l.base) l.units.items l.flaws.items
        × AreBudgetsIn (contents_of l.base) l.budgets.items
        × AreLimits (contents_of l.base) l.units.items l.budgets.items l.limits.items };
}

ghost use Rattle.std.specs.Prelude.{◌≡◌, ℕ, ◌<◌, length, map, option_map, IfOk, OnOk, OnErr};
ghost use Rattle.lk_tree.specs.Tree.{Name as PlainName};
ghost use Rattle.lk_rulebook.specs.Units.{at_partial, place_by};
ghost use Rattle.lk_store.specs.Contents.{Contents, name_at, name_of, IsNameIn};
ghost use Rattle.lk_env.specs.Units.{library_at, AreUnitsIn};
ghost use Rattle.lk_env.specs.Places.{position_below, own_member, found_at, partial_entry_in};
ghost use Rattle.lk_env.specs.Index.{pair_of};
ghost use Rattle.lk_env.specs.Entries.{judged, IsEntryIn, IsAnswer};
ghost use Rattle.lk_env.specs.Scan.{AreFlaws};
ghost use Rattle.lk_env.specs.Budgets.{own_budget, budgets_of, AreBudgetsIn};

/// The position, where its unit is one of the first ones.
fn position_among(position: Option<Position>, units: u32) -> Option<Position>
    ensures { option_map pair_of result ≡ position_below units (option_map pair_of position) }
{
    match position {
        Some(p) if p.unit < units => position,
        _ => None,
    }
}

/// The entry, where its unit has no flaw.
fn flawless(flaw: Option<Rule>, entry: Entry) -> Result<Entry, Rule>
    ensures { result ≡ judged flaw entry }
{
    match flaw {
        None => Ok(entry),
        Some(rule) => Err(rule),
    }
}

/// The entry of the member at a position.
fn entry_in(units: &[Unit], flaws: &[Option<Rule>], position: Position) -> Result<Entry, Rule>
    requires { length flaws.now ≡ length units.now }
    ensures known { (c : Contents) → AreUnitsIn c units.now → IfOk result (IsEntryIn c) }
    ensures answer { (c : Contents) → AreFlaws c units.now flaws.now → (n : ℕ) (x : PlainName)
        → IsAnswer c units.now (place_by n
        (λ y. found_at (library_at c units.now) (pair_of position))) x result }
{
    let i = position.unit as usize;
    if i >= units.len() {
        return Err(Rule::UnknownConstant);
    }
    match member_entry(position.unit, &units[i], position.member as usize) {
        Some(entry) => flawless(flaws[i], entry),
        None => Err(Rule::UnknownConstant),
    }
}

/// The member, where the position is in the unit.
fn member_of(position: Option<Position>, unit: u32) -> Option<u32>
    ensures { result ≡ own_member unit (option_map pair_of position) }
{
    match position {
        Some(p) if p.unit == unit => Some(p.member),
        _ => None,
    }
}

/// The entry of a member of the site's own unit, where it is partial. Nothing is wrong with a unit
/// that is partial.
fn partial_in(units: &[Unit], site: &Site, member: usize) -> Result<Entry, Rule>
    ensures known { (c : Contents) → AreUnitsIn c units.now → IfOk result (IsEntryIn c) }
    ensures answer { (c : Contents) (x : PlainName)
        → IsAnswer c units.now (place_by site.now.unit (λ y. at_partial site.now.unit
        (partial_entry_in (library_at c units.now) site.now member))) x result }
{
    match units.get(site.unit as usize) {
        Some(unit) => match partial_entry(site.unit, unit, site.partial, member) {
            Some(entry) => Ok(entry),
            None => Err(Rule::UnknownConstant),
        },
        None => Err(Rule::UnknownConstant),
    }
}

impl Drop for Library {
    fn drop(self) {
        let Library {
            base,
            units,
            cells,
            flaws,
            budgets,
            limits,
        } = self;
        drop(base);
        drop(units);
        drop(cells);
        drop(flaws);
        drop(budgets);
        drop(limits);
    }
}

impl Library {
    ghost use Rattle.std.specs.Prelude.{take, None};
    ghost use Rattle.lk_store.specs.Store.{contents_of};
    ghost use Rattle.lk_env.specs.Units.{library_of};
    ghost use Rattle.lk_env.specs.Places.{position_in, place_at};
    ghost use Rattle.lk_store.specs.Contents.{Extends};

    /// Makes the index, and notes the own budget of each unit. Units are fewer than 2^32; more are
    /// want of memory.
    pub fn new(
        alloc: Global,
        base: BaseStore,
        units: Vec<Unit>,
        budgets: Vec<Budget>,
    ) -> Result<Library, NoMemory>
        requires units { AreUnitsIn (contents_of base) units.items }
        requires budgets { AreBudgetsIn (contents_of base) budgets.items }
        ensures { IfOk result (λ l. l
            ≡ record { tables = base; units = units.items; budgets = budgets.items }) }
    {
        let cells = index_of(alloc, &base, &units)?;
        let flaws = flaws_of(alloc, &base, &units)?;
        let limits = limits_of(alloc, &base, &units, &cells, &budgets)?;
        Ok(Library {
            base,
            units,
            cells,
            flaws,
            budgets,
            limits,
        })
    }

    /// Puts other units, over the same store, in the place of the library's own. What is stated of
    /// budgets stays. Where memory is wanting the library stays as it was. Units are fewer than
    /// 2^32; more are want of memory.
    pub fn replace_units(&mut self, alloc: Global, units: Vec<Unit>) -> Result<(), NoMemory>
        requires { AreUnitsIn (contents_of self.old.tables) units.items }
        ensures ok { OnOk result (self.new ≡ record self.old { units = units.items }) }
        ensures err { OnErr result (self.new ≡ self.old) }
    {
        let cells = index_of(alloc, &self.base, &units)?;
        let flaws = flaws_of(alloc, &self.base, &units)?;
        let limits = limits_of(alloc, &self.base, &units, &cells, &self.budgets)?;
        self.units = units;
        self.cells = cells;
        self.flaws = flaws;
        self.limits = limits;
        Ok(())
    }

    /// The units, in their order.
    pub fn units(&self) -> &[Unit]
        ensures value { result.now ≡ self.now.units }
        ensures known { AreUnitsIn (contents_of self.now.tables) result.now }
    {
        self.units.as_slice()
    }

    /// The store that has the units' names and trees.
    pub fn base(&self) -> &BaseStore
        ensures { result.now ≡ self.now.tables }
    {
        &self.base
    }

    /// The own budget of a unit: the least number that a line states of it. None where no line
    /// does. It takes no memory.
    pub fn budget(&self, unit: u32) -> Option<u64>
        ensures { result ≡ own_budget (library_of self.now) (budgets_of self.now) unit }
    {
        match self.limits.get(unit as usize) {
            Some(limit) => *limit,
            None => None,
        }
    }

    /// What lines state of the units' budgets.
    pub fn budgets(&self) -> &[Budget]
        ensures value { result.now ≡ self.now.budgets }
        ensures known { AreBudgetsIn (contents_of self.now.tables) result.now }
    {
        self.budgets.as_slice()
    }

    /// The first unit that gives the name, and which of its members. It takes no memory.
    pub fn position_of(&self, name: u64) -> Option<Position>
        requires { name < length (contents_of self.now.tables).names }
        ensures { option_map pair_of result
            ≡ position_in 0 (library_of self.now) (name_at (contents_of self.now.tables) name) }
    {
        match self.cells.get(name as usize) {
            Some(position) => *position,
            None => None,
        }
    }

    /// The first of so many units that gives the name, and which of its members. It takes no
    /// memory.
    pub fn position_before(&self, units: u32, name: u64) -> Option<Position>
        requires { name < length (contents_of self.now.tables).names }
        ensures { option_map pair_of result
            ≡ position_in 0 (take units (library_of self.now))
            (name_at (contents_of self.now.tables) name) }
    {
        position_among(self.position_of(name), units)
    }

    /// What the name means among the partial members of the site's unit, where no unit before gives
    /// it.
    fn among_partial(&self, site: &Site, name: u64) -> Result<Entry, Rule>
        requires name_in { name < length (contents_of self.now.tables).names }
        requires new { position_in 0 (take site.now.unit (library_of self.now))
            (name_at (contents_of self.now.tables) name) ≡ None }
        ensures known { IfOk result (IsEntryIn (contents_of self.now.tables)) }
        ensures answer { IsAnswer (contents_of self.now.tables) self.now.units
            (place_at self.now site.now) (name_at (contents_of self.now.tables) name) result }
    {
        match member_of(self.position_of(name), site.unit) {
            Some(member) => partial_in(&self.units, site, member as usize),
            None => Err(Rule::UnknownConstant),
        }
    }

    /// What the name means at the site. A name that nothing gives is UnknownConstant; where its
    /// unit has a flaw, the flaw is told. It takes no memory, and of the library it reads one unit.
    pub fn at(&self, site: &Site, name: u64) -> Result<Entry, Rule>
        requires { name < length (contents_of self.now.tables).names }
        ensures known { IfOk result (IsEntryIn (contents_of self.now.tables)) }
        ensures answer { IsAnswer (contents_of self.now.tables) self.now.units
            (place_at self.now site.now) (name_at (contents_of self.now.tables) name) result }
    {
        match self.position_before(site.unit, name) {
            Some(position) => entry_in(&self.units, &self.flaws, position),
            None => self.among_partial(site, name),
        }
    }

    /// What the name means at the site, where the number is one of a store that has what the
    /// library has, under the same numbers: an overlay over the library's store is such a store.
    /// Names that the library does not have mean nothing.
    pub fn means<T: Terms>(&self, site: &Site, terms: &T, name: u64) -> Result<Entry, Rule>
        requires over { Extends (contents_of self.now.tables) (T.contents terms.now) }
        requires name_in { name < length (T.contents terms.now).names }
        ensures known { IfOk result (IsEntryIn (contents_of self.now.tables)) }
        ensures answer { IsAnswer (contents_of self.now.tables) self.now.units
            (place_at self.now site.now) (name_at (T.contents terms.now) name) result }
    {
        if name < self.base.count_names() {
            return self.at(site, name);
        }
        // The names of the store are apart, so that a number beyond the library's is a name that
        // the library does not have.
        let _names = terms.count_names();
        Err(Rule::UnknownConstant)
    }

    /// What `position_of` says, of the name that a node makes of its parts. It need not be in the
    /// store.
    pub fn find(&self, node: NameNode) -> Option<Position>
        requires { IsNameIn (contents_of self.now.tables) node }
        ensures { option_map pair_of result
            ≡ position_in 0 (library_of self.now) (name_of (contents_of self.now.tables) node) }
    {
        match self.base.find_name(node) {
            Some(n) => self.position_of(n),
            None => None,
        }
    }
}
