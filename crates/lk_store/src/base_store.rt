//! The store of a library.

use crate::making::{
    find_name_in, make_in, make_level_in, make_list_in, make_name_in, make_text_in,
};
use crate::memory::NoMemory;
use crate::node::{LevelNode, ListNode, NameNode, Node};
use crate::reading::{
    count_names_in, len_in, level_in, level_params_in, level_zero_in, list_in, list_params_in,
    local_in, loose_in, name_in, narrow_in, params_in, same_in, same_name_in, text_in, view_in,
};
use crate::room::Room;
use crate::sizes::Sizes;
use crate::tables::Tables;
use crate::terms::Terms;
use crate::text::Text;
use std::alloc::Global;
use std::marker::Model;
use std::mem::drop;

/// The store of a library: each thing stands in it once.
pub struct BaseStore {
    /// What it lies over, which is empty.
    pub(crate) nothing: Tables,
    pub(crate) tables: Tables,
    room: Room,
}

impl Model for BaseStore {
    ghost use Rattle.lk_store.specs.declared.tables.Tables.{Tables};

    ghost Value = { Tables };

    ghost use Rattle.std.specs.Prelude.{◌≡◌};
    ghost use Rattle.lk_store.specs.Store.{over, no_tables, IsStore};

    ghost view = { λ s. s.tables };

    ghost invariant = { λ s. IsStore s.tables × (s.nothing ≡ no_tables) };
}

impl Drop for BaseStore {
    fn drop(self) {
        let BaseStore {
            nothing,
            tables,
            room,
        } = self;
        drop(nothing);
        drop(tables);
        drop(room);
    }
}

impl BaseStore {
    ghost use Rattle.std.specs.Prelude.{◌≡◌, ◌≢◌, ◌<◌, ℕ, length, IfNone, IfSome};
    ghost use Rattle.lk_store.specs.Contents.{name_at, name_of, IsNameIn, IsName};
    ghost use Rattle.lk_store.specs.Sizes.{sizes_of};
    ghost use Rattle.lk_store.specs.Store.{no_tables, contents_of};
    ghost use Rattle.lk_store.specs.Values.{AreApart};
    ghost use Rattle.lk_tree.specs.Tree.{zero_level, wide};

    /// An empty store. It takes no memory.
    pub fn new(alloc: Global) -> Self
        ensures { result ≡ no_tables }
    {
        BaseStore {
            nothing: Tables::new(alloc),
            tables: Tables::new(alloc),
            room: Room::new(alloc),
        }
    }

    /// How much it has of each kind.
    pub fn sizes(&self) -> Sizes
        ensures { result ≡ sizes_of self.now }
    {
        self.tables.sizes()
    }

    /// Gives back the memory that its tables set aside for more and do not use; the store has what
    /// it had, and can still be added to. It is for the end of the reading, before overlays borrow
    /// the store: while one of them lives, nothing is added.
    pub fn freeze(&mut self)
        ensures { self.new ≡ self.old }
    {
        self.tables.shrink();
    }

    /// Equal levels have one number, and so have equal trees.
    pub fn stands_once(&self)
        ensures levels { AreApart zero_level (contents_of self.now).levels }
        ensures trees { AreApart wide (contents_of self.now).trees }
    {
        let _tables = &self.tables;
    }

    /// The number of the name that a node makes of its parts, where the store has it. It takes no
    /// memory.
    pub fn find_name(&self, node: NameNode) -> Option<u64>
        requires { IsNameIn (contents_of self.now) node }
        ensures absent { let c = contents_of self.now in
            IfNone result ((n : ℕ) → n < length c.names → name_at c n ≢ name_of c node) }
        ensures present { let c = contents_of self.now in
            IfSome result (λ n. IsName c n (name_of c node)) }
    {
        find_name_in(&self.nothing, &self.tables, node)
    }
}

impl Terms for BaseStore {
    ghost use Rattle.lk_store.specs.Store.{contents_of};

    type Rest = ();

    ghost rest = { λ s. tt };

    ghost contents = { contents_of };

    #[inline]
    fn len(&self) -> u64 {
        len_in(&self.nothing, &self.tables)
    }

    #[inline]
    fn view(&self, e: u64) -> Node {
        view_in(&self.nothing, &self.tables, e)
    }

    fn make(&mut self, node: Node) -> Result<u64, NoMemory> {
        make_in(&self.nothing, &mut self.tables, node)
    }

    #[inline]
    fn same(&self, a: u64, b: u64) -> bool {
        same_in(&self.nothing, &self.tables, a, b)
    }

    #[inline]
    fn loose_bound(&self, e: u64) -> u128 {
        loose_in(&self.nothing, &self.tables, e)
    }

    #[inline]
    fn local_bound(&self, e: u64) -> u128 {
        local_in(&self.nothing, &self.tables, e)
    }

    #[inline]
    fn has_params(&self, e: u64) -> bool {
        params_in(&self.nothing, &self.tables, e)
    }

    #[inline]
    fn is_narrow(&self, e: u64) -> bool {
        narrow_in(&self.nothing, &self.tables, e)
    }

    #[inline]
    fn level(&self, l: u64) -> LevelNode {
        level_in(&self.nothing, &self.tables, l)
    }

    fn make_level(&mut self, node: LevelNode) -> Result<u64, NoMemory> {
        make_level_in(&self.nothing, &mut self.tables, node)
    }

    #[inline]
    fn level_has_params(&self, l: u64) -> bool {
        level_params_in(&self.nothing, &self.tables, l)
    }

    #[inline]
    fn level_is_zero(&self, l: u64) -> bool {
        level_zero_in(&self.nothing, &self.tables, l)
    }

    #[inline]
    fn levels(&self, ls: u64) -> ListNode {
        list_in(&self.nothing, &self.tables, ls)
    }

    fn make_levels(&mut self, node: ListNode) -> Result<u64, NoMemory> {
        make_list_in(&self.nothing, &mut self.tables, node)
    }

    #[inline]
    fn levels_have_params(&self, ls: u64) -> bool {
        list_params_in(&self.nothing, &self.tables, ls)
    }

    #[inline]
    fn count_names(&self) -> u64 {
        count_names_in(&self.nothing, &self.tables)
    }

    #[inline]
    fn name(&self, n: u64) -> NameNode {
        name_in(&self.nothing, &self.tables, n)
    }

    fn make_name(&mut self, node: NameNode) -> Result<u64, NoMemory> {
        make_name_in(&self.nothing, &mut self.tables, node)
    }

    #[inline]
    fn same_name(&self, m: u64, n: u64) -> bool {
        same_name_in(&self.nothing, &self.tables, m, n)
    }

    fn lend_room(&mut self, alloc: Global) -> Room {
        self.room.lend(alloc)
    }

    fn keep_room(&mut self, room: Room) {
        self.room = room;
    }

    fn text(&self, s: u64) -> &Text {
        text_in(&self.nothing, &self.tables, s)
    }

    fn make_text(&mut self, text: Text) -> Result<u64, NoMemory> {
        make_text_in(&self.nothing, &mut self.tables, text)
    }
}
