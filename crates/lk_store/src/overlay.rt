//! A store over that of a library.

ghost use Rattle.std.specs.Prelude.{◌≡◌};

use crate::base_store::BaseStore;
use crate::making::{make_in, make_level_in, make_list_in, make_name_in, make_text_in};
use crate::memory::NoMemory;
use crate::node::{LevelNode, ListNode, NameNode, Node};
use crate::reading::{
    count_names_in, len_in, level_in, level_params_in, level_zero_in, list_in, list_params_in,
    local_in, loose_in, name_in, narrow_in, params_in, same_in, same_name_in, text_in, view_in,
};
use crate::room::Room;
use crate::sizes::Sizes;
use crate::tables::Tables;
use crate::terms::Terms;
use crate::text::Text;
use std::alloc::Global;
use std::marker::Model;
use std::mem::drop;

/// A store over that of a library, which is only read. What is made stands in it alone; what the
/// library has keeps its number.
pub struct Overlay<'a> {
    base: &'a Tables,
    own: Tables,
    room: Room,
}

impl<'a> Model for Overlay<'a> {
    ghost use Rattle.lk_store.specs.Layers.{Layers};

    ghost Value = { Layers };

    ghost use Rattle.lk_store.specs.Store.{over, IsStore};

    ghost view = { λ s. record { base = s.base.now; own = s.own } };

    ghost invariant = { λ s. IsStore s.base.now × IsStore (over s.base.now s.own) };
}

impl Drop for Overlay<'_> {
    fn drop(self) {
        let Overlay { base: _, own, room } = self;
        drop(own);
        drop(room);
    }
}

impl<'a> Overlay<'a> {
    ghost use Rattle.lk_store.specs.Sizes.{sizes_of};
    ghost use Rattle.lk_store.specs.Store.{no_tables, contents_of};
    ghost use Rattle.lk_store.specs.Layers.{layers_contents};
    ghost use Rattle.lk_store.specs.Values.{AreApart};
    ghost use Rattle.lk_tree.specs.Tree.{zero_level, wide};

    /// A store that has what the library has. It takes no memory.
    #[tactic(auto, using(crate::proofs::Overlaid::contents_over_nothing))]
    pub fn new(alloc: Global, base: &'a BaseStore) -> Self
        ensures value { result ≡ record { base = base.now; own = no_tables } }
        ensures contents { layers_contents result ≡ contents_of base.now }
    {
        Overlay {
            base: &base.tables,
            own: Tables::new(alloc),
            room: Room::new(alloc),
        }
    }

    /// How much the library has of each kind. What has a lower number is the library's.
    pub fn base_sizes(&self) -> Sizes
        ensures { result ≡ sizes_of self.now.base }
    {
        self.base.sizes()
    }

    /// Equal levels have one number, and so have equal trees, in the library and here.
    pub fn stands_once(&self)
        ensures levels { AreApart zero_level (layers_contents self.now).levels }
        ensures trees { AreApart wide (layers_contents self.now).trees }
    {
        let _own = &self.own;
    }

    /// How much was made here of each kind since `new` or the last `clear`.
    pub fn own_sizes(&self) -> Sizes
        ensures { result ≡ sizes_of self.now.own }
    {
        self.own.sizes()
    }

    /// Forgets all that was made here: after it the store has what the library has and no more, so
    /// that a number that was given since `new` or the last `clear` stands for nothing. The memory
    /// is kept for what is made next.
    #[tactic(auto, using(crate::proofs::Overlaid::contents_over_nothing))]
    pub fn clear(&mut self)
        ensures value { self.new ≡ record { base = self.old.base; own = no_tables } }
        ensures contents { layers_contents self.new ≡ contents_of self.old.base }
    {
        self.own.clear();
    }
}

impl<'a> Terms for Overlay<'a> {
    ghost use Rattle.lk_store.specs.Layers.{layers_contents};

    /// The library's tables.
    type Rest = Tables;

    ghost rest = { λ s. s.base };

    ghost contents = { layers_contents };

    #[inline]
    fn len(&self) -> u64 {
        len_in(self.base, &self.own)
    }

    #[inline]
    fn view(&self, e: u64) -> Node {
        view_in(self.base, &self.own, e)
    }

    fn make(&mut self, node: Node) -> Result<u64, NoMemory> {
        make_in(self.base, &mut self.own, node)
    }

    #[inline]
    fn same(&self, a: u64, b: u64) -> bool {
        same_in(self.base, &self.own, a, b)
    }

    #[inline]
    fn loose_bound(&self, e: u64) -> u128 {
        loose_in(self.base, &self.own, e)
    }

    #[inline]
    fn local_bound(&self, e: u64) -> u128 {
        local_in(self.base, &self.own, e)
    }

    #[inline]
    fn has_params(&self, e: u64) -> bool {
        params_in(self.base, &self.own, e)
    }

    #[inline]
    fn is_narrow(&self, e: u64) -> bool {
        narrow_in(self.base, &self.own, e)
    }

    #[inline]
    fn level(&self, l: u64) -> LevelNode {
        level_in(self.base, &self.own, l)
    }

    fn make_level(&mut self, node: LevelNode) -> Result<u64, NoMemory> {
        make_level_in(self.base, &mut self.own, node)
    }

    #[inline]
    fn level_has_params(&self, l: u64) -> bool {
        level_params_in(self.base, &self.own, l)
    }

    #[inline]
    fn level_is_zero(&self, l: u64) -> bool {
        level_zero_in(self.base, &self.own, l)
    }

    #[inline]
    fn levels(&self, ls: u64) -> ListNode {
        list_in(self.base, &self.own, ls)
    }

    fn make_levels(&mut self, node: ListNode) -> Result<u64, NoMemory> {
        make_list_in(self.base, &mut self.own, node)
    }

    #[inline]
    fn levels_have_params(&self, ls: u64) -> bool {
        list_params_in(self.base, &self.own, ls)
    }

    #[inline]
    fn count_names(&self) -> u64 {
        count_names_in(self.base, &self.own)
    }

    #[inline]
    fn name(&self, n: u64) -> NameNode {
        name_in(self.base, &self.own, n)
    }

    fn make_name(&mut self, node: NameNode) -> Result<u64, NoMemory> {
        make_name_in(self.base, &mut self.own, node)
    }

    #[inline]
    fn same_name(&self, m: u64, n: u64) -> bool {
        same_name_in(self.base, &self.own, m, n)
    }

    fn lend_room(&mut self, alloc: Global) -> Room {
        self.room.lend(alloc)
    }

    fn keep_room(&mut self, room: Room) {
        self.room = room;
    }

    fn text(&self, s: u64) -> &Text {
        text_in(self.base, &self.own, s)
    }

    fn make_text(&mut self, text: Text) -> Result<u64, NoMemory> {
        make_text_in(self.base, &mut self.own, text)
    }
}
