//! A handle is a store: what only reads is read from the lookout.

ghost use Rattle.lk_step.specs.Calls.{contents_from, rest_from};

use crate::handle::EngineHandle;
use crate::surroundings::BesideTerms;
use lk_step::EngineCalls;
use lk_store::memory::NoMemory;
use lk_store::node::{LevelNode, ListNode, NameNode, Node};
use lk_store::room::Room;
use lk_store::terms::Terms;
use lk_store::text::Text;
use std::alloc::Global;

impl<E: EngineCalls> Terms for EngineHandle<E> {
    type Rest = BesideTerms;

    ghost rest = { λ s. rest_from s };

    ghost contents = { λ s. contents_from s };

    fn len(&self) -> u64 {
        self.engine.terms().len()
    }

    fn view(&self, e: u64) -> Node {
        self.engine.terms().view(e)
    }

    fn make(&mut self, node: Node) -> Result<u64, NoMemory> {
        self.engine.make(node)
    }

    fn same(&self, a: u64, b: u64) -> bool {
        self.engine.terms().same(a, b)
    }

    fn loose_bound(&self, e: u64) -> u128 {
        self.engine.terms().loose_bound(e)
    }

    fn local_bound(&self, e: u64) -> u128 {
        self.engine.terms().local_bound(e)
    }

    fn has_params(&self, e: u64) -> bool {
        self.engine.terms().has_params(e)
    }

    fn is_narrow(&self, e: u64) -> bool {
        self.engine.terms().is_narrow(e)
    }

    fn level(&self, l: u64) -> LevelNode {
        self.engine.terms().level(l)
    }

    fn make_level(&mut self, node: LevelNode) -> Result<u64, NoMemory> {
        self.engine.make_level(node)
    }

    fn level_has_params(&self, l: u64) -> bool {
        self.engine.terms().level_has_params(l)
    }

    fn level_is_zero(&self, l: u64) -> bool {
        self.engine.terms().level_is_zero(l)
    }

    fn levels(&self, ls: u64) -> ListNode {
        self.engine.terms().levels(ls)
    }

    fn make_levels(&mut self, node: ListNode) -> Result<u64, NoMemory> {
        self.engine.make_levels(node)
    }

    fn levels_have_params(&self, ls: u64) -> bool {
        self.engine.terms().levels_have_params(ls)
    }

    fn count_names(&self) -> u64 {
        self.engine.terms().count_names()
    }

    fn name(&self, n: u64) -> NameNode {
        self.engine.terms().name(n)
    }

    fn make_name(&mut self, node: NameNode) -> Result<u64, NoMemory> {
        self.engine.make_name(node)
    }

    fn same_name(&self, m: u64, n: u64) -> bool {
        self.engine.terms().same_name(m, n)
    }

    fn lend_room(&mut self, alloc: Global) -> Room {
        self.engine.lend_room(alloc)
    }

    fn keep_room(&mut self, room: Room) {
        self.engine.keep_room(room)
    }

    fn text(&self, s: u64) -> &Text {
        self.engine.terms().text(s)
    }

    fn make_text(&mut self, text: Text) -> Result<u64, NoMemory> {
        self.engine.make_text(text)
    }
}
