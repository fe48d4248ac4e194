//! Trees in the order in which they were made, over a store that has them.

ghost use Rattle.std.specs.Prelude.{◌≡◌, ◌<◌, ◌↔◌, [], length, IfOk, OnErr, IsTrue};
ghost use Rattle.lk_store.specs.Contents.{tree_at, tree_of, IsIn, Extends, IsTree};
ghost use Rattle.store_bench.specs.Listing.{listed, inside, number_of, AreListed};

use lk_store::memory::NoMemory;
use lk_store::node::{LevelNode, ListNode, NameNode, Node};
use lk_store::room::Room;
use lk_store::terms::Terms;
use lk_store::text::Text;
use std::alloc::Global;
use std::marker::Model;

/// A tree as it was made, and its number in the store below.
#[derive(Clone, Copy)]
pub struct Listed {
    pub node: Node,
    pub number: u64,
}

/// A store in which each tree that is made gets a number of its own. All else, and whether two trees are equal, is told by the store below.
#[derive(Drop)]
pub struct ListStore<T: Terms + Drop> {
    store: T,
    rows: Vec<Listed>,
}

impl<T: Terms + Drop> Model for ListStore<T> {
    ghost use Rattle.store_bench.specs.Lists.{Lists};

    ghost Value = { Lists T };

    ghost use Rattle.store_bench.specs.Listing.{AreListed};

    ghost view = { λ s. record { store = s.store; rows = s.rows.items } };

    ghost invariant = { λ s. AreListed (T.contents s.store) s.rows.items };
}

/// The number below of a tree.
fn number_below(rows: &[Listed], e: u64) -> u64
    requires { e < length rows.now }
    ensures { result ≡ number_of rows.now e }
{
    rows[e as usize].number
}

/// The node with numbers of the store below.
fn node_below<T: Terms>(store: &T, rows: &[Listed], node: Node) -> Node
    requires { IsIn (listed (T.contents store.now) rows.now) node }
    ensures { result ≡ inside rows.now node }
{
    let _store = store;
    match node {
        Node::App(f, a) => Node::App(number_below(rows, f), number_below(rows, a)),
        Node::Lam(t, b) => Node::Lam(number_below(rows, t), number_below(rows, b)),
        Node::Pi(t, b) => Node::Pi(number_below(rows, t), number_below(rows, b)),
        Node::Let(t, v, b) => Node::Let(
            number_below(rows, t),
            number_below(rows, v),
            number_below(rows, b),
        ),
        Node::Proj(n, i, s) => Node::Proj(n, i, number_below(rows, s)),
        Node::Local(k, t) => Node::Local(k, number_below(rows, t)),
        other => other,
    }
}

/// Makes a tree in the store below, and lists it.
fn make_listed<T: Terms>(store: &mut T, rows: &mut Vec<Listed>, node: Node) -> Result<u64, NoMemory>
    requires listed { AreListed (T.contents store.old) rows.old.items }
    requires node_in { IsIn (listed (T.contents store.old) rows.old.items) node }
    ensures listed { AreListed (T.contents store.new) rows.new.items }
    ensures keeps { Extends (listed (T.contents store.old) rows.old.items)
        (listed (T.contents store.new) rows.new.items) }
    ensures rest { T.rest store.new ≡ T.rest store.old }
    ensures ok { IfOk result (λ e. IsTree (listed (T.contents store.new) rows.new.items) e
        (tree_of (listed (T.contents store.old) rows.old.items) node)) }
    ensures err { OnErr result (listed (T.contents store.new) rows.new.items
        ≡ listed (T.contents store.old) rows.old.items) }
{
    rows.reserve(1)?;
    let below = node_below(store, rows, node);
    let number = store.make(below)?;
    let e = rows.len() as u64;
    rows.push(Listed { node, number })?;
    Ok(e)
}

impl<T: Terms + Drop> ListStore<T> {
    ghost use Rattle.std.specs.Prelude.{◌≡◌, []};

    /// A list of no trees, over a store.
    pub fn new(alloc: Global, store: T) -> Self
        ensures { result ≡ record { store = store; rows = [] } }
    {
        ListStore {
            store,
            rows: Vec::new(alloc),
        }
    }
}

impl<T: Terms + Drop> Terms for ListStore<T> {
    ghost use Rattle.store_bench.specs.Listing.{listed};

    type Rest = T::Rest;

    ghost rest = { λ s. T.rest s.store };

    ghost contents = { λ s. listed (T.contents s.store) s.rows };

    #[tactic(auto, using(crate::proofs::Rows::rows_read))]
    fn len(&self) -> u64 {
        self.rows.len() as u64
    }

    #[tactic(auto, using(crate::proofs::Rows::rows_read))]
    fn view(&self, e: u64) -> Node {
        self.rows[e as usize].node
    }

    fn make(&mut self, node: Node) -> Result<u64, NoMemory> {
        make_listed(&mut self.store, &mut self.rows, node)
    }

    #[tactic(auto, using(crate::proofs::Rows::rows_read))]
    fn same(&self, a: u64, b: u64) -> bool {
        self.store
            .same(number_below(&self.rows, a), number_below(&self.rows, b))
    }

    #[tactic(auto, using(crate::proofs::Rows::rows_read))]
    fn loose_bound(&self, e: u64) -> u128 {
        self.store.loose_bound(number_below(&self.rows, e))
    }

    #[tactic(auto, using(crate::proofs::Rows::rows_read))]
    fn local_bound(&self, e: u64) -> u128 {
        self.store.local_bound(number_below(&self.rows, e))
    }

    #[tactic(auto, using(crate::proofs::Rows::rows_read))]
    fn has_params(&self, e: u64) -> bool {
        self.store.has_params(number_below(&self.rows, e))
    }

    #[tactic(auto, using(crate::proofs::Rows::rows_read))]
    fn is_narrow(&self, e: u64) -> bool {
        self.store.is_narrow(number_below(&self.rows, e))
    }

    fn level(&self, l: u64) -> LevelNode {
        self.store.level(l)
    }

    fn make_level(&mut self, node: LevelNode) -> Result<u64, NoMemory> {
        self.store.make_level(node)
    }

    fn level_has_params(&self, l: u64) -> bool {
        self.store.level_has_params(l)
    }

    fn level_is_zero(&self, l: u64) -> bool {
        self.store.level_is_zero(l)
    }

    fn levels(&self, ls: u64) -> ListNode {
        self.store.levels(ls)
    }

    fn make_levels(&mut self, node: ListNode) -> Result<u64, NoMemory> {
        self.store.make_levels(node)
    }

    fn levels_have_params(&self, ls: u64) -> bool {
        self.store.levels_have_params(ls)
    }

    fn count_names(&self) -> u64 {
        self.store.count_names()
    }

    fn name(&self, n: u64) -> NameNode {
        self.store.name(n)
    }

    fn make_name(&mut self, node: NameNode) -> Result<u64, NoMemory> {
        self.store.make_name(node)
    }

    fn same_name(&self, m: u64, n: u64) -> bool {
        self.store.same_name(m, n)
    }

    fn lend_room(&mut self, alloc: Global) -> Room {
        self.store.lend_room(alloc)
    }

    fn keep_room(&mut self, room: Room) {
        self.store.keep_room(room)
    }

    fn text(&self, s: u64) -> &Text {
        self.store.text(s)
    }

    fn make_text(&mut self, text: Text) -> Result<u64, NoMemory> {
        self.store.make_text(text)
    }
}
