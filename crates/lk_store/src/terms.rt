//! What a store of names, levels and trees promises.

ghost use Rattle.std.specs.Prelude.{◌≡◌, ◌<◌, ◌↔◌, [], length, IfOk, OnErr, IsTrue};
ghost use Rattle.lk_tree.specs.Bind.{bound};
ghost use Rattle.lk_tree.specs.Level.{is_zero_level};
ghost use Rattle.lk_tree.specs.Loose.{loose};
ghost use Rattle.lk_tree.specs.Scan.{is_narrow};
ghost use Rattle.lk_store.specs.Measures.{level_has_params, list_has_params, has_params};
ghost use Rattle.lk_store.specs.Values.{AreApart};
ghost use Rattle.lk_store.specs.Rooms.{IsEmpty};
ghost use Rattle.lk_store.specs.Contents.{Contents, Extends};
ghost use Rattle.lk_store.specs.Contents.{name_at, text_at, level_at, list_at, tree_at};
ghost use Rattle.lk_store.specs.Contents.{name_of, level_of, list_of, tree_of};
ghost use Rattle.lk_store.specs.Contents.{IsNameIn, IsLevelIn, IsListIn, IsIn};
ghost use Rattle.lk_store.specs.Contents.{IsName, IsText, IsLevel, IsList, IsTree};

use crate::memory::NoMemory;
use crate::node::{LevelNode, ListNode, NameNode, Node};
use crate::room::Room;
use crate::text::Text;
use std::alloc::Global;

/// A store of names, texts, levels, lists of levels and trees. A number stands for one of them for
/// good: what is made later changes nothing that is there.
///
/// Of its calls only those that make something take memory. Where it is wanting they answer
/// `NoMemory`, and all that numbers stand for is as before.
pub trait Terms {
    /// What it has beside them, which no call changes.
    type Rest;

    ghost rest: { Self → Self.Rest };

    /// What each number stands for.
    ghost contents: { Self → Contents };

    /// How many trees there are.
    fn len(&self) -> u64
        ensures { result ≡ length (contents self.now).trees };

    /// The node of a tree.
    fn view(&self, e: u64) -> Node
        requires { e < length (contents self.now).trees }
        ensures known { IsIn (contents self.now) result }
        ensures tree { tree_of (contents self.now) result ≡ tree_at (contents self.now) e };

    /// A number of the tree that the node makes of its parts.
    fn make(&mut self, node: Node) -> Result<u64, NoMemory>
        requires { IsIn (contents self.old) node }
        ensures keeps { Extends (contents self.old) (contents self.new) }
        ensures rest { rest self.new ≡ rest self.old }
        ensures ok { IfOk result (λ e.
            IsTree (contents self.new) e (tree_of (contents self.old) node)) }
        ensures err { OnErr result (contents self.new ≡ contents self.old) };

    /// Whether two trees are equal.
    fn same(&self, a: u64, b: u64) -> bool
        requires a_in { a < length (contents self.now).trees }
        requires b_in { b < length (contents self.now).trees }
        ensures { IsTrue result ↔ (tree_at (contents self.now) a ≡ tree_at (contents self.now) b) };

    /// The least number above every loose variable of a tree. The type that a Local carries is not
    /// entered.
    fn loose_bound(&self, e: u64) -> u128
        requires { e < length (contents self.now).trees }
        ensures { result ≡ loose (tree_at (contents self.now) e) };

    /// The least number above every Local's number in a tree.
    fn local_bound(&self, e: u64) -> u128
        requires { e < length (contents self.now).trees }
        ensures { result ≡ bound (tree_at (contents self.now) e) };

    /// Whether a level of a tree has a parameter.
    fn has_params(&self, e: u64) -> bool
        requires { e < length (contents self.now).trees }
        ensures { result ≡ has_params (tree_at (contents self.now) e) };

    /// Whether each literal in a tree is at most 2^128 - 1.
    fn is_narrow(&self, e: u64) -> bool
        requires { e < length (contents self.now).trees }
        ensures { result ≡ is_narrow (tree_at (contents self.now) e) };

    /// The node of a level.
    fn level(&self, l: u64) -> LevelNode
        requires { l < length (contents self.now).levels }
        ensures known { IsLevelIn (contents self.now) result }
        ensures level { level_of (contents self.now) result ≡ level_at (contents self.now) l };

    /// A number of the level that the node makes of its parts.
    fn make_level(&mut self, node: LevelNode) -> Result<u64, NoMemory>
        requires { IsLevelIn (contents self.old) node }
        ensures keeps { Extends (contents self.old) (contents self.new) }
        ensures rest { rest self.new ≡ rest self.old }
        ensures ok { IfOk result (λ l.
            IsLevel (contents self.new) l (level_of (contents self.old) node)) }
        ensures err { OnErr result (contents self.new ≡ contents self.old) };

    /// Whether a level has a parameter.
    fn level_has_params(&self, l: u64) -> bool
        requires { l < length (contents self.now).levels }
        ensures { result ≡ level_has_params (level_at (contents self.now) l) };

    /// Whether a level is 0 under every assignment.
    fn level_is_zero(&self, l: u64) -> bool
        requires { l < length (contents self.now).levels }
        ensures { result ≡ is_zero_level (level_at (contents self.now) l) };

    /// The node of a list of levels.
    fn levels(&self, ls: u64) -> ListNode
        requires { ls < length (contents self.now).lists }
        ensures known { IsListIn (contents self.now) result }
        ensures list { list_of (contents self.now) result ≡ list_at (contents self.now) ls };

    /// A number of the list of levels that the node makes of its parts.
    fn make_levels(&mut self, node: ListNode) -> Result<u64, NoMemory>
        requires { IsListIn (contents self.old) node }
        ensures keeps { Extends (contents self.old) (contents self.new) }
        ensures rest { rest self.new ≡ rest self.old }
        ensures ok { IfOk result (λ ls.
            IsList (contents self.new) ls (list_of (contents self.old) node)) }
        ensures err { OnErr result (contents self.new ≡ contents self.old) };

    /// Whether a level of a list has a parameter.
    fn levels_have_params(&self, ls: u64) -> bool
        requires { ls < length (contents self.now).lists }
        ensures { result ≡ list_has_params (list_at (contents self.now) ls) };

    /// How many names there are. No two of them are equal.
    fn count_names(&self) -> u64
        ensures count { result ≡ length (contents self.now).names }
        ensures apart { AreApart [] (contents self.now).names };

    /// The node of a name.
    fn name(&self, n: u64) -> NameNode
        requires { n < length (contents self.now).names }
        ensures known { IsNameIn (contents self.now) result }
        ensures name { name_of (contents self.now) result ≡ name_at (contents self.now) n };

    /// A number of the name that the node makes of its parts.
    fn make_name(&mut self, node: NameNode) -> Result<u64, NoMemory>
        requires { IsNameIn (contents self.old) node }
        ensures keeps { Extends (contents self.old) (contents self.new) }
        ensures rest { rest self.new ≡ rest self.old }
        ensures ok { IfOk result (λ n.
            IsName (contents self.new) n (name_of (contents self.old) node)) }
        ensures err { OnErr result (contents self.new ≡ contents self.old) };

    /// Whether two names are equal.
    fn same_name(&self, m: u64, n: u64) -> bool
        requires m_in { m < length (contents self.now).names }
        requires n_in { n < length (contents self.now).names }
        ensures { IsTrue result ↔ (name_at (contents self.now) m ≡ name_at (contents self.now) n) };

    /// Lends room for a walk, empty: what was given back last, or else room that has no memory yet
    /// and takes it from `alloc`. It takes none itself.
    fn lend_room(&mut self, alloc: Global) -> Room
        ensures contents { contents self.new ≡ contents self.old }
        ensures rest { rest self.new ≡ rest self.old }
        ensures empty { IsEmpty result };

    /// Takes room back, whatever is in it, and keeps its memory for the next walk.
    fn keep_room(&mut self, room: Room)
        ensures contents { contents self.new ≡ contents self.old }
        ensures rest { rest self.new ≡ rest self.old };

    /// The text of a number.
    fn text(&self, s: u64) -> &Text
        requires { s < length (contents self.now).texts }
        ensures { result.now ≡ text_at (contents self.now) s };

    /// A number of the text.
    fn make_text(&mut self, text: Text) -> Result<u64, NoMemory>
        ensures keeps { Extends (contents self.old) (contents self.new) }
        ensures rest { rest self.new ≡ rest self.old }
        ensures ok { IfOk result (λ s. IsText (contents self.new) s text) }
        ensures err { OnErr result (contents self.new ≡ contents self.old) };
}
