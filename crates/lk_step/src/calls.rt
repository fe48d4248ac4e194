//! An engine that derivations are asked of, call by call.
//!
//! What is proved where a value is handed to a generic function grows with its type, once for each
//! method of the traits that the function asks for, those above them among them. An engine has a
//! large type, and `Derives` with the traits above it has some thirty methods. So an engine is handed
//! over by this trait, which has half as many and no trait above it, and the others stand behind a
//! small handle.

ghost use Rattle.std.specs.Prelude.{◌≡◌, ◌<◌, length, option_map, slice_get, IfSome};
ghost use Rattle.lk_store.specs.Contents.{level_of, list_of, name_of, tree_of};
ghost use Rattle.lk_store.specs.Contents.{IsNameIn, IsLevelIn, IsListIn, IsIn};
ghost use Rattle.lk_store.specs.Contents.{IsName, IsText, IsLevel, IsList, IsTree};
ghost use Rattle.lk_store.specs.Rooms.{IsEmpty};
ghost use Rattle.lk_store.specs.Store.{contents_of};
ghost use Rattle.lk_env.specs.StoredScope.{lent_by};
ghost use Rattle.lk_env.specs.Units.{IsUnitIn};
ghost use Rattle.lk_ask.specs.Looks.{IsOver, IsMeant, IsLookedUp, IsTaken};
ghost use Rattle.lk_step.specs.Told.{MayAsk, Answers};
ghost use Rattle.lk_step.specs.Calls.{contents_from, rest_from, sight_from};
ghost use Rattle.lk_step.specs.Calls.{MakesOne, LeavesAll, LooksFrom};

use lk_ask::query::{Answer, Query};
use lk_env::entry::Entry;
use lk_env::unit::Unit;
use lk_store::memory::NoMemory;
use lk_store::node::{LevelNode, ListNode, NameNode, Node};
use lk_store::overlay::Overlay;
use lk_store::room::Room;
use lk_store::text::Text;
use lk_tree::rule::Rule;
use std::alloc::Global;

/// The calls of an engine: its store, lent, for what only reads there, and all others.
pub trait EngineCalls {
    ghost use Rattle.lk_store.specs.Layers.{Layers};
    ghost use Rattle.lk_ask.specs.Outlook.{Outlook};

    /// What its lookout stands for.
    ghost outlook: { Self → Outlook Layers };

    /// The store, lent.
    fn terms(&self) -> &Overlay<'_>
        ensures { result.now ≡ (outlook self.now).terms };

    /// Where memory comes from.
    fn alloc(&self) -> Global;

    /// The unit of a number, if there are so many. It takes no memory.
    fn unit(&self, number: u32) -> Option<&Unit>
        ensures value { option_map (λ u. u.now) result
            ≡ slice_get (lent_by (outlook self.now).scope).units number }
        ensures known { IfSome result (λ u.
            IsUnitIn (contents_of (lent_by (outlook self.now).scope).tables) u.now) };

    /// The store is over that of the library.
    fn stands_over(&self)
        ensures { IsOver contents_from rest_from sight_from (outlook self.now) };

    /// What a name means that was looked up before, as `Looks::means` tells it.
    fn means(&self, name: u64) -> Result<Entry, Rule>
        requires { name < length (contents_from (outlook self.now)).names }
        ensures { IsMeant contents_from rest_from sight_from (outlook self.now) name result };

    /// A number of the tree that the node makes of its parts.
    fn make(&mut self, node: Node) -> Result<u64, NoMemory>
        requires { IsIn (contents_from (outlook self.old)) node }
        ensures { MakesOne (outlook self.old) (outlook self.new) result
            (λ c e. IsTree c e (tree_of (contents_from (outlook self.old)) node)) };

    /// A number of the level that the node makes of its parts.
    fn make_level(&mut self, node: LevelNode) -> Result<u64, NoMemory>
        requires { IsLevelIn (contents_from (outlook self.old)) node }
        ensures { MakesOne (outlook self.old) (outlook self.new) result
            (λ c l. IsLevel c l (level_of (contents_from (outlook self.old)) node)) };

    /// A number of the list of levels that the node makes of its parts.
    fn make_levels(&mut self, node: ListNode) -> Result<u64, NoMemory>
        requires { IsListIn (contents_from (outlook self.old)) node }
        ensures { MakesOne (outlook self.old) (outlook self.new) result
            (λ c ls. IsList c ls (list_of (contents_from (outlook self.old)) node)) };

    /// A number of the name that the node makes of its parts.
    fn make_name(&mut self, node: NameNode) -> Result<u64, NoMemory>
        requires { IsNameIn (contents_from (outlook self.old)) node }
        ensures { MakesOne (outlook self.old) (outlook self.new) result
            (λ c n. IsName c n (name_of (contents_from (outlook self.old)) node)) };

    /// A number of the text.
    fn make_text(&mut self, text: Text) -> Result<u64, NoMemory>
        ensures { MakesOne (outlook self.old) (outlook self.new) result
            (λ c s. IsText c s text) };

    /// Lends room for a walk, empty. It takes no memory.
    fn lend_room(&mut self, alloc: Global) -> Room
        ensures leaves { LeavesAll (outlook self.old) (outlook self.new) }
        ensures empty { IsEmpty result };

    /// Takes room back, and keeps its memory for the next walk.
    fn keep_room(&mut self, room: Room)
        ensures { LeavesAll (outlook self.old) (outlook self.new) };

    /// Looks a constant up, as `Looks::look` does.
    fn look(&mut self, name: u64, missing: Rule) -> Result<Entry, Rule>
        requires { name < length (contents_from (outlook self.old)).names }
        ensures { IsLookedUp contents_from rest_from sight_from (outlook self.old)
            (outlook self.new) name missing result };

    /// A tree of a constant's unit at levels, as `Looks::at_levels` gives it.
    fn at_levels(&mut self, entry: Entry, levels: u64, e: u64) -> Result<Option<u64>, NoMemory>
        requires levels_in { levels < length (contents_from (outlook self.old)).lists }
        requires e_in { e < length (contents_from (outlook self.old)).trees }
        ensures { IsTaken contents_from rest_from sight_from (outlook self.old) (outlook self.new)
            entry levels e result };

    /// The plain answer of a question that is answered, at no more than `enough`.
    fn answer(&mut self, query: Query<u64>, enough: u128) -> Result<Answer<u64>, NoMemory>
        requires { MayAsk contents_from rest_from sight_from (outlook self.old) query enough }
        ensures { Answers contents_from rest_from sight_from (outlook self.old) (outlook self.new)
            query result };

    /// From here on it looks from this unit, nothing of which is partial.
    fn turn_to(&mut self, unit: u32)
        ensures { LooksFrom (outlook self.old) (outlook self.new) unit };
}
