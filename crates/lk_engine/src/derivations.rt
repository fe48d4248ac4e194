//! The engine as one that derivations are asked of: it looks names up between questions, a question
//! that is known to be answered has a budget of its own, and it turns from unit to unit.

ghost use Rattle.std.specs.Prelude.{◌≡◌, Ok, length, IfOk, IfErr};
ghost use Rattle.lk_store.specs.Contents.{tree_at};
ghost use Rattle.lk_store.specs.Layers.{layers_contents};
ghost use Rattle.lk_ask.specs.Questions.{query_of, IsKnownQuery};
ghost use Rattle.lk_step.specs.Told.{IsAnsweredWithin};
ghost use Rattle.lk_engine.specs.Enough.{AnswersWithin};
ghost use Rattle.lk_engine.specs.Lookouts.{place_of, Metered, Stands};

use crate::engine::Engine;
use crate::knowledge::Knows;
use lk_ask::lookout::Lookout;
use lk_ask::looks::Looks;
use lk_ask::query::{Answer, Query};
use lk_ask::stop::Stop;
use lk_env::entry::Entry;
use lk_env::lends::Lends;
use lk_env::unit::Unit;
use lk_meter::Meter;
use lk_step::EngineCalls;
use lk_store::memory::NoMemory;
use lk_store::node::{LevelNode, ListNode, NameNode, Node};
use lk_store::overlay::Overlay;
use lk_store::room::Room;
use lk_store::terms::Terms;
use lk_store::text::Text;
use lk_tree::rule::Rule;
use std::alloc::Global;

/// From here on so many steps may be taken.
fn allow<'a>(lookout: &mut Lookout<'a, Overlay<'a>>, steps: u128)
    ensures metered { Metered lookout.old lookout.new }
    ensures left { lookout.new.meter.left ≡ steps }
{
    lookout.meter = Meter::new(steps);
}

/// The answer of a question, of which no more than memory can be wanting.
fn told(outcome: Result<Answer<u64>, Stop>) -> Result<Answer<u64>, NoMemory>
    requires { IfErr outcome (λ e. e ≡ Stop.NoMemory) }
    ensures { IfOk result (λ a. outcome ≡ Ok a) }
{
    match outcome {
        Ok(answer) => Ok(answer),
        Err(Stop::NoMemory) => Err(NoMemory),
        Err(Stop::No(_)) => unreachable!(),
        Err(Stop::Spent) => unreachable!(),
    }
}

/// The plain answer of a question that is answered, at no more than `enough`.
fn answer_within<'a, K: Knows>(
    lookout: &mut Lookout<'a, Overlay<'a>>,
    knowledge: &mut K,
    query: Query<u64>,
    enough: u128,
) -> Result<Answer<u64>, NoMemory>
    requires query_in { IsKnownQuery (length (layers_contents lookout.old.terms).trees) query }
    requires stands { Stands lookout.old (K.memo knowledge.old) (K.shared knowledge.old) }
    requires answered { IsAnsweredWithin (place_of lookout.old)
        (query_of (tree_at (layers_contents lookout.old.terms)) query) enough }
    ensures answers { AnswersWithin lookout.old lookout.new (K.memo knowledge.new) result query }
    ensures share { K.shared knowledge.new ≡ K.shared knowledge.old }
{
    allow(lookout, enough);
    let outcome = knowledge.answer(lookout, query);
    told(outcome)
}

impl<K: Knows> EngineCalls for Engine<'_, K> {
    ghost outlook = { λ s. s };

    fn terms(&self) -> &Overlay<'_> {
        &self.lookout.terms
    }

    fn alloc(&self) -> Global {
        self.lookout.alloc
    }

    fn unit(&self, number: u32) -> Option<&Unit> {
        self.lookout.scope.unit(number)
    }

    fn stands_over(&self) {
        let _scope = self.lookout.scope();
    }

    fn means(&self, name: u64) -> Result<Entry, Rule> {
        self.lookout.means(name)
    }

    fn make(&mut self, node: Node) -> Result<u64, NoMemory> {
        self.lookout.make(node)
    }

    fn make_level(&mut self, node: LevelNode) -> Result<u64, NoMemory> {
        self.lookout.make_level(node)
    }

    fn make_levels(&mut self, node: ListNode) -> Result<u64, NoMemory> {
        self.lookout.make_levels(node)
    }

    fn make_name(&mut self, node: NameNode) -> Result<u64, NoMemory> {
        self.lookout.make_name(node)
    }

    fn make_text(&mut self, text: Text) -> Result<u64, NoMemory> {
        self.lookout.make_text(text)
    }

    fn lend_room(&mut self, alloc: Global) -> Room {
        self.lookout.lend_room(alloc)
    }

    fn keep_room(&mut self, room: Room) {
        self.lookout.keep_room(room)
    }

    fn look(&mut self, name: u64, missing: Rule) -> Result<Entry, Rule> {
        self.lookout.look(name, missing)
    }

    fn at_levels(&mut self, entry: Entry, levels: u64, e: u64) -> Result<Option<u64>, NoMemory> {
        self.lookout.at_levels(entry, levels, e)
    }

    fn answer(&mut self, query: Query<u64>, enough: u128) -> Result<Answer<u64>, NoMemory> {
        answer_within(&mut self.lookout, self.knowledge, query, enough)
    }

    fn turn_to(&mut self, unit: u32) {
        self.go_on(unit, 0);
    }
}
