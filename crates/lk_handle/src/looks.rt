//! A handle looks names up, and answers questions that are answered.

ghost use Rattle.lk_env.specs.StoredScope.{lent_by};
ghost use Rattle.lk_step.specs.Calls.{sight_from};

use crate::handle::EngineHandle;
use crate::surroundings::BesideLibrary;
use lk_ask::looks::Looks;
use lk_ask::query::{Answer, Query};
use lk_env::entry::Entry;
use lk_env::lends::Lends;
use lk_env::unit::Unit;
use lk_step::{Derives, EngineCalls};
use lk_store::memory::NoMemory;
use lk_tree::rule::Rule;
use std::alloc::Global;

impl<E: EngineCalls> Lends for EngineHandle<E> {
    ghost lent = { λ s. lent_by s.scope };

    fn unit(&self, number: u32) -> Option<&Unit> {
        self.engine.unit(number)
    }
}

impl<E: EngineCalls> Looks for EngineHandle<E> {
    type Beside = BesideLibrary;

    /// The units are lent through the handle itself.
    type Scope = EngineHandle<E>;

    ghost sight = { λ r. sight_from r };

    fn alloc(&self) -> Global {
        self.engine.alloc()
    }

    fn scope(&self) -> &EngineHandle<E> {
        self.engine.stands_over();
        self
    }

    fn means(&self, name: u64) -> Result<Entry, Rule> {
        self.engine.means(name)
    }

    fn look(&mut self, name: u64, missing: Rule) -> Result<Entry, Rule> {
        self.engine.look(name, missing)
    }

    fn at_levels(&mut self, entry: Entry, levels: u64, e: u64) -> Result<Option<u64>, NoMemory> {
        self.engine.at_levels(entry, levels, e)
    }
}

impl<E: EngineCalls> Derives for EngineHandle<E> {
    fn answer(&mut self, query: Query<u64>, enough: u128) -> Result<Answer<u64>, NoMemory> {
        self.engine.answer(query, enough)
    }
}
