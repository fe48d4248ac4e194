//! A lookout: a store at a library, seen from a site, under a budget.

use crate::constants::{at_levels, look_up};
use crate::instances::{Instances, TreeAt};
use crate::looks::Looks;
use lk_env::entry::{Entry, Site};
use lk_env::scope::Scope;
use lk_meter::Meter;
use lk_store::memory::NoMemory;
use lk_store::node::{LevelNode, ListNode, NameNode, Node};
use lk_store::room::Room;
use lk_store::terms::Terms;
use lk_store::text::Text;
use lk_tree::rule::Rule;
use std::alloc::Global;
use std::marker::Model;

/// A store that has what a scope has, from where that is seen, and what is left of a budget.
#[derive(Drop)]
pub struct Lookout<'a, T: Terms> {
    pub alloc: Global,
    pub scope: Scope<'a>,
    pub site: Site,
    pub terms: T,
    pub meter: Meter,
    /// What was made of trees of constants' units at levels.
    pub instances: Instances,
}

impl<'a, T: Terms> Model for Lookout<'a, T> {
    ghost use Rattle.lk_ask.specs.Outlook.{Outlook};
    ghost use Rattle.lk_ask.specs.Instances.{IsLookout};

    ghost Value = { Outlook T };

    ghost view = { λ s. record {
      scope = s.scope;
      site = s.site;
      terms = s.terms;
      meter = s.meter;
    } };

    ghost invariant = { λ s. IsLookout s.scope.tables (T.contents s.terms) s.instances };
}

impl<'a, T: Terms> Terms for Lookout<'a, T> {
    /// All but the terms: the scope, from where it is seen, what is left of the budget, and what the store has beside them.
    type Rest = (Scope<'a>, Site, Meter, T::Rest);

    ghost rest = { λ s. (s.scope, s.site, s.meter, T.rest s.terms) };

    ghost contents = { λ s. T.contents s.terms };

    fn len(&self) -> u64 {
        self.terms.len()
    }

    fn view(&self, e: u64) -> Node {
        self.terms.view(e)
    }

    fn make(&mut self, node: Node) -> Result<u64, NoMemory> {
        self.terms.make(node)
    }

    fn same(&self, a: u64, b: u64) -> bool {
        self.terms.same(a, b)
    }

    fn loose_bound(&self, e: u64) -> u128 {
        self.terms.loose_bound(e)
    }

    fn local_bound(&self, e: u64) -> u128 {
        self.terms.local_bound(e)
    }

    fn has_params(&self, e: u64) -> bool {
        self.terms.has_params(e)
    }

    fn is_narrow(&self, e: u64) -> bool {
        self.terms.is_narrow(e)
    }

    fn level(&self, l: u64) -> LevelNode {
        self.terms.level(l)
    }

    fn make_level(&mut self, node: LevelNode) -> Result<u64, NoMemory> {
        self.terms.make_level(node)
    }

    fn level_has_params(&self, l: u64) -> bool {
        self.terms.level_has_params(l)
    }

    fn level_is_zero(&self, l: u64) -> bool {
        self.terms.level_is_zero(l)
    }

    fn levels(&self, ls: u64) -> ListNode {
        self.terms.levels(ls)
    }

    fn make_levels(&mut self, node: ListNode) -> Result<u64, NoMemory> {
        self.terms.make_levels(node)
    }

    fn levels_have_params(&self, ls: u64) -> bool {
        self.terms.levels_have_params(ls)
    }

    fn count_names(&self) -> u64 {
        self.terms.count_names()
    }

    fn name(&self, n: u64) -> NameNode {
        self.terms.name(n)
    }

    fn make_name(&mut self, node: NameNode) -> Result<u64, NoMemory> {
        self.terms.make_name(node)
    }

    fn same_name(&self, m: u64, n: u64) -> bool {
        self.terms.same_name(m, n)
    }

    fn lend_room(&mut self, alloc: Global) -> Room {
        self.terms.lend_room(alloc)
    }

    fn keep_room(&mut self, room: Room) {
        self.terms.keep_room(room)
    }

    fn text(&self, s: u64) -> &Text {
        self.terms.text(s)
    }

    fn make_text(&mut self, text: Text) -> Result<u64, NoMemory> {
        self.terms.make_text(text)
    }
}

impl<'a, T: Terms> Looks for Lookout<'a, T> {
    /// The scope, from where it is seen, and what the store has beside its terms.
    type Beside = (Scope<'a>, Site, T::Rest);

    type Scope = Scope<'a>;

    ghost use Rattle.lk_env.specs.StoredScope.{lent_by};
    ghost use Rattle.lk_env.specs.Scopes.{place_in};

    ghost sight = { λ r. record {
      basis = record {
        library = lent_by r.0;
        place = place_in r.0 r.1;
        left = r.2.left;
        beside =
            (r.0, r.1, r.3);
      };
      last = r.2.last;
    } };

    fn alloc(&self) -> Global {
        self.alloc
    }

    fn scope(&self) -> &Scope<'a> {
        &self.scope
    }

    fn means(&self, name: u64) -> Result<Entry, Rule> {
        self.scope.means(&self.site, &self.terms, name)
    }

    fn look(&mut self, name: u64, missing: Rule) -> Result<Entry, Rule> {
        look_up(
            &self.scope,
            &self.site,
            &self.terms,
            name,
            missing,
            &mut self.meter,
        )
    }

    fn at_levels(&mut self, entry: Entry, levels: u64, e: u64) -> Result<Option<u64>, NoMemory> {
        at_levels(
            self.alloc,
            &self.scope,
            &mut self.terms,
            &mut self.instances,
            entry,
            TreeAt { e, levels },
        )
    }
}
