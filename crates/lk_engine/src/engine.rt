//! The engine: a store over that of a library in which questions are answered, as a unit of the
//! library may ask them.

ghost use Rattle.std.specs.Prelude.{◌≡◌, ◌<◌, [], map, All, OnOk, IfErr, IfSome, IsTrue};
ghost use Rattle.lk_tree.specs.Tree.{zero_level, wide};
ghost use Rattle.lk_store.specs.Contents.{Extends};
ghost use Rattle.lk_store.specs.Store.{contents_of};
ghost use Rattle.lk_env.specs.Scopes.{alone_members};
ghost use Rattle.lk_env.specs.Units.{type_at, IsTypeIn};
ghost use Rattle.lk_ask.specs.Instances.{AreInstances};
ghost use Rattle.lk_desk.specs.Job.{job_of};
ghost use Rattle.lk_store.specs.Sizes.{sizes_of};
ghost use Rattle.lk_store.specs.Layers.{layers_contents};
ghost use Rattle.lk_store.specs.Values.{AreApart};
ghost use Rattle.lk_engine.specs.Lookouts.{row_count, IsBounded, Tidies, Restarts, GivesMembers};

use crate::families::family_of;
use crate::knowledge::Knows;
use crate::limit::{Limit, rows_of};
use crate::parameters::parameters_at;
use lk_ask::asks::Asks;
use lk_ask::instances::Instances;
use lk_ask::lookout::Lookout;
use lk_ask::query::{Answer, Query};
use lk_ask::stop::Stop;
use lk_env::entry::{Partial, Site};
use lk_env::library::Library;
use lk_env::scope::Scope;
use lk_env::unit::BlockType;
use lk_family::{Families, Family};
use lk_laws::{Laws, Needed, is_given};
use lk_meter::Meter;
use lk_quot::{Quotients, may_stand};
use lk_store::memory::NoMemory;
use lk_store::node::{LevelNode, ListNode, NameNode, Node};
use lk_store::overlay::Overlay;
use lk_store::room::Room;
use lk_store::tables::Tables;
use lk_store::terms::Terms;
use lk_store::text::Text;
use lk_tree::rule::Rule;
use std::alloc::Global;
use std::marker::Model;
use std::mem::drop;

/// An engine over a library. What units make stands over the library's store, and goes when a unit
/// is started, once it passes a limit; what the memo keeps, which is lent, goes with the unit, but
/// for what outlasts one. Whether answers are shared with other workers is told by its parameter.
pub struct Engine<'a, K: Knows> {
    pub(crate) lookout: Lookout<'a, Overlay<'a>>,
    /// How much of what units made stays.
    limit: Limit,
    pub(crate) knowledge: &'a mut K,
}

impl<'a, K: Knows> Model for Engine<'a, K> {
    ghost use Rattle.lk_store.specs.Layers.{Layers};
    ghost use Rattle.lk_ask.specs.Outlook.{Outlook};
    ghost use Rattle.lk_engine.specs.Lookouts.{Stands};

    ghost Value = { Outlook Layers };

    ghost view = { λ s. s.lookout };

    ghost invariant = { λ s. Stands s.lookout (K.memo s.knowledge.now)
        (K.shared s.knowledge.now) };
}

impl<K: Knows> Drop for Engine<'_, K> {
    fn drop(self) {
        let Engine {
            lookout,
            limit: _,
            knowledge: _,
        } = self;
        drop(lookout);
    }
}

/// Whether what units made may stay beside what the library has.
fn may_stay(lookout: &Lookout<'_, Overlay<'_>>, limit: &mut Limit) -> bool
    ensures { IsTrue result → IsBounded (row_count (sizes_of lookout.now.terms.own))
        (row_count (sizes_of lookout.now.terms.base)) }
{
    let terms = &lookout.terms;
    limit.lets_stay(rows_of(terms.own_sizes()), rows_of(terms.base_sizes()))
}

/// Forgets what units made, unless it stays.
fn tidy(terms: &mut Overlay<'_>, instances: &mut Instances, stays: bool)
    ensures tidies { Tidies terms.old terms.new stays }
    ensures instances { let before = layers_contents terms.old in
        let after = layers_contents terms.new in
        AreInstances before instances.old.table → AreInstances after instances.new.table }
{
    if stays {
        return;
    }
    terms.clear();
    instances.clear();
}

/// Looks from this unit, of which nothing is partial, with no auxiliary types, and this budget.
/// What earlier units made stays, or the store has what the library has.
fn restart<'a>(lookout: &mut Lookout<'a, Overlay<'a>>, unit: u32, budget: u128, stays: bool)
    requires { lookout.old.terms.base ≡ lookout.old.scope.library.tables }
    ensures { Restarts lookout.old lookout.new unit budget stays }
{
    let partial = Partial::Nothing;
    let library = lookout.scope.library();
    tidy(&mut lookout.terms, &mut lookout.instances, stays);
    lookout.site = Site { unit, partial };
    lookout.scope = Scope::new(lookout.alloc, library, &lookout.terms);
    lookout.meter = Meter::new(budget);
}

/// From here on so much of the unit at work is partial, and no auxiliary type.
fn give_in<'a>(lookout: &mut Lookout<'a, Overlay<'a>>, partial: Partial)
    ensures { GivesMembers lookout.old lookout.new partial [] }
{
    let library = lookout.scope.library();
    lookout.scope = Scope::new(lookout.alloc, library, &lookout.terms);
    lookout.site.partial = partial;
}

/// From here on so much of the unit at work is partial, and these types beside.
fn give_beside_in<'a>(
    lookout: &mut Lookout<'a, Overlay<'a>>,
    partial: Partial,
    types: &[BlockType],
) -> Result<(), NoMemory>
    requires { All (IsTypeIn (layers_contents lookout.old.terms)) types.now }
    ensures gives { OnOk result (GivesMembers lookout.old lookout.new partial
        (alone_members (map (type_at (layers_contents lookout.old.terms))
        types.now))) }
    ensures refused { IfErr result (λ e. lookout.new ≡ lookout.old) }
{
    let library = lookout.scope.library();
    lookout.scope = Scope::beside(lookout.alloc, library, &lookout.terms, types)?;
    lookout.site.partial = partial;
    Ok(())
}

/// Equal levels have one number, and so have equal trees.
fn once_in(lookout: &Lookout<'_, Overlay<'_>>)
    ensures levels { AreApart zero_level (layers_contents lookout.now.terms).levels }
    ensures trees { AreApart wide (layers_contents lookout.now.terms).trees }
{
    lookout.terms.stands_once();
}

/// How many turns were taken.
fn turns_of(lookout: &Lookout<'_, Overlay<'_>>) -> u64
    ensures { result ≡ lookout.now.meter.turns }
{
    lookout.meter.turns
}

impl<'a, K: Knows> Engine<'a, K> {
    /// An engine at the first unit, with nothing to spend. The memo is emptied. Answers are shared
    /// at a desk of the library, if there is one. It takes no memory.
    pub fn new(alloc: Global, library: &'a Library, knowledge: &'a mut K) -> Self
        requires { IfSome (K.shared knowledge.old) (λ s. s.job ≡ job_of library.now) }
        ensures library { result.scope.library ≡ library.now }
        ensures auxiliary { result.scope.auxiliary ≡ [] }
        ensures unit { result.site.unit ≡ 0 }
        ensures partial { result.site.partial ≡ Partial.Nothing }
        ensures contents { layers_contents result.terms ≡ contents_of library.now.tables }
        ensures left { result.meter.left ≡ 0 }
        ensures turns { result.meter.turns ≡ 0 }
    {
        knowledge.begin(library.base().len());
        let terms = Overlay::new(alloc, library.base());
        let lookout = Lookout {
            alloc,
            scope: Scope::new(alloc, library, &terms),
            site: Site {
                unit: 0,
                partial: Partial::Nothing,
            },
            terms,
            meter: Meter::new(0),
            instances: Instances::new(alloc),
        };
        Engine {
            lookout,
            limit: Limit::new(),
            knowledge,
        }
    }

    /// Begins a unit: the names below it are seen, nothing of it is partial, and so many steps may
    /// be taken. What earlier units made goes once it passes a limit, and of the answers all but
    /// those over the library's own terms, or over terms that stay. It costs nothing that grows
    /// with the library.
    pub fn start(&mut self, unit: u32, budget: u128)
        ensures library { self.new.scope.library ≡ self.old.scope.library }
        ensures auxiliary { self.new.scope.auxiliary ≡ [] }
        ensures unit { self.new.site.unit ≡ unit }
        ensures partial { self.new.site.partial ≡ Partial.Nothing }
        ensures contents { Extends (contents_of self.old.scope.library.tables)
            (layers_contents self.new.terms) }
        ensures bounded { IsBounded (row_count (sizes_of self.new.terms.own))
            (row_count (sizes_of self.old.scope.library.tables)) }
        ensures left { self.new.meter.left ≡ budget }
        ensures turns { self.new.meter.turns ≡ 0 }
    {
        let stays = may_stay(&self.lookout, &mut self.limit);
        self.begin(unit, budget, stays);
    }

    /// Begins a unit as `start` does, but all that earlier units made stays, however much it is. It
    /// is for whoever keeps numbers from one unit to the next.
    pub fn go_on(&mut self, unit: u32, budget: u128)
        ensures library { self.new.scope.library ≡ self.old.scope.library }
        ensures auxiliary { self.new.scope.auxiliary ≡ [] }
        ensures unit { self.new.site.unit ≡ unit }
        ensures partial { self.new.site.partial ≡ Partial.Nothing }
        ensures terms { self.new.terms ≡ self.old.terms }
        ensures contents { Extends (contents_of self.old.scope.library.tables)
            (layers_contents self.new.terms) }
        ensures left { self.new.meter.left ≡ budget }
        ensures turns { self.new.meter.turns ≡ 0 }
    {
        self.begin(unit, budget, true);
    }

    /// Begins a unit. What earlier units made stays, or all of it goes, and of the answers all but
    /// those over the terms that stand then.
    fn begin(&mut self, unit: u32, budget: u128, stays: bool)
        ensures restarts { Restarts self.old self.new unit budget stays }
        ensures contents { Extends (contents_of self.old.scope.library.tables)
            (layers_contents self.new.terms) }
    {
        restart(&mut self.lookout, unit, budget, stays);
        let terms = self.lookout.len();
        self.knowledge.start_unit(unit, terms, stays);
    }

    /// Equal levels have one number, and so have equal trees, those of the library among them.
    pub fn stands_once(&self)
        ensures levels { AreApart zero_level (layers_contents self.now.terms).levels }
        ensures trees { AreApart wide (layers_contents self.now.terms).trees }
    {
        once_in(&self.lookout);
    }

    /// From here on what units made goes when the next one is begun, unless it is few rows. For where
    /// memory is wanting.
    pub fn let_go(&mut self)
        ensures { self.new ≡ self.old }
    {
        self.limit.let_go();
    }

    /// How many questions were opened for the unit that was begun last, those of which an answer
    /// was kept among them. At the greatest number it stays.
    pub fn turns(&self) -> u64
        ensures { result ≡ self.now.meter.turns }
    {
        turns_of(&self.lookout)
    }
}

impl<'a, K: Knows> Terms for Engine<'a, K> {
    ghost use Rattle.lk_store.specs.Layers.{layers_contents};

    /// All but the terms: the scope, from where it is seen, what is left of the budget, and the
    /// library's tables.
    type Rest = (Scope<'a>, Site, Meter, Tables);

    ghost rest = { λ s. (s.scope, s.site, s.meter, s.terms.base) };

    ghost contents = { λ s. layers_contents s.terms };

    fn len(&self) -> u64 {
        self.lookout.len()
    }

    fn view(&self, e: u64) -> Node {
        self.lookout.view(e)
    }

    fn make(&mut self, node: Node) -> Result<u64, NoMemory> {
        self.lookout.make(node)
    }

    fn same(&self, a: u64, b: u64) -> bool {
        self.lookout.same(a, b)
    }

    fn loose_bound(&self, e: u64) -> u128 {
        self.lookout.loose_bound(e)
    }

    fn local_bound(&self, e: u64) -> u128 {
        self.lookout.local_bound(e)
    }

    fn has_params(&self, e: u64) -> bool {
        self.lookout.has_params(e)
    }

    fn is_narrow(&self, e: u64) -> bool {
        self.lookout.is_narrow(e)
    }

    fn level(&self, l: u64) -> LevelNode {
        self.lookout.level(l)
    }

    fn make_level(&mut self, node: LevelNode) -> Result<u64, NoMemory> {
        self.lookout.make_level(node)
    }

    fn level_has_params(&self, l: u64) -> bool {
        self.lookout.level_has_params(l)
    }

    fn level_is_zero(&self, l: u64) -> bool {
        self.lookout.level_is_zero(l)
    }

    fn levels(&self, ls: u64) -> ListNode {
        self.lookout.levels(ls)
    }

    fn make_levels(&mut self, node: ListNode) -> Result<u64, NoMemory> {
        self.lookout.make_levels(node)
    }

    fn levels_have_params(&self, ls: u64) -> bool {
        self.lookout.levels_have_params(ls)
    }

    fn count_names(&self) -> u64 {
        self.lookout.count_names()
    }

    fn name(&self, n: u64) -> NameNode {
        self.lookout.name(n)
    }

    fn make_name(&mut self, node: NameNode) -> Result<u64, NoMemory> {
        self.lookout.make_name(node)
    }

    fn same_name(&self, m: u64, n: u64) -> bool {
        self.lookout.same_name(m, n)
    }

    fn lend_room(&mut self, alloc: Global) -> Room {
        self.lookout.lend_room(alloc)
    }

    fn keep_room(&mut self, room: Room) {
        self.lookout.keep_room(room)
    }

    fn text(&self, s: u64) -> &Text {
        self.lookout.text(s)
    }

    fn make_text(&mut self, text: Text) -> Result<u64, NoMemory> {
        self.lookout.make_text(text)
    }
}

impl<'a, K: Knows> Asks for Engine<'a, K> {
    ghost use Rattle.std.proofs.Common.{ap};
    ghost use Rattle.lk_engine.specs.Lookouts.{standing_at, places_at};

    /// The library and the number of the unit at work.
    type Basis = (Library, u32);

    ghost standing = { λ s. standing_at s.scope s.site };

    ghost left = { λ s. s.meter.left };

    ghost places = { places_at };

    fn ask(&mut self, query: Query<u64>) -> Result<Answer<u64>, Stop> {
        self.knowledge.answer(&mut self.lookout, query)
    }

    fn parameter_count(&self, name: u64) -> Result<Option<u64>, Rule> {
        parameters_at(&self.lookout, name)
    }

    fn give(&mut self, partial: Partial) {
        give_in(&mut self.lookout, partial);
        self.knowledge.clear();
    }

    fn give_beside(&mut self, partial: Partial, types: &[BlockType]) -> Result<(), NoMemory> {
        let given = give_beside_in(&mut self.lookout, partial, types);
        self.knowledge.clear();
        given
    }

    ghost decided = { λ a b h. (
      ap (λ r. standing_at r.0 r.1) h,
      ap (λ r. r.2.left) h,
    ) };
}

impl<'a, K: Knows> Families for Engine<'a, K> {
    fn family(&self, alloc: Global, name: u64) -> Result<Option<Family>, Stop> {
        family_of(&self.lookout, alloc, name)
    }
}

impl<'a, K: Knows> Quotients for Engine<'a, K> {
    fn quotient(&mut self, name: u64, levels: &[u64], ty: u64) -> Result<(), Stop> {
        may_stand(&mut self.lookout, name, levels, ty)
    }
}

impl<'a, K: Knows> Laws for Engine<'a, K> {
    fn need(&mut self, needed: Needed) -> Result<(), Stop> {
        is_given(&mut self.lookout, needed)
    }
}
