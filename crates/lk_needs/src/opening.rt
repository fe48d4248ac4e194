//! What a thing leads to.

ghost use Rattle.std.specs.Prelude.{◌≡◌, ◌<◌, ◌++◌, length, take, IfOk, OnOk};
ghost use Rattle.lk_store.specs.Contents.{name_at};
ghost use Rattle.lk_store.specs.Store.{contents_of};
ghost use Rattle.lk_env.specs.Units.{library_of};
ghost use Rattle.lk_env.specs.Places.{position_in};
ghost use Rattle.lk_needs.specs.Things.{giver_things};
ghost use Rattle.lk_needs.specs.Leads.{AreRecursors, IsOfLibrary, Leads};

use crate::endings::Ending;
use crate::followers::{Followers, followers_of};
use crate::listing::{push_names, push_node, push_unit};
use crate::thing::Thing;
use lk_env::library::Library;
use lk_store::base_store::BaseStore;
use lk_store::memory::NoMemory;
use lk_store::terms::Terms;
use std::alloc::Global;

/// For each name the names of recursors that stand behind it: `T.rec`, and `T.rec_1` and so on.
#[derive(Drop)]
pub struct Recursors {
    pub plain: Followers,
    pub numbered: Followers,
}

pub fn recursors_of(alloc: Global, base: &BaseStore) -> Result<Recursors, NoMemory>
    ensures { IfOk result (AreRecursors (contents_of base.now)) }
{
    Ok(Recursors {
        plain: followers_of(alloc, base, Ending::Plain)?,
        numbered: followers_of(alloc, base, Ending::Numbered)?,
    })
}

/// The unit that gives a name at this unit.
fn push_giver(
    things: &mut Vec<Thing>,
    library: &Library,
    unit: u32,
    name: u64,
) -> Result<(), NoMemory>
    requires { name < length (contents_of library.now.tables).names }
    ensures { OnOk result (things.new.items ≡ things.old.items
        ++ giver_things (position_in 0 (take unit (library_of library.now))
        (name_at (contents_of library.now.tables) name))) }
{
    match library.position_before(unit, name) {
        Some(position) => things.push(Thing::Unit(position.unit))?,
        None => {}
    }
    Ok(())
}

/// Lists what a thing leads to, where names are looked up at this unit. What stood in the list is
/// gone.
pub(crate) fn list_things(
    things: &mut Vec<Thing>,
    library: &Library,
    recursors: &Recursors,
    unit: u32,
    thing: Thing,
) -> Result<(), NoMemory>
    requires thing_in { IsOfLibrary library.now thing }
    requires recursors { AreRecursors (contents_of library.now.tables) recursors.now }
    ensures { OnOk result (Leads library.now unit thing things.new.items) }
{
    things.clear();
    match thing {
        Thing::Unit(u) => {
            let stated = &library.units()[u as usize];
            push_unit(things, library.base(), &recursors.plain, stated)
        }
        Thing::Name(name) => push_giver(things, library, unit, name),
        Thing::Tree(e) => push_node(things, library.base().view(e)),
        Thing::Numbered(name) => push_names(things, recursors.numbered.of(name)),
    }
}
