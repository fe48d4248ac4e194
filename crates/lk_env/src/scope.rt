//! What names mean while a unit is at work: a library, and auxiliary types of a block beside it.

ghost use Rattle.std.specs.Prelude.{◌≡◌, ◌<◌, ◌+◌, ◌^◌, [], length, map, All, IfOk, IfSome};
ghost use Rattle.lk_store.specs.Contents.{Contents, name_at, Extends};
ghost use Rattle.lk_store.specs.Store.{over, contents_of};
ghost use Rattle.lk_store.specs.Layers.{layers_contents};
ghost use Rattle.lk_env.specs.Units.{unit_at, type_at, IsUnitIn, AreUnitsIn, IsTypeIn};
ghost use Rattle.lk_env.specs.Entries.{IsEntryIn, IsAnswer};
ghost use Rattle.lk_env.specs.Scopes.{place_in, alone_members, auxiliary_members, IsAlone, AreAlone, IsAloneOf, AreAloneOf, AnswersAmong, AnswersAlone, of_types};

use crate::entry::{Entry, Kind, Partial, Site};
use crate::lends::Lends;
use crate::library::Library;
use crate::unit::{Block, BlockType, Unit};
use lk_store::memory::NoMemory;
use lk_store::overlay::Overlay;
use lk_store::terms::Terms;
use lk_tree::rule::Rule;
use std::alloc::Global;
use std::marker::Model;
use std::snapshot::Snapshot;

/// A library, and auxiliary types of the block that is at work.
#[derive(Drop)]
pub struct Scope<'a> {
    library: &'a Library,
    /// Each is a block of its one type, without constructors.
    auxiliary: Vec<Unit>,
    /// The store when the auxiliary types were given: they stand in it.
    given: Snapshot<Overlay<'a>>,
}

impl<'a> Model for Scope<'a> {
    ghost use Rattle.std.specs.Prelude.{◌<◌, ◌+◌, ◌^◌, length, All, ◌++◌};
    ghost use Rattle.lk_store.specs.Contents.{Extends};
    ghost use Rattle.lk_store.specs.Store.{over, contents_of};
    ghost use Rattle.lk_store.specs.Layers.{layers_contents};
    ghost use Rattle.lk_env.specs.StoredScope.{StoredScope};
    ghost use Rattle.lk_env.specs.Units.{AreUnitsIn};
    ghost use Rattle.lk_env.specs.Scopes.{AreAlone};

    ghost Value = { StoredScope };

    ghost view = { λ s. record {
      tables = over s.given.value.base s.given.value.own;
      units = s.library.now.units ++ s.auxiliary.items;
      library = s.library.now;
      auxiliary = s.auxiliary.items;
    } };

    ghost invariant = { λ s.
        Extends (contents_of s.library.now.tables) (layers_contents s.given.value)
        × AreUnitsIn (contents_of s.library.now.tables) s.library.now.units
        × AreUnitsIn (layers_contents s.given.value) s.auxiliary.items × AreAlone s.auxiliary.items
        × (0 < length s.auxiliary.items
        → length s.library.now.units + length s.auxiliary.items < 2 ^ 32) };
}

/// A type of a block as a block alone, without constructors.
fn alone(alloc: Global, stated: &BlockType) -> Result<Unit, NoMemory>
    ensures { IfOk result (IsAloneOf stated.now) }
{
    let levels = Vec::from_slice(alloc, &stated.levels)?;
    let mut types: Vec<BlockType> = Vec::new(alloc);
    types.push(BlockType {
        name: stated.name,
        levels,
        ty: stated.ty,
        parameters: stated.parameters,
        indices: stated.indices,
        constructors: Vec::new(alloc),
    })?;
    let recursors = Box::new(alloc, Vec::new(alloc))?;
    Ok(Unit::Block(Block { types, recursors }))
}

/// Types of a block, each as a block alone, without constructors.
fn all_alone(alloc: Global, stated: &[BlockType]) -> Result<Vec<Unit>, NoMemory>
    ensures { IfOk result (λ v. AreAloneOf stated.now v.items) }
{
    let mut made: Vec<Unit> = Vec::new(alloc);
    let mut rest = stated;
    'types: while let Some((first, more)) = rest.split_first() {
        made.push(alone(alloc, first)?)?;
        rest = more;
    }
    Ok(made)
}

/// The entry of an auxiliary type, where it has this name: of the unit of this number, given by the unit at work.
fn alone_named<T: Terms>(
    terms: &T,
    unit: &Unit,
    number: u32,
    origin: u32,
    name: u64,
) -> Option<Entry>
    requires unit_in { IsUnitIn (T.contents terms.now) unit.now }
    requires alone { IsAlone unit.now }
    requires name_in { name < length (T.contents terms.now).names }
    ensures unit { IfSome result (λ e. (e.unit ≡ number) × (e.origin ≡ origin)) }
    ensures answer { (c : Contents) → Extends c (T.contents terms.now) → IsUnitIn c unit.now
        → AnswersAlone c unit.now (name_at (T.contents terms.now) name) result }
{
    match unit {
        Unit::Declaration(_) => None,
        Unit::Block(block) => match block.types.first() {
            Some(ty) => {
                if !terms.same_name(ty.name, name) {
                    return None;
                }
                Some(Entry {
                    kind: Kind::Type(0),
                    stated: ty.ty,
                    unit: number,
                    origin,
                })
            }
            None => None,
        },
    }
}

/// The entry of the auxiliary type of a name; the first of them has this number as a unit.
fn named_among<T: Terms>(
    terms: &T,
    auxiliary: &[Unit],
    first: u32,
    origin: u32,
    name: u64,
) -> Option<Entry>
    requires units_in { AreUnitsIn (T.contents terms.now) auxiliary.now }
    requires alone { AreAlone auxiliary.now }
    requires fits { first + length auxiliary.now < 2 ^ 32 }
    requires name_in { name < length (T.contents terms.now).names }
    ensures origin { IfSome result (λ e. e.origin ≡ origin) }
    ensures answer { (c : Contents) → Extends c (T.contents terms.now)
        → AreUnitsIn c auxiliary.now
        → AnswersAmong c first auxiliary.now (name_at (T.contents terms.now) name) result }
{
    let mut number = first;
    let mut rest = auxiliary;
    'units: while let Some((unit, more)) = rest.split_first() {
        if let Some(entry) = alone_named(terms, unit, number, origin, name) {
            return Some(entry);
        }
        number += 1;
        rest = more;
    }
    None
}

/// The site, of whose own unit no more than types are partial.
fn of_types(site: &Site) -> Site
    ensures { result ≡ of_types site.now }
{
    let partial = match site.partial {
        Partial::Nothing => Partial::Nothing,
        Partial::Types | Partial::Members => Partial::Types,
    };
    Site {
        unit: site.unit,
        partial,
    }
}

impl<'a> Scope<'a> {
    /// A library alone. It takes no memory.
    pub fn new(alloc: Global, library: &'a Library, store: &Overlay<'a>) -> Self
        requires { Extends (contents_of library.now.tables) (layers_contents store.now) }
        ensures tables { result.tables ≡ over store.now.base store.now.own }
        ensures library { result.library ≡ library.now }
        ensures auxiliary { result.auxiliary ≡ [] }
    {
        // Names and trees of the units are numbers of the library.
        let _units = library.units();
        Scope {
            library,
            auxiliary: Vec::new(alloc),
            given: Snapshot::of(store),
        }
    }

    /// A library with these types of a block, which stand in a store over it, each as a block alone, without constructors.
    /// Units and auxiliary types are fewer than 2^32; more are want of memory.
    pub fn beside(
        alloc: Global,
        library: &'a Library,
        store: &Overlay<'a>,
        types: &[BlockType],
    ) -> Result<Self, NoMemory>
        requires over { Extends (contents_of library.now.tables) (layers_contents store.now) }
        requires types_in { All (IsTypeIn (layers_contents store.now)) types.now }
        ensures tables { IfOk result (λ s. s.tables ≡ over store.now.base store.now.own) }
        ensures library { IfOk result (λ s. s.library ≡ library.now) }
        ensures auxiliary { IfOk result (λ s. auxiliary_members
            (layers_contents store.now) s.auxiliary ≡ alone_members
            (map (type_at (layers_contents store.now)) types.now)) }
    {
        let auxiliary = all_alone(alloc, types)?;
        let Some(count) = library.units().len().checked_add(auxiliary.len()) else {
            return Err(NoMemory);
        };
        if count >= 4_294_967_296 {
            return Err(NoMemory);
        }
        Ok(Scope {
            library,
            auxiliary,
            given: Snapshot::of(store),
        })
    }

    /// The library.
    pub fn library(&self) -> &'a Library
        ensures is { result.now ≡ self.now.library }
        ensures over { Extends (contents_of self.now.library.tables) (contents_of self.now.tables) }
    {
        self.library
    }

    /// The auxiliary type of a name, given by this unit.
    fn auxiliary_named<T: Terms>(&self, terms: &T, origin: u32, name: u64) -> Option<Entry>
        requires over { Extends (contents_of self.now.tables) (T.contents terms.now) }
        requires name_in { name < length (T.contents terms.now).names }
        ensures origin { IfSome result (λ e. e.origin ≡ origin) }
        ensures answer { AnswersAmong (contents_of self.now.tables)
            (length self.now.library.units) self.now.auxiliary
            (name_at (T.contents terms.now) name) result }
    {
        if self.auxiliary.is_empty() {
            return None;
        }
        named_among(
            terms,
            &self.auxiliary,
            self.library.units().len() as u32,
            origin,
            name,
        )
    }

    /// What the name means at the site: a partial type of the site's unit, an auxiliary type, another partial member of the
    /// unit, or what the library has below the unit. The number is one of a store that has what the scope has. It takes no
    /// memory.
    pub fn means<T: Terms>(&self, site: &Site, terms: &T, name: u64) -> Result<Entry, Rule>
        requires over { Extends (contents_of self.now.tables) (T.contents terms.now) }
        requires name_in { name < length (T.contents terms.now).names }
        ensures known { IfOk result (IsEntryIn (contents_of self.now.tables)) }
        ensures answer { IsAnswer (contents_of self.now.tables) self.now.units
            (place_in self.now site.now) (name_at (T.contents terms.now) name) result }
    {
        match self.auxiliary_named(terms, site.unit, name) {
            None => self.library.means(site, terms, name),
            Some(auxiliary) => match self.library.means(&of_types(site), terms, name) {
                Ok(entry) => {
                    if entry.origin == site.unit {
                        Ok(entry)
                    } else {
                        Ok(auxiliary)
                    }
                }
                Err(_) => Ok(auxiliary),
            },
        }
    }
}

impl<'a> Lends for Scope<'a> {
    ghost use Rattle.lk_env.specs.StoredScope.{lent_by};

    ghost lent = { lent_by };

    fn unit(&self, number: u32) -> Option<&Unit> {
        let units = self.library.units();
        let place = number as usize;
        if place < units.len() {
            return units.get(place);
        }
        self.auxiliary.get(place - units.len())
    }
}
