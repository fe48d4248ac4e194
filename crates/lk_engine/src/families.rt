//! The blocks of types that names mean.

ghost use Rattle.std.specs.Prelude.{◌≡◌, ◌<◌, length, map, All, IfOk, IfSome};
ghost use Rattle.lk_store.specs.Contents.{Contents, name_at};
ghost use Rattle.lk_env.specs.Units.{type_at, IsTypeIn};
ghost use Rattle.lk_family.specs.Families.{HasFamily, IsFamilyIn};
ghost use Rattle.lk_engine.specs.Lookouts.{place_of};

use lk_ask::lookout::Lookout;
use lk_ask::looks::Looks;
use lk_ask::stop::Stop;
use lk_env::lent::type_of;
use lk_env::unit::{Block, BlockType};
use lk_family::Family;
use lk_family::copies::{copy_type, copy_types};
use lk_store::memory::NoMemory;
use lk_store::terms::Terms;
use std::alloc::Global;

/// A type with the types of its block, copied.
fn copied(alloc: Global, block: &Block, own: &BlockType) -> Result<Family, NoMemory>
    ensures own { IfOk result (λ f. (c : Contents) → type_at c f.own ≡ type_at c own.now) }
    ensures types { IfOk result (λ f. (c : Contents) → map (type_at c) f.types.items
        ≡ map (type_at c) block.now.types.items) }
    ensures known { IfOk result (λ f. (c : Contents) → IsTypeIn c own.now
        → All (IsTypeIn c) block.now.types.items → IsFamilyIn c f) }
{
    let own = copy_type(alloc, own)?;
    let types = copy_types(alloc, &block.types)?;
    Ok(Family { own, types })
}

/// The type that a name means, with all types of its block; none where it means something else.
/// Nothing is noted.
pub fn family_of<T: Terms>(
    lookout: &Lookout<'_, T>,
    alloc: Global,
    name: u64,
) -> Result<Option<Family>, Stop>
    requires { name < length (T.contents lookout.now.terms).names }
    ensures known { IfOk result (λ o. IfSome o (IsFamilyIn (T.contents lookout.now.terms))) }
    ensures family { HasFamily (place_of lookout.now) (name_at (T.contents lookout.now.terms) name)
        (T.contents lookout.now.terms) result }
{
    match lookout.means(name) {
        Err(rule) => Err(Stop::No(rule)),
        Ok(entry) => match type_of(lookout.scope(), entry) {
            None => Ok(None),
            Some((block, own)) => Ok(Some(copied(alloc, block, own)?)),
        },
    }
}
