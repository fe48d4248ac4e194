//! The types of literals.

ghost use Rattle.lk_rulebook.specs.Names.{named, nat as nat_name, string as string_name};
ghost use Rattle.lk_ask.specs.Looks.{MakesTree};

use crate::builtin::{Builtin, make_builtin};
use crate::constant::make_named;
use lk_ask::looks::Looks;
use lk_store::memory::NoMemory;

/// The constant `Nat`.
pub fn nat<L: Looks>(looks: &mut L) -> Result<u64, NoMemory>
    ensures { MakesTree L.contents L.rest looks.old looks.new result (λ _. named nat_name) }
{
    let name = make_builtin(looks.alloc(), looks, Builtin::Nat)?;
    make_named(looks, name)
}

/// The constant `String`.
pub fn string<L: Looks>(looks: &mut L) -> Result<u64, NoMemory>
    ensures { MakesTree L.contents L.rest looks.old looks.new result (λ _. named string_name) }
{
    let name = make_builtin(looks.alloc(), looks, Builtin::String)?;
    make_named(looks, name)
}
