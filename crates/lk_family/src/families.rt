//! Who tells the block of a type.

ghost use Rattle.std.specs.Prelude.{◌<◌, length, IfOk, IfSome};
ghost use Rattle.lk_store.specs.Contents.{name_at};
ghost use Rattle.lk_family.specs.Families.{HasFamily, IsFamilyIn};

use crate::family::Family;
use lk_ask::asks::Asks;
use lk_ask::stop::Stop;
use std::alloc::Global;

/// Whoever answers questions and also tells the block of a type, for which it looks the type's name
/// up.
pub trait Families: Asks {
    /// The type that a name means, with all types of its block; none where it means something else.
    /// It takes no step.
    fn family(&self, alloc: Global, name: u64) -> Result<Option<Family>, Stop>
        requires { name < length (Self.contents self.now).names }
        ensures known { IfOk result (λ o. IfSome o (IsFamilyIn (Self.contents self.now))) }
        ensures family { HasFamily (Self.standing self.now).place
            (name_at (Self.contents self.now) name) (Self.contents self.now) result };
}
