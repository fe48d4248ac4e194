//! Who lends units by number.

ghost use Rattle.std.specs.Prelude.{◌≡◌, option_map, slice_get, IfSome};
ghost use Rattle.lk_store.specs.Store.{contents_of};
ghost use Rattle.lk_env.specs.Units.{IsUnitIn};
ghost use Rattle.lk_env.specs.StoredLibrary.{StoredLibrary};

use crate::unit::Unit;

/// Units by number, whose names and trees are numbers of a store.
pub trait Lends {
    /// The store's tables, and the units.
    ghost lent: { Self → StoredLibrary };

    /// The unit of a number, if there are so many. It takes no memory.
    fn unit(&self, number: u32) -> Option<&Unit>
        ensures value { option_map (λ u. u.now) result ≡ slice_get (lent self.now).units number }
        ensures known { IfSome result (λ u. IsUnitIn (contents_of (lent self.now).tables) u.now) };
}
