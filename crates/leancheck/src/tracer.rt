//! Who answers what is asked for derivations, of one unit after another.

ghost use Rattle.lk_env.specs.StoredLibrary.{StoredLibrary};
ghost use Rattle.leancheck.specs.Turning.{TurnsTo, HasEachOnce};

use lk_handle::EngineHandle;
use lk_step::{Derives, EngineCalls};

/// Whoever answers questions of one unit of a library after another, over one store.
pub trait Tracer: Derives {
    /// The library, which no call changes.
    ghost library: { Self.Beside → StoredLibrary };

    /// Turns to a unit: from here on names mean what they mean to it, and nothing of it is partial.
    fn turn_to(&mut self, unit: u32)
        ensures { TurnsTo Self.contents Self.rest Self.sight library self.old self.new unit };

    /// Equal levels have one number, and so have equal trees.
    fn has_each_once(&self)
        ensures { HasEachOnce (Self.contents self.now) };
}

impl<E: EngineCalls> Tracer for EngineHandle<E> {
    ghost library = { λ b. b.0.library };

    fn turn_to(&mut self, unit: u32) {
        self.look_from(unit);
    }

    fn has_each_once(&self) {
        self.stands_once();
    }
}
