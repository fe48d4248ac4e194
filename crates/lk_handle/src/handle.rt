//! The handle, and how it turns from unit to unit.

ghost use Rattle.std.specs.Prelude.{◌≡◌};
ghost use Rattle.lk_tree.specs.Tree.{zero_level, wide};
ghost use Rattle.lk_store.specs.Values.{AreApart};
ghost use Rattle.lk_step.specs.Calls.{contents_from, LooksFrom};

use lk_step::EngineCalls;
use std::marker::Model;

/// An engine, as its lookout is seen.
#[derive(Drop)]
pub struct EngineHandle<E: EngineCalls> {
    pub(crate) engine: E,
}

impl<E: EngineCalls> Model for EngineHandle<E> {
    ghost use Rattle.lk_store.specs.Layers.{Layers};
    ghost use Rattle.lk_ask.specs.Outlook.{Outlook};

    ghost Value = { Outlook Layers };

    ghost view = { λ s. E.outlook s.engine };
}

impl<E: EngineCalls> EngineHandle<E> {
    /// A handle of the engine. It takes no memory.
    pub fn new(engine: E) -> Self
        ensures { result ≡ E.outlook engine }
    {
        EngineHandle { engine }
    }

    /// From here on it looks from this unit, nothing of which is partial. It takes no memory.
    pub fn look_from(&mut self, unit: u32)
        ensures { LooksFrom self.old self.new unit }
    {
        self.engine.turn_to(unit);
    }

    /// Equal levels have one number, and so have equal trees, those of the library among them.
    pub fn stands_once(&self)
        ensures levels { AreApart zero_level (contents_from self.now).levels }
        ensures trees { AreApart wide (contents_from self.now).trees }
    {
        self.engine.terms().stands_once();
    }
}
