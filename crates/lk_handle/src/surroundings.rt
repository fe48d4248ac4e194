//! What an engine has beside its terms, and beside its library, as contracts see it. No value of
//! these types is made. They stand for what they are said to be and are small themselves, because
//! whoever hands an engine to a generic function pays for the whole of each type that goes along.

use std::marker::Model;

/// All but the terms: the scope, from where it is seen, the meter, and the library's tables.
pub struct BesideTerms;

impl Model for BesideTerms {
    ghost use Rattle.lk_store.specs.declared.tables.Tables.{Tables};
    ghost use Rattle.lk_env.specs.StoredScope.{StoredScope};
    ghost use Rattle.lk_env.specs.declared.entry.Site.{Site};
    ghost use Rattle.lk_meter.specs.declared.meter.Meter.{Meter};
    ghost use Rattle.lk_handle.specs.Surroundings.{no_meter, no_place};

    ghost Value = { StoredScope × Site × Meter × Tables };

    ghost view = { λ s. (no_place.0, no_place.1, no_meter, no_place.2) };
}

/// The scope, from where it is seen, and the library's tables.
pub struct BesideLibrary;

impl Model for BesideLibrary {
    ghost use Rattle.lk_store.specs.declared.tables.Tables.{Tables};
    ghost use Rattle.lk_env.specs.StoredScope.{StoredScope};
    ghost use Rattle.lk_env.specs.declared.entry.Site.{Site};
    ghost use Rattle.lk_handle.specs.Surroundings.{no_place};

    ghost Value = { StoredScope × Site × Tables };

    ghost view = { λ s. no_place };
}
