//! The parameters of levels, each once.

ghost use Rattle.std.specs.Prelude.{◌≡◌, ◌<◌, [], ◌∷◌, length, OnOk};
ghost use Rattle.lk_store.specs.Contents.{name_at};
ghost use Rattle.lk_level_order.specs.Parameters.{names_of, IsWithin, AreParameters, Gathers, with_name};

use lk_rows::row::Row;
use lk_rows::table::Table;
use lk_store::hashing::hash_pair;
use lk_store::memory::NoMemory;
use lk_store::terms::Terms;

/// A parameter, by the number of its name.
#[derive(Clone, Copy)]
pub struct Parameter {
    pub name: u64,
}

impl Row for Parameter {
    type Key = u64;

    ghost key = { λ p. p.name };

    ghost use Rattle.lk_subst.specs.Parts.{hash_of_level};

    ghost hash = { hash_of_level };

    fn hash_of(seed: u64, wanted: &u64) -> u64 {
        hash_pair(seed, *wanted, 0)
    }

    fn own_hash(&self, seed: u64) -> u64 {
        hash_pair(seed, self.name, 0)
    }

    fn has(&self, wanted: &u64) -> bool {
        self.name == *wanted
    }
}

/// Adds a parameter where it is not there yet.
pub fn add<T: Terms>(terms: &T, names: &mut Table<Parameter>, name: u64) -> Result<(), NoMemory>
    requires { name < length (T.contents terms.now).names }
    ensures gathers { OnOk result (Gathers (T.contents terms.now)
        (name_at (T.contents terms.now) name ∷ []) names.old names.new) }
    ensures complete { OnOk result (IsWithin (name_at (T.contents terms.now) name ∷ [])
        (names_of (T.contents terms.now) names.new)) }
    ensures order { OnOk result (AreParameters (T.contents terms.now) names.old
        → names_of (T.contents terms.now) names.new
        ≡ with_name (names_of (T.contents terms.now) names.old)
        (name_at (T.contents terms.now) name)) }
{
    let _names = terms.count_names();
    match names.find(&name) {
        Some(_) => Ok(()),
        None => {
            names.push(Parameter { name })?;
            Ok(())
        }
    }
}
