//! What a name means.

ghost use Rattle.std.specs.Prelude.{◌≡◌, ◌<◌, None, length, IfSome, IfNone};
ghost use Rattle.lk_store.specs.Contents.{name_at};
ghost use Rattle.lk_store.specs.Store.{contents_of};
ghost use Rattle.lk_env.specs.Entries.{IsEntryIn};
ghost use Rattle.lk_ask.specs.Looks.{IsOver};
ghost use Rattle.lk_premises.specs.Given.{IsGiven};

use lk_ask::looks::Looks;
use lk_env::entry::Entry;

/// What a name means, where it means anything. Nothing is noted, and it takes no memory.
#[tactic(auto, using(crate::proofs::Given::given_is))]
pub fn meaning_of<L: Looks>(looks: &L, name: u64) -> Option<Entry>
    requires { name < length (L.contents looks.now).names }
    ensures over { IsOver L.contents L.rest L.sight looks.now }
    ensures known { IfSome result
        (IsEntryIn (contents_of (L.sight (L.rest looks.now)).basis.library.tables)) }
    ensures given { IfSome result (IsGiven (L.sight (L.rest looks.now)).basis
        (name_at (L.contents looks.now) name)) }
    ensures missing { IfNone result ((L.sight (L.rest looks.now)).basis.place.means
        (name_at (L.contents looks.now) name) ≡ None) }
{
    match looks.means(name) {
        Ok(entry) => Some(entry),
        Err(_) => None,
    }
}
