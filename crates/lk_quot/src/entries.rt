//! Which constants a quotient unit gives.

ghost use Rattle.std.specs.Prelude.{◌≡◌, List, Some};
ghost use Rattle.lk_rulebook.specs.Place.{Entry as PlainEntry};
ghost use Rattle.lk_questions.specs.Quotients.{by_quot};
ghost use Rattle.lk_store.specs.Contents.{Contents};
ghost use Rattle.lk_env.specs.declared.unit.Unit.{Unit as StoredUnit};
ghost use Rattle.lk_env.specs.Entries.{plain_entry};

use lk_env::entry::{Entry, Kind};
use lk_env::unit::Body;

/// Whether a quotient unit gives the constant of this entry.
pub fn is_quotient(entry: Entry) -> bool
    ensures { (c : Contents) (us : List StoredUnit) (g : PlainEntry)
        → plain_entry c us entry ≡ Some g → result ≡ by_quot g.kind }
{
    match entry.kind {
        Kind::Declared(body) => match body {
            Body::Quotient => true,
            Body::Axiom | Body::Definition { .. } | Body::Theorem { .. } | Body::Opaque { .. } => {
                false
            }
        },
        Kind::Type(_) | Kind::Constructor { .. } => false,
        Kind::Recursor(_) | Kind::BareRecursor(_) => false,
    }
}
