//! Questions as keys.

ghost use Rattle.std.specs.Prelude.{◌≡◌};
ghost use Rattle.lk_memo.specs.Keys.{key_of, kind_number};

use lk_ask::query::Query;

/// What is asked.
#[derive(Clone, Copy, PartialEq, Eq, Hash)]
pub enum Kind {
    Core,
    Whnf,
    Infer,
    Same,
}

/// A question: what is asked, and of which terms. Where it is of one, that stands twice.
#[derive(Clone, Copy, PartialEq, Eq, Hash)]
pub struct Key {
    pub kind: Kind,
    pub first: u64,
    pub second: u64,
}

/// A question of one term.
fn of_one(kind: Kind, e: u64) -> Key
    ensures { result ≡ record { kind = kind; first = e; second = e } }
{
    Key {
        kind,
        first: e,
        second: e,
    }
}

/// A number for what is asked.
pub fn kind_number(kind: Kind) -> u64
    ensures { result ≡ kind_number kind }
{
    match kind {
        Kind::Core => 0,
        Kind::Whnf => 1,
        Kind::Infer => 2,
        Kind::Same => 3,
    }
}

/// The key of a question.
pub fn key_of(query: Query<u64>) -> Key
    ensures { result ≡ key_of query }
{
    match query {
        Query::Core(e) => of_one(Kind::Core, e),
        Query::Whnf(e) => of_one(Kind::Whnf, e),
        Query::Infer(e) => of_one(Kind::Infer, e),
        Query::Same(a, b) => Key {
            kind: Kind::Same,
            first: a,
            second: b,
        },
    }
}
