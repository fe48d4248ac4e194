//! Who tells what answers rest on.

ghost use Rattle.std.specs.Prelude.{◌≡◌, ℕ, length, IfOk};
ghost use Rattle.lk_rulebook.specs.Place.{Place};
ghost use Rattle.lk_store.specs.Contents.{Contents, tree_at, Extends};
ghost use Rattle.lk_ask.specs.Questions.{query_of, IsKnownQuery, IsKnownAnswer};
ghost use Rattle.lk_step.specs.Rows.{IsClaim};
ghost use Rattle.lk_step.specs.Told.{IsAnsweredWithin, IsTold};
ghost use Rattle.lk_step.specs.Meaning.{IsRowIn, IsRowOf};
ghost use Rattle.lk_derive.specs.Stages.{Stays};

use lk_ask::query::{Answer, Query};
use lk_step::Row;
use lk_store::memory::NoMemory;
use lk_store::terms::Terms;

/// Whoever answers questions over a store, and tells what each answer rests on.
pub trait Rows {
    /// The store.
    type Store: Terms;

    /// What each number of the store stands for.
    ghost contents: { Self → Contents };

    /// What names mean there. No call changes it.
    ghost place: { Self → Place };

    /// The greatest cost of a question that it is asked about. No call changes it.
    ghost most: { Self → ℕ };

    /// What it has beside these, which no call changes.
    type Rest;

    ghost rest: { Self → Self.Rest };

    /// The store, lent.
    fn store(&self) -> &Self::Store
        ensures { Self.Store.contents result.now ≡ contents self.now };

    /// The plain answer of a question that costs no more than that.
    fn answer(&mut self, query: Query<u64>) -> Result<Answer<u64>, NoMemory>
        requires known { IsKnownQuery (length (contents self.old).trees) query }
        requires answered { IsAnsweredWithin (place self.old)
            (query_of (tree_at (contents self.old)) query) (most self.old) }
        ensures stays { Stays contents place most self.old self.new }
        ensures rest { rest self.new ≡ rest self.old }
        ensures known { IfOk result (IsKnownAnswer (length (contents self.new).trees)) }
        ensures told { IsTold (place self.old) (contents self.new)
            (query_of (tree_at (contents self.old)) query) result };

    /// What the answer of a question rests on that costs no more than that and claims something: which is not a Same
    /// that is answered no.
    fn row(&mut self, query: Query<u64>) -> Result<Row, NoMemory>
        requires known { IsKnownQuery (length (contents self.old).trees) query }
        requires answered { IsClaim (place self.old)
            (query_of (tree_at (contents self.old)) query) (most self.old) }
        ensures stays { Stays contents place most self.old self.new }
        ensures rest { rest self.new ≡ rest self.old }
        ensures known { IfOk result (IsRowIn (contents self.new)) }
        ensures row { IfOk result (IsRowOf (place self.old) (contents self.new)
            (query_of (tree_at (contents self.old)) query)) };
}
