//! Who looks names up between questions.

ghost use Rattle.std.specs.Prelude.{◌≡◌, ◌<◌, Some, None, length, IfOk, IfErr, IfSome};
ghost use Rattle.lk_rulebook.specs.Place.{Entry as PlainEntry};
ghost use Rattle.lk_store.specs.Contents.{name_at, list_at, tree_at, Extends};
ghost use Rattle.lk_store.specs.Store.{contents_of};
ghost use Rattle.lk_env.specs.Entries.{IsAnswer, IsEntryIn};
ghost use Rattle.lk_ask.specs.Constants.{IsFound, IsRefusedBy, IsAtLevels};
ghost use Rattle.lk_ask.specs.Looks.{Sight, IsOver, IsMeant, IsLookedUp, IsTaken};

use lk_env::entry::Entry;
use lk_env::lends::Lends;
use lk_store::memory::NoMemory;
use lk_store::terms::Terms;
use lk_tree::rule::Rule;
use std::alloc::Global;

/// A store at a library: what a question has while it takes a step.
pub trait Looks: Terms {
    /// What it has beside the library and the budget, which no step changes.
    type Beside;

    /// The library, from where it is seen, what is left of the budget, and the last unit that was looked at.
    ghost sight: { Self.Rest → Sight Self.Beside };

    /// Where memory comes from.
    fn alloc(&self) -> Global;

    /// Who lends units: the library, and auxiliary types beside it.
    type Scope: Lends;

    /// The units, lent.
    fn scope(&self) -> &Self::Scope
        ensures is { Self.Scope.lent result.now ≡ (sight (Self.rest self.now)).basis.library }
        ensures over { IsOver Self.contents Self.rest sight self.now };

    /// What a name means that was looked up before: nothing is noted. It takes no memory.
    fn means(&self, name: u64) -> Result<Entry, Rule>
        requires { name < length (Self.contents self.now).names }
        ensures { IsMeant Self.contents Self.rest sight self.now name result };

    /// Looks a constant up: what its name means. That its unit was looked at is noted. It takes no memory.
    ///
    /// Where nothing gives the name it is refused by the rule `missing`: UnknownConstant for a constant of a term,
    /// NoBuiltin or QuotShape for what the kernel itself needs.
    fn look(&mut self, name: u64, missing: Rule) -> Result<Entry, Rule>
        requires { name < length (Self.contents self.old).names }
        ensures { IsLookedUp Self.contents Self.rest sight self.old self.new name missing result };

    /// A tree of a constant's unit at the levels that the constant has. There is none where they are not as many as the
    /// unit has level parameters.
    fn at_levels(&mut self, entry: Entry, levels: u64, e: u64) -> Result<Option<u64>, NoMemory>
        requires levels_in { levels < length (Self.contents self.old).lists }
        requires e_in { e < length (Self.contents self.old).trees }
        ensures { IsTaken Self.contents Self.rest sight self.old self.new entry levels e result };
}
