//! Who answers questions.

ghost use Rattle.std.specs.Prelude.{◌≡◌, ◌<◌, ℕ, [], length, map, All, IfOk, IfErr, OnOk};
ghost use Rattle.lk_rulebook.specs.Place.{Place};
ghost use Rattle.lk_questions.specs.Erased.{out_of};
ghost use Rattle.lk_store.specs.Contents.{name_at, tree_at, Extends};
ghost use Rattle.lk_env.specs.declared.entry.Partial.{Partial as GivenMembers};
ghost use Rattle.lk_ask.specs.Asking.{Standing, given};
ghost use Rattle.lk_ask.specs.Questions.{query_of, IsKnownQuery, IsKnownAnswer};
ghost use Rattle.lk_ask.specs.Outcomes.{IsOutcome};
ghost use Rattle.lk_ask.specs.Constants.{IsRefused};
ghost use Rattle.lk_env.specs.Lent.{HasParameters};
ghost use Rattle.lk_env.specs.Scopes.{alone_members};
ghost use Rattle.lk_env.specs.Units.{type_at, IsTypeIn};
ghost use Rattle.lk_rulebook.specs.Units.{Members};

use crate::query::{Answer, Query};
use crate::stop::Stop;
use lk_env::entry::Partial;
use lk_env::unit::BlockType;
use lk_store::memory::NoMemory;
use lk_store::terms::Terms;
use lk_tree::rule::Rule;

/// A store over which questions are answered, at a place and under a budget.
pub trait Asks: Terms {
    /// What it stands on, which no call changes.
    type Basis;

    /// That, what each question does, and what names mean.
    ghost standing: { Self → Standing Self.Basis };

    /// How many steps are left.
    ghost left: { Self → ℕ };

    /// What names mean where so much of the unit at work is partial, given while the unit itself is checked, and auxiliary types
    /// beside.
    ghost places: { Self.Basis → GivenMembers → Members → Place };

    /// The plain answer of a question under what is left, and exactly its cost is spent. A question is refused, or the
    /// budget used up, where that is so of the plain answer.
    fn ask(&mut self, query: Query<u64>) -> Result<Answer<u64>, Stop>
        requires { IsKnownQuery (length (Self.contents self.old).trees) query }
        ensures keeps { Extends (Self.contents self.old) (Self.contents self.new) }
        ensures stays { standing self.new ≡ standing self.old }
        ensures known { IfOk result (IsKnownAnswer (length (Self.contents self.new).trees)) }
        ensures outcome { IsOutcome (Self.contents self.new)
            (out_of (standing self.old).table (standing self.old).place
            (query_of (tree_at (Self.contents self.old)) query) (left self.old))
            (left self.new) result };

    /// The number of parameters of the type of a block that a name means; none where it means something else. It takes no
    /// memory and no step.
    fn parameter_count(&self, name: u64) -> Result<Option<u64>, Rule>
        requires { name < length (Self.contents self.now).names }
        ensures found { IfOk result (HasParameters (standing self.now).place
            (name_at (Self.contents self.now) name)) }
        ensures refused { IfErr result (IsRefused (standing self.now).place
            (name_at (Self.contents self.now) name)) };

    /// From here on so much of the unit at work is partial, and no auxiliary type. It takes no memory and no step.
    fn give(&mut self, partial: Partial)
        ensures contents { Self.contents self.new ≡ Self.contents self.old }
        ensures standing { standing self.new ≡ given places (standing self.old) partial [] }
        ensures left { left self.new ≡ left self.old };

    /// From here on so much of the unit at work is partial, and these types of a block beside, each alone and without its
    /// constructors. It takes no step.
    fn give_beside(&mut self, partial: Partial, types: &[BlockType]) -> Result<(), NoMemory>
        requires { All (IsTypeIn (Self.contents self.old)) types.now }
        ensures contents { Self.contents self.new ≡ Self.contents self.old }
        ensures basis { (standing self.new).basis ≡ (standing self.old).basis }
        ensures standing { OnOk result (standing self.new ≡ given places (standing self.old) partial
            (alone_members (map (type_at (Self.contents self.old)) types.now))) }
        ensures left { left self.new ≡ left self.old };

    /// Whoever changes terms alone changes nothing of how questions are answered.
    ghost decided: { (a b : Self) → Self.rest a ≡ Self.rest b
        → (standing a ≡ standing b) × (left a ≡ left b) };
}
