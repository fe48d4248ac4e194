//! Who looks up what laws rest on.

ghost use Rattle.std.specs.Prelude.{◌≡◌, None};
ghost use Rattle.lk_questions.specs.Settled.{settle};
ghost use Rattle.lk_store.specs.Contents.{Extends};
ghost use Rattle.lk_quot.specs.Units.{Meets, IsMet};
ghost use Rattle.lk_laws.specs.Needs.{needed_steps};

use crate::constant::Constant;
use crate::given::{has_definition, has_name};
use crate::operation::LawfulOp;
use lk_ask::asks::Asks;
use lk_ask::looks::Looks;
use lk_ask::stop::Stop;
use lk_lit::nat_shape;
use lk_store::memory::NoMemory;
use lk_tree::rule::Rule;

/// What laws rest on.
#[derive(Clone, Copy)]
pub enum Needed {
    /// `Nat` has its shape (`NoBuiltin`, `BuiltinShape`, `LevelWidth`).
    NatShape,
    /// A definition gives the operation's name (`NoBuiltin`, `NatLaw`).
    Definition(LawfulOp),
    /// The name is given (`NoBuiltin`).
    Given(Constant),
}

/// Whoever answers questions and also looks up what laws rest on.
pub trait Laws: Asks {
    /// That what laws rest on is so. It takes no step.
    fn need(&mut self, needed: Needed) -> Result<(), Stop>
        ensures keeps { Extends (Self.contents self.old) (Self.contents self.new) }
        ensures stays { Self.standing self.new ≡ Self.standing self.old }
        ensures left { Self.left self.new ≡ Self.left self.old }
        ensures outcome { IsMet (settle (Self.standing self.old).place None (needed_steps needed))
            result };
}

/// What laws rest on, looked up: it is so, or this rule refuses it. Nothing is asked.
pub fn look_needed<L: Looks>(looks: &mut L, needed: Needed) -> Result<Result<(), Rule>, NoMemory>
    ensures { Meets L.contents L.rest L.sight looks.old looks.new result (needed_steps needed) }
{
    match needed {
        Needed::NatShape => nat_shape(looks),
        Needed::Definition(op) => has_definition(looks, Constant::Operation(op)),
        Needed::Given(constant) => has_name(looks, constant),
    }
}

/// That what laws rest on is so, for whoever looks names up.
pub fn is_given<L: Looks>(looks: &mut L, needed: Needed) -> Result<(), Stop>
    ensures keeps { Extends (L.contents looks.old) (L.contents looks.new) }
    ensures stays { (L.sight (L.rest looks.new)).basis ≡ (L.sight (L.rest looks.old)).basis }
    ensures outcome { IsMet (settle (L.sight (L.rest looks.old)).basis.place None
        (needed_steps needed)) result }
{
    match look_needed(looks, needed)? {
        Ok(_) => Ok(()),
        Err(rule) => Err(Stop::No(rule)),
    }
}
