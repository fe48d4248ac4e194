//! Who says whether a quotient unit may stand.

ghost use Rattle.std.specs.Prelude.{◌≡◌, ◌<◌, None, map, length, All};
ghost use Rattle.lk_questions.specs.Settled.{settle};
ghost use Rattle.lk_questions.specs.QuotientUnits.{quot_steps};
ghost use Rattle.lk_store.specs.Contents.{name_at, tree_at, Extends};
ghost use Rattle.lk_quot.specs.Units.{IsMet};

use crate::units::check;
use lk_ask::asks::Asks;
use lk_ask::looks::Looks;
use lk_ask::stop::Stop;

/// Whoever answers questions and also says whether a quotient unit may stand, for which it looks
/// names up.
pub trait Quotients: Asks {
    /// Whether a quotient unit of this name, these level parameters and this type meets what it has
    /// to (`QuotShape`), all but that its type has a sort. It takes no step.
    fn quotient(&mut self, name: u64, levels: &[u64], ty: u64) -> Result<(), Stop>
        requires name_in { name < length (Self.contents self.old).names }
        requires levels_in { All (λ n. n < length (Self.contents self.old).names) levels.now }
        requires ty_in { ty < length (Self.contents self.old).trees }
        ensures keeps { Extends (Self.contents self.old) (Self.contents self.new) }
        ensures stays { Self.standing self.new ≡ Self.standing self.old }
        ensures left { Self.left self.new ≡ Self.left self.old }
        ensures outcome { let c = Self.contents self.old in
            IsMet (settle (Self.standing self.old).place None
            (quot_steps (name_at c name) (map (name_at c) levels.now) (tree_at c ty))) result };
}

/// The same for whoever looks names up.
pub fn may_stand<L: Looks>(looks: &mut L, name: u64, levels: &[u64], ty: u64) -> Result<(), Stop>
    requires name_in { name < length (L.contents looks.old).names }
    requires levels_in { All (λ n. n < length (L.contents looks.old).names) levels.now }
    requires ty_in { ty < length (L.contents looks.old).trees }
    ensures keeps { Extends (L.contents looks.old) (L.contents looks.new) }
    ensures stays { (L.sight (L.rest looks.new)).basis ≡ (L.sight (L.rest looks.old)).basis }
    ensures outcome { let c = L.contents looks.old in
        IsMet (settle (L.sight (L.rest looks.old)).basis.place None
        (quot_steps (name_at c name) (map (name_at c) levels.now) (tree_at c ty))) result }
{
    match check(looks, name, levels, ty)? {
        Ok(_) => Ok(()),
        Err(rule) => Err(Stop::No(rule)),
    }
}
