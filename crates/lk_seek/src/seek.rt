//! What a walk looks for.

ghost use Rattle.std.specs.Prelude.{Ok, Err, false, IfOk, IfErr, OnOk};
ghost use Rattle.lk_seek.specs.Sought.{AreFindings, Finds, Sought};
ghost use Rattle.lk_seek.specs.Visits.{IsLooked};

use crate::visit::Visit;

/// Something that may be found in a part itself, or in a part of it.
pub trait Seek {
    /// What has parts.
    type Part: Copy;

    /// What is kept of the parts where nothing was found, so that they are not walked again.
    type Kept;

    /// Why a walk may end without an answer.
    type Stop;

    /// What is found in each part.
    ghost sought: { Self → Sought Self.Part Self.Stop };

    /// What is kept says the truth.
    ghost are_kept: { Self → Self.Kept → Type 0 };

    /// Looks at a part: whether what is sought is found in the part itself. Where it is not, the
    /// part is passed over, if it is known that nothing is found in it, and else it comes onto the
    /// stack again, with its own parts above it, the first of them on top.
    fn look(
        &self,
        kept: &mut Self::Kept,
        stack: &mut Vec<Visit<Self::Part>>,
        part: Self::Part,
    ) -> Result<bool, Self::Stop>
        requires part_in { (sought self.now).is_in part }
        requires kept { are_kept self.now kept.old }
        ensures kept { IfOk result (λ r. are_kept self.now kept.new) }
        ensures looked { IsLooked (sought self.now) part stack.old.items stack.new.items result };

    /// Keeps a part in which nothing is found.
    fn keep(&self, kept: &mut Self::Kept, part: Self::Part) -> Result<(), Self::Stop>
        requires kept { are_kept self.now kept.old }
        requires clear { Finds (sought self.now) part (Ok false) }
        ensures kept { OnOk result (are_kept self.now kept.new) }
        ensures stops { IfErr result (λ e. Finds (sought self.now) part (Err e)) };

    /// What is found in one part after the other.
    ghost laws: { (s : Self) → AreFindings (sought s).findings };
}
