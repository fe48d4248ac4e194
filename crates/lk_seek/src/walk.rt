//! The walk.

ghost use Rattle.std.specs.Prelude.{IfOk};
ghost use Rattle.lk_seek.specs.Sought.{Finds};

use crate::seek::Seek;
use crate::visit::Visit;
use std::alloc::Global;

/// Whether what is sought is found in a part: a walk over its parts, from the left to the right. An
/// error is the seeker's, and says of what is found what `stops` says.
pub fn seek<S: Seek>(
    alloc: Global,
    seeker: &S,
    kept: &mut S::Kept,
    part: S::Part,
) -> Result<bool, S::Stop>
    requires part_in { (S.sought seeker.now).is_in part }
    requires kept { S.are_kept seeker.now kept.old }
    ensures kept { IfOk result (λ r. S.are_kept seeker.now kept.new) }
    ensures found { Finds (S.sought seeker.now) part result }
{
    let mut stack: Vec<Visit<S::Part>> = Vec::new(alloc);
    if seeker.look(kept, &mut stack, part)? {
        return Ok(true);
    }
    'walk: while let Some(visit) = stack.pop() {
        match visit {
            Visit::Enter(part) => {
                if seeker.look(kept, &mut stack, part)? {
                    return Ok(true);
                }
            }
            Visit::Leave(part) => seeker.keep(kept, part)?,
        }
    }
    Ok(false)
}
