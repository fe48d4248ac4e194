//! Heads by which `Core` looks at a major premise.

ghost use Rattle.std.specs.Prelude.{◌<◌, length};
ghost use Rattle.lk_store.specs.Contents.{tree_at};
ghost use Rattle.lk_step.specs.Heads.{IsMajorHead};
ghost use Rattle.lk_derive_reduce.specs.MajorHeads.{IsHeadBy};

use lk_quot::is_quotient;
use lk_step::Derives;
use lk_step::heads::head_name;

/// A constant that a quotient unit gives, or a recursor.
#[derive(Clone, Copy)]
pub enum MajorHead {
    Quotient,
    Recursor,
}

/// Which of the two is the head of a term of which `core_row` gives no row.
pub fn major_head<D: Derives>(derives: &D, e: u64) -> MajorHead
    requires e_in { e < length (D.contents derives.now).trees }
    requires head { IsMajorHead (D.sight (D.rest derives.now)).basis.place
        (tree_at (D.contents derives.now) e) }
    ensures { IsHeadBy (D.sight (D.rest derives.now)).basis.place
        (tree_at (D.contents derives.now) e) result }
{
    let name = head_name(derives, e);
    let entry = match derives.means(name) {
        Ok(entry) => entry,
        Err(_) => unreachable!(),
    };
    if is_quotient(entry) {
        return MajorHead::Quotient;
    }
    MajorHead::Recursor
}
