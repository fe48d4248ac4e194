//! How much there is of each kind.

ghost use Rattle.std.specs.Prelude.{◌≡◌, ◌+◌, IfOk};
ghost use Rattle.lk_spell.specs.Sizes.{is_within, Numbered};

use crate::part::Part;
use crate::spelled::OwnNode;
use lk_store::memory::NoMemory;
use lk_store::sizes::Sizes;

/// Whether a part's number is below the size of its kind.
pub(crate) fn is_within(sizes: &Sizes, part: Part) -> bool
    ensures { result ≡ is_within sizes.now part }
{
    match part {
        Part::Name(n) => n < sizes.names,
        Part::Text(s) => s < sizes.texts,
        Part::Level(l) => l < sizes.levels,
        Part::List(ls) => ls < sizes.lists,
        Part::Term(e) => e < sizes.terms,
    }
}

/// The next number of a kind, which is its size.
fn next(size: &mut u64) -> Result<u64, NoMemory>
    ensures { IfOk result (λ n. (n ≡ size.old) × (size.new ≡ size.old + 1)) }
{
    let number = *size;
    // No store in memory is so large that this fails.
    let after = number.checked_add(1).ok_or(NoMemory)?;
    *size = after;
    Ok(number)
}

/// Gives an own node the next number of its kind.
pub(crate) fn number_next(sizes: &mut Sizes, node: &OwnNode) -> Result<Part, NoMemory>
    ensures { IfOk result (Numbered sizes.old sizes.new node.now) }
{
    match node {
        OwnNode::Name(_) => Ok(Part::Name(next(&mut sizes.names)?)),
        OwnNode::Text(_) => Ok(Part::Text(next(&mut sizes.texts)?)),
        OwnNode::Level(_) => Ok(Part::Level(next(&mut sizes.levels)?)),
        OwnNode::List(_) => Ok(Part::List(next(&mut sizes.lists)?)),
        OwnNode::Term(_) => Ok(Part::Term(next(&mut sizes.terms)?)),
    }
}
