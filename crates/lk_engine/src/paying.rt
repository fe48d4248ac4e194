//! What questions take from a lookout's budget.

ghost use Rattle.std.specs.Prelude.{◌≡◌};
ghost use Rattle.lk_rulebook.specs.Units.{later};
ghost use Rattle.lk_engine.specs.Lookouts.{Metered, Pays};

use lk_ask::lookout::Lookout;
use lk_ask::stop::Stop;
use lk_store::terms::Terms;

/// How many steps are left.
pub(crate) fn left<T: Terms>(lookout: &Lookout<'_, T>) -> u128
    ensures { result ≡ lookout.now.meter.left }
{
    lookout.meter.left
}

/// How many turns were taken.
pub(crate) fn turns<T: Terms>(lookout: &Lookout<'_, T>) -> u64
    ensures { result ≡ lookout.now.meter.turns }
{
    lookout.meter.turns
}

/// The last unit that was looked at for the question that is at work.
pub(crate) fn last<T: Terms>(lookout: &Lookout<'_, T>) -> Option<u32>
    ensures { result ≡ lookout.now.meter.last }
{
    lookout.meter.last
}

/// Pays for a question that is opened, which is a turn. The last unit that was looked at for it is
/// this one.
pub(crate) fn pay<T: Terms>(
    lookout: &mut Lookout<'_, T>,
    cost: u128,
    top: Option<u32>,
) -> Result<(), Stop>
    ensures { Pays lookout.old lookout.new result cost top }
{
    lookout.meter.turn();
    lookout.meter.spend(cost)?;
    lookout.meter.last = top;
    Ok(())
}

/// Notes what was looked at before.
pub(crate) fn note_before<T: Terms>(lookout: &mut Lookout<'_, T>, before: Option<u32>)
    ensures stays { Metered lookout.old lookout.new }
    ensures left { lookout.new.meter.left ≡ lookout.old.meter.left }
    ensures last { lookout.new.meter.last ≡ later before lookout.old.meter.last }
{
    lookout.meter.note_before(before);
}
