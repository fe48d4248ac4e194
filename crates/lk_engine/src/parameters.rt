//! How many parameters the types have that names mean.

ghost use Rattle.std.specs.Prelude.{◌<◌, length, IfOk, IfErr};
ghost use Rattle.lk_store.specs.Contents.{name_at};
ghost use Rattle.lk_env.specs.Lent.{HasParameters};
ghost use Rattle.lk_ask.specs.Constants.{IsRefused};
ghost use Rattle.lk_engine.specs.Lookouts.{place_of};

use lk_ask::lookout::Lookout;
use lk_ask::looks::Looks;
use lk_env::lent::parameter_count;
use lk_store::terms::Terms;
use lk_tree::rule::Rule;

/// The number of parameters of the type of a block that the name means; none where it means
/// something else. Nothing is noted, and it takes no memory.
pub fn parameters_at<T: Terms>(lookout: &Lookout<'_, T>, name: u64) -> Result<Option<u64>, Rule>
    requires { name < length (T.contents lookout.now.terms).names }
    ensures found { IfOk result (HasParameters (place_of lookout.now)
        (name_at (T.contents lookout.now.terms) name)) }
    ensures refused { IfErr result (IsRefused (place_of lookout.now)
        (name_at (T.contents lookout.now.terms) name)) }
{
    let entry = lookout.means(name)?;
    Ok(parameter_count(lookout.scope(), entry))
}
