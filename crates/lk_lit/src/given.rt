//! Built-in names looked up.

ghost use Rattle.lk_lit.specs.Builtins.{builtin_name};
ghost use Rattle.lk_lit.specs.Givens.{FindsBuiltin};

use crate::builtin::{Builtin, make_builtin};
use lk_ask::looks::Looks;
use lk_env::entry::Entry;
use lk_store::memory::NoMemory;
use lk_tree::rule::Rule;

/// A built-in name that is given: its number, and what it means.
#[derive(Clone, Copy)]
pub(crate) struct Given {
    pub name: u64,
    pub entry: Entry,
}

/// Looks a built-in name up. That its unit was looked at is noted.
pub(crate) fn look_builtin<L: Looks>(
    looks: &mut L,
    builtin: Builtin,
) -> Result<Result<Given, Rule>, NoMemory>
    ensures { FindsBuiltin L.contents L.rest L.sight looks.old looks.new result
        (builtin_name builtin) }
{
    let name = make_builtin(looks.alloc(), looks, builtin)?;
    match looks.look(name, Rule::NoBuiltin) {
        Ok(entry) => Ok(Ok(Given { name, entry })),
        Err(rule) => Ok(Err(rule)),
    }
}
