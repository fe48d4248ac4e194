//! Names that laws rest on, looked up.

ghost use Rattle.std.specs.Prelude.{◌≡◌, ◌<◌, List, Some, Ok, length};
ghost use Rattle.lk_rulebook.specs.Place.{Entry as PlainEntry};
ghost use Rattle.lk_rulebook.specs.Literals.{by_def};
ghost use Rattle.lk_store.specs.Contents.{Contents, name_at};
ghost use Rattle.lk_env.specs.declared.unit.Unit.{Unit as StoredUnit};
ghost use Rattle.lk_env.specs.Entries.{plain_entry};
ghost use Rattle.lk_quot.specs.Units.{Meets};
ghost use Rattle.lk_laws.specs.Operations.{constant_name};
ghost use Rattle.lk_laws.specs.Needs.{def_named, name_given};

use crate::constant::{Constant, make_name};
use lk_ask::looks::Looks;
use lk_env::entry::{Entry, Kind};
use lk_env::unit::Body;
use lk_store::memory::NoMemory;
use lk_tree::rule::Rule;

/// Whether a definition gives the constant of this entry.
fn is_definition(entry: Entry) -> bool
    ensures { (c : Contents) (us : List StoredUnit) (g : PlainEntry)
        → plain_entry c us entry ≡ Some g → result ≡ by_def g.kind }
{
    match entry.kind {
        Kind::Declared(body) => match body {
            Body::Definition { .. } => true,
            Body::Axiom | Body::Theorem { .. } | Body::Opaque { .. } | Body::Quotient => false,
        },
        Kind::Type(_) | Kind::Constructor { .. } => false,
        Kind::Recursor(_) | Kind::BareRecursor(_) => false,
    }
}

/// That a definition gives the constant of this name.
fn given_by_definition<L: Looks>(looks: &mut L, name: u64) -> Result<(), Rule>
    requires { name < length (L.contents looks.old).names }
    ensures { Meets L.contents L.rest L.sight looks.old looks.new (Ok result)
        (def_named (name_at (L.contents looks.old) name)) }
{
    let entry = looks.look(name, Rule::NoBuiltin)?;
    if is_definition(entry) {
        Ok(())
    } else {
        Err(Rule::NatLaw)
    }
}

/// That the constant of this name is given.
fn given_by_any<L: Looks>(looks: &mut L, name: u64) -> Result<(), Rule>
    requires { name < length (L.contents looks.old).names }
    ensures { Meets L.contents L.rest L.sight looks.old looks.new (Ok result)
        (name_given (name_at (L.contents looks.old) name)) }
{
    looks.look(name, Rule::NoBuiltin)?;
    Ok(())
}

/// That a definition gives this built-in name.
pub(crate) fn has_definition<L: Looks>(
    looks: &mut L,
    constant: Constant,
) -> Result<Result<(), Rule>, NoMemory>
    ensures { Meets L.contents L.rest L.sight looks.old looks.new result
        (def_named (constant_name constant)) }
{
    let name = make_name(looks.alloc(), looks, constant)?;
    Ok(given_by_definition(looks, name))
}

/// That this built-in name is given.
pub(crate) fn has_name<L: Looks>(
    looks: &mut L,
    constant: Constant,
) -> Result<Result<(), Rule>, NoMemory>
    ensures { Meets L.contents L.rest L.sight looks.old looks.new result
        (name_given (constant_name constant)) }
{
    let name = make_name(looks.alloc(), looks, constant)?;
    Ok(given_by_any(looks, name))
}
