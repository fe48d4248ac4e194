//! What a quotient unit has to meet: its name is that of one of the four constants, its type is the
//! one that is due, and what that rests on is there (`QuotShape`).

ghost use Rattle.std.specs.Prelude.{◌≡◌, ◌<◌, Ok, map, length, All, IfOk};
ghost use Rattle.lk_rulebook.specs.Names.{eq, quot, quot_mk};
ghost use Rattle.lk_rulebook.specs.Quotients.{quot_type};
ghost use Rattle.lk_questions.specs.QuotientUnits.{quot_given, eq_shape, rests_steps, is_this};
ghost use Rattle.lk_questions.specs.QuotientUnits.{quot_steps};
ghost use Rattle.lk_store.specs.Contents.{name_at, tree_at};
ghost use Rattle.lk_ask.specs.Looks.{Made};
ghost use Rattle.lk_quot.specs.Constants.{plain_quotient};
ghost use Rattle.lk_quot.specs.Units.{Meets};

use crate::due::due;
use crate::entries::is_quotient;
use crate::equality::is_eq;
use crate::names::{dotted, word_alone};
use crate::quotient::{Quotient, quotient_named};
use lk_ask::looks::Looks;
use lk_store::memory::NoMemory;
use lk_tree::rule::Rule;

/// That a quotient unit gives the constant of this name.
fn given_by_quotient<L: Looks>(looks: &mut L, name: u64) -> Result<(), Rule>
    requires { name < length (L.contents looks.old).names }
    ensures { Meets L.contents L.rest L.sight looks.old looks.new (Ok result)
        (quot_given (name_at (L.contents looks.old) name)) }
{
    let entry = looks.look(name, Rule::QuotShape)?;
    if is_quotient(entry) {
        Ok(())
    } else {
        Err(Rule::QuotShape)
    }
}

/// That a quotient unit gives `Quot`.
fn has_quot<L: Looks>(looks: &mut L) -> Result<Result<(), Rule>, NoMemory>
    ensures { Meets L.contents L.rest L.sight looks.old looks.new result (quot_given quot) }
{
    let name = word_alone(looks, b"Quot")?;
    Ok(given_by_quotient(looks, name))
}

/// That a quotient unit gives `Quot.mk`.
fn has_mk<L: Looks>(looks: &mut L) -> Result<Result<(), Rule>, NoMemory>
    ensures { Meets L.contents L.rest L.sight looks.old looks.new result (quot_given quot_mk) }
{
    let name = dotted(looks, b"Quot", b"mk")?;
    Ok(given_by_quotient(looks, name))
}

/// That the constant of this name, which is `Eq`, is as it has to be.
fn look_eq<L: Looks>(looks: &mut L, name: u64) -> Result<Result<(), Rule>, NoMemory>
    requires name_in { name < length (L.contents looks.old).names }
    requires name_is { name_at (L.contents looks.old) name ≡ eq }
    ensures { Meets L.contents L.rest L.sight looks.old looks.new result eq_shape }
{
    let entry = match looks.look(name, Rule::QuotShape) {
        Ok(entry) => entry,
        Err(rule) => return Ok(Err(rule)),
    };
    if is_eq(looks, entry)? {
        Ok(Ok(()))
    } else {
        Ok(Err(Rule::QuotShape))
    }
}

/// That `Eq` is as it has to be.
fn has_eq<L: Looks>(looks: &mut L) -> Result<Result<(), Rule>, NoMemory>
    ensures { Meets L.contents L.rest L.sight looks.old looks.new result eq_shape }
{
    let name = word_alone(looks, b"Eq")?;
    look_eq(looks, name)
}

/// That what the type of a constant rests on is there.
fn rests<L: Looks>(looks: &mut L, quotient: Quotient) -> Result<Result<(), Rule>, NoMemory>
    ensures { Meets L.contents L.rest L.sight looks.old looks.new result
        (rests_steps (plain_quotient quotient)) }
{
    match quotient {
        Quotient::Quot => Ok(Ok(())),
        Quotient::Mk => has_quot(looks),
        Quotient::Lift => match has_quot(looks)? {
            Ok(_) => has_eq(looks),
            Err(rule) => Ok(Err(rule)),
        },
        Quotient::Ind => match has_quot(looks)? {
            Ok(_) => has_mk(looks),
            Err(rule) => Ok(Err(rule)),
        },
    }
}

/// Whether the type is the one that is due.
fn is_due<L: Looks>(
    looks: &mut L,
    quotient: Quotient,
    levels: &[u64],
    ty: u64,
) -> Result<bool, NoMemory>
    requires levels_in { All (λ n. n < length (L.contents looks.old).names) levels.now }
    requires ty_in { ty < length (L.contents looks.old).trees }
    ensures made { Made L.contents L.rest looks.old looks.new }
    ensures ok { IfOk result (λ b. b ≡ is_this
        (quot_type (plain_quotient quotient) (map (name_at (L.contents looks.old)) levels.now))
        (tree_at (L.contents looks.old) ty)) }
{
    match due(looks, quotient, levels)? {
        Some(e) => Ok(looks.same(e, ty)),
        None => Ok(false),
    }
}

/// What a quotient unit of this name, these level parameters and this type has to meet.
pub fn check<L: Looks>(
    looks: &mut L,
    name: u64,
    levels: &[u64],
    ty: u64,
) -> Result<Result<(), Rule>, NoMemory>
    requires name_in { name < length (L.contents looks.old).names }
    requires levels_in { All (λ n. n < length (L.contents looks.old).names) levels.now }
    requires ty_in { ty < length (L.contents looks.old).trees }
    ensures { let c = L.contents looks.old in
        Meets L.contents L.rest L.sight looks.old looks.new result
        (quot_steps (name_at c name) (map (name_at c) levels.now) (tree_at c ty)) }
{
    let quotient = match quotient_named(looks, name) {
        Some(quotient) => quotient,
        None => return Ok(Err(Rule::QuotShape)),
    };
    if is_due(looks, quotient, levels, ty)? {
        rests(looks, quotient)
    } else {
        Ok(Err(Rule::QuotShape))
    }
}
