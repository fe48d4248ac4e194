//! The type that is due of a constant of quotient types, by its level parameters.

ghost use Rattle.std.specs.Prelude.{◌<◌, [], ◌∷◌, length, map, All, IfOk};
ghost use Rattle.lk_tree.specs.Tree.{param, const, sort, var, pi};
ghost use Rattle.lk_rulebook.specs.Names.{eq, quot, quot_mk};
ghost use Rattle.lk_rulebook.specs.Quotients.{quot_of, quot_type};
ghost use Rattle.lk_store.specs.Contents.{name_at, level_at};
ghost use Rattle.lk_ask.specs.Looks.{Made, MakesTree};
ghost use Rattle.lk_quot.specs.Constants.{plain_quotient};
ghost use Rattle.lk_quot.specs.Made.{IsTreeIf};
ghost use Rattle.lk_quot.specs.Types.{over_relations, lift_under, ind_under};

use crate::names::{dotted, word_alone};
use crate::quotient::Quotient;
use crate::types::{constant, type_of_ind, type_of_lift, type_of_mk, type_of_quot};
use lk_ask::looks::Looks;
use lk_store::memory::NoMemory;
use lk_store::node::LevelNode;

/// `Quot` at a level.
fn quot_at<L: Looks>(looks: &mut L, level: u64) -> Result<u64, NoMemory>
    requires { level < length (L.contents looks.old).levels }
    ensures { MakesTree L.contents L.rest looks.old looks.new result
        (λ t. const quot (level_at (L.contents looks.old) level ∷ [])) }
{
    let name = word_alone(looks, b"Quot")?;
    constant(looks, name, level)
}

/// `Quot.mk` at a level.
fn mk_at<L: Looks>(looks: &mut L, level: u64) -> Result<u64, NoMemory>
    requires { level < length (L.contents looks.old).levels }
    ensures { MakesTree L.contents L.rest looks.old looks.new result
        (λ t. const quot_mk (level_at (L.contents looks.old) level ∷ [])) }
{
    let name = dotted(looks, b"Quot", b"mk")?;
    constant(looks, name, level)
}

/// `Eq` at a level.
pub(crate) fn eq_at<L: Looks>(looks: &mut L, level: u64) -> Result<u64, NoMemory>
    requires { level < length (L.contents looks.old).levels }
    ensures { MakesTree L.contents L.rest looks.old looks.new result
        (λ t. const eq (level_at (L.contents looks.old) level ∷ [])) }
{
    let name = word_alone(looks, b"Eq")?;
    constant(looks, name, level)
}

/// The type that is due of `Quot`.
fn due_of_quot<L: Looks>(looks: &mut L, u: u64) -> Result<u64, NoMemory>
    requires { u < length (L.contents looks.old).names }
    ensures { let l = param (name_at (L.contents looks.old) u) in
        MakesTree L.contents L.rest looks.old looks.new result
        (λ t. over_relations l (sort l)) }
{
    let level = looks.make_level(LevelNode::Param(u))?;
    type_of_quot(looks, level)
}

/// The type that is due of `Quot.mk`.
fn due_of_mk<L: Looks>(looks: &mut L, u: u64) -> Result<u64, NoMemory>
    requires { u < length (L.contents looks.old).names }
    ensures { let x = name_at (L.contents looks.old) u in
        MakesTree L.contents L.rest looks.old looks.new result
        (λ t. over_relations (param x) (pi (var 1) (quot_of x (var 2) (var 1)))) }
{
    let level = looks.make_level(LevelNode::Param(u))?;
    let quot = quot_at(looks, level)?;
    type_of_mk(looks, level, quot)
}

/// The type that is due of `Quot.lift`.
fn due_of_lift<L: Looks>(looks: &mut L, u: u64, v: u64) -> Result<u64, NoMemory>
    requires u_in { u < length (L.contents looks.old).names }
    requires v_in { v < length (L.contents looks.old).names }
    ensures { let l = param (name_at (L.contents looks.old) u) in
        let m = param (name_at (L.contents looks.old) v) in
        MakesTree L.contents L.rest looks.old looks.new result
        (λ t. over_relations l (lift_under m (const quot (l ∷ [])) (const eq (m ∷ [])))) }
{
    let level = looks.make_level(LevelNode::Param(u))?;
    let quot = quot_at(looks, level)?;
    let goal = looks.make_level(LevelNode::Param(v))?;
    let eq = eq_at(looks, goal)?;
    type_of_lift(looks, level, goal, quot, eq)
}

/// The type that is due of `Quot.ind`.
fn due_of_ind<L: Looks>(looks: &mut L, u: u64) -> Result<u64, NoMemory>
    requires { u < length (L.contents looks.old).names }
    ensures { let l = param (name_at (L.contents looks.old) u) in
        MakesTree L.contents L.rest looks.old looks.new result
        (λ t. over_relations l (ind_under (const quot (l ∷ [])) (const quot_mk (l ∷ [])))) }
{
    let level = looks.make_level(LevelNode::Param(u))?;
    let quot = quot_at(looks, level)?;
    let mk = mk_at(looks, level)?;
    type_of_ind(looks, level, quot, mk)
}

/// The type that is due of a constant with one level parameter. `Quot.lift` has two.
fn due_of_one<L: Looks>(looks: &mut L, quotient: Quotient, u: u64) -> Result<Option<u64>, NoMemory>
    requires { u < length (L.contents looks.old).names }
    ensures made { Made L.contents L.rest looks.old looks.new }
    ensures ok { IfOk result (λ o. IsTreeIf (L.contents looks.new) o
        (quot_type (plain_quotient quotient) (name_at (L.contents looks.old) u ∷ []))) }
{
    let e = match quotient {
        Quotient::Quot => due_of_quot(looks, u)?,
        Quotient::Mk => due_of_mk(looks, u)?,
        Quotient::Ind => due_of_ind(looks, u)?,
        Quotient::Lift => return Ok(None),
    };
    Ok(Some(e))
}

/// The type that is due of a constant with two level parameters.
fn due_of_two<L: Looks>(
    looks: &mut L,
    quotient: Quotient,
    u: u64,
    v: u64,
) -> Result<Option<u64>, NoMemory>
    requires u_in { u < length (L.contents looks.old).names }
    requires v_in { v < length (L.contents looks.old).names }
    ensures made { Made L.contents L.rest looks.old looks.new }
    ensures ok { IfOk result (λ o. IsTreeIf (L.contents looks.new) o
        (quot_type (plain_quotient quotient)
        (name_at (L.contents looks.old) u ∷ name_at (L.contents looks.old) v ∷ []))) }
{
    match quotient {
        Quotient::Lift => {
            let e = due_of_lift(looks, u, v)?;
            Ok(Some(e))
        }
        Quotient::Quot | Quotient::Mk | Quotient::Ind => Ok(None),
    }
}

/// The type that is due of a constant with level parameters of these names. There is none where
/// they are too few or too many.
pub(crate) fn due<L: Looks>(
    looks: &mut L,
    quotient: Quotient,
    levels: &[u64],
) -> Result<Option<u64>, NoMemory>
    requires { All (λ n. n < length (L.contents looks.old).names) levels.now }
    ensures made { Made L.contents L.rest looks.old looks.new }
    ensures ok { IfOk result (λ o. IsTreeIf (L.contents looks.new) o
        (quot_type (plain_quotient quotient)
        (map (name_at (L.contents looks.old)) levels.now))) }
{
    match levels {
        [u] => due_of_one(looks, quotient, *u),
        [u, v] => due_of_two(looks, quotient, *u, *v),
        _ => Ok(None),
    }
}
