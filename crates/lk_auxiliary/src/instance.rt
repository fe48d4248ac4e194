//! What the stated trees of an earlier block become at levels and arguments.

ghost use Rattle.std.specs.Prelude.{◌≡◌, ◌<◌, length, map, All, IfOk};
ghost use Rattle.lk_store.specs.Contents.{name_at, level_at, tree_at, Extends};
ghost use Rattle.lk_env.specs.Units.{constructor_at, IsConstructorIn};
ghost use Rattle.lk_inductive.specs.Nested.{at_args, ctors_at};
ghost use Rattle.lk_declaration.specs.Courses.{Settles};
ghost use Rattle.lk_auxiliary.specs.Places.{IsAtIn, levels_of, arguments_of};

use crate::past::{has_pis, past_pis};
use lk_ask::stop::Stop;
use lk_env::unit::Constructor;
use lk_store::terms::Terms;
use lk_subst::levels::put_levels_in;
use lk_tree::rule::Rule;
use std::alloc::Global;

/// Levels and arguments, at which a block's trees are taken, and the number from which on Locals are made there.
#[derive(Clone, Copy)]
pub struct At<'a> {
    pub first: u64,
    /// The levels as a list of the store.
    pub list: u64,
    /// The same, one by one.
    pub levels: &'a [u64],
    pub arguments: &'a [u64],
}

/// The type of a member with these level parameters (`LevelCount`) at levels, past its parameters (`BlockShape`), with the
/// arguments in their place.
pub fn at_args<T: Terms>(
    alloc: Global,
    terms: &mut T,
    at: &At<'_>,
    names: &[u64],
    e: u64,
) -> Result<u64, Stop>
    requires at_in { IsAtIn (T.contents terms.old) at.now }
    requires names_in { All (λ n. n < length (T.contents terms.old).names) names.now }
    requires e_in { e < length (T.contents terms.old).trees }
    ensures keeps { Extends (T.contents terms.old) (T.contents terms.new) }
    ensures rest { T.rest terms.new ≡ T.rest terms.old }
    ensures known { IfOk result (λ r. r < length (T.contents terms.new).trees) }
    ensures made { Settles (at_args (levels_of (T.contents terms.old) at.now)
        (arguments_of (T.contents terms.old) at.now)
        (map (name_at (T.contents terms.old)) names.now)
        (tree_at (T.contents terms.old) e)) (tree_at (T.contents terms.new)) result }
{
    if at.levels.len() != names.len() {
        return Err(Stop::No(Rule::LevelCount));
    }
    if !has_pis(terms, at.arguments.len() as u64, e) {
        return Err(Stop::No(Rule::BlockShape));
    }
    let whole = put_levels_in(alloc, terms, names, at.levels, e)?;
    past_pis(alloc, terms, at.arguments, whole)
}

/// The types of constructors at levels and arguments, past their parameters.
pub fn ctors_at<T: Terms>(
    alloc: Global,
    terms: &mut T,
    at: &At<'_>,
    constructors: &[Constructor],
) -> Result<Vec<u64>, Stop>
    requires at_in { IsAtIn (T.contents terms.old) at.now }
    requires constructors_in { All (IsConstructorIn (T.contents terms.old)) constructors.now }
    ensures keeps { Extends (T.contents terms.old) (T.contents terms.new) }
    ensures rest { T.rest terms.new ≡ T.rest terms.old }
    ensures known { IfOk result (λ v. All
        (λ x. x < length (T.contents terms.new).trees) v.items) }
    ensures made { Settles (ctors_at (levels_of (T.contents terms.old) at.now)
        (arguments_of (T.contents terms.old) at.now)
        (map (constructor_at (T.contents terms.old)) constructors.now))
        (λ v. map (tree_at (T.contents terms.new)) v.items) result }
{
    let mut found: Vec<u64> = Vec::new(alloc);
    let mut rest = constructors;
    'constructors: while let Some((stated, more)) = rest.split_first() {
        let made = at_args(alloc, terms, at, &stated.levels, stated.ty)?;
        match found.push(made) {
            Ok(_) => {}
            Err(_) => return Err(Stop::NoMemory),
        }
        rest = more;
    }
    Ok(found)
}
