//! Whether the members of a block state the same level parameters and the same number of parameters, and each constructor
//! its parent and its place.

ghost use Rattle.std.specs.Prelude.{◌≡◌, ◌<◌, length, map, All};
ghost use Rattle.lk_tree.specs.Mentions.{same_name};
ghost use Rattle.lk_store.specs.Contents.{name_at};
ghost use Rattle.lk_env.specs.Units.{constructor_at, type_at, block_at, IsConstructorIn, IsTypeIn};
ghost use Rattle.lk_inductive.specs.Block.{levels_of, parameters_of as stated_parameters};
ghost use Rattle.lk_inductive.specs.BlockSteps.{same_names, ctor_agrees, ctors_agree, types_agree};
ghost use Rattle.lk_block.specs.Counts.{type_agrees};

use lk_env::unit::{Block, BlockType, Constructor};
use lk_lists::names::names_equal;
use lk_store::terms::Terms;

/// Whether two lists of names are equal.
fn names_agree<T: Terms>(terms: &T, first: &[u64], second: &[u64]) -> bool
    requires first_in { All (λ n. n < length (T.contents terms.now).names) first.now }
    requires second_in { All (λ n. n < length (T.contents terms.now).names) second.now }
    ensures { result ≡ same_names (map (name_at (T.contents terms.now)) first.now)
        (map (name_at (T.contents terms.now)) second.now) }
{
    let mut left = first;
    let mut right = second;
    'names: while let Some((m, left_rest)) = left.split_first() {
        match right.split_first() {
            None => return false,
            Some((n, right_rest)) => {
                if !names_equal(terms, *m, *n) {
                    return false;
                }
                left = left_rest;
                right = right_rest;
            }
        }
    }
    right.is_empty()
}

/// Whether a constructor states these level parameters and this number of parameters, its parent, and its place.
fn constructor_agrees<T: Terms>(
    terms: &T,
    parameters: u64,
    levels: &[u64],
    parent: u64,
    place: u64,
    constructor: &Constructor,
) -> bool
    requires levels_in { All (λ n. n < length (T.contents terms.now).names) levels.now }
    requires parent_in { parent < length (T.contents terms.now).names }
    requires constructor_in { IsConstructorIn (T.contents terms.now) constructor.now }
    ensures { result ≡ ctor_agrees parameters (map (name_at (T.contents terms.now)) levels.now)
        (name_at (T.contents terms.now) parent) place
        (constructor_at (T.contents terms.now) constructor.now) }
{
    if !names_agree(terms, &constructor.levels, levels) {
        return false;
    }
    if constructor.parameters != parameters {
        return false;
    }
    if !names_equal(terms, constructor.parent, parent) {
        return false;
    }
    constructor.place == place
}

/// Whether the constructors of a type state what they are to state.
fn constructors_agree<T: Terms>(
    terms: &T,
    parameters: u64,
    levels: &[u64],
    parent: u64,
    constructors: &[Constructor],
) -> bool
    requires levels_in { All (λ n. n < length (T.contents terms.now).names) levels.now }
    requires parent_in { parent < length (T.contents terms.now).names }
    requires constructors_in { All (IsConstructorIn (T.contents terms.now)) constructors.now }
    ensures { result ≡ ctors_agree parameters (map (name_at (T.contents terms.now)) levels.now)
        (name_at (T.contents terms.now) parent) 0
        (map (constructor_at (T.contents terms.now)) constructors.now) }
{
    let mut place = 0;
    let mut rest = constructors;
    'constructors: while let Some((constructor, more)) = rest.split_first() {
        if !constructor_agrees(terms, parameters, levels, parent, place, constructor) {
            return false;
        }
        place += 1;
        rest = more;
    }
    true
}

/// Whether a type and its constructors state what they are to state.
fn type_agrees<T: Terms>(terms: &T, parameters: u64, levels: &[u64], stated: &BlockType) -> bool
    requires levels_in { All (λ n. n < length (T.contents terms.now).names) levels.now }
    requires stated_in { IsTypeIn (T.contents terms.now) stated.now }
    ensures { result ≡ type_agrees parameters (map (name_at (T.contents terms.now)) levels.now)
        (type_at (T.contents terms.now) stated.now) }
{
    if !names_agree(terms, &stated.levels, levels) {
        return false;
    }
    if stated.parameters != parameters {
        return false;
    }
    constructors_agree(terms, parameters, levels, stated.name, &stated.constructors)
}

/// Whether the types of a block state these level parameters and this number of parameters, and their constructors too.
fn types_agree<T: Terms>(terms: &T, parameters: u64, levels: &[u64], types: &[BlockType]) -> bool
    requires levels_in { All (λ n. n < length (T.contents terms.now).names) levels.now }
    requires types_in { All (IsTypeIn (T.contents terms.now)) types.now }
    ensures { result ≡ types_agree parameters (map (name_at (T.contents terms.now)) levels.now)
        (map (type_at (T.contents terms.now)) types.now) }
{
    let mut rest = types;
    'types: while let Some((stated, more)) = rest.split_first() {
        if !type_agrees(terms, parameters, levels, stated) {
            return false;
        }
        rest = more;
    }
    true
}

/// Whether each member of a block states the level parameters and the number of parameters that the first type states, and
/// each constructor its parent and its place in the parent's list.
pub fn counts_agree<T: Terms>(terms: &T, block: &Block) -> bool
    requires { All (IsTypeIn (T.contents terms.now)) block.now.types.items }
    ensures { result ≡ types_agree (stated_parameters (block_at (T.contents terms.now) block.now))
        (levels_of (block_at (T.contents terms.now) block.now))
        (block_at (T.contents terms.now) block.now).types }
{
    let types = block.types.as_slice();
    match types.first() {
        None => true,
        Some(first) => types_agree(terms, first.parameters, &first.levels, types),
    }
}
