//! Auxiliary types that are there already.

ghost use Rattle.std.specs.Prelude.{◌≡◌, ◌<◌, List, length, map, All, IfOk};
ghost use Rattle.lk_tree.specs.Tree.{Name, Level, Tree, const};
ghost use Rattle.lk_tree.specs.Spine.{apply};
ghost use Rattle.lk_store.specs.Contents.{name_at, list_at, tree_at, Extends, IsTree};
ghost use Rattle.lk_env.specs.Units.{type_at, IsTypeIn};
ghost use Rattle.lk_inductive.specs.Enlarged.{aux_name};
ghost use Rattle.lk_inductive.specs.Nested.{aux_at as numbered, other_count};
ghost use Rattle.lk_auxiliary.specs.Auxiliaries.{auxs_at, IsAuxiliaryIn};

use crate::auxiliary::Auxiliary;
use crate::naming::name_of_type;
use crate::parts::instance_of;
use lk_env::unit::BlockType;
use lk_lists::names::names_equal;
use lk_lists::numbers::number_after;
use lk_store::memory::NoMemory;
use lk_store::terms::Terms;
use std::alloc::Global;

/// The number of the auxiliary type that stands for a type at levels and arguments.
pub fn number_of<T: Terms>(terms: &T, auxs: &[Auxiliary], e: u64) -> Result<Option<u64>, NoMemory>
    requires auxs_in { All (IsAuxiliaryIn (T.contents terms.now)) auxs.now }
    requires e_in { e < length (T.contents terms.now).trees }
    ensures { IfOk result (λ o. (J : Name) (ls : List Level) (bs : List Tree)
        → tree_at (T.contents terms.now) e ≡ apply (const J ls) bs
        → o ≡ numbered 0 (auxs_at (T.contents terms.now) auxs.now) J ls bs) }
{
    let mut rest = auxs;
    let mut number = 0;
    'auxs: while let Some((aux, more)) = rest.split_first() {
        if terms.same(e, aux.instance) {
            return Ok(Some(number));
        }
        number = number_after(number)?;
        rest = more;
    }
    Ok(None)
}

/// How many types have another name.
pub fn count_others<T: Terms>(terms: &T, name: u64, types: &[BlockType]) -> Result<u64, NoMemory>
    requires name_in { name < length (T.contents terms.now).names }
    requires types_in { All (IsTypeIn (T.contents terms.now)) types.now }
    ensures { IfOk result (λ n. n ≡ other_count (name_at (T.contents terms.now) name)
        (map (type_at (T.contents terms.now)) types.now)) }
{
    let mut rest = types;
    let mut count = 0;
    'types: while let Some((stated, more)) = rest.split_first() {
        if !names_equal(terms, name, stated.name) {
            count = number_after(count)?;
        }
        rest = more;
    }
    Ok(count)
}

/// The auxiliary type of a number at levels, applied to the parameters.
pub fn auxiliary_applied<T: Terms>(
    alloc: Global,
    terms: &mut T,
    number: u64,
    levels: u64,
    parameters: &[u64],
) -> Result<u64, NoMemory>
    requires levels_in { levels < length (T.contents terms.old).lists }
    requires parameters_in { All (λ x. x < length (T.contents terms.old).trees) parameters.now }
    ensures keeps { Extends (T.contents terms.old) (T.contents terms.new) }
    ensures rest { T.rest terms.new ≡ T.rest terms.old }
    ensures ok { IfOk result (λ e. IsTree (T.contents terms.new) e
        (apply (const (aux_name number) (list_at (T.contents terms.old) levels))
        (map (tree_at (T.contents terms.old)) parameters.now))) }
{
    let name = name_of_type(alloc, terms, number)?;
    instance_of(terms, name, levels, parameters)
}
