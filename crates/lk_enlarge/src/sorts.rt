//! The result sorts of auxiliary types.

ghost use Rattle.std.specs.Prelude.{◌<◌, length, All};
ghost use Rattle.lk_questions.specs.Declarations.{checked};
ghost use Rattle.lk_inductive.specs.Nested.{aux_sorts};
ghost use Rattle.lk_store.specs.Contents.{level_at};
ghost use Rattle.lk_declaration.specs.Courses.{Settles};
ghost use Rattle.lk_auxiliary.specs.Auxiliaries.{auxs_at, IsAuxiliaryIn};

use lk_auxiliary::auxiliary::Auxiliary;
use lk_ask::stop::Stop;
use lk_declaration::asking::levels_equal;
use lk_store::terms::Terms;
use lk_tree::rule::Rule;
use std::alloc::Global;

/// The level of the sort of each auxiliary type is this one (`BlockShape`).
pub fn check_sorts<T: Terms>(
    alloc: Global,
    terms: &T,
    level: u64,
    auxs: &[Auxiliary],
) -> Result<(), Stop>
    requires level_in { level < length (T.contents terms.now).levels }
    requires auxs_in { All (IsAuxiliaryIn (T.contents terms.now)) auxs.now }
    ensures { Settles (aux_sorts (level_at (T.contents terms.now) level)
        (auxs_at (T.contents terms.now) auxs.now)) (λ u. checked) result }
{
    let mut left = auxs;
    'auxs: while let Some((aux, more)) = left.split_first() {
        if !levels_equal(alloc, terms, aux.sort, level)? {
            return Err(Stop::No(Rule::BlockShape));
        }
        left = more;
    }
    Ok(())
}
