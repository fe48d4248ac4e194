//! What an auxiliary type is made of, as it stands in the list of these. It is copied out of it, since the list grows meanwhile.

ghost use Rattle.std.specs.Prelude.{◌≡◌, ◌<◌, length, map, option_map, All, IfOk, IfSome};
ghost use Rattle.lk_env.specs.Units.{constructor_at, IsConstructorIn};
ghost use Rattle.lk_inductive.specs.Enlarged.{aux_from};
ghost use Rattle.lk_store.specs.Contents.{Contents, tree_at};
ghost use Rattle.lk_auxiliary.specs.Auxiliaries.{aux_at, auxs_at, IsAuxiliaryIn};
ghost use Rattle.lk_enlarge.specs.Drafts.{draft_at, drafts_of, outline_at, outline_of};
ghost use Rattle.lk_enlarge.specs.Drafts.{IsDraftIn, IsOutlineIn};

use lk_auxiliary::auxiliary::Auxiliary;
use lk_env::unit::Constructor;
use lk_store::memory::NoMemory;
use std::alloc::Global;

/// A constructor of the type that an auxiliary type stands for: its name, its place and how many fields it has, and what its
/// type has become past the parameters.
#[derive(Clone, Copy)]
pub struct Draft {
    pub name: u64,
    pub place: u64,
    pub fields: u64,
    pub ty: u64,
}

/// The type past the parameters, how many indices it has, and the constructors.
#[derive(Drop)]
pub struct Outline {
    pub ty: u64,
    pub indices: u64,
    pub constructors: Vec<Draft>,
}

/// Constructors with what their types have become.
fn drafts_of(alloc: Global, stated: &[Constructor], types: &[u64]) -> Result<Vec<Draft>, NoMemory>
    ensures value { IfOk result (λ v. (c : Contents) → map (draft_at c) v.items
        ≡ drafts_of (map (constructor_at c) stated.now) (map (tree_at c) types.now)) }
    ensures known { IfOk result (λ v. (c : Contents) → All (IsConstructorIn c) stated.now
        → All (λ x. x < length c.trees) types.now → All (IsDraftIn c) v.items) }
{
    let mut drafts: Vec<Draft> = Vec::new(alloc);
    let mut left = stated;
    let mut left_types = types;
    'drafts: while let Some((first, more)) = left.split_first() {
        match left_types.split_first() {
            None => return Ok(drafts),
            Some((ty, more_types)) => {
                drafts.push(Draft {
                    name: first.name,
                    place: first.place,
                    fields: first.fields,
                    ty: *ty,
                })?;
                left_types = more_types;
            }
        }
        left = more;
    }
    Ok(drafts)
}

/// What an auxiliary type is made of.
fn outline_of(alloc: Global, aux: &Auxiliary) -> Result<Outline, NoMemory>
    ensures value { IfOk result (λ o. (c : Contents)
        → outline_at c o ≡ outline_of (aux_at c aux.now)) }
    ensures known { IfOk result (λ o. (c : Contents)
        → IsAuxiliaryIn c aux.now → IsOutlineIn c o) }
{
    let constructors = drafts_of(alloc, &aux.own.constructors, &aux.constructors)?;
    Ok(Outline {
        ty: aux.ty,
        indices: aux.own.indices,
        constructors,
    })
}

/// What the auxiliary type of a number is made of, where there is one of that number.
pub fn find_outline(
    alloc: Global,
    auxs: &[Auxiliary],
    number: u64,
) -> Result<Option<Outline>, NoMemory>
    ensures value { IfOk result (λ o. (c : Contents) → option_map (outline_at c) o
        ≡ option_map outline_of (aux_from (auxs_at c auxs.now) number)) }
    ensures known { IfOk result (λ o. (c : Contents)
        → All (IsAuxiliaryIn c) auxs.now → IfSome o (IsOutlineIn c)) }
{
    match auxs.get(number as usize) {
        None => Ok(None),
        Some(aux) => {
            let outline = outline_of(alloc, aux)?;
            Ok(Some(outline))
        }
    }
}
