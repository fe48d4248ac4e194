//! Copies of constructors and types of blocks.

ghost use Rattle.std.specs.Prelude.{◌≡◌, map, All, IfOk};
ghost use Rattle.lk_store.specs.Contents.{Contents};
ghost use Rattle.lk_env.specs.Units.{constructor_at, type_at, IsConstructorIn, IsTypeIn};

use lk_env::unit::{BlockType, Constructor};
use lk_store::memory::NoMemory;
use std::alloc::Global;

/// A copy of a constructor.
pub fn copy_constructor(alloc: Global, stated: &Constructor) -> Result<Constructor, NoMemory>
    ensures value { IfOk result (λ k. (c : Contents)
        → constructor_at c k ≡ constructor_at c stated.now) }
    ensures known { IfOk result (λ k. (c : Contents)
        → IsConstructorIn c stated.now → IsConstructorIn c k) }
{
    let levels = Vec::from_slice(alloc, &stated.levels)?;
    Ok(Constructor {
        name: stated.name,
        levels,
        ty: stated.ty,
        parent: stated.parent,
        place: stated.place,
        parameters: stated.parameters,
        fields: stated.fields,
    })
}

/// Copies of constructors.
fn copy_constructors(alloc: Global, stated: &[Constructor]) -> Result<Vec<Constructor>, NoMemory>
    ensures value { IfOk result (λ v. (c : Contents)
        → map (constructor_at c) v.items ≡ map (constructor_at c) stated.now) }
    ensures known { IfOk result (λ v. (c : Contents)
        → All (IsConstructorIn c) stated.now → All (IsConstructorIn c) v.items) }
{
    let mut copies: Vec<Constructor> = Vec::new(alloc);
    let mut rest = stated;
    'constructors: while let Some((first, more)) = rest.split_first() {
        let copy = copy_constructor(alloc, first)?;
        match copies.push(copy) {
            Ok(_) => {}
            Err(_) => return Err(NoMemory),
        }
        rest = more;
    }
    Ok(copies)
}

/// A copy of a type with its constructors.
pub fn copy_type(alloc: Global, stated: &BlockType) -> Result<BlockType, NoMemory>
    ensures value { IfOk result (λ t. (c : Contents) → type_at c t ≡ type_at c stated.now) }
    ensures known { IfOk result (λ t. (c : Contents) → IsTypeIn c stated.now → IsTypeIn c t) }
{
    let levels = Vec::from_slice(alloc, &stated.levels)?;
    let constructors = copy_constructors(alloc, &stated.constructors)?;
    Ok(BlockType {
        name: stated.name,
        levels,
        ty: stated.ty,
        parameters: stated.parameters,
        indices: stated.indices,
        constructors,
    })
}

/// Copies of types.
pub fn copy_types(alloc: Global, stated: &[BlockType]) -> Result<Vec<BlockType>, NoMemory>
    ensures value { IfOk result (λ v. (c : Contents)
        → map (type_at c) v.items ≡ map (type_at c) stated.now) }
    ensures known { IfOk result (λ v. (c : Contents)
        → All (IsTypeIn c) stated.now → All (IsTypeIn c) v.items) }
{
    let mut copies: Vec<BlockType> = Vec::new(alloc);
    let mut rest = stated;
    'types: while let Some((first, more)) = rest.split_first() {
        let copy = copy_type(alloc, first)?;
        match copies.push(copy) {
            Ok(_) => {}
            Err(_) => return Err(NoMemory),
        }
        rest = more;
    }
    Ok(copies)
}
