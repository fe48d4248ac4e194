//! The lines of the types of a block and of their constructors.

ghost use Rattle.std.specs.Prelude.{◌≡◌, ◌<◌, ◌++◌, length, map, All, IfOk, OnOk};
ghost use Rattle.lk_store.specs.Contents.{name_at};
ghost use Rattle.lk_env.specs.Units.{type_at, constructor_at, IsTypeIn, IsConstructorIn};
ghost use Rattle.lk_trim.specs.Units.{type_head, type_line, write_type, write_types, ctor_line};
ghost use Rattle.lk_trim.specs.Units.{write_ctor};
ghost use Rattle.lk_trim.specs.Units.{write_ctors, write_all_ctors};
ghost use Rattle.lk_trim.specs.Stored.{written_at, AreNumbersIn, Writes};

use crate::fields::{add_fields, add_row};
use crate::names::{add_counted, add_names, name_number, write_name, write_names};
use crate::numbers::{Numbers, Writer};
use crate::trees::{tree_number, write_tree};
use lk_env::unit::{BlockType, Constructor};
use lk_store::memory::NoMemory;
use lk_store::terms::Terms;
use std::alloc::Global;

/// The names of types.
pub(crate) fn names_of_types(alloc: Global, types: &[BlockType]) -> Result<Vec<u64>, NoMemory>
    ensures { IfOk result (λ v. v.items ≡ map (λ t. t.name) types.now) }
{
    let mut names = Vec::new(alloc);
    for t in types {
        names.push(t.name)?;
    }
    Ok(names)
}

/// The names of constructors.
fn names_of_constructors(alloc: Global, constructors: &[Constructor]) -> Result<Vec<u64>, NoMemory>
    ensures { IfOk result (λ v. v.items ≡ map (λ k. k.name) constructors.now) }
{
    let mut names = Vec::new(alloc);
    for k in constructors {
        names.push(k.name)?;
    }
    Ok(names)
}

/// Appends the tag of a type, its own numbers and what it states.
#[tactic(auto, unfolding(crate::specs::Units::type_head))]
fn add_head<T: Terms>(
    out: &mut Vec<u8>,
    store: &T,
    numbers: &Numbers,
    t: &BlockType,
) -> Result<(), NoMemory>
    requires numbers { AreNumbersIn (T.contents store.now) numbers.now }
    requires type_in { IsTypeIn (T.contents store.now) t.now }
    ensures { let c = T.contents store.now in
        OnOk result (out.new.items
        ≡ out.old.items ++ type_head (type_at c t.now) (written_at c numbers.now)) }
{
    let name = name_number(store, numbers, t.name);
    let ty = tree_number(store, numbers, t.ty);
    add_row(out, b"#IND", &[name, ty, 0, 0, t.parameters, t.indices])
}

/// Appends the line of a type, without its end.
fn add_type<T: Terms>(
    out: &mut Vec<u8>,
    store: &T,
    numbers: &Numbers,
    family: &[u64],
    constructors: &[u64],
    t: &BlockType,
) -> Result<(), NoMemory>
    requires numbers { AreNumbersIn (T.contents store.now) numbers.now }
    requires family_in { All (λ n. n < length (T.contents store.now).names) family.now }
    requires constructors_in { All (λ n. n < length (T.contents store.now).names)
        constructors.now }
    requires constructors { constructors.now ≡ map (λ k. k.name) t.now.constructors.items }
    requires type_in { IsTypeIn (T.contents store.now) t.now }
    ensures { let c = T.contents store.now in
        OnOk result (out.new.items ≡ out.old.items
        ++ type_line (map (name_at c) family.now) (type_at c t.now) (written_at c numbers.now)) }
{
    add_head(out, store, numbers, t)?;
    add_counted(out, store, numbers, family)?;
    add_counted(out, store, numbers, constructors)?;
    add_names(out, store, numbers, &t.levels)?;
    Ok(())
}

/// Writes the line of a type behind those of its parts.
fn write_type<T: Terms>(
    alloc: Global,
    store: &T,
    writer: &mut Writer,
    family: &[u64],
    t: &BlockType,
) -> Result<(), NoMemory>
    requires numbers { AreNumbersIn (T.contents store.now) writer.old.numbers }
    requires family_in { All (λ n. n < length (T.contents store.now).names) family.now }
    requires type_in { IsTypeIn (T.contents store.now) t.now }
    ensures { let c = T.contents store.now in
        OnOk result (Writes c (write_type (map (name_at c) family.now) (type_at c t.now))
        writer.old writer.new) }
{
    let constructors = names_of_constructors(alloc, &t.constructors)?;
    write_name(alloc, store, writer, t.name)?;
    write_tree(alloc, store, writer, t.ty)?;
    write_names(alloc, store, writer, family)?;
    write_names(alloc, store, writer, &constructors)?;
    write_names(alloc, store, writer, &t.levels)?;
    add_type(
        &mut writer.out,
        store,
        &writer.numbers,
        family,
        &constructors,
        t,
    )?;
    writer.out.push(b'\n')?;
    Ok(())
}

/// Writes the lines of types.
pub(crate) fn write_types<T: Terms>(
    alloc: Global,
    store: &T,
    writer: &mut Writer,
    family: &[u64],
    types: &[BlockType],
) -> Result<(), NoMemory>
    requires numbers { AreNumbersIn (T.contents store.now) writer.old.numbers }
    requires family_in { All (λ n. n < length (T.contents store.now).names) family.now }
    requires types_in { All (IsTypeIn (T.contents store.now)) types.now }
    ensures { let c = T.contents store.now in
        OnOk result (Writes c (write_types (map (name_at c) family.now) (map (type_at c) types.now))
        writer.old writer.new) }
{
    let mut rest = types;
    while let Some((t, more)) = rest.split_first() {
        write_type(alloc, store, writer, family, t)?;
        rest = more;
    }
    Ok(())
}

/// Appends the line of a constructor, without its end.
fn add_constructor<T: Terms>(
    out: &mut Vec<u8>,
    store: &T,
    numbers: &Numbers,
    k: &Constructor,
) -> Result<(), NoMemory>
    requires numbers { AreNumbersIn (T.contents store.now) numbers.now }
    requires constructor_in { IsConstructorIn (T.contents store.now) k.now }
    ensures { let c = T.contents store.now in
        OnOk result (out.new.items
        ≡ out.old.items ++ ctor_line (constructor_at c k.now) (written_at c numbers.now)) }
{
    out.extend_from_slice(b"#CTOR")?;
    let name = name_number(store, numbers, k.name);
    let ty = tree_number(store, numbers, k.ty);
    add_fields(out, &[name, ty, name_number(store, numbers, k.parent)])?;
    add_fields(out, &[k.place, k.parameters, k.fields])?;
    add_names(out, store, numbers, &k.levels)
}

/// Writes the line of a constructor behind those of its parts.
fn write_constructor<T: Terms>(
    alloc: Global,
    store: &T,
    writer: &mut Writer,
    k: &Constructor,
) -> Result<(), NoMemory>
    requires numbers { AreNumbersIn (T.contents store.now) writer.old.numbers }
    requires constructor_in { IsConstructorIn (T.contents store.now) k.now }
    ensures { OnOk result (Writes (T.contents store.now)
        (write_ctor (constructor_at (T.contents store.now) k.now)) writer.old writer.new) }
{
    write_name(alloc, store, writer, k.name)?;
    write_tree(alloc, store, writer, k.ty)?;
    write_name(alloc, store, writer, k.parent)?;
    write_names(alloc, store, writer, &k.levels)?;
    add_constructor(&mut writer.out, store, &writer.numbers, k)?;
    writer.out.push(b'\n')?;
    Ok(())
}

/// Writes the lines of the constructors of a type.
fn write_constructors<T: Terms>(
    alloc: Global,
    store: &T,
    writer: &mut Writer,
    constructors: &[Constructor],
) -> Result<(), NoMemory>
    requires numbers { AreNumbersIn (T.contents store.now) writer.old.numbers }
    requires constructors_in { All (IsConstructorIn (T.contents store.now)) constructors.now }
    ensures { let c = T.contents store.now in
        OnOk result (Writes c (write_ctors (map (constructor_at c) constructors.now))
        writer.old writer.new) }
{
    let mut rest = constructors;
    while let Some((k, more)) = rest.split_first() {
        write_constructor(alloc, store, writer, k)?;
        rest = more;
    }
    Ok(())
}

/// Writes the lines of the constructors of types.
pub(crate) fn write_all_constructors<T: Terms>(
    alloc: Global,
    store: &T,
    writer: &mut Writer,
    types: &[BlockType],
) -> Result<(), NoMemory>
    requires numbers { AreNumbersIn (T.contents store.now) writer.old.numbers }
    requires types_in { All (IsTypeIn (T.contents store.now)) types.now }
    ensures { let c = T.contents store.now in
        OnOk result (Writes c (write_all_ctors (map (type_at c) types.now))
        writer.old writer.new) }
{
    let mut rest = types;
    while let Some((t, more)) = rest.split_first() {
        write_constructors(alloc, store, writer, &t.constructors)?;
        rest = more;
    }
    Ok(())
}
