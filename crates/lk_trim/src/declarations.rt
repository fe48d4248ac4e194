//! The lines of declarations.

ghost use Rattle.std.specs.Prelude.{◌≡◌, ◌<◌, ◌++◌, length, OnOk};
ghost use Rattle.lk_store.specs.Contents.{Contents, name_at, tree_at};
ghost use Rattle.lk_env.specs.Units.{hint_of, body_at, declaration_at, declared_levels, IsBodyIn};
ghost use Rattle.lk_env.specs.Units.{IsStatedIn};
ghost use Rattle.lk_trim.specs.Units.{hint_fields, body_tag, body_fields, decl_line, write_body};
ghost use Rattle.lk_trim.specs.Units.{write_decl};
ghost use Rattle.lk_trim.specs.Names.{write_name};
ghost use Rattle.lk_trim.specs.Trees.{write_tree};
ghost use Rattle.lk_trim.specs.Stored.{written_at, AreNumbersIn, Writes};

use crate::fields::{add_field, add_fields, add_row};
use crate::names::{add_names, name_number, write_name, write_names};
use crate::numbers::{Numbers, Writer};
use crate::trees::{tree_number, write_tree};
use lk_env::unit::{Body, Declaration, Hint};
use lk_store::memory::NoMemory;
use lk_store::terms::Terms;
use std::alloc::Global;

/// The names of a declaration's level parameters.
fn levels_of(d: &Declaration) -> &[u64]
    ensures { result.now ≡ declared_levels d.now }
{
    &d.levels
}

/// Appends a hint.
fn add_hint(out: &mut Vec<u8>, hint: Hint) -> Result<(), NoMemory>
    ensures { OnOk result (out.new.items ≡ out.old.items ++ hint_fields (hint_of hint)) }
{
    match hint {
        Hint::Opaque => add_row(out, b" O", &[]),
        Hint::Abbreviation => add_row(out, b" A", &[]),
        Hint::Regular(n) => add_row(out, b" R", &[u64::from(n)]),
    }
}

/// The tag of a declaration.
fn body_tag(body: Body) -> &'static [u8]
    ensures { (c : Contents) → result.now ≡ body_tag (body_at c body) }
{
    match body {
        Body::Axiom => b"#AX",
        Body::Definition { .. } => b"#DEF",
        Body::Theorem { .. } => b"#THM",
        Body::Opaque { .. } => b"#OPAQ",
        Body::Quotient => b"#QUOT",
    }
}

/// Appends what a line says of a body.
fn add_body<T: Terms>(
    out: &mut Vec<u8>,
    store: &T,
    numbers: &Numbers,
    body: Body,
) -> Result<(), NoMemory>
    requires numbers { AreNumbersIn (T.contents store.now) numbers.now }
    requires body_in { IsBodyIn (T.contents store.now) body }
    ensures { let c = T.contents store.now in
        OnOk result (out.new.items
        ≡ out.old.items ++ body_fields (written_at c numbers.now) (body_at c body)) }
{
    match body {
        Body::Axiom => Ok(()),
        Body::Definition { hint, value } => {
            add_field(out, tree_number(store, numbers, u64::from(value)))?;
            add_hint(out, hint)
        }
        Body::Theorem { proof } => add_field(out, tree_number(store, numbers, u64::from(proof))),
        Body::Opaque { value } => add_field(out, tree_number(store, numbers, u64::from(value))),
        Body::Quotient => Ok(()),
    }
}

/// Appends the line of a declaration, without its end.
fn add_declaration<T: Terms>(
    out: &mut Vec<u8>,
    store: &T,
    numbers: &Numbers,
    d: &Declaration,
) -> Result<(), NoMemory>
    requires numbers { AreNumbersIn (T.contents store.now) numbers.now }
    requires stated { IsStatedIn (T.contents store.now) d.now.name (declared_levels d.now)
        d.now.ty }
    requires body_in { IsBodyIn (T.contents store.now) d.now.body }
    ensures { let c = T.contents store.now in
        OnOk result (out.new.items
        ≡ out.old.items ++ decl_line (declaration_at c d.now) (written_at c numbers.now)) }
{
    out.extend_from_slice(body_tag(d.body))?;
    let name = name_number(store, numbers, u64::from(d.name));
    add_fields(out, &[name, tree_number(store, numbers, u64::from(d.ty))])?;
    add_body(out, store, numbers, d.body)?;
    add_names(out, store, numbers, levels_of(d))
}

/// Writes the lines of the trees of a body.
fn write_body<T: Terms>(
    alloc: Global,
    store: &T,
    writer: &mut Writer,
    body: Body,
) -> Result<(), NoMemory>
    requires numbers { AreNumbersIn (T.contents store.now) writer.old.numbers }
    requires body_in { IsBodyIn (T.contents store.now) body }
    ensures { OnOk result (Writes (T.contents store.now)
        (write_body (body_at (T.contents store.now) body)) writer.old writer.new) }
{
    match body {
        Body::Axiom => Ok(()),
        Body::Definition { value, .. } => write_tree(alloc, store, writer, u64::from(value)),
        Body::Theorem { proof } => write_tree(alloc, store, writer, u64::from(proof)),
        Body::Opaque { value } => write_tree(alloc, store, writer, u64::from(value)),
        Body::Quotient => Ok(()),
    }
}

/// Writes the lines of a declaration's name.
fn write_own_name<T: Terms>(
    alloc: Global,
    store: &T,
    writer: &mut Writer,
    name: u32,
) -> Result<(), NoMemory>
    requires numbers { AreNumbersIn (T.contents store.now) writer.old.numbers }
    requires name_in { name < length (T.contents store.now).names }
    ensures { OnOk result (Writes (T.contents store.now)
        (write_name (name_at (T.contents store.now) name)) writer.old writer.new) }
{
    write_name(alloc, store, writer, u64::from(name))
}

/// Writes the lines of a declaration's type.
fn write_own_type<T: Terms>(
    alloc: Global,
    store: &T,
    writer: &mut Writer,
    ty: u32,
) -> Result<(), NoMemory>
    requires numbers { AreNumbersIn (T.contents store.now) writer.old.numbers }
    requires ty_in { ty < length (T.contents store.now).trees }
    ensures { OnOk result (Writes (T.contents store.now)
        (write_tree (tree_at (T.contents store.now) ty)) writer.old writer.new) }
{
    write_tree(alloc, store, writer, u64::from(ty))
}

/// Writes the line of a declaration behind those of its parts.
pub(crate) fn write_declaration<T: Terms>(
    alloc: Global,
    store: &T,
    writer: &mut Writer,
    d: &Declaration,
) -> Result<(), NoMemory>
    requires numbers { AreNumbersIn (T.contents store.now) writer.old.numbers }
    requires stated { IsStatedIn (T.contents store.now) d.now.name (declared_levels d.now)
        d.now.ty }
    requires body_in { IsBodyIn (T.contents store.now) d.now.body }
    ensures { OnOk result (Writes (T.contents store.now)
        (write_decl (declaration_at (T.contents store.now) d.now)) writer.old writer.new) }
{
    write_own_name(alloc, store, writer, d.name)?;
    write_own_type(alloc, store, writer, d.ty)?;
    write_body(alloc, store, writer, d.body)?;
    write_names(alloc, store, writer, levels_of(d))?;
    add_declaration(&mut writer.out, store, &writer.numbers, d)?;
    writer.out.push(b'\n')?;
    Ok(())
}
