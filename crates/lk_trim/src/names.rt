//! The lines of names.

ghost use Rattle.std.specs.Prelude.{◌≡◌, ◌<◌, ◌++◌, false, length, map, reverse, All, OnOk};
ghost use Rattle.lk_store.specs.Contents.{name_at, IsNameIn};
ghost use Rattle.lk_trim.specs.Written.{fields, counted};
ghost use Rattle.lk_trim.specs.Names.{has_name, name_number, name_numbers, add_name};
ghost use Rattle.lk_trim.specs.Names.{write_name, write_names};
ghost use Rattle.lk_trim.specs.Stored.{written_at, AreNumbersIn, Writes, is_anonymous, IsParent};
ghost use Rattle.lk_trim.specs.Stored.{node_fields};

use crate::fields::{add_field, add_fields, add_number};
use crate::numbers::{Numbers, Writer};
use lk_store::memory::NoMemory;
use lk_store::node::NameNode;
use lk_store::terms::Terms;
use std::alloc::Global;

/// Whether a name is the anonymous one, which has no line.
fn is_anonymous<T: Terms>(store: &T, name: u64) -> bool
    requires { name < length (T.contents store.now).names }
    ensures { result ≡ is_anonymous (name_at (T.contents store.now) name) }
{
    matches!(store.name(name), NameNode::Anonymous)
}

/// Whether a name has its line, or needs none.
fn has_name<T: Terms>(store: &T, numbers: &Numbers, name: u64) -> bool
    requires numbers { AreNumbersIn (T.contents store.now) numbers.now }
    requires name_in { name < length (T.contents store.now).names }
    ensures { let c = T.contents store.now in
        result ≡ has_name (written_at c numbers.now) (name_at c name) }
{
    if is_anonymous(store, name) {
        return true;
    }
    numbers.names.has(name)
}

/// The number of a name.
pub(crate) fn name_number<T: Terms>(store: &T, numbers: &Numbers, name: u64) -> u64
    requires numbers { AreNumbersIn (T.contents store.now) numbers.now }
    requires name_in { name < length (T.contents store.now).names }
    ensures { let c = T.contents store.now in
        result ≡ name_number (written_at c numbers.now) (name_at c name) }
{
    if is_anonymous(store, name) {
        return 0;
    }
    numbers.names.place_from_one(name)
}

/// The name without its last component.
fn parent_of<T: Terms>(store: &T, name: u64) -> u64
    requires { name < length (T.contents store.now).names }
    ensures known { result < length (T.contents store.now).names }
    ensures parent { is_anonymous (name_at (T.contents store.now) name) ≡ false
        → IsParent (T.contents store.now) name result }
{
    match store.name(name) {
        NameNode::Anonymous => name,
        NameNode::Text(parent, _) => parent,
        NameNode::Number(parent, _) => parent,
    }
}

/// Appends what the line of a name says behind its number.
fn add_node<T: Terms>(
    out: &mut Vec<u8>,
    store: &T,
    numbers: &Numbers,
    node: NameNode,
) -> Result<(), NoMemory>
    requires numbers { AreNumbersIn (T.contents store.now) numbers.now }
    requires node_in { IsNameIn (T.contents store.now) node }
    ensures { let c = T.contents store.now in
        OnOk result (out.new.items
        ≡ out.old.items ++ node_fields c (written_at c numbers.now) node) }
{
    match node {
        NameNode::Anonymous => Ok(()),
        NameNode::Text(parent, text) => {
            out.extend_from_slice(b" #NS")?;
            add_field(out, name_number(store, numbers, parent))?;
            out.push(b' ')?;
            out.extend_from_slice(store.text(text).as_bytes())?;
            Ok(())
        }
        NameNode::Number(parent, number) => {
            out.extend_from_slice(b" #NI")?;
            add_fields(out, &[name_number(store, numbers, parent), number])
        }
    }
}

/// Writes the line of a name.
fn add_line<T: Terms>(store: &T, writer: &mut Writer, name: u64) -> Result<(), NoMemory>
    requires numbers { AreNumbersIn (T.contents store.now) writer.old.numbers }
    requires name_in { name < length (T.contents store.now).names }
    ensures { OnOk result (Writes (T.contents store.now)
        (add_name (reverse (name_at (T.contents store.now) name))) writer.old writer.new) }
{
    let node = store.name(name);
    add_number(&mut writer.out, writer.numbers.names.len_from_one())?;
    add_node(&mut writer.out, store, &writer.numbers, node)?;
    writer.out.push(b'\n')?;
    writer.numbers.names.note(name)?;
    Ok(())
}

/// Writes the lines of a name and of those before it that have none yet: up to one that has its
/// line, and down again.
pub(crate) fn write_name<T: Terms>(
    alloc: Global,
    store: &T,
    writer: &mut Writer,
    name: u64,
) -> Result<(), NoMemory>
    requires numbers { AreNumbersIn (T.contents store.now) writer.old.numbers }
    requires name_in { name < length (T.contents store.now).names }
    ensures { OnOk result (Writes (T.contents store.now)
        (write_name (name_at (T.contents store.now) name)) writer.old writer.new) }
{
    let mut waiting: Vec<u64> = Vec::new(alloc);
    let mut at = name;
    'up: while !has_name(store, &writer.numbers, at) {
        waiting.push(at)?;
        at = parent_of(store, at);
    }
    'down: while let Some(n) = waiting.pop() {
        add_line(store, writer, n)?;
    }
    Ok(())
}

/// Writes the lines of names.
pub(crate) fn write_names<T: Terms>(
    alloc: Global,
    store: &T,
    writer: &mut Writer,
    names: &[u64],
) -> Result<(), NoMemory>
    requires numbers { AreNumbersIn (T.contents store.now) writer.old.numbers }
    requires names_in { All (λ n. n < length (T.contents store.now).names) names.now }
    ensures { OnOk result (Writes (T.contents store.now)
        (write_names (map (name_at (T.contents store.now)) names.now)) writer.old writer.new) }
{
    let mut rest = names;
    while let Some((name, more)) = rest.split_first() {
        write_name(alloc, store, writer, *name)?;
        rest = more;
    }
    Ok(())
}

/// Appends the numbers of names.
pub(crate) fn add_names<T: Terms>(
    out: &mut Vec<u8>,
    store: &T,
    numbers: &Numbers,
    names: &[u64],
) -> Result<(), NoMemory>
    requires numbers { AreNumbersIn (T.contents store.now) numbers.now }
    requires names_in { All (λ n. n < length (T.contents store.now).names) names.now }
    ensures { let c = T.contents store.now in
        let w = written_at c numbers.now in
        OnOk result (out.new.items
        ≡ out.old.items ++ fields (name_numbers w (map (name_at c) names.now))) }
{
    let mut rest = names;
    while let Some((name, more)) = rest.split_first() {
        add_field(out, name_number(store, numbers, *name))?;
        rest = more;
    }
    Ok(())
}

/// Appends how many names there are, and their numbers.
pub(crate) fn add_counted<T: Terms>(
    out: &mut Vec<u8>,
    store: &T,
    numbers: &Numbers,
    names: &[u64],
) -> Result<(), NoMemory>
    requires numbers { AreNumbersIn (T.contents store.now) numbers.now }
    requires names_in { All (λ n. n < length (T.contents store.now).names) names.now }
    ensures { let c = T.contents store.now in
        let w = written_at c numbers.now in
        OnOk result (out.new.items
        ≡ out.old.items ++ counted (name_numbers w (map (name_at c) names.now))) }
{
    add_field(out, names.len() as u64)?;
    add_names(out, store, numbers, names)
}
