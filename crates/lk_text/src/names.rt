//! Names as they are written.

ghost use Rattle.std.specs.Prelude.{◌≡◌, ◌<◌, ◌++◌, length, map, decimal, All, OnOk};
ghost use Rattle.lk_store.specs.Contents.{name_at};
ghost use Rattle.lk_text.specs.Text.{part_text, dotted, name_text};
ghost use Rattle.lk_text.specs.Names.{part_at, IsPartIn};

use itoa::Buffer;
use lk_store::memory::NoMemory;
use lk_store::node::NameNode;
use lk_store::terms::Terms;

/// A component of a name: the number of a text, or a number.
#[derive(Clone, Copy)]
pub enum Component {
    Text(u64),
    Number(u64),
}

/// Finds the components of a name, the first one first. What was found of another is gone.
fn find_components<T: Terms>(
    parts: &mut Vec<Component>,
    store: &T,
    name: u64,
) -> Result<(), NoMemory>
    requires { name < length (T.contents store.now).names }
    ensures known { OnOk result (All (IsPartIn (T.contents store.now)) parts.new.items) }
    ensures name { OnOk result (map (part_at (T.contents store.now)) parts.new.items
        ≡ name_at (T.contents store.now) name) }
{
    parts.clear();
    let mut at = name;
    'up: loop {
        match store.name(at) {
            NameNode::Anonymous => {
                parts.reverse();
                return Ok(());
            }
            NameNode::Text(parent, text) => {
                parts.push(Component::Text(text))?;
                at = parent;
            }
            NameNode::Number(parent, number) => {
                parts.push(Component::Number(number))?;
                at = parent;
            }
        }
    }
}

/// Appends a number.
pub fn add_number(out: &mut Vec<u8>, n: u64) -> Result<(), NoMemory>
    ensures { OnOk result (out.new.items ≡ out.old.items ++ decimal n) }
{
    let mut buffer = Buffer::new();
    out.extend_from_slice(buffer.format(n).as_bytes())?;
    Ok(())
}

/// Appends a component of a name.
fn add_part<T: Terms>(out: &mut Vec<u8>, store: &T, part: &Component) -> Result<(), NoMemory>
    requires { IsPartIn (T.contents store.now) part.now }
    ensures { OnOk result (out.new.items ≡ out.old.items
        ++ part_text (part_at (T.contents store.now) part.now)) }
{
    match part {
        Component::Text(text) => {
            out.extend_from_slice(store.text(*text).as_bytes())?;
            Ok(())
        }
        Component::Number(n) => add_number(out, *n),
    }
}

/// Appends components, with a dot before each.
fn add_parts<T: Terms>(out: &mut Vec<u8>, store: &T, parts: &[Component]) -> Result<(), NoMemory>
    requires { All (IsPartIn (T.contents store.now)) parts.now }
    ensures { OnOk result (out.new.items ≡ out.old.items
        ++ dotted (map (part_at (T.contents store.now)) parts.now)) }
{
    let mut rest = parts;
    while let Some((part, more)) = rest.split_first() {
        out.push(b'.')?;
        add_part(out, store, part)?;
        rest = more;
    }
    Ok(())
}

/// Appends the components of a name.
fn add_components<T: Terms>(
    out: &mut Vec<u8>,
    store: &T,
    parts: &[Component],
) -> Result<(), NoMemory>
    requires { All (IsPartIn (T.contents store.now)) parts.now }
    ensures { OnOk result (out.new.items ≡ out.old.items
        ++ name_text (map (part_at (T.contents store.now)) parts.now)) }
{
    match parts.split_first() {
        None => {
            out.extend_from_slice(b"[anonymous]")?;
            Ok(())
        }
        Some((first, more)) => {
            add_part(out, store, first)?;
            add_parts(out, store, more)
        }
    }
}

/// Appends a name. Its components are found in room that is used again for the next one.
pub fn add_name<T: Terms>(
    parts: &mut Vec<Component>,
    out: &mut Vec<u8>,
    store: &T,
    name: u64,
) -> Result<(), NoMemory>
    requires { name < length (T.contents store.now).names }
    ensures { OnOk result (out.new.items ≡ out.old.items
        ++ name_text (name_at (T.contents store.now) name)) }
{
    find_components(parts, store, name)?;
    add_components(out, store, parts)
}
