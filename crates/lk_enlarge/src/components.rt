//! Names of the constructors of auxiliary types. Such a name has the components of another name behind two of its own.

ghost use Rattle.std.specs.Prelude.{◌≡◌, ◌<◌, ◌++◌, ◌∷◌, [], length, All, IfOk};
ghost use Rattle.lk_store.specs.Contents.{name_at, Extends, IsName};
ghost use Rattle.lk_inductive.specs.Enlarged.{aux_ctor};
ghost use Rattle.lk_enlarge.specs.Components.{part_at, behind, IsPartIn};

use lk_auxiliary::naming::marked;
use lk_store::memory::NoMemory;
use lk_store::node::NameNode;
use lk_store::terms::Terms;
use std::alloc::Global;

/// A component of a name: the number of a text, or a number.
#[derive(Clone, Copy)]
pub enum Component {
    Text(u64),
    Number(u64),
}

/// The components of a name, the last one first.
fn components<T: Terms>(alloc: Global, terms: &T, name: u64) -> Result<Vec<Component>, NoMemory>
    requires { name < length (T.contents terms.now).names }
    ensures known { IfOk result (λ parts. All (IsPartIn (T.contents terms.now)) parts.items) }
    ensures name { IfOk result (λ parts. behind (T.contents terms.now) parts.items
        ≡ name_at (T.contents terms.now) name) }
{
    let mut parts = Vec::new(alloc);
    let mut at = name;
    'up: loop {
        match terms.name(at) {
            NameNode::Anonymous => return Ok(parts),
            NameNode::Text(parent, text) => {
                parts.push(Component::Text(text))?;
                at = parent;
            }
            NameNode::Number(parent, number) => {
                parts.push(Component::Number(number))?;
                at = parent;
            }
        }
    }
}

/// A name with one more component.
fn with_component<T: Terms>(terms: &mut T, front: u64, part: Component) -> Result<u64, NoMemory>
    requires front_in { front < length (T.contents terms.old).names }
    requires part_in { IsPartIn (T.contents terms.old) part }
    ensures keeps { Extends (T.contents terms.old) (T.contents terms.new) }
    ensures rest { T.rest terms.new ≡ T.rest terms.old }
    ensures ok { IfOk result (λ n. IsName (T.contents terms.new) n
        (name_at (T.contents terms.old) front ++ part_at (T.contents terms.old) part ∷ [])) }
{
    match part {
        Component::Text(text) => terms.make_name(NameNode::Text(front, text)),
        Component::Number(number) => terms.make_name(NameNode::Number(front, number)),
    }
}

/// A name with these components behind it, of which the last one comes first.
fn with_components<T: Terms>(
    terms: &mut T,
    front: u64,
    parts: &[Component],
) -> Result<u64, NoMemory>
    requires front_in { front < length (T.contents terms.old).names }
    requires parts_in { All (IsPartIn (T.contents terms.old)) parts.now }
    ensures keeps { Extends (T.contents terms.old) (T.contents terms.new) }
    ensures rest { T.rest terms.new ≡ T.rest terms.old }
    ensures ok { IfOk result (λ n. IsName (T.contents terms.new) n
        (name_at (T.contents terms.old) front ++ behind (T.contents terms.old) parts.now)) }
{
    let mut made = front;
    let mut left = parts;
    'parts: while let Some((part, others)) = left.split_last() {
        made = with_component(terms, made, *part)?;
        left = others;
    }
    Ok(made)
}

/// The name of the constructor of the auxiliary type of a number that stands for a constructor.
pub fn name_of_constructor<T: Terms>(
    alloc: Global,
    terms: &mut T,
    number: u64,
    name: u64,
) -> Result<u64, NoMemory>
    requires { name < length (T.contents terms.old).names }
    ensures keeps { Extends (T.contents terms.old) (T.contents terms.new) }
    ensures rest { T.rest terms.new ≡ T.rest terms.old }
    ensures ok { IfOk result (λ n. IsName (T.contents terms.new) n
        (aux_ctor number (name_at (T.contents terms.old) name))) }
{
    let parts = components(alloc, terms, name)?;
    let bytes = Vec::from_slice(alloc, b"\n\n")?;
    let front = marked(terms, bytes, number)?;
    with_components(terms, front, &parts)
}
