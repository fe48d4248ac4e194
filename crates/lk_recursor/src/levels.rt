//! The names and levels of a recursor's level parameters.

ghost use Rattle.std.specs.Prelude.{◌≡◌, ◌<◌, ◌++◌, ◌∷◌, [], length, map, All, IfOk};
ghost use Rattle.lk_tree.specs.Tree.{text};
ghost use Rattle.lk_store.specs.Contents.{name_at, Extends, IsName, IsLevel};
ghost use Rattle.lk_inductive.specs.Recursors.{motive_level, elim_level, rec_params, rec_name};
ghost use Rattle.lk_block.specs.Shapes.{shape_at, IsShapeIn};

use lk_block::shape::Shape;
use lk_store::memory::NoMemory;
use lk_store::node::{LevelNode, NameNode};
use lk_store::terms::Terms;
use lk_store::text::Text;
use std::alloc::Global;

/// A name with a text as one more component.
fn text_after<T: Terms>(terms: &mut T, name: u64, bytes: Vec<u8>) -> Result<u64, NoMemory>
    requires { name < length (T.contents terms.old).names }
    ensures keeps { Extends (T.contents terms.old) (T.contents terms.new) }
    ensures rest { T.rest terms.new ≡ T.rest terms.old }
    ensures ok { IfOk result (λ n. IsName (T.contents terms.new) n
        (name_at (T.contents terms.old) name ++ text bytes.items ∷ [])) }
{
    let component = terms.make_text(Text::new(bytes))?;
    let made = terms.make_name(NameNode::Text(name, component))?;
    Ok(made)
}

/// The name of the recursor of the type of this name.
pub fn recursor_name<T: Terms>(alloc: Global, terms: &mut T, name: u64) -> Result<u64, NoMemory>
    requires { name < length (T.contents terms.old).names }
    ensures keeps { Extends (T.contents terms.old) (T.contents terms.new) }
    ensures rest { T.rest terms.new ≡ T.rest terms.old }
    ensures ok { IfOk result (λ n. IsName (T.contents terms.new) n
        (rec_name (name_at (T.contents terms.old) name))) }
{
    let bytes = Vec::from_slice(alloc, b"rec")?;
    text_after(terms, name, bytes)
}

/// The name of the level parameter that large elimination adds.
fn motive_level_name<T: Terms>(alloc: Global, terms: &mut T) -> Result<u64, NoMemory>
    ensures keeps { Extends (T.contents terms.old) (T.contents terms.new) }
    ensures rest { T.rest terms.new ≡ T.rest terms.old }
    ensures ok { IfOk result (λ n. IsName (T.contents terms.new) n motive_level) }
{
    let anonymous = terms.make_name(NameNode::Anonymous)?;
    let bytes = Vec::from_slice(alloc, b"\n")?;
    text_after(terms, anonymous, bytes)
}

/// The level of the sort that motives go to.
pub fn elimination_level<T: Terms>(
    alloc: Global,
    terms: &mut T,
    shape: &Shape,
) -> Result<u64, NoMemory>
    ensures keeps { Extends (T.contents terms.old) (T.contents terms.new) }
    ensures rest { T.rest terms.new ≡ T.rest terms.old }
    ensures ok { IfOk result (λ l. IsLevel (T.contents terms.new) l
        (elim_level (shape_at (T.contents terms.old) shape.now))) }
{
    if !shape.large {
        return terms.make_level(LevelNode::Zero);
    }
    let name = motive_level_name(alloc, terms)?;
    terms.make_level(LevelNode::Param(name))
}

/// A list of names with one in front.
fn with_first(alloc: Global, first: u64, names: &[u64]) -> Result<Vec<u64>, NoMemory>
    ensures { IfOk result (λ ns. ns.items ≡ first ∷ names.now) }
{
    let mut all = Vec::new(alloc);
    all.push(first)?;
    all.extend_from_slice(names)?;
    Ok(all)
}

/// The names of a recursor's level parameters.
pub fn level_names<T: Terms>(
    alloc: Global,
    terms: &mut T,
    shape: &Shape,
) -> Result<Vec<u64>, NoMemory>
    requires { IsShapeIn (T.contents terms.old) shape.now }
    ensures keeps { Extends (T.contents terms.old) (T.contents terms.new) }
    ensures rest { T.rest terms.new ≡ T.rest terms.old }
    ensures known { IfOk result (λ ns. All
        (λ n. n < length (T.contents terms.new).names) ns.items) }
    ensures ok { IfOk result (λ ns. map (name_at (T.contents terms.new)) ns.items
        ≡ rec_params (shape_at (T.contents terms.old) shape.now)) }
{
    if !shape.large {
        let own = Vec::from_slice(alloc, &shape.levels)?;
        return Ok(own);
    }
    let first = motive_level_name(alloc, terms)?;
    let all = with_first(alloc, first, &shape.levels)?;
    Ok(all)
}
