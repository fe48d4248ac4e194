//! Names of auxiliary types and their constructors.

ghost use Rattle.std.specs.Prelude.{◌≡◌, ◌<◌, ◌++◌, length, IfOk};
ghost use Rattle.lk_store.specs.Contents.{name_at, Extends, IsName};
ghost use Rattle.lk_inductive.specs.Enlarged.{aux_name};
ghost use Rattle.lk_auxiliary.specs.Naming.{marked};

use lk_store::memory::NoMemory;
use lk_store::node::NameNode;
use lk_store::terms::Terms;
use lk_store::text::Text;
use std::alloc::Global;

/// The name of these bytes and a number.
pub fn marked<T: Terms>(terms: &mut T, bytes: Vec<u8>, number: u64) -> Result<u64, NoMemory>
    ensures keeps { Extends (T.contents terms.old) (T.contents terms.new) }
    ensures rest { T.rest terms.new ≡ T.rest terms.old }
    ensures ok { IfOk result (λ n. IsName (T.contents terms.new) n (marked bytes.items number)) }
{
    let anonymous = terms.make_name(NameNode::Anonymous)?;
    let text = terms.make_text(Text::new(bytes))?;
    let parent = terms.make_name(NameNode::Text(anonymous, text))?;
    terms.make_name(NameNode::Number(parent, number))
}

/// The name of the auxiliary type of a number.
pub fn name_of_type<T: Terms>(alloc: Global, terms: &mut T, number: u64) -> Result<u64, NoMemory>
    ensures keeps { Extends (T.contents terms.old) (T.contents terms.new) }
    ensures rest { T.rest terms.new ≡ T.rest terms.old }
    ensures ok { IfOk result (λ n. IsName (T.contents terms.new) n (aux_name number)) }
{
    let bytes = Vec::from_slice(alloc, b"\n")?;
    marked(terms, bytes, number)
}
