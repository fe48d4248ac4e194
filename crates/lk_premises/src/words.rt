//! Names of two words, and the constants of such names, which have no levels.

ghost use Rattle.std.specs.Prelude.{◌≡◌, ◌<◌, [], ◌∷◌, ◌++◌, length};
ghost use Rattle.lk_tree.specs.Tree.{text};
ghost use Rattle.lk_rulebook.specs.Names.{named, nat, nat_zero as zero_name};
ghost use Rattle.lk_rulebook.specs.Names.{nat_succ as successor_name};
ghost use Rattle.lk_tree.specs.Mentions.{same_name as are_same};
ghost use Rattle.lk_store.specs.Contents.{name_at};
ghost use Rattle.lk_ask.specs.Looks.{MakesTree};
ghost use Rattle.lk_premises.specs.Words.{MakesName};

use lk_store::memory::NoMemory;
use lk_store::node::{ListNode, NameNode, Node};
use lk_store::terms::Terms;
use lk_store::text::Text;
use std::alloc::Global;

/// Whether two names are equal.
pub fn same_name<T: Terms>(terms: &T, a: u64, b: u64) -> bool
    requires a_in { a < length (T.contents terms.now).names }
    requires b_in { b < length (T.contents terms.now).names }
    ensures { result ≡ are_same (name_at (T.contents terms.now) a)
        (name_at (T.contents terms.now) b) }
{
    terms.same_name(a, b)
}

/// A name with a word behind it.
fn with_word<T: Terms>(
    alloc: Global,
    terms: &mut T,
    name: u64,
    word: &[u8],
) -> Result<u64, NoMemory>
    requires { name < length (T.contents terms.old).names }
    ensures { MakesName T.contents T.rest terms.old terms.new result
        (name_at (T.contents terms.old) name ++ text word.now ∷ []) }
{
    let component = terms.make_text(Text::new(Vec::from_slice(alloc, word)?))?;
    terms.make_name(NameNode::Text(name, component))
}

/// The name that is this word alone.
fn word_alone<T: Terms>(alloc: Global, terms: &mut T, word: &[u8]) -> Result<u64, NoMemory>
    ensures { MakesName T.contents T.rest terms.old terms.new result (text word.now ∷ []) }
{
    let anonymous = terms.make_name(NameNode::Anonymous)?;
    with_word(alloc, terms, anonymous, word)
}

/// The name `Nat`.
pub fn nat_name<T: Terms>(alloc: Global, terms: &mut T) -> Result<u64, NoMemory>
    ensures { MakesName T.contents T.rest terms.old terms.new result nat }
{
    word_alone(alloc, terms, b"Nat")
}

/// The name that is these two words.
pub fn dotted<T: Terms>(
    alloc: Global,
    terms: &mut T,
    first: &[u8],
    second: &[u8],
) -> Result<u64, NoMemory>
    ensures { MakesName T.contents T.rest terms.old terms.new result
        (text first.now ∷ text second.now ∷ []) }
{
    let parent = word_alone(alloc, terms, first)?;
    with_word(alloc, terms, parent, second)
}

/// The constant of a name, without levels.
pub fn constant_of<T: Terms>(terms: &mut T, name: u64) -> Result<u64, NoMemory>
    requires { name < length (T.contents terms.old).names }
    ensures { MakesTree T.contents T.rest terms.old terms.new result
        (λ _. named (name_at (T.contents terms.old) name)) }
{
    let levels = terms.make_levels(ListNode::Empty)?;
    let e = terms.make(Node::Const(name, levels))?;
    Ok(e)
}

/// The constant `Nat.zero`.
pub fn nat_zero<T: Terms>(alloc: Global, terms: &mut T) -> Result<u64, NoMemory>
    ensures { MakesTree T.contents T.rest terms.old terms.new result (λ _. named zero_name) }
{
    let name = dotted(alloc, terms, b"Nat", b"zero")?;
    constant_of(terms, name)
}

/// The constant `Nat.succ`.
pub fn nat_successor<T: Terms>(alloc: Global, terms: &mut T) -> Result<u64, NoMemory>
    ensures { MakesTree T.contents T.rest terms.old terms.new result (λ _. named successor_name) }
{
    let name = dotted(alloc, terms, b"Nat", b"succ")?;
    constant_of(terms, name)
}
