//! The built-in names that stand in laws, as names and as constants.

ghost use Rattle.std.specs.Prelude.{◌≡◌, ◌<◌, ◌++◌, [], ◌∷◌, length};
ghost use Rattle.lk_tree.specs.Tree.{text};
ghost use Rattle.lk_rulebook.specs.Names.{nat, named as plain_named};
ghost use Rattle.lk_store.specs.Contents.{name_at};
ghost use Rattle.lk_ask.specs.Looks.{MakesTree};
ghost use Rattle.lk_quot.specs.Made.{MakesName};
ghost use Rattle.lk_laws.specs.Operations.{constant_name};
ghost use Rattle.lk_laws.specs.Sides.{constant as plain_constant};

use crate::operation::{LawfulOp, word_of};
use lk_store::memory::NoMemory;
use lk_store::node::{ListNode, NameNode, Node};
use lk_store::terms::Terms;
use lk_store::text::Text;
use std::alloc::Global;

/// A built-in name beside `Nat`.
#[derive(Clone, Copy)]
pub enum Constant {
    Zero,
    Succ,
    Pred,
    False,
    True,
    Operation(LawfulOp),
}

/// Its two words.
fn words_of(constant: Constant) -> (&'static [u8], &'static [u8])
    ensures { text result.0.now ∷ text result.1.now ∷ [] ≡ constant_name constant }
{
    match constant {
        Constant::Zero => (b"Nat", b"zero"),
        Constant::Succ => (b"Nat", b"succ"),
        Constant::Pred => (b"Nat", b"pred"),
        Constant::False => (b"Bool", b"false"),
        Constant::True => (b"Bool", b"true"),
        Constant::Operation(op) => (b"Nat", word_of(op)),
    }
}

/// A name with a word behind it.
fn with_word<T: Terms>(
    alloc: Global,
    terms: &mut T,
    name: u64,
    word: &[u8],
) -> Result<u64, NoMemory>
    requires { name < length (T.contents terms.old).names }
    ensures { MakesName T.contents T.rest terms.old terms.new result
        (name_at (T.contents terms.old) name ++ text word.now ∷ []) }
{
    let component = terms.make_text(Text::new(Vec::from_slice(alloc, word)?))?;
    terms.make_name(NameNode::Text(name, component))
}

/// A name of one word.
fn word_alone<T: Terms>(alloc: Global, terms: &mut T, word: &[u8]) -> Result<u64, NoMemory>
    ensures { MakesName T.contents T.rest terms.old terms.new result (text word.now ∷ []) }
{
    let anonymous = terms.make_name(NameNode::Anonymous)?;
    with_word(alloc, terms, anonymous, word)
}

/// A number of a built-in name.
pub(crate) fn make_name<T: Terms>(
    alloc: Global,
    terms: &mut T,
    constant: Constant,
) -> Result<u64, NoMemory>
    ensures { MakesName T.contents T.rest terms.old terms.new result (constant_name constant) }
{
    let (first, second) = words_of(constant);
    let parent = word_alone(alloc, terms, first)?;
    with_word(alloc, terms, parent, second)
}

/// The constant of this name, without levels.
fn named<T: Terms>(terms: &mut T, name: u64) -> Result<u64, NoMemory>
    requires { name < length (T.contents terms.old).names }
    ensures { MakesTree T.contents T.rest terms.old terms.new result
        (λ _. plain_named (name_at (T.contents terms.old) name)) }
{
    let levels = terms.make_levels(ListNode::Empty)?;
    terms.make(Node::Const(name, levels))
}

/// The constant of a built-in name, without levels.
pub(crate) fn make_constant<T: Terms>(
    alloc: Global,
    terms: &mut T,
    constant: Constant,
) -> Result<u64, NoMemory>
    ensures { MakesTree T.contents T.rest terms.old terms.new result
        (λ _. plain_constant constant) }
{
    let name = make_name(alloc, terms, constant)?;
    named(terms, name)
}

/// The constant `Nat`.
pub(crate) fn make_nat<T: Terms>(alloc: Global, terms: &mut T) -> Result<u64, NoMemory>
    ensures { MakesTree T.contents T.rest terms.old terms.new result (λ _. plain_named nat) }
{
    let name = word_alone(alloc, terms, b"Nat")?;
    named(terms, name)
}
