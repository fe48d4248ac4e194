//! The names that the kernel itself needs.

ghost use Rattle.std.specs.Prelude.{◌≡◌, ◌<◌, ◌++◌, [], ◌∷◌, length};
ghost use Rattle.lk_tree.specs.Tree.{text};
ghost use Rattle.lk_tree.specs.Mentions.{same_name};
ghost use Rattle.lk_store.specs.Contents.{name_at};
ghost use Rattle.lk_lit.specs.Builtins.{spelled, builtin_name, IsBefore, MakesName};

use lk_store::memory::NoMemory;
use lk_store::node::NameNode;
use lk_store::terms::Terms;
use lk_store::text::Text;
use std::alloc::Global;

/// A name that the kernel itself needs.
#[derive(Clone, Copy)]
pub(crate) enum Builtin {
    Nat,
    NatZero,
    NatSucc,
    BoolFalse,
    BoolTrue,
    String,
    StringMk,
    ListNil,
    ListCons,
    Char,
    CharOfNat,
}

/// Its components.
#[derive(Clone, Copy)]
pub(crate) enum Spelling {
    Word(&'static [u8]),
    Dotted(&'static [u8], &'static [u8]),
}

fn components(name: Builtin) -> Spelling
    ensures { spelled result ≡ builtin_name name }
{
    match name {
        Builtin::Nat => Spelling::Word(b"Nat"),
        Builtin::NatZero => Spelling::Dotted(b"Nat", b"zero"),
        Builtin::NatSucc => Spelling::Dotted(b"Nat", b"succ"),
        Builtin::BoolFalse => Spelling::Dotted(b"Bool", b"false"),
        Builtin::BoolTrue => Spelling::Dotted(b"Bool", b"true"),
        Builtin::String => Spelling::Word(b"String"),
        Builtin::StringMk => Spelling::Dotted(b"String", b"mk"),
        Builtin::ListNil => Spelling::Dotted(b"List", b"nil"),
        Builtin::ListCons => Spelling::Dotted(b"List", b"cons"),
        Builtin::Char => Spelling::Word(b"Char"),
        Builtin::CharOfNat => Spelling::Dotted(b"Char", b"ofNat"),
    }
}

/// A name with a text as one more component.
fn with_word<T: Terms>(
    alloc: Global,
    terms: &mut T,
    parent: u64,
    word: &[u8],
) -> Result<u64, NoMemory>
    requires { parent < length (T.contents terms.old).names }
    ensures { MakesName T.contents T.rest terms.old terms.new result
        (name_at (T.contents terms.old) parent ++ text word.now ∷ []) }
{
    let component = terms.make_text(Text::new(Vec::from_slice(alloc, word)?))?;
    let name = terms.make_name(NameNode::Text(parent, component))?;
    Ok(name)
}

/// A number of a built-in name.
pub(crate) fn make_builtin<T: Terms>(
    alloc: Global,
    terms: &mut T,
    name: Builtin,
) -> Result<u64, NoMemory>
    ensures { MakesName T.contents T.rest terms.old terms.new result (builtin_name name) }
{
    let anonymous = terms.make_name(NameNode::Anonymous)?;
    match components(name) {
        Spelling::Word(word) => with_word(alloc, terms, anonymous, word),
        Spelling::Dotted(first, second) => {
            let parent = with_word(alloc, terms, anonymous, first)?;
            with_word(alloc, terms, parent, second)
        }
    }
}

/// What stands before the last component of a name, where that is this text.
fn before_word<T: Terms>(terms: &T, name: u64, word: &[u8]) -> Option<u64>
    requires { name < length (T.contents terms.now).names }
    ensures { IsBefore (T.contents terms.now) (name_at (T.contents terms.now) name) word.now
        result }
{
    match terms.name(name) {
        NameNode::Text(parent, component) => {
            if terms.text(component).as_bytes() == word {
                Some(parent)
            } else {
                None
            }
        }
        NameNode::Anonymous => None,
        NameNode::Number(_, _) => None,
    }
}

fn is_anonymous<T: Terms>(terms: &T, name: u64) -> bool
    requires { name < length (T.contents terms.now).names }
    ensures { result ≡ same_name (name_at (T.contents terms.now) name) [] }
{
    match terms.name(name) {
        NameNode::Anonymous => true,
        NameNode::Text(_, _) => false,
        NameNode::Number(_, _) => false,
    }
}

fn is_word<T: Terms>(terms: &T, name: u64, word: &[u8]) -> bool
    requires { name < length (T.contents terms.now).names }
    ensures { result ≡ same_name (name_at (T.contents terms.now) name) (text word.now ∷ []) }
{
    match before_word(terms, name, word) {
        Some(parent) => is_anonymous(terms, parent),
        None => false,
    }
}

fn is_dotted<T: Terms>(terms: &T, name: u64, first: &[u8], second: &[u8]) -> bool
    requires { name < length (T.contents terms.now).names }
    ensures { result ≡ same_name (name_at (T.contents terms.now) name)
        (text first.now ∷ text second.now ∷ []) }
{
    match before_word(terms, name, second) {
        Some(parent) => is_word(terms, parent, first),
        None => false,
    }
}

/// Whether a name is this built-in one. It takes no memory.
pub(crate) fn is_builtin<T: Terms>(terms: &T, name: u64, builtin: Builtin) -> bool
    requires { name < length (T.contents terms.now).names }
    ensures { result ≡ same_name (name_at (T.contents terms.now) name) (builtin_name builtin) }
{
    match components(builtin) {
        Spelling::Word(word) => is_word(terms, name, word),
        Spelling::Dotted(first, second) => is_dotted(terms, name, first, second),
    }
}
