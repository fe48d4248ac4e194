//! Names of one word and of two, read component by component, and made.

ghost use Rattle.std.specs.Prelude.{◌≡◌, ◌<◌, ◌↔◌, [], ◌∷◌, ◌++◌, length, IsTrue, IfOk};
ghost use Rattle.lk_tree.specs.Tree.{text};
ghost use Rattle.lk_store.specs.Contents.{name_at};
ghost use Rattle.lk_quot.specs.Made.{MakesName};

use lk_ask::looks::Looks;
use lk_store::memory::NoMemory;
use lk_store::node::NameNode;
use lk_store::terms::Terms;
use lk_store::text::Text;

fn same_bytes(word: &[u8], other: &[u8]) -> bool
    ensures { IsTrue result ↔ (word.now ≡ other.now) }
{
    word == other
}

fn is_anonymous<T: Terms>(terms: &T, name: u64) -> bool
    requires { name < length (T.contents terms.now).names }
    ensures { IsTrue result ↔ (name_at (T.contents terms.now) name ≡ []) }
{
    match terms.name(name) {
        NameNode::Anonymous => true,
        NameNode::Text(_, _) => false,
        NameNode::Number(_, _) => false,
    }
}

/// Whether the name is this word alone.
pub(crate) fn is_word<T: Terms>(terms: &T, name: u64, word: &[u8]) -> bool
    requires { name < length (T.contents terms.now).names }
    ensures { IsTrue result ↔ (name_at (T.contents terms.now) name ≡ text word.now ∷ []) }
{
    match terms.name(name) {
        NameNode::Text(parent, last) => {
            same_bytes(terms.text(last).as_bytes(), word) && is_anonymous(terms, parent)
        }
        NameNode::Anonymous => false,
        NameNode::Number(_, _) => false,
    }
}

/// Whether the name is these two words.
pub(crate) fn is_dotted<T: Terms>(terms: &T, name: u64, first: &[u8], second: &[u8]) -> bool
    requires { name < length (T.contents terms.now).names }
    ensures { IsTrue result
        ↔ (name_at (T.contents terms.now) name ≡ text first.now ∷ text second.now ∷ []) }
{
    match terms.name(name) {
        NameNode::Text(parent, last) => {
            same_bytes(terms.text(last).as_bytes(), second) && is_word(terms, parent, first)
        }
        NameNode::Anonymous => false,
        NameNode::Number(_, _) => false,
    }
}

/// A name with a word behind it.
fn with_word<L: Looks>(looks: &mut L, name: u64, word: &[u8]) -> Result<u64, NoMemory>
    requires { name < length (L.contents looks.old).names }
    ensures { MakesName L.contents L.rest looks.old looks.new result
        (name_at (L.contents looks.old) name ++ text word.now ∷ []) }
{
    let bytes = Vec::from_slice(looks.alloc(), word)?;
    let component = looks.make_text(Text::new(bytes))?;
    looks.make_name(NameNode::Text(name, component))
}

/// The name that is this word alone.
pub(crate) fn word_alone<L: Looks>(looks: &mut L, word: &[u8]) -> Result<u64, NoMemory>
    ensures { MakesName L.contents L.rest looks.old looks.new result (text word.now ∷ []) }
{
    let anonymous = looks.make_name(NameNode::Anonymous)?;
    with_word(looks, anonymous, word)
}

/// The name that is these two words.
pub(crate) fn dotted<L: Looks>(looks: &mut L, first: &[u8], second: &[u8]) -> Result<u64, NoMemory>
    ensures { MakesName L.contents L.rest looks.old looks.new result
        (text first.now ∷ text second.now ∷ []) }
{
    let parent = word_alone(looks, first)?;
    with_word(looks, parent, second)
}
