//! The last component of a recursor's name.

ghost use Rattle.std.specs.Prelude.{◌≡◌, ◌<◌, ◌↔◌, ◌≤◌, All, codes, length, IsTrue};
ghost use Rattle.lk_store.specs.Contents.{name_at};
ghost use Rattle.lk_store.specs.Store.{contents_of};
ghost use Rattle.lk_needs.specs.Endings.{IsDigit, IsPositive, IsNumberedWord, EndsIn, IsParent};

use lk_store::base_store::BaseStore;
use lk_store::node::NameNode;
use lk_store::terms::Terms;

/// A component that stands last in the name of a recursor: `rec`, or `rec_1`, `rec_2` and so on.
#[derive(Clone, Copy)]
pub(crate) enum Ending {
    Plain,
    Numbered,
}

fn are_digits(bytes: &[u8]) -> bool
    ensures { IsTrue result ↔ All IsDigit bytes.now }
{
    bytes.iter().all(|b| 48 <= *b && *b <= 57)
}

/// Whether the bytes are the decimal digits of a number from one on.
fn is_positive(bytes: &[u8]) -> bool
    ensures { IsTrue result ↔ IsPositive bytes.now }
{
    match bytes {
        [first, rest @ ..] => 49 <= *first && *first <= 57 && are_digits(rest),
        [] => false,
    }
}

fn is_front(front: &[u8]) -> bool
    ensures { IsTrue result ↔ (front.now ≡ codes "rec_") }
{
    front == b"rec_".as_slice()
}

fn is_numbered(word: &[u8]) -> bool
    ensures { IsTrue result ↔ IsNumberedWord word.now }
{
    if word.len() < 4 {
        return false;
    }
    let (front, number) = word.split_at(4);
    if is_front(front) {
        is_positive(number)
    } else {
        false
    }
}

fn is_plain(word: &[u8]) -> bool
    ensures { IsTrue result ↔ (word.now ≡ codes "rec") }
{
    word == b"rec".as_slice()
}

fn ends_in(ending: Ending, word: &[u8]) -> bool
    ensures { IsTrue result ↔ EndsIn ending word.now }
{
    match ending {
        Ending::Plain => is_plain(word),
        Ending::Numbered => is_numbered(word),
    }
}

/// The name before the last component, where that is of this kind.
pub(crate) fn parent_of(base: &BaseStore, ending: Ending, name: u64) -> Option<u64>
    requires { name < length (contents_of base.now).names }
    ensures { IsParent (contents_of base.now) ending
        (name_at (contents_of base.now) name) result }
{
    match base.name(name) {
        NameNode::Text(parent, word) => {
            if ends_in(ending, base.text(word).as_bytes()) {
                Some(parent)
            } else {
                None
            }
        }
        NameNode::Anonymous => None,
        NameNode::Number(_, _) => None,
    }
}
