//! The built-in names that a store has.

ghost use Rattle.std.specs.Prelude.{◌≡◌, ◌<◌, ◌+◌, ◌↔◌, [], ◌∷◌, map, length, IsTrue, OnOk};
ghost use Rattle.lk_tree.specs.Tree.{text};
ghost use Rattle.lk_uses.specs.Closure.{builtins, IsIn};
ghost use Rattle.lk_store.specs.Contents.{name_at};
ghost use Rattle.lk_store.specs.Store.{contents_of};
ghost use Rattle.lk_needs.specs.Builtins.{spelled, IsBefore, AreBuiltinsTo, AreBuiltins};

use crate::thing::Thing;
use lk_store::base_store::BaseStore;
use lk_store::memory::NoMemory;
use lk_store::node::NameNode;
use lk_store::terms::Terms;

/// The components of a name.
#[derive(Clone, Copy)]
pub(crate) enum Spelling {
    Word(&'static [u8]),
    Dotted(&'static [u8], &'static [u8]),
}

/// All built-in names.
const BUILTINS: &[Spelling] = &[
    Spelling::Word(b"Nat"),
    Spelling::Dotted(b"Nat", b"zero"),
    Spelling::Dotted(b"Nat", b"succ"),
    Spelling::Dotted(b"Bool", b"true"),
    Spelling::Dotted(b"Bool", b"false"),
    Spelling::Word(b"String"),
    Spelling::Dotted(b"String", b"mk"),
    Spelling::Dotted(b"List", b"nil"),
    Spelling::Dotted(b"List", b"cons"),
    Spelling::Word(b"Char"),
    Spelling::Dotted(b"Char", b"ofNat"),
    Spelling::Word(b"Eq"),
    Spelling::Word(b"Quot"),
    Spelling::Dotted(b"Quot", b"mk"),
    Spelling::Dotted(b"Nat", b"pred"),
    Spelling::Dotted(b"Nat", b"add"),
    Spelling::Dotted(b"Nat", b"mul"),
    Spelling::Dotted(b"Eq", b"refl"),
    Spelling::Dotted(b"Quot", b"lift"),
    Spelling::Dotted(b"Quot", b"ind"),
    Spelling::Dotted(b"Nat", b"log2"),
    Spelling::Dotted(b"Nat", b"sub"),
    Spelling::Dotted(b"Nat", b"div"),
    Spelling::Dotted(b"Nat", b"mod"),
    Spelling::Dotted(b"Nat", b"gcd"),
    Spelling::Dotted(b"Nat", b"beq"),
    Spelling::Dotted(b"Nat", b"ble"),
    Spelling::Dotted(b"Nat", b"land"),
    Spelling::Dotted(b"Nat", b"lor"),
    Spelling::Dotted(b"Nat", b"xor"),
    Spelling::Dotted(b"Nat", b"shiftLeft"),
    Spelling::Dotted(b"Nat", b"shiftRight"),
    Spelling::Dotted(b"Nat", b"pow"),
];

fn all_builtins() -> &'static [Spelling]
    ensures { map spelled result.now ≡ builtins }
{
    BUILTINS
}

/// What stands before the last component of a name, where that is this text.
fn before_word(base: &BaseStore, name: u64, word: &[u8]) -> Option<u64>
    requires { name < length (contents_of base.now).names }
    ensures { IsBefore (contents_of base.now) (name_at (contents_of base.now) name) word.now
        result }
{
    match base.name(name) {
        NameNode::Text(parent, component) => {
            if base.text(component).as_bytes() == word {
                Some(parent)
            } else {
                None
            }
        }
        NameNode::Anonymous => None,
        NameNode::Number(_, _) => None,
    }
}

fn is_anonymous(base: &BaseStore, name: u64) -> bool
    requires { name < length (contents_of base.now).names }
    ensures { IsTrue result ↔ (name_at (contents_of base.now) name ≡ []) }
{
    match base.name(name) {
        NameNode::Anonymous => true,
        NameNode::Text(_, _) => false,
        NameNode::Number(_, _) => false,
    }
}

fn is_word(base: &BaseStore, name: u64, word: &[u8]) -> bool
    requires { name < length (contents_of base.now).names }
    ensures { IsTrue result ↔ (name_at (contents_of base.now) name ≡ text word.now ∷ []) }
{
    match before_word(base, name, word) {
        Some(parent) => is_anonymous(base, parent),
        None => false,
    }
}

fn is_dotted(base: &BaseStore, name: u64, first: &[u8], second: &[u8]) -> bool
    requires { name < length (contents_of base.now).names }
    ensures { IsTrue result ↔ (name_at (contents_of base.now) name
        ≡ text first.now ∷ text second.now ∷ []) }
{
    match before_word(base, name, second) {
        Some(parent) => is_word(base, parent, first),
        None => false,
    }
}

fn is_spelled(base: &BaseStore, name: u64, spelling: Spelling) -> bool
    requires { name < length (contents_of base.now).names }
    ensures { IsTrue result ↔ (spelled spelling ≡ name_at (contents_of base.now) name) }
{
    match spelling {
        Spelling::Word(word) => is_word(base, name, word),
        Spelling::Dotted(first, second) => is_dotted(base, name, first, second),
    }
}

/// Whether the name is one of these.
fn is_one_of(base: &BaseStore, name: u64, spellings: &[Spelling]) -> bool
    requires { name < length (contents_of base.now).names }
    ensures { IsTrue result ↔ IsIn (name_at (contents_of base.now) name)
        (map spelled spellings.now) }
{
    for spelling in spellings {
        if is_spelled(base, name, *spelling) {
            return true;
        }
    }
    false
}

/// Whether the name is a built-in one.
fn is_builtin(base: &BaseStore, name: u64) -> bool
    requires { name < length (contents_of base.now).names }
    ensures { IsTrue result ↔ IsIn (name_at (contents_of base.now) name) builtins }
{
    is_one_of(base, name, all_builtins())
}

/// Lists a name, where it is a built-in one.
fn push_if_builtin(base: &BaseStore, things: &mut Vec<Thing>, name: u64) -> Result<(), NoMemory>
    requires name_in { name < length (contents_of base.now).names }
    requires before { AreBuiltinsTo (contents_of base.now) name things.old.items }
    ensures { OnOk result (AreBuiltinsTo (contents_of base.now) (name + 1) things.new.items) }
{
    if is_builtin(base, name) {
        things.push(Thing::Name(name))?;
    }
    Ok(())
}

/// Lists the built-in names that the store has. What stood in the list is gone.
pub fn list_builtins(base: &BaseStore, things: &mut Vec<Thing>) -> Result<(), NoMemory>
    ensures { OnOk result (AreBuiltins (contents_of base.now) things.new.items) }
{
    things.clear();
    for name in 0..base.count_names() {
        push_if_builtin(base, things, name)?;
    }
    Ok(())
}
