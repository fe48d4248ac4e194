//! The operations on numbers that have laws.

ghost use Rattle.std.specs.Prelude.{◌≡◌, ◌<◌, ◌↔◌, ◌++◌, [], ◌∷◌, length, option_map, IsTrue};
ghost use Rattle.lk_tree.specs.Tree.{text};
ghost use Rattle.lk_tree.specs.Mentions.{same_name};
ghost use Rattle.lk_rulebook.specs.Names.{nat, op_name};
ghost use Rattle.lk_rulebook.specs.NumberLaws.{stated_by};
ghost use Rattle.lk_questions.specs.NumberLaws.{lawful_op};
ghost use Rattle.lk_store.specs.Contents.{name_at};
ghost use Rattle.lk_laws.specs.Operations.{op_at};

use lk_store::node::NameNode;
use lk_store::terms::Terms;

/// An operation whose laws are asked of the definition of its name.
#[derive(Clone, Copy)]
pub enum LawfulOp {
    Add,
    Sub,
    Mul,
    Pow,
    Beq,
    Ble,
}

/// The word behind `Nat` in its name.
pub(crate) fn word_of(op: LawfulOp) -> &'static [u8]
    ensures { nat ++ text result.now ∷ [] ≡ op_name (op_at op) }
{
    match op {
        LawfulOp::Add => b"add",
        LawfulOp::Sub => b"sub",
        LawfulOp::Mul => b"mul",
        LawfulOp::Pow => b"pow",
        LawfulOp::Beq => b"beq",
        LawfulOp::Ble => b"ble",
    }
}

/// The operation by which the laws of another one are stated, which a definition has to give.
pub fn stated_by(op: LawfulOp) -> Option<LawfulOp>
    ensures { option_map op_at result ≡ stated_by (op_at op) }
{
    match op {
        LawfulOp::Mul => Some(LawfulOp::Add),
        LawfulOp::Pow => Some(LawfulOp::Mul),
        LawfulOp::Add | LawfulOp::Sub | LawfulOp::Beq | LawfulOp::Ble => None,
    }
}

fn same_bytes(word: &[u8], other: &[u8]) -> bool
    ensures { IsTrue result ↔ (word.now ≡ other.now) }
{
    word == other
}

fn is_anonymous<T: Terms>(terms: &T, name: u64) -> bool
    requires { name < length (T.contents terms.now).names }
    ensures { IsTrue result ↔ (name_at (T.contents terms.now) name ≡ []) }
{
    match terms.name(name) {
        NameNode::Anonymous => true,
        NameNode::Text(_, _) => false,
        NameNode::Number(_, _) => false,
    }
}

fn is_nat<T: Terms>(terms: &T, name: u64) -> bool
    requires { name < length (T.contents terms.now).names }
    ensures { IsTrue result ↔ (name_at (T.contents terms.now) name ≡ nat) }
{
    match terms.name(name) {
        NameNode::Text(parent, last) => {
            same_bytes(terms.text(last).as_bytes(), b"Nat") && is_anonymous(terms, parent)
        }
        NameNode::Anonymous => false,
        NameNode::Number(_, _) => false,
    }
}

/// Whether the name is this word behind `Nat`.
fn is_behind_nat<T: Terms>(terms: &T, name: u64, word: &[u8]) -> bool
    requires { name < length (T.contents terms.now).names }
    ensures { IsTrue result ↔ (name_at (T.contents terms.now) name ≡ nat ++ text word.now ∷ []) }
{
    match terms.name(name) {
        NameNode::Text(parent, last) => {
            same_bytes(terms.text(last).as_bytes(), word) && is_nat(terms, parent)
        }
        NameNode::Anonymous => false,
        NameNode::Number(_, _) => false,
    }
}

/// Whether the name is that of the operation.
fn is_named<T: Terms>(terms: &T, name: u64, op: LawfulOp) -> bool
    requires { name < length (T.contents terms.now).names }
    ensures { result ≡ same_name (op_name (op_at op)) (name_at (T.contents terms.now) name) }
{
    is_behind_nat(terms, name, word_of(op))
}

/// The operation with laws that has this name.
pub fn operation_named<T: Terms>(terms: &T, name: u64) -> Option<LawfulOp>
    requires { name < length (T.contents terms.now).names }
    ensures { option_map op_at result ≡ lawful_op (name_at (T.contents terms.now) name) }
{
    if is_named(terms, name, LawfulOp::Add) {
        return Some(LawfulOp::Add);
    }
    if is_named(terms, name, LawfulOp::Sub) {
        return Some(LawfulOp::Sub);
    }
    if is_named(terms, name, LawfulOp::Mul) {
        return Some(LawfulOp::Mul);
    }
    if is_named(terms, name, LawfulOp::Pow) {
        return Some(LawfulOp::Pow);
    }
    if is_named(terms, name, LawfulOp::Beq) {
        return Some(LawfulOp::Beq);
    }
    if is_named(terms, name, LawfulOp::Ble) {
        return Some(LawfulOp::Ble);
    }
    None
}
