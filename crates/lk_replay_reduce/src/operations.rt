//! Which operation on numbers a constant stands for, by its name and what it means.

ghost use Rattle.std.specs.Prelude.{◌≡◌, ◌<◌, List, Some, length, option_map};
ghost use Rattle.std.specs.Str.{bytes_eq};
ghost use Rattle.lk_rulebook.specs.Names.{nat as nat_name};
ghost use Rattle.lk_rulebook.specs.Place.{Entry as PlainEntry};
ghost use Rattle.lk_rulebook.specs.Literals.{by_def, by_ctor, may_give as may_stand};
ghost use Rattle.lk_questions.specs.Literals.{ops};
ghost use Rattle.lk_store.specs.Contents.{Contents, name_at};
ghost use Rattle.lk_env.specs.declared.unit.Unit.{Unit as StoredUnit};
ghost use Rattle.lk_env.specs.Entries.{plain_entry};
ghost use Rattle.lk_lit.specs.Operations.{op_of_word, bit_ops, named_op};
ghost use Rattle.lk_replay_reduce.specs.Operations.{operation_at};

use lk_env::entry::{Entry, Kind};
use lk_env::unit::Body;
use lk_op::{BinaryOp, UnaryOp};
use lk_premises::same_name;
use lk_store::node::NameNode;
use lk_store::terms::Terms;

/// An operation on numbers, by how many it takes.
#[derive(Clone, Copy)]
pub enum Operation {
    Unary(UnaryOp),
    Binary(BinaryOp),
}

fn is(word: &[u8], other: &[u8]) -> bool
    ensures { result ≡ bytes_eq word.now other.now }
{
    word == other
}

/// The operation of this word: comparisons, operations on bits, and powers.
fn bit_operation_of(word: &[u8]) -> Option<BinaryOp>
    ensures { option_map (λ op. operation_at (Operation.Binary op)) result
        ≡ op_of_word bit_ops word.now }
{
    if is(word, b"beq") {
        Some(BinaryOp::Beq)
    } else if is(word, b"ble") {
        Some(BinaryOp::Ble)
    } else if is(word, b"land") {
        Some(BinaryOp::Land)
    } else if is(word, b"lor") {
        Some(BinaryOp::Lor)
    } else if is(word, b"xor") {
        Some(BinaryOp::Xor)
    } else if is(word, b"shiftLeft") {
        Some(BinaryOp::ShiftLeft)
    } else if is(word, b"shiftRight") {
        Some(BinaryOp::ShiftRight)
    } else if is(word, b"pow") {
        Some(BinaryOp::Pow)
    } else {
        None
    }
}

/// The operation whose name has this word behind `Nat`.
fn operation_of(word: &[u8]) -> Option<Operation>
    ensures { option_map operation_at result ≡ op_of_word ops word.now }
{
    if is(word, b"succ") {
        Some(Operation::Unary(UnaryOp::Succ))
    } else if is(word, b"log2") {
        Some(Operation::Unary(UnaryOp::Log2))
    } else if is(word, b"add") {
        Some(Operation::Binary(BinaryOp::Add))
    } else if is(word, b"sub") {
        Some(Operation::Binary(BinaryOp::Sub))
    } else if is(word, b"mul") {
        Some(Operation::Binary(BinaryOp::Mul))
    } else if is(word, b"div") {
        Some(Operation::Binary(BinaryOp::Div))
    } else if is(word, b"mod") {
        Some(Operation::Binary(BinaryOp::Mod))
    } else if is(word, b"gcd") {
        Some(Operation::Binary(BinaryOp::Gcd))
    } else {
        match bit_operation_of(word) {
            Some(op) => Some(Operation::Binary(op)),
            None => None,
        }
    }
}

/// The operation of this name. A name that does not stand behind `Nat` is compared with no word.
pub(crate) fn operation_named<T: Terms>(terms: &T, nat: u64, name: u64) -> Option<Operation>
    requires nat_in { nat < length (T.contents terms.now).names }
    requires nat_is { name_at (T.contents terms.now) nat ≡ nat_name }
    requires name_in { name < length (T.contents terms.now).names }
    ensures { option_map operation_at result
        ≡ named_op (name_at (T.contents terms.now) name) }
{
    match terms.name(name) {
        NameNode::Text(parent, word) => {
            if same_name(terms, parent, nat) {
                operation_of(terms.text(word).as_bytes())
            } else {
                None
            }
        }
        NameNode::Anonymous => None,
        NameNode::Number(_, _) => None,
    }
}

fn is_definition(kind: Kind) -> bool
    ensures { (c : Contents) (us : List StoredUnit) (e : Entry) (g : PlainEntry)
        → e.kind ≡ kind → plain_entry c us e ≡ Some g → result ≡ by_def g.kind }
{
    match kind {
        Kind::Declared(body) => match body {
            Body::Definition { .. } => true,
            Body::Axiom | Body::Theorem { .. } | Body::Opaque { .. } | Body::Quotient => false,
        },
        Kind::Type(_) | Kind::Constructor { .. } | Kind::Recursor(_) | Kind::BareRecursor(_) =>
            false,
    }
}

fn is_constructor(kind: Kind) -> bool
    ensures { (c : Contents) (us : List StoredUnit) (e : Entry) (g : PlainEntry)
        → e.kind ≡ kind → plain_entry c us e ≡ Some g → result ≡ by_ctor g.kind }
{
    match kind {
        Kind::Constructor { .. } => true,
        Kind::Declared(_) | Kind::Type(_) | Kind::Recursor(_) | Kind::BareRecursor(_) => false,
    }
}

/// Whether a constant of this kind may stand for the operation.
pub(crate) fn may_give(operation: Operation, kind: Kind) -> bool
    ensures { (c : Contents) (us : List StoredUnit) (e : Entry) (g : PlainEntry)
        → e.kind ≡ kind → plain_entry c us e ≡ Some g
        → result ≡ may_stand (operation_at operation) g.kind }
{
    match operation {
        Operation::Unary(op) => match op {
            UnaryOp::Succ => is_constructor(kind),
            UnaryOp::Log2 => is_definition(kind),
        },
        Operation::Binary(_) => is_definition(kind),
    }
}
