//! Which operation on numbers a constant stands for, and its arguments.

ghost use Rattle.std.specs.Prelude.{◌≡◌, ◌<◌, List, Some, length, option_map};
ghost use Rattle.std.specs.Str.{bytes_eq};
ghost use Rattle.lk_tree.specs.Spine.{args};
ghost use Rattle.lk_rulebook.specs.Place.{Entry as PlainEntry};
ghost use Rattle.lk_rulebook.specs.Literals.{by_def, by_ctor, may_give};
ghost use Rattle.lk_questions.specs.Literals.{ops};
ghost use Rattle.lk_store.specs.Contents.{Contents, name_at, list_at, tree_at};
ghost use Rattle.lk_env.specs.declared.unit.Unit.{Unit as StoredUnit};
ghost use Rattle.lk_env.specs.Entries.{plain_entry};
ghost use Rattle.lk_lit.specs.Operations.{operation_at, op_of_word, bit_ops};
ghost use Rattle.lk_lit.specs.Operations.{named_op, op_of_kind, op_of_constant};
ghost use Rattle.lk_lit.specs.Operations.{is_app, AreArguments};

use crate::builtin::{Builtin, is_builtin};
use crate::constant::is_empty;
use lk_env::entry::{Entry, Kind};
use lk_env::unit::Body;
use lk_op::{BinaryOp, UnaryOp};
use lk_store::node::{NameNode, Node};
use lk_store::terms::Terms;

/// An operation on numbers, by how many it takes.
#[derive(Clone, Copy)]
pub(crate) enum Operation {
    Unary(UnaryOp),
    Binary(BinaryOp),
}

/// An operation with as many arguments as it takes.
#[derive(Clone, Copy)]
pub(crate) enum Applied {
    Unary(UnaryOp, u64),
    Binary(BinaryOp, u64, u64),
}

fn is(word: &[u8], other: &[u8]) -> bool
    ensures { result ≡ bytes_eq word.now other.now }
{
    word == other
}

/// The operation of this word: comparisons, operations on bits, and powers.
fn bit_operation_of(word: &[u8]) -> Option<BinaryOp>
    ensures { option_map (λ op. operation_at (Operation.Binary op)) result
        ≡ op_of_word bit_ops word.now }
{
    if is(word, b"beq") {
        Some(BinaryOp::Beq)
    } else if is(word, b"ble") {
        Some(BinaryOp::Ble)
    } else if is(word, b"land") {
        Some(BinaryOp::Land)
    } else if is(word, b"lor") {
        Some(BinaryOp::Lor)
    } else if is(word, b"xor") {
        Some(BinaryOp::Xor)
    } else if is(word, b"shiftLeft") {
        Some(BinaryOp::ShiftLeft)
    } else if is(word, b"shiftRight") {
        Some(BinaryOp::ShiftRight)
    } else if is(word, b"pow") {
        Some(BinaryOp::Pow)
    } else {
        None
    }
}

/// The operation whose name has this word behind `Nat`.
fn operation_of(word: &[u8]) -> Option<Operation>
    ensures { option_map operation_at result ≡ op_of_word ops word.now }
{
    if is(word, b"succ") {
        Some(Operation::Unary(UnaryOp::Succ))
    } else if is(word, b"log2") {
        Some(Operation::Unary(UnaryOp::Log2))
    } else if is(word, b"add") {
        Some(Operation::Binary(BinaryOp::Add))
    } else if is(word, b"sub") {
        Some(Operation::Binary(BinaryOp::Sub))
    } else if is(word, b"mul") {
        Some(Operation::Binary(BinaryOp::Mul))
    } else if is(word, b"div") {
        Some(Operation::Binary(BinaryOp::Div))
    } else if is(word, b"mod") {
        Some(Operation::Binary(BinaryOp::Mod))
    } else if is(word, b"gcd") {
        Some(Operation::Binary(BinaryOp::Gcd))
    } else {
        match bit_operation_of(word) {
            Some(op) => Some(Operation::Binary(op)),
            None => None,
        }
    }
}

/// The operation of this name. A name that does not stand behind `Nat` is compared with no other word.
pub(crate) fn operation_named<T: Terms>(terms: &T, name: u64) -> Option<Operation>
    requires { name < length (T.contents terms.now).names }
    ensures { option_map operation_at result
        ≡ named_op (name_at (T.contents terms.now) name) }
{
    match terms.name(name) {
        NameNode::Text(parent, word) => {
            if is_builtin(terms, parent, Builtin::Nat) {
                operation_of(terms.text(word).as_bytes())
            } else {
                None
            }
        }
        NameNode::Anonymous => None,
        NameNode::Number(_, _) => None,
    }
}

fn is_definition(kind: Kind) -> bool
    ensures { (c : Contents) (us : List StoredUnit) (e : Entry) (g : PlainEntry)
        → e.kind ≡ kind → plain_entry c us e ≡ Some g → result ≡ by_def g.kind }
{
    match kind {
        Kind::Declared(body) => match body {
            Body::Definition { .. } => true,
            Body::Axiom | Body::Theorem { .. } | Body::Opaque { .. } | Body::Quotient => false,
        },
        Kind::Type(_) | Kind::Constructor { .. } | Kind::Recursor(_) | Kind::BareRecursor(_) =>
            false,
    }
}

fn is_constructor(kind: Kind) -> bool
    ensures { (c : Contents) (us : List StoredUnit) (e : Entry) (g : PlainEntry)
        → e.kind ≡ kind → plain_entry c us e ≡ Some g → result ≡ by_ctor g.kind }
{
    match kind {
        Kind::Constructor { .. } => true,
        Kind::Declared(_) | Kind::Type(_) | Kind::Recursor(_) | Kind::BareRecursor(_) => false,
    }
}

/// Whether a constant of this kind may stand for the operation.
fn may_give(operation: Operation, kind: Kind) -> bool
    ensures { (c : Contents) (us : List StoredUnit) (e : Entry) (g : PlainEntry)
        → e.kind ≡ kind → plain_entry c us e ≡ Some g
        → result ≡ may_give (operation_at operation) g.kind }
{
    match operation {
        Operation::Unary(op) => match op {
            UnaryOp::Succ => is_constructor(kind),
            UnaryOp::Log2 => is_definition(kind),
        },
        Operation::Binary(_) => is_definition(kind),
    }
}

/// The operation that a constant of this kind and name stands for.
fn operation_by_kind<T: Terms>(terms: &T, kind: Kind, name: u64) -> Option<Operation>
    requires { name < length (T.contents terms.now).names }
    ensures { (c : Contents) (us : List StoredUnit) (e : Entry) (g : PlainEntry)
        → e.kind ≡ kind → plain_entry c us e ≡ Some g → option_map operation_at result
        ≡ op_of_kind (named_op (name_at (T.contents terms.now) name)) g.kind }
{
    if !is_definition(kind) && !is_constructor(kind) {
        return None;
    }
    match operation_named(terms, name) {
        Some(operation) => {
            if may_give(operation, kind) {
                Some(operation)
            } else {
                None
            }
        }
        None => None,
    }
}

/// The operation that a constant of this kind, name and levels stands for, which is the head of a term: the constant has no
/// levels, and no Local is in the term. Whether it has as many arguments as the operation takes is another matter.
pub(crate) fn operation_at_head<T: Terms>(
    terms: &T,
    kind: Kind,
    name: u64,
    levels: u64,
    e: u64,
) -> Option<Operation>
    requires name_in { name < length (T.contents terms.now).names }
    requires levels_in { levels < length (T.contents terms.now).lists }
    requires e_in { e < length (T.contents terms.now).trees }
    ensures { (c : Contents) (us : List StoredUnit) (d : Entry) (g : PlainEntry)
        → d.kind ≡ kind → plain_entry c us d ≡ Some g → option_map operation_at result
        ≡ op_of_constant (tree_at (T.contents terms.now) e) (name_at (T.contents terms.now) name)
        (list_at (T.contents terms.now) levels) g.kind }
{
    match operation_by_kind(terms, kind, name) {
        Some(operation) => {
            if is_empty(terms, levels) && terms.local_bound(e) == 0 {
                Some(operation)
            } else {
                None
            }
        }
        None => None,
    }
}

fn is_application<T: Terms>(terms: &T, e: u64) -> bool
    requires { e < length (T.contents terms.now).trees }
    ensures { result ≡ is_app (tree_at (T.contents terms.now) e) }
{
    match terms.view(e) {
        Node::App(_, _) => true,
        _ => false,
    }
}

/// An operation with the arguments of a term, where they are as many as it takes.
pub(crate) fn with_arguments<T: Terms>(terms: &T, operation: Operation, e: u64) -> Option<Applied>
    requires { e < length (T.contents terms.now).trees }
    ensures { AreArguments (T.contents terms.now) operation
        (args (tree_at (T.contents terms.now) e)) result }
{
    match terms.view(e) {
        Node::App(function, last) => match operation {
            Operation::Unary(op) => {
                if is_application(terms, function) {
                    None
                } else {
                    Some(Applied::Unary(op, last))
                }
            }
            Operation::Binary(op) => match terms.view(function) {
                Node::App(front, first) => {
                    if is_application(terms, front) {
                        None
                    } else {
                        Some(Applied::Binary(op, first, last))
                    }
                }
                _ => None,
            },
        },
        _ => None,
    }
}
