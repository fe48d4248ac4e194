//! Operations on numbers that are computed.

ghost use Rattle.std.specs.Prelude.{◌≡◌, ◌<◌, Option, Some, IfOk, IfSome, length, option_map};
ghost use Rattle.lk_tree.specs.Operations.{Value as PlainValue};
ghost use Rattle.lk_rulebook.specs.Names.{named, nat_zero as zero_name, bool_name as name_of_bool};
ghost use Rattle.lk_rulebook.specs.Place.{Entry as PlainEntry};
ghost use Rattle.lk_questions.specs.Literals.{numeral_of as plain_numeral};
ghost use Rattle.lk_questions.specs.Shapes.{nat_shape as nat_program};
ghost use Rattle.lk_questions.specs.Tests.{passes, found};
ghost use Rattle.lk_written.specs.Reducing.{no_levels, red_operation};
ghost use Rattle.lk_op.specs.Ops.{unary_at, binary_at, value_at, fitting};
ghost use Rattle.lk_store.specs.Contents.{name_at, list_at, tree_at};
ghost use Rattle.lk_ask.specs.Looks.{entry_at, Made};
ghost use Rattle.lk_lit.specs.Operations.{is_app, named_op};
ghost use Rattle.lk_premises.specs.Claims.{claims_at, AreClaimsIn};
ghost use Rattle.lk_premises.specs.Testing.{Tests};
ghost use Rattle.lk_premises.specs.Words.{MakesName};
ghost use Rattle.lk_replay_reduce.specs.Operations.{operation_at};
ghost use Rattle.lk_replay_reduce.specs.Numbers.{number_at, pair_at, number_read, only_argument};
ghost use Rattle.lk_replay_reduce.specs.Numbers.{two_arguments, number_is, truth_read, value_read};
ghost use Rattle.lk_replay_reduce.specs.Numbers.{unary_read, binary_read, operation_read};
ghost use Rattle.lk_replay_reduce.specs.Numbers.{shaped_read, entry_read};

use crate::applications::parts_of;
use crate::operations::{Operation, may_give, operation_named};
use lk_ask::looks::Looks;
use lk_lit::nat_shape;
use lk_op::{BinaryOp, UnaryOp, Value, binary_value, unary_value};
use lk_premises::{
    Claim, Headed, comes_to, constant_of, dotted, head_meaning, meaning_of, nat_name, nat_zero,
    reduced, same_tree,
};
use lk_store::memory::NoMemory;
use lk_store::node::{ListNode, Node};
use lk_store::terms::Terms;
use std::alloc::Global;

/// A number that was read, and the premises after it.
#[derive(Clone, Copy)]
pub struct NumberRead<'a> {
    pub number: u128,
    pub after: &'a [u32],
}

/// Two arguments.
#[derive(Clone, Copy)]
pub struct ArgumentPair {
    pub first: u64,
    pub second: u64,
}

/// Whether `Nat` has its shape.
#[tactic(auto, using(lk_premises::proofs::Settled::settled_found, lk_premises::proofs::Settled::failed_found))]
fn has_nat_shape<L: Looks>(looks: &mut L) -> Result<bool, NoMemory>
    ensures { Tests L.contents (λ s. (L.sight (L.rest s)).basis) looks.old looks.new result
        (found (L.sight (L.rest looks.old)).basis.place nat_program) }
{
    match nat_shape(looks)? {
        Ok(()) => Ok(true),
        Err(_) => Ok(false),
    }
}

/// The number of a numeral: a literal, or `Nat.zero`.
fn numeral_of<T: Terms>(terms: &T, zero: u64, e: u64) -> Option<u128>
    requires zero_in { zero < length (T.contents terms.now).trees }
    requires zero_is { tree_at (T.contents terms.now) zero ≡ named zero_name }
    requires e_in { e < length (T.contents terms.now).trees }
    ensures { plain_numeral (tree_at (T.contents terms.now) e) ≡ result }
{
    match terms.view(e) {
        Node::Lit(number) => Some(number),
        Node::Const(_, _) => {
            if same_tree(terms, e, zero) {
                Some(0)
            } else {
                None
            }
        }
        _ => None,
    }
}

/// The number that a tree reduces to.
fn number_of<'a, T: Terms>(
    terms: &T,
    claims: &[Claim],
    left: &'a [u32],
    zero: u64,
    e: u64,
) -> Option<NumberRead<'a>>
    requires claims_in { AreClaimsIn (T.contents terms.now) claims.now }
    requires zero_in { zero < length (T.contents terms.now).trees }
    requires zero_is { tree_at (T.contents terms.now) zero ≡ named zero_name }
    requires e_in { e < length (T.contents terms.now).trees }
    ensures { let c = T.contents terms.now in
        number_read (claims_at c claims.now) left.now (tree_at c e) ≡ option_map number_at result }
{
    let form = reduced(terms, claims, left, e);
    match numeral_of(terms, zero, form.tree) {
        Some(number) => Some(NumberRead {
            number,
            after: form.after,
        }),
        None => None,
    }
}

fn is_application<T: Terms>(terms: &T, e: u64) -> bool
    requires { e < length (T.contents terms.now).trees }
    ensures { result ≡ is_app (tree_at (T.contents terms.now) e) }
{
    match terms.view(e) {
        Node::App(_, _) => true,
        _ => false,
    }
}

/// The argument of a tree that has one alone.
fn argument_of<T: Terms>(terms: &T, e: u64) -> Option<u64>
    requires { e < length (T.contents terms.now).trees }
    ensures is { let c = T.contents terms.now in
        only_argument (tree_at c e) ≡ option_map (tree_at c) result }
    ensures known { IfSome result (λ x. x < length (T.contents terms.now).trees) }
{
    let parts = parts_of(terms, e)?;
    if is_application(terms, parts.function) {
        None
    } else {
        Some(parts.argument)
    }
}

/// The arguments of a tree that has two.
fn arguments_of<T: Terms>(terms: &T, e: u64) -> Option<ArgumentPair>
    requires { e < length (T.contents terms.now).trees }
    ensures is { let c = T.contents terms.now in
        two_arguments (tree_at c e) ≡ option_map (pair_at c) result }
    ensures known { IfSome result (λ p. (p.first < length (T.contents terms.now).trees)
        × (p.second < length (T.contents terms.now).trees)) }
{
    let last = parts_of(terms, e)?;
    let first = parts_of(terms, last.function)?;
    if is_application(terms, first.function) {
        None
    } else {
        Some(ArgumentPair {
            first: first.argument,
            second: last.argument,
        })
    }
}

/// The name `Bool.true` or `Bool.false`.
fn bool_name<T: Terms>(alloc: Global, terms: &mut T, holds: bool) -> Result<u64, NoMemory>
    ensures { MakesName T.contents T.rest terms.old terms.new result (name_of_bool holds) }
{
    if holds {
        dotted(alloc, terms, b"Bool", b"true")
    } else {
        dotted(alloc, terms, b"Bool", b"false")
    }
}

/// Whether a tree is a constant of this name, which is given, and no premise is left.
fn is_constant<L: Looks>(looks: &mut L, left: &[u32], name: u64, b: u64) -> Result<bool, NoMemory>
    requires name_in { name < length (L.contents looks.old).names }
    requires b_in { b < length (L.contents looks.old).trees }
    ensures { let c = L.contents looks.old in
        Tests L.contents L.rest looks.old looks.new result
        (truth_read (L.sight (L.rest looks.old)).basis.place left.now (tree_at c b)
        (name_at c name)) }
{
    match meaning_of(looks, name) {
        Some(_) => {
            let e = constant_of(looks, name)?;
            Ok(comes_to(looks, b, e, left))
        }
        None => Ok(false),
    }
}

/// Whether a tree is a truth value, which is given, and no premise is left.
fn is_truth<L: Looks>(looks: &mut L, left: &[u32], holds: bool, b: u64) -> Result<bool, NoMemory>
    requires { b < length (L.contents looks.old).trees }
    ensures { Tests L.contents L.rest looks.old looks.new result
        (truth_read (L.sight (L.rest looks.old)).basis.place left.now
        (tree_at (L.contents looks.old) b) (name_of_bool holds)) }
{
    let name = bool_name(looks.alloc(), looks, holds)?;
    is_constant(looks, left, name, b)
}

/// Whether a tree is a number, and no premise is left.
fn is_number<T: Terms>(terms: &mut T, left: &[u32], number: u128, b: u64) -> Result<bool, NoMemory>
    requires { b < length (T.contents terms.old).trees }
    ensures { Tests T.contents T.rest terms.old terms.new result
        (number_is left.now (tree_at (T.contents terms.old) b) number) }
{
    let e = terms.make(Node::Lit(number))?;
    Ok(comes_to(terms, b, e, left))
}

/// Whether a tree is a value, and no premise is left.
fn is_value<L: Looks>(
    looks: &mut L,
    left: &[u32],
    value: Option<Value>,
    b: u64,
) -> Result<bool, NoMemory>
    requires { b < length (L.contents looks.old).trees }
    ensures { (o : Option PlainValue) → option_map value_at value ≡ fitting o
        → Tests L.contents L.rest looks.old looks.new result
        (value_read (L.sight (L.rest looks.old)).basis.place left.now
        (tree_at (L.contents looks.old) b) o) }
{
    match value {
        Some(value) => match value {
            Value::Number(number) => is_number(looks, left, number, b),
            Value::Truth(holds) => is_truth(looks, left, holds, b),
        },
        None => Ok(false),
    }
}

/// Whether a tree is what an operation gives of the number that the argument reduces to.
fn is_unary<L: Looks>(
    looks: &mut L,
    claims: &[Claim],
    left: &[u32],
    zero: u64,
    op: UnaryOp,
    a: u64,
    b: u64,
) -> Result<bool, NoMemory>
    requires claims_in { AreClaimsIn (L.contents looks.old) claims.now }
    requires zero_in { zero < length (L.contents looks.old).trees }
    requires zero_is { tree_at (L.contents looks.old) zero ≡ named zero_name }
    requires a_in { a < length (L.contents looks.old).trees }
    requires b_in { b < length (L.contents looks.old).trees }
    ensures { let c = L.contents looks.old in
        Tests L.contents L.rest looks.old looks.new result
        (unary_read (L.sight (L.rest looks.old)).basis.place (claims_at c claims.now) left.now
        (unary_at op) (tree_at c a) (tree_at c b)) }
{
    let Some(argument) = argument_of(looks, a) else {
        return Ok(false);
    };
    match number_of(looks, claims, left, zero, argument) {
        Some(read) => is_value(looks, read.after, unary_value(op, read.number), b),
        None => Ok(false),
    }
}

/// The same of two numbers.
fn is_binary<L: Looks>(
    looks: &mut L,
    claims: &[Claim],
    left: &[u32],
    zero: u64,
    op: BinaryOp,
    a: u64,
    b: u64,
) -> Result<bool, NoMemory>
    requires claims_in { AreClaimsIn (L.contents looks.old) claims.now }
    requires zero_in { zero < length (L.contents looks.old).trees }
    requires zero_is { tree_at (L.contents looks.old) zero ≡ named zero_name }
    requires a_in { a < length (L.contents looks.old).trees }
    requires b_in { b < length (L.contents looks.old).trees }
    ensures { let c = L.contents looks.old in
        Tests L.contents L.rest looks.old looks.new result
        (binary_read (L.sight (L.rest looks.old)).basis.place (claims_at c claims.now) left.now
        (binary_at op) (tree_at c a) (tree_at c b)) }
{
    let Some(arguments) = arguments_of(looks, a) else {
        return Ok(false);
    };
    let Some(first) = number_of(looks, claims, left, zero, arguments.first) else {
        return Ok(false);
    };
    match number_of(looks, claims, first.after, zero, arguments.second) {
        Some(second) => {
            let value = binary_value(op, first.number, second.number);
            is_value(looks, second.after, value, b)
        }
        None => Ok(false),
    }
}

/// Whether a tree is what an operation gives of as many numbers as it takes, which the arguments reduce to.
fn is_computed<L: Looks>(
    looks: &mut L,
    claims: &[Claim],
    left: &[u32],
    zero: u64,
    operation: Operation,
    a: u64,
    b: u64,
) -> Result<bool, NoMemory>
    requires claims_in { AreClaimsIn (L.contents looks.old) claims.now }
    requires zero_in { zero < length (L.contents looks.old).trees }
    requires zero_is { tree_at (L.contents looks.old) zero ≡ named zero_name }
    requires a_in { a < length (L.contents looks.old).trees }
    requires b_in { b < length (L.contents looks.old).trees }
    ensures { let c = L.contents looks.old in
        Tests L.contents L.rest looks.old looks.new result
        (operation_read (L.sight (L.rest looks.old)).basis.place (claims_at c claims.now) left.now
        (operation_at operation) (tree_at c a) (tree_at c b)) }
{
    match operation {
        Operation::Unary(op) => is_unary(looks, claims, left, zero, op, a, b),
        Operation::Binary(op) => is_binary(looks, claims, left, zero, op, a, b),
    }
}

/// The same, where `Nat` has its shape.
fn with_operation<L: Looks>(
    looks: &mut L,
    claims: &[Claim],
    left: &[u32],
    operation: Operation,
    a: u64,
    b: u64,
) -> Result<bool, NoMemory>
    requires claims_in { AreClaimsIn (L.contents looks.old) claims.now }
    requires a_in { a < length (L.contents looks.old).trees }
    requires b_in { b < length (L.contents looks.old).trees }
    ensures { let c = L.contents looks.old in
        Tests L.contents (λ s. (L.sight (L.rest s)).basis) looks.old looks.new result
        (shaped_read (L.sight (L.rest looks.old)).basis.place (claims_at c claims.now) left.now
        (operation_at operation) (tree_at c a) (tree_at c b)) }
{
    if !has_nat_shape(looks)? {
        return Ok(false);
    }
    let zero = nat_zero(looks.alloc(), looks)?;
    is_computed(looks, claims, left, zero, operation, a, b)
}

/// Whether a list has no level.
fn is_empty<T: Terms>(terms: &T, levels: u64) -> bool
    requires { levels < length (T.contents terms.now).lists }
    ensures { result ≡ passes (no_levels (list_at (T.contents terms.now) levels)) }
{
    match terms.levels(levels) {
        ListNode::Empty => true,
        ListNode::Cons(_, _) => false,
    }
}

/// The operation that a constant stands for by its name.
fn named_operation<T: Terms>(
    alloc: Global,
    terms: &mut T,
    name: u64,
) -> Result<Option<Operation>, NoMemory>
    requires { name < length (T.contents terms.old).names }
    ensures made { Made T.contents T.rest terms.old terms.new }
    ensures ok { IfOk result (λ o. option_map operation_at o
        ≡ named_op (name_at (T.contents terms.old) name)) }
{
    let nat = nat_name(alloc, terms)?;
    Ok(operation_named(terms, nat, name))
}

/// The same of the operation that this name stands for, without levels and of a fitting kind.
fn with_entry<L: Looks>(
    looks: &mut L,
    claims: &[Claim],
    left: &[u32],
    front: Headed,
    a: u64,
    b: u64,
) -> Result<bool, NoMemory>
    requires claims_in { AreClaimsIn (L.contents looks.old) claims.now }
    requires name_in { front.name < length (L.contents looks.old).names }
    requires levels_in { front.levels < length (L.contents looks.old).lists }
    requires a_in { a < length (L.contents looks.old).trees }
    requires b_in { b < length (L.contents looks.old).trees }
    ensures { let c = L.contents looks.old in (g : PlainEntry)
        → entry_at (L.sight (L.rest looks.old)).basis front.entry ≡ Some g
        → Tests L.contents (λ s. (L.sight (L.rest s)).basis) looks.old looks.new result
        (entry_read (L.sight (L.rest looks.old)).basis.place (claims_at c claims.now) left.now
        (name_at c front.name) (list_at c front.levels) g.kind (tree_at c a) (tree_at c b)) }
{
    if !is_empty(looks, front.levels) {
        return Ok(false);
    }
    match named_operation(looks.alloc(), looks, front.name)? {
        Some(operation) => {
            if !may_give(operation, front.entry.kind) {
                return Ok(false);
            }
            with_operation(looks, claims, left, operation, a, b)
        }
        None => Ok(false),
    }
}

/// A line of an operation on numbers.
pub fn test_operation<L: Looks>(
    looks: &mut L,
    claims: &[Claim],
    left: &[u32],
    a: u64,
    b: u64,
) -> Result<bool, NoMemory>
    requires claims_in { AreClaimsIn (L.contents looks.old) claims.now }
    requires a_in { a < length (L.contents looks.old).trees }
    requires b_in { b < length (L.contents looks.old).trees }
    ensures { let c = L.contents looks.old in
        Tests L.contents (λ s. (L.sight (L.rest s)).basis) looks.old looks.new result
        (red_operation (L.sight (L.rest looks.old)).basis.place (claims_at c claims.now) left.now
        (tree_at c a) (tree_at c b)) }
{
    match head_meaning(looks, a) {
        Some(front) => with_entry(looks, claims, left, front, a, b),
        None => Ok(false),
    }
}
